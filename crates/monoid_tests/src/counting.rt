//! A gate that counts who comes.

use std::sync::atomic::{AtomicU64, Ordering};
use syn_outside::Gate;

/// How often each of the first six parts came, and how often another one did.
#[derive(Drop)]
pub(crate) struct CountingGate {
    parts: [AtomicU64; 6],
    others: AtomicU64,
}

impl Gate for CountingGate {
    fn enter(&self, part: u64) {
        let counter = self.parts.get(part as usize).unwrap_or(&self.others);
        counter.fetch_add(1, Ordering::SeqCst);
    }
}

impl CountingGate {
    /// A gate at which nobody has been.
    pub(crate) fn new() -> CountingGate {
        CountingGate {
            parts: [
                AtomicU64::new(0),
                AtomicU64::new(0),
                AtomicU64::new(0),
                AtomicU64::new(0),
                AtomicU64::new(0),
                AtomicU64::new(0),
            ],
            others: AtomicU64::new(0),
        }
    }

    /// Whether each of the parts 0 to 5 came once, and no other one.
    pub(crate) fn is_six_once(&self) -> bool {
        for counter in &self.parts {
            if counter.load(Ordering::SeqCst) != 1 {
                return false;
            }
        }
        self.others.load(Ordering::SeqCst) == 0
    }
}
