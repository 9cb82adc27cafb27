//! Two workers at once, in the enumeration and in the table.

use crate::running::{Devices, NEVER, run_on};
use std::alloc::Global;
use std::hint::spin_loop;
use std::sync::atomic::{AtomicU64, Ordering};
use std::test::Fail;
use std::thread::Threads;
use syn_outside::{Gate, MemSink, OpenGate};

/// A gate at which each of two parts waits for the other one: as long as it takes to see that the other has come as
/// often, or for a bounded time. After one wait in vain it waits no more.
#[derive(Drop)]
struct MeetingGate {
    first: AtomicU64,
    second: AtomicU64,
    missed: AtomicU64,
}

impl Gate for MeetingGate {
    fn enter(&self, part: u64) {
        let (own, other) = match part {
            0 => (&self.first, &self.second),
            _ => (&self.second, &self.first),
        };
        let times = own.fetch_add(1, Ordering::SeqCst).wrapping_add(1);
        for _ in 0..200_000_000 {
            if other.load(Ordering::SeqCst) >= times || self.missed.load(Ordering::SeqCst) > 0 {
                return;
            }
            spin_loop();
        }
        self.missed.fetch_add(1, Ordering::SeqCst);
    }
}

/// What the output gains of the table of the words whose fourth letter from the end is a, made by some workers.
fn table_text<R: Threads + Sync, G: Gate + Sync>(
    rt: &R,
    alloc: Global,
    workers: &str,
    gate: &G,
) -> Result<MemSink, Fail> {
    let devices = Devices {
        file: "synmon 1\nalphabet ab\nexpr (a|b)*a(a|b)(a|b)(a|b)\n",
        failing_read: NEVER,
        out_room: 10_000,
        out_step: 10_000,
        failing_write: NEVER,
        errs_room: 100,
    };
    let words = ["table", "--workers", workers, "name"];
    let told = run_on(rt, alloc, &words, &devices, gate)?;
    Ok(told.out)
}

/// The words of length 0 to 4 have their rows in five batches of 2, 4, 8, 16 and 32 rows; with the table each part passes
/// the gate six times, and goes on only when the other one has come.
#[test]
fn two_workers_meet(rt: HostRuntime) -> Result<(), Fail> {
    let gate = MeetingGate {
        first: AtomicU64::new(0),
        second: AtomicU64::new(0),
        missed: AtomicU64::new(0),
    };
    let two = table_text(&rt, rt.alloc(), "2", &gate)?;
    assert!(rt; two.bytes().starts_with(b"table 31\n0 1 2 3 "));
    assert_eq!(rt; gate.missed.load(Ordering::SeqCst), 0);
    assert_eq!(rt; gate.first.load(Ordering::SeqCst), 6);
    assert_eq!(rt; gate.second.load(Ordering::SeqCst), 6);
    let one = table_text(&rt, rt.alloc(), "1", &OpenGate)?;
    assert_eq!(rt; two.bytes(), one.bytes());
    Ok(())
}
