//! A gate that each worker passes before its part of the work.

/// A place where a worker may be held up. It has no meaning but that it returns: a test uses it to
/// see two workers inside at once.
pub trait Gate {
    /// Passes the gate before the part of this number. It returns.
    fn enter(&self, part: u64);
}

/// A gate that holds up nobody.
#[derive(Clone, Copy, Debug, PartialEq, Eq)]
pub struct OpenGate;

impl Gate for OpenGate {
    fn enter(&self, _part: u64) {}
}

/// An open gate is handed to several workers: this call is proved only where that is allowed.
fn is_shared<T: Send + Sync>(_gate: &T) {}

fn open_gate_is_shared(gate: &OpenGate) {
    is_shared(gate)
}
