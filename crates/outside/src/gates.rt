/// A gate that a worker passes before each of its look-ups. It changes nothing.
pub trait Gate: Sync {
    /// Lets the worker with this number pass before its look-up with this number. Both count from 0, and a number
    /// above 2^32 - 1 is given as 2^32 - 1.
    fn pass(&self, worker: u32, turn: u32);
}

/// The gate that is always open.
#[derive(Debug, Drop, Clone, Copy)]
pub struct OpenGate;

impl Gate for OpenGate {
    fn pass(&self, _worker: u32, _turn: u32) {}
}
