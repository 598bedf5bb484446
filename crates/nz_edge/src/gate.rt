//! Gates that workers pass.

/// Where a worker stops by before each batch. Nothing is promised of it.
pub trait Gate {
    /// The worker, from 0, is about to do the batch of this number, from 1.
    fn arrive(&self, worker: u8, batch: u64);
}

/// A gate that lets everybody through at once.
#[derive(Clone, Copy, Debug)]
pub struct OpenGate;

impl OpenGate {
    pub fn new() -> OpenGate {
        OpenGate
    }
}

impl Gate for OpenGate {
    fn arrive(&self, _worker: u8, _batch: u64) {}
}
