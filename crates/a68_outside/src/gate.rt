//! What may hold a worker of a parallel run up. No theorem speaks of it.
use std::marker::Sync;

/// A gate is called by the workers of a run, between what they do. A test uses one to hold a worker until another one
/// has come as far.
pub trait Gate: Sync {
    /// Called after each turn of a worker, with no lock held. `events` is how often this worker has called it in the
    /// run, with this call.
    fn pass(&self, worker: u32, strand: u32, events: u64);

    /// Called after an act that gave a reply, before the strand is told it. `place` is the byte of the text at which
    /// the strand stands.
    fn out(&self, _worker: u32, _strand: u32, _place: u32) {}
}

/// A gate that holds nobody up.
#[derive(Clone, Copy)]
pub struct FreeGate;

impl Gate for FreeGate {
    fn pass(&self, _worker: u32, _strand: u32, _events: u64) {}
}
