//! The outside: where texts come from, where bytes go, and what may hold a worker up.
#![tactic(auto)]

mod gate;
mod memory;
mod shelf;
mod sink;
mod transfer;

pub use gate::{FreeGate, Gate};
pub use memory::{MemoryShelf, MemorySink};
pub use shelf::Shelf;
pub use sink::Sink;
pub use transfer::{ReadStop, read_at_most, write_whole};

/// A read or a write failed.
#[derive(Clone, Copy, Debug, PartialEq, Eq)]
pub struct Failed;
