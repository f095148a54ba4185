//! Values, the acts of a run, and what a run keeps.
#![tactic(auto)]

mod act;
mod bounds;
mod chain;
mod held;
mod kept;
mod log;
mod plain;
mod value;

pub use act::{Act, Entry, FaultKind};
pub use bounds::Bounds;
pub use chain::{Chain, Entrances, Environ};
pub use held::{Cells, Descriptor, Dim, Dims, Held, Slots};
pub use kept::{End, Journal, Kept};
pub use log::{Brief, Entries, Log};
pub use plain::{Layout, Long, Name, Plain, Routine};
pub use value::{Elements, Value, ValueNode, Values};
