//! What the act of a strand comes to.
use a68_values::{Act, FaultKind};

/// What the act of a strand comes to.
#[derive(Drop)]
pub enum Deed {
    /// The act is done, and the strand has been told.
    Told(Act),
    /// The act is done, and there was no memory to tell the strand.
    Untold(Act),
    /// The act meets a fault.
    Refused(FaultKind),
    NoMemory,
}
