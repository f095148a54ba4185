//! What a strand asks of the store, what the store does, and what an operation does with the values of its parts: all
//! that the elaboration and the machine have in common. The definitions stand here; the crates above do as they say.
#![tactic(auto)]

mod operation;
mod step;
mod want;

pub use operation::{Counter, Doing, Next};
pub use step::{Left, Step, Steps};
pub use want::{Reply, Want};
