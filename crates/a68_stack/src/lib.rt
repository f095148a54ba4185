//! The stack of a strand.
#![tactic(auto)]

mod caller;
mod packed;
mod stack;

pub use caller::Caller;
pub use stack::{Item, Stack};
