//! Building code: instructions written one behind the other, and places that are known later.
#![tactic(auto)]

mod builder;
mod labels;

pub use builder::{BuildStop, Builder};
pub use labels::Labels;
