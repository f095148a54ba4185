//! Goals: the grammar of units, declarers and declarations in the form in which a text is read from left to right.
#![tactic(auto)]

pub mod declarations;
pub mod declarers;
mod goal;
pub mod primaries;
pub mod units;

pub use goal::{Defining, Goal};
