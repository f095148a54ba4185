//! Operators: how the signs of a formula stand over their operands (Report, 5.4.2).
#![tactic(auto)]

mod formula;
mod lacking;
mod place;
mod reading;
mod trees;

pub use formula::{FormulaPart, Operand, Sign};
pub use trees::{shape, shaped_trees_begin_alike, shapes_are_one};
