//! Operators: which one a formula applies, and related ones that one range may not have (Report, 7.1.1 and 7.2.1).
#![tactic(auto)]

mod apart;
mod fitting;
mod identified;
mod laws;
mod listed;
mod operands;
mod reading;
mod related;

pub use identified::{Identified, identify};
pub use laws::{declared_modes_are_there, interning_keeps_operators, operators_are_one};
pub use listed::OperatorModes;
pub use related::related_pair;
