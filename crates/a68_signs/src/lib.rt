//! The signs of the standard environ (Report, 10.2.3): their priorities and the operators that they have, in one table.
#![tactic(auto)]

pub mod operators;
mod signs;

pub use signs::{Operator, candidates, is_sign, priority_of};
