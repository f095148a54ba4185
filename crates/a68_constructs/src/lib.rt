//! The instructions of constructs, with those of the constructs within them.
#![tactic(auto)]

mod calls;
mod choices;
mod conformity;
mod endings;
mod names;
mod parts;
mod rows;
mod steps;
mod turns;

pub use rows::unit;
