//! The text of a program with as many strands as are asked for.
#![tactic(auto)]

mod maker;

pub use maker::{FEWEST_UNITS, MOST_UNITS, make_text};
