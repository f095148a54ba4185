//! Runs by several workers, each of which carries a strand outside the slot in which the run lies.
#![tactic(auto)]

mod carry;
mod crew;
mod plays;
mod runs;
mod steps;

pub use runs::{run, run_leased};
