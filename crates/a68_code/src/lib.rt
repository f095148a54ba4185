//! The code of the machine: instructions, and which lists of them the machine runs.
#![tactic(auto)]

mod code;
mod does;
mod operands;
mod order;
mod owner;
mod places;
mod valid;
mod walk;

pub use code::{Code, Instr, Instrs, RoutineEntrance, Routines};
pub use does::Does;
pub use operands::{operands_of, slice_takes, values_of_trims};
pub use places::{Places, last_place};
