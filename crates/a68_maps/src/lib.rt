//! Maps from numbers to numbers, each made from an earlier one, which stays as it was.
#![tactic(auto)]

mod maps;

pub use maps::{Map, Maps};
