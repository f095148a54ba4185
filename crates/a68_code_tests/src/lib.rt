//! Tests of codes and of how they are built, by hand; and codes by words, for them and for the tests of the machine.
#![tactic(auto)]

#[cfg(test)]
mod builder;
#[cfg(test)]
mod code;
mod codes;
#[cfg(test)]
mod table;

pub use codes::{code_of, code_over, modes_with_pair};
