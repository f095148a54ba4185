//! Tests of acts and operations, by hand; and acts and operations in words, for them and for the tests of the machine.
#![tactic(auto)]

#[cfg(test)]
mod acts;
#[cfg(test)]
mod operations;
#[cfg(test)]
mod rows;
mod shown;
#[cfg(test)]
mod structures;
#[cfg(test)]
mod table;

pub use shown::{act, doing};
