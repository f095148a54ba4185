//! Tests of values, operators and layouts, by hand; and modes, plain values and rows in words, for them and for other tests.
#![tactic(auto)]

mod cells;
#[cfg(test)]
mod layout;
#[cfg(test)]
mod longs;
pub mod modes;
#[cfg(test)]
mod ops;
#[cfg(test)]
mod table;
#[cfg(test)]
mod values;

pub use cells::{plain, plain_in, tell_row};
