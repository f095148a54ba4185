//! What denotations stand for: the values of numbers, bits and strings.
#![tactic(auto)]

mod numbers;
mod strings;

pub use numbers::{bits_of, int_of, long_of};
pub use strings::string_of;
