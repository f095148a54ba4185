//! Sets of numbers, as words of bits.
#![tactic(auto)]

mod marks;

pub use marks::Marks;
