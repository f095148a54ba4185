//! What each node of a tree means, or the first rule that is broken of those of modes, operators, coercions and counts (Report, 3 to 5, 6.1, 7).
#![tactic(auto)]

mod laws;
mod meaning;

pub use laws::{meanings_are_one, meanings_begin_by};
pub use meaning::{Meaning, find_meaning};
