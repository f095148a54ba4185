//! The parser: from the symbols of a text, with the classes of its words, to its tree.
#![tactic(auto)]

mod nodes;
mod places;
mod program;
mod spellings;
mod text;
mod whole;

pub use places::place;
pub use program::{parse, symbols_are_bounded, trees_lie_in_texts};
