//! Input by lines: a program in front of which stand definitions by which it reads them.
#![tactic(auto)]

mod joining;
mod laws;
mod lines;
mod pieces;

pub use joining::{Joined, join};
pub use laws::{
    joined_texts_have_the_symbols, lines_are_one, lines_read_back, preludes_have_symbols,
};
pub use lines::{InputStop, Lines, MOST_INPUT, MOST_LINES, lines_of};
