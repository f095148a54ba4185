//! Reports: the lines on notes, and the listing of a code.
#![tactic(auto)]

mod constant;
mod lines;
mod listing;
mod name;
mod put;
mod variables;

pub use lines::{
    READ_FAULT, USAGE, end_line, moved_end_line, moved_refusal_line, refusal_line, units_line,
};
pub use listing::code_text;
pub use variables::names_text;
