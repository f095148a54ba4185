//! A text laid out anew.
#![tactic(auto)]

mod laws;
mod layout;

pub use laws::listings_keep_the_symbols;
pub use layout::{MOST_INDENT, listing};
