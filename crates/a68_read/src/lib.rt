//! Reading: from the symbols of a text to the nodes of its tree.
#![tactic(auto)]

mod act;
mod kinds;
mod program;
mod ready;
mod take;
mod unread;

pub use program::read;
pub use unread::Unread;
