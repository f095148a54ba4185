//! The nodes of a tree as a parser reads it.
#![tactic(auto)]

mod closing;
mod draft;
mod drafting;
mod frames;

pub use draft::Draft;
pub use drafting::Drafting;
