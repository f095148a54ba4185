//! The classes of the words of a text, and how deep its symbols are nested.
#![tactic(auto)]

mod class;
mod classify;
mod definitions;
mod known;
mod levels;
mod places;
mod role;
mod spelling;

pub use class::{Class, Classed};
pub use classify::{classes_are_one, words};
