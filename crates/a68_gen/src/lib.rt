//! Translation to code: the instructions of a program, in order.
#![tactic(auto)]

mod translate;

pub use translate::{generate, translations_are_listings};
