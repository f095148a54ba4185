//! Modes as the nodes of a graph (Report, 4.6 and 4.7): their shapes, the list of them, and the names of coercions.
#![tactic(auto)]

mod coercion;
mod lists;
mod modes;
mod order;
mod shape;
pub mod standard;
mod widths;

pub use coercion::{Coercion, Path, Sort};
pub use lists::{Fields, Members};
pub use modes::{ModeStop, Modes};
pub use order::inner_first;
pub use shape::{ModeId, Shape};
