//! Ranges: which words they declare, and the definition that counts at each place (Report, 3.0.2, 4.8 and 7.2).
#![tactic(auto)]

mod build;
mod declared;
mod index;
mod laws;
mod layers;
mod nests;
mod operators;
mod reading;
mod sort;
mod standard;
mod tables;
pub mod tags;
mod visible;
mod written;

pub use build::ranges;
pub use laws::priorities_are_one;
pub use nests::Layer;
pub use sort::{IndicatorKind, defines};
pub use tables::Ranges;
