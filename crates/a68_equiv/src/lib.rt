//! Modes that are equivalent, well formed, or related (Report, 7.3, 7.4 and 7.1).
#![tactic(auto)]

mod classes;
mod codes;
mod firm;
mod formed;
mod graph;
mod interning;
mod keys;
mod mode;
mod rows;
mod spread;
mod steps;
mod walk;

pub use classes::{Classes, settle};
pub use firm::{among, leads, meek, related};
pub use formed::{all_have_dimensions, all_well_formed, comes_back, ill_formed};
pub use graph::behind;
pub use interning::intern;
pub use mode::Mode;
pub use steps::{Inward, graph as graph_of};
