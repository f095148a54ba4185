//! Trees: their nodes and the grammar (Report, 1.1.2).
#![tactic(auto)]

mod kind;
mod laws;
mod node;
mod tree;

pub use kind::NodeKind;
pub use laws::{definitions_are_one_or_several, derived_trees_are_lists};
pub use node::{FrameStep, Node, NodeId, Parts};
pub use tree::Tree;
