//! Annotation: what each node of a tree means, or the rule that the tree breaks.
#![tactic(auto)]

mod annotation;
mod laws;

pub use annotation::annotate;
pub use laws::{annotations_are_one, annotations_begin_by};
