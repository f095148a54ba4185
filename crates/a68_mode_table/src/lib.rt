//! The modes of a text, as they grow: what later phases ask of them is kept in the type.
#![tactic(auto)]

mod growing;
mod laws;
mod table;

pub use laws::{
    growing_is_one, growing_is_sound, growing_keeps_nodes, growing_keeps_shapes, nodes_are_one,
};
pub use table::ModeTable;
