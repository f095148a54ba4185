//! What is asked of each node of a tree: a strong goal, a mode or form by a weaker sort, or nothing (Report, 6.1.1, and the clauses of chapters 3
//! to 5).
#![tactic(auto)]

mod aside;
mod asker;
mod giving;
mod laws;
mod parts;
mod position;
mod table;

pub use laws::{
    positions_are_one, positions_are_sound, positions_keep_nodes, positions_keep_shapes,
};
pub use position::{Position, finding_of, position_of};
pub use table::positions;
