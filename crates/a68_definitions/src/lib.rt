//! The definitions of applied tags, and the modes of definitions (Report, 4.4.1, 4.5.1, 4.8.1 and 5.4.1).
#![tactic(auto)]

mod applied;
mod defined;
mod laws;
mod reading;
mod requests;

pub use applied::{Tags, applied_tags, called_by, called_tag};
pub use defined::defined_modes;
pub use laws::{
    definitions_are_one, definitions_are_sound, definitions_keep_nodes, definitions_keep_shapes,
    modes_of_declarers_are_below,
};
pub use reading::{is_label, kind_of, part_from_end, part_number, parts_from, parts_of};
pub use requests::first_declarer;
