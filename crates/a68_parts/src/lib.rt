//! What the constructs of an annotated tree are made of: parts, values, fields, loops, and the modes of coercions.
#![tactic(auto)]

mod constants;
mod fields;
mod loops;
mod nodes;
mod rowing;

pub use constants::{is_quoted, long_value_in, standard_of, truths, value_in};
pub use fields::{fields_at, first_goal, selected_fields};
pub use loops::{LoopParts, loop_parts, only_id};
pub use nodes::{
    before_out, begins_in_heap, begins_with_declarer, behind_heap, behind_proc, behind_ref, called,
    is_exit, is_label, is_labelled, is_one_of, items_at, kind_at, last_id, mode_at, out_of,
    parts_at, printers, wholes,
};
pub use rowing::{Rowings, last_rowings, rowed_by, rowed_to};
