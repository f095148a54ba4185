//! Instructions one behind the other: the writer, what is looked up where they are written, and what is written of
//! constructs without their parts.
#![tactic(auto)]

mod chains;
mod coercions;
mod emit;
mod ends;
mod entered;
mod forks;
mod labels;
mod loops;
mod numbered;
mod seat;
mod single;
mod specifications;
mod view;
mod writer;

pub use chains::{Link, link_of, next_link};
pub use coercions::{are_built, coerce};
pub use emit::{push_int, zeros};
pub use ends::{Opened, close_all, keep, keep_open, shut};
pub use entered::{Entered, UnitNode};
pub use forks::parallel;
pub use loops::{depth, leave_frames, limit, loop_turn, open};
pub use numbered::Numbered;
pub use seat::{Clause, clauses_with, jump, keep_label};
pub use single::{
    CollateralForm, denotation, form_at, forms_of, is_heap, leave, long_denotation, meaningless,
    misfit, mode_in_front, new_does, nothing, same, store, tag,
};
pub use specifications::{aim_member, goal_at, has_tag, members_of, unaimed};
pub use view::{View, hops};
pub use writer::Writer;
