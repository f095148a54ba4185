//! Looking ahead: what a phrase, a unit or a choice is, where no bounded number of symbols tells it.
#![tactic(auto)]

mod laws;
mod look;
mod symbols;

pub use laws::{choices_are_told, routines_are_told, units_are_no_declarations, units_begin};
pub use look::{phrase_ahead, routine_ahead, spec_ahead};
pub use symbols::{
    ends_bound, ends_trimmer, is_declarer, is_denotation, is_monadic, is_operator, is_plain,
    label_ahead, starts, starts_pair,
};
