//! Operations on rows and on the names of rows, and operators on texts that are combined with assignation.
#![tactic(auto)]

mod bounds;
mod displays;
mod ints;
mod naming;
mod slices;
mod texts;

pub use bounds::{bound_of, bounded, bounded_by};
pub use displays::{displayed, rowed, vacuous, widened};
pub use ints::{Ints, ints_of};
pub use naming::{names_field, names_row, rowed_name, with_dimension};
pub use slices::{names_part, sliced};
pub use texts::{extends, updating_text};
