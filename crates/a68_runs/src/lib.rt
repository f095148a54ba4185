//! Which nodes of an annotated tree run: each is looked at by itself.
#![tactic(auto)]

mod bounds;
mod conformity;
mod outcomes;
mod paths;
mod runs;
mod slices;

pub use bounds::{bounds_of, further};
pub use outcomes::{leaves, outcome};
pub use runs::{is_run, look_at_all};
pub use slices::form_of;
