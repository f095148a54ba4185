//! Where values lie in the store: how many cells a mode takes, the cells of a new name, and the elements and parts of rows.
#![tactic(auto)]

mod cells;
mod counting;
mod counting_values;
mod extents;
mod finding;
mod making;
mod making_values;
mod measured;
mod needs;
mod picking;
mod plans;
mod rows;
mod spreading;
mod stretches;
mod types;
mod views;
mod wanted;

pub use cells::{cells_before, cells_of, end_of, fields_width};
pub use measured::Measured;
pub use needs::takes_bounds;
pub use plans::{plan, plan_elements, plan_for};
pub use rows::new_row;
pub use types::{LayoutStop, Plan, Trim, TrimForm, TrimForms, Trims};
pub use views::{cells_seen, element, part_of, view};
