//! What is known of each node of a tree that breaks no rule: its mode, its coercions, its operator, its definition and where the value of that
//! stands, and what a routine text uses from outside (Report, 2.1.1.3, 3.2, 4.4, 4.8, 5.4.2, 6.1.1 and 7.2.2); and the rows by way of which a
//! value becomes a row of several dimensions (6.6).
#![tactic(auto)]

mod applied;
mod field;
mod laws;
mod needs;
mod notes;
mod path;
mod rows;
mod step;
mod voided;

pub use laws::{notes_are_one, paths_lead};
pub use notes::find_notes;
pub use rows::add_rows;
