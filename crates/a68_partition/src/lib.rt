//! Classes of the numbers of a graph: one class exactly where the unfoldings are equal.
#![tactic(auto)]

mod finite;
mod rounds;
mod row;
mod split;

pub use rounds::{Table, numbered, refine, row_key};
pub use row::Row;
