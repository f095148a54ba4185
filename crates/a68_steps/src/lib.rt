//! Operations of many acts, step by step: fetching and assigning values that are made of others, structures, and the
//! values of SKIP.
#![tactic(auto)]

mod elements;
mod fetching;
mod going;
mod skips;
mod structures;

pub use elements::{bounds_of, same_bounds};
pub use fetching::fetch_elements;
pub use going::{goes, stepped};
pub use skips::{no_elements, skipped};
pub use structures::{assigned, assigned_parts, composed, fetched_parts, selected};
