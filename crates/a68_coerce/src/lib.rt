//! Coercions and balancing (Report, chapter 6 and 3.2.1).
#![tactic(auto)]

mod balancing;
mod form;
mod goal;
mod laws;
mod leaf;
mod route;
mod sorts;
mod strong;
mod unite;
mod walk;

pub use balancing::{balance, balance_sides, balance_to_form};
pub use form::ModeForm;
pub use laws::{interning_keeps_paths, paths_are_one};
pub use leaf::{Balanced, Leaf};
pub use sorts::path;
