//! The modes of all declarers of a tree, or the first rule that they break (Report, 4.6 to 4.8 and 7.4).
#![tactic(auto)]

mod call;
mod clean;
mod formed;
mod image;
mod laws;
mod modes;
mod numbering;
mod slopes;
mod unions;

pub use call::declare;
pub use laws::{declarations_are_one, declarations_begin_by};
pub use modes::{Declared, NodeModes};
