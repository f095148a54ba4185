//! The fields of structures, each found at once by its tag (Report, 5.3.1).
#![tactic(auto)]

mod table;

pub use table::{Field, FieldTable};
