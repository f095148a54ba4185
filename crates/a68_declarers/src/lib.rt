//! The declarers of a tree: the modes that they declare, as they stand and without FLEX, and the rules on mode words, on the
//! number of declarers and on bounds (Report, 4.6 and 4.8).
#![tactic(auto)]

mod actual;
mod bounds;
mod crowd;
mod form;
mod numbers;
mod raw;
mod reading;
mod shapes;
mod words;

pub use bounds::{bracket, wrong_bounds};
pub use crowd::{count, crowded};
pub use form::{DeclarerForm, form_of};
pub use numbers::{Numbers, numbers_of, twin};
pub use raw::{add_blank, raw_modes};
pub use reading::{follow, is_declarer, place_of, sooner};
pub use shapes::last_mode;
pub use words::undefined_word;
