//! What the units of a tree may yield, whatever is asked of them, and what is found for the parts of which something is asked (Report, 3.2.1, 3.4.1,
//! 5.2 to 5.4).
#![tactic(auto)]

mod found;
mod laws;
mod leaves;
mod parts;
mod sought;
mod table;
mod told;
mod yielding;

pub use found::part_found;
pub use laws::{yields_are_one, yields_are_sound, yields_keep_nodes};
pub use leaves::leaves_of;
pub use parts::{Rowed, Structured, as_row, as_structure};
pub use sought::{Expectation, Sought, is_subscript};
pub use table::{Yields, find_yields};
pub use told::{has_exit, is_unknown};
pub use yielding::{Finding, Yielding, yield_of};
