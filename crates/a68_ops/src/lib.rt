//! The operators of the standard environ (Report, 10.2.3): what each that yields at once yields; and how values are written
//! (10.3.2.1).
#![tactic(auto)]

mod applied;
mod bits;
mod integers;
mod laws;
mod longs;
mod operator;
mod printing;
mod stop;
mod texts;
mod unset;

pub use applied::{apply, apply_monadic, apply_plain, apply_to_ints, updated};
pub use laws::{at_most_is_told_by_places, mod_gives_a_rest, operators_fit_their_modes};
pub use printing::{item_text, whole};
pub use stop::OpStop;
pub use texts::{is_text, text_value};
pub use unset::is_unset;
