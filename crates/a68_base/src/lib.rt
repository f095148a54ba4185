//! What every crate of the compiler shares: spans of the text, rules and refusals, texts, statuses, limits, and tables of
//! spellings.
#![tactic(auto)]

mod limits;
mod memory;
mod refusal;
mod status;
mod table;
mod text;

pub use limits::{
    MOST_BYTES, MOST_COUNTED, MOST_FUEL, MOST_INSTRUCTIONS, MOST_MODES, MOST_PRINTED, MOST_READ,
    MOST_STRANDS, MOST_SYMBOLS, USUAL_FUEL,
};
pub use memory::NoMemory;
pub use refusal::{Refusal, Rule, Span, Stop};
pub use status::Status;
pub use table::{find, is_listed};
pub use text::Text;
