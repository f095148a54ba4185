//! The races of a journal: what two strands did to one cell, neither before the other.
#![tactic(auto)]

mod cells;
mod clock;
mod clocks;
mod find;
mod laws;
mod lines;
mod race;
mod watch;

pub use find::races;
pub use laws::races_are_one;
pub use lines::race_text;
pub use race::{MOST_SHOWN, MOST_WATCHED, Pair, RaceStop, Races};
