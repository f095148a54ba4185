//! The instructions that steer, calls and replies, and silent steps: those of a strand up to its next act, fault or end.
#![tactic(auto)]

mod control;
mod exec;
mod members;
mod reply;
mod rooms;
mod routines;

pub use control::{cut_back, place_in};
pub use exec::{does_at, go_on, most_steps, run, runs, settle};
pub use reply::{place_at, resume, resume_plain};
pub use rooms::Rooms;
pub use routines::go_back;
