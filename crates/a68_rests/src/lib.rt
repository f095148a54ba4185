//! Numbers that rest: until they are roused, or while a cell is not open.
#![tactic(auto)]

mod opened;
mod rests;
mod waiters;

pub use rests::Rests;
