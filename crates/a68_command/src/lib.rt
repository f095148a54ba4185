//! The words of the command line: `clap` splits them, and the numbers are read here.
#![tactic(auto)]

mod command;
mod laws;
mod splitting;
mod words;

pub use command::{Command, FileName};
pub use words::{MOST_TRACED_FUEL, MOST_WORKERS, command_of};
