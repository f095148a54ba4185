//! The program over the files and the streams of a process.
#![tactic(auto)]

mod adapters;
mod process;

pub use process::start;
