//! Runs to their ends: by one worker, which takes the strands in a circle, or by several under one lock.
#![tactic(auto)]

mod alone;
mod held;
mod laws;
mod resting;
mod runs;
mod shared;

pub use held::{GivenRun, HeldWorld};
pub use laws::{ended_runs_do_no_more, one_worker_has_a_run, one_worker_has_one_run};
pub use runs::{run_all, run_alone, run_while_alone};
