//! The program once more, for a run that prints and then meets a fault: what belongs to which stream, and the status.
#![tactic(auto)]

use a68_program::start;
use std::process::ExitCode;

fn main(rt: HostRuntime) -> ExitCode {
    start(&rt, rt.stdout(), rt.stderr())
}
