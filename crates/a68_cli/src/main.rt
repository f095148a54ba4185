//! The program.
#![tactic(auto)]

use a68_program::start;
use std::process::ExitCode;

fn main(rt: HostRuntime) -> ExitCode {
    start(&rt, rt.stdout(), rt.stderr())
}
