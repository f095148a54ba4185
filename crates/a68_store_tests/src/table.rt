//! Cases of tests.
ghost use Rattle.std.specs.Prelude.{IsTrue};

use std::process::Abort;

/// What a case says holds, or the test fails and names the case.
pub fn holds(rt: &impl Abort, holds: bool, case: &str)
    ensures { IsTrue holds }
{
    if !holds {
        rt.panic(case)
    }
}
