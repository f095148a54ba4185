//! What is said of the cases of tables.
ghost use Rattle.std.specs.Prelude.{IsTrue};

use std::process::Abort;

/// What a case says holds, or the test fails and names the case.
pub fn holds(rt: &impl Abort, holds: bool, case: &str)
    ensures { IsTrue holds }
{
    if !holds {
        rt.panic(case)
    }
}

/// What was found is what a line says of this case.
pub fn agrees(rt: &impl Abort, found: &str, told: &str, case: &str) {
    holds(rt, found == told, case);
}
