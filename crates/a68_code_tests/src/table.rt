//! Lines of tables.
ghost use Rattle.std.specs.Prelude.{IsTrue};

use std::panic::Expect;
use std::process::Abort;

/// What stands before and behind a mark in a line.
pub fn cut<'a>(rt: &impl Abort, line: &'a str, mark: &str) -> (&'a str, &'a str) {
    line.split_once(mark).expect(rt, "a mark")
}

/// What a case says holds, or the test fails and names the case.
pub fn holds(rt: &impl Abort, holds: bool, case: &str)
    ensures { IsTrue holds }
{
    if !holds {
        rt.panic(case)
    }
}

/// What was found is what a line says of this case.
pub fn agrees(rt: &impl Abort, found: &str, told: &str, case: &str) {
    holds(rt, found == told, case);
}
