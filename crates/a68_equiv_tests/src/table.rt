//! Lines of the tables that tests read, and what is said of them.
ghost use Rattle.std.specs.Prelude.{IsTrue};

use std::alloc::Global;
use std::panic::Expect;
use std::process::Abort;
use std::str::SplitWhitespace;

/// What stands before and behind a mark in a line.
pub fn cut<'a>(rt: &impl Abort, line: &'a str, mark: &str) -> (&'a str, &'a str) {
    line.split_once(mark).expect(rt, "a mark")
}

/// The number that a word is.
pub fn number(rt: &impl Abort, word: &str) -> u32 {
    word.parse().expect(rt, "a number")
}

/// The numbers that these words are.
pub fn numbers(rt: &impl Abort, alloc: Global, words: SplitWhitespace<'_>) -> Vec<u32> {
    let mut numbers = Vec::new(alloc);
    for word in words {
        numbers.push(number(rt, word)).expect(rt, "memory");
    }
    numbers
}

/// What a case says holds, or the test fails and names the case.
pub fn holds(rt: &impl Abort, holds: bool, case: &str)
    ensures { IsTrue holds }
{
    if !holds {
        rt.panic(case)
    }
}

/// What was found is what a line says of this case.
pub fn agrees(rt: &impl Abort, found: &str, told: &str, case: &str) {
    holds(rt, found == told, case);
}
