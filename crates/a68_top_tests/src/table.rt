//! What is said of the cases of tables.
ghost use Rattle.std.specs.Prelude.{IsTrue};

use std::alloc::{AllocError, Global};
use std::panic::Expect;
use std::process::Abort;

/// What a case says holds, or the test fails and names the case.
pub fn holds(rt: &impl Abort, holds: bool, case: &str)
    ensures { IsTrue holds }
{
    if !holds {
        rt.panic(case)
    }
}

/// Owned copies of words.
pub fn strings(rt: &impl Abort, alloc: Global, words: &[&str]) -> Vec<String> {
    let mut strings: Vec<String> = Vec::new(alloc);
    for word in words {
        let string = String::from_str(alloc, word).expect(rt, "memory");
        strings.push(string).expect(rt, "memory");
    }
    strings
}

/// A text of so many equal pieces between two others.
pub fn repeated(
    alloc: Global,
    first: &str,
    piece: &str,
    count: u32,
    last: &str,
) -> Result<String, AllocError> {
    let mut text = String::from_str(alloc, first)?;
    for _ in 0..count {
        text.push_str(piece)?;
    }
    text.push_str(last)?;
    Ok(text)
}
