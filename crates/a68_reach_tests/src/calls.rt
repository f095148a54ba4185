//! Calls over two files in memory, and what they left.
use crate::table::{holds, strings};
use a68_base::Rule;
use a68_outside::{FreeGate, MemoryShelf, MemorySink};
use a68_top::{Finish, a68};
use std::alloc::Global;
use std::marker::Sync;
use std::panic::Expect;
use std::process::Abort;
use std::sync::Wait;
use std::thread::Threads;

/// What is handed to a call: its words, the text under `f`, that under `s`, and the reads that fail.
#[derive(Clone, Copy)]
pub struct Given<'a> {
    pub words: &'a [&'a str],
    pub text: &'a [u8],
    pub other: &'a [u8],
    pub reads_fail: &'a [u64],
}

/// What a call left.
#[derive(Drop)]
pub struct Remainder {
    pub finish: Finish,
    pub out: MemorySink,
    pub notes: MemorySink,
}

/// A call of these words where nothing fails.
pub fn of_texts<'a>(words: &'a [&'a str], text: &'a str, other: &'a [u8]) -> Given<'a> {
    Given {
        words,
        text: text.as_bytes(),
        other,
        reads_fail: &[],
    }
}

/// What a call leaves. A read gives 4,096 bytes at most.
pub fn call<R: Threads + Wait + Sync + Abort>(
    rt: &R,
    alloc: Global,
    given: Given<'_>,
) -> Remainder {
    let words = strings(rt, alloc, given.words);
    let fails = given.reads_fail;
    let mut shelf = MemoryShelf::new(alloc, "f", given.text, 4_096, fails).expect(rt, "memory");
    shelf.put("s", given.other).expect(rt, "memory");
    let mut out = MemorySink::new(alloc, 10_000, 4_096, &[]).expect(rt, "memory");
    let mut notes = MemorySink::new(alloc, 400, 400, &[]).expect(rt, "memory");
    let finish = a68(
        rt, alloc, &words, &mut shelf, &mut out, &mut notes, &FreeGate,
    );
    drop(shelf);
    drop(words);
    Remainder { finish, out, notes }
}

/// Whether a call ends with this status, and prints and notes this.
pub fn answers<R: Threads + Wait + Sync + Abort>(
    rt: &R,
    alloc: Global,
    given: Given<'_>,
    status: u8,
    texts: (&str, &str),
    case: &str,
) {
    let left = call(rt, alloc, given);
    let (out, notes) = texts;
    holds(rt, left.finish.status.number() == status, case);
    holds(rt, left.out.taken() == out.as_bytes(), case);
    holds(rt, left.notes.taken() == notes.as_bytes(), case);
    drop(left);
}

/// Whether a call is refused by this rule at this place, with this line, and keeps nothing else.
pub fn is_refused<R: Threads + Wait + Sync + Abort>(
    rt: &R,
    alloc: Global,
    given: Given<'_>,
    why: (Rule, u32, &str),
    case: &str,
) {
    let left = call(rt, alloc, given);
    let (rule, place, notes) = why;
    holds(rt, left.finish.status.number() == 1, case);
    let found = match &left.finish.refusal {
        Some(refusal) => refusal.rule == rule && refusal.place == place,
        None => false,
    };
    holds(rt, found, case);
    let kept = left.finish.made.is_some() || left.finish.ran.is_some();
    holds(rt, !kept, case);
    holds(rt, left.out.taken().is_empty(), case);
    holds(rt, left.notes.taken() == notes.as_bytes(), case);
    drop(left);
}
