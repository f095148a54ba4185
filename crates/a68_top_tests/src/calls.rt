//! Calls of the whole over shelves and sinks in memory, and what they left.
use crate::table::{holds, strings};
use a68_outside::{FreeGate, MemoryShelf, MemorySink};
use a68_top::a68;
use std::alloc::Global;
use std::marker::Sync;
use std::panic::Expect;
use std::process::Abort;
use std::sync::Wait;
use std::thread::Threads;

/// What is handed to a call. The shelf has the text under `f` and the text "BEGIN print(1) END" under `g`.
#[derive(Clone, Copy)]
pub struct Words<'a> {
    pub words: &'a [&'a str],
    pub text: &'a [u8],
    pub reads_fail: &'a [u64],
    pub room: u32,
    pub writes_fail: &'a [u64],
    pub notes_room: u32,
}

/// A call of `run f` where nothing fails.
pub fn run_f(text: &str) -> Words<'_> {
    Words {
        words: &["run", "f"],
        text: text.as_bytes(),
        reads_fail: &[],
        room: 100,
        writes_fail: &[],
        notes_room: 400,
    }
}

/// A call of `run f` with room for ten numbers.
pub fn wide(text: &str) -> Words<'_> {
    Words {
        room: 200,
        ..run_f(text)
    }
}

/// A call with these words where nothing fails.
pub fn of_words<'a>(words: &'a [&'a str], text: &'a str) -> Words<'a> {
    Words {
        words,
        ..run_f(text)
    }
}

/// What a call left.
#[derive(Drop)]
pub struct Remainder {
    pub status: u8,
    /// The place of the kept refusal.
    pub refused_at: Option<u32>,
    /// How many entries the kept journal has; none where no run is kept.
    pub ran: Option<usize>,
    pub out: MemorySink,
    pub notes: MemorySink,
}

fn shelf(rt: &impl Abort, alloc: Global, given: Words<'_>) -> MemoryShelf {
    let (text, fails) = (given.text, given.reads_fail);
    let mut shelf = MemoryShelf::new(alloc, "f", text, 4, fails).expect(rt, "memory");
    shelf.put("g", b"BEGIN print(1) END").expect(rt, "memory");
    shelf
}

/// A call whose sinks have the room that is handed in.
pub fn call<R: Threads + Wait + Sync + Abort>(
    rt: &R,
    alloc: Global,
    given: Words<'_>,
) -> Remainder {
    let out = MemorySink::new(alloc, given.room, 4, given.writes_fail).expect(rt, "memory");
    call_over(rt, alloc, given, out)
}

/// A call that prints to this sink.
pub fn call_over<R: Threads + Wait + Sync + Abort>(
    rt: &R,
    alloc: Global,
    given: Words<'_>,
    out: MemorySink,
) -> Remainder {
    let notes = MemorySink::new(alloc, given.notes_room, 5, &[]).expect(rt, "memory");
    call_to(rt, alloc, given, out, notes)
}

/// A call that writes to these sinks.
pub fn call_to<R: Threads + Wait + Sync + Abort>(
    rt: &R,
    alloc: Global,
    given: Words<'_>,
    mut out: MemorySink,
    mut notes: MemorySink,
) -> Remainder {
    let words = strings(rt, alloc, given.words);
    let mut shelf = shelf(rt, alloc, given);
    let finish = a68(
        rt, alloc, &words, &mut shelf, &mut out, &mut notes, &FreeGate,
    );
    let status = finish.status.number();
    let refused_at = finish.refusal.map(|refusal| refusal.place);
    let ran = match &finish.ran {
        Some(kept) => Some(kept.journal.entries.len()),
        None => None,
    };
    drop(finish);
    drop(shelf);
    drop(words);
    Remainder {
        status,
        refused_at,
        ran,
        out,
        notes,
    }
}

/// Whether a call ends with this status, and prints this.
pub fn prints(rt: &impl Abort, left: &Remainder, status: u8, out: &str) {
    holds(rt, left.status == status, "the status");
    holds(rt, left.out.taken() == out.as_bytes(), "what is printed");
}

/// Whether a call ends with this status, and prints and notes this. How many events there were; 0 where no run is kept.
pub fn answers<R: Threads + Wait + Sync + Abort>(
    rt: &R,
    alloc: Global,
    given: Words<'_>,
    status: u8,
    texts: (&str, &str),
) -> usize {
    let left = call(rt, alloc, given);
    let (out, notes) = texts;
    prints(rt, &left, status, out);
    let noted = left.notes.taken() == notes.as_bytes();
    holds(rt, noted, "what is noted");
    let events = left.ran.unwrap_or(0);
    drop(left);
    events
}
