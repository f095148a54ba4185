//! What stands outside fails: files and sinks.
use crate::calls::{Words, call_to, prints, run_f};
use crate::table::holds;
use a68_outside::MemorySink;
use std::panic::Expect;

/// Of a sink the room, the bytes of a write, and the writes that fail.
type Room = (u32, u32, &'static [u64]);

/// Texts, the sink for what is printed and the one for notes, the status, what is printed and noted, and how many events are kept.
const FAILING: &[(&str, Room, Room, u8, (&str, &str), Option<usize>)] = &[
    (
        "( SEMA s = LEVEL 0; PAR ( (DOWN s; print(\"b\")), (print(\"a\"); UP s) ) )",
        (10, 1, &[1]),
        (100, 100, &[]),
        7,
        ("", ""),
        Some(13),
    ),
    (
        "( print(1); print(max int + 1) )",
        (100, 100, &[]),
        (100, 100, &[1]),
        7,
        ("                  +1", ""),
        Some(1),
    ),
    ("", (100, 100, &[]), (5, 5, &[]), 7, ("", "a68: "), None),
];

#[test]
fn sinks_fail(rt: HostRuntime) {
    for (text, out, notes, status, (printed, noted), ran) in FAILING {
        let out = MemorySink::new(rt.alloc(), out.0, out.1, out.2).expect(&rt, "memory");
        let notes = MemorySink::new(rt.alloc(), notes.0, notes.1, notes.2).expect(&rt, "memory");
        let left = call_to(&rt, rt.alloc(), run_f(text), out, notes);
        prints(&rt, &left, *status, printed);
        holds(&rt, left.notes.taken() == noted.as_bytes(), "what is noted");
        holds(&rt, left.ran == *ran, "the run is kept");
        let is_refused = text.is_empty() && left.refused_at == Some(0);
        holds(
            &rt,
            is_refused || left.refused_at.is_none(),
            "what is refused",
        );
        drop(left);
    }
}

// The read has failed and so has the note of it: the read is answered, and nothing is kept.
#[test]
fn a_failed_read_is_answered_before_a_failed_write(rt: HostRuntime) {
    let given = Words {
        reads_fail: &[2],
        ..run_f("BEGIN print(1 + 2 * 3) END")
    };
    let out = MemorySink::new(rt.alloc(), 100, 4, &[]).expect(&rt, "memory");
    let notes = MemorySink::new(rt.alloc(), 0, 5, &[]).expect(&rt, "memory");
    let left = call_to(&rt, rt.alloc(), given, out, notes);
    prints(&rt, &left, 6, "");
    holds(&rt, left.notes.taken().is_empty(), "nothing is noted");
    let is_empty = left.refused_at.is_none() && left.ran.is_none();
    holds(&rt, is_empty, "nothing is kept");
    drop(left);
}
