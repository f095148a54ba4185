//! The worked rows of programs with parallel clauses, and of made ones.
use crate::calls::{answers, call_over, of_words, prints, run_f};
use crate::table::holds;
use a68_outside::MemorySink;
use std::panic::Expect;

const FIRST_AND_THEN: &str =
    "( SEMA s = LEVEL 0; PAR ( (DOWN s; print(\"b\")), (print(\"a\"); UP s) ) )";

/// Texts with parallel clauses or semaphores, the status, what is printed and noted, and how many events there are.
const PARALLEL: &[(&str, u8, (&str, &str), usize)] = &[
    (FIRST_AND_THEN, 0, ("ab", ""), 13),
    (
        "( INT x := 0; PAR ( x := x + 1, x := x + 1 ); print(x) )",
        0,
        ("                  +1", ""),
        18,
    ),
    (
        "( SEMA s = LEVEL 0; DOWN s )",
        4,
        ("", "a68: all halted\n"),
        5,
    ),
    (
        "( SEMA a = LEVEL 0, b = LEVEL 0; PAR ( (DOWN a; UP b), (DOWN b; UP a) ) )",
        4,
        ("", "a68: all halted\n"),
        10,
    ),
    // A unit that is a routine text is called; one of another mode is voided.
    ("( PAR (VOID: print(\"p\"), 3) )", 0, ("p", ""), 6),
    // A clause goes on when all its units have ended, and not before.
    (
        "( PAR (print(\"a\"), (print(\"b\"); print(\"c\"))); print(\"d\") )",
        0,
        ("abcd", ""),
        7,
    ),
    // Units of a clause within a unit.
    (
        "( PAR (PAR (print(\"a\"), print(\"b\")), print(\"c\")) )",
        0,
        ("cab", ""),
        9,
    ),
    // A unit meets a fault while others have acts to do, and one while others have to wait.
    (
        "( PAR ((print(\"a\"); print(\"b\")), print(1 OVER 0)) )",
        3,
        ("a", "a68: fault Divisor at byte 39\n"),
        2,
    ),
    (
        "( SEMA s = LEVEL 0; PAR (DOWN s, print(7 MOD 0)) )",
        3,
        ("", "a68: fault Divisor at byte 39\n"),
        6,
    ),
];

#[test]
fn strands_take_turns(rt: HostRuntime) {
    for (text, status, texts, events) in PARALLEL {
        let found = answers(&rt, rt.alloc(), run_f(text), *status, *texts);
        holds(&rt, found == *events, "how many events there are");
    }
}

#[test]
fn a_write_fails_between_two_strands_texts(rt: HostRuntime) {
    let out = MemorySink::new(rt.alloc(), 10, 1, &[2]).expect(&rt, "memory");
    let left = call_over(&rt, rt.alloc(), run_f(FIRST_AND_THEN), out);
    prints(&rt, &left, 7, "a");
    holds(&rt, left.ran == Some(13), "the run is kept");
    drop(left);
}

/// Units of a made text, what is printed, and what is noted.
const MADE: &[(&str, &str, &str)] = &[
    ("3", "                  +6", "units 3 events 38\n"),
    ("2", "                  +3", "units 2 events 29\n"),
];

#[test]
fn texts_are_made_and_run(rt: HostRuntime) {
    for (units, out, notes) in MADE {
        let words = ["make", units];
        answers(&rt, rt.alloc(), of_words(&words, ""), 0, (out, notes));
    }
}
