//! Runs that are traced, and that follow a schedule, by hand.
use crate::calls::{Given, Remainder, answers, call, is_refused, of_texts};
use crate::table::holds;
use a68_base::Rule;
use std::alloc::Global;
use std::marker::Sync;
use std::panic::Expect;
use std::process::Abort;
use std::sync::Wait;
use std::thread::Threads;

/// Two strands add to one variable. Strand 0 does five acts, the last of which makes strands 1 and 2; each of these looks
/// the variable up twice, fetches, assigns and closes; and strand 0 looks it up, fetches and prints.
const TWICE: &str = "( INT x := 0; PAR (x := x + 1, x := x + 1); print(x) )";

/// Strand 1 waits for strand 2. Strand 0 does five acts; each of the others looks the semaphore up, lowers or raises it, and
/// closes.
const PASSED: &str = "( SEMA s = LEVEL 0; PAR (DOWN s, UP s) )";

/// Both wait for good.
const LOCKED: &str = "( SEMA s = LEVEL 0; PAR (DOWN s, DOWN s) )";

/// Two philosophers, each of whom takes the fork at his left first.
const DINING: &str =
    "( SEMA a = LEVEL 1, b = LEVEL 1; PAR ((DOWN a; DOWN b; print(\"one \"); UP b; UP a), (DOWN b; DOWN a; print(\"two \"); UP a; UP b)) )";

/// Faults, before any act and in a unit.
const FAULT: &str = "( print(1 OVER 0) )";

const FAULT_IN_UNIT: &str = "( PAR (SKIP, print(1 OVER 0)) )";

/// Texts with words behind the file, and the status, the schedule and the line of a trace.
const TRACED: &[(&[&str], &str, u8, (&str, &str))] = &[
    (
        &["trace", "f"],
        TWICE,
        0,
        ("0\n0\n0\n0\n0\n1\n2\n1\n2\n1\n2\n1\n2\n1\n2\n0\n0\n0\n", ""),
    ),
    (&["trace", "f"], "( SKIP )", 0, ("", "")),
    (
        &["trace", "f"],
        FAULT,
        3,
        ("0\n", "a68: fault Divisor at byte 8\n"),
    ),
    (
        &["trace", "f"],
        LOCKED,
        4,
        ("0\n0\n0\n0\n0\n1\n2\n", "a68: all halted\n"),
    ),
    (
        &["trace", "f", "--fuel", "4"],
        TWICE,
        5,
        ("0\n0\n0\n0\n", "a68: fuel spent\n"),
    ),
    (
        &["trace", "f"],
        "( print(x) )",
        1,
        ("", "a68: refused N1 at byte 8\n"),
    ),
];

#[test]
fn runs_are_traced(rt: HostRuntime) {
    for (words, text, status, texts) in TRACED {
        let given = of_texts(words, text, b"");
        answers(&rt, rt.alloc(), given, *status, *texts, text);
    }
}

/// Texts and schedules, and the status, what is printed and the line of a replay.
const REPLAYED: &[(&str, &[u8], u8, (&str, &str))] = &[
    (
        TWICE,
        b"0 0 0 0 0 1 1 1 1 1 2 2 2 2 2 0 0 0",
        0,
        ("                  +2", ""),
    ),
    (
        TWICE,
        b"0\n0\n0\n0\n0\n1\n2\n1\n2\n1\n2\n1\n2\n1\n2\n0\n0\n0\n",
        0,
        ("                  +1", ""),
    ),
    (
        TWICE,
        b"\t00 000\r\n 0000000 0 0 2 2 2 2 2 01 001 1 1 1\n\n0 0 0\t",
        0,
        ("                  +2", ""),
    ),
    ("( SKIP )", b"", 0, ("", "")),
    ("( SKIP )", b" \t\r\n", 0, ("", "")),
    (PASSED, b"0 0 0 0 0 1 2 2 1 2 1", 0, ("", "")),
    (FAULT, b"0", 3, ("", "a68: fault Divisor at byte 8\n")),
    (
        FAULT_IN_UNIT,
        b"0 2",
        3,
        ("", "a68: fault Divisor at byte 19\n"),
    ),
    (
        FAULT_IN_UNIT,
        b"0 1 2",
        3,
        ("", "a68: fault Divisor at byte 19\n"),
    ),
    (LOCKED, b"0 0 0 0 0 2 1", 4, ("", "a68: all halted\n")),
    (
        DINING,
        b"0 0 0 0 0 0 0 0 1 2 1 2 1 2",
        4,
        ("", "a68: all halted\n"),
    ),
    (
        "( print(x) )",
        b"zz",
        1,
        ("", "a68: refused N1 at byte 8\n"),
    ),
];

#[test]
fn runs_follow_schedules(rt: HostRuntime) {
    let words = ["replay", "f", "s"];
    for (text, schedule, status, texts) in REPLAYED {
        let given = of_texts(&words, text, schedule);
        answers(&rt, rt.alloc(), given, *status, *texts, text);
    }
}

/// Texts and schedules that no run has, the rule, its place and its line.
const MISSED: &[(&str, &[u8], (Rule, u32, &str))] = &[
    (TWICE, b"0 1", (Rule::Q2, 1, "a68: refused Q2 at index 1\n")),
    (TWICE, b"1", (Rule::Q2, 0, "a68: refused Q2 at index 0\n")),
    (
        TWICE,
        b"65535",
        (Rule::Q2, 0, "a68: refused Q2 at index 0\n"),
    ),
    (
        TWICE,
        b"0 0 0 0 0 3",
        (Rule::Q2, 5, "a68: refused Q2 at index 5\n"),
    ),
    (
        TWICE,
        b"0 0 0 0 0 0",
        (Rule::Q2, 5, "a68: refused Q2 at index 5\n"),
    ),
    (
        TWICE,
        b"0 0 0 0 0 1 1 1 1 1 1",
        (Rule::Q2, 10, "a68: refused Q2 at index 10\n"),
    ),
    (
        TWICE,
        b"0 0 0 0 0 1 1 1 1 1 2 2 2 2 2 0 0 0 0",
        (Rule::Q2, 18, "a68: refused Q2 at index 18\n"),
    ),
    (
        TWICE,
        b"0 0 0 0 0 1 1 1 1 1 2 2 2 2 2 0 0 0 1 2",
        (Rule::Q2, 18, "a68: refused Q2 at index 18\n"),
    ),
    (TWICE, b"", (Rule::Q3, 0, "a68: refused Q3 at index 0\n")),
    (TWICE, b"\n", (Rule::Q3, 0, "a68: refused Q3 at index 0\n")),
    (
        TWICE,
        b"000000",
        (Rule::Q3, 1, "a68: refused Q3 at index 1\n"),
    ),
    (
        TWICE,
        b"0 0 0 0 0 1 1 1 1 1 2 2 2 2 2 0 0",
        (Rule::Q3, 17, "a68: refused Q3 at index 17\n"),
    ),
    (
        "( SKIP )",
        b"0",
        (Rule::Q2, 0, "a68: refused Q2 at index 0\n"),
    ),
    (
        PASSED,
        b"0 0 0 0 0 1 1",
        (Rule::Q2, 6, "a68: refused Q2 at index 6\n"),
    ),
    (
        PASSED,
        b"0 0 0 0 0 1 2 2",
        (Rule::Q3, 8, "a68: refused Q3 at index 8\n"),
    ),
    (
        LOCKED,
        b"0 0 0 0 0 2 1 2",
        (Rule::Q2, 7, "a68: refused Q2 at index 7\n"),
    ),
    (
        LOCKED,
        b"0 0 0 0 0 2",
        (Rule::Q3, 6, "a68: refused Q3 at index 6\n"),
    ),
    (FAULT, b"", (Rule::Q3, 0, "a68: refused Q3 at index 0\n")),
    (FAULT, b"0 0", (Rule::Q2, 1, "a68: refused Q2 at index 1\n")),
    (FAULT, b"1", (Rule::Q2, 0, "a68: refused Q2 at index 0\n")),
    (
        FAULT_IN_UNIT,
        b"0 2 1",
        (Rule::Q2, 2, "a68: refused Q2 at index 2\n"),
    ),
];

#[test]
fn runs_miss_schedules(rt: HostRuntime) {
    let words = ["replay", "f", "s"];
    for (text, schedule, why) in MISSED {
        let given = of_texts(&words, text, schedule);
        is_refused(&rt, rt.alloc(), given, *why, why.2);
    }
}

// The text that the run of a call has printed.
fn printed<'a>(rt: &impl Abort, left: &'a Remainder) -> &'a [u8] {
    let kept = left.finish.ran.as_ref().expect(rt, "a run is kept");
    kept.journal.text.as_slice()
}

// A run by four workers is traced, and comes back from its schedule, entry for entry.
fn comes_back<R: Threads + Wait + Sync + Abort>(rt: &R, alloc: Global, text: &str) {
    let traced = call(
        rt,
        alloc,
        of_texts(&["trace", "f", "--workers", "4"], text, b""),
    );
    let again = call(
        rt,
        alloc,
        of_texts(&["replay", "f", "s"], text, traced.out.taken()),
    );
    holds(
        rt,
        again.finish.status == traced.finish.status,
        "the status",
    );
    holds(rt, again.notes.taken() == traced.notes.taken(), "the line");
    let text_is_same = again.out.taken() == printed(rt, &traced);
    holds(rt, text_is_same, "what is printed");
    drop(again);
    drop(traced);
}

#[test]
fn races_come_back(rt: HostRuntime) {
    for _ in 0..100 {
        comes_back(&rt, rt.alloc(), TWICE);
    }
}

#[test]
fn other_runs_come_back(rt: HostRuntime) {
    for text in [PASSED, LOCKED, DINING, FAULT, FAULT_IN_UNIT, "( SKIP )"] {
        for _ in 0..5 {
            comes_back(&rt, rt.alloc(), text);
        }
    }
}

/// Words whose files are not there or not read, and the text under `f`.
const UNREAD: &[(&[&str], &str, &[u64], u8, (&str, &str))] = &[
    (&["replay", "x", "s"], "", &[], 6, ("", "a68: read fault\n")),
    (
        &["replay", "f", "x"],
        "( SKIP )",
        &[],
        6,
        ("", "a68: read fault\n"),
    ),
    (
        &["replay", "f", "x"],
        "( print(x) )",
        &[],
        1,
        ("", "a68: refused N1 at byte 8\n"),
    ),
    (
        &["replay", "f", "s"],
        "( SKIP )",
        &[2],
        6,
        ("", "a68: read fault\n"),
    ),
    (
        &["replay", "f", "s"],
        "( SKIP )",
        &[4],
        6,
        ("", "a68: read fault\n"),
    ),
    (
        &["replay", "f", "s"],
        "( SKIP )",
        &[5],
        6,
        ("", "a68: read fault\n"),
    ),
    (&["replay", "f", "s"], "( SKIP )", &[7], 0, ("", "")),
];

#[test]
fn reads_of_two_files_fail(rt: HostRuntime) {
    for (words, text, reads_fail, status, texts) in UNREAD {
        let given = Given {
            reads_fail,
            ..of_texts(words, text, b"\n")
        };
        answers(&rt, rt.alloc(), given, *status, *texts, text);
    }
}
