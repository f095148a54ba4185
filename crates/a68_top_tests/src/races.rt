//! The races of runs, by hand.
use crate::calls::{Words, answers, of_words};
use crate::table::holds;
use a68_maker::make_text;
use std::panic::Expect;

/// Two strands add to one variable, without order.
const TWICE: &str = "( INT x := 0; PAR (x := x + 1, x := x + 1); print(x) )";

/// Texts, the status with which each ends, and what is printed and noted.
const RACED: &[(&str, u8, (&str, &str))] = &[
    (
        TWICE,
        0,
        (
            "race at cell 0: entries 10 and 11\nrace at cell 0: entries 11 and 12\nraces 2\n",
            "",
        ),
    ),
    (
        "( INT t; PAR (t := 1, t := 2) )",
        0,
        ("race at cell 0: entries 6 and 7\nraces 1\n", ""),
    ),
    (
        "( INT t := 1; PAR (t := 2, SKIP); t := 3; PAR (t := 4, SKIP) )",
        0,
        ("races 0\n", ""),
    ),
    (
        "( INT t := 0; SEMA g = LEVEL 1; PAR ((DOWN g; t := 1; UP g), (DOWN g; t := 2; UP g)) )",
        0,
        ("races 0\n", ""),
    ),
    (
        "( INT t := 7; PAR (print(t), print(t)) )",
        0,
        ("races 0\n", ""),
    ),
    (
        "( PAR (SKIP, print(1 OVER 0)) )",
        3,
        ("races 0\n", "a68: fault Divisor at byte 19\n"),
    ),
    ("( print(x) )", 1, ("", "a68: refused N1 at byte 8\n")),
];

#[test]
fn races_are_told(rt: HostRuntime) {
    for (text, status, texts) in RACED {
        let given = of_words(&["races", "f"], text);
        answers(&rt, rt.alloc(), given, *status, *texts);
    }
}

#[test]
fn races_of_a_run_that_is_spent_are_told(rt: HostRuntime) {
    let given = of_words(&["races", "f", "--fuel", "4"], TWICE);
    let notes = "a68: fuel spent\n";
    let events = answers(&rt, rt.alloc(), given, 5, ("races 0\n", notes));
    holds(&rt, events == 4, "the run is kept");
}

/// Units of a made text, the workers, the status with which it ends, and what is printed and noted.
const MADE: &[(u32, &str, u8, (&str, &str))] = &[
    (3, "1", 0, ("races 0\n", "")),
    (3, "4", 0, ("races 0\n", "")),
    (255, "1", 0, ("races 0\n", "")),
    (256, "1", 1, ("", "a68: refused Q4 at index 7\n")),
    (300, "1", 1, ("", "a68: refused Q4 at index 7\n")),
];

#[test]
fn so_many_strands_are_told_apart(rt: HostRuntime) {
    for (units, workers, status, texts) in MADE {
        let text = make_text(rt.alloc(), *units).expect(&rt, "memory");
        let words = ["races", "f", "--workers", workers];
        let given = Words {
            text: text.as_slice(),
            ..of_words(&words, "")
        };
        answers(&rt, rt.alloc(), given, *status, *texts);
        drop(text);
    }
}
