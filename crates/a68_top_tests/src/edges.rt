//! Each limit at its edge, by texts that are made.
use crate::calls::{Words, answers, call, call_over, of_words, run_f};
use crate::table::{holds, repeated};
use a68_outside::MemorySink;
use std::alloc::Global;
use std::panic::Expect;
use std::process::Abort;

/// Texts of equal pieces: what stands before them, a piece, how many there are, what stands behind them, the status, and
/// what is noted. None prints anything or has an event.
const EDGES: &[(&str, &str, u32, &str, u8, &str)] = &[
    ("", "\0", 1, "", 1, "a68: refused S2 at byte 0\n"),
    ("#", " ", 100, "", 1, "a68: refused S1 at byte 0\n"),
    // Mode words of so many kinds of declarers.
    ("(", "INT(1);", 4_096, "SKIP)", 0, ""),
    (
        "(",
        "INT(1);",
        4_097,
        "SKIP)",
        1,
        "a68: refused L4 at byte 28673\n",
    ),
    // The last symbol has the nesting 1,000, or one more.
    ("(", "+", 997, "1)", 0, ""),
    ("(", "+", 998, "1)", 1, "a68: refused L3 at byte 999\n"),
    // 262,144 symbols, or one more.
    ("(", "1;", 131_070, "+1)", 0, ""),
    (
        "(",
        "1;",
        131_071,
        "1)",
        1,
        "a68: refused L2 at byte 262144\n",
    ),
    // 65,536 units.
    (
        "(PAR(1",
        ",1",
        65_535,
        "))",
        3,
        "a68: fault Strands at byte 1\n",
    ),
];

#[test]
fn limits_are_met_at_their_edge(rt: HostRuntime) {
    for (first, piece, count, last, status, noted) in EDGES {
        let text = repeated(rt.alloc(), first, piece, *count, last).expect(&rt, "memory");
        let found = answers(&rt, rt.alloc(), run_f(&text), *status, ("", noted));
        holds(&rt, found == 0, "nothing has happened");
        drop(text);
    }
}

// A text with an assignation and so many more, each of 64 instructions: a constant of 60 names is dereferenced.
fn assigned(rt: &impl Abort, alloc: Global, more: u32) -> String {
    let first =
        "( INT y; REF REF REF REF REF REF REF REF REF REF REF REF REF REF REF REF REF REF REF REF \
        REF REF REF REF REF REF REF REF REF REF REF REF REF REF REF REF REF REF REF REF \
        REF REF REF REF REF REF REF REF REF REF REF REF REF REF REF REF REF REF REF REF \
        INT x = SKIP; y:=x";
    repeated(alloc, first, ";y:=x", more, " )").expect(rt, "memory")
}

/// How many assignations stand behind the first, the status, and what is noted: 64 instructions for each, and seven.
const ASSIGNED: &[(u32, u8, &str)] = &[
    (16_382, 0, ""),
    (16_383, 1, "a68: refused L7 at byte 82181\n"),
];

#[test]
fn a_code_has_so_many_instructions(rt: HostRuntime) {
    for (more, status, noted) in ASSIGNED {
        let text = assigned(&rt, rt.alloc(), *more);
        let given = of_words(&["check", "f"], &text);
        answers(&rt, rt.alloc(), given, *status, ("", noted));
        drop(text);
    }
}

/// How often 1,048,576 letters are printed, the status, and what is noted: a text has at most 16,777,216.
const PRINTED: &[(&str, u8, &str)] = &[
    ("( TO 16 DO print(1048576 * \"a\") OD )", 0, ""),
    (
        "( TO 17 DO print(1048576 * \"a\") OD )",
        3,
        "a68: fault Text at byte 11\n",
    ),
];

#[test]
fn so_many_bytes_are_printed(rt: HostRuntime) {
    for (text, status, noted) in PRINTED {
        let most = 16_777_216;
        let out = MemorySink::new(rt.alloc(), most, most, &[]).expect(&rt, "memory");
        let left = call_over(&rt, rt.alloc(), run_f(text), out);
        let printed = left.out.taken();
        holds(&rt, left.status == *status, "the status");
        holds(&rt, printed.len() == most as usize, "as many bytes");
        let are_letters = printed.iter().all(|byte| *byte == b'a');
        holds(&rt, are_letters, "all are letters");
        let noted = left.notes.taken() == noted.as_bytes();
        holds(&rt, noted, "what is noted");
        drop(left);
    }
}

const SQUARES: &str = "( [1:4] INT buf; INT in := 1, out := 1;
  SEMA free = LEVEL 4, full = LEVEL 0, one = LEVEL 1;
  PAR (
    FOR i TO 20 DO DOWN free; DOWN one; buf[in] := i * i;
      in := in MOD 4 + 1; UP one; UP full OD,
    TO 20 DO DOWN full; DOWN one; print((whole(buf[out], 0), space));
      out := out MOD 4 + 1; UP one; UP free OD ) )";

// Each part of the text that ends before its last bracket is refused at one of its bytes, or at its end.
#[test]
fn parts_of_a_text_are_refused_within_them(rt: HostRuntime) {
    let text = SQUARES.as_bytes();
    for length in 0..text.len() {
        let given = Words {
            text: &text[..length],
            ..run_f("")
        };
        let left = call(&rt, rt.alloc(), given);
        holds(&rt, left.status == 1, "the status");
        let is_within = left
            .refused_at
            .is_some_and(|place| place as usize <= length);
        holds(&rt, is_within, "the place lies within");
        let is_untouched = left.out.taken().is_empty() && left.ran.is_none();
        holds(&rt, is_untouched, "nothing has run");
        drop(left);
    }
}
