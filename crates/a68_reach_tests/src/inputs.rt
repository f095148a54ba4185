//! Runs that read an input, by hand.
use crate::calls::{Given, answers, call, is_refused, of_texts};
use crate::table::holds;
use a68_base::Rule;
use std::alloc::Global;
use std::panic::Expect;
use std::process::Abort;

/// Programs that read two numbers, all lines, and one line with its length.
const ADD: &str = "( print(read int + read int) )";

const COPY: &str = "( WHILE input left > 0 DO print((read line, newline)) OD )";

const ONE: &str = "( STRING s := read line; print((s, whole(UPB s, 0))) )";

const NUMBER: &str = "( print(read int) )";

/// Programs and inputs, the status, what is printed, and the line.
const READ: &[(&str, &[u8], u8, (&str, &str))] = &[
    (ADD, b"20\n22\n", 0, ("                 +42", "")),
    (ADD, b"20\n22", 0, ("                 +42", "")),
    (ADD, b"+5\n-7\n", 0, ("                  -2", "")),
    (ADD, b"007\n-0", 0, ("                  +7", "")),
    (COPY, b"a\"b\n\nc", 0, ("a\"b\n\nc\n", "")),
    (COPY, b"", 0, ("", "")),
    (COPY, b"\n", 0, ("\n", "")),
    (COPY, b"\n\n", 0, ("\n\n", "")),
    (COPY, b"x\ny\n", 0, ("x\ny\n", "")),
    (COPY, b"\"\"\n\"", 0, ("\"\"\n\"\n", "")),
    (
        COPY,
        b"# no comment #\n( SKIP )",
        0,
        ("# no comment #\n( SKIP )\n", ""),
    ),
    (ONE, b"abc", 0, ("abc3", "")),
    (ONE, b"a\tb\n", 0, ("a\tb3", "")),
    (ONE, b"a\0b\n", 0, ("a\0b3", "")),
    (ONE, b"ab\r\n", 0, ("ab\r3", "")),
    (ONE, b"\xc3\xa4\n", 0, ("\u{e4}2", "")),
    (ONE, b"  x  ", 0, ("  x  5", "")),
    (
        NUMBER,
        b"9223372036854775807",
        0,
        ("+9223372036854775807", ""),
    ),
    (
        NUMBER,
        b"-9223372036854775807",
        0,
        ("-9223372036854775807", ""),
    ),
    (NUMBER, b"", 3, ("", "a68: fault Bounds in the prelude\n")),
    (NUMBER, b"x", 3, ("", "a68: fault Unset at byte 2\n")),
    (
        NUMBER,
        b"9223372036854775808",
        3,
        ("", "a68: fault Unset at byte 2\n"),
    ),
    (
        NUMBER,
        b"-9223372036854775808",
        3,
        ("", "a68: fault Unset at byte 2\n"),
    ),
    (NUMBER, b"--5", 3, ("", "a68: fault Unset at byte 2\n")),
    (NUMBER, b"5 ", 3, ("", "a68: fault Unset at byte 2\n")),
    (NUMBER, b"5\r\n", 3, ("", "a68: fault Unset at byte 2\n")),
    (NUMBER, b"+", 3, ("", "a68: fault Unset at byte 2\n")),
    (
        "( print(x) )",
        b"1\n",
        1,
        ("", "a68: refused N1 at byte 8\n"),
    ),
    (
        "( INT x := TRUE; SKIP )",
        b"",
        1,
        ("", "a68: refused C1 at byte 11\n"),
    ),
    (
        "( print(1 OVER 0) )",
        b"1\n2\n",
        3,
        ("", "a68: fault Divisor at byte 8\n"),
    ),
    ("( SKIP", b"1\n", 1, ("", "a68: refused S6 at byte 6\n")),
    (
        "( SEMA s = LEVEL 0; DOWN s )",
        b"1\n",
        4,
        ("", "a68: all halted\n"),
    ),
];

#[test]
fn inputs_are_read(rt: HostRuntime) {
    let words = ["run", "f", "--input", "s"];
    for (text, input, status, texts) in READ {
        let given = of_texts(&words, text, input);
        answers(&rt, rt.alloc(), given, *status, *texts, text);
    }
}

// The refusal that is kept speaks of the joined text: for no lines 290 bytes stand in front of the program.
#[test]
fn kept_refusals_speak_of_the_whole(rt: HostRuntime) {
    let words = ["run", "f", "--input=s"];
    let left = call(&rt, rt.alloc(), of_texts(&words, "( print(x) )", b""));
    let behind = match &left.finish.refusal {
        Some(refusal) => refusal.rule == Rule::N1 && refusal.place == 298,
        None => false,
    };
    holds(&rt, behind, "a place behind the definitions");
    drop(left);
}

// So many bytes, all alike.
fn bytes_of(rt: &impl Abort, alloc: Global, byte: u8, count: u32) -> Vec<u8> {
    let mut bytes: Vec<u8> = Vec::new(alloc);
    for _ in 0..count {
        bytes.push(byte).expect(rt, "memory");
    }
    bytes
}

/// Inputs of one byte over and over, the byte and how often, and what is printed of the lines left.
const WITHIN: &[(u8, u32, &str)] = &[
    (b' ', 65_536, "                  +1"),
    (b'\n', 4_096, "               +4096"),
    (b'"', 65_536, "                  +1"),
];

/// Inputs that are too long, and the place at which they are.
const BEYOND: &[(u8, u32, u32, &str)] = &[
    (b' ', 65_537, 65_536, "a68: refused Q5 at byte 65536\n"),
    (b' ', 100_000, 65_536, "a68: refused Q5 at byte 65536\n"),
    (b'\n', 4_097, 4_096, "a68: refused Q5 at byte 4096\n"),
    (b'\n', 70_000, 4_096, "a68: refused Q5 at byte 4096\n"),
];

#[test]
fn inputs_have_so_many_bytes_and_lines(rt: HostRuntime) {
    let words = ["run", "f", "--input", "s"];
    let text = "( print(input left) )";
    for (byte, count, out) in WITHIN {
        let input = bytes_of(&rt, rt.alloc(), *byte, *count);
        answers(
            &rt,
            rt.alloc(),
            of_texts(&words, text, &input),
            0,
            (out, ""),
            out,
        );
        drop(input);
    }
    for (byte, count, place, notes) in BEYOND {
        let input = bytes_of(&rt, rt.alloc(), *byte, *count);
        let why = (Rule::Q5, *place, *notes);
        is_refused(&rt, rt.alloc(), of_texts(&words, text, &input), why, notes);
        drop(input);
    }
}

/// Four units that each read a number and add it to one sum.
const READERS: &str =
    "( INT sum := 0; SEMA g = LEVEL 1; PAR ((INT k = read int; DOWN g; sum +:= k; UP g), (INT k = read int; DOWN g; sum +:= k; UP g), (INT k = read int; DOWN g; sum +:= k; UP g), (INT k = read int; DOWN g; sum +:= k; UP g)); print(sum) )";

#[test]
fn units_read_different_lines(rt: HostRuntime) {
    for workers in ["1", "4"] {
        for _ in 0..20 {
            let words = ["run", "f", "--input", "s", "--workers", workers];
            let given = of_texts(&words, READERS, b"1\n20\n300\n4000\n");
            let due = ("               +4321", "");
            answers(&rt, rt.alloc(), given, 0, due, workers);
        }
    }
}

/// Words whose files are not there or not read, and the text under `f`.
const UNREAD: &[(&[&str], &str, &[u64], u8, (&str, &str))] = &[
    (
        &["run", "x", "--input", "s"],
        "",
        &[],
        6,
        ("", "a68: read fault\n"),
    ),
    (
        &["run", "f", "--input", "x"],
        "( SKIP )",
        &[],
        6,
        ("", "a68: read fault\n"),
    ),
    (
        &["run", "f", "--input", "x"],
        "( SKIP",
        &[],
        1,
        ("", "a68: refused S6 at byte 6\n"),
    ),
    (
        &["run", "f", "--input", "x"],
        "( print(x) )",
        &[],
        6,
        ("", "a68: read fault\n"),
    ),
    (
        &["run", "f", "--input", "s"],
        "( SKIP )",
        &[2],
        6,
        ("", "a68: read fault\n"),
    ),
    (
        &["run", "f", "--input", "s"],
        "( SKIP )",
        &[4],
        6,
        ("", "a68: read fault\n"),
    ),
    (
        &["run", "f", "--input", "s"],
        "( SKIP )",
        &[5],
        6,
        ("", "a68: read fault\n"),
    ),
    (&["run", "f", "--input", "s"], "( SKIP )", &[7], 0, ("", "")),
];

#[test]
fn reads_of_inputs_fail(rt: HostRuntime) {
    for (words, text, reads_fail, status, texts) in UNREAD {
        let given = Given {
            reads_fail,
            ..of_texts(words, text, b"1")
        };
        answers(&rt, rt.alloc(), given, *status, *texts, text);
    }
}
