//! Schedules that are none, or that no run has, by hand.
use crate::calls::{answers, is_refused, of_texts};
use a68_base::Rule;
use std::alloc::Global;
use std::panic::Expect;
use std::process::Abort;

/// Bytes that are no schedule, and the first at which none goes on.
const NONE: &[(&[u8], u32, &str)] = &[
    (b"0 x", 2, "a68: refused Q1 at byte 2\n"),
    (b"x", 0, "a68: refused Q1 at byte 0\n"),
    (b"0a", 1, "a68: refused Q1 at byte 1\n"),
    (b"0 0 0b", 5, "a68: refused Q1 at byte 5\n"),
    (b"+0", 0, "a68: refused Q1 at byte 0\n"),
    (b"-0", 0, "a68: refused Q1 at byte 0\n"),
    (b"0 -1", 2, "a68: refused Q1 at byte 2\n"),
    (b"0+", 1, "a68: refused Q1 at byte 1\n"),
    (b"0,0", 1, "a68: refused Q1 at byte 1\n"),
    (b"0.0", 1, "a68: refused Q1 at byte 1\n"),
    (b"\0", 0, "a68: refused Q1 at byte 0\n"),
    (b"0\0", 1, "a68: refused Q1 at byte 1\n"),
    (b"0 0\n\0", 4, "a68: refused Q1 at byte 4\n"),
    (b"0\x0b0", 1, "a68: refused Q1 at byte 1\n"),
    (b"0\x0c0", 1, "a68: refused Q1 at byte 1\n"),
    (b"\xef\xbb\xbf0", 0, "a68: refused Q1 at byte 0\n"),
    (b"0\xa00", 1, "a68: refused Q1 at byte 1\n"),
    (b"0\xff", 1, "a68: refused Q1 at byte 1\n"),
    (b"65536", 4, "a68: refused Q1 at byte 4\n"),
    (b"0 70000", 6, "a68: refused Q1 at byte 6\n"),
    (b"100000", 5, "a68: refused Q1 at byte 5\n"),
    (b"0\n00065536", 9, "a68: refused Q1 at byte 9\n"),
    (b"# picks\n0", 0, "a68: refused Q1 at byte 0\n"),
];

#[test]
fn other_bytes_are_no_schedule(rt: HostRuntime) {
    let words = ["replay", "f", "s"];
    for (bytes, place, notes) in NONE {
        let given = of_texts(&words, "( SKIP )", bytes);
        is_refused(&rt, rt.alloc(), given, (Rule::Q1, *place, notes), notes);
    }
}

// So many bytes, all alike.
fn bytes_of(rt: &impl Abort, alloc: Global, byte: u8, count: u32) -> Vec<u8> {
    let mut bytes: Vec<u8> = Vec::new(alloc);
    for _ in 0..count {
        bytes.push(byte).expect(rt, "memory");
    }
    bytes
}

// So many numbers, each with a line feed behind it.
fn numbers_of(rt: &impl Abort, alloc: Global, count: u32) -> Vec<u8> {
    let mut bytes: Vec<u8> = Vec::new(alloc);
    for _ in 0..count {
        bytes.push(b'0').expect(rt, "memory");
        bytes.push(b'\n').expect(rt, "memory");
    }
    bytes
}

#[test]
fn schedules_have_so_many_bytes(rt: HostRuntime) {
    let words = ["replay", "f", "s"];
    let most = bytes_of(&rt, rt.alloc(), b' ', 8_388_608);
    let given = of_texts(&words, "( SKIP )", &most);
    answers(
        &rt,
        rt.alloc(),
        given,
        0,
        ("", ""),
        "as many bytes as may be",
    );
    drop(most);
    let more = bytes_of(&rt, rt.alloc(), b'\n', 8_388_609);
    let given = of_texts(&words, "( SKIP )", &more);
    let why = (Rule::Q1, 8_388_608, "a68: refused Q1 at byte 8388608\n");
    is_refused(&rt, rt.alloc(), given, why, "one more");
    drop(more);
}

#[test]
fn schedules_have_so_many_numbers(rt: HostRuntime) {
    let words = ["replay", "f", "s"];
    let most = numbers_of(&rt, rt.alloc(), 1_000_001);
    let given = of_texts(&words, "( SKIP )", &most);
    let why = (Rule::Q2, 0, "a68: refused Q2 at index 0\n");
    is_refused(&rt, rt.alloc(), given, why, "as many numbers as may be");
    drop(most);
    let more = numbers_of(&rt, rt.alloc(), 1_000_002);
    let given = of_texts(&words, "( SKIP )", &more);
    let why = (Rule::Q1, 2_000_002, "a68: refused Q1 at byte 2000002\n");
    is_refused(&rt, rt.alloc(), given, why, "one more");
    drop(more);
}
