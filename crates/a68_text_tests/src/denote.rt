//! The values of denotations, by hand.
use crate::table::holds;
use a68_base::Text;
use a68_denote::{bits_of, int_of, string_of};
use std::alloc::Global;
use std::panic::Expect;
use std::process::Abort;

const INTS: &[(&str, Option<i64>)] = &[
    ("0", Some(0)),
    ("007", Some(7)),
    ("9223372036854775807", Some(9223372036854775807)),
    ("9223372036854775808", None),
    ("99999999999999999999999999", None),
    ("", None),
    ("1a", None),
    ("1 2", None),
    ("2r1", None),
];

const BITS: &[(&str, Option<u64>)] = &[
    ("2r101", Some(5)),
    ("4r123", Some(27)),
    ("8r17", Some(15)),
    ("16rff", Some(255)),
    ("16rffffffffffffffff", Some(18446744073709551615)),
    ("16r10000000000000000", None),
    (
        "2r000000000000000000000000000000000000000000000000000000000000000001",
        Some(1),
    ),
    ("2r", None),
    ("16r", None),
    ("2r2", None),
    ("8r8", None),
    ("16rg", None),
    ("02r1", None),
    ("3r1", None),
    ("10r1", None),
    ("12", None),
];

#[test]
fn numbers_have_values(rt: HostRuntime) {
    for (text, value) in INTS {
        holds(&rt, int_of(text.as_bytes()) == *value, text);
    }
}

#[test]
fn bits_have_values(rt: HostRuntime) {
    for (text, value) in BITS {
        holds(&rt, bits_of(text.as_bytes()) == *value, text);
    }
}

fn with_a_quote(rt: &impl Abort, alloc: Global) -> Text {
    string_of(alloc, b"\"a\"\"b\"").expect(rt, "memory")
}

fn empty(rt: &impl Abort, alloc: Global) -> Text {
    string_of(alloc, b"\"\"").expect(rt, "memory")
}

fn has_bytes(rt: &impl Abort, text: Text, bytes: &[u8]) {
    holds(rt, text.as_slice() == bytes, "the bytes of a string");
    drop(text);
}

#[test]
fn strings_have_bytes(rt: HostRuntime) {
    has_bytes(&rt, with_a_quote(&rt, rt.alloc()), b"a\"b");
    has_bytes(&rt, empty(&rt, rt.alloc()), b"");
}
