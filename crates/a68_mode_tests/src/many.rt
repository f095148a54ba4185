//! Texts of as many declarers as there may be, and of one more.
use crate::declared::{is_accepted, is_refused};
use a68_base::Rule;
use std::alloc::Global;
use std::panic::Expect;
use std::process::Abort;

fn add(rt: &impl Abort, text: &mut String, more: &str) {
    text.push_str(more).expect(rt, "memory");
}

// So many casts to INT.
fn casts(rt: &impl Abort, alloc: Global, count: u32) -> String {
    let mut text = String::new(alloc);
    add(rt, &mut text, "(");
    for _ in 0..count {
        add(rt, &mut text, "INT(1);");
    }
    add(rt, &mut text, "SKIP)");
    text
}

#[test]
fn as_many_as_there_may_be(rt: HostRuntime) {
    let text = casts(&rt, rt.alloc(), 4096);
    is_accepted(&rt, rt.alloc(), &text);
}

// The first 4,096 casts take 7 bytes each, behind one bracket.
#[test]
fn one_too_many(rt: HostRuntime) {
    let text = casts(&rt, rt.alloc(), 4097);
    is_refused(&rt, rt.alloc(), &text, Rule::L4, 28673);
}

fn add_number(rt: &impl Abort, alloc: Global, text: &mut String, number: u32) {
    let digits = format!(in alloc; "{number}").expect(rt, "memory");
    add(rt, text, &digits);
}

// MODE A0 = REF A1, A1 = REF A2, .. and a structure with a REF A0 at last.
fn ring(rt: &impl Abort, alloc: Global, count: u32) -> String {
    let mut text = String::new(alloc);
    add(rt, &mut text, "(MODE ");
    for number in 0..count {
        add(rt, &mut text, "A");
        add_number(rt, alloc, &mut text, number);
        add(rt, &mut text, "=REF A");
        add_number(rt, alloc, &mut text, number.saturating_add(1));
        add(rt, &mut text, ",");
    }
    add(rt, &mut text, "A");
    add_number(rt, alloc, &mut text, count);
    add(rt, &mut text, "=STRUCT(INT v,REF A0 n);SKIP)");
    text
}

#[test]
fn modes_in_a_ring(rt: HostRuntime) {
    let text = ring(&rt, rt.alloc(), 2046);
    is_accepted(&rt, rt.alloc(), &text);
}

// A union of structures that differ in their tags.
fn wide(rt: &impl Abort, alloc: Global, count: u32) -> String {
    let mut text = String::new(alloc);
    add(rt, &mut text, "(UNION(INT");
    for number in 0..count {
        add(rt, &mut text, ",STRUCT(INT a");
        add_number(rt, alloc, &mut text, number);
        add(rt, &mut text, ")");
    }
    add(rt, &mut text, ") u;SKIP)");
    text
}

#[test]
fn a_union_of_many_members(rt: HostRuntime) {
    let text = wide(&rt, rt.alloc(), 2047);
    is_accepted(&rt, rt.alloc(), &text);
}
