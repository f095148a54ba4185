//! What is printed of items, counted by hand from the rules: an INT in 20 places and more where the number needs them.
use crate::table::{agrees, holds};
use a68_acts::{Doing, Next, Reply, Want};
use a68_modes::Modes;
use a68_perform::{print_next, resumed, united, whole_of};
use a68_values::{Layout, Plain, Value, ValueNode, Values};
use std::alloc::Global;
use std::panic::Expect;
use std::process::Abort;
use std::string::String;

/// Plain items of the modes that can be printed, and what is printed of each.
const ITEMS: &[(u32, Plain, &str)] = &[
    (1, Plain::Int(0), "                  +0"),
    (1, Plain::Int(-12), "                 -12"),
    (1, Plain::Int(9223372036854775807), "+9223372036854775807"),
    (2, Plain::Bool(true), "T"),
    (2, Plain::Bool(false), "F"),
    (3, Plain::Char(98), "b"),
    (
        4,
        Plain::Bits(5),
        "FFFFFFFFFFFFFFFFFFFFFFFFFFFFFFFFFFFFFFFFFFFFFFFFFFFFFFFFFFFFFTFT",
    ),
    (1, Plain::Unset, "Unset"),
    (9, Plain::Nil, "Kind"),
];

// What is printed of an item, or the fault that it meets.
fn printed(rt: &impl Abort, alloc: Global, item: Value) -> String {
    let items = vec![in alloc; item].expect(rt, "memory");
    let doing = print_next(alloc, Values { items }).expect(rt, "memory");
    let shown = match &doing {
        Doing::Asks(Want::Print(text), _) => {
            String::from_utf8_lossy(alloc, &text.items).expect(rt, "memory")
        }
        Doing::Meets(kind) => format!(in alloc; "{kind:?}").expect(rt, "memory"),
        _ => String::new(alloc),
    };
    drop(doing);
    shown
}

// A value united.
fn item(rt: &impl Abort, alloc: Global, modes: &Modes, mode: u32, value: Value) -> Value {
    match united(alloc, modes, mode, value).expect(rt, "memory") {
        Doing::Yields(value) => value,
        other => {
            drop(other);
            Value::of(Plain::Unset)
        }
    }
}

// Whether this is printed of an item, united or not.
fn prints(rt: &impl Abort, alloc: Global, item: Value, expected: &str) {
    let shown = printed(rt, alloc, item);
    agrees(rt, &shown, expected, expected);
    drop(shown);
}

#[test]
fn items(rt: HostRuntime) {
    let alloc = rt.alloc();
    let modes = Modes::new(alloc).expect(&rt, "memory");
    for (mode, held, expected) in ITEMS {
        let united = item(&rt, alloc, &modes, *mode, Value::of(*held));
        holds(
            &rt,
            matches!(&united.node, ValueNode::United { .. }),
            expected,
        );
        prints(&rt, alloc, united, expected);
        prints(&rt, alloc, Value::of(*held), expected);
    }
    drop(modes);
}

// What is united already stays.
#[test]
fn unions(rt: HostRuntime) {
    let alloc = rt.alloc();
    let modes = Modes::new(alloc).expect(&rt, "memory");
    let one = item(&rt, alloc, &modes, 1, Value::of(Plain::Int(1)));
    let again = item(&rt, alloc, &modes, 8, one);
    drop(modes);
    holds(
        &rt,
        matches!(&again.node, ValueNode::United { mode: 1, .. }),
        "a member of the union",
    );
    drop(again);
}

#[test]
fn layouts(rt: HostRuntime) {
    let newline = Value {
        node: ValueNode::Layout(Layout::Newline),
    };
    prints(&rt, rt.alloc(), newline, "\n");
}

/// Numbers, widths, and their texts.
const WHOLE: &[(i64, i64, &str)] = &[
    (5, 0, "5"),
    (-5, 0, "-5"),
    (5, 4, "  +5"),
    (5, -4, "   5"),
    (12345, 3, "***"),
];

#[test]
fn numbers_as_texts(rt: HostRuntime) {
    let alloc = rt.alloc();
    for (value, width, expected) in WHOLE {
        let (value, width) = (Value::of(Plain::Int(*value)), Value::of(Plain::Int(*width)));
        let doing = whole_of(alloc, &value, &width);
        drop(value);
        drop(width);
        match doing.expect(&rt, "memory") {
            Doing::Yields(text) => prints(&rt, alloc, text, expected),
            other => {
                drop(other);
                holds(&rt, false, expected);
            }
        }
    }
}

// Two items are printed in order, the one behind once the first one is printed.
#[test]
fn items_in_order(rt: HostRuntime) {
    let alloc = rt.alloc();
    let modes = Modes::new(alloc).expect(&rt, "memory");
    let items = vec![in alloc; Value::of(Plain::Char(98)), Value::of(Plain::Char(97))];
    let left = Values {
        items: items.expect(&rt, "memory"),
    };
    let first = print_next(alloc, left).expect(&rt, "memory");
    match first {
        Doing::Asks(want, next) => {
            drop(want);
            behind(&rt, alloc, &modes, next);
        }
        other => {
            drop(other);
            holds(&rt, false, "the first item");
        }
    }
    drop(modes);
}

fn behind(rt: &impl Abort, alloc: Global, modes: &Modes, next: Next) {
    let second = resumed(alloc, modes, next, Reply::Go).expect(rt, "memory");
    let is_b = match &second {
        Doing::Asks(Want::Print(text), _) => text.items.as_slice() == b"b".as_slice(),
        _ => false,
    };
    drop(second);
    holds(rt, is_b, "the second item");
}
