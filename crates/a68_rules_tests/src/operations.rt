//! Operations on the values of their parts, by hand.
use crate::table::{agrees, holds};
use a68_acts::{Doing, Next, Reply};
use a68_modes::Modes;
use a68_perform::{applied, applied_to_one, case_of, made, print_next, resumed, updating};
use a68_values::{Chain, Environ, Held, Name, Plain, Value, ValueNode, Values};
use std::alloc::Global;
use std::panic::Expect;
use std::process::Abort;

/// Rows of the table of operators, with the left and the right operand, and what comes of it. A row from 26 on has no
/// left operand.
const OPERATORS: &[(u32, Plain, Plain, &str)] = &[
    (15, Plain::Int(3), Plain::Int(-4), "Int(-1)"),
    (
        15,
        Plain::Int(9223372036854775807),
        Plain::Int(1),
        "Overflow",
    ),
    (18, Plain::Int(-7), Plain::Int(2), "Int(-3)"),
    (19, Plain::Int(-7), Plain::Int(2), "Int(1)"),
    (18, Plain::Int(1), Plain::Int(0), "Divisor"),
    (21, Plain::Int(2), Plain::Int(10), "Int(1024)"),
    (21, Plain::Int(2), Plain::Int(-1), "Domain"),
    (7, Plain::Bool(true), Plain::Bool(false), "Bool(true)"),
    (8, Plain::Bits(12), Plain::Bits(10), "Bits(8)"),
    (22, Plain::Bits(1), Plain::Int(3), "Bits(8)"),
    (20, Plain::Int(64), Plain::Bits(1), "Bool(true)"),
    (11, Plain::Char(97), Plain::Char(98), "Bool(true)"),
    (15, Plain::Int(1), Plain::Bool(true), "Kind"),
    (15, Plain::Unset, Plain::Bool(true), "Unset"),
    (24, Plain::Int(1), Plain::Int(1), "Kind"),
];

/// Rows before one operand.
const MONADIC: &[(u32, Plain, &str)] = &[
    (26, Plain::Int(-3), "Int(-3)"),
    (26, Plain::Unset, "Unset"),
    (26, Plain::Bool(true), "Kind"),
    (27, Plain::Int(3), "Int(-3)"),
    (28, Plain::Bool(true), "Bool(false)"),
    (29, Plain::Char(65), "Int(65)"),
    (32, Plain::Int(256), "Domain"),
    (33, Plain::Int(5), "Bits(5)"),
    (34, Plain::Int(5), "Kind"),
];

// What comes of an operator and its operands.
fn outcome(rt: &impl Abort, alloc: Global, row: u32, left: Value, right: Value) -> Doing {
    let doing = applied(alloc, row, &left, &right);
    drop(left);
    drop(right);
    doing.expect(rt, "memory")
}

#[test]
fn operators(rt: HostRuntime) {
    for (row, left, right, expected) in OPERATORS {
        let outcome = outcome(&rt, rt.alloc(), *row, Value::of(*left), Value::of(*right));
        is_shown(&rt, rt.alloc(), outcome, expected, expected);
    }
}

#[test]
fn monadic_operators(rt: HostRuntime) {
    for (row, right, expected) in MONADIC {
        let left = Value {
            node: ValueNode::Void,
        };
        let outcome = outcome(&rt, rt.alloc(), *row, left, Value::of(*right));
        is_shown(&rt, rt.alloc(), outcome, expected, expected);
    }
}

/// A name of an INT.
const NAME: Plain = Plain::Name(Name { cell: 7, scope: 3 });

/// A name and another operand of `+:=`, and what comes of them.
const TESTED: &[(Plain, Plain, &str)] = &[
    (NAME, Plain::Int(3), "Fetch 7"),
    (Plain::Unset, Plain::Int(3), "Unset"),
    (NAME, Plain::Unset, "Unset"),
    (Plain::Nil, Plain::Unset, "Unset"),
    (Plain::Unset, Plain::Bool(true), "Unset"),
    (Plain::Nil, Plain::Bool(true), "Kind"),
    (NAME, Plain::Bool(true), "Kind"),
    (Plain::Int(3), Plain::Int(3), "Kind"),
    (Plain::Nil, Plain::Int(3), "Nil"),
];

/// Rows of operators that are combined with assignation, what the cell holds, the other operand, and what comes of them.
const UPDATES: &[(u32, Plain, i64, &str)] = &[
    (1, Plain::Int(5), 3, "Assign 7 Int(8)"),
    (2, Plain::Int(5), 3, "Assign 7 Int(2)"),
    (3, Plain::Int(5), -3, "Assign 7 Int(-15)"),
    (4, Plain::Int(-7), 2, "Assign 7 Int(-3)"),
    (5, Plain::Int(-7), 2, "Assign 7 Int(1)"),
    (1, Plain::Unset, 3, "Unset"),
    (5, Plain::Unset, 0, "Unset"),
    (1, Plain::Bool(true), 3, "Kind"),
    (1, Plain::Int(9223372036854775807), 1, "Overflow"),
    (2, Plain::Int(-9223372036854775807), 1, "Overflow"),
    (3, Plain::Int(4611686018427387904), 2, "Overflow"),
    (4, Plain::Int(1), 0, "Divisor"),
    (5, Plain::Int(1), 0, "Divisor"),
];

// What comes of an operator that is combined with assignation, before its first act.
fn begun(rt: &impl Abort, alloc: Global, row: u32, name: Value, operand: Value) -> Doing {
    let doing = updating(alloc, row, &name, &operand);
    drop(name);
    drop(operand);
    doing.expect(rt, "memory")
}

// What comes of an operation behind its next act.
fn behind(rt: &impl Abort, alloc: Global, doing: Doing, reply: Reply) -> Doing {
    match doing {
        Doing::Asks(want, next) => {
            drop(want);
            let modes = Modes::new(alloc).expect(rt, "memory");
            let doing = resumed(alloc, &modes, next, reply);
            drop(modes);
            doing.expect(rt, "memory")
        }
        other => {
            drop(reply);
            other
        }
    }
}

// What comes of such an operator once the old value is fetched.
fn fetched(rt: &impl Abort, alloc: Global, row: u32, old: Plain, operand: i64) -> Doing {
    let doing = begun(
        rt,
        alloc,
        row,
        Value::of(NAME),
        Value::of(Plain::Int(operand)),
    );
    behind(rt, alloc, doing, Reply::Held(Held::Plain(old)))
}

#[test]
fn names_are_tested(rt: HostRuntime) {
    for (name, operand, expected) in TESTED {
        let doing = begun(&rt, rt.alloc(), 1, Value::of(*name), Value::of(*operand));
        is_shown(&rt, rt.alloc(), doing, expected, expected);
    }
}

#[test]
fn updates(rt: HostRuntime) {
    for (row, old, operand, expected) in UPDATES {
        let doing = fetched(&rt, rt.alloc(), *row, *old, *operand);
        is_shown(&rt, rt.alloc(), doing, expected, expected);
    }
}

// The name is the yield.
#[test]
fn an_update_yields_its_name(rt: HostRuntime) {
    let doing = fetched(&rt, rt.alloc(), 1, Plain::Int(5), 3);
    let named = behind(&rt, rt.alloc(), doing, Reply::Go);
    let name = "Name(Name { cell: 7, scope: 3 })";
    is_shown(&rt, rt.alloc(), named, name, "the name");
}

/// LEVEL, UP and DOWN, with an operand, and what comes of them before their first act.
const SEMAPHORES: &[(u32, Plain, &str)] = &[
    (34, Plain::Int(-1), "Make 1"),
    (34, Plain::Sema(7), "Fetch 7"),
    (34, Plain::Unset, "Unset"),
    (34, Plain::Bool(true), "Kind"),
    (35, Plain::Sema(7), "Up 7"),
    (35, Plain::Unset, "Unset"),
    (35, Plain::Int(1), "Kind"),
    (36, Plain::Sema(7), "Down 7"),
    (36, Plain::Unset, "Unset"),
    (36, Plain::Int(1), "Kind"),
];

// What comes of an operator before one operand.
fn before(rt: &impl Abort, alloc: Global, row: u32, operand: Plain) -> Doing {
    let operand = Value::of(operand);
    let doing = applied_to_one(alloc, row, &operand);
    drop(operand);
    doing.expect(rt, "memory")
}

#[test]
fn semaphores(rt: HostRuntime) {
    for (row, operand, expected) in SEMAPHORES {
        let doing = before(&rt, rt.alloc(), *row, *operand);
        is_shown(&rt, rt.alloc(), doing, expected, expected);
    }
}

// A new semaphore has its count once that is assigned to its cell, and is then the yield.
#[test]
fn a_semaphore_is_made(rt: HostRuntime) {
    let alloc = rt.alloc();
    let doing = before(&rt, alloc, 34, Plain::Int(-1));
    let counted = behind(&rt, alloc, doing, Reply::Base(7));
    let shown = crate::doing(alloc, &counted).expect(&rt, "memory");
    agrees(&rt, &shown, "Assign 7 Int(-1)", "its count");
    drop(shown);
    let made = behind(&rt, alloc, counted, Reply::Go);
    is_shown(&rt, alloc, made, "Sema(7)", "a semaphore");
}

#[test]
fn a_semaphore_tells_its_count(rt: HostRuntime) {
    let alloc = rt.alloc();
    let doing = before(&rt, alloc, 34, Plain::Sema(7));
    let count = behind(&rt, alloc, doing, Reply::Held(Held::Plain(Plain::Int(-1))));
    is_shown(&rt, alloc, count, "Int(-1)", "its count");
}

// UP and DOWN yield nothing.
#[test]
fn semaphores_are_raised_and_lowered(rt: HostRuntime) {
    let alloc = rt.alloc();
    for row in 35..37 {
        let doing = before(&rt, alloc, row, Plain::Sema(7));
        let done = behind(&rt, alloc, doing, Reply::Go);
        holds(&rt, is_void(&done), "no yield");
        drop(done);
    }
}

/// A number, how many parts there are, and which of them it chooses, from 0.
const CHOICES: &[(i64, usize, usize)] = &[
    (1, 3, 0),
    (3, 3, 2),
    (4, 3, 3),
    (0, 3, 3),
    (-1, 3, 3),
    (1, 0, 0),
    (9223372036854775807, 3, 3),
];

#[test]
fn choices(rt: HostRuntime) {
    for (number, parts, chosen) in CHOICES {
        let case = case_of(*parts, Plain::Int(*number));
        holds(&rt, case.ok() == Some(*chosen), "a choice");
    }
}

// A new INT is asked for where the newest frame is of scope 3, and then the first cell is 7.
#[test]
fn a_name_is_made(rt: HostRuntime) {
    let alloc = rt.alloc();
    let modes = Modes::new(alloc).expect(&rt, "memory");
    let chain = Chain::of_one(alloc, Environ { frame: 0, scope: 3 }).expect(&rt, "memory");
    let asked = made(alloc, &modes, 1, &chain, &[]).expect(&rt, "memory");
    drop(chain);
    is_shown(&rt, alloc, asked, "Make 1 of scope 3", "a new INT");
    let named = resumed(alloc, &modes, Next::Made { scope: 3 }, Reply::Base(7)).expect(
        &rt, "memory",
    );
    drop(modes);
    let name = "Name(Name { cell: 7, scope: 3 })";
    is_shown(&rt, alloc, named, name, "its name");
}

// Whether what comes of an operation is told so.
fn is_shown(rt: &impl Abort, alloc: Global, doing: Doing, told: &str, case: &str) {
    let shown = crate::doing(alloc, &doing);
    drop(doing);
    let shown = shown.expect(rt, "memory");
    agrees(rt, &shown, told, case);
    drop(shown);
}

fn is_void(doing: &Doing) -> bool {
    match doing {
        Doing::Yields(value) => matches!(value.node, ValueNode::Void),
        _ => false,
    }
}

// 3 is printed.
#[test]
fn values_are_printed(rt: HostRuntime) {
    let alloc = rt.alloc();
    let items = vec![in alloc; Value::of(Plain::Int(3))].expect(&rt, "memory");
    let printed = print_next(alloc, Values { items }).expect(&rt, "memory");
    is_shown(&rt, alloc, printed, "Print \"                  +3\"", "3");
}

// Where nothing is left nothing comes of it.
#[test]
fn all_is_printed(rt: HostRuntime) {
    let alloc = rt.alloc();
    let items = Vec::new(alloc);
    let next = Next::Printing(Values { items });
    let modes = Modes::new(alloc).expect(&rt, "memory");
    let doing = resumed(alloc, &modes, next, Reply::Go).expect(&rt, "memory");
    drop(modes);
    holds(&rt, is_void(&doing), "all is printed");
    drop(doing);
}
