//! The acts of fetching and of assigning values of structures and unions, and what is made of such values, by hand.
use crate::table::{agrees, holds};
use a68_acts::{Doing, Reply};
use a68_modes::{ModeId, Modes};
use a68_perform::{making, member_of, resumed, united};
use a68_steps::{assigned, assigned_parts, composed, fetched_parts, selected, skipped};
use a68_values::{Descriptor, Dim, Dims, FaultKind, Held, Name, Plain, Value, ValueNode, Values};
use a68_values_tests::modes::{BOX, DEEP, EITHER, INT, LINK, NAMED, POINT, REF_BOX, modes};
use std::alloc::Global;
use std::panic::Expect;
use std::process::Abort;

/// What an act tells.
#[derive(Clone, Copy)]
pub enum Told {
    Go,
    Base(u32),
    Int(i64),
    Plain(Plain),
    Member(ModeId, u32),
    Row(u32, i64),
}

// Acts in order, with what each tells.
pub type Acts = &'static [(&'static str, Told)];

// A row of one dimension, from 1 up to this bound, whose elements take one cell each from this one on.
pub fn row(rt: &impl Abort, alloc: Global, base: u32, upper: i64) -> Descriptor {
    let dim = Dim {
        lower: 1,
        upper,
        stride: 1,
    };
    Descriptor {
        base,
        dims: Dims::of(alloc, &[dim]).expect(rt, "memory"),
    }
}

fn reply(rt: &impl Abort, alloc: Global, told: &Told) -> Reply {
    match told {
        Told::Go => Reply::Go,
        Told::Base(base) => Reply::Base(*base),
        Told::Int(value) => Reply::Held(Held::Plain(Plain::Int(*value))),
        Told::Plain(held) => Reply::Held(Held::Plain(*held)),
        Told::Member(mode, base) => Reply::Held(Held::Member {
            mode: *mode,
            base: *base,
        }),
        Told::Row(base, upper) => Reply::Held(Held::Rows(row(rt, alloc, *base, *upper))),
    }
}

// What comes of an operation is told so.
fn is_told(rt: &impl Abort, alloc: Global, doing: &Doing, told: &str) {
    let shown = crate::doing(alloc, doing).expect(rt, "memory");
    agrees(rt, &shown, told, told);
    drop(shown);
}

// An operation asks for this act, and goes on with what it tells.
fn goes_on(rt: &impl Abort, alloc: Global, modes: &Modes, doing: Doing, told: &Told) -> Doing {
    match doing {
        Doing::Asks(want, next) => {
            drop(want);
            let reply = reply(rt, alloc, told);
            resumed(alloc, modes, next, reply).expect(rt, "memory")
        }
        other => other,
    }
}

// An operation does these acts, and this comes of it then.
pub fn does(rt: &impl Abort, alloc: Global, modes: &Modes, begun: Doing, acts: Acts, last: &str) {
    let mut doing = begun;
    for (act, told) in acts {
        is_told(rt, alloc, &doing, act);
        doing = goes_on(rt, alloc, modes, doing, told);
    }
    is_told(rt, alloc, &doing, last);
    drop(doing);
}

const NAME: Name = Name { cell: 7, scope: 3 };

/// Modes, the acts of fetching what a name at cell 7 refers to, and what comes of it.
const FETCHED: &[(ModeId, Acts, &str)] = &[
    (
        POINT,
        &[("Fetch 7", Told::Int(1)), ("Fetch 8", Told::Int(2))],
        "(Int(1) Int(2))",
    ),
    (
        POINT,
        &[
            ("Fetch 7", Told::Plain(Plain::Unset)),
            ("Fetch 8", Told::Int(2)),
        ],
        "(Unset Int(2))",
    ),
    (EITHER, &[("Fetch 7", Told::Plain(Plain::Unset))], "Unset"),
    (
        EITHER,
        &[
            ("Fetch 7", Told::Member(INT, 40)),
            ("Fetch 40", Told::Int(5)),
        ],
        "1: Int(5)",
    ),
    (
        BOX,
        &[
            ("Fetch 7", Told::Plain(Plain::Bool(true))),
            ("Fetch 8", Told::Int(1)),
            ("Fetch 9", Told::Int(2)),
            ("Fetch 10", Told::Member(POINT, 20)),
            ("Fetch 20", Told::Int(3)),
            ("Fetch 21", Told::Int(4)),
        ],
        "(Bool(true) (Int(1) Int(2)) 15: (Int(3) Int(4)))",
    ),
    (
        NAMED,
        &[("Fetch 7", Told::Int(1)), ("Fetch 8", Told::Int(2))],
        "Kind",
    ),
    (
        NAMED,
        &[
            ("Fetch 7", Told::Int(1)),
            ("Fetch 8", Told::Row(30, 2)),
            ("Fetch 30", Told::Plain(Plain::Char(97))),
            ("Fetch 31", Told::Plain(Plain::Char(98))),
        ],
        "(Int(1) [1:2](Char(97) Char(98)))",
    ),
    (
        NAMED,
        &[("Fetch 7", Told::Int(1)), ("Fetch 8", Told::Row(30, 0))],
        "(Int(1) [1:0]())",
    ),
    (DEEP, &[], "Cells"),
    (EITHER, &[("Fetch 7", Told::Int(1))], "Kind"),
    (POINT, &[("Fetch 7", Told::Go)], "Kind"),
];

#[test]
fn what_names_refer_to(rt: HostRuntime) {
    let alloc = rt.alloc();
    let modes = modes(alloc).expect(&rt, "modes");
    for (mode, acts, last) in FETCHED {
        let begun = fetched_parts(alloc, &modes, *mode, NAME).expect(&rt, "memory");
        does(&rt, alloc, &modes, begun, acts, last);
    }
    drop(modes);
}

// A name so far to the end that its cells pass the most that there may be.
#[test]
fn a_name_beyond_all_cells(rt: HostRuntime) {
    let alloc = rt.alloc();
    let modes = modes(alloc).expect(&rt, "modes");
    let last = Name {
        cell: 4_194_303,
        scope: 0,
    };
    let begun = fetched_parts(alloc, &modes, POINT, last).expect(&rt, "memory");
    does(&rt, alloc, &modes, begun, &[], "Cells");
    drop(modes);
}

fn pair(rt: &impl Abort, alloc: Global, left: Value, right: Value) -> Value {
    let items = vec![in alloc; left, right].expect(rt, "memory");
    Value {
        node: ValueNode::Structure(Values { items }),
    }
}

fn int(value: i64) -> Value {
    Value::of(Plain::Int(value))
}

fn point(rt: &impl Abort, alloc: Global, x: i64, y: i64) -> Value {
    pair(rt, alloc, int(x), int(y))
}

fn unite(rt: &impl Abort, alloc: Global, modes: &Modes, mode: ModeId, value: Value) -> Value {
    match united(alloc, modes, mode, value).expect(rt, "memory") {
        Doing::Yields(value) => value,
        other => {
            drop(other);
            Value::of(Plain::Unset)
        }
    }
}

// (TRUE, (1, 2), a POINT (3, 4)).
fn whole(rt: &impl Abort, alloc: Global, modes: &Modes) -> Value {
    let either = point(rt, alloc, 3, 4);
    let either = unite(rt, alloc, modes, POINT, either);
    let inner = point(rt, alloc, 1, 2);
    let items = vec![in alloc; Value::of(Plain::Bool(true)), inner, either].expect(rt, "memory");
    Value {
        node: ValueNode::Structure(Values { items }),
    }
}

const YIELD: &str = "Name(Name { cell: 7, scope: 3 })";

const POINT_ACTS: Acts = &[("Assign 7 Int(1)", Told::Go), ("Assign 8 Int(2)", Told::Go)];

/// The cell that names the member of a union is assigned last.
const WHOLE_ACTS: Acts = &[
    ("Assign 7 Bool(true)", Told::Go),
    ("Assign 8 Int(1)", Told::Go),
    ("Assign 9 Int(2)", Told::Go),
    ("Make 2", Told::Base(30)),
    ("Assign 30 Int(3)", Told::Go),
    ("Assign 31 Int(4)", Told::Go),
    ("Assign 10 Member 15 30", Told::Go),
];

// A value is assigned to the name by these acts, and this comes of it.
fn assigns(
    rt: &impl Abort,
    alloc: Global,
    modes: &Modes,
    mode: ModeId,
    value: Value,
    acts: Acts,
    last: &str,
) {
    let begun = assigned_parts(alloc, modes, mode, NAME, value).expect(rt, "memory");
    does(rt, alloc, modes, begun, acts, last);
}

#[test]
fn fields_are_assigned_in_order(rt: HostRuntime) {
    let alloc = rt.alloc();
    let modes = modes(alloc).expect(&rt, "modes");
    let value = point(&rt, alloc, 1, 2);
    assigns(&rt, alloc, &modes, POINT, value, POINT_ACTS, YIELD);
    let value = whole(&rt, alloc, &modes);
    assigns(&rt, alloc, &modes, BOX, value, WHOLE_ACTS, YIELD);
    drop(modes);
}

const INT_ACTS: Acts = &[
    ("Make 1", Told::Base(30)),
    ("Assign 30 Int(5)", Told::Go),
    ("Assign 7 Member 1 30", Told::Go),
];

const UNSET_ACTS: Acts = &[("Assign 7 Unset", Told::Go)];

#[test]
fn unions_are_assigned(rt: HostRuntime) {
    let alloc = rt.alloc();
    let modes = modes(alloc).expect(&rt, "modes");
    let five = unite(&rt, alloc, &modes, INT, int(5));
    assigns(&rt, alloc, &modes, EITHER, five, INT_ACTS, YIELD);
    let unset = Value::of(Plain::Unset);
    assigns(&rt, alloc, &modes, EITHER, unset, UNSET_ACTS, YIELD);
    drop(modes);
}

// The second field alone is newer than the name.
#[test]
fn scopes_of_whole_values(rt: HostRuntime) {
    let alloc = rt.alloc();
    let modes = modes(alloc).expect(&rt, "modes");
    let newer = Value::of(Plain::Name(Name { cell: 9, scope: 4 }));
    let value = pair(&rt, alloc, int(1), newer);
    assigns(&rt, alloc, &modes, LINK, value, &[], "Scope");
    drop(modes);
}

// Other values than the mode asks for: at once, or when the acts come to them.
#[test]
fn values_of_another_kind(rt: HostRuntime) {
    let alloc = rt.alloc();
    let modes = modes(alloc).expect(&rt, "modes");
    assigns(&rt, alloc, &modes, POINT, int(1), &[], "Kind");
    let value = pair(
        &rt,
        alloc,
        int(1),
        Value {
            node: ValueNode::Void,
        },
    );
    let first: Acts = &[("Assign 7 Int(1)", Told::Go)];
    assigns(&rt, alloc, &modes, POINT, value, first, "Kind");
    let value = point(&rt, alloc, 1, 2);
    assigns(&rt, alloc, &modes, DEEP, value, &[], "Cells");
    drop(modes);
}

// What is no name is tested first.
#[test]
fn names_first(rt: HostRuntime) {
    let alloc = rt.alloc();
    let modes = modes(alloc).expect(&rt, "modes");
    for (name, told) in [
        (Plain::Unset, "Unset"),
        (Plain::Nil, "Nil"),
        (Plain::Int(1), "Kind"),
    ] {
        let value = point(&rt, alloc, 1, 2);
        let name = Value::of(name);
        let doing = assigned(alloc, &modes, POINT, &name, value).expect(&rt, "memory");
        drop(name);
        does(&rt, alloc, &modes, doing, &[], told);
    }
    drop(modes);
}

/// Modes, and what comes of a new name and of SKIP.
const NEW: &[(ModeId, &str, &str)] = &[
    (POINT, "Make 2 of scope 0", "(Unset Unset)"),
    (BOX, "Make 4 of scope 0", "(Unset (Unset Unset) Unset)"),
    (EITHER, "Make 1 of scope 0", "Unset"),
    (NAMED, "Kind", "(Unset [1:0]())"),
    (DEEP, "Cells", "Cells"),
];

#[test]
fn new_names_and_skip(rt: HostRuntime) {
    let alloc = rt.alloc();
    let modes = modes(alloc).expect(&rt, "modes");
    for (mode, named, value) in NEW {
        let doing = making(alloc, &modes, *mode, 0, &[]).expect(&rt, "memory");
        does(&rt, alloc, &modes, doing, &[], named);
        let doing = skipped(alloc, &modes, *mode).expect(&rt, "memory");
        does(&rt, alloc, &modes, doing, &[], value);
    }
    drop(modes);
}

/// Fields of a name of a BOX at cell 7, and what comes of each.
const SELECTED: &[(u32, &str)] = &[
    (0, "Name(Name { cell: 7, scope: 3 })"),
    (1, "Name(Name { cell: 8, scope: 3 })"),
    (2, "Name(Name { cell: 10, scope: 3 })"),
    (3, "Kind"),
];

#[test]
fn names_of_fields(rt: HostRuntime) {
    let alloc = rt.alloc();
    let modes = modes(alloc).expect(&rt, "modes");
    for (field, told) in SELECTED {
        let doing = selected(alloc, &modes, REF_BOX, *field, Value::of(Plain::Name(NAME))).expect(
            &rt, "memory",
        );
        does(&rt, alloc, &modes, doing, &[], told);
    }
    let nil = selected(alloc, &modes, REF_BOX, 0, Value::of(Plain::Nil)).expect(&rt, "memory");
    does(&rt, alloc, &modes, nil, &[], "Nil");
    let unset = selected(alloc, &modes, REF_BOX, 0, Value::of(Plain::Unset)).expect(&rt, "memory");
    does(&rt, alloc, &modes, unset, &[], "Unset");
    drop(modes);
}

#[test]
fn fields_of_values(rt: HostRuntime) {
    let alloc = rt.alloc();
    let modes = modes(alloc).expect(&rt, "modes");
    let value = whole(&rt, alloc, &modes);
    let doing = selected(alloc, &modes, BOX, 1, value).expect(&rt, "memory");
    does(&rt, alloc, &modes, doing, &[], "(Int(1) Int(2))");
    let value = whole(&rt, alloc, &modes);
    let doing = selected(alloc, &modes, BOX, 3, value).expect(&rt, "memory");
    does(&rt, alloc, &modes, doing, &[], "Kind");
    drop(modes);
}

#[test]
fn structures_of_values(rt: HostRuntime) {
    let alloc = rt.alloc();
    let modes = modes(alloc).expect(&rt, "modes");
    for (count, told) in [(2, "(Int(1) Int(2))"), (3, "Kind")] {
        let items = vec![in alloc; int(1), int(2)].expect(&rt, "memory");
        let doing = composed(count, Values { items });
        does(&rt, alloc, &modes, doing, &[], told);
    }
    drop(modes);
}

/// Modes that are united, and which member of EITHER they are.
const MEMBERS: &[(ModeId, Result<usize, FaultKind>)] = &[
    (INT, Ok(0)),
    (POINT, Ok(1)),
    (BOX, Err(FaultKind::Kind)),
];

#[test]
fn members(rt: HostRuntime) {
    let alloc = rt.alloc();
    let modes = modes(alloc).expect(&rt, "modes");
    for (mode, expected) in MEMBERS {
        let value = unite(&rt, alloc, &modes, *mode, int(5));
        let member = member_of(&modes, EITHER, &value);
        drop(value);
        holds(&rt, member == *expected, "a member");
    }
    let unset = member_of(&modes, EITHER, &Value::of(Plain::Unset));
    holds(&rt, unset == Err(FaultKind::Unset), "an unset union");
    let other = member_of(&modes, EITHER, &int(5));
    holds(&rt, other == Err(FaultKind::Kind), "no union");
    drop(modes);
}
