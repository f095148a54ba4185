//! Operations on rows and on the names of rows, by hand.
use crate::structures::{Acts, Told, does};
use crate::table::agrees;
use a68_acts::Doing;
use a68_layout::{TrimForm, TrimForms};
use a68_modes::{ModeId, Modes, Shape};
use a68_perform::{applied_to_one, applied_to_two};
use a68_rows::{displayed, rowed, sliced, vacuous};
use a68_steps::assigned_parts;
use a68_values::{Bounds, Name, Plain, Value, ValueNode, Values};
use a68_values_tests::modes::add;
use std::alloc::Global;
use std::panic::Expect;
use std::process::Abort;

/// [] INT.
const LIST: ModeId = 15;

/// [,] INT.
const TABLE: ModeId = 16;

/// FLEX [] INT.
const FLEXIBLE: ModeId = 17;

// A row of INT.
fn row_of_ints(dims: u32, flex: bool) -> Shape {
    Shape::Rows { dims, flex, of: 1 }
}

fn modes(alloc: Global) -> Option<Modes> {
    let mut modes = Modes::new(alloc).ok()?;
    add(alloc, &mut modes, row_of_ints(1, false))?;
    add(alloc, &mut modes, row_of_ints(2, false))?;
    add(alloc, &mut modes, row_of_ints(1, true))?;
    Some(modes)
}

const NAME: Name = Name { cell: 7, scope: 3 };

fn int(value: i64) -> Value {
    Value::of(Plain::Int(value))
}

fn name() -> Value {
    Value::of(Plain::Name(NAME))
}

// The INTs from one up to another.
fn ints(rt: &impl Abort, alloc: Global, first: i64, count: usize) -> Values {
    let mut items = Vec::new(alloc);
    let mut next = first;
    for _ in 0..count {
        items.push(int(next)).expect(rt, "memory");
        next = next.wrapping_add(1);
    }
    Values { items }
}

// A row with these bounds, whose elements are the INTs from 1 on.
fn row(rt: &impl Abort, alloc: Global, bounds: &[(i64, i64)], count: usize) -> Value {
    let mut items = Vec::new(alloc);
    for pair in bounds {
        items.push(*pair).expect(rt, "memory");
    }
    let bounds = Bounds::of(items);
    let parts = ints(rt, alloc, 1, count).shared().expect(rt, "memory");
    Value {
        node: ValueNode::Row { bounds, parts },
    }
}

// A text of two letters.
fn ab(rt: &impl Abort, alloc: Global) -> Value {
    let items = vec![in alloc; (1, 2)].expect(rt, "memory");
    let bounds = Bounds::of(items);
    let items = vec![in alloc; Value::of(Plain::Char(97)), Value::of(Plain::Char(98))];
    let parts = Values {
        items: items.expect(rt, "memory"),
    };
    let parts = parts.shared().expect(rt, "memory");
    Value {
        node: ValueNode::Row { bounds, parts },
    }
}

const SUBSCRIPT: TrimForm = TrimForm::Subscript;

const WHOLE: TrimForm = TrimForm::Trimmer {
    lower: false,
    upper: false,
    at: false,
};

const PART: TrimForm = TrimForm::Trimmer {
    lower: true,
    upper: true,
    at: false,
};

const MOVED: TrimForm = TrimForm::Trimmer {
    lower: true,
    upper: true,
    at: true,
};

// What comes of a slice of a value.
fn slice(
    rt: &impl Abort,
    alloc: Global,
    forms: &[TrimForm],
    primary: Value,
    indices: &[i64],
) -> Doing {
    let mut items = vec![in alloc; primary].expect(rt, "memory");
    for index in indices {
        items.push(int(*index)).expect(rt, "memory");
    }
    let values = Values { items };
    let mut items = Vec::new(alloc);
    for form in forms {
        items.push(*form).expect(rt, "memory");
    }
    let forms = TrimForms { items };
    let doing = sliced(alloc, &forms, &values.items);
    drop(values);
    drop(forms);
    doing.expect(rt, "memory")
}

/// Slices of the row [2:3, 1:3] of 1 to 6, their units, and what comes of them.
const SLICED: &[(&[TrimForm], &[i64], &str)] = &[
    (&[SUBSCRIPT, SUBSCRIPT], &[2, 1], "Int(1)"),
    (&[SUBSCRIPT, SUBSCRIPT], &[3, 2], "Int(5)"),
    (&[SUBSCRIPT, SUBSCRIPT], &[1, 1], "Bounds"),
    (&[SUBSCRIPT, SUBSCRIPT], &[2, 4], "Bounds"),
    (&[SUBSCRIPT, WHOLE], &[3], "[1:3](Int(4) Int(5) Int(6))"),
    (&[WHOLE, SUBSCRIPT], &[2], "[2:3](Int(2) Int(5))"),
    (
        &[WHOLE, PART],
        &[2, 3],
        "[2:3,1:2](Int(2) Int(3) Int(5) Int(6))",
    ),
    (&[SUBSCRIPT, MOVED], &[2, 2, 3, 0], "[0:1](Int(2) Int(3))"),
    (&[SUBSCRIPT, PART], &[2, 3, 2], "[1:0]()"),
    (&[SUBSCRIPT, PART], &[2, 9, 8], "[1:0]()"),
    (&[SUBSCRIPT, PART], &[2, 0, 2], "Bounds"),
    (&[SUBSCRIPT], &[2], "Kind"),
];

#[test]
fn slices_of_values(rt: HostRuntime) {
    let alloc = rt.alloc();
    let modes = modes(alloc).expect(&rt, "modes");
    for (forms, indices, told) in SLICED {
        let primary = row(&rt, alloc, &[(2, 3), (1, 3)], 6);
        let doing = slice(&rt, alloc, forms, primary, indices);
        does(&rt, alloc, &modes, doing, &[], told);
    }
    drop(modes);
}

/// Slices of a name of a row [1:3] whose elements begin at cell 30, and what comes of them.
const NAMED: &[(&[TrimForm], &[i64], Acts, &str)] = &[
    (
        &[SUBSCRIPT],
        &[3],
        &[("Fetch 7", Told::Row(30, 3))],
        "Name(Name { cell: 32, scope: 3 })",
    ),
    (
        &[SUBSCRIPT],
        &[4],
        &[("Fetch 7", Told::Row(30, 3))],
        "Bounds",
    ),
    (
        &[PART],
        &[2, 3],
        &[
            ("Fetch 7", Told::Row(30, 3)),
            ("Make 1 at 31 1:2/1 of scope 3", Told::Base(50)),
        ],
        "Name(Name { cell: 50, scope: 3 })",
    ),
];

#[test]
fn slices_of_names(rt: HostRuntime) {
    let alloc = rt.alloc();
    let modes = modes(alloc).expect(&rt, "modes");
    for (forms, indices, acts, told) in NAMED {
        let doing = slice(&rt, alloc, forms, name(), indices);
        does(&rt, alloc, &modes, doing, acts, told);
    }
    let nil = slice(&rt, alloc, &[SUBSCRIPT], Value::of(Plain::Nil), &[1]);
    does(&rt, alloc, &modes, nil, &[], "Nil");
    let unset = slice(&rt, alloc, &[SUBSCRIPT], Value::of(Plain::Unset), &[1]);
    does(&rt, alloc, &modes, unset, &[], "Unset");
    drop(modes);
}

#[test]
fn displays(rt: HostRuntime) {
    let alloc = rt.alloc();
    let modes = modes(alloc).expect(&rt, "modes");
    let list = displayed(alloc, &modes, LIST, ints(&rt, alloc, 5, 2)).expect(&rt, "memory");
    does(&rt, alloc, &modes, list, &[], "[1:2](Int(5) Int(6))");
    let rows = vec![in alloc;
        row(&rt, alloc, &[(0, 1)], 2),
        row(&rt, alloc, &[(0, 1)], 2),
    ];
    let rows = Values {
        items: rows.expect(&rt, "memory"),
    };
    let table = displayed(alloc, &modes, TABLE, rows).expect(&rt, "memory");
    let told = "[1:2,0:1](Int(1) Int(2) Int(1) Int(2))";
    does(&rt, alloc, &modes, table, &[], told);
    let rows = vec![in alloc;
        row(&rt, alloc, &[(0, 1)], 2),
        row(&rt, alloc, &[(1, 2)], 2),
    ];
    let rows = Values {
        items: rows.expect(&rt, "memory"),
    };
    let table = displayed(alloc, &modes, TABLE, rows).expect(&rt, "memory");
    does(&rt, alloc, &modes, table, &[], "Bounds");
    let none = vacuous(alloc, &modes, TABLE).expect(&rt, "memory");
    does(&rt, alloc, &modes, none, &[], "[1:0,1:0]()");
    drop(modes);
}

#[test]
fn rowing(rt: HostRuntime) {
    let alloc = rt.alloc();
    let modes = modes(alloc).expect(&rt, "modes");
    let list = rowed(alloc, &modes, LIST, int(5)).expect(&rt, "memory");
    does(&rt, alloc, &modes, list, &[], "[1:1](Int(5))");
    let table = rowed(alloc, &modes, TABLE, row(&rt, alloc, &[(3, 4)], 2)).expect(&rt, "memory");
    does(&rt, alloc, &modes, table, &[], "[1:1,3:4](Int(1) Int(2))");
    drop(modes);
}

/// A row is assigned to the name at cell 7: one that is not flexible keeps its elements, and a flexible one has new ones
/// before its descriptor is assigned.
const KEPT: Acts = &[
    ("Fetch 7", Told::Row(30, 2)),
    ("Assign 30 Int(1)", Told::Go),
    ("Assign 31 Int(2)", Told::Go),
];

const OTHERS: Acts = &[("Fetch 7", Told::Row(30, 3))];

const RENEWED: Acts = &[
    ("Make 2", Told::Base(40)),
    ("Assign 40 Int(1)", Told::Go),
    ("Assign 41 Int(2)", Told::Go),
    ("Assign 7 row at 40 1:2/1", Told::Go),
];

#[test]
fn rows_are_assigned(rt: HostRuntime) {
    let alloc = rt.alloc();
    let modes = modes(alloc).expect(&rt, "modes");
    let yielded = "Name(Name { cell: 7, scope: 3 })";
    for (mode, acts, told) in [
        (LIST, KEPT, yielded),
        (LIST, OTHERS, "Bounds"),
        (FLEXIBLE, RENEWED, yielded),
    ] {
        let value = row(&rt, alloc, &[(1, 2)], 2);
        let doing = assigned_parts(alloc, &modes, mode, NAME, value).expect(&rt, "memory");
        does(&rt, alloc, &modes, doing, acts, told);
    }
    drop(modes);
}

const GROWN: Acts = &[
    ("Fetch 7", Told::Row(30, 1)),
    ("Fetch 30", Told::Plain(Plain::Char(120))),
    ("Make 3", Told::Base(40)),
    ("Assign 40 Char(120)", Told::Go),
    ("Assign 41 Char(97)", Told::Go),
    ("Assign 42 Char(98)", Told::Go),
    ("Assign 7 row at 40 1:3/1", Told::Go),
];

// A text is put behind that of a name.
#[test]
fn texts_grow(rt: HostRuntime) {
    let alloc = rt.alloc();
    let modes = modes(alloc).expect(&rt, "modes");
    let (left, right) = (name(), ab(&rt, alloc));
    let doing = applied_to_two(alloc, 1, &left, &right).expect(&rt, "memory");
    drop((left, right));
    let yielded = "Name(Name { cell: 7, scope: 3 })";
    does(&rt, alloc, &modes, doing, GROWN, yielded);
    drop(modes);
}

/// LWB, UPB of the row [2:3, 1:3] in a dimension, and without one.
const BOUNDS: &[(u32, i64, &str)] = &[
    (24, 1, "Int(2)"),
    (25, 1, "Int(3)"),
    (24, 2, "Int(1)"),
    (25, 2, "Int(3)"),
    (25, 3, "Bounds"),
    (24, 0, "Bounds"),
];

#[test]
fn bounds_of_rows(rt: HostRuntime) {
    let alloc = rt.alloc();
    let modes = modes(alloc).expect(&rt, "modes");
    for (operator, dimension, told) in BOUNDS {
        let (left, right) = (int(*dimension), row(&rt, alloc, &[(2, 3), (1, 3)], 6));
        let doing = applied_to_two(alloc, *operator, &left, &right).expect(&rt, "memory");
        drop((left, right));
        does(&rt, alloc, &modes, doing, &[], told);
    }
    let value = row(&rt, alloc, &[(2, 3)], 2);
    let doing = applied_to_one(alloc, 38, &value).expect(&rt, "memory");
    drop(value);
    does(&rt, alloc, &modes, doing, &[], "Int(3)");
    let named = name();
    let doing = applied_to_one(alloc, 38, &named).expect(&rt, "memory");
    drop(named);
    does(
        &rt,
        alloc,
        &modes,
        doing,
        &[("Fetch 7", Told::Row(30, 5))],
        "Int(5)",
    );
    drop(modes);
}
