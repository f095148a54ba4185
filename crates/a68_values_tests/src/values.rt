//! Copies and scopes.
use crate::cells::plain;
use crate::table::holds;
use a68_values::{Bounds, Name, Plain, Routine, Value, ValueNode, Values};
use std::alloc::Global;
use std::panic::Expect;
use std::process::Abort;

const NAME: Name = Name { cell: 7, scope: 3 };

const ROUTINE: Routine = Routine {
    text: 0,
    frame: 4,
    scope: 2,
};

// The structure (1, 2, a name of scope 3).
fn structure(rt: &impl Abort, alloc: Global) -> Value {
    let name = Value::of(Plain::Name(NAME));
    let items = vec![in alloc; Value::of(Plain::Int(1)), Value::of(Plain::Int(2)), name];
    let items = items.expect(rt, "memory");
    Value {
        node: ValueNode::Structure(Values { items }),
    }
}

// The fields of a structure.
fn fields(structure: &Value) -> &[Value] {
    match &structure.node {
        ValueNode::Structure(parts) => &parts.items,
        _ => &[],
    }
}

#[test]
fn copies(rt: HostRuntime) {
    let alloc = rt.alloc();
    let value = structure(&rt, alloc);
    let copy = value.copy(alloc).expect(&rt, "memory");
    drop(value);
    let fields = fields(&copy);
    holds(&rt, fields.len() == 3, "three fields");
    holds(&rt, plain(&fields[0]) == Plain::Int(1), "the first field");
    holds(&rt, plain(&fields[1]) == Plain::Int(2), "the second field");
    drop(copy);
}

// A row of one such structure.
fn row(rt: &impl Abort, alloc: Global) -> Value {
    let items = vec![in alloc; structure(rt, alloc)].expect(rt, "memory");
    let bounds = Vec::new(alloc);
    Value {
        node: ValueNode::Row {
            bounds: Bounds::of(bounds),
            parts: Values { items }.shared().expect(rt, "memory"),
        },
    }
}

fn scope(value: Value) -> u32 {
    let scope = value.scope();
    drop(value);
    scope
}

#[test]
fn scopes(rt: HostRuntime) {
    let alloc = rt.alloc();
    let structure = scope(structure(&rt, alloc));
    let nil = scope(Value::of(Plain::Nil));
    let routine = Plain::Routine(ROUTINE).scope();
    let row = scope(row(&rt, alloc));
    holds(
        &rt,
        (structure, nil, routine, row) == (3, 0, 2, 3),
        "scopes",
    );
}
