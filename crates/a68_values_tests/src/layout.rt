//! Widths, plans, and elements and parts of rows, by hand.
use crate::cells::tell_row;
use crate::modes::{
    BOX, DEEP, EITHER, INT, LINK, NAMED, POINT, REF_BOX, add, add_structure, modes,
};
use crate::table::{agrees, holds};
use a68_layout::{
    LayoutStop, Measured, Plan, Trim, cells_of, cells_seen, element, new_row, part_of, plan,
    plan_elements, plan_for, takes_bounds, view,
};
use a68_modes::{ModeId, Modes, Shape};
use a68_values::{Bounds, Descriptor, Dim, Dims, FaultKind, Held, Plain, Value, ValueNode, Values};
use std::alloc::Global;
use std::panic::Expect;
use std::process::Abort;
use std::string::String;

/// Modes and how many cells they take: a structure those of its fields, every other one.
const WIDTHS: &[(ModeId, u32)] = &[
    (INT, 1),
    (POINT, 2),
    (EITHER, 1),
    (BOX, 4),
    (REF_BOX, 1),
    (NAMED, 2),
    (LINK, 2),
    (DEEP, 4_194_305),
];

#[test]
fn widths(rt: HostRuntime) {
    let modes = modes(rt.alloc()).expect(&rt, "modes");
    for (mode, width) in WIDTHS {
        holds(&rt, cells_of(&modes, *mode) == Ok(*width), "a width");
    }
    drop(modes);
}

/// Structures and places among their fields, and how many cells lie before these: those of the fields in front.
const PLACES: &[(ModeId, usize, Option<u32>)] = &[
    (POINT, 0, Some(0)),
    (POINT, 1, Some(1)),
    (POINT, 2, Some(2)),
    (POINT, 3, None),
    (BOX, 1, Some(1)),
    (BOX, 2, Some(3)),
    (BOX, 3, Some(4)),
    (NAMED, 1, Some(1)),
    (DEEP, 0, Some(0)),
    (DEEP, 1, Some(4_194_305)),
    (INT, 0, None),
    (EITHER, 0, None),
    (REF_BOX, 0, None),
    (1_000, 0, None),
];

#[test]
fn places_of_fields(rt: HostRuntime) {
    let alloc = rt.alloc();
    let mut modes = modes(alloc).expect(&rt, "modes");
    holds(
        &rt,
        modes.cells_before(BOX, 1).is_none(),
        "not laid out yet",
    );
    modes.lay_out(alloc).expect(&rt, "memory");
    for (mode, field, cells) in PLACES {
        holds(
            &rt,
            modes.cells_before(*mode, *field) == *cells,
            "the cells before a field",
        );
    }
    let count = modes.len();
    add_structure(alloc, &mut modes, &[BOX, BOX]).expect(&rt, "modes");
    holds(
        &rt,
        modes.cells_before(count, 1).is_none(),
        "not laid out again",
    );
    modes.lay_out(alloc).expect(&rt, "memory");
    holds(
        &rt,
        modes.cells_before(count, 1) == Some(4),
        "laid out again",
    );
    drop(modes);
}

// Modes behind the standard ones.

/// [] INT.
const LIST: ModeId = 15;

/// STRUCT (INT x, y).
const PAIR: ModeId = 16;

/// [,] STRUCT (INT x, y).
const PAIRS: ModeId = 17;

/// STRUCT (INT i, [] INT l).
const LINE: ModeId = 18;

/// [] STRUCT (INT i, [] INT l).
const LINES: ModeId = 19;

/// [] [] INT.
const LISTS: ModeId = 20;

fn add_rows(alloc: Global, modes: &mut Modes, dims: u32, of: ModeId) -> Option<()> {
    let shape = Shape::Rows {
        dims,
        flex: false,
        of,
    };
    add(alloc, modes, shape)
}

// Makes the modes with rows.
fn rows(alloc: Global) -> Option<Modes> {
    let mut modes = Modes::new(alloc).ok()?;
    add_rows(alloc, &mut modes, 1, INT)?;
    add_structure(alloc, &mut modes, &[INT, INT])?;
    add_rows(alloc, &mut modes, 2, PAIR)?;
    add_structure(alloc, &mut modes, &[INT, LIST])?;
    add_rows(alloc, &mut modes, 1, LINE)?;
    add_rows(alloc, &mut modes, 1, LIST)?;
    Some(modes)
}

fn tell_held(text: &mut String, held: &Held) -> Option<()> {
    match held {
        Held::Plain(Plain::Unset) => text.push('-').ok(),
        Held::Rows(row) => tell_row(text, row),
        _ => text.push('?').ok(),
    }
}

fn tell_cells(text: &mut String, cells: &[Held]) -> Option<()> {
    let mut is_first = true;
    for held in cells {
        if !is_first {
            text.push_str(", ").ok()?;
        }
        is_first = false;
        tell_held(text, held)?;
    }
    Some(())
}

// Tells a stop by the fault.
fn stopped(alloc: Global, stop: LayoutStop) -> Option<String> {
    match stop {
        LayoutStop::Fault(kind) => format!(in alloc; "{kind:?}").ok(),
        LayoutStop::NoMemory => None,
    }
}

// The cells of a plan are told so.
fn is_planned(rt: &impl Abort, alloc: Global, planned: Result<Plan, LayoutStop>, told: &str) {
    let shown = match planned {
        Ok(plan) => {
            let mut text = String::new(alloc);
            tell_cells(&mut text, &plan.cells.items).expect(rt, "memory");
            drop(plan);
            text
        }
        Err(stop) => stopped(alloc, stop).expect(rt, "memory"),
    };
    agrees(rt, &shown, told, told);
    drop(shown);
}

/// Modes, bounds, and the cells of a new name: `-` is not assigned yet, a row is told by the cell of its first element
/// and the bounds and the stride of each dimension.
const PLANS: &[(ModeId, &[i64], &str)] = &[
    (INT, &[], "-"),
    (PAIR, &[], "-, -"),
    (LIST, &[1, 3], "at 1 1:3/1, -, -, -"),
    (LIST, &[-1, 0], "at 1 -1:0/1, -, -"),
    (LIST, &[1, 0], "at 1 1:0/0"),
    (LIST, &[7, -7], "at 1 7:-7/0"),
    (
        PAIRS,
        &[1, 2, 1, 2],
        "at 1 1:2/4 1:2/2, -, -, -, -, -, -, -, -",
    ),
    (PAIRS, &[0, 0, 4, 5], "at 1 0:0/4 4:5/2, -, -, -, -"),
    (LINE, &[5, 6], "-, at 2 5:6/1, -, -"),
    (
        LINES,
        &[1, 2, 0, 0],
        "at 1 1:2/2, -, at 5 0:0/1, -, at 6 0:0/1, -, -",
    ),
    (
        LISTS,
        &[1, 2, 5, 6],
        "at 1 1:2/1, at 3 5:6/1, at 5 5:6/1, -, -, -, -",
    ),
    (LISTS, &[1, 0, 5, 6], "at 1 1:0/0"),
    (LIST, &[], "Kind"),
    (LIST, &[1], "Kind"),
    (LIST, &[1, 3, 1], "Kind"),
    (INT, &[1, 1], "Kind"),
    (LINES, &[1, 2], "Kind"),
    (LIST, &[1, 4_194_304], "Cells"),
    (PAIRS, &[1, 1_000_000_000, 1, 1_000_000_000], "Cells"),
    (
        PAIRS,
        &[1, 1_000_000_000, 1, 0],
        "at 1 1:1000000000/0 1:0/0",
    ),
];

#[test]
fn plans(rt: HostRuntime) {
    let modes = rows(rt.alloc()).expect(&rt, "modes");
    for (mode, bounds, told) in PLANS {
        let planned = plan(rt.alloc(), &modes, *mode, bounds);
        is_planned(&rt, rt.alloc(), planned, told);
    }
    drop(modes);
}

// Has a name of the mode so many bounds?
fn has_bounds(rt: &impl Abort, alloc: Global, modes: &Modes, mode: ModeId, count: usize) -> bool {
    let measured = Measured::new(alloc, modes, mode).expect(rt, "memory");
    let has = takes_bounds(&measured, mode, count);
    drop(measured);
    has
}

#[test]
fn deep_structures(rt: HostRuntime) {
    let alloc = rt.alloc();
    let modes = modes(alloc).expect(&rt, "modes");
    holds(&rt, has_bounds(&rt, alloc, &modes, DEEP, 0), "no bounds");
    holds(
        &rt,
        has_bounds(&rt, alloc, &modes, NAMED, 2),
        "the bounds of a row",
    );
    holds(
        &rt,
        !has_bounds(&rt, alloc, &modes, NAMED, 3),
        "another number",
    );
    let planned = plan(alloc, &modes, DEEP, &[]);
    is_planned(&rt, alloc, planned, "Cells");
    drop(modes);
}

// So many structures within one another, each of two of the one before it with an INT between, about a row of CHAR or about
// an INT; the mode of the last.
fn doubled(alloc: Global, modes: &mut Modes, first: ModeId, count: u32) -> Option<ModeId> {
    let mut mode = first;
    for _ in 0..count {
        let next = modes.len();
        add_structure(alloc, modes, &[mode, INT, mode])?;
        mode = next;
    }
    Some(mode)
}

/// Modes that are doubled, how often, and the bounds of a name: two for each row that is in it, of which each structure
/// has twice as many.
const DOUBLED: &[(ModeId, u32, usize)] = &[(INT, 300, 0), (7, 12, 8_192), (7, 3, 16)];

#[test]
fn structures_that_double(rt: HostRuntime) {
    let alloc = rt.alloc();
    for (first, count, bounds) in DOUBLED {
        let mut modes = Modes::new(alloc).expect(&rt, "modes");
        let mode = doubled(alloc, &mut modes, *first, *count).expect(&rt, "modes");
        holds(
            &rt,
            has_bounds(&rt, alloc, &modes, mode, *bounds),
            "all bounds",
        );
        holds(
            &rt,
            !has_bounds(&rt, alloc, &modes, mode, *bounds + 2),
            "another number",
        );
        drop(modes);
    }
}

// A row of one row of one row and so on, so many of them, about an INT.
fn nested(alloc: Global, count: u32) -> Option<Value> {
    let mut value = Value::of(Plain::Int(1));
    for _ in 0..count {
        let mut items = Vec::new(alloc);
        items.push(value).ok()?;
        let mut bounds = Vec::new(alloc);
        bounds.push((1, 1)).ok()?;
        value = Value {
            node: ValueNode::Row {
                bounds: Bounds::of(bounds),
                parts: Values { items }.shared().ok()?,
            },
        };
    }
    Some(value)
}

// Each row has its cell, and its one element the next one.
fn is_in_line(cells: &[Held]) -> bool {
    for (i, held) in cells.iter().enumerate() {
        let fits = match held {
            Held::Rows(row) => row.base as usize == i + 1,
            _ => i + 1 == cells.len(),
        };
        if !fits {
            return false;
        }
    }
    true
}

#[test]
fn rows_in_rows(rt: HostRuntime) {
    let alloc = rt.alloc();
    let mut modes = Modes::new(alloc).expect(&rt, "modes");
    let mut mode = INT;
    for _ in 0..500 {
        let next = modes.len();
        add_rows(alloc, &mut modes, 1, mode).expect(&rt, "modes");
        mode = next;
    }
    let value = nested(alloc, 500).expect(&rt, "memory");
    let Ok(plan) = plan_for(alloc, &modes, mode, &value) else {
        rt.panic("a plan")
    };
    holds(
        &rt,
        plan.cells.items.len() == 501,
        "a cell for each row, and one for the INT",
    );
    holds(
        &rt,
        is_in_line(&plan.cells.items),
        "each row in front of its element",
    );
    drop(plan);
    drop(value);
    drop(modes);
}

fn bounds_in(rt: &impl Abort, alloc: Global, bounds: &[(i64, i64)]) -> Bounds {
    let items = Vec::from_slice(alloc, bounds).expect(rt, "memory");
    Bounds::of(items)
}

fn ints(rt: &impl Abort, alloc: Global, ints: &[i64]) -> Values {
    let mut items = Vec::new(alloc);
    for int in ints {
        items.push(Value::of(Plain::Int(*int))).expect(rt, "memory");
    }
    Values { items }
}

fn row_value(rt: &impl Abort, bounds: Bounds, parts: Values) -> Value {
    let parts = parts.shared().expect(rt, "memory");
    Value {
        node: ValueNode::Row { bounds, parts },
    }
}

// Makes a row of integers from a lower bound on.
fn list(rt: &impl Abort, alloc: Global, bounds: (i64, i64), items: &[i64]) -> Value {
    row_value(rt, bounds_in(rt, alloc, &[bounds]), ints(rt, alloc, items))
}

// Makes two values beside each other.
fn two(rt: &impl Abort, alloc: Global, first: Value, second: Value) -> Values {
    let mut items = Vec::new(alloc);
    items.push(first).expect(rt, "memory");
    items.push(second).expect(rt, "memory");
    Values { items }
}

#[test]
fn plans_for_values(rt: HostRuntime) {
    let alloc = rt.alloc();
    let modes = rows(alloc).expect(&rt, "modes");
    let value = list(&rt, alloc, (5, 6), &[1, 2]);
    let planned = plan_for(alloc, &modes, LIST, &value);
    is_planned(&rt, alloc, planned, "at 1 5:6/1, -, -");
    let planned = plan_for(alloc, &modes, INT, &value);
    is_planned(&rt, alloc, planned, "-");
    drop(value);
    let first = list(&rt, alloc, (1, 1), &[1]);
    let second = list(&rt, alloc, (0, 1), &[2, 3]);
    let parts = two(&rt, alloc, first, second);
    let planned = plan_elements(alloc, &modes, LIST, &parts.items);
    is_planned(&rt, alloc, planned, "at 2 1:1/1, at 3 0:1/1, -, -, -");
    let bounds = bounds_in(&rt, alloc, &[(1, 2)]);
    let value = row_value(&rt, bounds, parts);
    let planned = plan_for(alloc, &modes, LISTS, &value);
    is_planned(
        &rt,
        alloc,
        planned,
        "at 1 1:2/1, at 3 1:1/1, at 4 0:1/1, -, -, -",
    );
    drop(value);
    drop(modes);
}

/// The whole of a dimension.
const ALL: Trim = Trim::Part {
    lower: None,
    upper: None,
    at: None,
};

/// Three rows and three columns, from cell 10 on.
const GRID: &[Dim] = &[
    Dim {
        lower: 2,
        upper: 4,
        stride: 3,
    },
    Dim {
        lower: 0,
        upper: 2,
        stride: 1,
    },
];

/// Three elements that lie far from each other.
const FAR: &[Dim] = &[Dim {
    lower: 1,
    upper: 3,
    stride: 4_000_000,
}];

/// Subscripts, and the first cell of the element of the grid that they tell.
const ELEMENTS: &[(&[i64], Result<u32, FaultKind>)] = &[
    (&[2, 0], Ok(10)),
    (&[3, 1], Ok(14)),
    (&[4, 2], Ok(18)),
    (&[1, 0], Err(FaultKind::Bounds)),
    (&[5, 0], Err(FaultKind::Bounds)),
    (&[2, -1], Err(FaultKind::Bounds)),
    (&[2, 3], Err(FaultKind::Bounds)),
    (&[], Err(FaultKind::Kind)),
    (&[2], Err(FaultKind::Kind)),
    (&[1], Err(FaultKind::Bounds)),
    (&[2, 0, 0], Err(FaultKind::Kind)),
];

/// What a trimmer says of the lower bound, the upper one and the new lower one, and the part of the grid that it tells
/// before the subscript 1.
const PARTS: &[(Option<i64>, Option<i64>, Option<i64>, &str)] = &[
    (None, None, None, "at 11 2:4/3"),
    (Some(3), None, None, "at 14 1:2/3"),
    (None, Some(3), None, "at 11 1:2/3"),
    (Some(4), Some(4), None, "at 17 1:1/3"),
    (None, None, Some(0), "at 11 0:2/3"),
    (Some(3), Some(4), Some(-5), "at 14 -5:-4/3"),
    (Some(4), Some(3), None, "at 11 1:0/3"),
    (Some(9), Some(7), None, "at 11 1:-1/3"),
    (Some(3), Some(-4), Some(7), "at 11 7:0/3"),
    (Some(1), None, None, "Bounds"),
    (None, Some(5), None, "Bounds"),
    (Some(2), Some(5), Some(1), "Bounds"),
    (None, None, Some(9_223_372_036_854_775_806), "Bounds"),
    (
        None,
        None,
        Some(9_223_372_036_854_775_805),
        "at 11 9223372036854775805:9223372036854775807/3",
    ),
];

fn row_in_store(rt: &impl Abort, alloc: Global, base: u32, dims: &[Dim]) -> Descriptor {
    Descriptor {
        base,
        dims: Dims::of(alloc, dims).expect(rt, "memory"),
    }
}

// The part of a row is told so.
fn is_part(rt: &impl Abort, alloc: Global, part: Result<Descriptor, LayoutStop>, told: &str) {
    let shown = match part {
        Ok(row) => {
            let mut text = String::new(alloc);
            tell_row(&mut text, &row).expect(rt, "memory");
            drop(row);
            text
        }
        Err(stop) => stopped(alloc, stop).expect(rt, "memory"),
    };
    agrees(rt, &shown, told, told);
    drop(shown);
}

#[test]
fn elements(rt: HostRuntime) {
    let grid = row_in_store(&rt, rt.alloc(), 10, GRID);
    for (at, told) in ELEMENTS {
        holds(&rt, element(&grid, at) == *told, "an element");
    }
    drop(grid);
    let far = row_in_store(&rt, rt.alloc(), 10, FAR);
    holds(&rt, element(&far, &[2]) == Ok(4_000_010), "far away");
    let above = element(&far, &[3]) == Err(FaultKind::Cells);
    holds(&rt, above, "above the cells");
    drop(far);
}

#[test]
fn parts_in_the_store(rt: HostRuntime) {
    let alloc = rt.alloc();
    let grid = row_in_store(&rt, alloc, 10, GRID);
    for (lower, upper, at, told) in PARTS {
        let trim = Trim::Part {
            lower: *lower,
            upper: *upper,
            at: *at,
        };
        let part = view(alloc, &grid, &[trim, Trim::At(1)]);
        is_part(&rt, alloc, part, told);
    }
    let part = view(alloc, &grid, &[Trim::At(4), ALL]);
    is_part(&rt, alloc, part, "at 16 0:2/1");
    let part = view(alloc, &grid, &[ALL, ALL]);
    is_part(&rt, alloc, part, "at 10 2:4/3 0:2/1");
    let part = view(alloc, &grid, &[ALL]);
    is_part(&rt, alloc, part, "Kind");
    drop(grid);
    let far = row_in_store(&rt, alloc, 10, FAR);
    let part = view(alloc, &far, &[Trim::At(3)]);
    is_part(&rt, alloc, part, "Cells");
    drop(far);
}

// The first cells of the elements of a row, each of so many cells, are told so.
fn are_seen(rt: &impl Abort, alloc: Global, row: &Descriptor, width: u32, told: &[u32]) {
    let cells = cells_seen(alloc, row, width).expect(rt, "cells");
    holds(rt, cells.as_slice() == told, "cells");
    drop(cells);
}

#[test]
fn all_elements(rt: HostRuntime) {
    let alloc = rt.alloc();
    let grid = row_in_store(&rt, alloc, 10, GRID);
    are_seen(&rt, alloc, &grid, 1, &[10, 11, 12, 13, 14, 15, 16, 17, 18]);
    drop(grid);
    let far = row_in_store(&rt, alloc, 10, FAR);
    let seen = cells_seen(alloc, &far, 1);
    holds(
        &rt,
        matches!(seen, Err(LayoutStop::Fault(FaultKind::Cells))),
        "above the cells",
    );
    drop(seen);
    drop(far);
    let bounds = bounds_in(&rt, alloc, &[(1, 2), (0, 1)]);
    let row = new_row(alloc, 7, 3, &bounds).expect(&rt, "a row");
    are_seen(&rt, alloc, &row, 3, &[7, 10, 13, 16]);
    is_part(&rt, alloc, Ok(row), "at 7 1:2/6 0:1/3");
    let row = new_row(alloc, 4_194_293, 3, &bounds);
    is_part(&rt, alloc, row, "Cells");
    drop(bounds);
    let bounds = bounds_in(&rt, alloc, &[(1, 1_000_000_000_000), (1, 0)]);
    let row = new_row(alloc, 7, 3, &bounds).expect(&rt, "a row");
    are_seen(&rt, alloc, &row, 3, &[]);
    is_part(&rt, alloc, Ok(row), "at 7 1:1000000000000/0 1:0/0");
    drop(bounds);
}

fn tell_value(text: &mut String, value: &Value) -> Option<()> {
    if let ValueNode::Row { bounds, parts } = &value.node {
        for (lower, upper) in bounds.as_slice() {
            write!(text, "{lower}:{upper} ").ok()?;
        }
        for part in parts.as_slice() {
            let held = part.plain();
            write!(text, "{held:?} ").ok()?;
        }
        return Some(());
    }
    let held = value.plain();
    write!(text, "{held:?}").ok()
}

// The part of a row as a value is told so.
fn is_value(rt: &impl Abort, alloc: Global, part: Result<Value, LayoutStop>, told: &str) {
    let shown = match part {
        Ok(value) => {
            let mut text = String::new(alloc);
            tell_value(&mut text, &value).expect(rt, "memory");
            drop(value);
            text
        }
        Err(stop) => stopped(alloc, stop).expect(rt, "memory"),
    };
    agrees(rt, &shown, told, told);
    drop(shown);
}

#[test]
fn parts_of_values(rt: HostRuntime) {
    let alloc = rt.alloc();
    let bounds = bounds_in(&rt, alloc, &[(2, 3), (0, 1)]);
    let parts = ints(&rt, alloc, &[1, 2, 3, 4]);
    let part = part_of(alloc, &bounds, &parts.items, &[Trim::At(3), Trim::At(0)]);
    is_value(&rt, alloc, part, "Some(Int(3))");
    let part = part_of(alloc, &bounds, &parts.items, &[Trim::At(3), ALL]);
    is_value(&rt, alloc, part, "0:1 Some(Int(3)) Some(Int(4)) ");
    let part = part_of(alloc, &bounds, &parts.items, &[ALL, Trim::At(1)]);
    is_value(&rt, alloc, part, "2:3 Some(Int(2)) Some(Int(4)) ");
    let part = part_of(alloc, &bounds, &parts.items, &[Trim::At(4), ALL]);
    is_value(&rt, alloc, part, "Bounds");
    let part = part_of(alloc, &bounds, &parts.items, &[ALL]);
    is_value(&rt, alloc, part, "Kind");
    drop(parts);
    let parts = ints(&rt, alloc, &[1, 2, 3]);
    let part = part_of(alloc, &bounds, &parts.items, &[ALL, ALL]);
    is_value(&rt, alloc, part, "Kind");
    drop(parts);
    drop(bounds);
}
