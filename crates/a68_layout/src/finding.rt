//! The rows among the cells of a new name, whose elements are planned next.
ghost use Rattle.std.specs.Prelude.{List, OnOk, ◌≤◌, [], length, take, drop};
ghost use Rattle.a68_layout.specs.Rooms.{Room, copies, inwards, room_within, room_for_within, rooms_of, structure_for, parts_for, elements_for, needs_within, row_room, row_for};
ghost use Rattle.a68_layout.specs.Wanting.{AreAmong, AreBehind, AreFound, row_of};
ghost use Rattle.a68_layout.specs.Widths.{cells_of, most_cells};
ghost use Rattle.a68_modes.specs.declared.shape.Shape.{Shape};
ghost use Rattle.a68_values.specs.Content.{contents_of};

use crate::extents::{BEYOND, elements};
use crate::measured::Measured;
use crate::needs::needs;
use a68_base::NoMemory;
use a68_modes::{ModeId, Modes, Shape};
use a68_values::{Value, ValueNode};
use std::alloc::Global;

// A row, of so many dimensions and with these bounds or with those of a value, whose elements are of the mode. Rows and
// structures lie at most so deep in these.
#[derive(Clone, Copy)]
pub enum Row<'a> {
    Bounded {
        depth: u32,
        mode: ModeId,
        dims: u32,
        bounds: &'a [(i64, i64)],
    },
    Filled {
        depth: u32,
        mode: ModeId,
        value: &'a Value,
    },
}

// Adds these rows so many times.
fn repeat<'a>(one: &[Row<'a>], count: u32, rows: &mut Vec<Row<'a>>) -> Result<(), NoMemory>
    ensures { OnOk result ((modes : List Shape) (r : Room) → AreAmong modes [] one.now r → AreFound modes rows.old.items rows.new.items (copies count r)) }
{
    if one.len() == 0 {
        return Ok(());
    }
    let mut left = count;
    while left > 0 {
        rows.extend_from_slice(one)?;
        left -= 1;
    }
    Ok(())
}

// Adds the rows that are among the cells of a value of the mode. Rows and structures lie at most so deep in it.
#[cycle(find)]
pub fn find_room<'a>(
    modes: &Measured,
    depth: u32,
    mode: ModeId,
    bounds: &'a [(i64, i64)],
    rows: &mut Vec<Row<'a>>,
) -> Result<(), NoMemory>
    ensures { OnOk result (AreAmong modes.now rows.old.items rows.new.items (room_within depth modes.now mode bounds.now)) }
{
    if depth == 0 {
        return Ok(());
    }
    if mode >= modes.len() {
        return Ok(());
    }
    match modes.shape(mode) {
        Shape::Rows { dims, of, .. } => {
            rows.push(Row::Bounded {
                depth: depth - 1,
                mode: *of,
                dims: *dims,
                bounds,
            })?;
            Ok(())
        }
        Shape::Struct(fields) => {
            find_fields(modes, depth - 1, &fields.items, bounds, rows)?;
            Ok(())
        }
        Shape::Same(mode) => {
            find_room(modes, depth - 1, *mode, bounds, rows)?;
            Ok(())
        }
        _ => Ok(()),
    }
}

// Adds those of a structure.
#[cycle(find)]
fn find_fields<'a>(
    modes: &Measured,
    depth: u32,
    fields: &[(u32, ModeId)],
    bounds: &'a [(i64, i64)],
    rows: &mut Vec<Row<'a>>,
) -> Result<(), NoMemory>
    ensures { OnOk result (AreFound modes.now rows.old.items rows.new.items (rooms_of (room_within depth modes.now) (needs_within depth modes.now) fields.now bounds.now)) }
{
    let mut at = 0;
    for field in fields {
        find_room(modes, depth, field.1, &bounds[at..], rows)?;
        at += needs(modes, depth, field.1, bounds.len() - at);
    }
    Ok(())
}

// Adds those of so many elements, which are alike.
fn find_copies<'a>(
    alloc: Global,
    modes: &Measured,
    depth: u32,
    mode: ModeId,
    bounds: &'a [(i64, i64)],
    count: u32,
    rows: &mut Vec<Row<'a>>,
) -> Result<(), NoMemory>
    ensures { OnOk result (AreFound modes.now rows.old.items rows.new.items (copies count (room_within depth modes.now mode bounds.now))) }
{
    if count == 0 {
        return Ok(());
    }
    let mut one = Vec::new(alloc);
    find_room(modes, depth, mode, bounds, &mut one)?;
    repeat(&one, count, rows)?;
    Ok(())
}

// Adds the rows that are among the cells of a name of the mode for the value.
#[cycle(find_value)]
pub fn find_value<'a>(
    modes: &Modes,
    depth: u32,
    mode: ModeId,
    value: &'a Value,
    rows: &mut Vec<Row<'a>>,
) -> Result<(), NoMemory>
    ensures { OnOk result (AreAmong modes.now rows.old.items rows.new.items (room_for_within depth modes.now mode value.now)) }
{
    if depth == 0 {
        return Ok(());
    }
    if mode >= modes.len() {
        return Ok(());
    }
    match modes.shape(mode) {
        Shape::Rows { of, .. } => {
            rows.push(Row::Filled {
                depth: depth - 1,
                mode: *of,
                value,
            })?;
            Ok(())
        }
        Shape::Struct(fields) => {
            find_structure(modes, depth - 1, &fields.items, value, rows)?;
            Ok(())
        }
        Shape::Same(mode) => {
            find_value(modes, depth - 1, *mode, value, rows)?;
            Ok(())
        }
        _ => Ok(()),
    }
}

// Adds those of a structure. A value that is none has no rows.
#[cycle(find_value)]
fn find_structure<'a>(
    modes: &Modes,
    depth: u32,
    fields: &[(u32, ModeId)],
    value: &'a Value,
    rows: &mut Vec<Row<'a>>,
) -> Result<(), NoMemory>
    ensures { OnOk result (AreAmong modes.now rows.old.items rows.new.items (structure_for (room_for_within depth modes.now) fields.now value.now)) }
{
    match &value.node {
        ValueNode::Structure(parts) => {
            find_parts(modes, depth, fields, &parts.items, rows)?;
            Ok(())
        }
        _ => Ok(()),
    }
}

// Adds those of the fields that have a part.
#[cycle(find_value)]
fn find_parts<'a>(
    modes: &Modes,
    depth: u32,
    fields: &[(u32, ModeId)],
    values: &'a [Value],
    rows: &mut Vec<Row<'a>>,
) -> Result<(), NoMemory>
    ensures { OnOk result (AreFound modes.now rows.old.items rows.new.items (parts_for (room_for_within depth modes.now) fields.now (contents_of values.now))) }
{
    for (i, field) in fields.iter().enumerate() {
        if i >= values.len() {
            return Ok(());
        }
        find_value(modes, depth, field.1, &values[i], rows)?;
    }
    Ok(())
}

// Adds those of all elements of a row.
pub fn find_elements<'a>(
    modes: &Modes,
    depth: u32,
    mode: ModeId,
    values: &'a [Value],
    rows: &mut Vec<Row<'a>>,
) -> Result<(), NoMemory>
    ensures { OnOk result (AreFound modes.now rows.old.items rows.new.items (elements_for (room_for_within depth modes.now mode) (contents_of values.now))) }
{
    for value in values {
        find_value(modes, depth, mode, value, rows)?;
    }
    Ok(())
}

// Adds those of the elements of a row of so many dimensions.
fn find_bounded<'a>(
    alloc: Global,
    modes: &Measured,
    depth: u32,
    mode: ModeId,
    dims: u32,
    bounds: &'a [(i64, i64)],
    rows: &mut Vec<Row<'a>>,
) -> Result<(), NoMemory>
    requires { length (inwards 1 (row_room (room_within depth modes.now mode) (cells_of modes.now mode) (take dims bounds.now) (drop dims bounds.now))) ≤ most_cells }
    ensures { OnOk result (AreBehind modes.now rows.old.items rows.new.items
        (row_room (room_within depth modes.now mode) (cells_of modes.now mode) (take dims bounds.now) (drop dims bounds.now))) }
{
    let dims = (dims as usize).min(bounds.len());
    let count = elements(&bounds[..dims], BEYOND as u64) as u32;
    find_copies(alloc, modes, depth, mode, &bounds[dims..], count, rows)?;
    Ok(())
}

// Adds those of the elements of a row with the bounds of this value. A value that is no row has none.
fn find_filled<'a>(
    modes: &Modes,
    depth: u32,
    mode: ModeId,
    value: &'a Value,
    rows: &mut Vec<Row<'a>>,
) -> Result<(), NoMemory>
    ensures { OnOk result (AreBehind modes.now rows.old.items rows.new.items (row_for (room_for_within depth modes.now mode) (cells_of modes.now mode) value.now)) }
{
    match &value.node {
        ValueNode::Row { parts, .. } => {
            find_elements(modes, depth, mode, &parts.values().items, rows)?;
            Ok(())
        }
        _ => Ok(()),
    }
}

// Adds the rows that are among the elements of a row.
pub fn find_behind<'a>(
    alloc: Global,
    modes: &Measured,
    row: &Row<'a>,
    rows: &mut Vec<Row<'a>>,
) -> Result<(), NoMemory>
    requires { length (inwards 1 (row_of modes.now row.now)) ≤ most_cells }
    ensures { OnOk result (AreBehind modes.now rows.old.items rows.new.items (row_of modes.now row.now)) }
{
    match row {
        Row::Bounded {
            depth,
            mode,
            dims,
            bounds,
        } => {
            find_bounded(alloc, modes, *depth, *mode, *dims, bounds, rows)?;
            Ok(())
        }
        Row::Filled { depth, mode, value } => {
            find_filled(modes.modes(), *depth, *mode, value, rows)?;
            Ok(())
        }
    }
}
