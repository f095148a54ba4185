//! The cells that stand so many rows inwards in a new name for a value.
ghost use Rattle.a68_layout.specs.Making.{Makes};
ghost use Rattle.a68_layout.specs.Rooms.{inwards, all_inwards, room_for_within, row_for, structure_for, elements_for, parts_for};
ghost use Rattle.a68_layout.specs.Widths.{cells_of};
ghost use Rattle.a68_values.specs.Content.{contents_of};

use crate::LayoutStop;
use crate::making::{Making, make_cell, make_row_cell};
use a68_modes::{ModeId, Modes, Shape};
use a68_values::{Value, ValueNode};
use std::alloc::Global;

// Adds what stands so many rows inwards in a name of the mode for the value. Rows and structures lie at most so deep in
// it.
#[cycle(make)]
pub fn make_value(
    alloc: Global,
    modes: &Modes,
    depth: u32,
    mode: ModeId,
    value: &Value,
    rows: u32,
    made: &mut Making,
) -> Result<(), LayoutStop>
    ensures { Makes result made.old.cells.items made.old.next made.new.cells.items made.new.next (inwards rows (room_for_within depth modes.now mode value.now)) }
{
    if depth == 0 {
        return make_cell(rows, made);
    }
    if mode >= modes.len() {
        return make_cell(rows, made);
    }
    match modes.shape(mode) {
        Shape::Rows { of, .. } => make_filled(alloc, modes, depth - 1, *of, value, rows, made),
        Shape::Struct(fields) => {
            make_structure(alloc, modes, depth - 1, &fields.items, value, rows, made)
        }
        Shape::Same(mode) => make_value(alloc, modes, depth - 1, *mode, value, rows, made),
        _ => make_cell(rows, made),
    }
}

// Adds that of a row whose elements are of the mode. A value that is no row takes one cell.
#[cycle(make)]
pub fn make_filled(
    alloc: Global,
    modes: &Modes,
    depth: u32,
    mode: ModeId,
    value: &Value,
    rows: u32,
    made: &mut Making,
) -> Result<(), LayoutStop>
    ensures { Makes result made.old.cells.items made.old.next made.new.cells.items made.new.next
        (inwards rows (row_for (room_for_within depth modes.now mode) (cells_of modes.now mode) value.now)) }
{
    match &value.node {
        ValueNode::Row { bounds, parts } => {
            if rows == 0 {
                return make_row_cell(alloc, modes, mode, bounds.as_slice(), made);
            }
            make_elements(
                alloc,
                modes,
                depth,
                mode,
                &parts.values().items,
                rows - 1,
                made,
            )
        }
        _ => make_cell(rows, made),
    }
}

// Adds that of a structure. A value that is none takes one cell.
#[cycle(make)]
fn make_structure(
    alloc: Global,
    modes: &Modes,
    depth: u32,
    fields: &[(u32, ModeId)],
    value: &Value,
    rows: u32,
    made: &mut Making,
) -> Result<(), LayoutStop>
    ensures { Makes result made.old.cells.items made.old.next made.new.cells.items made.new.next
        (inwards rows (structure_for (room_for_within depth modes.now) fields.now value.now)) }
{
    match &value.node {
        ValueNode::Structure(parts) => {
            make_parts(alloc, modes, depth, fields, &parts.items, rows, made)
        }
        _ => make_cell(rows, made),
    }
}

// Adds that of all elements of a row.
#[cycle(make)]
pub fn make_elements(
    alloc: Global,
    modes: &Modes,
    depth: u32,
    mode: ModeId,
    values: &[Value],
    rows: u32,
    made: &mut Making,
) -> Result<(), LayoutStop>
    ensures { Makes result made.old.cells.items made.old.next made.new.cells.items made.new.next
        (all_inwards rows (elements_for (room_for_within depth modes.now mode) (contents_of values.now))) }
{
    for value in values {
        make_value(alloc, modes, depth, mode, value, rows, made)?;
    }
    Ok(())
}

// Adds that of the fields that have a part.
#[cycle(make)]
fn make_parts(
    alloc: Global,
    modes: &Modes,
    depth: u32,
    fields: &[(u32, ModeId)],
    values: &[Value],
    rows: u32,
    made: &mut Making,
) -> Result<(), LayoutStop>
    ensures { Makes result made.old.cells.items made.old.next made.new.cells.items made.new.next
        (all_inwards rows (parts_for (room_for_within depth modes.now) fields.now (contents_of values.now))) }
{
    for (i, field) in fields.iter().enumerate() {
        if i >= values.len() {
            return Ok(());
        }
        make_value(alloc, modes, depth, field.1, &values[i], rows, made)?;
    }
    Ok(())
}
