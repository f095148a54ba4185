//! How many cells stand so many rows inwards in a new name for a value.
ghost use Rattle.std.specs.Prelude.{◌≡◌, ◌≤◌, ◌+◌, length};
ghost use Rattle.a68_layout.specs.Rooms.{inwards, all_inwards, room_for_within, row_for, structure_for, elements_for, parts_for};
ghost use Rattle.a68_layout.specs.Stretches.{capped};
ghost use Rattle.a68_layout.specs.Widths.{most_cells, cells_of};
ghost use Rattle.a68_values.specs.Content.{contents_of};

use crate::counting::count_cell;
use a68_base::MOST_COUNTED;
use a68_modes::{ModeId, Modes, Shape};
use a68_values::{Value, ValueNode};

// Counts on from a number by the cells so many rows inwards in a name of the mode for the value, up to one more than
// there may be. Rows and structures lie at most so deep in it.
#[cycle(count)]
pub fn count_value(
    modes: &Modes,
    depth: u32,
    mode: ModeId,
    value: &Value,
    rows: u32,
    counted: u32,
) -> u32
    requires { counted ≤ most_cells + 1 }
    ensures { result ≡ capped (counted + length (inwards rows (room_for_within depth modes.now mode value.now))) }
{
    if counted > MOST_COUNTED {
        return counted;
    }
    if depth == 0 {
        return count_cell(rows, counted);
    }
    if mode >= modes.len() {
        return count_cell(rows, counted);
    }
    match modes.shape(mode) {
        Shape::Rows { of, .. } => count_filled(modes, depth - 1, *of, value, rows, counted),
        Shape::Struct(fields) => {
            count_structure(modes, depth - 1, &fields.items, value, rows, counted)
        }
        Shape::Same(mode) => count_value(modes, depth - 1, *mode, value, rows, counted),
        _ => count_cell(rows, counted),
    }
}

// Counts on by those in a row whose elements are of the mode. A value that is no row takes one cell.
#[cycle(count)]
pub fn count_filled(
    modes: &Modes,
    depth: u32,
    mode: ModeId,
    value: &Value,
    rows: u32,
    counted: u32,
) -> u32
    requires { counted ≤ most_cells }
    ensures { result ≡ capped (counted + length (inwards rows (row_for (room_for_within depth modes.now mode) (cells_of modes.now mode) value.now))) }
{
    match &value.node {
        ValueNode::Row { parts, .. } => {
            if rows == 0 {
                return counted + 1;
            }
            count_elements(modes, depth, mode, &parts.values().items, rows - 1, counted)
        }
        _ => count_cell(rows, counted),
    }
}

// Counts on by those in a structure. A value that is none takes one cell.
#[cycle(count)]
fn count_structure(
    modes: &Modes,
    depth: u32,
    fields: &[(u32, ModeId)],
    value: &Value,
    rows: u32,
    counted: u32,
) -> u32
    requires { counted ≤ most_cells }
    ensures { result ≡ capped (counted + length (inwards rows (structure_for (room_for_within depth modes.now) fields.now value.now))) }
{
    match &value.node {
        ValueNode::Structure(parts) => {
            count_parts(modes, depth, fields, &parts.items, rows, counted)
        }
        _ => count_cell(rows, counted),
    }
}

// Counts on by those in all elements of a row.
#[cycle(count)]
pub fn count_elements(
    modes: &Modes,
    depth: u32,
    mode: ModeId,
    values: &[Value],
    rows: u32,
    counted: u32,
) -> u32
    requires { counted ≤ most_cells + 1 }
    ensures { result ≡ capped (counted + length (all_inwards rows (elements_for (room_for_within depth modes.now mode) (contents_of values.now)))) }
{
    let mut counted = counted;
    for value in values {
        counted = count_value(modes, depth, mode, value, rows, counted);
    }
    counted
}

// Counts on by those in the fields that have a part.
#[cycle(count)]
fn count_parts(
    modes: &Modes,
    depth: u32,
    fields: &[(u32, ModeId)],
    values: &[Value],
    rows: u32,
    counted: u32,
) -> u32
    requires { counted ≤ most_cells + 1 }
    ensures { result ≡ capped (counted + length (all_inwards rows (parts_for (room_for_within depth modes.now) fields.now (contents_of values.now)))) }
{
    let mut counted = counted;
    for (i, field) in fields.iter().enumerate() {
        if i >= values.len() {
            return counted;
        }
        counted = count_value(modes, depth, field.1, &values[i], rows, counted);
    }
    counted
}
