//! How many cells stand so many rows inwards in a new name with given bounds.
ghost use Rattle.std.specs.Prelude.{◌≡◌, ◌≤◌, ◌+◌, length, take, drop};
ghost use Rattle.a68_layout.specs.Rooms.{cell, inwards, all_inwards, room_within, rooms_of, row_room, needs_within};
ghost use Rattle.a68_layout.specs.Stretches.{capped};
ghost use Rattle.a68_layout.specs.Widths.{most_cells, cells_of};

use crate::extents::{BEYOND, elements};
use crate::measured::Measured;
use crate::needs::needs;
use a68_base::MOST_COUNTED;
use a68_modes::{ModeId, Shape};

// Counts on by a value that takes one cell.
pub fn count_cell(rows: u32, counted: u32) -> u32
    requires { counted ≤ most_cells }
    ensures { result ≡ capped (counted + length (inwards rows cell)) }
{
    if rows == 0 { counted + 1 } else { counted }
}

// Counts on from a number by the cells so many rows inwards in a value of the mode, up to one more than there may be.
// Rows and structures lie at most so deep in it.
#[cycle(count)]
pub fn count_room(
    modes: &Measured,
    depth: u32,
    mode: ModeId,
    bounds: &[(i64, i64)],
    rows: u32,
    counted: u32,
) -> u32
    requires { counted ≤ most_cells + 1 }
    ensures { result ≡ capped (counted + length (inwards rows (room_within depth modes.now mode bounds.now))) }
{
    if counted > MOST_COUNTED {
        return counted;
    }
    if depth == 0 {
        return count_cell(rows, counted);
    }
    if mode >= modes.len() {
        return count_cell(rows, counted);
    }
    match modes.shape(mode) {
        Shape::Rows { dims, of, .. } => {
            count_row(modes, depth - 1, *of, *dims, bounds, rows, counted)
        }
        Shape::Struct(fields) => {
            count_fields(modes, depth - 1, &fields.items, bounds, rows, counted)
        }
        Shape::Same(mode) => count_room(modes, depth - 1, *mode, bounds, rows, counted),
        _ => count_cell(rows, counted),
    }
}

// Counts on by the cells so many rows inwards in a row of so many dimensions, whose elements are of the mode.
#[cycle(count)]
pub fn count_row(
    modes: &Measured,
    depth: u32,
    mode: ModeId,
    dims: u32,
    bounds: &[(i64, i64)],
    rows: u32,
    counted: u32,
) -> u32
    requires { counted ≤ most_cells }
    ensures { result ≡ capped (counted + length (inwards rows (row_room (room_within depth modes.now mode) (cells_of modes.now mode) (take dims bounds.now) (drop dims bounds.now)))) }
{
    if rows == 0 {
        return counted + 1;
    }
    let dims = (dims as usize).min(bounds.len());
    let count = elements(&bounds[..dims], BEYOND as u64) as u32;
    if count == 0 {
        return counted;
    }
    let each = count_room(modes, depth, mode, &bounds[dims..], rows - 1, 0);
    let all = count as u64 * each as u64;
    (BEYOND as u64).min(counted as u64 + all) as u32
}

// Counts on by those in a structure.
#[cycle(count)]
fn count_fields(
    modes: &Measured,
    depth: u32,
    fields: &[(u32, ModeId)],
    bounds: &[(i64, i64)],
    rows: u32,
    counted: u32,
) -> u32
    requires { counted ≤ most_cells + 1 }
    ensures { result ≡ capped (counted + length (all_inwards rows (rooms_of (room_within depth modes.now) (needs_within depth modes.now) fields.now bounds.now))) }
{
    let mut counted = counted;
    let mut at = 0;
    for field in fields {
        counted = count_room(modes, depth, field.1, &bounds[at..], rows, counted);
        at += needs(modes, depth, field.1, bounds.len() - at);
    }
    counted
}
