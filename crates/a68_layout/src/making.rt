//! The cells that stand so many rows inwards in a new name with given bounds.
ghost use Rattle.std.specs.Prelude.{◌≡◌, ◌≤◌, [], ◌∷◌, length, take, drop, nat_eq, if◌then◌else◌};
ghost use Rattle.a68_layout.specs.Making.{Makes};
ghost use Rattle.a68_layout.specs.Rooms.{Rooms, cell, row, copies, inwards, all_inwards, room_within, rooms_of, row_room, needs_within};
ghost use Rattle.a68_layout.specs.Widths.{most_cells, cells_of, elements_of};

use crate::LayoutStop;
use crate::cells::width;
use crate::extents::{BEYOND, elements};
use crate::measured::Measured;
use crate::needs::needs;
use crate::rows::{behind_row, row_in};
use a68_modes::{ModeId, Modes, Shape};
use a68_values::{Held, Plain};
use std::alloc::Global;

// The cells that are made, and the cell where the elements of the next row among them begin.
#[derive(Drop)]
pub struct Making {
    pub cells: Vec<Held>,
    pub next: u32,
}

// Adds what a value of one cell has so many rows inwards.
pub fn make_cell(rows: u32, made: &mut Making) -> Result<(), LayoutStop>
    ensures { Makes result made.old.cells.items made.old.next made.new.cells.items made.new.next (inwards rows cell) }
{
    if rows > 0 {
        return Ok(());
    }
    made.cells.push(Held::Plain(Plain::Unset))?;
    Ok(())
}

// Tells how many cells each element of a row takes; none where there is no element.
fn element_width(modes: &Modes, mode: ModeId, bounds: &[(i64, i64)]) -> u32
    ensures { result ≡ (if nat_eq (elements_of bounds.now) 0 then 0 else cells_of modes.now mode) }
{
    if elements(bounds, 1) == 0 {
        return 0;
    }
    width(modes, mode)
}

// Adds the cell of a row whose elements are of the mode.
pub fn make_row_cell(
    alloc: Global,
    modes: &Modes,
    mode: ModeId,
    bounds: &[(i64, i64)],
    made: &mut Making,
) -> Result<(), LayoutStop>
    ensures { (elements : Rooms) → Makes result made.old.cells.items made.old.next made.new.cells.items made.new.next (row bounds.now (cells_of modes.now mode) elements ∷ []) }
{
    let width = element_width(modes, mode, bounds);
    let row = row_in(alloc, made.next, width, bounds)?;
    made.cells.push(Held::Rows(row))?;
    made.next = behind_row(made.next, width, bounds);
    Ok(())
}

// Adds what stands so many rows inwards in a value of the mode. Rows and structures lie at most so deep in it.
#[cycle(make)]
pub fn make_room(
    alloc: Global,
    modes: &Measured,
    depth: u32,
    mode: ModeId,
    bounds: &[(i64, i64)],
    rows: u32,
    made: &mut Making,
) -> Result<(), LayoutStop>
    requires { length (inwards rows (room_within depth modes.now mode bounds.now)) ≤ most_cells }
    ensures { Makes result made.old.cells.items made.old.next made.new.cells.items made.new.next (inwards rows (room_within depth modes.now mode bounds.now)) }
{
    if depth == 0 {
        return make_cell(rows, made);
    }
    if mode >= modes.len() {
        return make_cell(rows, made);
    }
    match modes.shape(mode) {
        Shape::Rows { dims, of, .. } => {
            make_row(alloc, modes, depth - 1, *of, *dims, bounds, rows, made)
        }
        Shape::Struct(fields) => {
            make_fields(alloc, modes, depth - 1, &fields.items, bounds, rows, made)
        }
        Shape::Same(mode) => make_room(alloc, modes, depth - 1, *mode, bounds, rows, made),
        _ => make_cell(rows, made),
    }
}

// Adds what stands so many rows inwards in a row of so many dimensions, whose elements are of the mode.
#[cycle(make)]
pub fn make_row(
    alloc: Global,
    modes: &Measured,
    depth: u32,
    mode: ModeId,
    dims: u32,
    bounds: &[(i64, i64)],
    rows: u32,
    made: &mut Making,
) -> Result<(), LayoutStop>
    requires { length (inwards rows (row_room (room_within depth modes.now mode) (cells_of modes.now mode) (take dims bounds.now) (drop dims bounds.now))) ≤ most_cells }
    ensures { Makes result made.old.cells.items made.old.next made.new.cells.items made.new.next
        (inwards rows (row_room (room_within depth modes.now mode) (cells_of modes.now mode) (take dims bounds.now) (drop dims bounds.now))) }
{
    let dims = (dims as usize).min(bounds.len());
    if rows == 0 {
        return make_row_cell(alloc, modes.modes(), mode, &bounds[..dims], made);
    }
    let count = elements(&bounds[..dims], BEYOND as u64) as u32;
    make_copies(
        alloc,
        modes,
        depth,
        mode,
        &bounds[dims..],
        rows - 1,
        count,
        made,
    )
}

// Adds that of so many elements, which are alike: where one has nothing there, none has.
#[cycle(make)]
fn make_copies(
    alloc: Global,
    modes: &Measured,
    depth: u32,
    mode: ModeId,
    bounds: &[(i64, i64)],
    rows: u32,
    count: u32,
    made: &mut Making,
) -> Result<(), LayoutStop>
    requires { length (all_inwards rows (copies count (room_within depth modes.now mode bounds.now))) ≤ most_cells }
    ensures { Makes result made.old.cells.items made.old.next made.new.cells.items made.new.next (all_inwards rows (copies count (room_within depth modes.now mode bounds.now))) }
{
    let mut left = count;
    while left > 0 {
        let before = made.cells.len();
        make_room(alloc, modes, depth, mode, bounds, rows, made)?;
        if made.cells.len() == before {
            return Ok(());
        }
        left -= 1;
    }
    Ok(())
}

// Adds that of a structure.
#[cycle(make)]
fn make_fields(
    alloc: Global,
    modes: &Measured,
    depth: u32,
    fields: &[(u32, ModeId)],
    bounds: &[(i64, i64)],
    rows: u32,
    made: &mut Making,
) -> Result<(), LayoutStop>
    requires { length (all_inwards rows (rooms_of (room_within depth modes.now) (needs_within depth modes.now) fields.now bounds.now)) ≤ most_cells }
    ensures { Makes result made.old.cells.items made.old.next made.new.cells.items made.new.next
        (all_inwards rows (rooms_of (room_within depth modes.now) (needs_within depth modes.now) fields.now bounds.now)) }
{
    let mut at = 0;
    for field in fields {
        make_room(alloc, modes, depth, field.1, &bounds[at..], rows, made)?;
        at += needs(modes, depth, field.1, bounds.len() - at);
    }
    Ok(())
}
