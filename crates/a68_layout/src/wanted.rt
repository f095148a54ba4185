//! The cells of a new name, level by level.
ghost use Rattle.std.specs.Prelude.{◌≡◌, ◌≤◌, ◌<◌, ◌⊎◌, ◌+◌, [], false, true, suc, length, Ok, Err, IfOk, OnOk, IsErrOf};
ghost use Rattle.a68_layout.specs.Making.{Makes};
ghost use Rattle.a68_layout.specs.Rooms.{all_inwards, cells_in, inwards, is_far, no_rooms, plan_in};
ghost use Rattle.a68_layout.specs.Stretches.{capped};
ghost use Rattle.a68_layout.specs.Wanting.{AreAt, AreBelow, AreFound, IsMade, IsTooMany, rooms_in, row_of, rows_of};
ghost use Rattle.a68_layout.specs.Widths.{most_cells};
ghost use Rattle.a68_values.specs.declared.act.FaultKind.{FaultKind};
ghost use Rattle.a68_values.specs.declared.act.FaultKind.TheVariants as faults;

use crate::counting::{count_room, count_row};
use crate::counting_values::{count_elements, count_filled, count_value};
use crate::finding::{Row, find_behind, find_elements, find_room, find_value};
use crate::making::{Making, make_room, make_row};
use crate::making_values::{make_elements, make_filled, make_value};
use crate::measured::Measured;
use crate::{LayoutStop, Plan};
use a68_base::{MOST_COUNTED, NoMemory};
use a68_modes::ModeId;
use a68_values::{Cells, FaultKind, Value};
use std::alloc::Global;

// What cells are planned for: a name with these bounds, a name for this value, or elements of a row for these values.
#[derive(Clone, Copy)]
pub enum Wanted<'a> {
    Bounds {
        mode: ModeId,
        bounds: &'a [(i64, i64)],
    },
    One {
        mode: ModeId,
        value: &'a Value,
    },
    Elements {
        mode: ModeId,
        values: &'a [Value],
    },
}

// Counts the cells of the name itself, up to one more than there may be.
fn count_first(modes: &Measured, wanted: &Wanted) -> u32
    ensures { result ≡ capped (0 + length (all_inwards 0 (rooms_in modes.now wanted.now))) }
{
    let depth = modes.len();
    match wanted {
        Wanted::Bounds { mode, bounds } => count_room(modes, depth, *mode, bounds, 0, 0),
        Wanted::One { mode, value } => count_value(modes.modes(), depth, *mode, value, 0, 0),
        Wanted::Elements { mode, values } => {
            count_elements(modes.modes(), depth, *mode, values, 0, 0)
        }
    }
}

// Adds these cells.
fn make_first(
    alloc: Global,
    modes: &Measured,
    wanted: &Wanted,
    made: &mut Making,
) -> Result<(), LayoutStop>
    requires { length (all_inwards 0 (rooms_in modes.now wanted.now)) ≤ most_cells }
    ensures { Makes result made.old.cells.items made.old.next made.new.cells.items made.new.next (all_inwards 0 (rooms_in modes.now wanted.now)) }
{
    let depth = modes.len();
    match wanted {
        Wanted::Bounds { mode, bounds } => make_room(alloc, modes, depth, *mode, bounds, 0, made),
        Wanted::One { mode, value } => {
            make_value(alloc, modes.modes(), depth, *mode, value, 0, made)
        }
        Wanted::Elements { mode, values } => {
            make_elements(alloc, modes.modes(), depth, *mode, values, 0, made)
        }
    }
}

// Adds the rows among these cells.
fn find_first<'a>(
    modes: &Measured,
    wanted: &Wanted<'a>,
    rows: &mut Vec<Row<'a>>,
) -> Result<(), NoMemory>
    ensures { OnOk result (AreFound modes.now rows.old.items rows.new.items (rooms_in modes.now wanted.now)) }
{
    let depth = modes.len();
    match wanted {
        Wanted::Bounds { mode, bounds } => {
            find_room(modes, depth, *mode, bounds, rows)?;
            Ok(())
        }
        Wanted::One { mode, value } => {
            find_value(modes.modes(), depth, *mode, value, rows)?;
            Ok(())
        }
        Wanted::Elements { mode, values } => {
            find_elements(modes.modes(), depth, *mode, values, rows)?;
            Ok(())
        }
    }
}

// Counts on by the cells of the elements of a row.
fn count_behind(modes: &Measured, row: &Row, counted: u32) -> u32
    requires { counted ≤ most_cells }
    ensures { result ≡ capped (counted + length (inwards 1 (row_of modes.now row.now))) }
{
    match row {
        Row::Bounded {
            depth,
            mode,
            dims,
            bounds,
        } => count_row(modes, *depth, *mode, *dims, bounds, 1, counted),
        Row::Filled { depth, mode, value } => {
            count_filled(modes.modes(), *depth, *mode, value, 1, counted)
        }
    }
}

// Counts on by those of all these rows.
fn count_level(modes: &Measured, rows: &[Row], counted: u32) -> u32
    requires { counted ≤ most_cells + 1 }
    ensures { result ≡ capped (counted + length (all_inwards 1 (rows_of modes.now rows.now))) }
{
    let mut counted = counted;
    for row in rows {
        if counted > MOST_COUNTED {
            return counted;
        }
        counted = count_behind(modes, row, counted);
    }
    counted
}

// Adds the cells of the elements of a row.
fn make_behind(
    alloc: Global,
    modes: &Measured,
    row: &Row,
    made: &mut Making,
) -> Result<(), LayoutStop>
    requires { length (inwards 1 (row_of modes.now row.now)) ≤ most_cells }
    ensures { Makes result made.old.cells.items made.old.next made.new.cells.items made.new.next (inwards 1 (row_of modes.now row.now)) }
{
    match row {
        Row::Bounded {
            depth,
            mode,
            dims,
            bounds,
        } => make_row(alloc, modes, *depth, *mode, *dims, bounds, 1, made),
        Row::Filled { depth, mode, value } => {
            make_filled(alloc, modes.modes(), *depth, *mode, value, 1, made)
        }
    }
}

// Adds those of all these rows.
fn make_level(
    alloc: Global,
    modes: &Measured,
    rows: &[Row],
    made: &mut Making,
) -> Result<(), LayoutStop>
    requires { length (all_inwards 1 (rows_of modes.now rows.now)) ≤ most_cells }
    ensures { Makes result made.old.cells.items made.old.next made.new.cells.items made.new.next (all_inwards 1 (rows_of modes.now rows.now)) }
{
    for row in rows {
        make_behind(alloc, modes, row, made)?;
    }
    Ok(())
}

// Lists the rows among the elements of these rows.
fn next_level<'a>(
    alloc: Global,
    modes: &Measured,
    rows: &[Row<'a>],
) -> Result<Vec<Row<'a>>, NoMemory>
    requires { length (all_inwards 1 (rows_of modes.now rows.now)) ≤ most_cells }
    ensures { IfOk result (λ next. AreBelow modes.now rows.now next.items) }
{
    let mut next = Vec::new(alloc);
    for row in rows {
        find_behind(alloc, modes, row, &mut next)?;
    }
    Ok(next)
}

// Makes the cells of the name itself, and lists the rows among them.
fn begin<'a>(
    alloc: Global,
    modes: &Measured,
    wanted: &Wanted<'a>,
    made: &mut Making,
) -> Result<Vec<Row<'a>>, LayoutStop>
    requires { made.old.cells.items ≡ [] }
    ensures rows { IfOk result (λ rows. AreAt modes.now 1 (rooms_in modes.now wanted.now) rows.items) }
    ensures cells { OnOk result (IsMade modes.now 1 (rooms_in modes.now wanted.now) made.new.cells.items) }
    ensures fault { (kind : FaultKind) → IsErrOf result (LayoutStop.Fault kind) → IsTooMany modes.now (rooms_in modes.now wanted.now) kind }
{
    let count = count_first(modes, wanted);
    if count > MOST_COUNTED {
        return Err(LayoutStop::Fault(FaultKind::Cells));
    }
    made.cells.reserve(count as usize)?;
    made.next = count;
    make_first(alloc, modes, wanted, made)?;
    let mut rows = Vec::new(alloc);
    find_first(modes, wanted, &mut rows)?;
    Ok(rows)
}

// Makes the cells of the elements of these rows, then those of the rows among them, and so on inwards. Behind a level
// without cells there is none.
fn go_inwards<'a>(
    alloc: Global,
    modes: &Measured,
    wanted: &Wanted<'a>,
    first: Vec<Row<'a>>,
    made: &mut Making,
) -> Result<(), LayoutStop>
    requires rows { AreAt modes.now 1 (rooms_in modes.now wanted.now) first.items }
    requires cells { IsMade modes.now 1 (rooms_in modes.now wanted.now) made.old.cells.items }
    ensures cells { OnOk result (made.new.cells.items ≡ cells_in modes.now (rooms_in modes.now wanted.now)) }
    ensures near { OnOk result (is_far (suc (length modes.now)) 0 0 (rooms_in modes.now wanted.now) ≡ false) }
    ensures few { OnOk result (length made.new.cells.items ≤ most_cells) }
    ensures fault { (kind : FaultKind) → IsErrOf result (LayoutStop.Fault kind) → IsTooMany modes.now (rooms_in modes.now wanted.now) kind }
{
    let mut rows = first;
    for level in 1..modes.len() + 1 {
        let at = made.cells.len() as u32;
        let behind = count_level(modes, &rows, at);
        if behind == at {
            return Ok(());
        }
        if behind > MOST_COUNTED {
            return Err(LayoutStop::Fault(FaultKind::Cells));
        }
        made.cells.reserve((behind - at) as usize)?;
        made.next = behind;
        make_level(alloc, modes, &rows, made)?;
        rows = next_level(alloc, modes, &rows)?;
    }
    Ok(())
}

// Makes all cells.
fn make_all(
    alloc: Global,
    modes: &Measured,
    wanted: &Wanted,
    made: &mut Making,
) -> Result<(), LayoutStop>
    requires { made.old.cells.items ≡ [] }
    ensures cells { OnOk result (made.new.cells.items ≡ cells_in modes.now (rooms_in modes.now wanted.now)) }
    ensures near { OnOk result (is_far (suc (length modes.now)) 0 0 (rooms_in modes.now wanted.now) ≡ false) }
    ensures few { OnOk result (length made.new.cells.items ≤ most_cells) }
    ensures fault { (kind : FaultKind) → IsErrOf result (LayoutStop.Fault kind) → IsTooMany modes.now (rooms_in modes.now wanted.now) kind }
{
    let rows = begin(alloc, modes, wanted, made)?;
    go_inwards(alloc, modes, wanted, rows, made)?;
    Ok(())
}

// Plans what is wanted, level by level: the cells of the name, then the elements of the rows among them, then those of
// the rows among these, and so on inwards.
pub fn plan_wanted(alloc: Global, modes: &Measured, wanted: &Wanted) -> Result<Plan, LayoutStop>
    ensures cells { IfOk result (λ plan. Ok plan ≡ plan_in modes.now (rooms_in modes.now wanted.now)) }
    ensures fault { (kind : FaultKind) → IsErrOf result (LayoutStop.Fault kind) → Err kind ≡ plan_in modes.now (rooms_in modes.now wanted.now) }
{
    let mut made = Making {
        cells: Vec::new(alloc),
        next: 0,
    };
    if let Err(stop) = make_all(alloc, modes, wanted, &mut made) {
        drop(made);
        return Err(stop);
    }
    let Making { cells, next: _ } = made;
    Ok(Plan {
        cells: Cells { items: cells },
        shifted: true,
    })
}
