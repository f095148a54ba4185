//! The rows between a value and a row of several dimensions that it becomes.
ghost use Rattle.std.specs.Prelude.{◌≡◌, ◌<◌, ◌++◌, ◌∷◌, ◌||◌, [], ℕ, false, OnOk, length};
ghost use Rattle.a68_modes.specs.Nodes.{shape_at};
ghost use Rattle.a68_modes.specs.declared.shape.Shape.TheVariants as shapes;
ghost use Rattle.a68_notes.specs.KnownRows.{has_key, AreRowsKnown};
ghost use Rattle.a68_notes.specs.Rows as rows;

use a68_base::NoMemory;
use a68_modes::{ModeId, Modes, Shape};
use std::alloc::Global;
use std::collections::HashSet;

/// The rows without FLEX that are among the modes, by their dimensions and the modes of their elements.
type PlainRows = HashSet<(u32, ModeId)>;

// Gives the dimensions of a row without FLEX, and the mode of its elements.
fn fixed_row(shape: &Shape) -> Option<(u32, ModeId)>
    ensures { result ≡ rows.fixed_row shape.now }
{
    match shape {
        Shape::Rows { dims, flex, of } => { if *flex { None } else { Some((*dims, *of)) } }
        _ => None,
    }
}

// Gives how many dimensions a row has but one, and the mode of its elements.
fn fewer_of(shape: &Shape) -> Option<(u32, ModeId)>
    ensures { result ≡ rows.fewer_of shape.now }
{
    match shape {
        Shape::Rows { dims, of, .. } => Some((dims.saturating_sub(1), *of)),
        _ => None,
    }
}

// Notes a mode, where it is a row without FLEX.
fn note_row(known: &mut PlainRows, shape: &Shape) -> Result<(), NoMemory>
    ensures { OnOk result ((dims of : ℕ) → has_key known.new.keys dims of ≡ (has_key known.old.keys dims of || rows.is_row dims of shape.now)) }
{
    match fixed_row(shape) {
        Some(row) => {
            known.insert(row)?;
            Ok(())
        }
        None => Ok(()),
    }
}

// Notes the rows without FLEX among the modes.
fn note_rows(known: &mut PlainRows, modes: &Modes) -> Result<(), NoMemory>
    requires { known.old.keys ≡ [] }
    ensures { OnOk result (AreRowsKnown modes.now known.new.keys) }
{
    for mode in 0..modes.len() {
        note_row(known, modes.shape(mode))?;
    }
    Ok(())
}

// Adds a row without FLEX behind the modes.
fn push_row(modes: &mut Modes, dims: u32, of: ModeId) -> Result<(), NoMemory>
    requires { of < length modes.old }
    ensures { OnOk result (modes.new ≡ modes.old ++ shapes.Rows dims false of ∷ []) }
{
    let row = Shape::Rows {
        dims,
        flex: false,
        of,
    };
    match modes.add(row) {
        Ok(_) => Ok(()),
        Err(_) => Err(NoMemory),
    }
}

// Adds a row without FLEX, where it is not among the modes.
fn add_row(modes: &mut Modes, known: &mut PlainRows, dims: u32, of: ModeId) -> Result<(), NoMemory>
    requires of { of < length modes.old }
    requires known { AreRowsKnown modes.old known.old.keys }
    ensures known { OnOk result (AreRowsKnown modes.new known.new.keys) }
    ensures added { OnOk result (modes.new ≡ rows.with_row modes.old dims of) }
{
    if known.insert((dims, of))? {
        push_row(modes, dims, of)?;
        return Ok(());
    }
    Ok(())
}

// Adds the rows of 1 up to so many dimensions.
fn add_rows_to(
    modes: &mut Modes,
    known: &mut PlainRows,
    most: u32,
    of: ModeId,
) -> Result<(), NoMemory>
    requires of { of < length modes.old }
    requires known { AreRowsKnown modes.old known.old.keys }
    ensures known { OnOk result (AreRowsKnown modes.new known.new.keys) }
    ensures added { OnOk result (modes.new ≡ rows.with_rows_to modes.old most of) }
{
    for dims in 0..most {
        add_row(modes, known, dims + 1, of)?;
    }
    Ok(())
}

// Adds the rows with fewer dimensions than a mode has.
fn add_fewer(modes: &mut Modes, known: &mut PlainRows, mode: ModeId) -> Result<(), NoMemory>
    requires there { mode < length modes.old }
    requires known { AreRowsKnown modes.old known.old.keys }
    ensures known { OnOk result (AreRowsKnown modes.new known.new.keys) }
    ensures added { OnOk result (modes.new ≡ rows.with_fewer modes.old (shape_at modes.old mode)) }
{
    match fewer_of(modes.shape(mode)) {
        Some((most, of)) => {
            add_rows_to(modes, known, most, of)?;
            Ok(())
        }
        None => Ok(()),
    }
}

// Adds the rows with fewer dimensions than each of the modes has.
fn add_all(modes: &mut Modes, known: &mut PlainRows) -> Result<(), NoMemory>
    requires { AreRowsKnown modes.old known.old.keys }
    ensures { OnOk result (modes.new ≡ rows.with_rows modes.old) }
{
    for mode in 0..modes.len() {
        add_fewer(modes, known, mode)?;
    }
    Ok(())
}

/// Adds behind the modes, of each row among them, those of the same elements with fewer dimensions, without FLEX, that are not
/// there: by way of these a value becomes a row of several dimensions (Report, 6.6). No path of coercions names other modes between: a
/// name becomes that of a row but once. Takes time linear in the dimensions of all rows.
pub fn add_rows(alloc: Global, modes: &mut Modes) -> Result<(), NoMemory>
    ensures { OnOk result (modes.new ≡ rows.with_rows modes.old) }
{
    let mut known = HashSet::new(alloc);
    note_rows(&mut known, modes)?;
    add_all(modes, &mut known)?;
    Ok(())
}
