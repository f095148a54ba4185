//! Modes one behind another, inner ones first.
use crate::{Fields, ModeId, Modes, Shape};
use a68_base::NoMemory;
use std::alloc::Global;

// The modes that are yet to be looked at, the next one last, those within which this was begun, and those with which it is done.
#[derive(Drop)]
struct Search {
    left: Vec<ModeId>,
    open: Vec<bool>,
    done: Vec<ModeId>,
}

// Adds a mode to those that are yet to be looked at, unless that is begun.
fn seek(mode: ModeId, search: &mut Search) -> Result<(), NoMemory> {
    let at = mode as usize;
    if at < search.open.len() && !search.open[at] {
        search.left.push(mode)?;
    }
    Ok(())
}

fn seek_fields(fields: &Fields, search: &mut Search) -> Result<(), NoMemory> {
    for field in &fields.items {
        seek(field.1, search)?;
    }
    Ok(())
}

// Adds the modes of which values of a mode are made.
fn seek_within(modes: &Modes, mode: ModeId, search: &mut Search) -> Result<(), NoMemory> {
    if mode >= modes.len() {
        return Ok(());
    }
    match modes.shape(mode) {
        Shape::Rows { of, .. } => seek(*of, search),
        Shape::Struct(fields) => seek_fields(fields, search),
        Shape::Same(mode) => seek(*mode, search),
        _ => Ok(()),
    }
}

// Looks at a mode: at the first time at those within it, and at the second time, when this is done, puts it behind them.
fn look(modes: &Modes, mode: ModeId, search: &mut Search) -> Result<(), NoMemory> {
    let at = mode as usize;
    if at >= search.open.len() {
        return Ok(());
    }
    if search.open[at] {
        search.done.push(mode)?;
        return Ok(());
    }
    search.open[at] = true;
    search.left.push(mode)?;
    seek_within(modes, mode, search)
}

/// These modes and those of which their values are made, each behind those within it where no mode lies in itself: a mode lies in a
/// row of it, in a structure with a field of it, and in a mode word that stands for it. A mode may stand there more than once.
/// Nothing rests on the order but the time of who looks at the modes in it.
pub fn inner_first(
    alloc: Global,
    modes: &Modes,
    first: Vec<ModeId>,
) -> Result<Vec<ModeId>, NoMemory> {
    let open = vec![in alloc; false; modes.len() as usize]?;
    let mut search = Search {
        left: first,
        open,
        done: Vec::new(alloc),
    };
    for _ in 0..u64::MAX {
        let Some(mode) = search.left.pop() else {
            break;
        };
        look(modes, mode, &mut search)?;
    }
    let Search {
        left: _,
        open: _,
        done,
    } = search;
    Ok(done)
}
