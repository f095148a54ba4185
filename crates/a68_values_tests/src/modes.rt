//! Modes behind the standard ones: structures, unions and a name.
ghost use Rattle.std.specs.Prelude.{◌<◌, ◌↔◌, IsTrue};
ghost use Rattle.std.specs.List.{All};

use a68_modes::{Fields, Members, ModeId, Modes, Shape};
use std::alloc::Global;

// Modes by their numbers.
pub const INT: ModeId = 1;

pub const BOOL: ModeId = 2;

pub const STRING: ModeId = 12;

/// STRUCT (INT x, y).
pub const POINT: ModeId = 15;

/// UNION (INT, POINT).
pub const EITHER: ModeId = 16;

/// STRUCT (BOOL b, POINT p, EITHER e).
pub const BOX: ModeId = 17;

/// REF BOX.
pub const REF_BOX: ModeId = 18;

/// STRUCT (INT i, STRING s).
pub const NAMED: ModeId = 19;

/// STRUCT (INT i, REF BOX next).
pub const LINK: ModeId = 20;

/// A structure of two of a mode, 60 deep, which is of INT at last.
pub const DEEP: ModeId = 80;

// Are these modes among the first so many?
fn are_there(modes: &[ModeId], count: u32) -> bool
    ensures { IsTrue result ↔ All (λ mode. mode < count) modes.now }
{
    modes.iter().all(|mode| *mode < count)
}

/// Makes the modes grow by a node of this shape; none where a mode within it is not there, or where there is no room.
pub fn add(alloc: Global, modes: &mut Modes, shape: Shape) -> Option<()> {
    let parts = shape.parts(alloc).ok()?;
    if !are_there(&parts.items, modes.len()) {
        return None;
    }
    modes.add(shape).ok()?;
    Some(())
}

/// Makes the modes grow by a structure with fields of these modes, as `add` does.
pub fn add_structure(alloc: Global, modes: &mut Modes, fields: &[ModeId]) -> Option<()> {
    let mut items = Vec::new(alloc);
    for mode in fields {
        items.push((0, *mode)).ok()?;
    }
    add(alloc, modes, Shape::Struct(Fields { items }))
}

/// The standard modes, and those above; none where memory runs out.
pub fn modes(alloc: Global) -> Option<Modes> {
    let mut modes = Modes::new(alloc).ok()?;
    add_structure(alloc, &mut modes, &[INT, INT])?;
    let members = Members::from_slice(alloc, &[INT, POINT]).ok()?;
    add(alloc, &mut modes, Shape::Union(members))?;
    add_structure(alloc, &mut modes, &[BOOL, POINT, EITHER])?;
    add(alloc, &mut modes, Shape::Ref(BOX))?;
    add_structure(alloc, &mut modes, &[INT, STRING])?;
    add_structure(alloc, &mut modes, &[INT, REF_BOX])?;
    add_deep(alloc, &mut modes)?;
    Some(modes)
}

fn add_deep(alloc: Global, modes: &mut Modes) -> Option<()> {
    add_structure(alloc, modes, &[INT, INT])?;
    for deep in 21..DEEP {
        add_structure(alloc, modes, &[deep, deep])?;
    }
    Some(())
}
