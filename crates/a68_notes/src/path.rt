//! The coercions of a unit.
ghost use Rattle.std.specs.Prelude.{◌≡◌, ◌<◌, [], IfOk, length};
ghost use Rattle.std.specs.Option.{option_map_or};
ghost use Rattle.a68_coerce.specs.Below.{IsLeafBelow};
ghost use Rattle.a68_notes.specs.Notes.{AreCoercions, IsPathFrom, IsPathOf, IsPathTo, IsStrongPath, IsVoidPath};
ghost use Rattle.a68_notes.specs.Voiding.{is_voided};
ghost use Rattle.a68_positions.specs.Below.{IsPositionBelow};
ghost use Rattle.a68_yields.specs.declared.yielding.Yielding.TheVariants as yields;

use crate::voided::{is_voided, voiding};
use a68_base::NoMemory;
use a68_coerce::{Leaf, path};
use a68_mode_table::ModeTable;
use a68_modes::{ModeId, Path, Sort};
use a68_positions::Position;
use a68_tree::NodeKind;
use a68_yields::Yielding;
use std::alloc::Global;

// Gives no coercions.
fn no_coercions(alloc: Global) -> Path
    ensures { result ≡ [] }
{
    Path {
        items: Vec::new(alloc),
    }
}

// Gives a path, or no coercions.
fn path_or_none(alloc: Global, found: Option<Path>) -> Path
    ensures { result ≡ option_map_or (λ p. p) found [] }
{
    match found {
        Some(path) => path,
        None => no_coercions(alloc),
    }
}

// Finds the coercions from one mode to another.
fn coercions(
    alloc: Global,
    modes: &ModeTable,
    by_sort: Sort,
    from: ModeId,
    to: ModeId,
) -> Result<Path, NoMemory>
    requires from { from < length modes.now }
    requires to { to < length modes.now }
    ensures { IfOk result (AreCoercions modes.now by_sort from to) }
{
    let found = path(alloc, modes.modes(), modes.classes(), by_sort, from, to)?;
    Ok(path_or_none(alloc, found))
}

// Finds the coercions of a unit to a mode.
fn path_from(
    alloc: Global,
    modes: &ModeTable,
    by_sort: Sort,
    to: ModeId,
    leaf: Leaf,
) -> Result<Path, NoMemory>
    requires to { to < length modes.now }
    requires leaf { IsLeafBelow (length modes.now) leaf }
    ensures { IfOk result (IsPathFrom modes.now by_sort to leaf) }
{
    match leaf {
        Leaf::Mode(from) => coercions(alloc, modes, by_sort, from, to),
        Leaf::StrongOnly => Ok(no_coercions(alloc)),
    }
}

// Finds the coercions of what a node yields to a mode.
fn path_to(
    alloc: Global,
    modes: &ModeTable,
    by_sort: Sort,
    to: ModeId,
    yielding: Yielding,
) -> Result<Path, NoMemory>
    requires to { to < length modes.now }
    requires yielding { (l : _) → yielding ≡ yields.Unit l → IsLeafBelow (length modes.now) l }
    ensures { IfOk result (IsPathTo modes.now by_sort to yielding) }
{
    match yielding {
        Yielding::Unit(leaf) => path_from(alloc, modes, by_sort, to, leaf),
        Yielding::Unknown | Yielding::Part(_) | Yielding::Choice => Ok(no_coercions(alloc)),
    }
}

// Finds the coercions of a unit of which nothing is asked.
fn void_path(alloc: Global, modes: &ModeTable, yielding: Yielding) -> Result<Path, NoMemory>
    ensures { IfOk result (IsVoidPath modes.now yielding) }
{
    match yielding {
        Yielding::Unit(Leaf::Mode(from)) => voiding(alloc, modes.modes(), from),
        _ => Ok(no_coercions(alloc)),
    }
}

// Finds the coercions of a unit of that form in a strong position.
fn strong_path(
    alloc: Global,
    modes: &ModeTable,
    kind: NodeKind,
    to: ModeId,
    yielding: Yielding,
) -> Result<Path, NoMemory>
    requires to { to < length modes.now }
    requires yielding { (l : _) → yielding ≡ yields.Unit l → IsLeafBelow (length modes.now) l }
    ensures { IfOk result (IsStrongPath (is_voided modes.now kind to) modes.now to yielding) }
{
    if is_voided(modes.modes(), kind, to) {
        void_path(alloc, modes, yielding)
    } else {
        path_to(alloc, modes, Sort::Strong, to, yielding)
    }
}

/// Finds the coercions of a unit, by its form, by what is asked of it and what it yields; none of another node.
pub fn path_of(
    alloc: Global,
    modes: &ModeTable,
    kind: NodeKind,
    own: Position,
    yielding: Yielding,
) -> Result<Path, NoMemory>
    requires own { IsPositionBelow (length modes.now) own }
    requires yielding { (l : _) → yielding ≡ yields.Unit l → IsLeafBelow (length modes.now) l }
    ensures { IfOk result (IsPathOf modes.now kind own yielding) }
{
    match own {
        Position::Goal(mode, _) => strong_path(alloc, modes, kind, mode, yielding),
        Position::Asks(by_sort, Some(mode)) => path_to(alloc, modes, by_sort, mode, yielding),
        Position::Asks(_, None)
        | Position::Items(_)
        | Position::Nowhere
        | Position::Unlooked
        | Position::Called => Ok(no_coercions(alloc)),
    }
}
