//! Coercions where nothing is asked.
ghost use Rattle.std.specs.Prelude.{◌≡◌, ◌++◌, [], length, IfOk, OnOk};
ghost use Rattle.a68_modes.specs.Nodes as modes_of;
ghost use Rattle.a68_modes.specs.Nodes.{shape_at};
ghost use Rattle.a68_notes.specs.Voiding as voiding;
ghost use Rattle.a68_refusals.specs.Jumps.{takes_none};

use a68_base::NoMemory;
use a68_modes::{Coercion, ModeId, Modes, Path, Shape};
use a68_tree::NodeKind;
use std::alloc::Global;

// Tells whether the value of such a unit is called where nothing is asked of it.
fn may_be_called(kind: NodeKind) -> bool
    ensures { result ≡ voiding.may_be_called kind }
{
    match kind {
        NodeKind::Tag | NodeKind::Selection | NodeKind::Slice | NodeKind::Call => true,
        NodeKind::RoutineText | NodeKind::Monadic | NodeKind::Dyadic => true,
        _ => false,
    }
}

/// Tells whether nothing is asked of a unit whose value is called there.
pub fn is_voided(modes: &Modes, kind: NodeKind, goal: ModeId) -> bool
    ensures { result ≡ voiding.is_voided modes.now kind goal }
{
    may_be_called(kind) && modes.is_void(goal)
}

// What a name of this mode refers to; none where it is no name.
fn name_in(modes: &Modes, mode: ModeId) -> Option<ModeId>
    ensures { result ≡ voiding.name_in (shape_at modes.now mode) }
{
    if mode >= modes.len() {
        return None;
    }
    match modes.shape(mode) {
        Shape::Ref(to) => Some(*to),
        _ => None,
    }
}

// Tells whether the mode is that of a procedure without parameters.
fn takes_none(modes: &Modes, mode: ModeId) -> bool
    ensures { result ≡ takes_none (shape_at modes.now mode) }
{
    if mode >= modes.len() {
        return false;
    }
    match modes.shape(mode) {
        Shape::Proc { params, .. } => params.items.len() == 0,
        _ => false,
    }
}

// Tells whether a procedure without parameters stands behind names, at most so many.
fn is_proc_behind(modes: &Modes, most: u32, mode: ModeId) -> bool
    ensures { result ≡ voiding.is_proc_behind most modes.now mode }
{
    let mut at = mode;
    let mut left = most;
    while left > 0 {
        match name_in(modes, at) {
            Some(to) => at = to,
            None => return takes_none(modes, at),
        }
        left -= 1;
    }
    false
}

// The coercion of a name or a procedure, and the mode behind it; none of another mode.
fn next_of(modes: &Modes, mode: ModeId) -> Option<(Coercion, ModeId)>
    ensures { result ≡ voiding.next_of (shape_at modes.now mode) }
{
    if mode >= modes.len() {
        return None;
    }
    match modes.shape(mode) {
        Shape::Ref(to) => Some((Coercion::Deref, *to)),
        Shape::Proc { result, .. } => Some((Coercion::Deproc, *result)),
        _ => None,
    }
}

// Drops a value of this mode, where there is one.
fn put_drop(modes: &Modes, mode: ModeId, path: &mut Vec<Coercion>) -> Result<(), NoMemory>
    ensures { OnOk result (path.new.items ≡ path.old.items ++ voiding.dropping modes.now mode) }
{
    if !modes.is_void(mode) {
        path.push(Coercion::Drop)?;
    }
    Ok(())
}

/// Finds the coercions of a value of this mode of which nothing is asked.
pub fn voiding(alloc: Global, modes: &Modes, mode: ModeId) -> Result<Path, NoMemory>
    ensures { IfOk result (λ path. path ≡ voiding.voiding (length modes.now) modes.now mode) }
{
    let mut items = Vec::new(alloc);
    let mut at = mode;
    let mut left = modes.len();
    while is_proc_behind(modes, left, at) {
        let Some((coercion, to)) = next_of(modes, at) else {
            return Ok(Path { items });
        };
        items.push(coercion)?;
        at = to;
        left = left.saturating_sub(1);
    }
    put_drop(modes, at, &mut items)?;
    Ok(Path { items })
}
