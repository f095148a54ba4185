//! The instructions of coercions.
ghost use Rattle.std.specs.Prelude.{◌≡◌};
ghost use Rattle.a68_emit.specs.Coercing as coercing;
ghost use Rattle.a68_emit.specs.Coercing.{behind, coercion_of, coercions};
ghost use Rattle.a68_emit.specs.Writers.{Wrote};
ghost use Rattle.a68_parts.specs.Rowing.{Tells};

use crate::writer::Writer;
use a68_annot::Note;
use a68_code::Does;
use a68_modes::{Coercion, ModeId, Modes, standard};
use a68_parts::{Rowings, behind_proc, behind_ref, last_rowings, rowed_by};

// Is a coercion built, behind which a path leads to a mode?
fn is_built(
    modes: &Modes,
    goal: ModeId,
    coercion: Coercion,
    path: &[Coercion],
    rowings: Rowings,
) -> bool
    requires { Tells modes.now goal path.now rowings }
    ensures { result ≡ coercing.is_built modes.now goal coercion path.now }
{
    match coercion {
        Coercion::RowUp | Coercion::RowUpName => { rowed_by(modes, goal, path, rowings).is_some() }
        _ => true,
    }
}

// Are all coercions of a path to a mode built?
fn are_built_along(modes: &Modes, goal: ModeId, path: &[Coercion]) -> bool
    ensures { result ≡ coercing.are_built modes.now goal path.now }
{
    let rowings = last_rowings(modes, goal, path);
    for at in 0..path.len() {
        let rest = &path[at + 1..];
        if !is_built(modes, goal, path[at], rest, rowings) {
            return false;
        }
    }
    true
}

/// Are all coercions of a unit built?
#[inline(never)]
pub fn are_built(modes: &Modes, note: &Note) -> bool
    ensures { result ≡ coercing.are_built modes.now note.now.goal note.now.path }
{
    are_built_along(modes, note.goal, &note.path.items)
}

// The mode of a rowing, behind which a path leads to a mode; VOID where there is none.
fn row_at(modes: &Modes, goal: ModeId, path: &[Coercion], rowings: Rowings) -> ModeId
    requires { Tells modes.now goal path.now rowings }
    ensures { result ≡ coercing.row_at modes.now goal path.now }
{
    match rowed_by(modes, goal, path, rowings) {
        Some(mode) => mode,
        None => 0,
    }
}

// Writes a coercion from a mode, behind which a path leads to the goal, and gives the mode behind it.
fn coerce_once(
    modes: &Modes,
    place: u32,
    goal: ModeId,
    mode: ModeId,
    coercion: Coercion,
    path: &[Coercion],
    rowings: Rowings,
    out: &mut Writer,
) -> ModeId
    requires { Tells modes.now goal path.now rowings }
    ensures writes { Wrote out.old out.new (coercion_of modes.now place goal mode coercion path.now) }
    ensures behind { result ≡ behind modes.now goal mode coercion path.now }
{
    match coercion {
        Coercion::Deref => {
            let behind = behind_ref(modes, mode);
            out.emit(place, Does::Deref(behind));
            behind
        }
        Coercion::Deproc => {
            let behind = behind_proc(modes, mode);
            let gives = !modes.is_void(behind);
            out.emit(place, Does::Call { count: 0, gives });
            behind
        }
        Coercion::Unite(from) => {
            out.emit(place, Does::Unite(from));
            from
        }
        Coercion::Widen => {
            out.emit(place, Does::Widen);
            standard::ROW_OF_BOOL
        }
        Coercion::RowUp => {
            let behind = row_at(modes, goal, path, rowings);
            out.emit(place, Does::RowUp(behind));
            behind
        }
        Coercion::RowUpName => {
            let behind = row_at(modes, goal, path, rowings);
            out.emit(place, Does::RowUpName(behind));
            behind
        }
        Coercion::Drop => {
            out.emit(place, Does::Drop);
            0
        }
    }
}

// Writes the coercions of a path, from a mode on, which leads to the goal.
fn coerce_along(
    modes: &Modes,
    place: u32,
    goal: ModeId,
    mode: ModeId,
    path: &[Coercion],
    out: &mut Writer,
)
    ensures { Wrote out.old out.new (coercions modes.now place goal mode path.now) }
{
    let rowings = last_rowings(modes, goal, path);
    let mut mode = mode;
    for at in 0..path.len() {
        let rest = &path[at + 1..];
        mode = coerce_once(modes, place, goal, mode, path[at], rest, rowings, out);
    }
}

/// Writes the coercions of a unit that begins at a place.
#[inline(never)]
pub fn coerce(modes: &Modes, place: u32, note: &Note, out: &mut Writer)
    ensures { Wrote out.old out.new (coercions modes.now place note.now.goal note.now.mode note.now.path) }
{
    coerce_along(modes, place, note.goal, note.mode, &note.path.items, out);
}
