//! What is left behind the coercions of a path.
ghost use Rattle.std.specs.Option.{option_and_then};
ghost use Rattle.std.specs.Prelude.{◌≡◌};
ghost use Rattle.a68_elab.specs.Made as made;
ghost use Rattle.a68_elab.specs.Runs as runs;
ghost use Rattle.a68_parts.specs.Rowing.{Tells};
ghost use Rattle.a68_runs.specs.Running as running;

use crate::outcomes::is_there;
use a68_annot::Note;
use a68_modes::{Coercion, ModeId, Modes, standard};
use a68_parts::{Rowings, behind_proc, behind_ref, last_rowings, rowed_by};

/// What stands between two coercions: the mode behind the first, and whether a value is left.
#[derive(Clone, Copy)]
pub struct Between {
    pub mode: ModeId,
    pub left: bool,
}

// A value of a mode that is there.
fn value_of(modes: &Modes, mode: ModeId) -> Option<Between>
    ensures { result ≡ running.value_of modes.now mode }
{
    if is_there(modes, mode) {
        Some(Between { mode, left: true })
    } else {
        None
    }
}

// A row, behind which a path leads to a mode.
fn row_before(modes: &Modes, goal: ModeId, path: &[Coercion], rowings: Rowings) -> Option<Between>
    requires { Tells modes.now goal path.now rowings }
    ensures { result ≡ option_and_then (running.value_of modes.now) (made.rowed_to modes.now goal path.now) }
{
    match rowed_by(modes, goal, path, rowings) {
        Some(mode) => value_of(modes, mode),
        None => None,
    }
}

// What stands behind a coercion of a value, where it runs; the path behind it leads to a mode.
fn behind(
    modes: &Modes,
    goal: ModeId,
    mode: ModeId,
    coercion: Coercion,
    path: &[Coercion],
    rowings: Rowings,
) -> Option<Between>
    requires { Tells modes.now goal path.now rowings }
    ensures { result ≡ running.behind modes.now goal mode coercion path.now }
{
    match coercion {
        Coercion::Deref => value_of(modes, behind_ref(modes, mode)),
        Coercion::Deproc => {
            let to = behind_proc(modes, mode);
            Some(Between {
                mode: to,
                left: !modes.is_void(to),
            })
        }
        Coercion::Unite(from) => Some(Between {
            mode: from,
            left: true,
        }),
        Coercion::Widen => Some(Between {
            mode: standard::ROW_OF_BOOL,
            left: true,
        }),
        Coercion::RowUp | Coercion::RowUpName => row_before(modes, goal, path, rowings),
        Coercion::Drop => Some(Between {
            mode: standard::VOID,
            left: false,
        }),
    }
}

// What stands behind one coercion more.
fn one_more(
    modes: &Modes,
    goal: ModeId,
    at: Between,
    coercion: Coercion,
    path: &[Coercion],
    rowings: Rowings,
) -> Option<Between>
    requires { Tells modes.now goal path.now rowings }
    ensures { result ≡ running.one_more modes.now goal at coercion path.now }
{
    if at.left {
        behind(modes, goal, at.mode, coercion, path, rowings)
    } else {
        None
    }
}

// What is left behind a path to a mode, of a unit of a mode that leaves a value or none.
fn leaves_along(
    modes: &Modes,
    goal: ModeId,
    mode: ModeId,
    left: bool,
    path: &[Coercion],
) -> Option<bool>
    ensures { result ≡ runs.path_leaves modes.now goal mode left path.now }
{
    let rowings = last_rowings(modes, goal, path);
    let mut at = Between { mode, left };
    for i in 0..path.len() {
        let rest = &path[i + 1..];
        match one_more(modes, goal, at, path[i], rest, rowings) {
            Some(next) => at = next,
            None => return None,
        }
    }
    Some(at.left)
}

/// What is left behind the path of a unit that leaves a value or none; nothing where a coercion does not run.
pub fn path_leaves(modes: &Modes, left: bool, note: &Note) -> Option<bool>
    ensures { result ≡ runs.path_leaves modes.now note.now.goal note.now.mode left note.now.path }
{
    leaves_along(modes, note.goal, note.mode, left, &note.path.items)
}
