//! Slices: how their indexes are written.
ghost use Rattle.std.specs.Prelude.{◌≡◌};
ghost use Rattle.std.specs.List.{list_all};
ghost use Rattle.a68_elab.specs.Made as made;
ghost use Rattle.a68_elab.specs.Runs as runs;

use crate::outcomes::{all_leave, leaves};
use a68_annot::Annotated;
use a68_layout::TrimForm;
use a68_parts::{kind_at, parts_at};
use a68_tree::{NodeId, NodeKind};

// Is there a lower bound among these nodes?
fn has_lower(program: &Annotated, parts: &[NodeId]) -> bool
    ensures { result ≡ made.has_kind made.is_lower program.now parts.now }
{
    parts
        .iter()
        .any(|part| matches!(kind_at(program, *part), NodeKind::Lower))
}

// Is there an upper bound?
fn has_upper(program: &Annotated, parts: &[NodeId]) -> bool
    ensures { result ≡ made.has_kind made.is_upper program.now parts.now }
{
    parts
        .iter()
        .any(|part| matches!(kind_at(program, *part), NodeKind::Upper))
}

// Is there a new lower bound?
fn has_at(program: &Annotated, parts: &[NodeId]) -> bool
    ensures { result ≡ made.has_kind made.is_at program.now parts.now }
{
    parts
        .iter()
        .any(|part| matches!(kind_at(program, *part), NodeKind::At))
}

/// How an index with these parts is written: a subscript is a unit, and all else a trimmer.
pub fn form_of(program: &Annotated, parts: &[NodeId]) -> TrimForm
    ensures { result ≡ made.form_of program.now parts.now }
{
    let lower = has_lower(program, parts);
    let upper = has_upper(program, parts);
    let at = has_at(program, parts);
    if parts.len() == 0 || lower || upper || at {
        TrimForm::Trimmer { lower, upper, at }
    } else {
        TrimForm::Subscript
    }
}

// How many units an index that is written so has.
fn written_units(form: TrimForm) -> usize
    ensures { result ≡ runs.written_units form }
{
    match form {
        TrimForm::Subscript => 1,
        TrimForm::Trimmer { lower, upper, at } => {
            usize::from(lower) + usize::from(upper) + usize::from(at)
        }
    }
}

// Has an index a part for each unit of its form, and do these leave values?
fn is_index(program: &Annotated, id: NodeId) -> bool
    ensures { result ≡ runs.is_index program.now id }
{
    let parts = parts_at(program, id);
    written_units(form_of(program, parts)) == parts.len() && all_leave(program, true, parts)
}

// Are all of these such indexes?
fn are_indexes(program: &Annotated, ids: &[NodeId]) -> bool
    ensures { result ≡ list_all (runs.is_index program.now) ids.now }
{
    ids.iter().all(|id| is_index(program, *id))
}

/// Does a slice run: what is sliced, and its indexes, of which there is one at least?
pub fn slice_runs(program: &Annotated, parts: &[NodeId]) -> bool
    ensures { result ≡ runs.slice_runs program.now parts.now }
{
    parts.len() > 1 && leaves(program, true, parts[0]) && are_indexes(program, &parts[1..])
}
