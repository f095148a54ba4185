//! The labels of serial clauses, which are found at once.
ghost use Rattle.std.specs.Prelude.{◌≡◌, ◌<◌, ◌&&◌, ◌||◌, [], ℕ, IfOk, OnOk, length, nat_eq};
ghost use Rattle.a68_elab.specs.Made as made;
ghost use Rattle.a68_elab.specs.Trees.{is_label_in};
ghost use Rattle.a68_emit.specs.Seats.{AreLabels, has_pair, labels_among};

use a68_annot::Annotated;
use a68_base::NoMemory;
use a68_parts::is_label;
use a68_tree::NodeId;
use std::alloc::Global;
use std::collections::HashSet;

/// The serial clauses, each with each of its labels.
pub(crate) type ClauseLabels = HashSet<(NodeId, NodeId)>;

// Notes a node of a clause, where it is a label.
fn note_label(
    known: &mut ClauseLabels,
    program: &Annotated,
    id: NodeId,
    part: NodeId,
) -> Result<(), NoMemory>
    ensures { OnOk result ((clause label : ℕ) → has_pair known.new.keys clause label ≡ (has_pair known.old.keys clause label || (nat_eq clause id && (made.is_label (made.kind_at program.now part) && nat_eq label part)))) }
{
    if !is_label(program, part) {
        return Ok(());
    }
    known.insert((id, part))?;
    Ok(())
}

// Notes the labels among the nodes of a clause.
fn note_labels(
    known: &mut ClauseLabels,
    program: &Annotated,
    id: NodeId,
    parts: &[NodeId],
) -> Result<(), NoMemory>
    ensures { OnOk result ((clause label : ℕ) → has_pair known.new.keys clause label ≡ (has_pair known.old.keys clause label || (nat_eq clause id && is_label_in label (labels_among program.now parts.now)))) }
{
    for at in 0..parts.len().saturating_sub(1) {
        note_label(known, program, id, parts[at])?;
    }
    Ok(())
}

/// The labels of the serial clauses of a tree: of each node those among its parts.
pub(crate) fn clause_labels(alloc: Global, program: &Annotated) -> Result<ClauseLabels, NoMemory>
    ensures { IfOk result (λ known. AreLabels program.now known.keys) }
{
    let mut known = HashSet::new(alloc);
    for id in 0..program.tree.len() {
        note_labels(&mut known, program, id, program.tree.parts(id))?;
    }
    Ok(known)
}
