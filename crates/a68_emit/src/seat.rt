//! The serial clauses with labels about what is written, and jumps to their labels.
ghost use Rattle.std.specs.Prelude.{◌≡◌, ◌⊎◌, ◌+◌, ◌++◌, ◌∷◌, [], length, IfOk};
ghost use Rattle.a68_builder.specs.Labels.{far};
ghost use Rattle.a68_elab.specs.Made as made;
ghost use Rattle.a68_elab.specs.Programs.{in_clause, jump_by, mark_of};
ghost use Rattle.a68_emit.specs.Listing.{instr, stretch};
ghost use Rattle.a68_emit.specs.Seats.{AreSameNumbers, labels_among, marks_of};
ghost use Rattle.a68_emit.specs.Views.{seat_of};
ghost use Rattle.a68_emit.specs.Writers.{Wrote};
ghost use Rattle.a68_emit.specs.Writing.{ran_out};

use crate::numbered::Numbered;
use crate::single::misfit;
use crate::view::View;
use crate::writer::Writer;
use a68_base::{MOST_INSTRUCTIONS, NoMemory};
use a68_code::Does;
use a68_tree::NodeId;
use std::alloc::Global;

/// A serial clause with labels about what is written: its node, and how many values and frames of the activation there
/// were where it began.
#[derive(Clone, Copy)]
pub struct Clause {
    pub id: NodeId,
    pub height: u32,
    pub depth: u32,
}

/// The serial clauses about what is written within one more.
pub fn clauses_with(alloc: Global, program: &View, id: NodeId) -> Result<Vec<Clause>, NoMemory>
    ensures { IfOk result (λ clauses. marks_of program.now.of.now clauses.items ≡ (in_clause (labels_among program.now.of.now (made.parts_at program.now.of.now id)) (seat_of program.now)).marks) }
{
    let mut clauses = Vec::new(alloc);
    clauses.push(Clause {
        id,
        height: program.height,
        depth: program.depth,
    })?;
    for clause in program.clauses {
        clauses.push(*clause)?;
    }
    Ok(clauses)
}

/// Keeps a label, with a place.
pub fn keep_label(labels: &mut Vec<(u32, u32)>, label: NodeId, place: u32, out: &mut Writer)
    ensures list { out.new.list ≡ out.old.list }
    ensures stop { (out.new.stop ≡ out.old.stop) ⊎ (out.new.stop ≡ ran_out out.old.stop) }
    ensures kept { out.new.stop ≡ None → labels.new.items ≡ labels.old.items ++ (label, place) ∷ [] }
{
    if labels.push((label, place)).is_err() {
        out.run_out();
    }
}

// The innermost of these clauses that has a label.
fn clause_of(program: &Numbered, clauses: &[Clause], label: NodeId) -> Option<Clause>
    ensures { AreSameNumbers (mark_of label (marks_of program.now clauses.now)) result }
{
    for clause in clauses {
        if program.has_label(clause.id, label) {
            return Some(*clause);
        }
    }
    None
}

// Goto, which names a label. There is no memory for more nodes than it can tell.
fn go_to(place: u32, label: NodeId, frames: u32, height: u32, gives: bool, out: &mut Writer)
    ensures { Wrote out.old out.new (instr place (Does.Goto (far + label) frames height gives) ∷ []) }
{
    match label.checked_add(MOST_INSTRUCTIONS as u32) {
        Some(to) => out.emit(
            place,
            Does::Goto {
                to,
                frames,
                height,
                gives,
            },
        ),
        None => out.run_out(),
    }
}

/// A jump, with its numbers; one whose label is not about it is a misfit.
#[inline(never)]
pub fn jump(program: &View, place: u32, label: NodeId, yields: bool, out: &mut Writer)
    ensures { Wrote out.old out.new (stretch (jump_by place label yields program.now.depth (mark_of label (marks_of program.now.of.now program.now.clauses.now))) (length out.old.list)) }
{
    match clause_of(program.of, program.clauses, label) {
        Some(clause) => {
            let frames = program.depth.saturating_sub(clause.depth);
            go_to(place, label, frames, clause.height, yields, out)
        }
        None => misfit(place, yields, out),
    }
}
