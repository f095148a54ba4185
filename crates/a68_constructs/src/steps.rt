//! Serial clauses with labels. Above each function stands what it writes: `[x]` is what the part x writes.
ghost use Rattle.std.specs.Prelude.{◌≡◌, ◌<◌, ◌≤◌, ◌∷◌, [], length};
ghost use Rattle.a68_constructs.specs.Steps.{IsStep, exit_jumps, step_width};
ghost use Rattle.a68_elab.specs.Made.{parts_at, steps_of};
ghost use Rattle.a68_elab.specs.Programs.{behind};
ghost use Rattle.a68_elab.specs.Trees as trees;
ghost use Rattle.a68_emit.specs.Listing.{label_places, step_stretches, stretch};
ghost use Rattle.a68_emit.specs.Views.{laid_of, lying, tree_of};
ghost use Rattle.a68_emit.specs.Writers.{Wrote};
ghost use Rattle.a68_tree.specs.Trees.{AllBetween};

use crate::rows::write_part;
use a68_builder::Labels;
use a68_code::Does;
use a68_emit::{View, Writer, clauses_with, keep, keep_label};
use a68_parts::{is_exit, is_label};
use a68_tree::NodeId;
use std::alloc::Global;

// A label keeps where the step behind it begins; of a unit [unit], and Jump 0 where EXIT follows: keeps the number of the Jump.
// Gives how many nodes that were.
#[cycle(units)]
fn write_step(
    alloc: Global,
    program: &View,
    id: NodeId,
    part: NodeId,
    next: NodeId,
    place: u32,
    placed: &mut Vec<(u32, u32)>,
    jumps: &mut Vec<u32>,
    out: &mut Writer,
) -> usize
    requires { (id < part) × (part < length program.now.of.now.tree.nodes) }
    ensures step { IsStep program.now id place part next out.old.stop out.old.list placed.old.items jumps.old.items out.new.stop out.new.list placed.new.items jumps.new.items }
    ensures width { result ≡ step_width program.now.of.now part next }
    ensures some { (1 ≤ result) × (result ≤ 2) }
{
    if is_label(program.of.annotated(), part) {
        let start = out.len();
        keep_label(placed, part, start, out);
        return 1;
    }
    write_part(alloc, program, id, part, out);
    if !is_exit(program.of.annotated(), next) {
        return 1;
    }
    let jump = out.len();
    keep(jumps, jump, out);
    out.emit(place, Does::Jump(0));
    2
}

// The steps one behind the other, each before EXIT with Jump 0: keeps the labels with the places behind them, and the numbers
// of the jumps.
#[cycle(units)]
fn write_steps(
    alloc: Global,
    program: &View,
    id: NodeId,
    parts: &[NodeId],
    place: u32,
    placed: &mut Vec<(u32, u32)>,
    jumps: &mut Vec<u32>,
    out: &mut Writer,
)
    requires between { AllBetween id (length program.now.of.now.tree.nodes) parts.now }
    requires no_labels { placed.old.items ≡ [] }
    requires no_jumps { jumps.old.items ≡ [] }
    ensures writes { Wrote out.old out.new (step_stretches place 0 (steps_of program.now.of.now (behind id (laid_of program.now)) [] parts.now) (length out.old.list)) }
    ensures labels { out.new.stop ≡ None → placed.new.items ≡ label_places (steps_of program.now.of.now (behind id (laid_of program.now)) [] parts.now) (length out.old.list) }
    ensures jumps { out.new.stop ≡ None → jumps.new.items ≡ exit_jumps (steps_of program.now.of.now (behind id (laid_of program.now)) [] parts.now) (length out.old.list) }
{
    let mut at = 0;
    while at + 1 < parts.len() {
        at += write_step(
            alloc,
            program,
            id,
            parts[at],
            parts[at + 1],
            place,
            placed,
            jumps,
            out,
        );
    }
    if at >= parts.len() {
        return;
    }
    write_part(alloc, program, id, parts[at], out);
}

// [steps], with Jump to the end behind each before EXIT. The program is seen from within the clause.
#[cycle(units)]
fn steps(alloc: Global, program: &View, id: NodeId, parts: &[NodeId], place: u32, out: &mut Writer)
    requires { AllBetween id (length program.now.of.now.tree.nodes) parts.now }
    ensures { Wrote out.old out.new (stretch (trees.labelled place (steps_of program.now.of.now (behind id (laid_of program.now)) [] parts.now)) (length out.old.list)) }
{
    let mut placed = Vec::new(alloc);
    let mut jumps = Vec::new(alloc);
    let from = out.len();
    write_steps(
        alloc,
        program,
        id,
        parts,
        place,
        &mut placed,
        &mut jumps,
        out,
    );
    let end = out.len();
    out.patch_all(&jumps, end);
    match Labels::new(alloc, placed) {
        Ok(places) => out.settle(from, &places),
        Err(_) => out.run_out(),
    }
}

/// A serial clause with labels: [steps], with Jump to the end behind each before EXIT. Jumps to its labels go to the steps
/// behind these.
#[cycle(units)]
#[inline(never)]
pub fn labelled(
    alloc: Global,
    program: &View,
    id: NodeId,
    parts: &[NodeId],
    place: u32,
    out: &mut Writer,
)
    requires between { AllBetween id (length program.now.of.now.tree.nodes) parts.now }
    requires are { parts_at program.now.of.now id ≡ parts.now }
    ensures { Wrote out.old out.new (stretch (lying program.now (trees.labelled place (steps_of program.now.of.now (behind id (tree_of program.now)) [] parts.now))) (length out.old.list)) }
{
    let Ok(clauses) = clauses_with(alloc, program, id) else {
        out.run_out();
        return;
    };
    let within = View {
        of: &*program.of,
        sight: program.sight,
        height: program.height,
        depth: program.depth,
        clauses: &clauses,
    };
    steps(alloc, &within, id, parts, place, out);
}
