//! Formulas and calls.
ghost use Rattle.a68_acts.specs.Operations as operations;
ghost use Rattle.std.specs.Prelude.{◌<◌, ◌∷◌, ◌++◌, [], not, length};
ghost use Rattle.a68_elab.specs.Made as made;
ghost use Rattle.a68_elab.specs.Made.{trees_at};
ghost use Rattle.a68_elab.specs.Programs.{behind};
ghost use Rattle.a68_elab.specs.Trees as trees;
ghost use Rattle.a68_elab.specs.Trees.{◌and_tree◌};
ghost use Rattle.a68_emit.specs.Listing.{instr, stretch, stretches};
ghost use Rattle.a68_emit.specs.Views.{lying, note_of, raised, rising, tree_of};
ghost use Rattle.a68_emit.specs.Writers.{Wrote};
ghost use Rattle.a68_modes.specs.Nodes.{shape_at, is_void};
ghost use Rattle.a68_tree.specs.Trees.{AllBetween};

use crate::rows::{operation, values};
use a68_annot::Note;
use a68_code::Does;
use a68_emit::{View, Writer, hops, meaningless};
use a68_parts::{called, is_one_of, items_at, printers, wholes};
use a68_tree::NodeId;
use std::alloc::Global;

// Tag [operands] Call. There is no memory for more operands than an instruction can tell.
#[cycle(units)]
fn applied(
    alloc: Global,
    program: &View,
    id: NodeId,
    parts: &[NodeId],
    place: u32,
    note: &Note,
    out: &mut Writer,
)
    requires { AllBetween id (length program.now.of.now.tree.nodes) parts.now }
    ensures { Wrote out.old out.new (stretch (trees.call place (not (is_void (shape_at program.now.of.now.modes note.now.mode)))
        (made.leaf place (operations.tag (made.hops_seen program.now.of.now program.now.sight note.now) note.now.step.slot) and_tree rising (raised program.now) id parts.now)) (length out.old.list)) }
{
    let gives = !program.of.is_void(note.mode);
    match u32::try_from(parts.len()) {
        Ok(count) => {
            out.emit(
                place,
                Does::Tag {
                    hops: hops(program, note),
                    slot: note.step.slot,
                },
            );
            let call = Does::Call { count, gives };
            operation(alloc, &program.raised(), id, parts, place, call, out)
        }
        Err(_) => out.run_out(),
    }
}

// A formula whose operator the text defines.
#[cycle(units)]
#[inline(never)]
fn declared_formula(
    alloc: Global,
    program: &View,
    id: NodeId,
    parts: &[NodeId],
    place: u32,
    note: &Note,
    out: &mut Writer,
)
    requires { AllBetween id (length program.now.of.now.tree.nodes) parts.now }
    ensures { Wrote out.old out.new (stretch (lying program.now (made.declared_formula place (not (is_void (shape_at program.now.of.now.modes note.now.mode))) (note_of program.now note.now) note.now.definition
        (trees_at (behind id (tree_of program.now)) parts.now))) (length out.old.list)) }
{
    match note.definition {
        Some(_) => applied(alloc, program, id, parts, place, note, out),
        None => meaningless(out),
    }
}

// Apply.
#[inline(never)]
fn apply(place: u32, row: u32, out: &mut Writer)
    ensures { Wrote out.old out.new (instr place (Does.Apply row) ∷ []) }
{
    out.emit(place, Does::Apply(row));
}

// [operands] Apply.
#[cycle(units)]
#[inline(never)]
fn standard_formula(
    alloc: Global,
    program: &View,
    id: NodeId,
    parts: &[NodeId],
    place: u32,
    row: u32,
    out: &mut Writer,
)
    requires { AllBetween id (length program.now.of.now.tree.nodes) parts.now }
    ensures { Wrote out.old out.new (stretches (rising program.now id parts.now) (length out.old.list) ++ instr place (Does.Apply row) ∷ []) }
{
    values(alloc, program, id, parts, out);
    apply(place, row, out);
}

/// [operands] Apply, or a call of the operator.
#[cycle(units)]
#[inline(never)]
pub fn formula(
    alloc: Global,
    program: &View,
    id: NodeId,
    parts: &[NodeId],
    place: u32,
    note: &Note,
    out: &mut Writer,
)
    requires { AllBetween id (length program.now.of.now.tree.nodes) parts.now }
    ensures { Wrote out.old out.new (stretch (lying program.now (made.formula place (not (is_void (shape_at program.now.of.now.modes note.now.mode))) (note_of program.now note.now)
        (trees_at (behind id (tree_of program.now)) parts.now))) (length out.old.list)) }
{
    match note.op {
        Some(row) => standard_formula(alloc, program, id, parts, place, row, out),
        None => declared_formula(alloc, program, id, parts, place, note, out),
    }
}

// [items] Print. There is no memory for more items than an instruction can tell.
#[cycle(units)]
fn prints(alloc: Global, program: &View, id: NodeId, items: &[NodeId], place: u32, out: &mut Writer)
    requires { AllBetween id (length program.now.of.now.tree.nodes) items.now }
    ensures { Wrote out.old out.new (stretch (trees.operation place operations.print trees.collateral (rising program.now id items.now)) (length out.old.list)) }
{
    match u32::try_from(items.len()) {
        Ok(count) => operation(alloc, program, id, items, place, Does::Print(count), out),
        Err(_) => out.run_out(),
    }
}

// [primary] [parameters] Call. There is no memory for more parameters than an instruction can tell.
#[cycle(units)]
fn routine(
    alloc: Global,
    program: &View,
    id: NodeId,
    parts: &[NodeId],
    place: u32,
    note: &Note,
    out: &mut Writer,
)
    requires between { AllBetween id (length program.now.of.now.tree.nodes) parts.now }
    requires some { 0 < length parts.now }
    ensures { Wrote out.old out.new (stretch (trees.call place (not (is_void (shape_at program.now.of.now.modes note.now.mode)))
        (rising program.now id parts.now)) (length out.old.list)) }
{
    let gives = !program.of.is_void(note.mode);
    match u32::try_from(parts.len() - 1) {
        Ok(count) => {
            let call = Does::Call { count, gives };
            operation(alloc, program, id, parts, place, call, out)
        }
        Err(_) => out.run_out(),
    }
}

/// [items] Print; [number] [width] Whole; or a call of a routine. What is called of the standard environ leaves nothing.
#[cycle(units)]
#[inline(never)]
pub fn call(
    alloc: Global,
    program: &View,
    id: NodeId,
    parts: &[NodeId],
    place: u32,
    note: &Note,
    out: &mut Writer,
)
    requires { AllBetween id (length program.now.of.now.tree.nodes) parts.now }
    ensures { Wrote out.old out.new (stretch (lying program.now (made.call_of program.now.of.now (behind id (tree_of program.now)) place (not (is_void (shape_at program.now.of.now.modes note.now.mode))) parts.now))
        (length out.old.list)) }
{
    if parts.len() == 0 {
        meaningless(out);
        return;
    }
    let tree = program.of.annotated();
    let name = called(tree, parts[0]);
    let rest = &parts[1..];
    let is_print = is_one_of(printers(), name);
    if is_print {
        let items = items_at(tree, id, rest);
        prints(alloc, program, id, items, place, out);
        return;
    }
    let is_whole = is_one_of(wholes(), name);
    if is_whole {
        operation(alloc, program, id, rest, place, Does::Whole, out);
        return;
    }
    routine(alloc, program, id, parts, place, note, out);
}
