//! Collateral clauses, selections and slices.
ghost use Rattle.a68_acts.specs.Operations as operations;
ghost use Rattle.std.specs.Prelude.{◌≡◌, ◌<◌, length, slice_get, Some};
ghost use Rattle.a68_elab.specs.Made as made;
ghost use Rattle.a68_elab.specs.Made.{trees_at};
ghost use Rattle.a68_elab.specs.Programs.{behind};
ghost use Rattle.a68_elab.specs.Trees as trees;
ghost use Rattle.a68_emit.specs.Listing.{stretch, stretches};
ghost use Rattle.a68_emit.specs.Views.{behind_values, laid_of, lying, rising, tree_of};
ghost use Rattle.a68_emit.specs.Writers.{Wrote};
ghost use Rattle.a68_modes.specs.Nodes.{shape_at};
ghost use Rattle.a68_tree.specs.Trees.{AllBetween};
ghost use Rattle.a68_tree.specs.declared.kind.NodeKind.TheVariants as kind;

use crate::rows::{all, last, operation, values, write_part};
use a68_annot::Note;
use a68_code::Does;
use a68_emit::{CollateralForm, View, Writer, form_at, forms_of, meaningless, mode_in_front};
use a68_modes::ModeId;
use a68_tree::{Node, NodeId};
use std::alloc::Global;

// [parts] Compose: a structure. There is no memory for more parts than an instruction can tell.
#[cycle(units)]
fn structure(
    alloc: Global,
    program: &View,
    id: NodeId,
    parts: &[NodeId],
    place: u32,
    out: &mut Writer,
)
    requires { AllBetween id (length program.now.of.now.tree.nodes) parts.now }
    ensures { let parts = rising program.now id parts.now in
        Wrote out.old out.new (stretch (trees.operation place (operations.compose (trees.count parts)) trees.collateral parts) (length out.old.list)) }
{
    match u32::try_from(parts.len()) {
        Ok(count) => operation(alloc, program, id, parts, place, Does::Compose(count), out),
        Err(_) => out.run_out(),
    }
}

// [parts] Display: a row. There is no memory for more parts than an instruction can tell.
#[cycle(units)]
fn row(
    alloc: Global,
    program: &View,
    id: NodeId,
    parts: &[NodeId],
    place: u32,
    mode: ModeId,
    out: &mut Writer,
)
    requires { AllBetween id (length program.now.of.now.tree.nodes) parts.now }
    ensures { let parts = rising program.now id parts.now in
        Wrote out.old out.new (stretch (trees.operation place (operations.display (trees.count parts) mode) trees.collateral parts) (length out.old.list)) }
{
    match u32::try_from(parts.len()) {
        Ok(count) => operation(
            alloc,
            program,
            id,
            parts,
            place,
            Does::Display { count, mode },
            out,
        ),
        Err(_) => out.run_out(),
    }
}

/// A collateral clause: of VOID [parts], of a structure [parts] Compose, of a row [parts] Display.
#[cycle(units)]
#[inline(never)]
pub fn collateral(
    alloc: Global,
    program: &View,
    id: NodeId,
    parts: &[NodeId],
    place: u32,
    note: &Note,
    out: &mut Writer,
)
    requires { AllBetween id (length program.now.of.now.tree.nodes) parts.now }
    ensures { Wrote out.old out.new (stretch (lying program.now (made.collateral_of (shape_at program.now.of.now.modes note.now.goal) place note.now.goal (trees_at (behind id (tree_of program.now)) parts.now)))
        (length out.old.list)) }
{
    match form_at(program, note.goal) {
        CollateralForm::Void => all(alloc, program, id, parts, out),
        CollateralForm::Structure => structure(alloc, program, id, parts, place, out),
        CollateralForm::Row => row(alloc, program, id, parts, place, note.goal, out),
        CollateralForm::Other => meaningless(out),
    }
}

/// [structure] Select: a field, or the name of one. There is no memory for more fields than an instruction can tell.
#[cycle(units)]
#[inline(never)]
pub fn selection(
    alloc: Global,
    program: &View,
    id: NodeId,
    node: &Node,
    place: u32,
    out: &mut Writer,
)
    requires between { AllBetween id (length program.now.of.now.tree.nodes) node.now.parts }
    requires there { id < length program.now.of.now.tree.nodes }
    requires is { slice_get program.now.of.now.tree.nodes id ≡ Some node.now }
    requires selects { node.now.kind ≡ kind.Selection }
    ensures { Wrote out.old out.new (stretch (made.selection_of program.now.of.now.modes place (made.first_goal program.now.of.now node.now.parts) node.now.name
        (trees_at (behind id (laid_of program.now)) node.now.parts)) (length out.old.list)) }
{
    let parts = program.of.parts(id);
    let mode = mode_in_front(program, parts);
    match u32::try_from(program.of.field(id)) {
        Ok(field) => {
            last(alloc, program, id, parts, out);
            out.emit(place, Does::Select { mode, field });
        }
        Err(_) => out.run_out(),
    }
}

// The units of an index: [units]; gives how a program is seen from over their values.
#[cycle(units)]
fn write_index<'a>(
    alloc: Global,
    program: &View<'a>,
    id: NodeId,
    index: NodeId,
    out: &mut Writer,
) -> View<'a>
    requires { (id < index) × (index < length program.now.of.now.tree.nodes) }
    ensures writes { Wrote out.old out.new (stretches (rising program.now id (made.parts_at program.now.of.now index)) (length out.old.list)) }
    ensures over { result ≡ behind_values program.now (made.parts_at program.now.of.now index) }
{
    values(alloc, program, id, program.of.parts(index), out)
}

// [units] of each index, in order.
#[cycle(units)]
fn write_indexes(alloc: Global, program: &View, id: NodeId, indexes: &[NodeId], out: &mut Writer)
    requires { AllBetween id (length program.now.of.now.tree.nodes) indexes.now }
    ensures { Wrote out.old out.new (stretches (rising program.now id (made.index_units program.now.of.now indexes.now)) (length out.old.list)) }
{
    let mut over = *program;
    for index in indexes {
        over = write_index(alloc, &over, id, *index, out);
    }
}

/// [primary] [units] Slice: an element or a part of a row.
#[cycle(units)]
#[inline(never)]
pub fn slice(
    alloc: Global,
    program: &View,
    id: NodeId,
    parts: &[NodeId],
    place: u32,
    out: &mut Writer,
)
    requires { AllBetween id (length program.now.of.now.tree.nodes) parts.now }
    ensures { Wrote out.old out.new (stretch (lying program.now (made.slice_of program.now.of.now (behind id (tree_of program.now)) place parts.now)) (length out.old.list)) }
{
    if parts.len() == 0 {
        meaningless(out);
        return;
    }
    let indexes = &parts[1..];
    let Ok(forms) = forms_of(alloc, program, indexes) else {
        out.run_out();
        return;
    };
    write_part(alloc, program, id, parts[0], out);
    write_indexes(alloc, &program.raised(), id, indexes, out);
    out.emit(place, Does::Slice(forms));
}
