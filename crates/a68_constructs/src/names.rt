//! New names, with their bounds.
ghost use Rattle.std.specs.Prelude.{◌≡◌, ◌<◌, ◌&&◌, nat_lt, length, false, true};
ghost use Rattle.a68_elab.specs.Made as made;
ghost use Rattle.a68_elab.specs.Programs as programs;
ghost use Rattle.a68_elab.specs.Made.{trees_at};
ghost use Rattle.a68_elab.specs.Programs.{behind};
ghost use Rattle.a68_elab.specs.declared.sight.Sight.TheVariants as sights;
ghost use Rattle.a68_emit.specs.Listing.{stretch, stretches};
ghost use Rattle.a68_constructs.specs.Sources.{assigned_tree, named};
ghost use Rattle.a68_emit.specs.Views.{bound_of, laid_of, lying, raised, rising_bounds, tree_of};
ghost use Rattle.a68_emit.specs.Writers.{Wrote};
ghost use Rattle.a68_modes.specs.Nodes.{shape_at};
ghost use Rattle.a68_tree.specs.Trees.{AllBetween};

use crate::rows::{unit, write_part};
use a68_annot::Note;
use a68_code::Does;
use a68_elab::{Bound, Sight};
use a68_emit::{View, Writer, is_heap, meaningless, new_does, push_int};
use a68_modes::ModeId;
use a68_parts::{begins_in_heap, begins_with_declarer, behind_heap, behind_ref};
use a68_runs::bounds_of;
use a68_tree::{Node, NodeId};
use std::alloc::Global;

// Does a node stand behind another one?
fn stands_behind(program: &View, id: NodeId, other: NodeId) -> bool
    ensures { result ≡ (nat_lt id other && nat_lt other (length program.now.of.now.tree.nodes)) }
{
    let count = program.of.len();
    id < other && other < count
}

// A bound that is written: [bound]. One that does not stand behind its construct stands for none. No annotated tree has one.
#[cycle(units)]
fn write_written(alloc: Global, program: &View, id: NodeId, bound: NodeId, out: &mut Writer)
    ensures { Wrote out.old out.new (stretch (behind id (laid_of program.now) bound) (length out.old.list)) }
{
    if stands_behind(program, id, bound) {
        write_part(alloc, program, id, bound, out);
    } else {
        meaningless(out);
    }
}

// A bound of a definition that stands so many frames further out than where it is elaborated: [bound], as it is seen there.
#[cycle(units)]
fn write_outside(alloc: Global, program: &View, frames: u32, bound: NodeId, out: &mut Writer)
    ensures { Wrote out.old out.new (stretch (lying program.now (programs.defined_bound program.now.of.now sights.Here frames bound)) (length out.old.list)) }
{
    if bound >= program.of.len() {
        meaningless(out);
        return;
    }
    let bytes = program.of.node(bound).span;
    let within = View {
        of: program.of,
        sight: Sight::Within { frames, bytes },
        height: program.height,
        depth: program.depth,
        clauses: program.clauses,
    };
    unit(alloc, &within, bound, out);
}

// A bound of a definition: [bound]. Within such a bound no other is elaborated, and Push of 0 stands in its place.
#[cycle(units)]
fn write_defined(alloc: Global, program: &View, frames: u32, bound: NodeId, out: &mut Writer)
    ensures { Wrote out.old out.new (stretch (lying program.now (bound_of program.now frames bound)) (length out.old.list)) }
{
    match program.sight {
        Sight::Here => write_outside(alloc, program, frames, bound, out),
        Sight::Within { .. } => out.emit(0, push_int(0)),
    }
}

// A bound: [bound], or Push of what is meant.
#[cycle(units)]
fn write_bound(
    alloc: Global,
    program: &View,
    id: NodeId,
    bound: Bound,
    place: u32,
    out: &mut Writer,
)
    ensures { Wrote out.old out.new (stretch (lying program.now (made.bound_tree (bound_of program.now) (behind id (tree_of program.now)) place bound)) (length out.old.list)) }
{
    match bound {
        Bound::Written(bound) => write_written(alloc, program, id, bound, out),
        Bound::Meant(value) => out.emit(place, push_int(i64::from(value))),
        Bound::Defined { frames, id } => write_defined(alloc, program, frames, id, out),
    }
}

// [bounds], each over the values of those before it.
#[cycle(units)]
fn write_bounds(
    alloc: Global,
    program: &View,
    id: NodeId,
    bounds: &[Bound],
    place: u32,
    out: &mut Writer,
)
    ensures { Wrote out.old out.new (stretches (rising_bounds program.now id place bounds.now) (length out.old.list)) }
{
    let mut over = *program;
    for bound in bounds {
        write_bound(alloc, &over, id, *bound, place, out);
        over = over.raised();
    }
}

// [bounds] Make, or Heap. There is no memory for more bounds than an instruction can tell.
#[cycle(units)]
fn bounded(
    alloc: Global,
    program: &View,
    id: NodeId,
    bounds: &[Bound],
    place: u32,
    in_heap: bool,
    mode: ModeId,
    out: &mut Writer,
)
    ensures { Wrote out.old out.new (stretch (lying program.now (made.new_name in_heap place mode (made.bound_trees (bound_of program.now) (behind id (tree_of program.now)) place bounds.now))) (length out.old.list)) }
{
    match u32::try_from(bounds.len()) {
        Ok(count) => {
            write_bounds(alloc, program, id, bounds, place, out);
            out.emit(place, new_does(in_heap, mode, count));
        }
        Err(_) => out.run_out(),
    }
}

// A new name, with the bounds of the first of these nodes, where it is a declarer: [bounds] Make, or Heap.
#[cycle(units)]
fn new_name(
    alloc: Global,
    program: &View,
    id: NodeId,
    parts: &[NodeId],
    place: u32,
    in_heap: bool,
    mode: ModeId,
    out: &mut Writer,
)
    ensures { Wrote out.old out.new (stretch (lying program.now (named program.now.of.now (bound_of program.now) (behind id (tree_of program.now)) in_heap place mode parts.now)) (length out.old.list)) }
{
    let Ok(bounds) = bounds_of(alloc, program.of.annotated(), parts) else {
        out.run_out();
        return;
    };
    bounded(alloc, program, id, &bounds, place, in_heap, mode, out);
}

/// A generator: [bounds] Make, or Heap where it says so.
#[cycle(units)]
#[inline(never)]
pub fn generator(
    alloc: Global,
    program: &View,
    id: NodeId,
    node: &Node,
    note: &Note,
    out: &mut Writer,
)
    requires { node.now.name < length program.now.of.now.tree.spellings }
    ensures { Wrote out.old out.new (stretch (lying program.now (named program.now.of.now (bound_of program.now) (behind id (tree_of program.now)) (made.is_one_of made.heaps (made.spelling_of program.now.of.now node.now))
        node.now.span.from (made.behind_ref (shape_at program.now.of.now.modes note.now.mode)) node.now.parts)) (length out.old.list)) }
{
    let in_heap = is_heap(program, node);
    let mode = behind_ref(program.of.modes(), note.mode);
    new_name(
        alloc,
        program,
        id,
        &node.parts.items,
        node.span.from,
        in_heap,
        mode,
        out,
    );
}

// [bounds] Make, or Heap; [source] Store; Bind.
#[cycle(units)]
fn assigned(
    alloc: Global,
    program: &View,
    id: NodeId,
    parts: &[NodeId],
    source: NodeId,
    place: u32,
    in_heap: bool,
    note: &Note,
    out: &mut Writer,
)
    requires { (id < source) × (source < length program.now.of.now.tree.nodes) }
    ensures { Wrote out.old out.new (stretch (let mode = made.behind_ref (shape_at program.now.of.now.modes note.now.mode) in
        assigned_tree (lying program.now (named program.now.of.now (bound_of program.now) (behind id (tree_of program.now)) in_heap place mode parts.now)) place mode note.now.step.slot (behind id (laid_of (raised program.now)) source)) (length out.old.list)) }
{
    let mode = behind_ref(program.of.modes(), note.mode);
    new_name(alloc, program, id, parts, place, in_heap, mode, out);
    write_part(alloc, &program.raised(), id, source, out);
    out.emit(place, Does::Store(mode));
    out.emit(place, Does::Bind(note.step.slot));
}

// A variable that a routine text begins, which is its source.
#[cycle(units)]
fn begun(
    alloc: Global,
    program: &View,
    id: NodeId,
    parts: &[NodeId],
    place: u32,
    in_heap: bool,
    note: &Note,
    out: &mut Writer,
)
    requires { AllBetween id (length program.now.of.now.tree.nodes) parts.now }
    ensures { let mode = made.behind_ref (shape_at program.now.of.now.modes note.now.mode) in
        Wrote out.old out.new (stretch (lying program.now (made.variable_of (named program.now.of.now (bound_of program.now) (behind id (tree_of program.now)) in_heap place mode parts.now) false place mode note.now.step.slot
        (trees_at (behind id (tree_of program.now)) parts.now))) (length out.old.list)) }
{
    if parts.len() != 1 {
        meaningless(out);
        return;
    }
    assigned(
        alloc, program, id, parts, parts[0], place, in_heap, note, out,
    );
}

// A variable that a declarer begins: [bounds] Make, or Heap; with a source [source] Store; Bind.
#[cycle(units)]
fn declared(
    alloc: Global,
    program: &View,
    id: NodeId,
    parts: &[NodeId],
    place: u32,
    in_heap: bool,
    note: &Note,
    out: &mut Writer,
)
    requires { AllBetween id (length program.now.of.now.tree.nodes) parts.now }
    ensures { let mode = made.behind_ref (shape_at program.now.of.now.modes note.now.mode) in
        Wrote out.old out.new (stretch (lying program.now (made.variable_of (named program.now.of.now (bound_of program.now) (behind id (tree_of program.now)) in_heap place mode parts.now) true place mode note.now.step.slot
        (trees_at (behind id (tree_of program.now)) parts.now))) (length out.old.list)) }
{
    if parts.len() == 1 {
        let mode = behind_ref(program.of.modes(), note.mode);
        new_name(alloc, program, id, parts, place, in_heap, mode, out);
        out.emit(place, Does::Bind(note.step.slot));
        return;
    }
    if parts.len() != 2 {
        meaningless(out);
        return;
    }
    assigned(
        alloc, program, id, parts, parts[1], place, in_heap, note, out,
    );
}

// A variable of these parts, in the heap where HEAP stands before its declarer.
#[cycle(units)]
fn variable_of(
    alloc: Global,
    program: &View,
    id: NodeId,
    parts: &[NodeId],
    place: u32,
    note: &Note,
    out: &mut Writer,
)
    requires { AllBetween id (length program.now.of.now.tree.nodes) parts.now }
    ensures { Wrote out.old out.new (stretch (lying program.now (made.variable program.now.of.now (bound_of program.now) (behind id (tree_of program.now)) place (made.behind_ref (shape_at program.now.of.now.modes note.now.mode))
        note.now.step.slot parts.now)) (length out.old.list)) }
{
    let in_heap = begins_in_heap(program.of.annotated(), id, parts);
    let rest = behind_heap(in_heap, parts);
    if begins_with_declarer(program.of.annotated(), id, rest) {
        declared(alloc, program, id, rest, place, in_heap, note, out);
    } else {
        begun(alloc, program, id, rest, place, in_heap, note, out);
    }
}

/// A variable.
#[cycle(units)]
#[inline(never)]
pub fn variable(
    alloc: Global,
    program: &View,
    id: NodeId,
    node: &Node,
    note: &Note,
    out: &mut Writer,
)
    requires { AllBetween id (length program.now.of.now.tree.nodes) node.now.parts }
    ensures { Wrote out.old out.new (stretch (lying program.now (made.variable program.now.of.now (bound_of program.now) (behind id (tree_of program.now)) node.now.span.from
        (made.behind_ref (shape_at program.now.of.now.modes note.now.mode)) note.now.step.slot node.now.parts)) (length out.old.list)) }
{
    variable_of(
        alloc,
        program,
        id,
        &node.parts.items,
        node.span.from,
        note,
        out,
    );
}
