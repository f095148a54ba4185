//! The instructions of constructs. Above each function stands what it writes: `[x]` is what the part x writes.
ghost use Rattle.a68_acts.specs.Operations as operations;
ghost use Rattle.std.specs.Prelude.{◌≡◌, ◌<◌, ◌∷◌, ◌++◌, [], Some, length, not, slice_get};
ghost use Rattle.a68_elab.specs.Made as made;
ghost use Rattle.a68_elab.specs.Made.{trees_at};
ghost use Rattle.a68_elab.specs.Programs.{behind};
ghost use Rattle.a68_elab.specs.Trees as trees;
ghost use Rattle.a68_emit.specs.Listing.{instr, stretch, stretches};
ghost use Rattle.a68_emit.specs.Stretches.{does_of};
ghost use Rattle.a68_emit.specs.Views.{behind_values, bound_of, laid_of, lying, note_of, rising, tree_of};
ghost use Rattle.a68_emit.specs.Writers.{Wrote};
ghost use Rattle.a68_modes.specs.Nodes.{shape_at, is_void};
ghost use Rattle.a68_tree.specs.Trees.{AllBetween};

use crate::calls::{call, formula};
use crate::choices::{case, conditional};
use crate::conformity::conformity;
use crate::names::{generator, variable};
use crate::parts::{collateral, selection, slice};
use crate::steps::labelled;
use crate::turns::repeat;
use a68_annot::Note;
use a68_code::Does;
use a68_emit::{
    View, Writer, are_built, coerce, denotation, jump, leave, long_denotation, meaningless, misfit,
    nothing, parallel, same, store, tag,
};
use a68_modes::ModeId;
use a68_parts::is_labelled;
use a68_tree::{Node, NodeId, NodeKind};
use std::alloc::Global;

/// Writes a unit and its coercions: [construct] coercions; or a misfit, where it does not leave what is asked of it. Once
/// writing has stopped, nothing is looked at any more.
#[cycle(units)]
pub fn unit(alloc: Global, program: &View, id: NodeId, out: &mut Writer)
    requires { id < length program.now.of.now.tree.nodes }
    ensures { Wrote out.old out.new (stretch (laid_of program.now id) (length out.old.list)) }
{
    if out.has_stopped() {
        return;
    }
    let node = program.of.node(id);
    let note = program.of.note(id);
    let Ok(is_run) = program.of.runs(id) else {
        out.run_out();
        return;
    };
    if !is_run {
        misfit(node.span.from, program.of.asks_value(id), out);
        return;
    }
    if !are_built(program.of.modes(), note) {
        meaningless(out);
        return;
    }
    construct(alloc, program, id, node, note, out);
    coerce(program.of.modes(), node.span.from, note, out);
}

// The instructions of units without parts stand in functions of their own, so that a unit within many others needs little
// of the stack.

// Skip.
#[inline(never)]
fn skip(place: u32, goal: ModeId, out: &mut Writer)
    ensures { Wrote out.old out.new (instr place (Does.Skip goal) ∷ []) }
{
    out.emit(place, Does::Skip(goal));
}

// Nil.
#[inline(never)]
fn nil(place: u32, out: &mut Writer)
    ensures { Wrote out.old out.new (instr place Does.Nil ∷ []) }
{
    out.emit(place, Does::Nil);
}

// Vacuum.
#[inline(never)]
fn vacuum(place: u32, goal: ModeId, out: &mut Writer)
    ensures { Wrote out.old out.new (instr place (Does.Vacuum goal) ∷ []) }
{
    out.emit(place, Does::Vacuum(goal));
}

// Routine.
#[inline(never)]
fn routine_text(program: &View, place: u32, note: &Note, out: &mut Writer)
    requires { place < made.behind_all program.now.of.now.tree.nodes }
    ensures { Wrote out.old out.new (instr place (Does.Routine (made.text_number program.now.of.now place) note.now.need) ∷ []) }
{
    let text = program.of.text_number(place);
    out.emit(
        place,
        Does::Routine {
            text,
            distance: note.need,
        },
    );
}

// Tag, or Push the value of the standard environ.
#[inline(never)]
fn applied_tag(program: &View, node: &Node, note: &Note, out: &mut Writer)
    requires { node.now.name < length program.now.of.now.tree.spellings }
    ensures { Wrote out.old out.new (instr node.now.span.from (does_of (made.tag_of (made.standard_of note.now.definition (made.spelling_of program.now.of.now node.now))
        (made.hops_seen program.now.of.now program.now.sight note.now) note.now.step.slot) 0) ∷ []) }
{
    out.emit(node.span.from, tag(program, node, note));
}

// [destination] [source] Store.
#[cycle(units)]
#[inline(never)]
fn assignation(
    alloc: Global,
    program: &View,
    id: NodeId,
    parts: &[NodeId],
    place: u32,
    note: &Note,
    out: &mut Writer,
)
    requires { AllBetween id (length program.now.of.now.tree.nodes) parts.now }
    ensures { Wrote out.old out.new (stretches (rising program.now id parts.now) (length out.old.list)
        ++ instr place (Does.Store (made.behind_ref (shape_at program.now.of.now.modes note.now.mode))) ∷ []) }
{
    let does = store(program, note);
    operation(alloc, program, id, parts, place, does, out);
}

// [one] [other] Same.
#[cycle(units)]
#[inline(never)]
fn identity(
    alloc: Global,
    program: &View,
    id: NodeId,
    parts: &[NodeId],
    place: u32,
    node: &Node,
    out: &mut Writer,
)
    requires between { AllBetween id (length program.now.of.now.tree.nodes) parts.now }
    requires named { node.now.name < length program.now.of.now.tree.spellings }
    ensures { Wrote out.old out.new (stretches (rising program.now id parts.now) (length out.old.list)
        ++ instr place (Does.Same (made.negated (made.is_one_of made.isnt (made.spelling_of program.now.of.now node.now)))) ∷ []) }
{
    let does = same(program, node);
    operation(alloc, program, id, parts, place, does, out);
}

/// One of the parts of a node.
#[cycle(units)]
pub fn write_part(alloc: Global, program: &View, id: NodeId, part: NodeId, out: &mut Writer)
    requires { (id < part) × (part < length program.now.of.now.tree.nodes) }
    ensures { Wrote out.old out.new (stretch (behind id (laid_of program.now) part) (length out.old.list)) }
{
    unit(alloc, program, part, out);
}

// One row for each kind of node that runs.
#[cycle(units)]
fn construct(alloc: Global, program: &View, id: NodeId, node: &Node, note: &Note, out: &mut Writer)
    requires there { id < length program.now.of.now.tree.nodes }
    requires is { slice_get program.now.of.now.tree.nodes id ≡ Some node.now }
    requires between { AllBetween id (length program.now.of.now.tree.nodes) node.now.parts }
    requires named { node.now.name < length program.now.of.now.tree.spellings }
    requires begins { node.now.span.from < made.behind_all program.now.of.now.tree.nodes }
    ensures { Wrote out.old out.new (stretch (lying program.now (made.made program.now.of.now (bound_of program.now) (behind id (tree_of program.now)) node.now (note_of program.now note.now) node.now.kind)) (length out.old.list)) }
{
    let place = node.span.from;
    let parts = &node.parts.items;
    match node.kind {
        NodeKind::Denotation => denotation(alloc, program, node, out),
        NodeKind::LongDenotation => long_denotation(program, node, out),
        NodeKind::Skip => skip(place, note.goal, out),
        NodeKind::Nil => nil(place, out),
        NodeKind::RoutineText => routine_text(program, place, note, out),
        NodeKind::Tag => applied_tag(program, node, note, out),
        NodeKind::Monadic | NodeKind::Dyadic => {
            formula(alloc, program, id, parts, place, note, out)
        }
        NodeKind::Assignation => assignation(alloc, program, id, parts, place, note, out),
        NodeKind::Identity => identity(alloc, program, id, parts, place, node, out),
        NodeKind::Generator => generator(alloc, program, id, node, note, out),
        NodeKind::OpDefinition | NodeKind::IdentityDefinition => {
            definition(alloc, program, id, parts, place, note, out)
        }
        NodeKind::Variable => variable(alloc, program, id, node, note, out),
        NodeKind::ModeDefinition | NodeKind::Priority => nothing(out),
        NodeKind::Joined => all(alloc, program, id, parts, out),
        NodeKind::Collateral => collateral(alloc, program, id, parts, place, note, out),
        NodeKind::Vacuum => vacuum(place, note.goal, out),
        NodeKind::Slice => slice(alloc, program, id, parts, place, out),
        NodeKind::Selection => selection(alloc, program, id, node, place, out),
        NodeKind::Call => call(alloc, program, id, parts, place, note, out),
        NodeKind::Cast => last(alloc, program, id, parts, out),
        NodeKind::Serial => clause(alloc, program, id, parts, place, note, out),
        NodeKind::GoTo => go_to(program, place, note, out),
        NodeKind::Closed
        | NodeKind::Out
        | NodeKind::From
        | NodeKind::By
        | NodeKind::To
        | NodeKind::Lower
        | NodeKind::Upper
        | NodeKind::At
        | NodeKind::While => only(alloc, program, id, parts, out),
        NodeKind::Conditional => conditional(alloc, program, id, parts, place, note.goal, out),
        NodeKind::Case => case(alloc, program, id, parts, place, note.goal, out),
        NodeKind::Conformity => conformity(alloc, program, id, parts, place, note.goal, out),
        NodeKind::Loop => repeat(alloc, program, id, parts, place, out),
        NodeKind::Parallel => parallel(alloc, program, id, parts, place, out),
        _ => meaningless(out),
    }
}

/// [parts], one behind the other.
#[cycle(units)]
#[inline(never)]
pub fn all(alloc: Global, program: &View, id: NodeId, parts: &[NodeId], out: &mut Writer)
    requires { AllBetween id (length program.now.of.now.tree.nodes) parts.now }
    ensures { Wrote out.old out.new (stretches (trees_at (behind id (laid_of program.now)) parts.now) (length out.old.list)) }
{
    for part in parts {
        write_part(alloc, program, id, *part, out);
    }
}

/// [parts], each over the values of those before it; gives how a program is seen from over all of them.
#[cycle(units)]
#[inline(never)]
pub fn values<'a>(
    alloc: Global,
    program: &View<'a>,
    id: NodeId,
    parts: &[NodeId],
    out: &mut Writer,
) -> View<'a>
    requires { AllBetween id (length program.now.of.now.tree.nodes) parts.now }
    ensures writes { Wrote out.old out.new (stretches (rising program.now id parts.now) (length out.old.list)) }
    ensures over { result ≡ behind_values program.now parts.now }
{
    let mut over = *program;
    for part in parts {
        write_part(alloc, &over, id, *part, out);
        over = over.raised();
    }
    over
}

/// [parts], and the instruction that takes their values.
#[cycle(units)]
#[inline(never)]
pub fn operation(
    alloc: Global,
    program: &View,
    id: NodeId,
    parts: &[NodeId],
    place: u32,
    does: Does,
    out: &mut Writer,
)
    requires { AllBetween id (length program.now.of.now.tree.nodes) parts.now }
    ensures { Wrote out.old out.new (stretches (rising program.now id parts.now) (length out.old.list) ++ instr place does ∷ []) }
{
    values(alloc, program, id, parts, out);
    out.emit(place, does);
}

/// The last part: [part].
#[cycle(units)]
#[inline(never)]
pub fn last(alloc: Global, program: &View, id: NodeId, parts: &[NodeId], out: &mut Writer)
    requires { AllBetween id (length program.now.of.now.tree.nodes) parts.now }
    ensures { Wrote out.old out.new (stretch (made.last_tree (trees_at (behind id (laid_of program.now)) parts.now)) (length out.old.list)) }
{
    if parts.len() == 0 {
        meaningless(out);
        return;
    }
    write_part(alloc, program, id, parts[parts.len() - 1], out);
}

// [source] Bind.
#[cycle(units)]
#[inline(never)]
fn definition(
    alloc: Global,
    program: &View,
    id: NodeId,
    parts: &[NodeId],
    place: u32,
    note: &Note,
    out: &mut Writer,
)
    requires { AllBetween id (length program.now.of.now.tree.nodes) parts.now }
    ensures { Wrote out.old out.new (stretch (lying program.now (trees.operation place (operations.bind note.now.step.slot) trees.serial
        (made.only (made.last_tree (trees_at (behind id (tree_of program.now)) parts.now))))) (length out.old.list)) }
{
    last(alloc, program, id, parts, out);
    out.emit(place, Does::Bind(note.step.slot));
}

// [phrases]; with slots Enter [phrases] Leave.
#[cycle(units)]
#[inline(never)]
fn serial(
    alloc: Global,
    program: &View,
    id: NodeId,
    parts: &[NodeId],
    place: u32,
    note: &Note,
    out: &mut Writer,
)
    requires { AllBetween id (length program.now.of.now.tree.nodes) parts.now }
    ensures { Wrote out.old out.new (stretch (lying program.now (made.serial_of place note.now.slots (not (is_void (shape_at program.now.of.now.modes note.now.goal)))
        (trees_at (behind id (tree_of program.now)) parts.now))) (length out.old.list)) }
{
    if parts.len() == 0 {
        meaningless(out);
        return;
    }
    if note.slots == 0 {
        all(alloc, program, id, parts, out);
        return;
    }
    out.emit(place, Does::Enter(note.slots));
    all(alloc, &program.deeper(1), id, parts, out);
    out.emit(place, leave(program, note));
}

// [steps]; with slots Enter [steps] Leave.
#[cycle(units)]
#[inline(never)]
fn framed_steps(
    alloc: Global,
    program: &View,
    id: NodeId,
    parts: &[NodeId],
    place: u32,
    note: &Note,
    out: &mut Writer,
)
    requires between { AllBetween id (length program.now.of.now.tree.nodes) parts.now }
    requires are { made.parts_at program.now.of.now id ≡ parts.now }
    ensures { Wrote out.old out.new (stretch (lying program.now (made.framed place place note.now.slots (not (is_void (shape_at program.now.of.now.modes note.now.goal)))
        (trees.labelled place (made.steps_of program.now.of.now (behind id (tree_of program.now)) [] parts.now)))) (length out.old.list)) }
{
    if note.slots == 0 {
        labelled(alloc, program, id, parts, place, out);
        return;
    }
    out.emit(place, Does::Enter(note.slots));
    labelled(alloc, &program.deeper(1), id, parts, place, out);
    out.emit(place, leave(program, note));
}

// A serial clause, with labels or without.
#[cycle(units)]
#[inline(never)]
fn clause(
    alloc: Global,
    program: &View,
    id: NodeId,
    parts: &[NodeId],
    place: u32,
    note: &Note,
    out: &mut Writer,
)
    requires between { AllBetween id (length program.now.of.now.tree.nodes) parts.now }
    requires are { made.parts_at program.now.of.now id ≡ parts.now }
    ensures { Wrote out.old out.new (stretch (lying program.now (made.clause_of program.now.of.now (behind id (tree_of program.now)) place note.now.slots
        (not (is_void (shape_at program.now.of.now.modes note.now.goal))) parts.now)) (length out.old.list)) }
{
    if is_labelled(program.of.annotated(), parts) {
        framed_steps(alloc, program, id, parts, place, note, out);
    } else {
        serial(alloc, program, id, parts, place, note, out);
    }
}

// A jump to the label that its tag applies.
#[inline(never)]
fn go_to(program: &View, place: u32, note: &Note, out: &mut Writer)
    ensures { Wrote out.old out.new (stretch (lying program.now (made.jump_of place (not (is_void (shape_at program.now.of.now.modes note.now.goal))) note.now.definition)) (length out.old.list)) }
{
    match note.definition {
        Some(label) => jump(program, place, label, !program.of.is_void(note.goal), out),
        None => meaningless(out),
    }
}

// [part], the only one.
#[cycle(units)]
#[inline(never)]
fn only(alloc: Global, program: &View, id: NodeId, parts: &[NodeId], out: &mut Writer)
    requires { AllBetween id (length program.now.of.now.tree.nodes) parts.now }
    ensures { Wrote out.old out.new (stretch (lying program.now (made.only_of (trees_at (behind id (tree_of program.now)) parts.now))) (length out.old.list)) }
{
    if parts.len() != 1 {
        meaningless(out);
        return;
    }
    write_part(alloc, program, id, parts[0], out);
}
