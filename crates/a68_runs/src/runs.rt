//! Which nodes run: a function for each row of what is asked of a node.
ghost use Rattle.std.specs.Prelude.{◌≡◌, ◌<◌, length, IfOk, IfSome};
ghost use Rattle.std.specs.Option.{is_some, option_and_then};
ghost use Rattle.a68_elab.specs.Constants as constants;
ghost use Rattle.a68_elab.specs.Made as made;
ghost use Rattle.a68_elab.specs.Runs as runs;
ghost use Rattle.a68_parts.specs.Loops.{AreWithin};
ghost use Rattle.a68_parts.specs.Selecting.{AreSelected, selected};
ghost use Rattle.a68_runs.specs.Running.{AreThere, IsThere};
ghost use Rattle.a68_modes.specs.Nodes.{HoldsNodes, shape_at};
ghost use Rattle.a68_tree.specs.Trees.{AllBetween};

use crate::bounds::new_runs;
use crate::conformity::conformity_runs;
use crate::outcomes::{
    all_leave, are_phrases, are_steps, are_values, asks_value, if_so, is_outcome, is_row, is_there,
    last_outcome, leaves, only_outcome, outcome, outcome_by, parallel_runs, proc_yields, refers,
    yields_value,
};
use crate::paths::path_leaves;
use crate::slices::slice_runs;
use a68_annot::{Annotated, Note};
use a68_base::{NoMemory, find};
use a68_code::operands_of;
use a68_denote::{bits_of, int_of, long_of};
use a68_modes::{ModeId, Shape};
use a68_parts::{
    LoopParts, before_out, begins_in_heap, begins_with_declarer, behind_heap, called, fields_at,
    first_goal, is_one_of, is_quoted, items_at, loop_parts, only_id, out_of, printers, truths,
    wholes,
};
use a68_signs::operators;
use a68_tree::{Node, NodeId, NodeKind};
use std::alloc::Global;

// Does a spelling stand for a value?
fn has_value(text: &[u8]) -> bool
    ensures { result ≡ is_some (constants.value_in text.now) }
{
    if int_of(text).is_some() || bits_of(text).is_some() {
        return true;
    }
    find(truths(), text).is_some() || is_quoted(text)
}

// Does a spelling behind LONG stand for a value?
fn has_long_value(text: &[u8]) -> bool
    ensures { result ≡ is_some (constants.long_value_in text.now) }
{
    long_of(text).is_some()
}

// Does an operator run, by its row: is it one of the table?
fn applies(row: u32) -> bool
    ensures { result ≡ runs.applies row }
{
    operators::PLUSAB <= row && row <= operators::SHORTEN
}

// Does an operator leave a value, by its row: is it neither UP nor DOWN?
fn gives(row: u32) -> bool
    ensures { result ≡ runs.gives row }
{
    !(row == operators::UP || row == operators::DOWN)
}

// Does a formula run: a standard operator, on as many values as it takes?
fn formula_runs(program: &Annotated, row: u32, parts: &[NodeId]) -> bool
    ensures { result ≡ runs.formula_runs program.now row parts.now }
{
    applies(row) && are_values(program, operands_of(row) as usize, parts)
}

// What a formula leaves: a value, nothing behind UP and DOWN, or what the routine yields that its operator stands for.
fn formula_leaves(program: &Annotated, note: &Note, parts: &[NodeId]) -> Option<bool>
    ensures { result ≡ runs.formula_leaves program.now (runs.yields_value program.now note.now) note.now.op note.now.definition parts.now }
{
    match (note.op, note.definition) {
        (Some(row), _) => if_so(formula_runs(program, row, parts), gives(row)),
        (None, Some(_)) => if_so(all_leave(program, true, parts), yields_value(program, note)),
        (None, None) => None,
    }
}

// Does the source behind a declarer, if any, leave a value?
fn source_runs(program: &Annotated, parts: &[NodeId]) -> bool
    ensures { result ≡ runs.source_runs program.now parts.now }
{
    if parts.len() == 1 {
        return true;
    }
    parts.len() == 2 && leaves(program, true, parts[1])
}

// Does a routine text that stands without a declarer before it leave a value?
fn routine_runs(program: &Annotated, parts: &[NodeId]) -> bool
    ensures { result ≡ runs.routine_runs program.now parts.now }
{
    parts.len() == 1 && leaves(program, true, parts[0])
}

// Does what stands behind a new name run?
fn declared_runs(program: &Annotated, id: NodeId, parts: &[NodeId]) -> bool
    requires { AllBetween id (length program.now.tree.nodes) parts.now }
    ensures { result ≡ runs.declared_runs program.now parts.now }
{
    if begins_with_declarer(program, id, parts) {
        source_runs(program, parts)
    } else {
        routine_runs(program, parts)
    }
}

// Does a variable run: its new name, and its source?
fn variable_runs(
    alloc: Global,
    program: &Annotated,
    id: NodeId,
    mode: ModeId,
    parts: &[NodeId],
) -> Result<bool, NoMemory>
    requires { AllBetween id (length program.now.tree.nodes) parts.now }
    ensures { IfOk result (λ is_run. is_run ≡ runs.variable_runs program.now mode parts.now) }
{
    let rest = behind_heap(begins_in_heap(program, id, parts), parts);
    let is_new = new_runs(alloc, program, mode, rest)?;
    let is_run = is_new && declared_runs(program, id, rest);
    Ok(is_run)
}

// What a call leaves: none of print and write, a value of whole, and what a routine yields.
fn call_leaves(program: &Annotated, id: NodeId, yields: bool, parts: &[NodeId]) -> Option<bool>
    requires { AllBetween id (length program.now.tree.nodes) parts.now }
    ensures { result ≡ runs.call_leaves program.now yields parts.now }
{
    if parts.len() == 0 {
        return None;
    }
    let name = called(program, parts[0]);
    let rest = &parts[1..];
    if is_one_of(printers(), name) {
        if_so(all_leave(program, true, items_at(program, id, rest)), false)
    } else if is_one_of(wholes(), name) {
        if_so(are_values(program, 2, rest), true)
    } else {
        if_so(all_leave(program, true, parts), yields)
    }
}

// Is the field there that a selection takes, which has that place?
fn selects(program: &Annotated, name: u32, place: usize, parts: &[NodeId]) -> bool
    requires { place ≡ made.field_in name (made.fields_at program.now.modes (made.first_goal program.now parts.now)) }
    ensures { result ≡ runs.selects program.now name parts.now }
{
    let _name = name;
    let fields = fields_at(&program.modes, first_goal(program, parts));
    place < fields.len()
}

// What a collateral clause of a mode leaves: nothing of VOID, else a structure or a row of the values of its parts.
fn collateral_leaves(program: &Annotated, mode: ModeId, parts: &[NodeId]) -> Option<bool>
    ensures { result ≡ runs.collateral_leaves program.now (shape_at program.now.modes mode) parts.now }
{
    if mode >= program.modes.len() {
        return None;
    }
    match program.modes.shape(mode) {
        Shape::Void => if_so(all_leave(program, false, parts), false),
        Shape::Struct(_) => if_so(parts.len() > 0 && all_leave(program, true, parts), true),
        Shape::Rows { .. } => if_so(all_leave(program, true, parts), true),
        _ => None,
    }
}

/// Do the phrases of an enquiry end with a value?
pub fn asks(program: &Annotated, id: NodeId) -> bool
    requires { id < length program.now.tree.nodes }
    ensures { result ≡ runs.asks program.now id }
{
    are_phrases(program, true, program.tree.parts(id))
}

// Does a choice run: its enquiry, and the parts that it chooses from?
fn choice_runs(
    program: &Annotated,
    id: NodeId,
    goal: ModeId,
    wanted: bool,
    parts: &[NodeId],
) -> bool
    requires { AllBetween id (length program.now.tree.nodes) parts.now }
    ensures { result ≡ runs.choice_runs program.now goal wanted parts.now }
{
    if parts.len() == 2 {
        return is_there(&program.modes, goal)
            && asks(program, parts[0])
            && leaves(program, wanted, parts[1]);
    }
    parts.len() == 3
        && asks(program, parts[0])
        && leaves(program, wanted, parts[1])
        && leaves(program, wanted, parts[2])
}

/// Does the part for no number run, or the skip in its place?
pub fn out_runs(program: &Annotated, goal: ModeId, wanted: bool, part: Option<NodeId>) -> bool
    ensures { result ≡ runs.out_runs program.now goal wanted part }
{
    match part {
        Some(id) => leaves(program, wanted, id),
        None => is_there(&program.modes, goal),
    }
}

// Does a choice by a number run: its enquiry, and the parts that it chooses from?
fn case_runs(program: &Annotated, id: NodeId, goal: ModeId, wanted: bool, parts: &[NodeId]) -> bool
    requires { AllBetween id (length program.now.tree.nodes) parts.now }
    ensures { result ≡ runs.case_runs program.now goal wanted parts.now }
{
    if parts.len() == 0 {
        return false;
    }
    let rest = &parts[1..];
    asks(program, parts[0])
        && all_leave(program, wanted, before_out(program, id, rest))
        && out_runs(program, goal, wanted, out_of(program, id, rest))
}

// Does FROM, BY or TO, if any, leave a value?
fn control_runs(program: &Annotated, part: Option<NodeId>) -> bool
    ensures { result ≡ runs.control_runs program.now part }
{
    match part {
        Some(id) => leaves(program, true, id),
        None => true,
    }
}

// Does the enquiry of WHILE run, where it is there?
fn enquiry_runs(program: &Annotated, clause: Option<NodeId>) -> bool
    requires { IfSome clause (λ p. p < length program.now.tree.nodes) }
    ensures { result ≡ runs.enquiry_runs program.now clause }
{
    match clause {
        Some(id) => asks(program, id),
        None => false,
    }
}

// Does WHILE run, if any?
fn test_runs(program: &Annotated, test: Option<NodeId>) -> bool
    requires { IfSome test (λ p. p < length program.now.tree.nodes) }
    ensures { result ≡ runs.test_runs program.now test }
{
    match test {
        Some(id) => enquiry_runs(program, only_id(program.tree.parts(id))),
        None => true,
    }
}

// Does the body of a loop leave none?
fn body_runs(program: &Annotated, body: Option<NodeId>) -> bool
    ensures { result ≡ runs.body_runs program.now body }
{
    match body {
        Some(id) => leaves(program, false, id),
        None => false,
    }
}

// Does a loop of these parts run?
fn loop_by_runs(program: &Annotated, id: NodeId, parts: LoopParts) -> bool
    requires { AreWithin id (length program.now.tree.nodes) parts }
    ensures { result ≡ runs.loop_by_runs program.now parts.from parts.by parts.to parts.test parts.body }
{
    control_runs(program, parts.from)
        && control_runs(program, parts.by)
        && control_runs(program, parts.to)
        && test_runs(program, parts.test)
        && body_runs(program, parts.body)
}

// Does a loop run?
fn loop_runs(program: &Annotated, id: NodeId, parts: &[NodeId]) -> bool
    requires { AllBetween id (length program.now.tree.nodes) parts.now }
    ensures { result ≡ runs.loop_runs program.now parts.now }
{
    loop_by_runs(program, id, loop_parts(program, id, parts))
}

// What the construct of a node leaves, where it runs: one row for each kind of node.
fn leaves_as(
    alloc: Global,
    program: &Annotated,
    id: NodeId,
    node: &Node,
    note: &Note,
    place: usize,
) -> Result<Option<bool>, NoMemory>
    requires place { place ≡ selected program.now node.now }
    requires between { AllBetween id (length program.now.tree.nodes) node.now.parts }
    requires named { node.now.name < length program.now.tree.spellings }
    ensures { IfOk result (λ left. left ≡ runs.leaves_as program.now node.now note.now node.now.kind) }
{
    let parts = &node.parts.items;
    let asked = asks_value(program, note);
    let left = match node.kind {
        NodeKind::Denotation => if_so(has_value(program.tree.spelling(node.name)), true),
        NodeKind::LongDenotation => {
            if_so(has_long_value(program.tree.spelling(node.name)), true)
        }
        NodeKind::Skip => if_so(is_there(&program.modes, note.goal), asked),
        NodeKind::Nil | NodeKind::Tag => Some(true),
        NodeKind::RoutineText => if_so(
            is_outcome(
                proc_yields(program, note.mode),
                last_outcome(program, parts),
            ),
            true,
        ),
        NodeKind::Monadic | NodeKind::Dyadic => formula_leaves(program, note, parts),
        NodeKind::Assignation => if_so(
            refers(program, note.mode) && are_values(program, 2, parts),
            true,
        ),
        NodeKind::Identity => if_so(are_values(program, 2, parts), true),
        NodeKind::Generator => {
            let is_run = new_runs(alloc, program, note.mode, parts)?;
            if_so(is_run, true)
        }
        NodeKind::Variable => {
            let is_run = variable_runs(alloc, program, id, note.mode, parts)?;
            if_so(is_run, false)
        }
        NodeKind::IdentityDefinition | NodeKind::OpDefinition => {
            if_so(is_outcome(true, last_outcome(program, parts)), false)
        }
        NodeKind::ModeDefinition | NodeKind::Priority => Some(false),
        NodeKind::Joined => if_so(all_leave(program, false, parts), false),
        NodeKind::Call => call_leaves(program, id, yields_value(program, note), parts),
        NodeKind::Cast => last_outcome(program, parts),
        NodeKind::Collateral => collateral_leaves(program, note.goal, parts),
        NodeKind::Vacuum => if_so(is_row(program, note.goal), true),
        NodeKind::Slice => if_so(slice_runs(program, parts), true),
        NodeKind::Selection => if_so(
            selects(program, node.name, place, parts)
                && is_outcome(true, last_outcome(program, parts)),
            true,
        ),
        NodeKind::Serial => if_so(are_steps(program, asked, parts), asked),
        NodeKind::GoTo => if_so(note.definition.is_some(), asked),
        NodeKind::Closed | NodeKind::Out | NodeKind::From | NodeKind::By | NodeKind::To => {
            only_outcome(program, parts)
        }
        NodeKind::Lower | NodeKind::Upper | NodeKind::At => only_outcome(program, parts),
        NodeKind::Conditional => if_so(choice_runs(program, id, note.goal, asked, parts), asked),
        NodeKind::Case => if_so(case_runs(program, id, note.goal, asked, parts), asked),
        NodeKind::Conformity => {
            if_so(conformity_runs(program, id, note.goal, asked, parts), asked)
        }
        NodeKind::Loop => if_so(loop_runs(program, id, parts), false),
        NodeKind::Parallel => if_so(parallel_runs(program, parts), false),
        _ => None,
    };
    Ok(left)
}

// What is left behind the coercions of a unit, where that runs.
fn behind_path(program: &Annotated, note: &Note, left: Option<bool>) -> Option<bool>
    ensures { result ≡ option_and_then (λ left. runs.path_leaves program.now.modes note.now.goal note.now.mode left note.now.path) left }
{
    match left {
        Some(left) => path_leaves(&program.modes, left, note),
        None => None,
    }
}

// What a node leaves behind its coercions, where it runs.
fn left_by(
    alloc: Global,
    program: &Annotated,
    id: NodeId,
    node: &Node,
    note: &Note,
    place: usize,
) -> Result<Option<bool>, NoMemory>
    requires place { place ≡ selected program.now node.now }
    requires between { AllBetween id (length program.now.tree.nodes) node.now.parts }
    requires named { node.now.name < length program.now.tree.spellings }
    ensures { IfOk result (λ left. left ≡ runs.left_by program.now node.now note.now) }
{
    let left = leaves_as(alloc, program, id, node, note, place)?;
    Ok(behind_path(program, note, left))
}

// Is what a node leaves its outcome, where it has one?
fn agrees(outcome: Option<bool>, left: Option<bool>) -> bool
    ensures { result ≡ runs.agrees outcome left }
{
    match outcome {
        Some(wanted) => is_outcome(wanted, left),
        None => true,
    }
}

/// Does a node run: does it leave what is asked of it? The places are those of the fields that the selections of the tree take. It
/// takes a time that grows with what the node writes where it runs, and not with the nodes within its parts.
#[tactic(auto, unfolding(a68_elab::specs::Runs::runs))]
pub fn is_run(
    alloc: Global,
    program: &Annotated,
    places: &[usize],
    id: NodeId,
) -> Result<bool, NoMemory>
    requires there { id < length program.now.tree.nodes }
    requires places { AreSelected program.now places.now }
    ensures { IfOk result (λ is_run. is_run ≡ runs.runs program.now id) }
{
    let node = program.tree.node(id);
    let note = program.note(id);
    let left = left_by(alloc, program, id, node, note, places[id as usize])?;
    Ok(agrees(outcome_by(program, node, note), left))
}

// A node is there and has a note.
fn look_at(program: &Annotated, id: NodeId)
    requires { id < length program.now.tree.nodes }
    ensures { IsThere program.now id }
{
    let _node = program.tree.node(id);
    let _note = program.note(id);
}

/// Looks at all nodes: each is there and has a note, and its parts stand behind it.
pub fn look_at_all(program: &Annotated)
    ensures there { AreThere program.now (length program.now.tree.nodes) }
    ensures nodes { HoldsNodes program.now.modes }
{
    let _nodes = program.modes.len();
    for id in 0..program.tree.len() {
        look_at(program, id);
    }
}
