//! What nodes leave as constructs: a value or none.
ghost use Rattle.std.specs.Prelude.{◌≡◌, ◌<◌, ◌≤◌, length};
ghost use Rattle.std.specs.List.{list_all};
ghost use Rattle.a68_acts.specs.Operations as operations;
ghost use Rattle.a68_elab.specs.Made as made;
ghost use Rattle.a68_elab.specs.Runs as runs;
ghost use Rattle.a68_modes.specs.Nodes.{shape_at};
ghost use Rattle.a68_runs.specs.Running as running;

use a68_annot::{Annotated, Note};
use a68_modes::{ModeId, Modes, Shape};
use a68_parts::{behind_proc, behind_ref, is_exit, is_label, only_id, standard_of};
use a68_tree::{Node, NodeId, NodeKind};

/// Is a value asked of a node?
pub fn asks_value(program: &Annotated, note: &Note) -> bool
    ensures { result ≡ runs.asks_value program.now note.now }
{
    !program.modes.is_void(note.goal)
}

/// Does the construct of a node yield a value before its coercions?
pub fn yields_value(program: &Annotated, note: &Note) -> bool
    ensures { result ≡ runs.yields_value program.now note.now }
{
    !program.modes.is_void(note.mode)
}

/// Does a routine of this mode yield a value?
pub fn proc_yields(program: &Annotated, mode: ModeId) -> bool
    ensures { result ≡ runs.proc_yields program.now mode }
{
    !program.modes.is_void(behind_proc(&program.modes, mode))
}

// Is a mode a union?
fn is_union(program: &Annotated, mode: ModeId) -> bool
    ensures { result ≡ operations.is_union (shape_at program.now.modes mode) }
{
    mode < program.modes.len() && matches!(program.modes.shape(mode), Shape::Union(_))
}

// Is a tag defined, or does it stand for a value of the standard environ?
fn is_value(program: &Annotated, node: &Node, note: &Note) -> bool
    requires { node.now.name < length program.now.tree.spellings }
    ensures { result ≡ runs.is_value note.now.definition (made.spelling_of program.now node.now) }
{
    note.definition.is_some() || standard_of(program, node, note).is_some()
}

// Is a node of this kind asked for a value or for none?
fn is_construct(kind: NodeKind) -> bool
    ensures { result ≡ runs.is_construct kind }
{
    match kind {
        NodeKind::Closed | NodeKind::Vacuum | NodeKind::Parallel | NodeKind::Conditional => true,
        NodeKind::Case | NodeKind::Conformity | NodeKind::Loop | NodeKind::Serial => true,
        NodeKind::Assignation | NodeKind::Identity | NodeKind::RoutineText => true,
        NodeKind::Skip | NodeKind::Nil | NodeKind::Monadic | NodeKind::Dyadic => true,
        NodeKind::Selection | NodeKind::Generator | NodeKind::Slice | NodeKind::Call => true,
        NodeKind::Cast | NodeKind::Denotation | NodeKind::LongDenotation => true,
        NodeKind::GoTo | NodeKind::Out | NodeKind::Joined | NodeKind::ModeDefinition => true,
        NodeKind::Priority | NodeKind::OpDefinition | NodeKind::IdentityDefinition => true,
        NodeKind::Variable => true,
        _ => false,
    }
}

/// An outcome, where a test holds.
pub fn if_so(test: bool, outcome: bool) -> Option<bool>
    ensures { result ≡ runs.if_so test outcome }
{
    if test { Some(outcome) } else { None }
}

/// The outcome of a node, by its kind.
pub fn outcome_by(program: &Annotated, node: &Node, note: &Note) -> Option<bool>
    requires { node.now.name < length program.now.tree.spellings }
    ensures { result ≡ runs.outcome_by program.now node.now note.now node.now.kind }
{
    match node.kind {
        NodeKind::From | NodeKind::By | NodeKind::To => Some(true),
        NodeKind::Lower | NodeKind::Upper | NodeKind::At => Some(true),
        NodeKind::Tag => if_so(is_value(program, node, note), asks_value(program, note)),
        NodeKind::Collateral => if_so(!is_union(program, note.goal), asks_value(program, note)),
        _ => if_so(is_construct(node.kind), asks_value(program, note)),
    }
}

/// The outcome of a node, where there is one.
#[tactic(auto, unfolding(a68_elab::specs::Runs::outcome))]
pub fn outcome(program: &Annotated, id: NodeId) -> Option<bool>
    ensures { result ≡ runs.outcome program.now id }
{
    if id >= program.tree.len() {
        return None;
    }
    outcome_by(program, program.tree.node(id), program.note(id))
}

/// Is an outcome that which is wanted?
pub fn is_outcome(wanted: bool, outcome: Option<bool>) -> bool
    ensures { result ≡ runs.is_outcome wanted outcome }
{
    match outcome {
        None => false,
        Some(left) => { if wanted { left } else { !left } }
    }
}

/// Does a node leave what is wanted?
pub fn leaves(program: &Annotated, wanted: bool, id: NodeId) -> bool
    ensures { result ≡ runs.is_outcome wanted (runs.outcome program.now id) }
{
    is_outcome(wanted, outcome(program, id))
}

/// Do all of these nodes leave what is wanted?
pub fn all_leave(program: &Annotated, wanted: bool, ids: &[NodeId]) -> bool
    ensures { result ≡ runs.all_leave program.now wanted ids.now }
{
    ids.iter().all(|id| leaves(program, wanted, *id))
}

/// Are there so many of these, and does each leave a value?
pub fn are_values(program: &Annotated, count: usize, ids: &[NodeId]) -> bool
    ensures { result ≡ runs.are_values program.now count ids.now }
{
    ids.len() == count && all_leave(program, true, ids)
}

/// Are there two units at least, and does each leave none?
pub fn parallel_runs(program: &Annotated, ids: &[NodeId]) -> bool
    ensures { result ≡ runs.parallel_runs program.now ids.now }
{
    2 <= ids.len() && all_leave(program, false, ids)
}

/// The outcome of the last of these nodes.
pub fn last_outcome(program: &Annotated, ids: &[NodeId]) -> Option<bool>
    ensures { result ≡ runs.last_outcome program.now ids.now }
{
    if ids.len() == 0 {
        return None;
    }
    outcome(program, ids[ids.len() - 1])
}

/// The outcome of the only one of these nodes.
pub fn only_outcome(program: &Annotated, ids: &[NodeId]) -> Option<bool>
    ensures { result ≡ runs.only_outcome program.now ids.now }
{
    match only_id(ids) {
        Some(id) => outcome(program, id),
        None => None,
    }
}

/// Do all of these phrases but the last leave none, and the last what is wanted?
pub fn are_phrases(program: &Annotated, wanted: bool, ids: &[NodeId]) -> bool
    ensures { result ≡ runs.are_phrases program.now wanted ids.now }
{
    if ids.len() == 0 {
        return false;
    }
    let last = ids.len() - 1;
    for at in 0..last {
        if !leaves(program, false, ids[at]) {
            return false;
        }
    }
    leaves(program, wanted, ids[last])
}

// Does a node of a serial clause leave what is wanted of it, where this one follows? A label is no step.
fn passes(program: &Annotated, wanted: bool, id: NodeId, next: NodeId) -> bool
    ensures { result ≡ running.passes program.now wanted id next }
{
    is_label(program, id) || leaves(program, is_exit(program, next) && wanted, id)
}

// How many nodes a step or a label takes: with EXIT behind it two.
fn width(program: &Annotated, id: NodeId, next: NodeId) -> usize
    ensures width { result ≡ running.width program.now id next }
    ensures some { (1 ≤ result) × (result ≤ 2) }
{
    if !is_label(program, id) && is_exit(program, next) {
        2
    } else {
        1
    }
}

/// Do all steps of a serial clause leave none, but the last and those before EXIT, and these what is wanted?
pub fn are_steps(program: &Annotated, wanted: bool, ids: &[NodeId]) -> bool
    ensures { result ≡ runs.are_steps program.now wanted ids.now }
{
    let mut at = 0;
    while at + 1 < ids.len() {
        if !passes(program, wanted, ids[at], ids[at + 1]) {
            return false;
        }
        at += width(program, ids[at], ids[at + 1]);
    }
    if at >= ids.len() {
        return false;
    }
    leaves(program, wanted, ids[at])
}

/// Is a mode one of those that are there?
pub fn is_there(modes: &Modes, mode: ModeId) -> bool
    ensures { result ≡ runs.is_there modes.now mode }
{
    mode < modes.len()
}

/// Is that of what a name of a mode refers to?
pub fn refers(program: &Annotated, mode: ModeId) -> bool
    ensures { result ≡ runs.refers program.now mode }
{
    is_there(&program.modes, behind_ref(&program.modes, mode))
}

/// Is a mode a row?
pub fn is_row(program: &Annotated, mode: ModeId) -> bool
    ensures { result ≡ runs.is_row (shape_at program.now.modes mode) }
{
    mode < program.modes.len() && matches!(program.modes.shape(mode), Shape::Rows { .. })
}
