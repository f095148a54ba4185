//! Loops and their parts.
ghost use Rattle.std.specs.Prelude.{◌≡◌, ◌<◌, ℕ, length, IfSome};
ghost use Rattle.a68_elab.specs.Made as made;
ghost use Rattle.a68_elab.specs.Trees.{Tree};
ghost use Rattle.a68_parts.specs.Loops.{AreWithin};
ghost use Rattle.a68_elab.specs.Runs as runs;
ghost use Rattle.a68_tree.specs.Trees.{AllBetween};

use a68_annot::Annotated;
use a68_tree::{NodeId, NodeKind};

/// The parts of a loop, as far as they are there.
#[derive(Clone, Copy)]
pub struct LoopParts {
    pub counts: bool,
    pub from: Option<NodeId>,
    pub by: Option<NodeId>,
    pub to: Option<NodeId>,
    pub test: Option<NodeId>,
    pub body: Option<NodeId>,
}

// FOR, where it is the first of these nodes.
fn if_for(program: &Annotated, id: NodeId, parts: &[NodeId]) -> Option<NodeId>
    requires { AllBetween id (length program.now.tree.nodes) parts.now }
    ensures first { result ≡ made.if_first made.is_for program.now parts.now }
    ensures within { IfSome result (λ p. (id < p) × (p < length program.now.tree.nodes)) }
{
    if parts.len() > 0 && matches!(program.tree.node(parts[0]).kind, NodeKind::For) {
        Some(parts[0])
    } else {
        None
    }
}

// FROM, where it is the first of these nodes.
fn if_from(program: &Annotated, id: NodeId, parts: &[NodeId]) -> Option<NodeId>
    requires { AllBetween id (length program.now.tree.nodes) parts.now }
    ensures first { result ≡ made.if_first made.is_from program.now parts.now }
    ensures within { IfSome result (λ p. (id < p) × (p < length program.now.tree.nodes)) }
{
    if parts.len() > 0 && matches!(program.tree.node(parts[0]).kind, NodeKind::From) {
        Some(parts[0])
    } else {
        None
    }
}

// BY, where it is the first of these nodes.
fn if_by(program: &Annotated, id: NodeId, parts: &[NodeId]) -> Option<NodeId>
    requires { AllBetween id (length program.now.tree.nodes) parts.now }
    ensures first { result ≡ made.if_first made.is_by program.now parts.now }
    ensures within { IfSome result (λ p. (id < p) × (p < length program.now.tree.nodes)) }
{
    if parts.len() > 0 && matches!(program.tree.node(parts[0]).kind, NodeKind::By) {
        Some(parts[0])
    } else {
        None
    }
}

// TO, where it is the first of these nodes.
fn if_to(program: &Annotated, id: NodeId, parts: &[NodeId]) -> Option<NodeId>
    requires { AllBetween id (length program.now.tree.nodes) parts.now }
    ensures first { result ≡ made.if_first made.is_to program.now parts.now }
    ensures within { IfSome result (λ p. (id < p) × (p < length program.now.tree.nodes)) }
{
    if parts.len() > 0 && matches!(program.tree.node(parts[0]).kind, NodeKind::To) {
        Some(parts[0])
    } else {
        None
    }
}

// WHILE, where it is the first of these nodes.
fn if_while(program: &Annotated, id: NodeId, parts: &[NodeId]) -> Option<NodeId>
    requires { AllBetween id (length program.now.tree.nodes) parts.now }
    ensures first { result ≡ made.if_first made.is_while program.now parts.now }
    ensures within { IfSome result (λ p. (id < p) × (p < length program.now.tree.nodes)) }
{
    if parts.len() > 0 && matches!(program.tree.node(parts[0]).kind, NodeKind::While) {
        Some(parts[0])
    } else {
        None
    }
}

// The parts behind the first, where that was taken.
fn past(taken: Option<NodeId>, parts: &[NodeId]) -> &[NodeId]
    ensures parts { result.now ≡ made.past taken parts.now }
    ensures between { (id end : ℕ) → AllBetween id end parts.now → AllBetween id end result.now }
{
    if taken.is_some() && parts.len() > 0 {
        &parts[1..]
    } else {
        parts
    }
}

/// The only one of these nodes.
pub fn only_id(parts: &[NodeId]) -> Option<NodeId>
    ensures only { result ≡ made.only_id parts.now }
    ensures within { (id end : ℕ) → AllBetween id end parts.now → IfSome result (λ p. (id < p) × (p < end)) }
{
    if parts.len() == 1 {
        Some(parts[0])
    } else {
        None
    }
}

/// The parts of a loop, which stand in this order.
pub fn loop_parts(program: &Annotated, id: NodeId, parts: &[NodeId]) -> LoopParts
    requires { AllBetween id (length program.now.tree.nodes) parts.now }
    ensures is { (f : ℕ → Tree) (place : ℕ) → made.loop_of program.now f place parts.now ≡ made.loop_by program.now f place result.counts result.from result.by result.to result.test result.body }
    ensures runs { runs.loop_runs program.now parts.now ≡ runs.loop_by_runs program.now result.from result.by result.to result.test result.body }
    ensures within { AreWithin id (length program.now.tree.nodes) result }
{
    let tag = if_for(program, id, parts);
    let froms = past(tag, parts);
    let from = if_from(program, id, froms);
    let bys = past(from, froms);
    let by = if_by(program, id, bys);
    let tos = past(by, bys);
    let to = if_to(program, id, tos);
    let tests = past(to, tos);
    let test = if_while(program, id, tests);
    let body = only_id(past(test, tests));
    LoopParts {
        counts: tag.is_some(),
        from,
        by,
        to,
        test,
        body,
    }
}
