//! What a node asks of its parts.
ghost use Rattle.std.specs.Prelude.{◌≡◌, ◌<◌, length};
ghost use Rattle.a68_yields.specs.Sought as specs;

use a68_coerce::ModeForm;
use a68_definitions::{Tags, called_by, kind_of, parts_of};
use a68_modes::{ModeId, Sort};
use a68_tree::{NodeId, NodeKind, Tree};

/// A mode, or a form that modes have.
#[derive(Clone, Copy)]
pub enum Expectation {
    Mode(ModeId),
    ModeForm(ModeForm),
}

/// What is looked for at a node, before anything is known of its own position.
#[derive(Clone, Copy)]
pub enum Sought {
    Nothing,
    /// The mode that a part is balanced to, by the sort of its position (6.1.1).
    Part(Sort, Expectation, NodeId),
    /// The name to which both sides of an identity relation lead (5.2.2).
    Sides(NodeId, NodeId),
    /// The operator of a formula of one operand (5.4.2).
    Monadic(NodeId),
    /// The operator of a formula of two operands.
    Dyadic(NodeId, NodeId),
}

/// Tells what a node of that kind asks of its first part, and by which sort.
fn asks_by(kind: NodeKind) -> Option<(Sort, Expectation)>
    ensures { result ≡ specs.asks_by kind }
{
    match kind {
        NodeKind::Conditional | NodeKind::While => Some((Sort::Meek, Expectation::Mode(2))),
        NodeKind::Case
        | NodeKind::From
        | NodeKind::By
        | NodeKind::To
        | NodeKind::Lower
        | NodeKind::Upper
        | NodeKind::At => Some((Sort::Meek, Expectation::Mode(1))),
        NodeKind::Conformity => Some((Sort::Meek, Expectation::ModeForm(ModeForm::Union))),
        NodeKind::Assignation => Some((Sort::Soft, Expectation::ModeForm(ModeForm::Name))),
        NodeKind::Selection => Some((Sort::Weak, Expectation::ModeForm(ModeForm::Structure))),
        NodeKind::Slice => Some((Sort::Weak, Expectation::ModeForm(ModeForm::Row))),
        NodeKind::Call => Some((Sort::Meek, Expectation::ModeForm(ModeForm::Routine))),
        _ => None,
    }
}

fn is_bound(kind: NodeKind) -> bool
    ensures { result ≡ specs.is_bound kind }
{
    matches!(kind, NodeKind::Lower | NodeKind::Upper | NodeKind::At)
}

/// Are these the parts of a subscript, which is one unit?
pub fn is_subscript(tree: &Tree, parts: &[NodeId]) -> bool
    ensures { result ≡ specs.is_subscript tree.now parts.now }
{
    if parts.len() != 1 {
        return false;
    }
    !is_bound(kind_of(tree, parts[0]))
}

/// Asks that of the first part, where there is one.
fn of_first(parts: &[NodeId], asked: Option<(Sort, Expectation)>) -> Sought
    ensures { result ≡ specs.of_first parts.now asked }
{
    if parts.is_empty() {
        return Sought::Nothing;
    }
    match asked {
        Some((sort, want)) => Sought::Part(sort, want, parts[0]),
        None => Sought::Nothing,
    }
}

fn sides(parts: &[NodeId]) -> Sought
    ensures { result ≡ specs.sides parts.now }
{
    if parts.len() != 2 {
        return Sought::Nothing;
    }
    Sought::Sides(parts[0], parts[1])
}

fn operands(parts: &[NodeId]) -> Sought
    ensures { result ≡ specs.operands parts.now }
{
    if parts.len() == 1 {
        return Sought::Monadic(parts[0]);
    }
    if parts.len() != 2 {
        return Sought::Nothing;
    }
    Sought::Dyadic(parts[0], parts[1])
}

fn of_call(called: Option<u32>, parts: &[NodeId]) -> Sought
    ensures { result ≡ specs.of_call called parts.now }
{
    match called {
        Some(_) => Sought::Nothing,
        None => of_first(parts, asks_by(NodeKind::Call)),
    }
}

fn of_index(tree: &Tree, parts: &[NodeId]) -> Sought
    ensures { result ≡ specs.of_index tree.now parts.now }
{
    if is_subscript(tree, parts) {
        of_first(parts, Some((Sort::Meek, Expectation::Mode(1))))
    } else {
        Sought::Nothing
    }
}

fn sought_by(tree: &Tree, called: Option<u32>, kind: NodeKind, parts: &[NodeId]) -> Sought
    ensures { result ≡ specs.sought_by tree.now called kind parts.now }
{
    match kind {
        NodeKind::Identity => sides(parts),
        NodeKind::Monadic | NodeKind::Dyadic => operands(parts),
        NodeKind::Call => of_call(called, parts),
        NodeKind::Index => of_index(tree, parts),
        _ => of_first(parts, asks_by(kind)),
    }
}

/// Tells what is looked for at a node.
pub fn sought_at(tree: &Tree, tags: &Tags, node: NodeId) -> Sought
    ensures { result ≡ specs.sought_at tree.now tags.now node }
{
    let called = called_by(tree, tags, node);
    sought_by(tree, called, kind_of(tree, node), parts_of(tree, node))
}
