//! In which order the rules are told that the nodes of a tree break.
ghost use Rattle.std.specs.Prelude.{◌≡◌, ◌-◌, ◌+◌, ℕ, length};
ghost use Rattle.a68_refusals.specs.Order as specs;

use crate::rule::{NodeRule, rank};
use a68_definitions::{kind_of, part_from_end, parts_of};
use a68_tree::{NodeId, NodeKind, Tree};

/// A rule that is broken: the turn of the node that tells it and that of the last operand in it, the rule, and the byte.
///
/// A greater turn comes first. The turn of a node is its number and one; that of what the program is asked is 0.
#[derive(Clone, Copy, Debug, PartialEq, Eq)]
pub struct Broken {
    pub operand: u64,
    pub node: u64,
    pub rule: NodeRule,
    pub place: u32,
}

// Is the node a formula of one or two operands?
fn is_formula(kind: NodeKind) -> bool
    ensures { result ≡ specs.is_formula kind }
{
    match kind {
        NodeKind::Monadic | NodeKind::Dyadic => true,
        _ => false,
    }
}

// Finds the last operand of a formula, down through formulas; any other node is its own.
fn last_operand(tree: &Tree, node: NodeId) -> NodeId
    ensures { result ≡ specs.last_operand tree.now (length tree.now.nodes) node }
{
    let mut at = node;
    for _ in 0..tree.len() {
        if !is_formula(kind_of(tree, at)) {
            return at;
        }
        at = part_from_end(parts_of(tree, at), 1);
    }
    at
}

fn turn_of(node: Option<NodeId>) -> u64
    ensures { result ≡ specs.turn_of node }
{
    match node {
        None => 0,
        Some(id) => id as u64 + 1,
    }
}

fn operand_of(tree: &Tree, node: Option<NodeId>) -> u64
    ensures { result ≡ specs.operand_of tree.now node }
{
    match node {
        None => 0,
        Some(id) => last_operand(tree, id) as u64 + 1,
    }
}

/// Tells of a rule at a byte, in the turn of a node; in the last one where it is what the program is asked.
pub fn told_by(tree: &Tree, node: Option<NodeId>, rule: NodeRule, place: u32) -> Broken
    ensures { result ≡ specs.told_by tree.now node rule place }
{
    Broken {
        operand: operand_of(tree, node),
        node: turn_of(node),
        rule,
        place,
    }
}

// Is one number less, or, where both are equal, does the rest say so?
fn less(one: u64, other: u64, rest: bool) -> bool
    ensures { result ≡ specs.less one other rest }
{
    one < other || (one == other && rest)
}

// Is the one told before the other?
fn is_before(one: &Broken, other: &Broken) -> bool
    ensures { result ≡ specs.is_before one.now other.now }
{
    let by_place = one.place < other.place;
    let by_rule = less(rank(one.rule) as u64, rank(other.rule) as u64, by_place);
    let by_node = less(other.node, one.node, by_rule);
    less(other.operand, one.operand, by_node)
}

/// May it be told before the first so far?
pub fn may_precede(found: Option<Broken>, other: &Broken) -> bool
    ensures { result ≡ specs.may_precede found other.now }
{
    match found {
        None => true,
        Some(first) => is_before(other, &first),
    }
}

/// Keeps the one that is told first.
pub fn earlier(found: Option<Broken>, other: Option<Broken>) -> Option<Broken>
    ensures { result ≡ specs.earlier found other }
{
    match (found, other) {
        (None, _) => other,
        (Some(_), None) => found,
        (Some(one), Some(another)) => {
            if is_before(&another, &one) {
                other
            } else {
                found
            }
        }
    }
}
