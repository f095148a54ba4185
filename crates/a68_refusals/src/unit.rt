//! Units that no coercion leads to what is asked of them.
ghost use Rattle.std.specs.Prelude.{◌≡◌, ◌<◌, ◌↔◌, IfOk, IsTrue, length};
ghost use Rattle.a68_coerce.specs.Below.{IsLeafBelow};
ghost use Rattle.a68_coerce.specs.Paths.{CanLead};
ghost use Rattle.a68_equiv.specs.Related.{as_it_stands};
ghost use Rattle.a68_modes.specs.Nodes.{shape_at};
ghost use Rattle.a68_modes.specs.declared.coercion.Sort.TheVariants as by;
ghost use Rattle.a68_positions.specs.Below.{IsPositionBelow};
ghost use Rattle.a68_refusals.specs.Units as specs;
ghost use Rattle.a68_refusals.specs.Units.{IsGoalMisfit, IsMisfit, LeadsNot, LeafLeadsNot};
ghost use Rattle.a68_yields.specs.Below.{IsYieldingBelow};
ghost use Rattle.a68_yields.specs.declared.yielding.Yielding.TheVariants as yields;

use crate::rule::NodeRule;
use a68_base::NoMemory;
use a68_coerce::{Leaf, balance};
use a68_mode_table::ModeTable;
use a68_modes::{ModeId, Shape, Sort};
use a68_positions::Position;
use a68_tree::{NodeId, NodeKind};
use a68_yields::{Yielding, is_unknown};
use std::alloc::Global;

/// A rule of coercion that is broken, and the node that tells of it; none where it is what the program is asked.
#[derive(Clone, Copy, Debug, PartialEq, Eq)]
pub struct Misfit {
    pub by: Option<NodeId>,
    pub rule: NodeRule,
}

fn is_choice(yielding: Yielding) -> bool
    ensures { result ≡ specs.is_choice yielding }
{
    matches!(yielding, Yielding::Choice)
}

// Does a clause of that kind hand on to its parts what is asked of it?
fn hands_on(kind: NodeKind) -> bool
    ensures { result ≡ specs.hands_on kind }
{
    match kind {
        NodeKind::Closed
        | NodeKind::Serial
        | NodeKind::Out
        | NodeKind::Conditional
        | NodeKind::Case
        | NodeKind::Conformity => true,
        _ => false,
    }
}

// Suits a unit the mode, which may stand in strong positions only?
fn suits_strongly(kind: NodeKind, shape: &Shape) -> bool
    ensures { result ≡ specs.suits_strongly kind shape.now }
{
    match (kind, shape) {
        (NodeKind::Skip | NodeKind::GoTo, _) => true,
        (NodeKind::Nil, Shape::Ref(_)) => true,
        (NodeKind::Vacuum, Shape::Rows { .. }) => true,
        (NodeKind::Collateral, Shape::Void | Shape::Rows { .. } | Shape::Struct(_)) => true,
        _ => false,
    }
}

// Leads the one mode strongly to the other?
fn leads(alloc: Global, modes: &ModeTable, from: ModeId, to: ModeId) -> Result<bool, NoMemory>
    requires from { from < length modes.now }
    requires to { to < length modes.now }
    ensures { IfOk result (λ leads. IsTrue leads ↔ CanLead modes.now by.Strong (as_it_stands from) (as_it_stands to)) }
{
    let leaves = [Leaf::Mode(from)];
    let found = balance(
        alloc,
        modes.modes(),
        modes.classes(),
        Sort::Strong,
        &leaves,
        to,
    )?;
    Ok(found.is_some())
}

// Leads a unit not to a mode, strongly?
fn leaf_leads_not(
    alloc: Global,
    modes: &ModeTable,
    mode: ModeId,
    kind: NodeKind,
    leaf: Leaf,
) -> Result<bool, NoMemory>
    requires mode { mode < length modes.now }
    requires leaf { IsLeafBelow (length modes.now) leaf }
    ensures { IfOk result (λ not. IsTrue not ↔ LeafLeadsNot modes.now mode kind leaf) }
{
    match leaf {
        Leaf::Mode(from) => {
            let there = leads(alloc, modes, from, mode)?;
            Ok(!there)
        }
        Leaf::StrongOnly => Ok(!suits_strongly(kind, modes.shape(mode))),
    }
}

// Leads what a node yields not to a mode?
fn leads_not(
    alloc: Global,
    modes: &ModeTable,
    mode: ModeId,
    kind: NodeKind,
    yielding: Yielding,
) -> Result<bool, NoMemory>
    requires mode { mode < length modes.now }
    requires yielding { (l : _) → yielding ≡ yields.Unit l → IsLeafBelow (length modes.now) l }
    ensures { IfOk result (λ not. IsTrue not ↔ LeadsNot modes.now mode kind yielding) }
{
    match yielding {
        Yielding::Unit(leaf) => leaf_leads_not(alloc, modes, mode, kind, leaf),
        _ => Ok(false),
    }
}

fn goal_misfit(
    alloc: Global,
    modes: &ModeTable,
    mode: ModeId,
    setter: Option<NodeId>,
    kind: NodeKind,
    yielding: Yielding,
) -> Result<Option<Misfit>, NoMemory>
    requires mode { mode < length modes.now }
    requires yielding { (l : _) → yielding ≡ yields.Unit l → IsLeafBelow (length modes.now) l }
    ensures { IfOk result (IsGoalMisfit modes.now mode setter kind yielding) }
{
    if hands_on(kind) {
        return Ok(None);
    }
    let there = leads_not(alloc, modes, mode, kind, yielding)?;
    if there {
        Ok(Some(Misfit {
            by: setter,
            rule: NodeRule::C1,
        }))
    } else {
        Ok(None)
    }
}

fn unasked(node: NodeId, kind: NodeKind, yielding: Yielding) -> Option<Misfit>
    ensures { result ≡ specs.unasked node kind yielding }
{
    if is_choice(yielding) {
        Some(Misfit {
            by: Some(node),
            rule: NodeRule::C2,
        })
    } else if hands_on(kind) {
        None
    } else {
        Some(Misfit {
            by: Some(node),
            rule: NodeRule::C1,
        })
    }
}

fn unfound(node: NodeId, kind: NodeKind, yielding: Yielding) -> Option<Misfit>
    ensures { result ≡ specs.unfound node kind yielding }
{
    if is_unknown(yielding) {
        None
    } else {
        unasked(node, kind, yielding)
    }
}

/// Finds the rule of coercion that a node breaks, by what is asked of it and what it yields.
pub fn find_misfit(
    alloc: Global,
    modes: &ModeTable,
    node: NodeId,
    kind: NodeKind,
    yielding: Yielding,
    own: Position,
) -> Result<Option<Misfit>, NoMemory>
    requires own { IsPositionBelow (length modes.now) own }
    requires yielding { (l : _) → yielding ≡ yields.Unit l → IsLeafBelow (length modes.now) l }
    ensures { IfOk result (IsMisfit modes.now node kind yielding own) }
{
    match own {
        Position::Goal(mode, setter) => goal_misfit(alloc, modes, mode, setter, kind, yielding),
        Position::Asks(_, None) => Ok(unfound(node, kind, yielding)),
        _ => Ok(None),
    }
}
