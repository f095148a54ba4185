//! The first rule that a node of a tree breaks.
ghost use Rattle.std.specs.Prelude.{◌≡◌, ◌<◌, ◌+◌, ℕ, IfOk, length};
ghost use Rattle.a68_coerce.specs.declared.leaf.Leaf.{Leaf};
ghost use Rattle.a68_definitions.specs.Defined.{AllBelow};
ghost use Rattle.a68_fields.specs.Fields.{AreFieldsOf};
ghost use Rattle.a68_modes.specs.declared.shape.Shape.{Shape};
ghost use Rattle.a68_positions.specs.Below.{ArePositionsBelow};
ghost use Rattle.a68_positions.specs.Given.{finding_at, position_at};
ghost use Rattle.a68_ranges.specs.Nodes.{kind_at};
ghost use Rattle.a68_refusals.specs.First as specs;
ghost use Rattle.a68_refusals.specs.First.{IsBrokenFrom, IsFirstRefused};
ghost use Rattle.a68_refusals.specs.Jumps as jumps;
ghost use Rattle.a68_refusals.specs.Order.{IsFirstOf, earlier};
ghost use Rattle.a68_yields.specs.Below.{AreTablesBelow};

use crate::jump::walls_of;
use crate::node::{own_rule, place_of};
use crate::rule::NodeRule;
use crate::turn::{Broken, earlier, may_precede, told_by};
use crate::unit::{Misfit, find_misfit};
use a68_base::NoMemory;
use a68_declarers::place_of as start_of;
use a68_definitions::{Tags, kind_of};
use a68_fields::FieldTable;
use a68_mode_table::ModeTable;
use a68_modes::ModeId;
use a68_positions::{Position, finding_of, position_of};
use a68_tree::{NodeId, Tree};
use a68_yields::{Finding, Yielding, yield_of};
use std::alloc::Global;

fn told_misfit(tree: &Tree, node: NodeId, misfit: Option<Misfit>) -> Option<Broken>
    ensures { result ≡ specs.told_misfit tree.now node misfit }
{
    match misfit {
        None => None,
        Some(it) => Some(told_by(tree, it.by, it.rule, start_of(tree, node))),
    }
}

// Keeps the one that is told first, of the first so far and of a rule that a node breaks by itself. Where that is told is looked
// for only where it may be the first.
fn with_own(
    first: Option<Broken>,
    tree: &Tree,
    node: NodeId,
    rule: Option<NodeRule>,
) -> Option<Broken>
    ensures { result ≡ earlier first (specs.told_own tree.now node rule) }
{
    let Some(rule) = rule else {
        return first;
    };
    let mut told = told_by(tree, Some(node), rule, 0);
    if !may_precede(first, &told) {
        return first;
    }
    told.place = place_of(tree, node, rule);
    earlier(first, Some(told))
}

// Finds the first rule that is broken from a node on, by the first behind it.
fn with_node(
    alloc: Global,
    tree: &Tree,
    tags: &Tags,
    defined: &[ModeId],
    modes: &ModeTable,
    fields: &FieldTable,
    walls: &[u32],
    yields: &[Yielding],
    findings: &[Finding],
    positions: &[Position],
    node: NodeId,
    first: Option<Broken>,
) -> Result<Option<Broken>, NoMemory>
    requires defined { AllBelow (length modes.now) defined.now }
    requires some { 0 < length modes.now }
    requires fields { AreFieldsOf modes.now fields.now }
    requires walls { walls.now ≡ jumps.walls tree.now }
    requires tables { AreTablesBelow (length modes.now) (length tree.now.nodes) yields.now findings.now }
    requires positions { ArePositionsBelow (length modes.now) positions.now }
    requires there { node < length tree.now.nodes }
    requires behind { IsFirstOf (IsBrokenFrom (record { tree = tree.now; tags = tags.now; defined = defined.now; nodes = modes.now; ys = yields.now; fs = findings.now; ps = positions.now }) (node + 1)) first }
    ensures { IfOk result (IsFirstOf (IsBrokenFrom (record { tree = tree.now; tags = tags.now; defined = defined.now; nodes = modes.now; ys = yields.now; fs = findings.now; ps = positions.now }) node)) }
{
    let kind = kind_of(tree, node);
    let own = position_of(positions, node);
    let found = finding_of(findings, node);
    let rule = own_rule(
        tree,
        tags,
        defined,
        modes.modes(),
        fields,
        walls,
        yields,
        node,
        found,
        own,
        kind,
    );
    let unfit = find_misfit(alloc, modes, node, kind, yield_of(yields, node), own)?;
    let before = with_own(first, tree, node, rule);
    Ok(earlier(before, told_misfit(tree, node, unfit)))
}

// Finds the first rule that a node of a tree breaks, with the fields of all structures and the walls about all nodes at hand.
// Nodes are looked at from the last to the first, mostly in order of text, so that few rules may be the first.
fn first_among(
    alloc: Global,
    tree: &Tree,
    tags: &Tags,
    defined: &[ModeId],
    modes: &ModeTable,
    fields: &FieldTable,
    walls: &[u32],
    yields: &[Yielding],
    findings: &[Finding],
    positions: &[Position],
) -> Result<Option<Broken>, NoMemory>
    requires defined { AllBelow (length modes.now) defined.now }
    requires some { 0 < length modes.now }
    requires fields { AreFieldsOf modes.now fields.now }
    requires walls { walls.now ≡ jumps.walls tree.now }
    requires tables { AreTablesBelow (length modes.now) (length tree.now.nodes) yields.now findings.now }
    requires positions { ArePositionsBelow (length modes.now) positions.now }
    ensures { IfOk result (IsFirstRefused (record { tree = tree.now; tags = tags.now; defined = defined.now; nodes = modes.now; ys = yields.now; fs = findings.now; ps = positions.now })) }
{
    let mut first = None;
    let mut left = tree.len();
    while left > 0 {
        left -= 1;
        let found = with_node(
            alloc, tree, tags, defined, modes, fields, walls, yields, findings, positions, left,
            first,
        )?;
        first = found;
    }
    Ok(first)
}

/// Finds the first rule that a node of a tree breaks, by what is found of its parts and what is asked of it. Parts come before their node, and
/// what is asked strongly of a unit is told by the node that asks.
pub fn first_broken(
    alloc: Global,
    tree: &Tree,
    tags: &Tags,
    defined: &[ModeId],
    modes: &ModeTable,
    yields: &[Yielding],
    findings: &[Finding],
    positions: &[Position],
) -> Result<Option<Broken>, NoMemory>
    requires defined { AllBelow (length modes.now) defined.now }
    requires some { 0 < length modes.now }
    requires tables { AreTablesBelow (length modes.now) (length tree.now.nodes) yields.now findings.now }
    requires positions { ArePositionsBelow (length modes.now) positions.now }
    ensures { IfOk result (IsFirstRefused (record { tree = tree.now; tags = tags.now; defined = defined.now; nodes = modes.now; ys = yields.now; fs = findings.now; ps = positions.now })) }
{
    let fields = FieldTable::of(alloc, modes.modes())?;
    let walls = walls_of(alloc, tree)?;
    let first = first_among(
        alloc, tree, tags, defined, modes, &fields, &walls, yields, findings, positions,
    )?;
    Ok(first)
}
