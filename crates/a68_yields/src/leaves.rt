//! The units that a node may yield.
ghost use Rattle.std.specs.Prelude.{◌≡◌, ◌≤◌, ◌<◌, ◌++◌, ◌^◌, ℕ, IfOk, IfSome, MatchOption, OnOk, length, replicate};
ghost use Rattle.std.specs.List.{All};
ghost use Rattle.a68_coerce.specs.Below.{IsLeafBelow};
ghost use Rattle.a68_ranges.specs.Nodes.{kind_at, parts_at};
ghost use Rattle.a68_yields.specs.Below.{AreAhead, AreCollected, AreUnitsBelow, IsCollected};
ghost use Rattle.a68_yields.specs.Leaves.{HasLeaves, HasNoLeaves, chosen};
ghost use Rattle.a68_tree.specs.Trees.{AllBetween};
ghost use Rattle.a68_yields.specs.Leaves as specs;

use crate::told::{behind_first, ends};
use crate::yielding::{Yielding, yield_of};
use a68_base::NoMemory;
use a68_coerce::Leaf;
use a68_definitions::{kind_of, part_from_end, parts_from, parts_of};
use a68_tree::{NodeId, NodeKind, Tree};
use std::alloc::Global;

/// Is a choice without ELSE or OUT?
fn is_open(tree: &Tree, kind: NodeKind, parts: &[NodeId]) -> bool
    ensures { result ≡ specs.is_open tree.now kind parts.now }
{
    match kind {
        NodeKind::Conditional => parts.len() == 2,
        NodeKind::Serial => false,
        _ => kind_of(tree, part_from_end(parts, 1)) != NodeKind::Out,
    }
}

// Counts the skips in the place of ELSE or OUT: one or none.
fn skips_of(tree: &Tree, node: NodeId) -> u32
    ensures skips { replicate result Leaf.StrongOnly ≡ specs.left_out (specs.is_open tree.now (kind_at tree.now node) (parts_at tree.now node)) }
    ensures few { result ≤ 1 }
{
    if is_open(tree, kind_of(tree, node), parts_of(tree, node)) {
        1
    } else {
        0
    }
}

// Lists the parts among which a choice chooses.
fn choices(alloc: Global, tree: &Tree, parts: &[NodeId]) -> Result<Vec<NodeId>, NoMemory>
    ensures { IfOk result (λ found. found.items ≡ specs.choices tree.now parts.now) }
{
    let mut items = Vec::new(alloc);
    for part in behind_first(parts) {
        if kind_of(tree, *part) != NodeKind::Spec {
            items.push(*part)?;
        }
    }
    Ok(items)
}

// Lists the units that a serial clause may yield.
fn endings(alloc: Global, tree: &Tree, parts: &[NodeId]) -> Result<Vec<NodeId>, NoMemory>
    ensures { IfOk result (λ found. found.items ≡ specs.endings tree.now parts.now) }
{
    let mut items = Vec::new(alloc);
    let mut place = 0;
    for part in parts {
        place += 1;
        if ends(tree, parts_from(parts, place)) {
            items.push(*part)?;
        }
    }
    Ok(items)
}

// Lists the parts among which a node chooses.
fn chosen_parts(alloc: Global, tree: &Tree, node: NodeId) -> Result<Vec<NodeId>, NoMemory>
    ensures { IfOk result (λ parts. parts.items ≡ chosen tree.now node) }
{
    let parts = parts_of(tree, node);
    if kind_of(tree, node) == NodeKind::Serial {
        let found = endings(alloc, tree, parts)?;
        return Ok(found);
    }
    let found = choices(alloc, tree, parts)?;
    Ok(found)
}

// Tells that the parts among which a node chooses stand behind it.
fn follow(tree: &Tree, node: NodeId)
    ensures { AllBetween node (length tree.now.nodes) (chosen tree.now node) }
{
    let _parts = parts_of(tree, node);
}

// Adds that many skips.
fn add_skips(found: &mut Vec<Leaf>, count: u32) -> Result<(), NoMemory>
    ensures { OnOk result (found.new.items ≡ found.old.items ++ replicate count Leaf.StrongOnly) }
{
    for _ in 0..count {
        found.push(Leaf::StrongOnly)?;
    }
    Ok(())
}

// Adds the leaves of all these nodes, which stand behind one; false where one of them has none.
#[cycle(collect)]
fn add_all(
    alloc: Global,
    tree: &Tree,
    yields: &[Yielding],
    nodes: &[NodeId],
    behind: NodeId,
    found: &mut Vec<Leaf>,
) -> Result<bool, NoMemory>
    requires ahead { AreAhead (length tree.now.nodes) yields.now }
    requires behind { AllBetween behind (length tree.now.nodes) nodes.now }
    ensures { IfOk result (AreCollected tree.now yields.now nodes.now found.old.items found.new.items) }
{
    for node in nodes {
        if !add(alloc, tree, yields, *node, found)? {
            return Ok(false);
        }
    }
    Ok(true)
}

// Adds the leaves of a node; false where it has none. It goes down the last parts among which nodes choose by a loop, since chains of ELIF
// nest in the tree and not in the text.
#[cycle(collect)]
fn add(
    alloc: Global,
    tree: &Tree,
    yields: &[Yielding],
    node: NodeId,
    found: &mut Vec<Leaf>,
) -> Result<bool, NoMemory>
    requires ahead { AreAhead (length tree.now.nodes) yields.now }
    requires there { node < length tree.now.nodes }
    ensures { IfOk result (IsCollected tree.now yields.now node found.old.items found.new.items) }
{
    let mut at = node;
    let mut skips = 0;
    'down: while at < tree.len() {
        match yield_of(yields, at) {
            Yielding::Unknown => return Ok(false),
            Yielding::Unit(leaf) => {
                found.push(leaf)?;
                add_skips(found, skips)?;
                return Ok(true);
            }
            Yielding::Part(part) => at = part,
            Yielding::Choice => {
                follow(tree, at);
                let mut parts = chosen_parts(alloc, tree, at)?;
                skips += skips_of(tree, at);
                let Some(last) = parts.pop() else {
                    add_skips(found, skips)?;
                    return Ok(true);
                };
                if !add_all(alloc, tree, yields, &parts, at, found)? {
                    return Ok(false);
                }
                at = last;
            }
        }
    }
    Ok(false)
}

/// Lists the units that a node may yield; none where what it yields is not known. More than have numbers of 32 bits are want of memory.
pub fn leaves_of(
    alloc: Global,
    tree: &Tree,
    yields: &[Yielding],
    node: NodeId,
) -> Result<Option<Vec<Leaf>>, NoMemory>
    requires ahead { AreAhead (length tree.now.nodes) yields.now }
    requires long { length yields.now ≡ length tree.now.nodes }
    ensures leaves { IfOk result (λ found. MatchOption found (HasNoLeaves tree.now yields.now node) (λ leaves. HasLeaves tree.now yields.now node leaves.items)) }
    ensures few { IfOk result (λ found. IfSome found (λ leaves. length leaves.items < 2 ^ 32)) }
    ensures below { IfOk result (λ found. IfSome found (λ leaves. (n : ℕ) → AreUnitsBelow n yields.now → All (IsLeafBelow n) leaves.items)) }
{
    if node >= tree.len() {
        return Ok(None);
    }
    let mut found = Vec::new(alloc);
    if !add(alloc, tree, yields, node, &mut found)? {
        return Ok(None);
    }
    if found.len() > u32::MAX as usize {
        return Err(NoMemory);
    }
    Ok(Some(found))
}
