//! Nodes and parts, read at any number.
ghost use Rattle.std.specs.Prelude.{◌≡◌, ◌<◌, ◌≤◌, drop, length, slice_index_or};
ghost use Rattle.a68_definitions.specs.Defined as specs;
ghost use Rattle.a68_definitions.specs.Tags as tags;
ghost use Rattle.a68_ranges.specs.Nodes.{kind_at, parts_at};
ghost use Rattle.a68_tree.specs.Trees.{AllBetween};

use a68_tree::{NodeId, NodeKind, Tree};

/// Gives the kind of a node; a number of no node has that of a skip.
pub fn kind_of(tree: &Tree, id: NodeId) -> NodeKind
    ensures { result ≡ kind_at tree.now id }
{
    if id < tree.len() {
        tree.node(id).kind
    } else {
        NodeKind::Skip
    }
}

/// Is a label defined by that node?
pub fn is_label(tree: &Tree, id: NodeId) -> bool
    ensures { result ≡ tags.is_label_at tree.now id }
{
    matches!(kind_of(tree, id), NodeKind::Label)
}

/// Gives a part by its place; 0 where there is none.
pub fn part_number(parts: &[NodeId], k: usize) -> NodeId
    ensures { result ≡ slice_index_or parts.now k 0 }
{
    match parts.get(k) {
        Some(part) => *part,
        None => 0,
    }
}

/// Gives a part by its place from the end, the last one at 1; the first one, or 0, where there is none.
pub fn part_from_end(parts: &[NodeId], k: usize) -> NodeId
    ensures { result ≡ specs.part_from_end parts.now k }
{
    part_number(parts, parts.len().saturating_sub(k))
}

/// Gives the parts from a place on.
pub fn parts_from(parts: &[NodeId], place: usize) -> &[NodeId]
    requires { place ≤ length parts.now }
    ensures { result.now ≡ drop place parts.now }
{
    &parts[place..]
}

/// Gives the parts of a node, in order of text; none of a number of no node.
pub fn parts_of(tree: &Tree, id: NodeId) -> &[NodeId]
    ensures is { result.now ≡ parts_at tree.now id }
    ensures behind { AllBetween id (length tree.now.nodes) result.now }
{
    if id < tree.len() { tree.parts(id) } else { &[] }
}
