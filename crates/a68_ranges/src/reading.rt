//! Nodes, read at any number.
ghost use Rattle.std.specs.Prelude.{◌≡◌};
ghost use Rattle.a68_ranges.specs.Nodes as nodes;
ghost use Rattle.a68_ranges.specs.Indexed as indexed;

use a68_tree::{NodeId, NodeKind, Tree};

/// The kind of a node; a number of no node has that of a skip.
pub fn kind_of(tree: &Tree, id: NodeId) -> NodeKind
    ensures { result ≡ nodes.kind_at tree.now id }
{
    if id < tree.len() {
        tree.node(id).kind
    } else {
        NodeKind::Skip
    }
}

/// The name of a node; a number of no node has the first.
pub fn name_of(tree: &Tree, id: NodeId) -> u32
    ensures { result ≡ nodes.name_at tree.now id }
{
    if id < tree.len() {
        tree.node(id).name
    } else {
        0
    }
}

/// The byte at which a node begins; a number of no node begins at the first.
pub fn place_of(tree: &Tree, id: NodeId) -> u32
    ensures { result ≡ nodes.place_at tree.now id }
{
    if id < tree.len() {
        tree.node(id).span.from
    } else {
        0
    }
}

/// The earlier one of two in the text.
pub fn earlier(tree: &Tree, one: Option<NodeId>, other: Option<NodeId>) -> Option<NodeId>
    ensures { result ≡ indexed.earlier_of tree.now one other }
{
    match (one, other) {
        (None, _) => other,
        (Some(_), None) => one,
        (Some(a), Some(b)) => {
            if place_of(tree, a) <= place_of(tree, b) {
                one
            } else {
                other
            }
        }
    }
}
