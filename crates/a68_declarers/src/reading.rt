//! Nodes, read at any number.
ghost use Rattle.std.specs.Prelude.{◌≡◌, Some, false, slice_index_or};
ghost use Rattle.a68_declarers.specs.Declarers as declarers;
ghost use Rattle.a68_declarers.specs.Declarers.{PartsFollow};
ghost use Rattle.a68_ranges.specs.Indexed.{earlier_of};
ghost use Rattle.a68_ranges.specs.Nodes as nodes;

use a68_tree::{NodeId, NodeKind, Tree};

/// The kind of a node; a number of no node has that of a skip.
pub fn kind_of(tree: &Tree, id: NodeId) -> NodeKind
    ensures { result ≡ nodes.kind_at tree.now id }
{
    if id < tree.len() {
        tree.node(id).kind
    } else {
        NodeKind::Skip
    }
}

/// The name of a node; a number of no node has the first.
pub fn name_of(tree: &Tree, id: NodeId) -> u32
    ensures { result ≡ nodes.name_at tree.now id }
{
    if id < tree.len() {
        tree.node(id).name
    } else {
        0
    }
}

/// The byte at which a node begins; a number of no node begins at the first.
pub fn place_of(tree: &Tree, id: NodeId) -> u32
    ensures { result ≡ nodes.place_at tree.now id }
{
    if id < tree.len() {
        tree.node(id).span.from
    } else {
        0
    }
}

/// Is the node a declarer?
pub fn is_declarer(tree: &Tree, id: NodeId) -> bool
    ensures { result ≡ declarers.is_declarer (nodes.kind_at tree.now id) }
{
    matches!(kind_of(tree, id), NodeKind::Declarer)
}

/// Is the node the tag of a field?
pub fn is_field(tree: &Tree, id: NodeId) -> bool
    ensures { result ≡ declarers.is_field (nodes.kind_at tree.now id) }
{
    matches!(kind_of(tree, id), NodeKind::Field)
}

/// The earlier one in the text of what was found and one node more.
pub fn sooner(tree: &Tree, found: Option<NodeId>, id: NodeId) -> Option<NodeId>
    ensures { result ≡ earlier_of tree.now found (Some id) }
{
    match found {
        None => Some(id),
        Some(other) => {
            if place_of(tree, other) <= place_of(tree, id) {
                found
            } else {
                Some(id)
            }
        }
    }
}

/// Is the node marked?
pub fn is_marked(marks: &[bool], id: NodeId) -> bool
    ensures { result ≡ slice_index_or marks.now id false }
{
    match marks.get(id as usize) {
        Some(marked) => *marked,
        None => false,
    }
}

/// Goes through all parts, which stand behind their nodes.
pub fn follow(tree: &Tree)
    ensures { PartsFollow tree.now }
{
    for id in 0..tree.len() {
        let _parts = tree.parts(id);
    }
}
