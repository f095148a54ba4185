//! Nodes and ranges, read at any number.
ghost use Rattle.std.specs.Prelude.{◌≡◌};
ghost use Rattle.a68_identify.specs.Operators as operators;
ghost use Rattle.a68_ranges.specs.Definitions.{declared_in};
ghost use Rattle.a68_ranges.specs.Indexed.{earlier_of};
ghost use Rattle.a68_ranges.specs.Nodes as nodes;
ghost use Rattle.a68_ranges.specs.Tables.{AreRanges};

use a68_ranges::Ranges;
use a68_tree::{NodeId, NodeKind, Tree};

/// The kind of a node; a number of no node has that of a skip.
pub fn kind_of(tree: &Tree, id: NodeId) -> NodeKind
    ensures { result ≡ nodes.kind_at tree.now id }
{
    if id < tree.len() {
        tree.node(id).kind
    } else {
        NodeKind::Skip
    }
}

/// The name of a node; a number of no node has the first.
pub fn name_of(tree: &Tree, id: NodeId) -> u32
    ensures { result ≡ nodes.name_at tree.now id }
{
    if id < tree.len() {
        tree.node(id).name
    } else {
        0
    }
}

/// The byte at which a node begins; a number of no node begins at the first.
fn place_of(tree: &Tree, id: NodeId) -> u32
    ensures { result ≡ nodes.place_at tree.now id }
{
    if id < tree.len() {
        tree.node(id).span.from
    } else {
        0
    }
}

/// The parts of a node; a number of no node has none.
pub fn parts_of(tree: &Tree, id: NodeId) -> &[NodeId]
    ensures { result.now ≡ nodes.parts_at tree.now id }
{
    if id < tree.len() { tree.parts(id) } else { &[] }
}

/// The earlier one of two in the text.
pub fn earlier(tree: &Tree, one: Option<NodeId>, other: Option<NodeId>) -> Option<NodeId>
    ensures { result ≡ earlier_of tree.now one other }
{
    match (one, other) {
        (None, _) => other,
        (Some(_), None) => one,
        (Some(a), Some(b)) => {
            if place_of(tree, a) <= place_of(tree, b) {
                one
            } else {
                other
            }
        }
    }
}

/// What a range declares, in order of text; a number of no node declares nothing.
pub fn declared_by<'a>(tree: &Tree, ranges: &'a Ranges, range: NodeId) -> &'a [NodeId]
    requires { AreRanges tree.now ranges.now }
    ensures { result.now ≡ declared_in tree.now range }
{
    if range < tree.len() {
        ranges.declared(range)
    } else {
        &[]
    }
}

/// Does the node define an operator of that sign?
pub fn defines_sign(tree: &Tree, sign: u32, definition: NodeId) -> bool
    ensures { result ≡ operators.defines_sign tree.now sign definition }
{
    matches!(kind_of(tree, definition), NodeKind::OpDefinition) && name_of(tree, definition) == sign
}

/// Is the node the tag of a parameter?
pub fn is_parameter(tree: &Tree, id: NodeId) -> bool
    ensures { result ≡ operators.is_parameter (nodes.kind_at tree.now id) }
{
    matches!(kind_of(tree, id), NodeKind::Parameter)
}
