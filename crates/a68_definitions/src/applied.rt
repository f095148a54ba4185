//! The definitions of applied tags.
ghost use Rattle.std.specs.Prelude.{◌≡◌, ◌<◌, IfOk, None, length, slice_index_or};
ghost use Rattle.a68_definitions.specs.Tags.{AreTags, IsTagAt};
ghost use Rattle.a68_definitions.specs.Tags as specs;
ghost use Rattle.a68_ranges.specs.Nodes.{kind_at};
ghost use Rattle.a68_ranges.specs.Tables.{AreRanges};

use crate::reading::parts_of;
use a68_base::NoMemory;
use a68_ranges::{Ranges, tags};
use a68_tree::{NodeId, NodeKind, Tree};
use std::alloc::Global;
use std::marker::Model;

/// For each node of a tree the definition of the tag that it applies: a node of the tree, or a standard tag, which has a
/// number from that of the nodes upwards; none where the tag has no definition, or the node applies none.
#[derive(Drop)]
pub struct Tags {
    items: Vec<Option<NodeId>>,
}

impl Model for Tags {
    ghost use Rattle.std.specs.Prelude.{List, Option, ℕ};

    ghost Value = { List (Option ℕ) };

    ghost view = { λ tags. tags.items.items };
}

impl Tags {
    /// The definition of the tag that a node applies.
    pub fn at(&self, node: NodeId) -> Option<NodeId>
        ensures { result ≡ slice_index_or self.now node None }
    {
        match self.items.get(node as usize) {
            Some(found) => *found,
            None => None,
        }
    }
}

// Does a node of that kind apply a tag?
fn applies_tag(kind: NodeKind) -> bool
    ensures { result ≡ specs.applies_tag kind }
{
    match kind {
        NodeKind::Tag | NodeKind::GoTo => true,
        _ => false,
    }
}

// Finds the definition of the tag that a node applies.
fn tag_at(tree: &Tree, ranges: &Ranges, node: NodeId) -> Option<NodeId>
    requires ranges { AreRanges tree.now ranges.now }
    requires there { node < length tree.now.nodes }
    ensures { IsTagAt tree.now node (specs.applies_tag (kind_at tree.now node)) result }
{
    let found = tree.node(node);
    if !applies_tag(found.kind) {
        return None;
    }
    ranges.tag(node, found.name)
}

/// Finds the definitions of the tags that the nodes of a tree apply, jumps too (4.8.1, 5.4.4): for each the one in the innermost range about it
/// that declares the tag, else the standard one.
pub fn applied_tags(alloc: Global, tree: &Tree, ranges: &Ranges) -> Result<Tags, NoMemory>
    requires { AreRanges tree.now ranges.now }
    ensures { IfOk result (AreTags tree.now) }
{
    let mut items = Vec::new(alloc);
    for node in 0..tree.len() {
        items.push(tag_at(tree, ranges, node))?;
    }
    Ok(Tags { items })
}

// Gives the place of a standard tag among these; none of a tag of the text.
fn standard_place(nodes: u32, found: Option<NodeId>) -> Option<u32>
    ensures { result ≡ specs.standard_place_of nodes found }
{
    match found {
        Some(definition) if definition >= nodes => Some(definition - nodes),
        _ => None,
    }
}

/// Gives the place of the tag of the standard environ that a node applies, where it is one that is only called: `print`,
/// `write` or `whole`.
pub fn called_tag(tree: &Tree, tags: &Tags, node: NodeId) -> Option<u32>
    ensures { result ≡ specs.called_tag tree.now tags.now node }
{
    match standard_place(tree.len(), tags.at(node)) {
        Some(place) if place >= tags::PRINT && place <= tags::WHOLE => Some(place),
        _ => None,
    }
}

/// Gives the same of the first part of a node.
pub fn called_by(tree: &Tree, tags: &Tags, node: NodeId) -> Option<u32>
    ensures { result ≡ specs.called_by tree.now tags.now node }
{
    match parts_of(tree, node).first() {
        Some(part) => called_tag(tree, tags, *part),
        None => None,
    }
}
