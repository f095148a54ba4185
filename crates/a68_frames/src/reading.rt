//! Nodes, read at any number.
ghost use Rattle.std.specs.Prelude.{◌≡◌, false, slice_index_or};
ghost use Rattle.a68_frames.specs.Frames as frames;
ghost use Rattle.a68_ranges.specs.Links as links;
ghost use Rattle.a68_ranges.specs.Nodes as nodes;
ghost use Rattle.a68_frames.specs.Tables as tables;

use a68_ranges::{IndicatorKind, defines};
use a68_tree::{NodeId, NodeKind, Tree};

/// The kind of a node; a number of no node has that of a skip.
pub fn kind_of(tree: &Tree, id: NodeId) -> NodeKind
    ensures { result ≡ nodes.kind_at tree.now id }
{
    if id < tree.len() {
        tree.node(id).kind
    } else {
        NodeKind::Skip
    }
}

// Has what is defined with that sort a slot?
fn sort_has_slot(sort: Option<IndicatorKind>) -> bool
    ensures { result ≡ frames.sort_has_slot sort }
{
    match sort {
        Some(IndicatorKind::Tag) => true,
        Some(IndicatorKind::Operator) => true,
        Some(_) => false,
        None => false,
    }
}

/// Has a definition of that kind a slot?
pub fn has_slot(kind: NodeKind) -> bool
    ensures { result ≡ frames.has_slot kind }
{
    match kind {
        NodeKind::Label => false,
        _ => sort_has_slot(defines(kind)),
    }
}

/// Does a range of that kind make a frame, with so many slots?
pub fn makes(kind: NodeKind, slots: u32) -> bool
    ensures { result ≡ frames.makes kind slots }
{
    match kind {
        NodeKind::RoutineText => true,
        _ => slots > 0,
    }
}

/// Is it told of that range? It is told of no number of no node.
pub fn is_told(told: &[bool], range: NodeId) -> bool
    ensures { result ≡ slice_index_or told.now range false }
{
    if (range as usize) < told.len() {
        told[range as usize]
    } else {
        false
    }
}

/// Is a node of that kind a routine text?
pub fn is_routine_text(kind: NodeKind) -> bool
    ensures { result ≡ links.is_routine_text kind }
{
    matches!(kind, NodeKind::RoutineText)
}

/// Is a node of that kind an applied tag?
pub fn is_tag(kind: NodeKind) -> bool
    ensures { result ≡ tables.is_tag kind }
{
    matches!(kind, NodeKind::Tag)
}
