//! Nodes.
ghost use Rattle.std.specs.Prelude.{List, ℕ};

use crate::NodeKind;
use a68_base::Span;
use std::marker::Model;

/// The number of a node in its tree, from 0.
pub type NodeId = u32;

/// The parts of a node, in order of text.
#[derive(Drop)]
pub struct Parts {
    pub items: Vec<NodeId>,
}

impl Model for Parts {
    ghost Value = { List ℕ };

    ghost view = { λ parts. parts.items.items };
}

/// A node of a tree: its kind, its stretch of the text, the name of the symbol that names it, and its parts. The stretch
/// is from the first byte of its first symbol to behind the last byte of its last; where it has none, it is empty.
#[derive(Drop)]
pub struct Node {
    pub kind: NodeKind,
    pub span: Span,
    pub name: u32,
    pub parts: Parts,
}

/// Where a value stands, as seen from a node: so many frames outwards, in that slot.
#[derive(Clone, Copy, PartialEq, Eq)]
pub struct FrameStep {
    pub hops: u32,
    pub slot: u32,
}
