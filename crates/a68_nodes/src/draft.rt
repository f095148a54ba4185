//! What is kept of the nodes that are read and of those that are being read.

use a68_tree::NodeKind;

/// A node, by how many symbols are left where it begins, behind it, and at the symbol that names it; and the numbers of
/// its parts.
#[derive(Drop)]
pub struct Draft {
    pub kind: NodeKind,
    pub before: usize,
    pub after: usize,
    pub named: usize,
    pub parts: Vec<usize>,
}

/// What will be a part of a node: a node by its number, or a sign by how many symbols are left at it and behind it.
#[derive(Clone, Copy)]
pub enum Piece {
    Part(usize),
    Sign { before: usize, after: usize },
}

/// A stretch of a list, from one place up to another.
#[derive(Clone, Copy)]
pub struct Section {
    pub from: usize,
    pub to: usize,
}

/// A layer that is open: how many pieces stand before its own, how many symbols were left where it began, and the nodes
/// that are set aside for it, as a stretch of the list of all such.
#[derive(Clone, Copy)]
pub struct OpenLayer {
    pub first: usize,
    pub before: usize,
    pub kept: Section,
}
