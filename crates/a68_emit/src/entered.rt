//! What is entered apart from the tree of a program.
use a68_tree::NodeId;

/// A unit of a parallel clause: the byte at which the clause begins, and the node of the unit.
#[derive(Clone, Copy)]
pub struct UnitNode {
    pub place: u32,
    pub id: NodeId,
}

/// A routine text, or a unit of a parallel clause.
#[derive(Clone, Copy)]
pub enum Entered {
    Text(NodeId),
    Unit(UnitNode),
}
