//! A node that asks something of its parts.
use crate::position::Position;
use a68_modes::ModeId;
use a68_tree::NodeId;
use a68_yields::Finding;

/// A node, what is asked of it, what is found of its parts, and the mode that it has set aside: VOID where there is none.
#[derive(Clone, Copy)]
pub struct Asker {
    pub node: NodeId,
    pub own: Position,
    pub found: Finding,
    pub aside: ModeId,
}
