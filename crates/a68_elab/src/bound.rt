//! Bounds of actual declarers.
use a68_tree::NodeId;

/// A bound of an actual declarer.
#[derive(Clone, Copy, Debug, PartialEq, Eq)]
pub enum Bound {
    /// The Lower or the Upper that is written.
    Written(NodeId),
    /// The value of one that is left out.
    Meant(u32),
    /// The Lower or the Upper that is written in the definition of a mode word, so many frames further out.
    Defined { frames: u32, id: NodeId },
}
