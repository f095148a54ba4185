//! Where the value stands that a node applies or defines.
ghost use Rattle.std.specs.Prelude.{◌≡◌, ◌<◌, length};
ghost use Rattle.a68_frames.specs.Tables.{AreFrames};
ghost use Rattle.a68_notes.specs.Notes as specs;
ghost use Rattle.a68_notes.specs.Notes.{IsStep};
ghost use Rattle.a68_tree.specs.Trees.{Built};

use a68_frames::FrameMap;
use a68_tree::{FrameStep, NodeId};

/// Gives what the step of a node leads to: what it applies, or itself where it has a slot.
pub fn target_of(node: NodeId, applied: Option<NodeId>, has_slot: bool) -> Option<NodeId>
    ensures { result ≡ specs.target_of node applied has_slot }
{
    match applied {
        Some(definition) => Some(definition),
        None => { if has_slot { Some(node) } else { None } }
    }
}

// Gives a step, or the one that says nothing.
fn step_or_none(found: Option<FrameStep>) -> FrameStep
    ensures { result ≡ specs.step_or_none found }
{
    match found {
        Some(step) => step,
        None => FrameStep { hops: 0, slot: 0 },
    }
}

/// Finds the way to what the step of a node leads to.
pub fn step_of(map: &FrameMap, node: NodeId, target: Option<NodeId>) -> FrameStep
    requires { node < length map.now.chain.about }
    ensures { (tree : Built) → AreFrames tree map.now → IsStep tree node target result }
{
    match target {
        Some(definition) => step_or_none(map.way(node, definition)),
        None => step_or_none(None),
    }
}
