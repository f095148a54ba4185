//! Where definitions stand, as seen from frames.
ghost use Rattle.std.specs.Prelude.{◌≡◌, ◌<◌, ℕ, List, length};
ghost use Rattle.std.specs.Option.{option_map};
ghost use Rattle.a68_frames.specs.Frames.{frames_of};
ghost use Rattle.a68_frames.specs.Outlooks.{AreOutward, AreViews};
ghost use Rattle.a68_frames.specs.Tables.{Framed, FindsSlot};
ghost use Rattle.a68_ranges.specs.Links.{IsBelow};
ghost use Rattle.a68_tree.specs.Trees.{Built};

use crate::chain::Chains;
use crate::outlook::Outlook;
use crate::slots::{SlotOf, slot_at};
use a68_tree::{FrameStep, NodeId};

/// Where a definition has a slot: in the innermost of the frames from that one outwards that has a slot for it.
pub fn find(
    chains: &Chains,
    places: &SlotOf,
    outlook: &Outlook,
    start: Option<usize>,
    definition: NodeId,
) -> Option<FrameStep>
    requires start { IsBelow (length chains.now.frames) start }
    requires views { AreViews chains.now.frames places.now.entries outlook.now }
    ensures { FindsSlot chains.now.frames places.now.entries definition start result }
{
    let Some(holder) = outlook.holder(start, definition) else {
        return None;
    };
    let number = holder as usize;
    let hops = outlook
        .view(start)
        .depth
        .saturating_sub(outlook.view(Some(number)).depth);
    let slot = slot_at(places, chains.frame(number).range, definition);
    step_of(hops, slot)
}

// So many frames outwards, in that slot.
fn step_of(hops: u32, slot: Option<u32>) -> Option<FrameStep>
    ensures { result ≡ option_map (λ s. record { hops = hops; slot = s }) slot }
{
    match slot {
        None => None,
        Some(slot) => Some(FrameStep { hops, slot }),
    }
}

/// How many frames there are from that one outwards.
pub fn count(chains: &Chains, outlook: &Outlook, start: Option<usize>) -> u32
    requires start { IsBelow (length chains.now.frames) start }
    requires views { AreOutward chains.now.frames outlook.now.texts outlook.now.views }
    ensures { (tree : Built) (ranges : List ℕ) → Framed tree chains.now.frames start ranges → result ≡ frames_of tree ranges }
{
    let _there = chains.len();
    outlook.view(start).depth
}
