//! The tables of the frames of a tree.
ghost use Rattle.std.specs.Prelude.{IfOk, length};
ghost use Rattle.a68_frames.specs.Tables.{AreFrames};
ghost use Rattle.a68_ranges.specs.Tables.{AreRanges};

use crate::chain::chains_of;
use crate::map::FrameMap;
use crate::needs::needs_of;
use crate::outlook::outlook_of;
use crate::slots::slots_of;
use a68_base::NoMemory;
use a68_ranges::Ranges;
use a68_tree::Tree;
use std::alloc::Global;

/// The frames of the ranges of a tree, the slots in them, and what routine texts use from outside.
pub fn frames(alloc: Global, tree: &Tree, ranges: &Ranges) -> Result<FrameMap, NoMemory>
    requires { AreRanges tree.now ranges.now }
    ensures { IfOk result (λ map. AreFrames tree.now map) }
{
    let slots = slots_of(alloc, tree, ranges)?;
    let chains = chains_of(alloc, tree, ranges, &slots.makes)?;
    let outlook = outlook_of(alloc, tree, ranges, &chains)?;
    let needs = needs_of(alloc, tree, ranges, &slots, &chains, &outlook)?;
    Ok(FrameMap {
        slots,
        chains,
        outlook,
        needs,
    })
}
