//! The frames that routine texts use from outside.
ghost use Rattle.std.specs.Prelude.{◌≡◌, ◌<◌, IfOk, length};
ghost use Rattle.a68_frames.specs.Outlooks.{AreOutward, AreViews, CrossesText};
ghost use Rattle.a68_frames.specs.Tables.{below, least_of, AreSlotsBefore, AreAboutBefore, AreLowered, AreNeedsBefore, AreTexts, IsApplied, IsOneLowered, TextUsesTagAt};
ghost use Rattle.a68_ranges.specs.Links.{IsBelow};
ghost use Rattle.a68_ranges.specs.Tables.{AreRanges};

use crate::chain::Chains;
use crate::outlook::Outlook;
use crate::reading::is_tag;
use crate::slots::RangeSlots;
use crate::ways::find;
use a68_base::NoMemory;
use a68_ranges::Ranges;
use a68_tree::{NodeId, Tree};
use std::alloc::Global;

// The lesser of what was there and that number.
fn least(need: Option<u32>, hops: u32) -> u32
    ensures { result ≡ least_of need hops }
{
    match need {
        None => hops,
        Some(other) => other.min(hops),
    }
}

// Lowers the need of one range.
fn lower_one(needs: &mut [Option<u32>], range: NodeId, hops: u32)
    ensures { IsOneLowered range hops needs.old needs.new }
{
    let place = range as usize;
    if place < needs.len() {
        needs[place] = Some(least(needs[place], hops));
    }
}

/// Lowers the needs of the routine texts whose frames so many steps outwards pass, to the steps that are left behind them.
pub fn lower(
    needs: &mut [Option<u32>],
    chains: &Chains,
    outlook: &Outlook,
    start: Option<usize>,
    steps: u32,
)
    requires start { IsBelow (length chains.now.frames) start }
    requires views { AreOutward chains.now.frames outlook.now.texts outlook.now.views }
    ensures { AreLowered (CrossesText chains.now.frames outlook.now.texts start steps) needs.old needs.new }
{
    let mut left = steps;
    let mut from = start;
    'texts: while let Some(number) = outlook.view(from).text {
        let passed = outlook
            .view(from)
            .depth
            .saturating_sub(outlook.view(Some(number)).depth);
        if left <= passed {
            return;
        }
        left -= passed + 1;
        let frame = chains.frame(number);
        lower_one(needs, frame.range, left);
        from = frame.outer;
    }
}

// The definition of the tag that a node applies, as far as it is one and its definition stands in the tree.
fn applied(tree: &Tree, ranges: &Ranges, at: NodeId) -> Option<NodeId>
    requires ranges { AreRanges tree.now ranges.now }
    requires there { at < length tree.now.nodes }
    ensures { IsApplied tree.now at result }
{
    let node = tree.node(at);
    if !is_tag(node.kind) {
        return None;
    }
    let found = ranges.tag(at, node.name);
    within(found, tree.len())
}

// The number, where it is below the bound.
fn within(found: Option<NodeId>, bound: u32) -> Option<NodeId>
    ensures { result ≡ below bound found }
{
    match found {
        None => None,
        Some(id) => { if id < bound { Some(id) } else { None } }
    }
}

// Lowers the needs of the routine texts that use from outside the tag which a node applies.
fn lower_tag(
    needs: &mut [Option<u32>],
    tree: &Tree,
    ranges: &Ranges,
    slots: &RangeSlots,
    chains: &Chains,
    outlook: &Outlook,
    at: NodeId,
)
    requires ranges { AreRanges tree.now ranges.now }
    requires slots { AreSlotsBefore tree.now (length tree.now.nodes) slots.now.places.entries slots.now.counts.items slots.now.makes.items }
    requires chains { AreAboutBefore tree.now (length tree.now.nodes) chains.now.about chains.now.frames }
    requires texts { AreTexts tree.now outlook.now.texts }
    requires views { AreViews chains.now.frames slots.now.places.entries outlook.now }
    requires there { at < length tree.now.nodes }
    ensures { AreLowered (TextUsesTagAt tree.now at) needs.old needs.new }
{
    let Some(definition) = applied(tree, ranges, at) else {
        return;
    };
    let start = chains.about(at);
    let Some(step) = find(chains, &slots.places, outlook, start, definition) else {
        return;
    };
    lower(needs, chains, outlook, start, step.hops);
}

// Lowers the needs of the routine texts that use tags from outside.
fn lower_tags(
    needs: &mut [Option<u32>],
    tree: &Tree,
    ranges: &Ranges,
    slots: &RangeSlots,
    chains: &Chains,
    outlook: &Outlook,
)
    requires ranges { AreRanges tree.now ranges.now }
    requires slots { AreSlotsBefore tree.now (length tree.now.nodes) slots.now.places.entries slots.now.counts.items slots.now.makes.items }
    requires chains { AreAboutBefore tree.now (length tree.now.nodes) chains.now.about chains.now.frames }
    requires texts { AreTexts tree.now outlook.now.texts }
    requires views { AreViews chains.now.frames slots.now.places.entries outlook.now }
    requires before { AreNeedsBefore tree.now 0 needs.old }
    ensures { AreNeedsBefore tree.now (length tree.now.nodes) needs.new }
{
    for at in 0..tree.len() {
        lower_tag(needs, tree, ranges, slots, chains, outlook, at);
    }
}

/// The need of each routine text of a tree: how many frames outwards the newest one stands of which it uses a tag from outside.
pub fn needs_of(
    alloc: Global,
    tree: &Tree,
    ranges: &Ranges,
    slots: &RangeSlots,
    chains: &Chains,
    outlook: &Outlook,
) -> Result<Vec<Option<u32>>, NoMemory>
    requires ranges { AreRanges tree.now ranges.now }
    requires slots { AreSlotsBefore tree.now (length tree.now.nodes) slots.now.places.entries slots.now.counts.items slots.now.makes.items }
    requires chains { AreAboutBefore tree.now (length tree.now.nodes) chains.now.about chains.now.frames }
    requires texts { AreTexts tree.now outlook.now.texts }
    requires views { AreViews chains.now.frames slots.now.places.entries outlook.now }
    ensures { IfOk result (λ needs. AreNeedsBefore tree.now (length tree.now.nodes) needs.items) }
{
    let mut needs = vec![in alloc; None; tree.len() as usize]?;
    lower_tags(&mut needs, tree, ranges, slots, chains, outlook);
    Ok(needs)
}
