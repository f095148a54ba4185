//! The slots of ranges.
ghost use Rattle.std.specs.Prelude.{◌≡◌, ◌<◌, ◌+◌, ℕ, IfOk, OnOk, None, length, true};
ghost use Rattle.a68_frames.specs.Frames.{place_of, with_slots};
ghost use Rattle.a68_frames.specs.Frames as frames;
ghost use Rattle.a68_frames.specs.Tables.{IsSlotNoted, AreSlotsBefore};
ghost use Rattle.a68_ranges.specs.Nodes.{kind_at};
ghost use Rattle.a68_ranges.specs.Tables.{at_key, AreRanges};

use crate::reading::{has_slot, kind_of, makes};
use a68_base::NoMemory;
use a68_ranges::Ranges;
use a68_tree::{NodeId, Tree};
use std::alloc::Global;
use std::collections::HashMap;

/// The slots by range and definition.
pub type SlotOf = HashMap<(NodeId, NodeId), u32>;

/// The slots of each range: how many, whether it makes a frame, and of which definitions.
#[derive(Drop)]
pub struct RangeSlots {
    pub counts: Vec<u32>,
    pub makes: Vec<bool>,
    pub places: SlotOf,
}

// Notes the slot of a node. The next free slot.
fn place_slot(places: &mut SlotOf, range: NodeId, id: NodeId, slot: u32) -> Result<u32, NoMemory>
    ensures { IfOk result (λ next. IsSlotNoted places.old.entries places.new.entries range id slot true next) }
{
    if slot == u32::MAX {
        return Err(NoMemory);
    }
    places.insert((range, id), slot)?;
    Ok(slot + 1)
}

// Notes the slot of a node, where it has one. The next free slot.
fn note_slot(
    places: &mut SlotOf,
    tree: &Tree,
    range: NodeId,
    id: NodeId,
    slot: u32,
) -> Result<u32, NoMemory>
    ensures { IfOk result (λ next. IsSlotNoted places.old.entries places.new.entries range id slot (frames.has_slot (kind_at tree.now id)) next) }
{
    if !has_slot(kind_of(tree, id)) {
        return Ok(slot);
    }
    let next = place_slot(places, range, id, slot)?;
    Ok(next)
}

// Notes the slots of a range. How many there are.
fn note_slots(
    places: &mut SlotOf,
    tree: &Tree,
    range: NodeId,
    list: &[NodeId],
) -> Result<u32, NoMemory>
    requires { (d : ℕ) → at_key places.old.entries range d ≡ None }
    ensures count { IfOk result (λ count. count ≡ length (with_slots tree.now list.now)) }
    ensures places { OnOk result ((d : ℕ) → at_key places.new.entries range d ≡ place_of (with_slots tree.now list.now) d) }
    ensures others { OnOk result ((r d : ℕ) → (r ≡ range → ⊥) → at_key places.new.entries r d ≡ at_key places.old.entries r d) }
{
    let mut slot = 0;
    for id in list {
        let next = note_slot(places, tree, range, *id, slot)?;
        slot = next;
    }
    Ok(slot)
}

// Adds the slots of the next range.
fn add_range(
    slots: &mut RangeSlots,
    tree: &Tree,
    ranges: &Ranges,
    range: NodeId,
) -> Result<(), NoMemory>
    requires ranges { AreRanges tree.now ranges.now }
    requires there { range < length tree.now.nodes }
    requires before { AreSlotsBefore tree.now range slots.old.places.entries slots.old.counts.items slots.old.makes.items }
    ensures { OnOk result (AreSlotsBefore tree.now (range + 1) slots.new.places.entries slots.new.counts.items slots.new.makes.items) }
{
    let count = note_slots(&mut slots.places, tree, range, ranges.declared(range))?;
    slots.counts.push(count)?;
    slots.makes.push(makes(kind_of(tree, range), count))?;
    Ok(())
}

// Adds the slots of all ranges.
fn add_ranges(slots: &mut RangeSlots, tree: &Tree, ranges: &Ranges) -> Result<(), NoMemory>
    requires ranges { AreRanges tree.now ranges.now }
    requires before { AreSlotsBefore tree.now 0 slots.old.places.entries slots.old.counts.items slots.old.makes.items }
    ensures { OnOk result (AreSlotsBefore tree.now (length tree.now.nodes) slots.new.places.entries slots.new.counts.items slots.new.makes.items) }
{
    for range in 0..tree.len() {
        add_range(slots, tree, ranges, range)?;
    }
    Ok(())
}

/// The slots of the ranges of a tree.
pub fn slots_of(alloc: Global, tree: &Tree, ranges: &Ranges) -> Result<RangeSlots, NoMemory>
    requires { AreRanges tree.now ranges.now }
    ensures { IfOk result (λ slots. AreSlotsBefore tree.now (length tree.now.nodes) slots.places.entries slots.counts.items slots.makes.items) }
{
    let mut slots = RangeSlots {
        counts: Vec::new(alloc),
        makes: Vec::new(alloc),
        places: HashMap::new(alloc),
    };
    add_ranges(&mut slots, tree, ranges)?;
    Ok(slots)
}

/// The slot of a definition in a range.
pub fn slot_at(places: &SlotOf, range: NodeId, definition: NodeId) -> Option<u32>
    ensures { result ≡ at_key places.now.entries range definition }
{
    places.get(&(range, definition)).copied()
}
