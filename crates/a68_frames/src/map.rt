//! The frames of a tree.
ghost use Rattle.std.specs.Prelude.{◌≡◌, ◌<◌, ◌++◌, ℕ, List, length};
ghost use Rattle.a68_frames.specs.Frames.{slots_in, IsFirstWay, SlotStandsAt};
ghost use Rattle.a68_frames.specs.Frames as frames;
ghost use Rattle.a68_frames.specs.Needs.{IsNeed, UsesTag};
ghost use Rattle.a68_frames.specs.Tables.{AreFrames, AreLowered, IsPlaceIn, IsWay, TextUsesSlotAt};
ghost use Rattle.a68_ranges.specs.Nodes.{kind_at};
ghost use Rattle.a68_ranges.specs.Surroundings.{Lies};
ghost use Rattle.a68_tree.specs.Trees.{Built};
ghost use Rattle.a68_tree.specs.declared.kind.NodeKind.TheVariants as kind;

use crate::chain::Chains;
use crate::needs::lower;
use crate::outlook::Outlook;
use crate::slots::{RangeSlots, slot_at};
use crate::ways::{count, find};
use a68_tree::{FrameStep, NodeId};
use std::marker::Model;

/// The frames of the ranges of a tree, the slots in them, and the way to them.
///
/// Contracts see its tables.
#[derive(Drop)]
pub struct FrameMap {
    pub(crate) slots: RangeSlots,
    pub(crate) chains: Chains,
    pub(crate) outlook: Outlook,
    pub(crate) needs: Vec<Option<u32>>,
}

impl Model for FrameMap {
    ghost use Rattle.a68_frames.specs.Outlooks.{AreViews};
    ghost use Rattle.a68_frames.specs.Tables.{FrameTables};

    ghost Value = { FrameTables };

    ghost view = { λ map. record { slots = map.slots.counts.items; makes = map.slots.makes.items; places = map.slots.places.entries; chain = map.chains; texts = map.outlook.texts; needs = map.needs.items } };

    ghost invariant = { λ map. AreViews map.chains.frames map.slots.places.entries map.outlook };
}

impl FrameMap {
    /// How many slots the frame of a range has.
    pub fn slots(&self, range: NodeId) -> u32
        requires { range < length self.now.slots }
        ensures { (tree : Built) → AreFrames tree self.now → result ≡ length (slots_in tree range) }
    {
        self.slots.counts[range as usize]
    }

    /// Does a range make a frame? A routine text does, and every other range with a slot.
    pub fn makes_frame(&self, range: NodeId) -> bool
        requires { range < length self.now.makes }
        ensures { (tree : Built) → AreFrames tree self.now → result ≡ frames.makes_frame tree range }
    {
        self.slots.makes[range as usize]
    }

    /// The slot of a definition in the frame of a range. None where the range has no slot for it.
    pub fn slot(&self, range: NodeId, definition: NodeId) -> Option<u32>
        requires { range < length self.now.slots }
        ensures { (tree : Built) → AreFrames tree self.now → IsPlaceIn (slots_in tree range) definition result }
    {
        slot_at(&self.slots.places, range, definition)
    }

    /// Where a definition stands, as seen from a node: so many frames outwards, in that slot; in the innermost range that
    /// has a slot for it. None where no range about the node has one.
    pub fn way(&self, at: NodeId, definition: NodeId) -> Option<FrameStep>
        requires { at < length self.now.chain.about }
        ensures stands { (tree : Built) → AreFrames tree self.now → IsWay tree at definition result }
        ensures first { (tree : Built) → AreFrames tree self.now → IsFirstWay tree at definition result }
    {
        let start = self.chains.about(at);
        find(
            &self.chains,
            &self.slots.places,
            &self.outlook,
            start,
            definition,
        )
    }

    /// Where a definition stands that has a slot in a range about a node, as seen from the node.
    pub fn where_is(&self, at: NodeId, definition: NodeId) -> FrameStep
        requires { at < length self.now.chain.about }
        ensures { (tree : Built) → AreFrames tree self.now → (hops slot : ℕ) → SlotStandsAt tree at definition hops slot → SlotStandsAt tree at definition result.hops result.slot }
    {
        match self.way(at, definition) {
            Some(step) => step,
            None => FrameStep { hops: 0, slot: 0 },
        }
    }

    /// How many of the ranges about a node make frames.
    pub fn frames_about(&self, at: NodeId) -> u32
        requires { at < length self.now.chain.about }
        ensures { (tree : Built) → AreFrames tree self.now → (ranges : List ℕ) → Lies tree at ranges → result ≡ frames.frames_of tree ranges }
    {
        count(&self.chains, &self.outlook, self.chains.about(at))
    }

    /// How many frames lie between a node and the range about it in which another node stands, as a definition of a mode
    /// word does.
    pub fn hops(&self, at: NodeId, definition: NodeId) -> u32
        requires at { at < length self.now.chain.about }
        requires definition { definition < length self.now.chain.about }
        ensures { (tree : Built) → AreFrames tree self.now → (inner outer : List ℕ) → Lies tree at (inner ++ outer) → Lies tree definition outer → result ≡ frames.frames_of tree inner }
    {
        let outer = self.frames_about(definition);
        self.frames_about(at).saturating_sub(outer)
    }

    /// How many frames outwards the newest one stands of which a routine text uses a tag from outside. None where it uses
    /// none but of the standard environ.
    pub fn needs(&self, text: NodeId) -> Option<u32>
        requires { text < length self.now.needs }
        ensures { (tree : Built) → AreFrames tree self.now → kind_at tree text ≡ kind.RoutineText → IsNeed (UsesTag tree text) result }
    {
        self.needs[text as usize]
    }

    /// Lowers needs by a use of a definition at a node, as of an operator: the need of each routine text about the node
    /// that the definition stands outside of, to the number of frames outwards at which it stands there, if that is less.
    pub fn lower(&self, needs: &mut [Option<u32>], at: NodeId, definition: NodeId)
        requires { at < length self.now.chain.about }
        ensures { (tree : Built) → AreFrames tree self.now → AreLowered (TextUsesSlotAt tree at definition) needs.old needs.new }
    {
        let start = self.chains.about(at);
        let Some(step) = find(
            &self.chains,
            &self.slots.places,
            &self.outlook,
            start,
            definition,
        ) else {
            return;
        };
        lower(needs, &self.chains, &self.outlook, start, step.hops);
    }
}
