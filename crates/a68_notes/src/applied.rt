//! What a node applies: a tag or an operator, or the mode word that a declarer is.
ghost use Rattle.std.specs.Prelude.{◌≡◌, ◌<◌, length};
ghost use Rattle.a68_declarers.specs.Declarers.{form_at};
ghost use Rattle.a68_frames.specs.Frames.{has_slot as has_slot_lem};
ghost use Rattle.a68_frames.specs.Tables.{AreFrames};
ghost use Rattle.a68_notes.specs.Notes as specs;
ghost use Rattle.a68_notes.specs.Notes.{IsDefinitionOf, IsDistance, IsStep, IsStepOf, IsWordOf};
ghost use Rattle.a68_ranges.specs.Links.{IsBelow};
ghost use Rattle.a68_ranges.specs.Nodes.{name_at};
ghost use Rattle.a68_ranges.specs.Tables.{AreRanges};
ghost use Rattle.a68_tree.specs.Trees.{Built};

use crate::field::definition_of;
use crate::step::{step_of, target_of};
use a68_declarers::{DeclarerForm, form_of};
use a68_definitions::Tags;
use a68_frames::{FrameMap, has_slot};
use a68_ranges::Ranges;
use a68_tree::{FrameStep, NodeId, NodeKind, Tree};
use a68_yields::Finding;

/// What a node applies: where it is defined, and the way there.
#[derive(Clone, Copy)]
pub struct Applied {
    pub definition: Option<NodeId>,
    pub step: FrameStep,
}

// Gives the name of a node.
fn name_of(tree: &Tree, node: NodeId) -> u32
    requires { node < length tree.now.nodes }
    ensures { result ≡ name_at tree.now node }
{
    tree.node(node).name
}

// Finds the definition of the mode word that a declarer is; none of another declarer.
fn word_definition(tree: &Tree, ranges: &Ranges, node: NodeId) -> Option<NodeId>
    requires there { node < length tree.now.nodes }
    requires ranges { AreRanges tree.now ranges.now }
    ensures is { IsWordOf tree.now node (form_at tree.now node) result }
    ensures there { IsBelow (length tree.now.nodes) result }
{
    match form_of(tree, node) {
        DeclarerForm::Word => ranges.mode_word(node, name_of(tree, node)),
        DeclarerForm::Standard { .. }
        | DeclarerForm::Name
        | DeclarerForm::Row { .. }
        | DeclarerForm::Structure
        | DeclarerForm::Union
        | DeclarerForm::Procedure => None,
    }
}

// Tells how many frames further in a mode word stands than its definition.
fn distance_of(map: &FrameMap, node: NodeId, definition: Option<NodeId>) -> FrameStep
    requires there { node < length map.now.chain.about }
    requires definition { IsBelow (length map.now.chain.about) definition }
    ensures { (tree : Built) → AreFrames tree map.now → IsDistance tree node definition result }
{
    match definition {
        None => FrameStep { hops: 0, slot: 0 },
        Some(definition) => {
            let here = map.frames_about(node);
            let there = map.frames_about(definition);
            FrameStep {
                hops: here.saturating_sub(there),
                slot: 0,
            }
        }
    }
}

// Finds the mode word that a declarer is.
fn applied_word(tree: &Tree, ranges: &Ranges, map: &FrameMap, node: NodeId) -> Applied
    requires there { node < length tree.now.nodes }
    requires ranges { AreRanges tree.now ranges.now }
    requires frames { AreFrames tree.now map.now }
    ensures definition { IsWordOf tree.now node (form_at tree.now node) result.definition }
    ensures step { IsDistance tree.now node result.definition result.step }
{
    let definition = word_definition(tree, ranges, node);
    let step = distance_of(map, node, definition);
    Applied { definition, step }
}

// Finds the tag or the operator that a node applies, and the way to it, or to the slot of what it defines.
fn applied_value(
    tree: &Tree,
    map: &FrameMap,
    tags: &Tags,
    node: NodeId,
    found: Finding,
    kind: NodeKind,
) -> Applied
    requires there { node < length tree.now.nodes }
    requires frames { AreFrames tree.now map.now }
    ensures definition { result.definition ≡ specs.definition_of tree.now tags.now node found kind }
    ensures step { IsStep tree.now node (specs.target_of node result.definition (has_slot_lem kind)) result.step }
{
    let definition = definition_of(tree, tags, node, found, kind);
    let step = step_of(map, node, target_of(node, definition, has_slot(kind)));
    Applied { definition, step }
}

/// Finds what a node applies, and the way to it, or to the slot of what it defines.
pub fn find_applied(
    tree: &Tree,
    ranges: &Ranges,
    map: &FrameMap,
    tags: &Tags,
    node: NodeId,
    found: Finding,
    kind: NodeKind,
) -> Applied
    requires there { node < length tree.now.nodes }
    requires ranges { AreRanges tree.now ranges.now }
    requires frames { AreFrames tree.now map.now }
    ensures definition { IsDefinitionOf tree.now tags.now node found kind result.definition }
    ensures step { IsStepOf tree.now node kind result.definition result.step }
{
    match kind {
        NodeKind::Declarer => applied_word(tree, ranges, map, node),
        _ => applied_value(tree, map, tags, node, found, kind),
    }
}
