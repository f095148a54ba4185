//! What routine texts use from outside.
ghost use Rattle.std.specs.Prelude.{◌≡◌, ◌<◌, [], IfOk, OnOk, length};
ghost use Rattle.a68_frames.specs.Needs.{UsesTag};
ghost use Rattle.a68_frames.specs.Tables.{AreFrames};
ghost use Rattle.a68_notes.specs.Needs.{AreLoweredBy, AreNeeds};
ghost use Rattle.a68_notes.specs.Notes.{asked_of, IsNeedOf, UsesFrame};
ghost use Rattle.a68_ranges.specs.Nodes.{kind_at};
ghost use Rattle.a68_refusals.specs.First.{Asked};
ghost use Rattle.a68_tree.specs.Trees.{Built};

use crate::field::applied_operator;
use a68_base::NoMemory;
use a68_definitions::kind_of;
use a68_frames::FrameMap;
use a68_meaning::Meaning;
use a68_positions::finding_of;
use a68_tree::{NodeId, NodeKind, Tree};
use std::alloc::Global;

// Adds the need of each node by the tags that are applied in it.
fn add_needs(needs: &mut Vec<Option<u32>>, tree: &Tree, map: &FrameMap) -> Result<(), NoMemory>
    requires none { needs.old.items ≡ [] }
    requires frames { AreFrames tree.now map.now }
    ensures { OnOk result (AreNeeds tree.now (UsesTag tree.now) (length tree.now.nodes) needs.new.items) }
{
    for text in 0..tree.len() {
        needs.push(map.needs(text))?;
    }
    Ok(())
}

// Lowers the needs by the use of a definition at a node, where it applies one.
fn lower_by(needs: &mut [Option<u32>], map: &FrameMap, at: NodeId, definition: Option<NodeId>)
    requires there { at < length map.now.chain.about }
    ensures { (tree : Built) → AreFrames tree map.now → AreLoweredBy tree at definition needs.old needs.new }
{
    match definition {
        Some(applied) => map.lower(needs, at, applied),
        None => {}
    }
}

// Lowers the needs by the operators that are applied.
fn lower_operators(needs: &mut [Option<u32>], tree: &Tree, map: &FrameMap, meaning: &Meaning)
    requires frames { AreFrames tree.now map.now }
    requires tags { AreNeeds tree.now (UsesTag tree.now) (length tree.now.nodes) needs.old }
    ensures { AreNeeds tree.now (UsesFrame (asked_of tree.now meaning.now)) (length tree.now.nodes) needs.new }
{
    for at in 0..tree.len() {
        let found = finding_of(&meaning.yields.findings, at);
        let definition = applied_operator(found, kind_of(tree, at));
        lower_by(needs, map, at, definition);
    }
}

/// Finds for each node how many frames outwards the newest one stands that it uses from outside, where it is a routine text.
pub fn needs_of(
    alloc: Global,
    tree: &Tree,
    map: &FrameMap,
    meaning: &Meaning,
) -> Result<Vec<Option<u32>>, NoMemory>
    requires frames { AreFrames tree.now map.now }
    ensures { IfOk result (λ needs. AreNeeds tree.now (UsesFrame (asked_of tree.now meaning.now)) (length tree.now.nodes) needs.items) }
{
    let mut needs = Vec::new(alloc);
    add_needs(&mut needs, tree, map)?;
    lower_operators(&mut needs, tree, map, meaning);
    Ok(needs)
}

/// Gives the need of a routine text; none of another node.
pub fn need_of(needs: &[Option<u32>], node: NodeId, kind: NodeKind) -> Option<u32>
    requires { node < length needs.now }
    ensures { (a : Asked) → AreNeeds a.tree (UsesFrame a) (length a.tree.nodes) needs.now → kind ≡ kind_at a.tree node → IsNeedOf a node kind result }
{
    match kind {
        NodeKind::RoutineText => needs[node as usize],
        _ => None,
    }
}
