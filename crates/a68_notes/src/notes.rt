//! What is known of each node of a tree.
ghost use Rattle.std.specs.Prelude.{◌≡◌, ◌<◌, [], IfOk, OnOk, length};
ghost use Rattle.a68_frames.specs.Tables.{AreFrames};
ghost use Rattle.a68_notes.specs.Needs.{AreNeeds};
ghost use Rattle.a68_notes.specs.Notes.{asked_of, AreNotes, IsNote, UsesFrame};
ghost use Rattle.a68_positions.specs.Below.{ArePositionsBelow};
ghost use Rattle.a68_ranges.specs.Tables.{AreRanges};
ghost use Rattle.a68_yields.specs.Below.{AreTablesBelow};

use crate::applied::find_applied;
use crate::field::{goal_by, mode_of, row_of};
use crate::needs::{need_of, needs_of};
use crate::path::path_of;
use a68_annot::{Note, Notes};
use a68_base::NoMemory;
use a68_definitions::kind_of;
use a68_frames::{FrameMap, frames};
use a68_meaning::Meaning;
use a68_positions::{finding_of, position_of};
use a68_ranges::Ranges;
use a68_tree::{NodeId, Tree};
use a68_yields::yield_of;
use std::alloc::Global;

// Finds what is known of a node.
fn note_of(
    alloc: Global,
    tree: &Tree,
    ranges: &Ranges,
    map: &FrameMap,
    meaning: &Meaning,
    needs: &[Option<u32>],
    node: NodeId,
) -> Result<Note, NoMemory>
    requires ranges { AreRanges tree.now ranges.now }
    requires frames { AreFrames tree.now map.now }
    requires needs { AreNeeds tree.now (UsesFrame (asked_of tree.now meaning.now)) (length tree.now.nodes) needs.now }
    requires there { node < length tree.now.nodes }
    requires tables { AreTablesBelow (length meaning.now.modes) (length tree.now.nodes) meaning.now.yields.yields.items meaning.now.yields.findings.items }
    requires positions { ArePositionsBelow (length meaning.now.modes) meaning.now.positions.items }
    ensures { IfOk result (IsNote meaning.now.of (asked_of tree.now meaning.now) node) }
{
    let kind = kind_of(tree, node);
    let own = position_of(&meaning.positions, node);
    let yielding = yield_of(&meaning.yields.yields, node);
    let found = finding_of(&meaning.yields.findings, node);
    let goal = goal_by(&meaning.of, node, own, kind);
    let mode = mode_of(&meaning.of, &meaning.defined, node, goal, yielding, kind);
    let applied = find_applied(tree, ranges, map, &meaning.tags, node, found, kind);
    let slots = map.slots(node);
    let path = path_of(alloc, &meaning.modes, kind, own, yielding)?;
    Ok(Note {
        mode,
        path,
        goal,
        op: row_of(found),
        definition: applied.definition,
        step: applied.step,
        slots,
        need: need_of(needs, node, kind),
    })
}

// Adds what is known of each node.
fn add_notes(
    items: &mut Vec<Note>,
    alloc: Global,
    tree: &Tree,
    ranges: &Ranges,
    map: &FrameMap,
    meaning: &Meaning,
    needs: &[Option<u32>],
) -> Result<(), NoMemory>
    requires none { items.old.items ≡ [] }
    requires ranges { AreRanges tree.now ranges.now }
    requires frames { AreFrames tree.now map.now }
    requires needs { AreNeeds tree.now (UsesFrame (asked_of tree.now meaning.now)) (length tree.now.nodes) needs.now }
    requires tables { AreTablesBelow (length meaning.now.modes) (length tree.now.nodes) meaning.now.yields.yields.items meaning.now.yields.findings.items }
    requires positions { ArePositionsBelow (length meaning.now.modes) meaning.now.positions.items }
    ensures { OnOk result (AreNotes meaning.now.of (asked_of tree.now meaning.now) items.new.items) }
{
    for node in 0..tree.len() {
        let note = note_of(alloc, tree, ranges, map, meaning, needs, node)?;
        items.push(note)?;
    }
    Ok(())
}

/// Gives what is known of each node of a tree that breaks no rule.
pub fn find_notes(
    alloc: Global,
    tree: &Tree,
    ranges: &Ranges,
    meaning: &Meaning,
) -> Result<Notes, NoMemory>
    requires ranges { AreRanges tree.now ranges.now }
    requires tables { AreTablesBelow (length meaning.now.modes) (length tree.now.nodes) meaning.now.yields.yields.items meaning.now.yields.findings.items }
    requires positions { ArePositionsBelow (length meaning.now.modes) meaning.now.positions.items }
    ensures { IfOk result (AreNotes meaning.now.of (asked_of tree.now meaning.now)) }
{
    let map = frames(alloc, tree, ranges)?;
    let needs = needs_of(alloc, tree, &map, meaning)?;
    let mut items = Vec::new(alloc);
    add_notes(&mut items, alloc, tree, ranges, &map, meaning, &needs)?;
    Ok(Notes { items })
}
