//! What is asked of all nodes.
ghost use Rattle.std.specs.Prelude.{◌≡◌, ◌<◌, ◌≤◌, ◌+◌, IfOk, List, OnOk, length, slice_set};
ghost use Rattle.a68_definitions.specs.Defined.{AllBelow};
ghost use Rattle.a68_identify.specs.Operators.{NumbersAreThere};
ghost use Rattle.a68_modes.specs.declared.shape.Shape.{Shape};
ghost use Rattle.a68_positions.specs.Positions.{ArePositions, ArePositionsFrom, with_parts};
ghost use Rattle.a68_positions.specs.Positions as specs;
ghost use Rattle.a68_positions.specs.Below.{ArePositionsBelow, IsPositionBelow};
ghost use Rattle.a68_ranges.specs.Nodes.{parts_at};
ghost use Rattle.a68_yields.specs.Below.{AreTablesBelow, IsFindingBelow};

use crate::aside::{aside_of, set_aside};
use crate::asker::Asker;
use crate::giving::given_to;
use crate::position::{Position, finding_of, position_of};
use a68_base::NoMemory;
use a68_declare::NodeModes;
use a68_definitions::{Tags, parts_of};
use a68_mode_table::ModeTable;
use a68_modes::{ModeId, Modes};
use a68_tree::{NodeId, Tree};
use a68_yields::{Finding, Yielding};
use std::alloc::Global;

// Notes what is asked of a node; nothing where there is no such node.
fn note(positions: &mut [Position], node: NodeId, position: Position)
    ensures { positions.new ≡ slice_set positions.old node position }
{
    let place = node as usize;
    if place < positions.len() {
        positions[place] = position;
    }
}

// Notes what a node asks of its parts.
fn note_parts(
    tree: &Tree,
    tags: &Tags,
    of: &NodeModes,
    defined: &[ModeId],
    modes: &Modes,
    asker: Asker,
    positions: &mut [Position],
)
    requires own { IsPositionBelow (length modes.now) asker.own }
    requires found { IsFindingBelow (length modes.now) asker.found }
    requires defined { AllBelow (length modes.now) defined.now }
    ensures { positions.new ≡ with_parts (record { tree = tree.now; tags = tags.now; of = of.now; defined = defined.now }) modes.now asker 0 (parts_at tree.now asker.node) positions.old }
{
    for (place, part) in parts_of(tree, asker.node).iter().enumerate() {
        let position = given_to(tree, tags, of, defined, modes, asker, place, *part);
        note(positions, *part, position);
    }
}

// Looks at one node more.
fn look(
    alloc: Global,
    tree: &Tree,
    tags: &Tags,
    of: &NodeModes,
    defined: &[ModeId],
    modes: &mut ModeTable,
    yields: &[Yielding],
    findings: &[Finding],
    positions: &mut [Position],
    node: NodeId,
) -> Result<(), NoMemory>
    requires of { NumbersAreThere tree.now modes.old of.now }
    requires defined { AllBelow (length modes.old) defined.now }
    requires tables { AreTablesBelow (length modes.old) (length tree.now.nodes) yields.now findings.now }
    requires positions { ArePositionsBelow (length modes.old) positions.old }
    ensures positions { OnOk result ((start : List Shape) → ArePositionsFrom (record { tree = tree.now; tags = tags.now; of = of.now; defined = defined.now }) yields.now findings.now start node modes.old positions.old → ArePositionsFrom (record { tree = tree.now; tags = tags.now; of = of.now; defined = defined.now }) yields.now findings.now start (node + 1) modes.new positions.new) }
    ensures below { OnOk result (ArePositionsBelow (length modes.new) positions.new) }
    ensures of { OnOk result (NumbersAreThere tree.now modes.new of.now) }
    ensures defined { OnOk result (AllBelow (length modes.new) defined.now) }
    ensures tables { OnOk result (AreTablesBelow (length modes.new) (length tree.now.nodes) yields.now findings.now) }
{
    let own = position_of(positions, node);
    let found = finding_of(findings, node);
    let needed = aside_of(tree, tags, modes.modes(), node, own, found);
    let aside = set_aside(alloc, tree, of, modes, yields, needed)?;
    let asker = Asker {
        node,
        own,
        found,
        aside,
    };
    note_parts(tree, tags, of, defined, modes.modes(), asker, positions);
    Ok(())
}

// Looks at all nodes, from the first to the last.
fn look_at_all(
    alloc: Global,
    tree: &Tree,
    tags: &Tags,
    of: &NodeModes,
    defined: &[ModeId],
    modes: &mut ModeTable,
    yields: &[Yielding],
    findings: &[Finding],
    positions: &mut [Position],
) -> Result<(), NoMemory>
    requires of { NumbersAreThere tree.now modes.old of.now }
    requires defined { AllBelow (length modes.old) defined.now }
    requires tables { AreTablesBelow (length modes.old) (length tree.now.nodes) yields.now findings.now }
    requires start { positions.old ≡ specs.at_start (length tree.now.nodes) }
    ensures positions { OnOk result (ArePositions (record { tree = tree.now; tags = tags.now; of = of.now; defined = defined.now }) yields.now findings.now modes.old modes.new positions.new) }
    ensures below { OnOk result (ArePositionsBelow (length modes.new) positions.new) }
    ensures of { OnOk result (NumbersAreThere tree.now modes.new of.now) }
    ensures defined { OnOk result (AllBelow (length modes.new) defined.now) }
    ensures tables { OnOk result (AreTablesBelow (length modes.new) (length tree.now.nodes) yields.now findings.now) }
{
    let _modes = modes.modes();
    for node in 0..tree.len() {
        look(
            alloc, tree, tags, of, defined, modes, yields, findings, positions, node,
        )?;
    }
    Ok(())
}

/// Finds what is asked of each node of a tree, by its definitions, what its nodes yield and what is found at them. A mode that is not there joins
/// the others. NoMemory also where 16,777,216 modes are there.
pub fn positions(
    alloc: Global,
    tree: &Tree,
    tags: &Tags,
    of: &NodeModes,
    defined: &[ModeId],
    modes: &mut ModeTable,
    yields: &[Yielding],
    findings: &[Finding],
) -> Result<Vec<Position>, NoMemory>
    requires of { NumbersAreThere tree.now modes.old of.now }
    requires defined { AllBelow (length modes.old) defined.now }
    requires tables { AreTablesBelow (length modes.old) (length tree.now.nodes) yields.now findings.now }
    ensures positions { IfOk result (λ found. ArePositions (record { tree = tree.now; tags = tags.now; of = of.now; defined = defined.now }) yields.now findings.now modes.old modes.new found.items) }
    ensures below { IfOk result (λ found. ArePositionsBelow (length modes.new) found.items) }
    ensures of { OnOk result (NumbersAreThere tree.now modes.new of.now) }
    ensures defined { OnOk result (AllBelow (length modes.new) defined.now) }
    ensures tables { OnOk result (AreTablesBelow (length modes.new) (length tree.now.nodes) yields.now findings.now) }
{
    let mut found = vec![in alloc; Position::Nowhere; tree.len() as usize]?;
    note(&mut found, 0, Position::Goal(0, None));
    look_at_all(
        alloc, tree, tags, of, defined, modes, yields, findings, &mut found,
    )?;
    Ok(found)
}
