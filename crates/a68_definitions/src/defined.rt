//! The modes of definitions, of routine texts, plans, generators and casts.
ghost use Rattle.std.specs.Prelude.{◌≡◌, ◌<◌, ◌+◌, IfOk, List, OnOk, length, replicate, slice_set};
ghost use Rattle.a68_definitions.specs.Defined.{AllBelow, AreBelow, AreDefined, AreDefinedFrom};
ghost use Rattle.a68_modes.specs.declared.shape.Shape.{Shape};
ghost use Rattle.a68_definitions.specs.Defined as specs;

use crate::reading::{kind_of, parts_of};
use crate::requests::{granted, requested};
use a68_base::NoMemory;
use a68_declare::NodeModes;
use a68_mode_table::ModeTable;
use a68_modes::ModeId;
use a68_tree::{NodeId, NodeKind, Tree};
use std::alloc::Global;

// Notes the mode of a node; nothing where there is no such node.
fn note(table: &mut [ModeId], node: NodeId, mode: ModeId)
    ensures { table.new ≡ slice_set table.old node mode }
{
    let place = node as usize;
    if place < table.len() {
        table[place] = mode;
    }
}

// Notes the modes of the parameters that stand among these parts.
fn note_parameters(tree: &Tree, of: &NodeModes, parts: &[NodeId], table: &mut [ModeId])
    ensures { table.new ≡ specs.with_parameters tree.now of.now 0 parts.now table.old }
{
    let mut before = 0;
    for part in parts {
        if kind_of(tree, *part) == NodeKind::Parameter {
            note(table, *part, of.without_flex(before));
        } else {
            before = *part;
        }
    }
}

// Notes the mode of a node, and of its parameters.
fn note_all(tree: &Tree, of: &NodeModes, node: NodeId, mode: ModeId, table: &mut [ModeId])
    requires { node < length tree.now.nodes }
    ensures { table.new ≡ specs.with_mode tree.now of.now node mode table.old }
{
    note(table, node, mode);
    match kind_of(tree, node) {
        NodeKind::RoutineText | NodeKind::Spec => {
            note_parameters(tree, of, parts_of(tree, node), table);
        }
        _ => {}
    }
}

// Looks at one node more.
fn define(
    alloc: Global,
    tree: &Tree,
    of: &NodeModes,
    modes: &mut ModeTable,
    table: &mut [ModeId],
    node: NodeId,
) -> Result<(), NoMemory>
    requires there { node < length tree.now.nodes }
    requires of { AreBelow (length modes.old) of.now }
    requires table { AllBelow (length modes.old) table.old }
    ensures defined { OnOk result ((start : List Shape) → AreDefinedFrom tree.now of.now start (node + 1) modes.old table.old → AreDefinedFrom tree.now of.now start node modes.new table.new) }
    ensures of { OnOk result (AreBelow (length modes.new) of.now) }
    ensures table { OnOk result (AllBelow (length modes.new) table.new) }
{
    let _modes = modes.modes();
    let kind = kind_of(tree, node);
    let request = requested(alloc, tree, of, table, kind, parts_of(tree, node))?;
    let mode = granted(alloc, modes, request)?;
    note_all(tree, of, node, mode, table);
    Ok(())
}

// Looks at all nodes, from the last to the first.
fn define_all(
    alloc: Global,
    tree: &Tree,
    of: &NodeModes,
    modes: &mut ModeTable,
    table: &mut [ModeId],
) -> Result<(), NoMemory>
    requires of { AreBelow (length modes.old) of.now }
    requires table { AllBelow (length modes.old) table.old }
    requires none { table.old ≡ replicate (length tree.now.nodes) 0 }
    ensures defined { OnOk result (AreDefined tree.now of.now modes.old modes.new table.new) }
    ensures of { OnOk result (AreBelow (length modes.new) of.now) }
    ensures table { OnOk result (AllBelow (length modes.new) table.new) }
{
    let mut left = tree.len();
    while left > 0 {
        left -= 1;
        define(alloc, tree, of, modes, table, left)?;
    }
    Ok(())
}

/// Finds the modes of what a tree defines, and of its routine texts, plans, generators and casts; VOID for all other nodes. A
/// mode that is not there joins the others.
pub fn defined_modes(
    alloc: Global,
    tree: &Tree,
    of: &NodeModes,
    modes: &mut ModeTable,
) -> Result<Vec<ModeId>, NoMemory>
    requires { AreBelow (length modes.old) of.now }
    ensures defined { IfOk result (λ table. AreDefined tree.now of.now modes.old modes.new table.items) }
    ensures of { OnOk result (AreBelow (length modes.new) of.now) }
    ensures table { IfOk result (λ table. AllBelow (length modes.new) table.items) }
{
    let _modes = modes.modes();
    let mut table = vec![in alloc; 0; tree.len() as usize]?;
    define_all(alloc, tree, of, modes, &mut table)?;
    Ok(table)
}
