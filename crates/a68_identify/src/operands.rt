//! The modes of the parameters of an operator.
ghost use Rattle.std.specs.Prelude.{◌≡◌, ◌<◌, [], IfOk, length, map};
ghost use Rattle.a68_declarers.specs.Shapes.{front};
ghost use Rattle.a68_identify.specs.Operators as operators;
ghost use Rattle.a68_identify.specs.Operators.{mode_at, declarers_among, declarers_of};
ghost use Rattle.a68_ranges.specs.Nodes.{kind_at, parts_at};

use crate::reading::{is_parameter, kind_of, parts_of};
use a68_base::NoMemory;
use a68_declare::NodeModes;
use a68_modes::{Members, ModeId};
use a68_tree::{NodeId, NodeKind, Tree};
use std::alloc::Global;

/// The mode of a declarer, without its FLEX down to the next REF or PROC; VOID for a number of no node.
fn mode_of(of: &NodeModes, declarer: NodeId) -> ModeId
    requires { length of.now.as_they_stand ≡ length of.now.without_flex }
    ensures { result ≡ mode_at of.now declarer }
{
    if of.has(declarer) {
        of.without_flex(declarer)
    } else {
        0
    }
}

/// The parts before the last one.
fn front_of(parts: &[NodeId]) -> &[NodeId]
    ensures { result.now ≡ front parts.now }
{
    &parts[..parts.len().saturating_sub(1)]
}

/// The modes of these declarers.
fn modes_of(alloc: Global, of: &NodeModes, declarers: &[NodeId]) -> Result<Members, NoMemory>
    requires { length of.now.as_they_stand ≡ length of.now.without_flex }
    ensures { IfOk result (λ modes. modes ≡ map (mode_at of.now) declarers.now) }
{
    let mut items = Vec::new(alloc);
    for declarer in declarers {
        items.push(mode_of(of, *declarer))?;
    }
    Ok(Members { items })
}

/// The modes of the parameters among the parts of a routine text.
fn modes_of_text(
    alloc: Global,
    tree: &Tree,
    of: &NodeModes,
    text: NodeId,
) -> Result<Members, NoMemory>
    requires { length of.now.as_they_stand ≡ length of.now.without_flex }
    ensures { IfOk result (λ modes. modes ≡ map (mode_at of.now) (declarers_among tree.now text (parts_at tree.now text))) }
{
    let mut declarer = text;
    let mut items = Vec::new(alloc);
    for part in parts_of(tree, text) {
        if is_parameter(tree, *part) {
            items.push(mode_of(of, declarer))?;
        } else {
            declarer = *part;
        }
    }
    Ok(Members { items })
}

/// No modes.
fn no_modes(alloc: Global) -> Members
    ensures { result ≡ [] }
{
    Members {
        items: Vec::new(alloc),
    }
}

/// The modes of the parameters of a plan or a routine text.
#[tactic(auto, unfolding(crate::specs::Operators::declarers_of))]
fn modes_in(alloc: Global, tree: &Tree, of: &NodeModes, id: NodeId) -> Result<Members, NoMemory>
    requires { length of.now.as_they_stand ≡ length of.now.without_flex }
    ensures { IfOk result (λ modes. modes ≡ map (mode_at of.now) (declarers_of tree.now id (kind_at tree.now id))) }
{
    match kind_of(tree, id) {
        NodeKind::Plan => modes_of(alloc, of, front_of(parts_of(tree, id))),
        NodeKind::RoutineText => modes_of_text(alloc, tree, of, id),
        _ => Ok(no_modes(alloc)),
    }
}

/// The modes of the parameters of an operator, in order of text.
pub fn operand_modes(
    alloc: Global,
    tree: &Tree,
    of: &NodeModes,
    definition: NodeId,
) -> Result<Members, NoMemory>
    requires { length of.now.as_they_stand ≡ length of.now.without_flex }
    ensures { IfOk result (λ modes. modes ≡ operators.operand_modes tree.now of.now definition) }
{
    match parts_of(tree, definition).first() {
        Some(first) => modes_in(alloc, tree, of, *first),
        None => Ok(no_modes(alloc)),
    }
}
