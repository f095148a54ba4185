//! The modes of declarers.
ghost use Rattle.std.specs.Prelude.{◌≡◌, ◌<◌, ℕ, Bool, true, false, IfOk, IsTrue, ◌↔◌, length, slice_index_or};
ghost use Rattle.a68_declare.specs.Numbering.{number_in};
ghost use Rattle.a68_declare.specs.Outcome.{AreByNode};
ghost use Rattle.a68_declarers.specs.Numbers.{number_at};

use crate::image::number;
use a68_base::NoMemory;
use a68_declarers::Numbers;
use a68_equiv::Classes;
use a68_modes::{ModeId, Modes};
use a68_tree::{NodeId, Tree};
use std::alloc::Global;
use std::marker::Model;

/// The modes of the declarers of a tree, by their nodes.
///
/// Contracts see two lists of the numbers of modes, for each node of the tree: as they stand, and without FLEX.
#[derive(Drop)]
pub struct NodeModes {
    pub(crate) as_they_stand: Vec<ModeId>,
    pub(crate) without_flex: Vec<ModeId>,
}

impl Model for NodeModes {
    ghost use Rattle.a68_declare.specs.Outcome.{ByNode};

    ghost Value = { ByNode };

    ghost view = { λ modes. record { as_they_stand = modes.as_they_stand.items; without_flex = modes.without_flex.items } };
}

impl NodeModes {
    /// Is the node one of the tree?
    pub fn has(&self, declarer: NodeId) -> bool
        ensures { IsTrue result ↔ ((declarer < length self.now.as_they_stand) × (declarer < length self.now.without_flex)) }
    {
        (declarer as usize) < self.as_they_stand.len()
            && (declarer as usize) < self.without_flex.len()
    }

    /// The mode of a declarer as it stands; VOID for VOID in the place of one, and where the tree has no such node.
    pub fn at(&self, declarer: NodeId) -> ModeId
        ensures { result ≡ slice_index_or self.now.as_they_stand declarer 0 }
    {
        number(&self.as_they_stand, declarer)
    }

    /// The mode of a declarer without its FLEX down to the next REF or PROC.
    pub fn without_flex(&self, declarer: NodeId) -> ModeId
        ensures { result ≡ slice_index_or self.now.without_flex declarer 0 }
    {
        number(&self.without_flex, declarer)
    }
}

/// The clean modes of a tree, their classes, and which are those of its declarers; and of each mode the node of the same mode
/// without its FLEX down to the next REF or PROC.
#[derive(Drop)]
pub struct Declared {
    pub modes: Modes,
    pub classes: Classes,
    pub of: NodeModes,
    pub fixed: Vec<ModeId>,
}

// The numbers of the modes of all nodes, as they stand or without FLEX.
fn numbers_of_nodes(
    alloc: Global,
    tree: &Tree,
    numbers: &Numbers,
    to: &[ModeId],
    fixed: bool,
) -> Result<Vec<ModeId>, NoMemory>
    ensures { IfOk result (λ found. AreByNode tree.now (λ d. number_in to.now (number_at numbers.now d fixed)) found.items) }
{
    let mut found = Vec::new(alloc);
    for id in 0..tree.len() {
        found.push(number(to, numbers.of(id, fixed)))?;
    }
    Ok(found)
}

/// The modes of the declarers of a tree, by the nodes of their modes and the numbers of these.
pub fn of_nodes(
    alloc: Global,
    tree: &Tree,
    numbers: &Numbers,
    to: &[ModeId],
) -> Result<NodeModes, NoMemory>
    ensures as_they_stand { IfOk result (λ of. AreByNode tree.now (λ d. number_in to.now (number_at numbers.now d false)) of.as_they_stand) }
    ensures without_flex { IfOk result (λ of. AreByNode tree.now (λ d. number_in to.now (number_at numbers.now d true)) of.without_flex) }
{
    let as_they_stand = numbers_of_nodes(alloc, tree, numbers, to, false)?;
    let without_flex = numbers_of_nodes(alloc, tree, numbers, to, true)?;
    Ok(NodeModes {
        as_they_stand,
        without_flex,
    })
}
