//! The modes of the parameters of all operators, listed once.
ghost use Rattle.std.specs.Prelude.{◌≡◌, ◌<◌, [], IfOk, length, slice_get, unwrap_or};
ghost use Rattle.a68_identify.specs.Operators.{AreListed, AreListedBefore};
ghost use Rattle.a68_identify.specs.Operators as operators;

use crate::operands::operand_modes;
use a68_base::NoMemory;
use a68_declare::NodeModes;
use a68_modes::{Members, ModeId};
use a68_tree::{NodeId, Tree};
use std::alloc::Global;
use std::marker::Model;

/// The modes of the parameters of each operator that a tree defines, listed once, with the modes of its declarers.
///
/// Contracts see a list for each node.
#[derive(Drop)]
pub struct OperatorModes<'a> {
    of: &'a NodeModes,
    lists: Vec<Members>,
}

impl<'a> Model for OperatorModes<'a> {
    ghost use Rattle.a68_identify.specs.Operators.{Listed};

    ghost Value = { Listed };

    ghost view = { λ modes. record { of = modes.of.now; lists = modes.lists.items } };
}

// The modes of the parameters of the operator that each node defines.
fn lists_of(alloc: Global, tree: &Tree, of: &NodeModes) -> Result<Vec<Members>, NoMemory>
    requires { length of.now.as_they_stand ≡ length of.now.without_flex }
    ensures { IfOk result (λ lists. AreListedBefore tree.now of.now (length tree.now.nodes) lists.items) }
{
    let mut lists = Vec::new(alloc);
    for definition in 0..tree.len() {
        lists.push(operand_modes(alloc, tree, of, definition)?)?;
    }
    Ok(lists)
}

// The list of a node; a number of no node has an empty one.
fn list_at(lists: &[Members], definition: NodeId) -> &[ModeId]
    ensures { result.now ≡ unwrap_or (slice_get lists.now definition) [] }
{
    match lists.get(definition as usize) {
        Some(list) => &list.items,
        None => &[],
    }
}

impl<'a> OperatorModes<'a> {
    /// Lists the modes of the parameters of all operators of a tree, by the modes of its declarers.
    pub fn new(alloc: Global, tree: &Tree, of: &'a NodeModes) -> Result<OperatorModes<'a>, NoMemory>
        requires { length of.now.as_they_stand ≡ length of.now.without_flex }
        ensures listed { IfOk result (λ modes. AreListed tree.now modes) }
        ensures of { IfOk result (λ modes. modes.of ≡ of.now) }
    {
        let lists = lists_of(alloc, tree, of)?;
        Ok(OperatorModes { of, lists })
    }

    /// The modes of the declarers of the tree.
    pub fn declared(&self) -> &NodeModes
        ensures { result.now ≡ self.now.of }
    {
        self.of
    }

    /// The modes of the parameters of the operator that a node defines, in order of text.
    pub fn parameters(&self, definition: NodeId) -> &[ModeId]
        ensures { result.now ≡ unwrap_or (slice_get self.now.lists definition) [] }
    {
        list_at(&self.lists, definition)
    }
}

/// The modes of the parameters of an operator of a tree, in order of text.
pub fn parameters_of<'b>(
    tree: &Tree,
    modes: &'b OperatorModes<'_>,
    definition: NodeId,
) -> &'b [ModeId]
    requires { AreListed tree.now modes.now }
    ensures { result.now ≡ operators.operand_modes tree.now modes.now.of definition }
{
    let _tree = tree;
    modes.parameters(definition)
}
