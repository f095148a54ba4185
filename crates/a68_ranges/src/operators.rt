//! The operator definitions of each range, by their signs.
ghost use Rattle.std.specs.Prelude.{◌≡◌, ◌<◌, ◌∷◌, ◌++◌, [], ℕ, IfOk, OnOk, length};
ghost use Rattle.a68_ranges.specs.Definitions.{AreDeclared};
ghost use Rattle.a68_ranges.specs.Definitions as definitions;
ghost use Rattle.a68_ranges.specs.Nodes as nodes;
ghost use Rattle.a68_ranges.specs.Signed.{IsAdded, IsOneAdded};
ghost use Rattle.a68_ranges.specs.Tables.{at_sign, operators_named, AreOperators};
ghost use Rattle.a68_ranges.specs.Tables as tables;
ghost use Rattle.a68_ranges.specs.declared.sort.IndicatorKind.TheVariants as sorts;

use crate::index::items;
use crate::reading::{kind_of, name_of};
use crate::sort::{IndicatorKind, is_sort};
use a68_base::NoMemory;
use a68_tree::{NodeId, Parts, Tree};
use indexmap::IndexMap;
use std::alloc::Global;

/// The operator definitions by range and sign, in declared order: signs as each is first defined, and of each its definitions
/// in order of text.
pub type OperatorIndex = IndexMap<(NodeId, u32), Parts>;

// Adds a node to a list.
fn push_to(list: &mut Parts, id: NodeId) -> Result<(), NoMemory>
    ensures { OnOk result (list.new ≡ list.old ++ id ∷ []) }
{
    list.items.push(id)?;
    Ok(())
}

// Adds a definition of a sign in a range.
fn add(
    alloc: Global,
    index: &mut OperatorIndex,
    range: NodeId,
    sign: u32,
    id: NodeId,
) -> Result<(), NoMemory>
    ensures { OnOk result (IsAdded index.old.entries index.new.entries range sign id) }
{
    if let Some(list) = index.get_mut(&(range, sign)) {
        push_to(list, id)?;
        return Ok(());
    }
    let mut list = Parts {
        items: Vec::new(alloc),
    };
    push_to(&mut list, id)?;
    index.insert((range, sign), list)?;
    Ok(())
}

// Adds a node that a range declares, where it defines an operator.
fn add_operator(
    alloc: Global,
    index: &mut OperatorIndex,
    tree: &Tree,
    range: NodeId,
    id: NodeId,
) -> Result<(), NoMemory>
    ensures { OnOk result (IsOneAdded tree.now index.old.entries index.new.entries range id (tables.is_sort sorts.Operator (definitions.defines (nodes.kind_at tree.now id)))) }
{
    if !is_sort(IndicatorKind::Operator, kind_of(tree, id)) {
        return Ok(());
    }
    add(alloc, index, range, name_of(tree, id), id)?;
    Ok(())
}

// Adds those of these nodes of a range that define operators.
fn add_operators(
    alloc: Global,
    index: &mut OperatorIndex,
    tree: &Tree,
    range: NodeId,
    list: &[NodeId],
) -> Result<(), NoMemory>
    requires { (sign : ℕ) → at_sign index.old.entries range sign ≡ [] }
    ensures own { OnOk result ((sign : ℕ) → at_sign index.new.entries range sign ≡ operators_named tree.now sign list.now) }
    ensures others { OnOk result ((r sign : ℕ) → (r ≡ range → ⊥) → at_sign index.new.entries r sign ≡ at_sign index.old.entries r sign) }
{
    for id in list {
        add_operator(alloc, index, tree, range, *id)?;
    }
    Ok(())
}

// Adds the operator definitions of all ranges.
fn add_ranges(
    alloc: Global,
    index: &mut OperatorIndex,
    tree: &Tree,
    declared: &[Parts],
) -> Result<(), NoMemory>
    requires declared { AreDeclared tree.now (length tree.now.nodes) declared.now }
    requires fresh { (range sign : ℕ) → at_sign index.old.entries range sign ≡ [] }
    ensures { OnOk result (AreOperators tree.now index.new.entries) }
{
    for range in 0..tree.len() {
        add_operators(alloc, index, tree, range, items(&declared[range as usize]))?;
    }
    Ok(())
}

/// The operator definitions of all ranges, by their signs.
pub fn operators_of(
    alloc: Global,
    tree: &Tree,
    declared: &[Parts],
) -> Result<OperatorIndex, NoMemory>
    requires { AreDeclared tree.now (length tree.now.nodes) declared.now }
    ensures { IfOk result (λ operators. AreOperators tree.now operators.entries) }
{
    let mut operators = IndexMap::new(alloc);
    add_ranges(alloc, &mut operators, tree, declared)?;
    Ok(operators)
}

/// The definitions of a sign in a range.
pub fn at_sign(index: &OperatorIndex, range: NodeId, sign: u32) -> &[NodeId]
    ensures { result.now ≡ tables.at_sign index.now.entries range sign }
{
    match index.get(&(range, sign)) {
        Some(list) => &list.items,
        None => &[],
    }
}
