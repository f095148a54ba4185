//! What each range declares.
ghost use Rattle.std.specs.Prelude.{◌≡◌, ◌<◌, ◌++◌, ℕ, IfOk, OnOk, Some, length, slice_get};
ghost use Rattle.std.specs.List.{All};
ghost use Rattle.a68_ranges.specs.Nodes.{kind_at};
ghost use Rattle.a68_ranges.specs.Definitions.{if_defines, defining, if_joined, unjoined, declared_in, AreDeclared};
ghost use Rattle.a68_ranges.specs.Definitions as definitions;

use crate::reading::kind_of;
use crate::sort::defines;
use a68_base::NoMemory;
use a68_tree::{NodeId, NodeKind, Parts, Tree};
use std::alloc::Global;

// Adds a node, where it defines something.
fn add(list: &mut Vec<NodeId>, tree: &Tree, id: NodeId) -> Result<(), NoMemory>
    requires { id < length tree.now.nodes }
    ensures { OnOk result (list.new.items ≡ list.old.items ++ if_defines id (definitions.defines (kind_at tree.now id))) }
{
    match defines(kind_of(tree, id)) {
        None => Ok(()),
        Some(_) => {
            list.push(id)?;
            Ok(())
        }
    }
}

// Adds those of these nodes that define something.
fn add_all(list: &mut Vec<NodeId>, tree: &Tree, parts: &[NodeId]) -> Result<(), NoMemory>
    requires { All (λ p. p < length tree.now.nodes) parts.now }
    ensures { OnOk result (list.new.items ≡ list.old.items ++ defining tree.now parts.now) }
{
    for part in parts {
        add(list, tree, *part)?;
    }
    Ok(())
}

// Adds what a phrase defines.
fn add_phrase(list: &mut Vec<NodeId>, tree: &Tree, phrase: NodeId) -> Result<(), NoMemory>
    requires { phrase < length tree.now.nodes }
    ensures { OnOk result (list.new.items ≡ list.old.items ++ defining tree.now (if_joined tree.now phrase (kind_at tree.now phrase))) }
{
    if is_joined(kind_of(tree, phrase)) {
        add_all(list, tree, tree.parts(phrase))?;
        return Ok(());
    }
    add(list, tree, phrase)?;
    Ok(())
}

fn is_joined(kind: NodeKind) -> bool
    ensures { result ≡ definitions.is_joined kind }
{
    matches!(kind, NodeKind::Joined)
}

// Adds what the phrases of a Serial define.
fn add_phrases(list: &mut Vec<NodeId>, tree: &Tree, phrases: &[NodeId]) -> Result<(), NoMemory>
    requires { All (λ p. p < length tree.now.nodes) phrases.now }
    ensures { OnOk result (list.new.items ≡ list.old.items ++ defining tree.now (unjoined tree.now phrases.now)) }
{
    for phrase in phrases {
        add_phrase(list, tree, *phrase)?;
    }
    Ok(())
}

// Adds what a node declares.
#[tactic(auto, unfolding(crate::specs::Definitions::declared_in))]
fn add_declared(list: &mut Vec<NodeId>, tree: &Tree, range: NodeId) -> Result<(), NoMemory>
    requires { range < length tree.now.nodes }
    ensures { OnOk result (list.new.items ≡ list.old.items ++ declared_in tree.now range) }
{
    let parts = tree.parts(range);
    match kind_of(tree, range) {
        NodeKind::Serial => {
            add_phrases(list, tree, parts)?;
            Ok(())
        }
        NodeKind::RoutineText | NodeKind::Spec | NodeKind::Loop | NodeKind::Declarer => {
            add_all(list, tree, parts)?;
            Ok(())
        }
        _ => Ok(()),
    }
}

fn declared_at(alloc: Global, tree: &Tree, range: NodeId) -> Result<Parts, NoMemory>
    requires { range < length tree.now.nodes }
    ensures { IfOk result (λ list. list ≡ declared_in tree.now range) }
{
    let mut items = Vec::new(alloc);
    add_declared(&mut items, tree, range)?;
    Ok(Parts { items })
}

/// What each node declares, in order of text.
pub fn declared_of(alloc: Global, tree: &Tree) -> Result<Vec<Parts>, NoMemory>
    ensures { IfOk result (λ declared. AreDeclared tree.now (length tree.now.nodes) declared.items) }
{
    let mut declared = Vec::new(alloc);
    for range in 0..tree.len() {
        declared.push(declared_at(alloc, tree, range)?)?;
    }
    Ok(declared)
}
