//! The ranges that a node puts about its parts.
ghost use Rattle.std.specs.Prelude.{◌≡◌, ◌<◌, ◌∷◌, ◌++◌, [], IfOk, None, length, nat_lt, slice_index_or};
ghost use Rattle.std.specs.List.{All};
ghost use Rattle.a68_ranges.specs.Definitions.{AreDeclared};
ghost use Rattle.a68_ranges.specs.Links as links;
ghost use Rattle.a68_ranges.specs.Links.{AreEntered, listed};
ghost use Rattle.a68_ranges.specs.Nodes.{kind_at, parts_at};
ghost use Rattle.a68_ranges.specs.Surroundings as surroundings;
ghost use Rattle.a68_ranges.specs.Surroundings.{behind_enquiry, first_of, spec_before, in_loop, entered};

use crate::nests::{Layer, Parent};
use crate::reading::kind_of;
use a68_base::NoMemory;
use a68_tree::{NodeId, NodeKind, Parts, Tree};

fn is_while(kind: NodeKind) -> bool
    ensures { result ≡ surroundings.is_while kind }
{
    matches!(kind, NodeKind::While)
}

fn is_spec(kind: NodeKind) -> bool
    ensures { result ≡ surroundings.is_spec kind }
{
    matches!(kind, NodeKind::Spec)
}

fn is_routine_text(kind: NodeKind) -> bool
    ensures { result ≡ links.is_routine_text kind }
{
    matches!(kind, NodeKind::RoutineText)
}

// Does the list of that number hold anything? One that is not there holds nothing.
fn is_filled(lists: &[Parts], number: NodeId) -> bool
    ensures { result ≡ nat_lt 0 (length (slice_index_or lists.now number [])) }
{
    match lists.get(number as usize) {
        Some(list) => !list.items.is_empty(),
        None => false,
    }
}

// Has the range a layer?
fn has_layer(tree: &Tree, declared: &[Parts], range: NodeId) -> bool
    requires { AreDeclared tree.now (length tree.now.nodes) declared.now }
    ensures { result ≡ links.has_layer tree.now range }
{
    is_routine_text(kind_of(tree, range)) || is_filled(declared, range)
}

// Adds the layer of a range inside another one, where the range has one. Most ranges declare nothing, as the enquiries of a
// long chain of ELIF: a look-up outwards does not meet them.
fn enter_range(
    layers: &mut Vec<Layer>,
    tree: &Tree,
    declared: &[Parts],
    range: NodeId,
    outer: Option<usize>,
) -> Result<Option<usize>, NoMemory>
    requires declared { AreDeclared tree.now (length tree.now.nodes) declared.now }
    ensures { IfOk result (λ nest. AreEntered tree.now layers.old.items layers.new.items (range ∷ []) outer nest) }
{
    if !has_layer(tree, declared, range) {
        return Ok(outer);
    }
    let number = layers.len();
    layers.push(Layer { range, outer })?;
    Ok(Some(number))
}

// Enters the range of the enquiry, where the part at that place stands behind it.
fn enter_enquiry(
    layers: &mut Vec<Layer>,
    tree: &Tree,
    declared: &[Parts],
    parts: &[NodeId],
    place: usize,
    outer: Option<usize>,
) -> Result<Option<usize>, NoMemory>
    requires declared { AreDeclared tree.now (length tree.now.nodes) declared.now }
    requires within { place < length parts.now }
    ensures { IfOk result (λ nest. AreEntered tree.now layers.old.items layers.new.items (behind_enquiry parts.now place) outer nest) }
{
    if place == 0 {
        return Ok(outer);
    }
    let nest = enter_range(layers, tree, declared, parts[0], outer)?;
    Ok(nest)
}

// Enters the range of a Spec that stands directly before the part at that place.
fn enter_spec(
    layers: &mut Vec<Layer>,
    tree: &Tree,
    declared: &[Parts],
    parts: &[NodeId],
    place: usize,
    outer: Option<usize>,
) -> Result<Option<usize>, NoMemory>
    requires declared { AreDeclared tree.now (length tree.now.nodes) declared.now }
    requires there { All (λ p. p < length tree.now.nodes) parts.now }
    requires within { place < length parts.now }
    ensures { IfOk result (λ nest. AreEntered tree.now layers.old.items layers.new.items (spec_before tree.now parts.now place) outer nest) }
{
    if place == 0 {
        return Ok(outer);
    }
    let spec = parts[place - 1];
    if !is_spec(kind_of(tree, spec)) {
        return Ok(outer);
    }
    let nest = enter_range(layers, tree, declared, spec, outer)?;
    Ok(nest)
}

// The Serial of the While among these parts of a loop.
fn while_serial(tree: &Tree, parts: &[NodeId]) -> Option<NodeId>
    requires { All (λ p. p < length tree.now.nodes) parts.now }
    ensures { surroundings.while_serial tree.now parts.now ≡ listed result }
{
    for part in parts {
        if is_while(kind_of(tree, *part)) {
            return first(tree.parts(*part));
        }
    }
    None
}

fn first(parts: &[NodeId]) -> Option<NodeId>
    ensures { first_of parts.now ≡ listed result }
{
    if parts.is_empty() {
        return None;
    }
    Some(parts[0])
}

// Enters the range of an enquiry, where there is one.
fn enter_any(
    layers: &mut Vec<Layer>,
    tree: &Tree,
    declared: &[Parts],
    range: Option<NodeId>,
    outer: Option<usize>,
) -> Result<Option<usize>, NoMemory>
    requires declared { AreDeclared tree.now (length tree.now.nodes) declared.now }
    ensures { IfOk result (λ nest. AreEntered tree.now layers.old.items layers.new.items (listed range) outer nest) }
{
    let Some(range) = range else {
        return Ok(outer);
    };
    let nest = enter_range(layers, tree, declared, range, outer)?;
    Ok(nest)
}

// Enters the ranges that a loop puts about a part of that kind.
#[tactic(auto, unfolding(crate::specs::Surroundings::in_loop))]
fn enter_loop(
    layers: &mut Vec<Layer>,
    tree: &Tree,
    declared: &[Parts],
    node: NodeId,
    parts: &[NodeId],
    kind: NodeKind,
    outer: Option<usize>,
) -> Result<Option<usize>, NoMemory>
    requires declared { AreDeclared tree.now (length tree.now.nodes) declared.now }
    requires there { All (λ p. p < length tree.now.nodes) parts.now }
    ensures { IfOk result (λ nest. AreEntered tree.now layers.old.items layers.new.items (in_loop tree.now node parts.now kind) outer nest) }
{
    match kind {
        NodeKind::While => {
            let nest = enter_range(layers, tree, declared, node, outer)?;
            Ok(nest)
        }
        NodeKind::Serial => {
            let around = enter_range(layers, tree, declared, node, outer)?;
            let nest = enter_any(layers, tree, declared, while_serial(tree, parts), around)?;
            Ok(nest)
        }
        _ => Ok(outer),
    }
}

// Enters the ranges that a choice by a mode puts about the part at a place.
fn enter_choice(
    layers: &mut Vec<Layer>,
    tree: &Tree,
    declared: &[Parts],
    parts: &[NodeId],
    place: usize,
    outer: Option<usize>,
) -> Result<Option<usize>, NoMemory>
    requires declared { AreDeclared tree.now (length tree.now.nodes) declared.now }
    requires there { All (λ p. p < length tree.now.nodes) parts.now }
    requires within { place < length parts.now }
    ensures { IfOk result (λ nest. AreEntered tree.now layers.old.items layers.new.items (spec_before tree.now parts.now place ++ behind_enquiry parts.now place) outer nest) }
{
    let around = enter_enquiry(layers, tree, declared, parts, place, outer)?;
    let nest = enter_spec(layers, tree, declared, parts, place, around)?;
    Ok(nest)
}

/// Enters the ranges that the parent of a part puts about it.
#[tactic(auto, unfolding(crate::specs::Surroundings::entered))]
pub fn enter(
    layers: &mut Vec<Layer>,
    tree: &Tree,
    declared: &[Parts],
    parent: Parent,
    part: NodeId,
    about: &[Option<usize>],
) -> Result<Option<usize>, NoMemory>
    requires declared { AreDeclared tree.now (length tree.now.nodes) declared.now }
    requires node { parent.node < length tree.now.nodes }
    requires known { parent.node < length about.now }
    requires within { parent.place < length (parts_at tree.now parent.node) }
    requires part { part < length tree.now.nodes }
    ensures { IfOk result (λ nest. AreEntered tree.now layers.old.items layers.new.items (entered tree.now (kind_at tree.now parent.node) parent.node (parts_at tree.now parent.node) parent.place part) (slice_index_or about.now parent.node None) nest) }
{
    let node = parent.node;
    let outer = about[node as usize];
    let parts = tree.parts(node);
    match kind_of(tree, node) {
        NodeKind::Serial | NodeKind::RoutineText => {
            let nest = enter_range(layers, tree, declared, node, outer)?;
            Ok(nest)
        }
        NodeKind::Conditional | NodeKind::Case => {
            let nest = enter_enquiry(layers, tree, declared, parts, parent.place, outer)?;
            Ok(nest)
        }
        NodeKind::Conformity => {
            let nest = enter_choice(layers, tree, declared, parts, parent.place, outer)?;
            Ok(nest)
        }
        NodeKind::Loop => {
            let nest = enter_loop(
                layers,
                tree,
                declared,
                node,
                parts,
                kind_of(tree, part),
                outer,
            )?;
            Ok(nest)
        }
        _ => Ok(outer),
    }
}
