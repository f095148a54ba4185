//! The ranges about each node.
ghost use Rattle.std.specs.Prelude.{◌≡◌, ◌<◌, ℕ, List, true, IfOk, None, Some, length, slice_get, slice_index_or};
ghost use Rattle.std.specs.List.{All};
ghost use Rattle.a68_ranges.specs.Definitions.{AreDeclared};
ghost use Rattle.a68_ranges.specs.Parents.{AreParentsBefore, IsParentBefore, HaveParts};
ghost use Rattle.a68_ranges.specs.Tables.{AreNests, IsNestOf, FindsOut};
ghost use Rattle.a68_ranges.specs.Links.{IsBelow};
ghost use Rattle.a68_ranges.specs.Visible.{AreTwins, AreVisible, IsTwin};

use crate::layers::enter;
use crate::visible::Visible;
use a68_base::NoMemory;
use a68_tree::{NodeId, Parts, Tree};
use std::alloc::Global;
use std::marker::Model;

/// A range as it surrounds nodes, and the next outer one, by its number.
#[derive(Clone, Copy, Debug, PartialEq, Eq)]
pub struct Layer {
    pub range: NodeId,
    pub outer: Option<usize>,
}

/// The node that another one is a part of, and its place among the parts.
#[derive(Clone, Copy)]
pub struct Parent {
    pub node: NodeId,
    pub place: usize,
}

/// The ranges about each node of a tree: the number of the innermost layer, and the layers. Ranges that declare nothing have
/// none, but for routine texts. Each part of a range has a layer of its own; all but the first have a twin among the earlier ones.
#[derive(Drop)]
pub struct Nests {
    about: Vec<Option<usize>>,
    layers: Vec<Layer>,
    twins: Vec<Option<usize>>,
}

impl Model for Nests {
    ghost use Rattle.a68_ranges.specs.Tables.{Nest};
    ghost use Rattle.a68_ranges.specs.Links.{LayersAreLinked};
    ghost use Rattle.a68_ranges.specs.Visible.{AreTwins};

    ghost Value = { Nest };

    ghost view = { λ nests. record { about = nests.about.items; layers = nests.layers.items } };

    ghost invariant = { λ nests. LayersAreLinked nests.about.items nests.layers.items × AreTwins nests.layers.items nests.twins.items };
}

impl Nests {
    /// The innermost layer about a node.
    pub fn about(&self, at: NodeId) -> Option<usize>
        requires { at < length self.now.about }
        ensures is { result ≡ slice_index_or self.now.about at None }
        ensures there { IsBelow (length self.now.layers) result }
    {
        self.about[at as usize]
    }

    /// The layer of that number.
    pub fn layer(&self, number: usize) -> Layer
        requires { number < length self.now.layers }
        ensures is { slice_get self.now.layers number ≡ Some result }
        ensures outer { IsBelow number result.outer }
    {
        self.layers[number]
    }

    /// How many layers there are.
    pub fn len(&self) -> usize
        ensures { result ≡ length self.now.layers }
    {
        self.layers.len()
    }

    /// An earlier layer that is the same as the one of that number, where there is one.
    pub fn twin(&self, number: usize) -> Option<usize>
        requires { number < length self.now.layers }
        ensures { IsTwin self.now.layers number result }
    {
        self.twins[number]
    }

    /// The definition of a name by the innermost of the ranges about a node that has one.
    pub fn find(&self, visible: &Visible, at: NodeId, name: u32) -> Option<NodeId>
        requires { at < length self.now.about }
        ensures { (entries : List ((ℕ × ℕ) × ℕ)) → AreVisible self.now.layers entries visible.now
            → FindsOut self.now.layers entries name (slice_index_or self.now.about at None) result }
    {
        visible.find(self.about(at), name)
    }
}

fn is_same(one: Option<usize>, other: Option<usize>) -> bool
    ensures { result ≡ true → one ≡ other }
{
    match (one, other) {
        (None, None) => true,
        (Some(a), Some(b)) => a == b,
        (None, Some(_)) | (Some(_), None) => false,
    }
}

fn is_same_layer(one: Layer, other: Layer) -> bool
    ensures { result ≡ true → one ≡ other }
{
    if one.range != other.range {
        return false;
    }
    is_same(one.outer, other.outer)
}

// That layer, where it is an earlier one than another, and the same.
fn twin_of(layers: &[Layer], number: usize, last: Option<usize>) -> Option<usize>
    requires { number < length layers.now }
    ensures { IsTwin layers.now number result }
{
    let Some(twin) = last else {
        return None;
    };
    if twin >= number {
        return None;
    }
    if is_same_layer(layers[twin], layers[number]) {
        Some(twin)
    } else {
        None
    }
}

// The last layer of a range so far; that one from now on.
fn replace_last(last: &mut [Option<usize>], range: NodeId, number: usize) -> Option<usize> {
    let place = range as usize;
    if place >= last.len() {
        return None;
    }
    let before = last[place];
    last[place] = Some(number);
    before
}

// For each layer an earlier one that is the same: the last one of its range. Where parts of a range lie in unlike layers, as WHILE
// and DO do, a few layers have no twin though an earlier one is the same.
fn twins_of(alloc: Global, layers: &[Layer], nodes: usize) -> Result<Vec<Option<usize>>, NoMemory>
    ensures { IfOk result (λ twins. AreTwins layers.now twins.items) }
{
    let mut last = vec![in alloc; None; nodes]?;
    let mut twins = Vec::new(alloc);
    for number in 0..layers.len() {
        let before = replace_last(&mut last, layers[number].range, number);
        twins.push(twin_of(layers, number, before))?;
    }
    Ok(twins)
}

// Notes a node as the parent of these parts of it. Of two places of one part the first one counts.
fn note_parts(parts: &[NodeId], node: NodeId, parents: &mut Vec<Option<Parent>>)
    requires { All (λ p. p < length parents.old.items) parts.now }
    ensures { HaveParts parts.now node 0 parents.old.items parents.new.items }
{
    let mut place = parts.len();
    'places: while place > 0 {
        place -= 1;
        parents[parts[place] as usize] = Some(Parent { node, place });
    }
}

/// The parent of each node: of several the one with the greatest number, which is the first in the text.
fn parents(alloc: Global, tree: &Tree) -> Result<Vec<Option<Parent>>, NoMemory>
    ensures { IfOk result (λ parents. AreParentsBefore tree.now (length tree.now.nodes) parents.items) }
{
    let mut parents = vec![in alloc; None; tree.len() as usize]?;
    for node in 0..tree.len() {
        note_parts(tree.parts(node), node, &mut parents);
    }
    Ok(parents)
}

// Enters the ranges about a node, by its parent.
fn nest_of(
    layers: &mut Vec<Layer>,
    tree: &Tree,
    declared: &[Parts],
    id: NodeId,
    parent: Option<Parent>,
    about: &[Option<usize>],
) -> Result<Option<usize>, NoMemory>
    requires declared { AreDeclared tree.now (length tree.now.nodes) declared.now }
    requires there { id < length tree.now.nodes }
    requires parent { IsParentBefore tree.now (length tree.now.nodes) id parent }
    requires known { length about.now ≡ id }
    ensures { IfOk result (λ nest. IsNestOf tree.now about.now layers.old.items layers.new.items id parent nest) }
{
    let Some(parent) = parent else {
        return Ok(None);
    };
    let nest = enter(layers, tree, declared, parent, id, about)?;
    Ok(nest)
}

/// The ranges about each node, by what each node declares.
pub fn nests_of(alloc: Global, tree: &Tree, declared: &[Parts]) -> Result<Nests, NoMemory>
    requires { AreDeclared tree.now (length tree.now.nodes) declared.now }
    ensures { IfOk result (λ nests. AreNests tree.now nests) }
{
    let parents = parents(alloc, tree)?;
    let mut about = Vec::new(alloc);
    let mut layers = Vec::new(alloc);
    for id in 0..tree.len() {
        let nest = nest_of(
            &mut layers,
            tree,
            declared,
            id,
            parents[id as usize],
            &about,
        )?;
        about.push(nest)?;
    }
    let twins = twins_of(alloc, &layers, tree.len() as usize)?;
    Ok(Nests {
        about,
        layers,
        twins,
    })
}
