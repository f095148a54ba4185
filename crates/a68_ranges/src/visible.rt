//! The definitions that count in each layer, by their names.
ghost use Rattle.std.specs.Prelude.{◌≡◌, ◌<◌, ◌∷◌, [], ℕ, List, IfOk, length, nat_lt, slice_index_or};
ghost use Rattle.a68_maps.specs.Found.{IsMade};
ghost use Rattle.a68_ranges.specs.Definitions.{AreDeclared};
ghost use Rattle.a68_ranges.specs.Links.{IsBelow};
ghost use Rattle.a68_ranges.specs.Tables.{AreFirst, first_named};
ghost use Rattle.a68_ranges.specs.Visible as specs;
ghost use Rattle.a68_ranges.specs.Visible.{AreRoots, AreVisible, IsOver, IsRoot, seen_at};

use crate::nests::Nests;
use crate::reading::{kind_of, name_of};
use crate::sort::{IndicatorKind, is_sort};
use a68_base::NoMemory;
use a68_maps::{Map, Maps};
use a68_tree::{NodeId, Parts, Tree};
use std::alloc::Global;
use std::marker::Model;

/// The definitions of one sort that count in each layer: a map from names to nodes, made from that of the next outer layer. So a
/// name is found at once, however many layers lie between.
#[derive(Drop)]
pub struct Visible {
    maps: Maps,
    roots: Vec<Map>,
}

impl Model for Visible {
    ghost use Rattle.a68_ranges.specs.Visible.{Seen};

    ghost Value = { Seen };

    ghost view = { λ visible. record { maps = visible.maps; roots = visible.roots.items } };
}

impl Visible {
    /// The definition of a name that counts in a layer.
    pub fn find(&self, layer: Option<usize>, name: u32) -> Option<NodeId>
        ensures { result ≡ seen_at self.now layer name }
    {
        let Some(number) = layer else {
            return None;
        };
        match self.roots.get(number) {
            Some(root) => self.maps.get(*root, name),
            None => None,
        }
    }
}

// Puts a node into a map under its name, where it defines a word of that sort.
fn put_one(
    maps: &mut Maps,
    tree: &Tree,
    sort: IndicatorKind,
    id: NodeId,
    outer: Map,
) -> Result<Map, NoMemory>
    requires { IsMade maps.old outer }
    ensures { IfOk result (λ map. IsOver maps.old maps.new outer map (λ name. first_named tree.now sort name (id ∷ []))) }
{
    if !is_sort(sort, kind_of(tree, id)) {
        return Ok(outer);
    }
    let map = maps.with(outer, name_of(tree, id), id)?;
    Ok(map)
}

// Puts those of these nodes into a map that define words of that sort. Of several with one name the first counts.
fn put_all(
    maps: &mut Maps,
    tree: &Tree,
    sort: IndicatorKind,
    list: &[NodeId],
    outer: Map,
) -> Result<Map, NoMemory>
    requires { IsMade maps.old outer }
    ensures { IfOk result (λ map. IsOver maps.old maps.new outer map (λ name. first_named tree.now sort name list.now)) }
{
    let mut map = outer;
    let mut place = list.len();
    'places: while place > 0 {
        place -= 1;
        let next = put_one(maps, tree, sort, list[place], map)?;
        map = next;
    }
    Ok(map)
}

// The list of that number. One that is not there holds nothing.
fn list_at(lists: &[Parts], number: NodeId) -> &[NodeId]
    ensures { result.now ≡ slice_index_or lists.now number [] }
{
    match lists.get(number as usize) {
        Some(list) => &list.items,
        None => &[],
    }
}

// The map of a layer. Outside all layers nothing is declared.
fn root_at(roots: &[Map], layer: Option<usize>) -> Map
    requires { IsBelow (length roots.now) layer }
    ensures { result ≡ specs.root_at roots.now layer }
{
    match layer {
        None => None,
        Some(number) => roots[number],
    }
}

// Makes the map of the next layer, or takes that of an earlier one which is the same.
fn root_of(
    maps: &mut Maps,
    tree: &Tree,
    sort: IndicatorKind,
    declared: &[Parts],
    nests: &Nests,
    roots: &[Map],
) -> Result<Map, NoMemory>
    requires declared { AreDeclared tree.now (length tree.now.nodes) declared.now }
    requires there { length roots.now < length nests.now.layers }
    requires before { AreRoots tree.now sort nests.now.layers maps.old roots.now (length roots.now) }
    ensures { IfOk result (λ root. IsRoot tree.now sort nests.now.layers maps.old maps.new (length roots.now) root) }
{
    let number = roots.len();
    if let Some(twin) = nests.twin(number) {
        return Ok(roots[twin]);
    }
    let layer = nests.layer(number);
    let outer = root_at(roots, layer.outer);
    let root = put_all(maps, tree, sort, list_at(declared, layer.range), outer)?;
    Ok(root)
}

/// The definitions of one sort that count in each layer.
pub fn visible_of(
    alloc: Global,
    tree: &Tree,
    sort: IndicatorKind,
    declared: &[Parts],
    nests: &Nests,
) -> Result<Visible, NoMemory>
    requires { AreDeclared tree.now (length tree.now.nodes) declared.now }
    ensures { IfOk result (λ visible. (entries : List ((ℕ × ℕ) × ℕ)) → AreFirst tree.now sort entries → AreVisible nests.now.layers entries visible) }
{
    let mut maps = Maps::new(alloc);
    let mut roots = Vec::new(alloc);
    'layers: while roots.len() < nests.len() {
        let root = root_of(&mut maps, tree, sort, declared, nests, &roots)?;
        roots.push(root)?;
    }
    Ok(Visible { maps, roots })
}
