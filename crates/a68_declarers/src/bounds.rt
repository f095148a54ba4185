//! Bounds of declarers.
ghost use Rattle.std.specs.Prelude.{◌≡◌, ◌<◌, ◌+◌, ◌&&◌, ◌↔◌, ℕ, true, false, IsTrue, IfOk, length, slice_index_or};
ghost use Rattle.std.specs.List.{Contains};
ghost use Rattle.a68_declarers.specs.Actual.{AreActual, IsActual};
ghost use Rattle.a68_declarers.specs.Bounds as bounds;
ghost use Rattle.a68_declarers.specs.Bounds.{next_start, bracket_at, barred_by, is_wrong, AreBarred, AreMarks, HasWrongBounds, HoldsBarred, IsFirstOfPlace};
ghost use Rattle.a68_declarers.specs.Declarers.{form_at, is_word as is_word_lem, PartsFollow};
ghost use Rattle.a68_ranges.specs.Indexed.{IsLeast};
ghost use Rattle.a68_ranges.specs.Nodes.{kind_at, parts_at};

use crate::actual::{Holders, actual};
use crate::form::{DeclarerForm, form_of, is_word};
use crate::reading::{follow, is_declarer, is_marked, kind_of, place_of, sooner};
use a68_base::NoMemory;
use a68_tree::{NodeId, NodeKind, Tree};
use std::alloc::Global;

/// The tables by which bounds are judged, for each node.
#[derive(Drop)]
pub struct Marks {
    /// Is it an actual declarer?
    actual: Vec<bool>,
    /// Is it one of a mode definition?
    modal: Vec<bool>,
    /// May it not stand within the bounds of a mode definition, or does it hold such a node?
    barred: Vec<bool>,
}

// May the node not stand within the bounds of a mode definition?
fn is_barred(tree: &Tree, id: NodeId, actual: bool) -> bool
    requires { id < length tree.now.nodes }
    ensures { result ≡ barred_by (kind_at tree.now id) (actual && is_word_lem (form_at tree.now id)) }
{
    match kind_of(tree, id) {
        NodeKind::RoutineText | NodeKind::Parallel => true,
        NodeKind::Declarer => actual && is_word(form_of(tree, id)),
        _ => false,
    }
}

// Is one of these nodes marked?
fn any_marked(nodes: &[NodeId], marks: &[bool]) -> bool
    ensures { IsTrue result ↔ ((p : ℕ) × Contains nodes.now p × (slice_index_or marks.now p false ≡ true)) }
{
    for node in nodes {
        if is_marked(marks, *node) {
            return true;
        }
    }
    false
}

// Does the node hold one that may not stand within the bounds of a mode definition, or is it one?
fn holds_barred(tree: &Tree, id: NodeId, actual: bool, marks: &[bool]) -> bool
    requires there { id < length tree.now.nodes }
    requires follow { PartsFollow tree.now }
    requires actual { IsTrue actual ↔ IsActual tree.now Holders.All id }
    requires marks { AreBarred tree.now (id + 1) marks.now }
    ensures { IsTrue result ↔ HoldsBarred tree.now id }
{
    if is_barred(tree, id, actual) {
        return true;
    }
    any_marked(tree.parts(id), marks)
}

// For each node, whether it may not stand within the bounds of a mode definition, or holds such a node.
fn barred(alloc: Global, tree: &Tree, actual: &[bool]) -> Result<Vec<bool>, NoMemory>
    requires { AreActual tree.now Holders.All actual.now }
    ensures { IfOk result (λ marks. AreBarred tree.now 0 marks.items) }
{
    follow(tree);
    let mut marks = vec![in alloc; false; tree.len() as usize]?;
    for done in 0..tree.len() {
        let id = tree.len() - 1 - done;
        if holds_barred(tree, id, is_marked(actual, id), &marks) {
            marks[id as usize] = true;
        }
    }
    Ok(marks)
}

// The tables of a tree.
fn marks_of(alloc: Global, tree: &Tree) -> Result<Marks, NoMemory>
    ensures { IfOk result (λ marks. AreMarks tree.now marks.actual.items marks.modal.items marks.barred.items) }
{
    let actual_ones = actual(alloc, tree, Holders::All)?;
    let modal = actual(alloc, tree, Holders::ModeDefinitions)?;
    let barred = barred(alloc, tree, &actual_ones)?;
    Ok(Marks {
        actual: actual_ones,
        modal,
        barred,
    })
}

// Is a part of a declarer a bound that is not as it must be? Of the declarer is told whether it is actual, and whether a mode
// definition's.
fn is_wrong_part(tree: &Tree, part: NodeId, actual: bool, modal: bool, barred: &[bool]) -> bool
    requires { part < length tree.now.nodes }
    ensures { result ≡ (bounds.is_bound (kind_at tree.now part) && is_wrong actual modal (slice_index_or barred.now part false) (parts_at tree.now part)) }
{
    if !is_bound(tree, part) {
        return false;
    }
    if tree.parts(part).is_empty() == actual {
        return true;
    }
    modal && is_marked(barred, part)
}

// Is one of a declarer's bounds not as it must be?
fn has_wrong_bounds(tree: &Tree, marks: &Marks, declarer: NodeId) -> bool
    requires there { declarer < length tree.now.nodes }
    requires marks { AreMarks tree.now marks.now.actual.items marks.now.modal.items marks.now.barred.items }
    ensures { IsTrue result ↔ HasWrongBounds tree.now declarer }
{
    if !is_declarer(tree, declarer) {
        return false;
    }
    let actual = is_marked(&marks.actual, declarer);
    let modal = is_marked(&marks.modal, declarer);
    for part in tree.parts(declarer) {
        if is_wrong_part(tree, *part, actual, modal, &marks.barred) {
            return true;
        }
    }
    false
}

// Is the node a bound?
fn is_bound(tree: &Tree, id: NodeId) -> bool
    ensures { result ≡ bounds.is_bound (kind_at tree.now id) }
{
    matches!(kind_of(tree, id), NodeKind::Bound)
}

/// The first declarer in the text with bounds that are not as they must be; of several that begin at one byte, the one that
/// stands first in the tree.
pub fn wrong_bounds(alloc: Global, tree: &Tree) -> Result<Option<NodeId>, NoMemory>
    ensures least { IfOk result (λ found. IsLeast tree.now (HasWrongBounds tree.now) found) }
    ensures first { IfOk result (λ found. IsFirstOfPlace tree.now (HasWrongBounds tree.now) found) }
{
    let marks = marks_of(alloc, tree)?;
    let mut found = None;
    for id in 0..tree.len() {
        if has_wrong_bounds(tree, &marks, id) {
            found = sooner(tree, found, id);
        }
    }
    Ok(found)
}

// The first of these bytes that stands behind one.
fn next_of(starts: &[u32], byte: u32) -> u32
    ensures { result ≡ next_start starts.now byte }
{
    for start in starts {
        if byte < *start {
            return *start;
        }
    }
    byte
}

/// The byte of the `[` of a row, by the first bytes of all symbols.
pub fn bracket(tree: &Tree, starts: &[u32], declarer: NodeId) -> u32
    requires { declarer < length tree.now.nodes }
    ensures { result ≡ bracket_at tree.now starts.now declarer }
{
    let place = place_of(tree, declarer);
    match form_of(tree, declarer) {
        DeclarerForm::Row { flex: true } => next_of(starts, place),
        _ => place,
    }
}
