//! The keys of modes.
ghost use Rattle.std.specs.Prelude.{◌≡◌, ◌<◌, ◌≤◌, ◌*◌, ℕ, List, IfOk, OnOk, length, slice_index};
ghost use Rattle.std.specs.List.{All};
ghost use Rattle.a68_modes.specs.Nodes.{ShapeIsWithin, HoldsNodes};
ghost use Rattle.a68_equiv.specs.Classes.{AreExact};
ghost use Rattle.a68_equiv.specs.Graph.{AreBehind, IsGraphOf};
ghost use Rattle.a68_equiv.specs.ModeKeys.{bare, marked, IsKeyOf, IsModeKey, HasModeKey, IsNewKey};
ghost use Rattle.a68_equiv.specs.Related.{as_it_stands};
ghost use Rattle.a68_partition.specs.Rounds.{SoFar};

use crate::Mode;
use crate::codes::code;
use crate::graph::{ModeGraph, behind, mode_at};
use crate::rows::{number, row_of};
use crate::steps::{Inward, row};
use a68_base::NoMemory;
use a68_modes::{Modes, Shape};
use a68_partition::{Row, Table, numbered, row_key};
use std::alloc::Global;
use std::collections::HashMap;

/// The key of a mode of this shape, which is behind all mode words, with this row.
fn key_of(
    alloc: Global,
    shape: &Shape,
    fixed: bool,
    row: &Row,
    classes: &[u32],
) -> Result<Vec<u32>, NoMemory>
    requires { All (λ w. w < length classes.now) row.now.1 }
    ensures { IfOk result (λ key. IsKeyOf classes.now fixed shape.now row.now key.items) }
{
    let code = code(alloc, fixed, shape)?;
    let tail = row_key(alloc, 0, row, classes)?;
    let mut key = with_marks(alloc, &code)?;
    key.extend_from_slice(&tail)?;
    Ok(key)
}

/// The code with 1 before each of its numbers.
fn with_marks(alloc: Global, code: &[u32]) -> Result<Vec<u32>, NoMemory>
    ensures { IfOk result (λ key. key.items ≡ marked code.now) }
{
    let mut key = Vec::new(alloc);
    for number in code {
        key.push(1)?;
        key.push(*number)?;
    }
    Ok(key)
}

/// The key of the mode of this number.
fn mode_key(
    alloc: Global,
    modes: &Modes,
    graph: &ModeGraph,
    classes: &[u32],
    i: u32,
) -> Result<Vec<u32>, NoMemory>
    requires there { i < 2 * length modes.now }
    requires graph { IsGraphOf modes.now graph.now.heads.items graph.now.rows.items }
    requires behind { AreBehind modes.now graph.now.behind.items }
    requires long { length classes.now ≡ 2 * length modes.now }
    ensures { IfOk result (λ key. HasModeKey modes.now classes.now i key.items) }
{
    let mode = mode_at(i);
    let shape = modes.shape(graph.behind[mode.id as usize]);
    let row = &graph.rows[i as usize];
    let key = key_of(alloc, shape, mode.fixed, row, classes)?;
    Ok(key)
}

/// The classes by the keys of their modes.
pub fn classes_by_key(
    alloc: Global,
    modes: &Modes,
    graph: &ModeGraph,
    classes: &[u32],
) -> Result<Table, NoMemory>
    requires graph { IsGraphOf modes.now graph.now.heads.items graph.now.rows.items }
    requires behind { AreBehind modes.now graph.now.behind.items }
    requires exact { AreExact modes.now classes.now }
    requires low { (v : ℕ) → v < 2 * length modes.now → slice_index classes.now v ≤ v }
    requires own { (v : ℕ) → v < 2 * length modes.now → slice_index classes.now (slice_index classes.now v) ≡ slice_index classes.now v }
    ensures { IfOk result (λ table. SoFar (HasModeKey modes.now classes.now) table.entries classes.now (2 * length modes.now)) }
{
    let mut table: Table = HashMap::new(alloc);
    for i in 0..2 * modes.len() {
        let key = mode_key(alloc, modes, graph, classes, i)?;
        numbered(&mut table, key, i)?;
    }
    Ok(table)
}

/// The nodes by the keys of their modes as they stand, of equivalent ones the first.
pub fn nodes_by_key(
    alloc: Global,
    modes: &Modes,
    graph: &ModeGraph,
    classes: &[u32],
) -> Result<Table, NoMemory>
    requires graph { IsGraphOf modes.now graph.now.heads.items graph.now.rows.items }
    requires behind { AreBehind modes.now graph.now.behind.items }
    requires long { length classes.now ≡ 2 * length modes.now }
    ensures { IfOk result (λ table. (firsts : List ℕ) × SoFar (λ m key. IsModeKey modes.now classes.now (as_it_stands m) key) table.entries firsts (length modes.now)) }
{
    let mut table: Table = HashMap::new(alloc);
    for id in 0..modes.len() {
        let key = mode_key(alloc, modes, graph, classes, number(Mode::as_it_stands(id)))?;
        numbered(&mut table, key, id)?;
    }
    Ok(table)
}

/// The key of a new node of this shape.
pub fn shape_key(
    alloc: Global,
    modes: &Modes,
    classes: &[u32],
    shape: &Shape,
    fixed: bool,
) -> Result<Vec<u32>, NoMemory>
    requires within { ShapeIsWithin (length modes.now) shape.now }
    requires long { length classes.now ≡ 2 * length modes.now }
    ensures key { IfOk result (λ key. IsNewKey modes.now classes.now shape.now fixed key.items) }
    ensures nodes { OnOk result (HoldsNodes modes.now) }
{
    let start = row(alloc, Inward::WithinUnions, shape)?;
    let bare = behind_shape(modes, shape);
    let row = row_of(alloc, modes, &start.items, bare, fixed)?;
    let key = key_of(alloc, bare, fixed, &row, classes)?;
    Ok(key)
}

/// What a shape is behind its mode words.
fn behind_shape<'a>(modes: &'a Modes, shape: &'a Shape) -> &'a Shape
    requires { ShapeIsWithin (length modes.now) shape.now }
    ensures bare { result.now ≡ bare modes.now shape.now }
    ensures within { ShapeIsWithin (length modes.now) result.now }
    ensures nodes { HoldsNodes modes.now }
{
    let _there = modes.len();
    match shape {
        Shape::Same(mode) => modes.shape(behind(modes, *mode)),
        _ => shape,
    }
}
