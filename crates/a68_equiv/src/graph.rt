//! The graph in which modes are compared.
ghost use Rattle.std.specs.Prelude.{◌≡◌, ◌<◌, ◌*◌, ◌^◌, IfOk, OnOk, length};
ghost use Rattle.a68_equiv.specs.Unfolding.{behind as behind_lem};
ghost use Rattle.a68_partition.specs.Rounds.{ByFirst, IsWired, SoFar};
ghost use Rattle.a68_equiv.specs.Graph.{mode_of, AreBehind, HasCode, AreRows, IsGraphOf};

use crate::Mode;
use crate::codes::code;
use crate::rows::both_rows;
use crate::steps::{Inward, row};
use a68_base::NoMemory;
use a68_modes::{ModeId, Modes, Shape};
use a68_partition::{Row, Table, numbered};
use std::alloc::Global;
use std::collections::HashMap;

/// The node behind the mode words of each node.
pub fn behind_words(alloc: Global, modes: &Modes) -> Result<Vec<ModeId>, NoMemory>
    ensures { IfOk result (λ heads. AreBehind modes.now heads.items) }
{
    let mut heads = Vec::new(alloc);
    for id in 0..modes.len() {
        heads.push(behind(modes, id))?;
    }
    Ok(heads)
}

/// The node behind the mode words of a node.
pub fn behind(modes: &Modes, mode: ModeId) -> ModeId
    requires { mode < length modes.now }
    ensures node { result ≡ behind_lem modes.now (length modes.now) mode }
    ensures there { result < length modes.now }
{
    let mut at = mode;
    for _ in 0..modes.len() {
        let Shape::Same(to) = modes.shape(at) else {
            return at;
        };
        at = *to;
    }
    at
}

/// The mode of a number.
pub fn mode_at(number: u32) -> Mode
    ensures { result ≡ mode_of number }
{
    Mode {
        id: number / 2,
        fixed: number % 2 == 1,
    }
}

/// For each mode the first one of the same constructor, by number.
fn constructors(alloc: Global, modes: &Modes, behind: &[ModeId]) -> Result<Vec<u32>, NoMemory>
    requires { AreBehind modes.now behind.now }
    ensures { IfOk result (λ heads. ByFirst (2 * length modes.now) (HasCode modes.now) heads.items) }
{
    let mut table: Table = HashMap::new(alloc);
    let mut heads = Vec::new(alloc);
    number_constructors(alloc, modes, behind, &mut table, &mut heads)?;
    Ok(heads)
}

/// Numbers the constructors of all modes in a table that has none yet.
fn number_constructors(
    alloc: Global,
    modes: &Modes,
    behind: &[ModeId],
    table: &mut Table,
    heads: &mut Vec<u32>,
) -> Result<(), NoMemory>
    requires behind { AreBehind modes.now behind.now }
    requires begun { SoFar (HasCode modes.now) table.old.entries heads.old.items 0 }
    ensures { OnOk result (SoFar (HasCode modes.now) table.new.entries heads.new.items (2 * length modes.now)) }
{
    for i in 0..2 * modes.len() {
        let mode = mode_at(i);
        let shape = modes.shape(behind[mode.id as usize]);
        let key = code(alloc, mode.fixed, shape)?;
        let head = numbered(table, key, i)?;
        heads.push(head)?;
    }
    Ok(())
}

/// The rows of all modes. What a node leads to is found once for both of its rows.
fn rows(alloc: Global, modes: &Modes, behind: &[ModeId]) -> Result<Vec<Row>, NoMemory>
    requires { AreBehind modes.now behind.now }
    ensures rows { IfOk result (λ rows. AreRows modes.now (2 * length modes.now) rows.items) }
    ensures few { IfOk result (λ rows. length rows.items < 2 ^ 32) }
{
    let mut rows = Vec::new(alloc);
    for id in 0..modes.len() {
        let shape = modes.shape(behind[id as usize]);
        let start = row(alloc, Inward::WithinUnions, shape)?;
        let (with, without) = both_rows(alloc, modes, &start.items, shape)?;
        rows.push(with)?;
        rows.push(without)?;
    }
    Ok(rows)
}

/// The graph in which modes are compared: the constructors by number, and the rows; besides, the nodes behind the mode
/// words.
#[derive(Drop)]
pub struct ModeGraph {
    pub heads: Vec<u32>,
    pub rows: Vec<Row>,
    pub behind: Vec<ModeId>,
}

impl ModeGraph {
    /// The graph of these modes.
    pub fn of(alloc: Global, modes: &Modes) -> Result<ModeGraph, NoMemory>
        ensures graph { IfOk result (λ graph. IsGraphOf modes.now graph.heads.items graph.rows.items) }
        ensures behind { IfOk result (λ graph. AreBehind modes.now graph.behind.items) }
        ensures wired { IfOk result (λ graph. IsWired graph.heads.items graph.rows.items) }
        ensures few { IfOk result (λ graph. length graph.rows.items < 2 ^ 32) }
    {
        let behind = behind_words(alloc, modes)?;
        let heads = constructors(alloc, modes, &behind)?;
        let rows = rows(alloc, modes, &behind)?;
        Ok(ModeGraph {
            heads,
            rows,
            behind,
        })
    }
}
