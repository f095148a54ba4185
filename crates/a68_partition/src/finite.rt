//! Classes of the numbers whose unfoldings end.
ghost use Rattle.std.specs.Global.{Global};
ghost use Rattle.std.specs.Prelude.{◌≡◌, ◌≢◌, ◌<◌, ◌^◌, ℕ, List, Vec, IfOk, OnOk, IsTrue, length, slice_index, false};
ghost use Rattle.std.specs.List.{All, Contains};
ghost use Rattle.a68_partition.specs.Finite.{IsSettled, LeadsOn, Ended};
ghost use Rattle.a68_partition.specs.Rows.{row_at};
ghost use Rattle.a68_partition.specs.Rounds.{IsWired, IsCoarse};

use crate::rounds::{Table, numbered, row_key};
use crate::row::Row;
use a68_base::NoMemory;
use std::alloc::Global;
use std::collections::HashMap;

/// The class of a number that has none.
pub const NONE: u32 = u32::MAX;

/// A class for each number whose unfolding ends, and NONE for each other: equal for equal unfoldings. Each number is
/// looked at behind its parts, once.
pub fn finite(alloc: Global, heads: &[u32], rows: &[Row]) -> Result<Vec<u32>, NoMemory>
    requires few { length rows.now < 2 ^ 32 }
    requires wired { IsWired heads.now rows.now }
    ensures long { IfOk result (λ classes. length classes.items ≡ length rows.now) }
    ensures coarse { IfOk result (λ classes. IsCoarse heads.now rows.now classes.items) }
{
    let classes = ended(alloc, heads, rows)?;
    if lead_on(rows, &classes) {
        return Ok(classes);
    }
    let none = vec![in alloc; NONE; rows.len()]?;
    Ok(none)
}

/// A class for each number behind whose parts a walk has come.
fn ended(alloc: Global, heads: &[u32], rows: &[Row]) -> Result<Vec<u32>, NoMemory>
    requires few { length rows.now < 2 ^ 32 }
    requires wired { IsWired heads.now rows.now }
    ensures { IfOk result (λ classes. (table : List (Vec ℕ Global × ℕ)) × Ended heads.now rows.now table classes.items) }
{
    let mut classes: Vec<u32> = vec![in alloc; NONE; rows.len()]?;
    let mut table: Table = HashMap::new(alloc);
    walk_all(alloc, heads, rows, &mut table, &mut classes)?;
    Ok(classes)
}

/// Gives a class to all numbers, as far as the walks come behind their parts.
fn walk_all(
    alloc: Global,
    heads: &[u32],
    rows: &[Row],
    table: &mut Table,
    classes: &mut Vec<u32>,
) -> Result<(), NoMemory>
    requires few { length rows.now < 2 ^ 32 }
    requires wired { IsWired heads.now rows.now }
    requires ended { Ended heads.now rows.now table.old.entries classes.old.items }
    ensures { OnOk result (Ended heads.now rows.now table.new.entries classes.new.items) }
{
    let mut seen: Vec<bool> = vec![in alloc; false; rows.len()]?;
    'roots: for root in 0..rows.len() {
        walk(alloc, heads, rows, root as u32, &mut seen, table, classes)?;
    }
    Ok(())
}

/// Gives a class to what stands in this number, and then to it.
fn walk(
    alloc: Global,
    heads: &[u32],
    rows: &[Row],
    root: u32,
    seen: &mut Vec<bool>,
    table: &mut Table,
    classes: &mut Vec<u32>,
) -> Result<(), NoMemory>
    requires few { length rows.now < 2 ^ 32 }
    requires wired { IsWired heads.now rows.now }
    requires ended { Ended heads.now rows.now table.old.entries classes.old.items }
    ensures { OnOk result (Ended heads.now rows.now table.new.entries classes.new.items) }
{
    let mut todo = Vec::new(alloc);
    todo.push((root, false))?;
    settle(alloc, heads, rows, &mut todo, seen, table, classes)?;
    Ok(())
}

/// Gives a class to the numbers that are to do, each behind what stands in it.
fn settle(
    alloc: Global,
    heads: &[u32],
    rows: &[Row],
    todo: &mut Vec<(u32, bool)>,
    seen: &mut Vec<bool>,
    table: &mut Table,
    classes: &mut Vec<u32>,
) -> Result<(), NoMemory>
    requires few { length rows.now < 2 ^ 32 }
    requires wired { IsWired heads.now rows.now }
    requires ended { Ended heads.now rows.now table.old.entries classes.old.items }
    ensures { OnOk result (Ended heads.now rows.now table.new.entries classes.new.items) }
{
    'steps: for _ in 0..u64::MAX {
        let Some((at, last)) = todo.pop() else {
            return Ok(());
        };
        if last {
            settle_one(alloc, heads, rows, at, table, classes)?;
            continue;
        }
        if !see(seen, at) {
            continue;
        }
        todo.push((at, true))?;
        note_parts(rows, at, seen, todo)?;
    }
    Ok(())
}

/// Marks a number; was it not marked?
fn see(seen: &mut Vec<bool>, at: u32) -> bool {
    match seen.get_mut(at as usize) {
        Some(mark) if !*mark => {
            *mark = true;
            true
        }
        _ => false,
    }
}

/// Notes what stands in a number, as far as it is not marked.
fn note_parts(
    rows: &[Row],
    at: u32,
    seen: &[bool],
    todo: &mut Vec<(u32, bool)>,
) -> Result<(), NoMemory> {
    let Some(row) = rows.get(at as usize) else {
        return Ok(());
    };
    for item in &row.items {
        match seen.get(*item as usize) {
            Some(false) => todo.push((*item, false))?,
            _ => {}
        }
    }
    Ok(())
}

/// Gives a number its class where all has one that stands in it.
fn settle_one(
    alloc: Global,
    heads: &[u32],
    rows: &[Row],
    at: u32,
    table: &mut Table,
    classes: &mut Vec<u32>,
) -> Result<(), NoMemory>
    requires few { length rows.now < 2 ^ 32 }
    requires wired { IsWired heads.now rows.now }
    requires ended { Ended heads.now rows.now table.old.entries classes.old.items }
    ensures { OnOk result (Ended heads.now rows.now table.new.entries classes.new.items) }
{
    if at as usize >= rows.len() {
        return Ok(());
    }
    let row = &rows[at as usize];
    if classes[at as usize] != NONE {
        return Ok(());
    }
    if !are_settled(classes, &row.items) {
        return Ok(());
    }
    let key = row_key(alloc, heads[at as usize], row, classes)?;
    let class = numbered(table, key, at)?;
    classes[at as usize] = class;
    Ok(())
}

/// Have all of these numbers a class?
fn are_settled(classes: &[u32], items: &[u32]) -> bool
    requires { All (λ w. w < length classes.now) items.now }
    ensures all { IsTrue result → (w : ℕ) → Contains items.now w → IsSettled classes.now w }
    ensures one { result ≡ false → (w : ℕ) × Contains items.now w × (slice_index classes.now w ≡ NONE) }
{
    for item in items {
        if classes[*item as usize] == NONE {
            return false;
        }
    }
    true
}

/// Does in each number without a class stand another one without?
fn lead_on(rows: &[Row], classes: &[u32]) -> bool
    requires long { length classes.now ≡ length rows.now }
    requires closed { (v : ℕ) → v < length rows.now → All (λ w. w < length rows.now) (row_at rows.now v).1 }
    ensures { IsTrue result → (v : ℕ) → v < length rows.now → LeadsOn rows.now classes.now v }
{
    for v in 0..rows.len() {
        let row = &rows[v];
        if classes[v] != NONE {
            continue;
        }
        if are_settled(classes, &row.items) {
            return false;
        }
    }
    true
}
