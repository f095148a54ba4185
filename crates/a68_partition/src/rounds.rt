//! Classes by refinement, round by round.
ghost use Rattle.std.specs.Prelude.{◌≡◌, ◌≢◌, ◌<◌, ◌≤◌, ◌+◌, ◌∷◌, ◌^◌, ℕ, Vec, IfOk, IsOk, OnOk, Some, length, map, slice_index, unwrap_or};
ghost use Rattle.std.specs.HashMap.{spare};
ghost use Rattle.std.specs.Global.{Global};
ghost use Rattle.std.specs.List.{All};
ghost use Rattle.a68_partition.specs.Rounds.{at_key, ByFirst, IsSetOf, IsRowKey, HasRowKey, IsWired, IsRefined, SoFar};
ghost use Rattle.a68_partition.specs.Rows.{row_at};

use crate::row::Row;
use crate::split::start;
use a68_base::NoMemory;
use std::alloc::Global;
use std::collections::HashMap;

/// The numbers of keys.
pub type Table = HashMap<Vec<u32>, u32>;

/// The class of each number of a graph: one class exactly where the unfoldings are equal at every depth.
pub fn refine(alloc: Global, heads: &[u32], rows: &[Row]) -> Result<Vec<u32>, NoMemory>
    requires few { length rows.now < 2 ^ 32 }
    requires wired { IsWired heads.now rows.now }
    ensures { IfOk result (λ classes. IsRefined heads.now rows.now classes.items) }
{
    let mut classes = start(alloc, heads, rows)?;
    loop {
        let next = round(alloc, rows, &classes)?;
        if next == classes {
            return Ok(classes);
        }
        classes = next;
    }
}

/// Each number gets the first number of the same key.
fn round(alloc: Global, rows: &[Row], classes: &[u32]) -> Result<Vec<u32>, NoMemory>
    requires few { length rows.now < 2 ^ 32 }
    requires long { length classes.now ≡ length rows.now }
    requires closed { (v : ℕ) → v < length rows.now → All (λ w. w < length rows.now) (row_at rows.now v).1 }
    ensures { IfOk result (λ next. ByFirst (length rows.now) (HasRowKey rows.now classes.now) next.items) }
{
    let mut table: Table = HashMap::new(alloc);
    let mut next = Vec::new(alloc);
    number_rows(alloc, rows, classes, &mut table, &mut next)?;
    Ok(next)
}

/// Numbers the keys of all rows in a table that has none yet.
fn number_rows(
    alloc: Global,
    rows: &[Row],
    classes: &[u32],
    table: &mut Table,
    next: &mut Vec<u32>,
) -> Result<(), NoMemory>
    requires few { length rows.now < 2 ^ 32 }
    requires long { length classes.now ≡ length rows.now }
    requires closed { (v : ℕ) → v < length rows.now → All (λ w. w < length rows.now) (row_at rows.now v).1 }
    requires begun { SoFar (HasRowKey rows.now classes.now) table.old.entries next.old.items 0 }
    ensures { OnOk result (SoFar (HasRowKey rows.now classes.now) table.new.entries next.new.items (length rows.now)) }
{
    for i in 0..rows.len() {
        let row = &rows[i];
        let key = row_key(alloc, classes[i], row, classes)?;
        let first = numbered(table, key, i as u32)?;
        next.push(first)?;
    }
    Ok(())
}

/// The number of a key, a new one where it has none.
pub fn numbered(table: &mut Table, key: Vec<u32>, new: u32) -> Result<u32, NoMemory>
    ensures number { IfOk result (λ n. n ≡ unwrap_or (at_key table.old.entries key.items) new) }
    ensures here { IfOk result (λ n. at_key table.new.entries key.items ≡ Some n) }
    ensures others { OnOk result ((q : Vec ℕ Global) → q.items ≢ key.items → at_key table.new.entries q.items ≡ at_key table.old.entries q.items) }
    ensures succeeds { 0 < spare table.old → IsOk result }
    ensures room { spare table.old ≤ spare table.new + 1 }
{
    if let Some(first) = table.get(&key) {
        return Ok(*first);
    }
    table.insert(key, new)?;
    Ok(new)
}

/// The key of a row: a first number, and the classes of what stands in it; the classes as a set, where all of it
/// stands at one place.
pub fn row_key(alloc: Global, first: u32, row: &Row, classes: &[u32]) -> Result<Vec<u32>, NoMemory>
    requires { All (λ w. w < length classes.now) row.now.1 }
    ensures { IfOk result (λ key. IsRowKey classes.now first row.now.0 row.now.1 key.items) }
{
    if row.among {
        let set = set_of(alloc, &row.items, classes)?;
        let key = behind_first(alloc, first, &set)?;
        return Ok(key);
    }
    let list = classes_of(alloc, &row.items, classes)?;
    let key = behind_first(alloc, first, &list)?;
    Ok(key)
}

fn behind_first(alloc: Global, first: u32, rest: &[u32]) -> Result<Vec<u32>, NoMemory>
    ensures { IfOk result (λ key. key.items ≡ first ∷ rest.now) }
{
    let mut key = Vec::with_capacity(alloc, rest.len() + 1)?;
    key.push(first)?;
    key.extend_from_slice(rest)?;
    Ok(key)
}

/// The classes of these numbers.
fn classes_of(alloc: Global, items: &[u32], classes: &[u32]) -> Result<Vec<u32>, NoMemory>
    requires { All (λ w. w < length classes.now) items.now }
    ensures { IfOk result (λ list. list.items ≡ map (λ w. slice_index classes.now w) items.now) }
{
    let mut list = Vec::with_capacity(alloc, items.len())?;
    for item in items {
        list.push(classes[*item as usize])?;
    }
    Ok(list)
}

/// The classes of these numbers, each once, in rising order.
fn set_of(alloc: Global, items: &[u32], classes: &[u32]) -> Result<Vec<u32>, NoMemory>
    requires { All (λ w. w < length classes.now) items.now }
    ensures { IfOk result (λ set. IsSetOf classes.now items.now set.items) }
{
    let mut set = classes_of(alloc, items, classes)?;
    set.sort_unstable();
    set.dedup();
    Ok(set)
}
