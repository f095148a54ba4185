//! Classes by splitting: a quick start for the rounds.
ghost use Rattle.std.specs.Prelude.{◌≡◌, ◌<◌, ◌^◌, ◌↔◌, ◌∷◌, [], ℕ, IfOk, OnOk, IsTrue, length, slice_index};
ghost use Rattle.std.specs.List.{All, Contains};
ghost use Rattle.a68_partition.specs.Rows.{row_at, Stands};
ghost use Rattle.a68_partition.specs.Rounds.{ByFirst, SoFar, IsWired, SameTouch, Touches, GoesTo, SplitsBy, IsCoarse, IsStart};

use crate::finite::{NONE, finite};
use crate::rounds::{Table, numbered};
use crate::row::Row;
use a68_base::NoMemory;
use std::alloc::Global;
use std::collections::HashMap;

/// Up to so many numbers the rounds begin with classes that are split already, where some unfoldings do not end.
const SMALL: usize = 20_000;

/// Classes to begin the rounds with: none tells equal unfoldings apart, and each holds one constructor.
pub fn start(alloc: Global, heads: &[u32], rows: &[Row]) -> Result<Vec<u32>, NoMemory>
    requires few { length rows.now < 2 ^ 32 }
    requires wired { IsWired heads.now rows.now }
    ensures { IfOk result (λ classes. IsStart heads.now rows.now classes.items) }
{
    let ended = finite(alloc, heads, rows)?;
    let first = joined(alloc, heads, &ended)?;
    if rows.len() > SMALL {
        return Ok(first);
    }
    if !ended.contains(&NONE) {
        return Ok(first);
    }
    let todo = around(alloc, rows, &ended, &first)?;
    let split = split_all(alloc, heads, rows, &first, todo)?;
    let classes = joined(alloc, heads, &split)?;
    Ok(classes)
}

/// The first number of the same head and class, for each.
fn joined(alloc: Global, heads: &[u32], classes: &[u32]) -> Result<Vec<u32>, NoMemory>
    requires few { length heads.now < 2 ^ 32 }
    requires long { length classes.now ≡ length heads.now }
    ensures { IfOk result (λ next. ByFirst (length heads.now) (λ v key. key ≡ slice_index heads.now v ∷ slice_index classes.now v ∷ []) next.items) }
{
    let mut table: Table = HashMap::new(alloc);
    let mut next = Vec::new(alloc);
    number_pairs(alloc, heads, classes, &mut table, &mut next)?;
    Ok(next)
}

/// Numbers the pairs of heads and classes in a table that has none yet.
fn number_pairs(
    alloc: Global,
    heads: &[u32],
    classes: &[u32],
    table: &mut Table,
    next: &mut Vec<u32>,
) -> Result<(), NoMemory>
    requires few { length heads.now < 2 ^ 32 }
    requires long { length classes.now ≡ length heads.now }
    requires begun { SoFar (λ v key. key ≡ slice_index heads.now v ∷ slice_index classes.now v ∷ []) table.old.entries next.old.items 0 }
    ensures { OnOk result (SoFar (λ v key. key ≡ slice_index heads.now v ∷ slice_index classes.now v ∷ []) table.new.entries next.new.items (length heads.now)) }
{
    for i in 0..heads.len() {
        let key = Vec::from_slice(alloc, &[heads[i], classes[i]])?;
        let first = numbered(table, key, i as u32)?;
        next.push(first)?;
    }
    Ok(())
}

/// Are the unions short enough to be looked at again and again? If not, the rounds alone tell them apart.
fn has_short_unions(rows: &[Row]) -> bool {
    let mut room = rows.len();
    for row in rows {
        if row.among {
            match room.checked_sub(row.items.len() / 16) {
                Some(rest) => room = rest,
                None => return false,
            }
        }
    }
    true
}

/// The classes of what stands in the numbers whose unfoldings do not end.
fn around(
    alloc: Global,
    rows: &[Row],
    ended: &[u32],
    classes: &[u32],
) -> Result<Vec<u32>, NoMemory> {
    let mut around = Vec::new(alloc);
    for (class, row) in ended.iter().zip(rows) {
        if *class == NONE {
            note_classes(&row.items, classes, &mut around)?;
        }
    }
    around.sort_unstable();
    around.dedup();
    Ok(around)
}

fn note_classes(items: &[u32], classes: &[u32], noted: &mut Vec<u32>) -> Result<(), NoMemory> {
    for item in items {
        if let Some(class) = classes.get(*item as usize) {
            noted.push(*class)?;
        }
    }
    Ok(())
}

/// Splits the classes by one of these after the other, each new class in its turn.
fn split_all(
    alloc: Global,
    heads: &[u32],
    rows: &[Row],
    first: &[u32],
    mut todo: Vec<u32>,
) -> Result<Vec<u32>, NoMemory>
    requires few { length rows.now < 2 ^ 32 }
    requires wired { IsWired heads.now rows.now }
    requires first { IsStart heads.now rows.now first.now }
    ensures long { IfOk result (λ classes. length classes.items ≡ length rows.now) }
    ensures coarse { IfOk result (λ classes. IsCoarse heads.now rows.now classes.items) }
{
    let unions = has_short_unions(rows);
    let mut classes = Vec::from_slice(alloc, first)?;
    'splits: for _ in 0..4 * rows.len() {
        let Some(by) = todo.pop() else {
            return Ok(classes);
        };
        classes = split(alloc, unions, rows, &classes, by, &mut todo)?;
    }
    Ok(classes)
}

/// In each class, parts those that are touched by a class as the first of them is, from the others. A new class has the
/// number of its first, and is noted with the class that split it.
fn split(
    alloc: Global,
    unions: bool,
    rows: &[Row],
    classes: &[u32],
    by: u32,
    todo: &mut Vec<u32>,
) -> Result<Vec<u32>, NoMemory>
    requires few { length rows.now < 2 ^ 32 }
    requires long { length classes.now ≡ length rows.now }
    requires below { All (λ c. c < length rows.now) classes.now }
    requires closed { (v : ℕ) → v < length rows.now → All (λ w. w < length rows.now) (row_at rows.now v).1 }
    ensures split { IfOk result (λ next. SplitsBy unions rows.now classes.now by next.items) }
    ensures below { IfOk result (λ next. All (λ c. c < length rows.now) next.items) }
{
    let mut moved: Vec<u32> = vec![in alloc; NONE; rows.len()]?;
    let mut next = Vec::with_capacity(alloc, rows.len())?;
    for v in 0..rows.len() {
        let class = classes[v];
        let row = &rows[v];
        let first = &rows[class as usize];
        if touched_alike(unions, row, first, classes, by) {
            next.push(class)?;
            continue;
        }
        let target = target_of(&mut moved, class, v as u32);
        if target == v as u32 {
            todo.push(target)?;
            todo.push(by)?;
        }
        next.push(target)?;
    }
    Ok(next)
}

/// The number of the class to which what leaves a class goes: this one, where none has left it yet.
fn target_of(moved: &mut Vec<u32>, class: u32, v: u32) -> u32
    requires there { class < length moved.old.items }
    requires number { v < NONE }
    ensures target { GoesTo moved.old.items moved.new.items class v result }
{
    let slot = &mut moved[class as usize];
    if *slot == NONE {
        *slot = v;
    }
    *slot
}

/// Does the class stand at the same places in both rows?
fn touched_alike(unions: bool, one: &Row, other: &Row, classes: &[u32], by: u32) -> bool
    requires one { All (λ w. w < length classes.now) one.now.1 }
    requires other { All (λ w. w < length classes.now) other.now.1 }
    ensures { IsTrue result ↔ SameTouch unions classes.now by one.now other.now }
{
    let end = end_of(one).max(end_of(other));
    for place in 0..end {
        if touches(unions, one, classes, by, place) != touches(unions, other, classes, by, place) {
            return false;
        }
    }
    true
}

/// Behind how many places nothing stands in a row.
fn end_of(row: &Row) -> usize
    ensures { (place x : ℕ) → Stands row.now.0 row.now.1 place x → place < result }
{
    if row.among { 1 } else { row.items.len() }
}

/// Does the class stand at this place in the row?
fn touches(unions: bool, row: &Row, classes: &[u32], by: u32, place: usize) -> bool
    requires { All (λ w. w < length classes.now) row.now.1 }
    ensures { IsTrue result ↔ Touches unions classes.now by row.now place }
{
    if row.among {
        if !unions {
            return false;
        }
        if place > 0 {
            return false;
        }
        return has(&row.items, classes, by);
    }
    if place >= row.items.len() {
        return false;
    }
    classes[row.items[place] as usize] == by
}

/// Is one of these numbers of the class?
fn has(items: &[u32], classes: &[u32], by: u32) -> bool
    requires { All (λ w. w < length classes.now) items.now }
    ensures { IsTrue result ↔ ((x : ℕ) × Contains items.now x × (slice_index classes.now x ≡ by)) }
{
    for item in items {
        if classes[*item as usize] == by {
            return true;
        }
    }
    false
}
