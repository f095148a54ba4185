//! Graphs whose nodes have heights, by which most nodes are seen at once to lead to no way back.
ghost use Rattle.std.specs.Prelude.{◌≡◌, ◌<◌, ◌↔◌, IfOk, IsTrue, length, nat_le, nat_lt};
ghost use Rattle.std.specs.List.{list_all};
ghost use Rattle.a68_declare.specs.Slopes.{IsSlope, NoneRises, all_fall, height};
ghost use Rattle.a68_equiv.specs.Ways.{StepsStayInside, Way, row};

use a68_base::NoMemory;
use a68_equiv::comes_back;
use a68_modes::Members;
use std::alloc::Global;

/// A graph, and the heights of its nodes, 0 where none is told: no step leads to a higher node.
#[derive(Drop)]
pub struct Slope {
    pub rows: Vec<Members>,
    pub heights: Vec<u64>,
}

// What is due in a walk: to come to a node, or to leave it behind all to which its steps lead.
#[derive(Clone, Copy)]
enum Due {
    Come(usize),
    Leave(usize),
}

// All nodes, so many, are to be come to.
fn all_due(alloc: Global, count: usize) -> Result<Vec<Due>, NoMemory> {
    let mut due = Vec::new(alloc);
    for node in 0..count {
        due.push(Due::Come(node))?;
    }
    Ok(due)
}

// Is a node come to for the first time? It is marked.
fn comes_first(come: &mut [bool], node: usize) -> bool {
    let first = node < come.len() && !come[node];
    if first {
        come[node] = true;
    }
    first
}

// Puts off leaving a node until all to which its steps lead are left.
fn put_off(due: &mut Vec<Due>, node: usize, steps: &[u32]) -> Result<(), NoMemory> {
    due.push(Due::Leave(node))?;
    for next in steps {
        due.push(Due::Come(*next as usize))?;
    }
    Ok(())
}

// Comes to a node.
fn come_to(
    rows: &[Members],
    node: usize,
    come: &mut [bool],
    due: &mut Vec<Due>,
) -> Result<(), NoMemory> {
    if node < rows.len() && comes_first(come, node) {
        let row = &rows[node];
        put_off(due, node, &row.items)?;
    }
    Ok(())
}

// Puts a height where one is kept.
fn put_height(heights: &mut [u64], node: usize, height: u64) {
    if node < heights.len() {
        heights[node] = height;
    }
}

// The turns in which a walk through the whole graph leaves its nodes: where no way leads back to itself, none is left
// before those to which its steps lead. Nothing rests on this but how soon it is known whether ways lead back.
fn turns_left(alloc: Global, rows: &[Members]) -> Result<Vec<u64>, NoMemory> {
    let mut due = all_due(alloc, rows.len())?;
    let mut come = vec![in alloc; false; rows.len()]?;
    let mut heights = vec![in alloc; 0; rows.len()]?;
    for turn in 1..u64::MAX {
        match due.pop() {
            None => break,
            Some(Due::Come(node)) => come_to(rows, node, &mut come, &mut due)?,
            Some(Due::Leave(node)) => put_height(&mut heights, node, turn),
        }
    }
    Ok(heights)
}

// The height of a node.
fn height_of(heights: &[u64], node: usize) -> u64
    ensures { result ≡ height heights.now node }
{
    match heights.get(node) {
        Some(height) => *height,
        None => 0,
    }
}

// Are all these nodes at most so high?
fn are_up_to(heights: &[u64], nodes: &[u32], most: u64) -> bool
    ensures { result ≡ list_all (λ node. nat_le (height heights.now node) most) nodes.now }
{
    nodes
        .iter()
        .all(|node| height_of(heights, *node as usize) <= most)
}

// Are all these nodes lower?
fn are_below(heights: &[u64], nodes: &[u32], bound: u64) -> bool
    ensures { result ≡ list_all (λ node. nat_lt (height heights.now node) bound) nodes.now }
{
    nodes
        .iter()
        .all(|node| height_of(heights, *node as usize) < bound)
}

// Does no step from a node lead to a higher one?
fn none_above(rows: &[Members], heights: &[u64], node: usize) -> bool
    requires { node < length rows.now }
    ensures { result ≡ list_all (λ next. nat_le (height heights.now next) (height heights.now node)) (row rows.now node) }
{
    let row = &rows[node];
    are_up_to(heights, &row.items, height_of(heights, node))
}

// Does no step lead to a higher node?
fn none_rises(rows: &[Members], heights: &[u64]) -> bool
    ensures { IsTrue result → NoneRises rows.now heights.now }
{
    for node in 0..rows.len() {
        if !none_above(rows, heights, node) {
            return false;
        }
    }
    true
}

/// A graph with heights. Those by which some step would rise are all taken to be 0.
pub fn sloped(alloc: Global, rows: Vec<Members>) -> Result<Slope, NoMemory>
    requires { StepsStayInside rows.items }
    ensures rows { IfOk result (λ slope. slope.rows.items ≡ rows.items) }
    ensures slope { IfOk result IsSlope }
{
    let heights = turns_left(alloc, &rows)?;
    if none_rises(&rows, &heights) {
        return Ok(Slope { rows, heights });
    }
    Ok(Slope {
        rows,
        heights: Vec::new(alloc),
    })
}

// Does each step from a node lead to a lower one?
fn falls(rows: &[Members], heights: &[u64], node: usize) -> bool
    requires { node < length rows.now }
    ensures { result ≡ all_fall rows.now heights.now node }
{
    let row = &rows[node];
    are_below(heights, &row.items, height_of(heights, node))
}

/// Does a way of one or more steps lead from a node back to itself? No way does from one whose steps all fall.
pub fn leads_back(alloc: Global, slope: &Slope, node: u32) -> Result<bool, NoMemory>
    requires there { node < length slope.now.rows.items }
    requires slope { IsSlope slope.now }
    ensures { IfOk result (λ back. IsTrue back ↔ Way slope.now.rows.items node node) }
{
    if falls(&slope.rows, &slope.heights, node as usize) {
        return Ok(false);
    }
    let back = comes_back(alloc, &slope.rows, node)?;
    Ok(back)
}
