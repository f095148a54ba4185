//! How many declarers there are.
ghost use Rattle.std.specs.Prelude.{◌≡◌, ◌<◌, ◌^◌, ◌&&◌, nat_lt, length};
ghost use Rattle.a68_declarers.specs.Declarers.{is_declarer as is_declarer_lem};
ghost use Rattle.a68_declarers.specs.Numbers.{declarers};
ghost use Rattle.a68_declarers.specs.Words.{declarers_before, IsTooMany};
ghost use Rattle.a68_ranges.specs.Nodes.{kind_at, place_at};

use crate::reading::{is_declarer, place_of};
use a68_tree::{NodeId, Tree};

// Is the node a declarer? It begins at a byte that has a number.
fn counts(tree: &Tree, id: NodeId) -> bool
    ensures is { result ≡ is_declarer_lem (kind_at tree.now id) }
    ensures within { (is_declarer_lem (kind_at tree.now id) && nat_lt (place_at tree.now id) (2 ^ 32)) ≡ result }
{
    let place = u64::from(place_of(tree, id));
    is_declarer(tree, id) && place < 4_294_967_296
}

// Is the node a declarer that begins before a byte?
fn begins_before(tree: &Tree, id: NodeId, byte: u64) -> bool
    ensures { result ≡ (is_declarer_lem (kind_at tree.now id) && nat_lt (place_at tree.now id) byte) }
{
    is_declarer(tree, id) && u64::from(place_of(tree, id)) < byte
}

/// How many declarers a tree has.
pub fn count(tree: &Tree) -> u32
    ensures is { result ≡ declarers tree.now (length tree.now.nodes) }
    ensures within { declarers_before tree.now (2 ^ 32) (length tree.now.nodes) ≡ result }
{
    let mut count = 0;
    for id in 0..tree.len() {
        if counts(tree, id) {
            count += 1;
        }
    }
    count
}

// How many declarers begin before a byte.
fn count_before(tree: &Tree, byte: u64) -> u32
    ensures { result ≡ declarers_before tree.now byte (length tree.now.nodes) }
{
    let mut count = 0;
    for id in 0..tree.len() {
        if begins_before(tree, id, byte) {
            count += 1;
        }
    }
    count
}

/// The byte at which the declarer behind the first 4,096 begins.
pub fn crowded(tree: &Tree) -> u32
    requires { 4096 < declarers tree.now (length tree.now.nodes) }
    ensures { IsTooMany tree.now result }
{
    let _count = count(tree);
    let mut low: u64 = 0;
    let mut high: u64 = 4_294_967_296;
    'halves: while low + 1 < high {
        let middle = (low + high) / 2;
        if count_before(tree, middle) > 4096 {
            high = middle;
        } else {
            low = middle;
        }
    }
    low as u32
}
