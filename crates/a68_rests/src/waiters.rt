//! Numbers that are held at cells, in order.
ghost use Rattle.std.specs.Prelude.{◌≡◌, ◌<◌, ◌≤◌, ◌^◌, ℕ, true, false, IfSome, IsNone};
ghost use Rattle.std.specs.BTreeSet.{btree_set_len};
ghost use Rattle.a68_rests.specs.Waiting.{IsFreed, has};

use a68_marks::Marks;
use std::alloc::Global;
use std::collections::BTreeSet;

/// A number that is held at a cell. The number of the cell is wide, so that there is one behind each.
#[derive(Clone, Copy, PartialEq, Eq, PartialOrd, Ord, Drop)]
pub struct Waiter {
    pub cell: u64,
    pub number: u32,
}

/// The first number that is held at a cell, from this one on, or the end of the search where there is none below it.
pub fn first_at(set: &BTreeSet<Waiter>, cell: u32, from: usize, to: usize) -> usize
    requires order { from ≤ to }
    requires few { to < 2 ^ 32 }
    ensures from_on { from ≤ result }
    ensures within { result ≤ to }
    ensures none { (k : ℕ) → from ≤ k → k < result → has set.now cell k ≡ false }
{
    let low = Waiter {
        cell: cell as u64,
        number: from as u32,
    };
    let high = Waiter {
        cell: cell as u64,
        number: to as u32,
    };
    match set.range(low..high).next() {
        Some(first) => first.number as usize,
        None => to,
    }
}

/// The first number that is held at a cell.
pub fn first_of(set: &BTreeSet<Waiter>, cell: u32) -> Option<u32>
    ensures some { IfSome result (λ n. has set.now cell n ≡ true) }
    ensures none { IsNone result → (k : ℕ) → has set.now cell k ≡ false }
{
    let low = Waiter {
        cell: cell as u64,
        number: 0,
    };
    let high = Waiter {
        cell: cell as u64 + 1,
        number: 0,
    };
    let first = set.range(low..high).next()?;
    Some(first.number)
}

/// The number is held at the cell from now on. Tells whether there was memory.
pub fn put(set: &mut BTreeSet<Waiter>, cell: u32, number: u32) -> bool
    ensures kept { (c : ℕ) → (k : ℕ) → has set.old c k ≡ true → has set.new c k ≡ true }
    ensures put { result ≡ true → has set.new cell number ≡ true }
{
    let key = Waiter {
        cell: cell as u64,
        number,
    };
    set.insert(key).is_ok()
}

/// The number is held at the cell no more.
pub fn take_out(set: &mut BTreeSet<Waiter>, cell: u32, number: u32)
    ensures kept { (c : ℕ) → (k : ℕ) → has set.old c k ≡ true → (k ≡ number → ⊥) → has set.new c k ≡ true }
    ensures less { has set.old cell number ≡ true → btree_set_len set.new < btree_set_len set.old }
{
    let key = Waiter {
        cell: cell as u64,
        number,
    };
    let _was = set.remove(&key);
}

/// Those that are held at this cell are held there no more, and are not marked.
pub fn free(listed: &mut Marks, set: &mut BTreeSet<Waiter>, cell: u32)
    ensures { IsFreed cell listed.old set.old listed.new set.new }
{
    while let Some(number) = first_of(set, cell) {
        take_out(set, cell, number);
        listed.unmark(number as usize);
    }
}
