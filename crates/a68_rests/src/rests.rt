//! Numbers that rest.
ghost use Rattle.std.specs.Prelude.{◌≡◌, ◌<◌, ◌≤◌, ◌^◌, ℕ};
ghost use Rattle.a68_rests.specs.Resting.{Closes, HoldsToo, IsListed, Leaves, ListsToo, Opens, Passes, Unlists};

use crate::opened::{has, shut};
use crate::waiters::{Waiter, first_at, first_of, free, put, take_out};
use a68_marks::Marks;
use std::alloc::Global;
use std::collections::BTreeSet;
use std::marker::Model;

// How many cells are open at most. Each search looks at each of them.
const MOST_OPEN: usize = 8;

/// A set of numbers that rest. Some rest until they are roused, and others, which are held at a cell, while that is not open.
#[derive(Drop)]
pub struct Rests {
    // Those that rest, and those that are held at cells which are open.
    listed: Marks,
    held: BTreeSet<Waiter>,
    opened: Vec<u32>,
}

impl Model for Rests {
    ghost use Rattle.a68_rests.specs.Resting.{Resting};

    ghost Value = { Resting };

    ghost view = { λ s. (s.listed, (s.held, s.opened.items)) };
}

impl Rests {
    /// None rests. It takes no memory.
    pub fn new(alloc: Global) -> Rests
        ensures { (n : ℕ) → IsListed result n → ⊥ }
    {
        Rests {
            listed: Marks::new(alloc),
            held: BTreeSet::new(alloc),
            opened: Vec::new(alloc),
        }
    }

    /// The number rests until it is roused. Where there is no memory for that it does not.
    pub fn rest(&mut self, n: usize)
        ensures { ListsToo self.old n self.new }
    {
        let _marked = self.listed.mark(n);
    }

    /// The number rests while this cell is not open. Where there is no memory for that it does not.
    pub fn hold(&mut self, n: u32, cell: u32)
        ensures { HoldsToo self.old n cell self.new }
    {
        if !put(&mut self.held, cell, n) {
            return;
        }
        let _marked = self.listed.mark(n as usize);
    }

    /// The number rests no more. It takes no memory.
    pub fn rouse(&mut self, n: usize)
        ensures { Unlists self.old n self.new }
    {
        self.listed.unmark(n);
    }

    /// The number, which was held at this cell, rests no more. It takes no memory.
    pub fn leave(&mut self, n: u32, cell: u32)
        ensures { Leaves self.old n self.new }
    {
        take_out(&mut self.held, cell, n);
        self.listed.unmark(n as usize);
    }

    /// The cell is open: none that is held there rests. It takes no memory where there is none.
    pub fn open(&mut self, cell: u32)
        ensures { Opens self.old cell self.new }
    {
        if first_of(&self.held, cell).is_none() || has(&self.opened, cell) {
            return;
        }
        if self.opened.len() >= MOST_OPEN || self.opened.push(cell).is_err() {
            free(&mut self.listed, &mut self.held, cell);
        }
    }

    /// The cell is open no more: those that are held there rest. It takes no memory.
    pub fn close(&mut self, cell: u32)
        ensures { Closes self.old cell self.new }
    {
        shut(&mut self.opened, cell);
    }

    /// The first number from this one on that does not rest, or the end of the search where there is none below it. It takes no
    /// memory.
    #[inline(always)]
    pub fn first_other(&self, from: usize, to: usize) -> usize
        requires order { from ≤ to }
        requires few { to < 2 ^ 32 }
        ensures { Passes self.now from to result }
    {
        let mut n = self.listed.first_other(from, to);
        for i in 0..self.opened.len() {
            n = first_at(&self.held, self.opened[i], from, n);
        }
        n
    }
}
