//! Tables of clocks.
ghost use Rattle.std.specs.Prelude.{◌≡◌, ◌+◌, ◌≤◌, ◌<◌, ◌^◌, ℕ, [], length, nat_eq, nat_lt, slice_index, IfOk, MatchOption, OnOk};
ghost use Rattle.a68_races.specs.Clocks.{AreTold, clock_at, IsLater, IsSetIn};

use crate::clock::Clock;
use a68_base::NoMemory;
use std::alloc::Global;
use std::marker::Model;

/// A clock under each key. Behind the end of the list all clocks are at their beginning.
#[derive(Drop)]
pub struct Clocks {
    items: Vec<Clock>,
}

impl Model for Clocks {
    ghost use Rattle.std.specs.Prelude.{List, ℕ};

    ghost Value = { List (List ℕ) };

    ghost view = { λ clocks. clocks.items.items };
}

impl Clocks {
    /// Clocks at their beginning.
    pub fn new(alloc: Global) -> Clocks
        ensures { result ≡ [] }
    {
        Clocks {
            items: Vec::new(alloc),
        }
    }

    /// The clock under a key, where the list reaches so far.
    pub fn get(&self, key: usize) -> Option<&Clock>
        ensures { MatchOption result (clock_at self.now key ≡ []) (λ clock. clock.now ≡ clock_at self.now key) }
    {
        self.items.get(key)
    }

    /// A copy of the clock under a key.
    pub fn copy(&self, alloc: Global, key: usize) -> Result<Clock, NoMemory>
        ensures { IfOk result (λ clock. clock ≡ clock_at self.now key) }
    {
        match self.items.get(key) {
            Some(clock) => {
                let copy = clock.copy(alloc)?;
                Ok(copy)
            }
            None => Ok(Clock::new(alloc)),
        }
    }

    /// Puts a clock forward to the one under a key.
    pub fn tell(&self, key: usize, clock: &mut Clock) -> Result<(), NoMemory>
        ensures { OnOk result (IsLater clock.old (clock_at self.now key) clock.new) }
    {
        match self.items.get(key) {
            Some(known) => {
                clock.join(known)?;
                Ok(())
            }
            None => Ok(()),
        }
    }

    // Makes the list so long at least.
    fn reach(&mut self, alloc: Global, count: usize) -> Result<(), NoMemory>
        ensures same { OnOk result ((key : ℕ) → clock_at self.new key ≡ clock_at self.old key) }
        ensures long { OnOk result (count ≤ length self.new) }
    {
        while self.items.len() < count {
            self.items.push(Clock::new(alloc))?;
        }
        Ok(())
    }

    /// Puts the clock under a key forward to this one.
    pub fn join(&mut self, alloc: Global, key: usize, now: &Clock) -> Result<(), NoMemory>
        requires { key + 1 < 2 ^ 64 }
        ensures { OnOk result (AreTold (λ k. nat_eq k key) self.old now.now self.new) }
    {
        self.reach(alloc, key + 1)?;
        self.items[key].join(now)?;
        Ok(())
    }

    /// Puts the clock under a key forward to one of another table.
    pub fn join_from(
        &mut self,
        alloc: Global,
        key: usize,
        others: &Clocks,
        from: usize,
    ) -> Result<(), NoMemory>
        requires { key + 1 < 2 ^ 64 }
        ensures { OnOk result (AreTold (λ k. nat_eq k key) self.old (clock_at others.now from) self.new) }
    {
        match others.items.get(from) {
            Some(clock) => {
                self.join(alloc, key, clock)?;
                Ok(())
            }
            None => Ok(()),
        }
    }

    /// Sets one time of the clock under a key.
    pub fn set(&mut self, alloc: Global, key: u32, strand: u32, time: u32) -> Result<(), NoMemory>
        ensures { OnOk result (IsSetIn self.old key strand time self.new) }
    {
        self.reach(alloc, key as usize + 1)?;
        self.items[key as usize].set(strand, time)?;
        Ok(())
    }

    /// Puts the clocks under all keys that are marked forward to this one. A key is marked where its time is not 0.
    pub fn join_marked(
        &mut self,
        alloc: Global,
        marked: &Clock,
        now: &Clock,
    ) -> Result<(), NoMemory>
        ensures { OnOk result (AreTold (λ k. nat_lt 0 (slice_index marked.now k)) self.old now.now self.new) }
    {
        for key in 0..marked.len() {
            if marked.at(key) > 0 {
                self.join(alloc, key, now)?;
            }
        }
        Ok(())
    }
}
