//! Lists of places.
ghost use Rattle.std.specs.Prelude.{◌≡◌, ◌&&◌, IfOk, length, nat_le, nat_lt};
ghost use Rattle.std.specs.List.{list_all};
ghost use Rattle.a68_code.specs.Flow.{last_place};

use a68_base::NoMemory;
use std::alloc::Global;
use std::marker::Model;

/// Numbers of instructions.
pub struct Places {
    pub items: Vec<u32>,
}

impl Drop for Places {
    fn drop(self) {
        let Places { items: _ } = self;
    }
}

impl Model for Places {
    ghost use Rattle.std.specs.Prelude.{List, ℕ};

    ghost Value = { List ℕ };

    ghost view = { λ places. places.items.items };
}

/// The last of some places; 0 for none.
pub fn last_place(places: &[u32]) -> u32
    ensures { result ≡ last_place places.now }
{
    let mut last = 0;
    for place in places {
        last = *place;
    }
    last
}

// Whether all these are below a number.
fn are_below(places: &[u32], count: usize) -> bool
    ensures { result ≡ list_all (λ to. nat_lt to count) places.now }
{
    places.iter().all(|to| (*to as usize) < count)
}

// Whether all these are above a number.
fn are_above(places: &[u32], at: usize) -> bool
    ensures { result ≡ list_all (λ to. nat_lt at to) places.now }
{
    places.iter().all(|to| at < *to as usize)
}

impl Places {
    /// Whether there is one at least, and all are places in a list of so many instructions.
    pub(crate) fn are_inside(&self, count: usize) -> bool
        ensures { result ≡ (nat_lt 0 (length self.now) && list_all (λ to. nat_lt to count) self.now) }
    {
        let are_some = 0 < self.items.len();
        are_some && are_below(&self.items, count)
    }

    /// Whether all are places in a list of so many instructions.
    pub(crate) fn are_below(&self, count: usize) -> bool
        ensures { result ≡ list_all (λ to. nat_lt to count) self.now }
    {
        are_below(&self.items, count)
    }

    /// Whether there are two at least, and all are places in a list of so many instructions.
    pub(crate) fn are_units(&self, count: usize) -> bool
        ensures { result ≡ (nat_le 2 (length self.now) && list_all (λ to. nat_lt to count) self.now) }
    {
        let are_many = 2 <= self.items.len();
        are_many && are_below(&self.items, count)
    }

    /// Whether all are behind a place.
    pub(crate) fn are_behind(&self, at: usize) -> bool
        ensures { result ≡ list_all (λ to. nat_lt at to) self.now }
    {
        are_above(&self.items, at)
    }

    /// Equal numbers.
    pub fn copy(&self, alloc: Global) -> Result<Places, NoMemory>
        ensures { IfOk result (λ places. places ≡ self.now) }
    {
        let items = Vec::from_slice(alloc, &self.items)?;
        Ok(Places { items })
    }
}
