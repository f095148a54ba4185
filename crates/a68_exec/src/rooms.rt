//! For how many items an activation has room on the stack.
ghost use Rattle.std.specs.Prelude.{◌≡◌, ◌≤◌, ◌^◌, IfOk};
ghost use Rattle.a68_exec.specs.Rooms.{room_at};

use a68_base::NoMemory;
use std::alloc::Global;
use std::marker::Model;
use std::sync::ArcSlice;

/// For how many items an activation has room that stands at a place of a code: for one more than the number of the place, or, where
/// it has none of its own, than that of all others.
#[derive(Drop)]
pub struct Rooms {
    // They never change, so all strands of a run share them.
    places: ArcSlice<u32>,
    others: u32,
}

impl Model for Rooms {
    ghost use Rattle.std.specs.Arc.{arc_slice_items};
    ghost use Rattle.std.specs.Prelude.{List, ℕ};

    ghost Value = { List ℕ × ℕ };

    ghost view = { λ rooms. (arc_slice_items rooms.places, rooms.others) };
}

impl Rooms {
    /// These numbers for the first places, and this one for all others.
    pub fn of(alloc: Global, places: &[u32], others: u32) -> Result<Rooms, NoMemory>
        ensures { IfOk result (λ rooms. rooms ≡ (places.now, others)) }
    {
        let places = ArcSlice::from_slice(alloc, places)?;
        Ok(Rooms { places, others })
    }

    /// The same once more, without memory of their own. It fails only where more share them than can be counted.
    pub fn copy(&self) -> Result<Rooms, NoMemory>
        ensures { IfOk result (λ rooms. rooms ≡ self.now) }
    {
        let places = self.places.clone()?;
        Ok(Rooms {
            places,
            others: self.others,
        })
    }

    /// For how many items an activation has room that stands at this place.
    #[inline(always)]
    pub fn at(&self, place: usize) -> usize
        ensures room { result ≡ room_at self.now place }
        ensures few { result ≤ 2 ^ 32 }
    {
        let most = match self.places.as_slice().get(place) {
            Some(most) => *most,
            None => self.others,
        };
        most as usize + 1
    }
}
