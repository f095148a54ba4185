//! A world of the run that was handed in, of which no strand is lent.
ghost use Rattle.std.specs.Prelude.{◌≡◌, ◌∷◌, [], IsTrue, length, take};
ghost use Rattle.a68_workers.specs.Runs.{GoesFrom, IsAtRest, none_lent};

use crate::held::{GivenRun, HeldWorld};
use a68_world::World;
use std::alloc::Global;

/// A world of that run, gone on, of which no strand is lent.
#[derive(Drop)]
pub struct RestingWorld<J: GivenRun> {
    held: HeldWorld<J>,
    ghost rests: { IsTrue (none_lent held.world.status) },
}

impl<J: GivenRun> RestingWorld<J> {
    /// The world that was handed in.
    pub fn new(world: World) -> RestingWorld<J>
        requires code { world.code ∷ [] ≡ J.code }
        requires fuel { world.fuel ≡ J.fuel }
        requires first { world.entries ≡ J.first }
        requires rest { IsAtRest world }
        ensures { result.held.world ≡ world }
    {
        let held = HeldWorld::<J>::new(world, u64::MAX);
        RestingWorld { held }
    }

    /// The world as it is now.
    pub fn into_world(self) -> World
        ensures code { result.code ∷ [] ≡ J.code }
        ensures fuel { result.fuel ≡ J.fuel }
        ensures goes_on { take (length J.first) result.entries ≡ J.first }
        ensures rest { IsAtRest result }
    {
        let RestingWorld { held } = self;
        held.into_world()
    }

    /// A turn of the first strand that can be turned behind this one, and which it is; none where no strand can be, or where
    /// memory ran out.
    pub fn turn_next(&mut self, alloc: Global, after: u32) -> Option<u32> {
        let strand = self.held.world().next(after)?;
        if self.held.turn(alloc, strand) {
            Some(strand)
        } else {
            None
        }
    }
}
