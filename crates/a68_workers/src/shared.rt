//! Runs by several workers under one lock.
ghost use Rattle.std.specs.Prelude.{◌≡◌, ◌∷◌, []};
ghost use Rattle.a68_workers.specs.Runs.{GoesFrom, IsAtRest};

use crate::held::GivenRun;
use crate::resting::RestingWorld;
use a68_outside::Gate;
use a68_world::World;
use std::alloc::Global;
use std::marker::{Send, Sync};
use std::sync::{Mutex, Wait};
use std::thread;
use std::thread::Threads;

// Turns strands until none can be turned, or memory ran out. The gate is called behind each turn, with no lock held.
fn work<J: GivenRun, R: Wait, G: Gate>(
    rt: &R,
    alloc: Global,
    lock: &Mutex<RestingWorld<J>>,
    worker: u32,
    gate: &G,
) {
    let mut after = worker;
    let mut events: u64 = 0;
    for _ in rt.forever() {
        let turned = lock.lock(rt).turn_next(alloc, after);
        let Some(strand) = turned else {
            return;
        };
        after = strand;
        events = events.wrapping_add(1);
        gate.pass(worker, strand, events);
    }
}

/// So many workers turn the strands of one world. What they leave undone, where memory ran out or no thread could be made,
/// is left to the caller.
pub fn run_shared<J: GivenRun + Send + Sync, R: Threads + Wait + Sync, G: Gate>(
    rt: &R,
    alloc: Global,
    world: World,
    workers: u32,
    gate: &G,
) -> World
    requires code { world.code ∷ [] ≡ J.code }
    requires fuel { world.fuel ≡ J.fuel }
    requires first { world.entries ≡ J.first }
    requires rest { IsAtRest world }
    ensures goes { GoesFrom world result }
    ensures rest { IsAtRest result }
{
    let lock = Mutex::new(RestingWorld::<J>::new(world));
    let shared = &lock;
    // Where threads fail the caller turns what is left.
    let _ = thread::map_indices(
        rt,
        alloc,
        workers as usize,
        &|i: usize| { work(rt, alloc, shared, u32::try_from(i).unwrap_or(0), gate) },
    );
    lock.into_inner().into_world()
}
