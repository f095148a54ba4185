//! Runs by as many workers as are asked for.
ghost use Rattle.std.specs.Prelude.{◌≡◌, ◌≢◌, ◌≤◌, None, IfOk};
ghost use Rattle.a68_workers.specs.Runs.{GoesFrom, IsAtRest, TookTurns};
ghost use Rattle.a68_workers.specs.Workers.{most_workers};

use crate::alone::{turn_rest, turn_while_alone};
use crate::shared::run_shared;
use a68_base::NoMemory;
use a68_outside::Gate;
use a68_world::World;
use std::alloc::Global;
use std::marker::{Brand, Sync};
use std::sync::Wait;
use std::thread::Threads;

/// Runs a world to its end by one worker, which starts no thread, takes no lock and waits for nobody. No strand is lent, nor
/// is one behind it. NoMemory where a turn finds no memory.
pub fn run_alone<G: Gate>(alloc: Global, mut world: World, gate: &G) -> Result<World, NoMemory>
    requires rest { IsAtRest world }
    ensures goes_on { IfOk result (GoesFrom world) }
    ensures took { IfOk result (TookTurns world) }
    ensures ended { IfOk result (λ now. now.end ≢ None) }
    ensures rest { IfOk result IsAtRest }
{
    match turn_rest(alloc, &mut world, gate) {
        Ok(()) => Ok(world),
        Err(error) => {
            drop(world);
            Err(error)
        }
    }
}

/// Runs a world as `run_alone` does as long as its first strand is alone, so that workers are wanted for no program without a
/// parallel clause. NoMemory where a turn finds no memory.
pub fn run_while_alone<G: Gate>(
    alloc: Global,
    mut world: World,
    gate: &G,
) -> Result<World, NoMemory>
    requires rest { IsAtRest world }
    ensures goes_on { IfOk result (GoesFrom world) }
    ensures rest { IfOk result IsAtRest }
{
    match turn_while_alone(alloc, &mut world, gate) {
        Ok(()) => Ok(world),
        Err(error) => {
            drop(world);
            Err(error)
        }
    }
}

/// Runs a world to its end by 1 to 64 workers: the same code and fuel, and a journal that begins with the one handed in. No
/// strand is lent, nor is one behind it. One worker takes the strands in turns. What several leave undone, since no thread could be made or there was no memory for
/// them, one does. NoMemory where a turn finds no memory.
pub fn run_all<R: Threads + Wait + Sync, G: Gate>(
    rt: &R,
    alloc: Global,
    world: World,
    workers: u32,
    gate: &G,
) -> Result<World, NoMemory>
    requires some { 1 ≤ workers }
    requires few { workers ≤ most_workers }
    requires rest { IsAtRest world }
    ensures goes_on { IfOk result (GoesFrom world) }
    ensures ended { IfOk result (λ now. now.end ≢ None) }
    ensures rest { IfOk result IsAtRest }
    ensures alone { workers ≡ 1 → IfOk result (TookTurns world) }
{
    if workers == 1 {
        return run_alone(alloc, world, gate);
    }
    let world = run_shared::<Brand, R, G>(rt, alloc, world, workers, gate);
    run_alone(alloc, world, gate)
}
