//! Runs by one worker.
ghost use Rattle.std.specs.Prelude.{◌≡◌, ◌≢◌, ◌<◌, ◌≤◌, ◌+◌, length, true, None, IfOk, IfSome, IsNone, MatchBool, OnOk};
ghost use Rattle.a68_strand.specs.Cyclic.{IsFirstBehind};
ghost use Rattle.a68_workers.specs.Runs.{GoesFrom, IsAtRest, TookTurns};
ghost use Rattle.a68_world.specs.Run.{Run};
ghost use Rattle.a68_world.specs.Turns.{IsAble, last_strand};

use a68_base::NoMemory;
use a68_outside::Gate;
use a68_world::{Turned, World};
use std::alloc::Global;

// A turn of the first strand that can be turned. Tells whether the run goes on.
fn turn_first(alloc: Global, world: &mut World, strand: u32) -> Result<bool, NoMemory>
    requires first { IsFirstBehind (IsAble world.old) (last_strand world.old.entries) strand }
    requires rest { IsAtRest world.old }
    ensures goes_on { GoesFrom world.old world.new }
    ensures took { OnOk result ((first : Run) → GoesFrom first world.old → TookTurns first world.old → TookTurns first world.new) }
    ensures rest { OnOk result (IsAtRest world.new) }
    ensures acted { IfOk result (λ acted. MatchBool acted ((length world.old.entries < world.old.fuel) × (length world.new.entries ≡ length world.old.entries + 1)) (world.new.end ≢ None)) }
{
    let _known = world.code();
    match world.turn(alloc, strand) {
        Turned::Acted => Ok(true),
        Turned::Over(_) => Ok(false),
        // A strand that can be turned is there and has something to do.
        Turned::NotReady => unreachable!(),
        Turned::NoMemory => Err(NoMemory),
    }
}

// The strand, where it is alone, takes its turns one after the other.
fn go_alone(alloc: Global, world: &mut World) -> Result<(), NoMemory>
    requires { IsAtRest world.old }
    ensures goes_on { GoesFrom world.old world.new }
    ensures took { OnOk result ((first : Run) → GoesFrom first world.old → TookTurns first world.old → TookTurns first world.new) }
    ensures rest { OnOk result (IsAtRest world.new) }
    ensures longer { length world.old.entries ≤ length world.new.entries }
{
    let done = world.go_alone(alloc);
    done
}

/// Turns strands until the run has ended, each time the first one that can be turned behind that of the last entry. The
/// gate is called behind each, and not behind those that a strand takes alone. NoMemory where a turn finds no memory; the
/// world is then as that turn left it.
pub fn turn_rest<G: Gate>(alloc: Global, world: &mut World, gate: &G) -> Result<(), NoMemory>
    requires { IsAtRest world.old }
    ensures goes_on { GoesFrom world.old world.new }
    ensures took { OnOk result (TookTurns world.old world.new) }
    ensures ended { OnOk result (world.new.end ≢ None) }
    ensures rest { OnOk result (IsAtRest world.new) }
{
    let mut events: u64 = 0;
    while let Some(strand) = world.next(world.last()) {
        let acted = turn_first(alloc, world, strand)?;
        events = events.wrapping_add(1);
        gate.pass(0, strand, events);
        if !acted {
            return Ok(());
        }
        go_alone(alloc, world)?;
    }
    // A run that has not ended, and in which no strand can be turned, has a strand that found no memory.
    if world.end().is_none() {
        return Err(NoMemory);
    }
    Ok(())
}

/// Turns strands as `turn_rest` does as long as the first one is alone: up to its first act that makes others, or to the end of the
/// run.
pub fn turn_while_alone<G: Gate>(alloc: Global, world: &mut World, gate: &G) -> Result<(), NoMemory>
    requires { IsAtRest world.old }
    ensures goes_on { GoesFrom world.old world.new }
    ensures rest { OnOk result (IsAtRest world.new) }
{
    let mut events: u64 = 0;
    'alone: while world.is_alone() {
        let Some(strand) = world.next(world.last()) else {
            return Ok(());
        };
        let acted = turn_first(alloc, world, strand)?;
        events = events.wrapping_add(1);
        gate.pass(0, strand, events);
        if !acted {
            return Ok(());
        }
        go_alone(alloc, world)?;
    }
    Ok(())
}
