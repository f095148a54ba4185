//! Runs by workers that carry strands.
ghost use Rattle.std.specs.Prelude.{◌≡◌, ◌≢◌, ◌+◌, ◌<◌, ◌≤◌, ◌^◌, ◌∷◌, [], length, take, None, IfOk};
ghost use Rattle.a68_code.specs.Valid.{IsValid};
ghost use Rattle.a68_lease.specs.Lent.{lent};
ghost use Rattle.a68_lease.specs.Places.{IsBoard, IsIdle};
ghost use Rattle.a68_strand.specs.Cyclic.{Cyclic};
ghost use Rattle.a68_strand.specs.RunOf.{RunOf};
ghost use Rattle.a68_workers.specs.Runs.{GoesFrom, IsAtRest, TookTurns};
ghost use Rattle.a68_workers.specs.Workers.{most_workers};
ghost use Rattle.a68_world.specs.Run.{most_fuel};
ghost use Rattle.a68_world.specs.Turns.{FinishesRun};

use crate::crew::{dismiss, hire, let_work};
use crate::plays::{Board, Place};
use a68_base::NoMemory;
use a68_code::Code;
use a68_outside::Gate;
use a68_values::Kept;
use a68_workers::{GivenRun, HeldWorld, run_alone, run_while_alone};
use a68_world::World;
use std::alloc::Global;
use std::marker::{Brand, Send, Sync};
use std::sync::Wait;
use std::thread::Threads;

// How many events several workers take at least, in the mean, before they leave a strand that is alone to one: making them anew costs
// less than so many events.
const LEAST_SHARED: u64 = 4096;

// How often workers are made at most. Behind so many times one goes on to the end.
const MOST_CREWS: u64 = 4096;

// A table with the world in its slot, and a seat with all parts.
#[tactic(auto, using(a68_rule::proofs::Moves::begins))]
fn lay<J: GivenRun>(
    alloc: Global,
    world: World,
    workers: u32,
    sole: u64,
) -> Result<(Board<J>, Place<J>), NoMemory>
    requires code { world.code ∷ [] ≡ J.code }
    requires fuel { world.fuel ≡ J.fuel }
    requires first { world.entries ≡ J.first }
    requires rest { lent world ≡ [] }
    ensures table { IfOk result (λ t. (t.1.table_id ≡ t.0.shared.table_id) × IsBoard t.0.shared.table_id × (t.0.shared.key ≡ workers)) }
    ensures seat { IfOk result (λ t. IsIdle t.1.me × (t.1.me.0.parts ≡ workers + 1)) }
{
    let events = world.events();
    let mut slots = Vec::new(alloc);
    if slots.push(Some(HeldWorld::<J>::new(world, sole))).is_err() {
        return Err(NoMemory);
    }
    match Board::<J>::new(alloc, &[events, 0], slots, &workers) {
        Ok(made) => Ok(made),
        Err(_) => Err(NoMemory),
    }
}

// The world, once each seat has been joined.
fn clear<J: GivenRun>(table: Board<J>, seat: Place<J>) -> HeldWorld<J>
    requires table { (seat.table_id ≡ table.shared.table_id) × IsBoard table.shared.table_id }
    requires whole { IsIdle seat.me × (seat.me.0.parts ≡ table.shared.key + 1) }
    ensures { lent result.world ≡ [] }
{
    let mut closed = table.close_with(seat);
    let held = closed.take(0).unwrap();
    closed.free();
    held
}

fn run_carried<J: GivenRun + Send + Sync, R: Threads + Wait + Sync, G: Gate>(
    rt: &R,
    alloc: Global,
    world: World,
    workers: u32,
    sole: u64,
    gate: &G,
) -> Result<World, NoMemory>
    requires code { world.code ∷ [] ≡ J.code }
    requires fuel { world.fuel ≡ J.fuel }
    requires first { world.entries ≡ J.first }
    requires rest { lent world ≡ [] }
    ensures goes { IfOk result (GoesFrom world) }
    ensures rest { IfOk result (λ now. lent now ≡ []) }
{
    let code = world.code().copy(alloc)?;
    let (table, mut seat) = lay::<J>(alloc, world, workers, sole)?;
    let mut crew = hire(&table.shared, alloc, &mut seat, workers)?;
    let_work(rt, &table.shared, &code, alloc, crew.as_mut_slice(), gate);
    dismiss(&table.shared, &mut seat, crew);
    Ok(clear(table, seat).into_world())
}

// Runs a world by several workers while more than its first strand may turn, and by one while that is alone.
fn run_crews<R: Threads + Wait + Sync, G: Gate>(
    rt: &R,
    alloc: Global,
    world: World,
    workers: u32,
    gate: &G,
) -> Result<World, NoMemory>
    requires rest { IsAtRest world }
    ensures goes_on { IfOk result (GoesFrom world) }
    ensures rest { IfOk result IsAtRest }
{
    let mut now = world;
    for crews in 1..=MOST_CREWS {
        let begun = run_while_alone(alloc, now, gate)?;
        if begun.end().is_some() {
            return Ok(begun);
        }
        let sole = crews * LEAST_SHARED;
        now = run_carried::<Brand, R, G>(rt, alloc, begun, workers, sole, gate)?;
    }
    Ok(now)
}

/// Runs a world to its end by 1 to 64 workers, as `run_all` does: the same code and fuel, and a journal that begins with the
/// one handed in. Several workers carry strands outside the slot in which the world lies, and run their silent instructions
/// there. What they leave undone one does, and so what the first strand does while no other may turn.
pub fn run_leased<R: Threads + Wait + Sync, G: Gate>(
    rt: &R,
    alloc: Global,
    world: World,
    workers: u32,
    gate: &G,
) -> Result<World, NoMemory>
    requires some { 1 ≤ workers }
    requires few { workers ≤ most_workers }
    requires rest { IsAtRest world }
    ensures goes_on { IfOk result (GoesFrom world) }
    ensures ended { IfOk result (λ now. now.end ≢ None) }
    ensures rest { IfOk result IsAtRest }
    ensures alone { workers ≡ 1 → IfOk result (TookTurns world) }
{
    if workers == 1 {
        return run_alone(alloc, world, gate);
    }
    let shared = run_crews(rt, alloc, world, workers, gate)?;
    run_alone(alloc, shared, gate)
}

// What is kept of a run that has ended.
fn finished(world: World) -> (Code, Kept)
    requires { world.end ≢ None }
    ensures { FinishesRun world result.0 result.1 }
{
    match world.finish() {
        Ok(done) => done,
        // The run has ended.
        Err(_) => unreachable!(),
    }
}

/// Runs a code to its end by 1 to 64 workers, and gives it back with what is kept of the run. `fuel` is the most entries
/// that the journal may have. With one worker each strand that can go on has its turn, in a circle (own). NoMemory where
/// the journal finds no room, or a turn no memory.
pub fn run<R: Threads + Wait + Sync, G: Gate>(
    rt: &R,
    alloc: Global,
    code: Code,
    fuel: u32,
    workers: u32,
    gate: &G,
) -> Result<(Code, Kept), NoMemory>
    requires valid { IsValid code }
    requires short { length code.list < 2 ^ 32 }
    requires some_fuel { 1 ≤ fuel }
    requires little_fuel { fuel ≤ most_fuel }
    requires some { 1 ≤ workers }
    requires few { workers ≤ most_workers }
    ensures code { IfOk result (λ done. done.0 ≡ code) }
    ensures runs { IfOk result (λ done. RunOf code fuel done.1) }
    ensures cyclic { workers ≡ 1 → IfOk result (λ done. Cyclic code done.1) }
{
    let world = World::start(alloc, code, fuel)?;
    let world = run_leased(rt, alloc, world, workers, gate)?;
    Ok(finished(world))
}
