//! Runs that follow a schedule.
ghost use Rattle.std.specs.Prelude.{◌≡◌, ◌≤◌, ◌<◌, ◌^◌, length, IfOk, MatchBool};
ghost use Rattle.a68_code.specs.Valid.{IsValid};
ghost use Rattle.a68_replay.specs.Following.{AreOwn, Follows, GoesOwn, HasAllHome, HasNoPick, TakesPick, picks_so_far};
ghost use Rattle.a68_replay.specs.Replays.{Replays};
ghost use Rattle.a68_world.specs.Run.{RunBegins};

use crate::picks::{MOST_PICKS, Picks};
use a68_base::{MOST_FUEL, NoMemory};
use a68_code::Code;
use a68_values::Kept;
use a68_world::{Turned, World};
use std::alloc::Global;

/// What comes of a run that follows a schedule. Each has the code that was handed in.
#[derive(Drop)]
pub enum Replayed {
    /// The picks are those of this run.
    Ran(Code, Kept),
    /// The strand of the pick at this place has no turn, or the run has ended before it.
    Stuck(Code, u32),
    /// The picks end, as many as this, and the run has not.
    Short(Code, u32),
}

// A turn of this strand, where it has one. Tells whether it had; where not, the run stays as it was.
fn turn_picked(alloc: Global, world: &mut World, strand: u32) -> Result<bool, NoMemory>
    requires fuel { length world.old.entries < world.old.fuel }
    requires home { HasAllHome world.old }
    ensures { IfOk result (λ turned. MatchBool turned (TakesPick world.old strand world.new) (HasNoPick world.old strand world.new)) }
{
    let _known = world.code();
    if world.end().is_some() {
        return Ok(false);
    }
    match world.turn(alloc, strand) {
        Turned::Acted => Ok(true),
        Turned::Over(_) => Ok(true),
        Turned::NotReady => Ok(false),
        Turned::NoMemory => Err(NoMemory),
    }
}

// The place behind the picks of the first strand that stand from this one on, one behind the other.
fn own_until(picks: &[u32], from: usize) -> usize
    requires { from ≤ length picks.now }
    ensures { AreOwn picks.now from result }
{
    let mut until = from;
    while until < picks.len() && picks[until] == 0 {
        until += 1;
    }
    until
}

// The first strand goes on by itself where no other ever turns again, while it is picked: up to this place. Tells the place up
// to which the picks have been followed then.
fn go_own(alloc: Global, world: &mut World, at: usize, until: usize) -> Result<usize, NoMemory>
    requires home { HasAllHome world.old }
    requires count { at ≡ length (picks_so_far world.old) }
    requires within { (at ≤ until) × (until ≤ MOST_PICKS) }
    ensures { IfOk result (GoesOwn world.old at until world.new) }
{
    if until - at < 2 || world.lost() {
        return Ok(at);
    }
    world.go_alone_to(alloc, until as u32)?;
    Ok(at.max(world.events() as usize))
}

// Turns the strands that are picked, one after the other, and gives the place of the first pick that has no turn.
fn follow(alloc: Global, world: &mut World, picks: &[u32]) -> Result<Option<u32>, NoMemory>
    requires few { length picks.now ≤ MOST_PICKS }
    requires begins { RunBegins world.old.code MOST_FUEL world.old }
    ensures { IfOk result (Follows world.old picks.now world.new) }
{
    let mut at = 0;
    let mut until = 0;
    while at < picks.len() {
        if until <= at {
            until = own_until(picks, at);
        }
        let next = go_own(alloc, world, at, until)?;
        if next > at {
            at = next;
            continue;
        }
        let turned = turn_picked(alloc, world, picks[at])?;
        if !turned {
            return Ok(Some(at as u32));
        }
        at += 1;
    }
    Ok(None)
}

// A copy of the code of a run that is given up.
fn code_of(alloc: Global, world: World) -> Result<Code, NoMemory>
    ensures { IfOk result (λ code. code ≡ world.code) }
{
    let code = world.code().copy(alloc);
    drop(world);
    code
}

// What a run comes to that has followed all picks.
fn finished(alloc: Global, world: World, picks: u32) -> Result<Replayed, NoMemory>
    requires fuel { world.fuel ≡ MOST_FUEL }
    requires home { HasAllHome world }
    requires count { picks ≡ length (picks_so_far world) }
    ensures { IfOk result (Replays world.code (picks_so_far world)) }
{
    let _known = world.code();
    // A strand found no memory behind the last pick.
    if world.lost() {
        drop(world);
        return Err(NoMemory);
    }
    match world.finish() {
        Ok((code, kept)) => Ok(Replayed::Ran(code, kept)),
        Err(world) => {
            let code = code_of(alloc, world)?;
            Ok(Replayed::Short(code, picks))
        }
    }
}

/// A run of a code by the picks of a schedule: at each its strand has its turn.
pub fn replay(alloc: Global, code: Code, picks: &Picks) -> Result<Replayed, NoMemory>
    requires valid { IsValid code }
    requires short { length code.list < 2 ^ 32 }
    requires few { length picks.now ≤ MOST_PICKS }
    ensures { IfOk result (Replays code picks.now) }
{
    let mut world = World::start(alloc, code, MOST_FUEL)?;
    match follow(alloc, &mut world, &picks.items) {
        Ok(None) => finished(alloc, world, picks.items.len() as u32),
        Ok(Some(place)) => {
            let code = code_of(alloc, world)?;
            Ok(Replayed::Stuck(code, place))
        }
        Err(error) => {
            drop(world);
            Err(error)
        }
    }
}
