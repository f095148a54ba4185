//! Strands that are lent: their acts, and what the world says while they are out. The rows were found by hand.
ghost use Rattle.std.specs.Prelude.{◌≡◌, ℕ};
ghost use Rattle.a68_workers.specs.Runs.{IsAtRest};
ghost use Rattle.a68_world.specs.Leases.{IsHeld};
ghost use Rattle.a68_world.specs.Run.{IsNumber};
ghost use Rattle.a68_world.specs.declared.status.StrandState.TheVariants.{Lent};

use crate::parallel::PASSED;
use crate::table::holds;
use crate::world::{HALTED, UNSET, UNSET_AT_5, world};
use a68_acts::Reply;
use a68_lease::run_leased;
use a68_outside::FreeGate;
use a68_strand::Strand;
use a68_values::{End, FaultKind};
use a68_world::{Turned, World};
use std::alloc::Global;
use std::marker::Sync;
use std::panic::Expect;
use std::process::Abort;
use std::sync::Wait;
use std::thread::Threads;

/// BEGIN print(1) END
const PRINTING_ONE: &str = "Push 1, Print 1, End";

/// Two turns
const TURNING: &str = "Turn, Turn, End";

/// PAR ( SKIP, SKIP )
const TWO_UNITS: &str = "Fork 2 2, End, Close";

/// PAR ( print of an unset value, SKIP )
const UNSET_UNIT: &str = "Fork 2 5, End, Skip 1, Print 1, Close, Close";

// Takes out a strand that has something to do.
fn lent(rt: &impl Abort, world: &mut World, number: u32) -> Strand
    ensures held { IsHeld world.new result }
    ensures alone { IsAtRest world.old → (k : ℕ) → IsNumber world.new k Lent → k ≡ result.number }
{
    world.lend(number).expect(rt, "a strand to lend")
}

// Is a strand not lent that is out, or has nothing to do?
fn stays(world: &mut World, number: u32) -> bool {
    match world.lend(number) {
        None => true,
        Some(strand) => {
            drop(strand);
            false
        }
    }
}

// The act of a strand that is lent, which is then told the reply.
fn acts(rt: &impl Abort, alloc: Global, world: &mut World, mut strand: Strand) -> Strand
    requires { IsHeld world.old strand }
    ensures held { IsHeld world.new result }
    ensures alone { ((k : ℕ) → IsNumber world.old k Lent → k ≡ strand.number) → (k : ℕ) → IsNumber world.new k Lent → k ≡ result.number }
{
    let _known = world.code();
    let Ok(reply) = world.act(alloc, &strand) else {
        rt.panic("an act")
    };
    strand.told(alloc, world.code(), reply).expect(rt, "memory");
    strand
}

// So many acts of it.
fn acts_often(
    rt: &impl Abort,
    alloc: Global,
    world: &mut World,
    mut strand: Strand,
    count: u32,
) -> Strand
    requires { IsHeld world.old strand }
    ensures { IsHeld world.new result }
{
    for _ in 0..count {
        strand = acts(rt, alloc, world, strand);
    }
    strand
}

// Why a strand that is lent does no act.
fn why(rt: &impl Abort, alloc: Global, world: &mut World, strand: &Strand) -> Turned
    requires { IsHeld world.old strand.now }
    ensures { IsHeld world.new strand.now }
{
    match world.act(alloc, strand) {
        Err(why) => why,
        Ok(_) => rt.panic("no act"),
    }
}

// A turn of a strand while this one is out.
fn turn(alloc: Global, world: &mut World, number: u32, strand: &Strand) -> Turned
    requires { IsHeld world.old strand.now }
    ensures { IsHeld world.new strand.now }
{
    let turned = world.turn(alloc, number);
    let _known = world.code();
    turned
}

// An act of a strand that stands in the world, at its turn.
fn turns(rt: &impl Abort, alloc: Global, world: &mut World, number: u32, strand: &Strand)
    requires { IsHeld world.old strand.now }
    ensures { IsHeld world.new strand.now }
{
    let turned = turn(alloc, world, number, strand);
    holds(rt, matches!(turned, Turned::Acted), "an act at a turn");
}

// A strand that is lent has nothing to do, and the run goes on.
fn idles(rt: &impl Abort, alloc: Global, world: &mut World, strand: &Strand)
    requires { IsHeld world.old strand.now }
    ensures { IsHeld world.new strand.now }
{
    let why = why(rt, alloc, world, strand);
    holds(rt, matches!(why, Turned::NotReady), "nothing to do");
    holds(rt, world.end().is_none(), "the run goes on");
}

fn give(alloc: Global, world: &mut World, strand: Strand)
    requires { IsHeld world.old strand }
    ensures { ((k : ℕ) → IsNumber world.old k Lent → k ≡ strand.number) → IsAtRest world.new }
{
    world.back(alloc, strand);
}

fn is_over(turned: Turned, end: End) -> bool {
    match turned {
        Turned::Over(found) => found == end,
        _ => false,
    }
}

// The text of a run that has ended so.
fn ends(rt: &impl Abort, world: World, end: End, events: usize, text: &str) {
    let (code, kept) = world.finish().ok().expect(rt, "an end");
    drop(code);
    holds(rt, kept.end == end, "the end");
    holds(rt, kept.journal.entries.len() == events, "the entries");
    let printed = kept.journal.text.items.as_slice() == text.as_bytes();
    holds(rt, printed, "the text");
    drop(kept);
}

// A strand that is out is not lent again, nor turned, nor next; and the run ends when it is back, and not before.
#[test]
fn a_strand_is_lent_once(rt: HostRuntime) {
    let alloc = rt.alloc();
    let mut world = world(&rt, alloc, PRINTING_ONE, 9);
    holds(&rt, stays(&mut world, 1), "a strand that is not there");
    let strand = lent(&rt, &mut world, 0);
    let turned = turn(alloc, &mut world, 0, &strand);
    holds(&rt, matches!(turned, Turned::NotReady), "it is out");
    holds(&rt, world.next(0).is_none(), "none is next");
    let strand = acts(&rt, alloc, &mut world, strand);
    idles(&rt, alloc, &mut world, &strand);
    give(alloc, &mut world, strand);
    holds(&rt, world.end() == Some(End::Done), "the run has ended");
    holds(&rt, stays(&mut world, 0), "none is lent behind the end");
    ends(&rt, world, End::Done, 1, "                  +1");
}

#[test]
fn an_act_gives_its_reply(rt: HostRuntime) {
    let alloc = rt.alloc();
    let mut world = world(&rt, alloc, PRINTING_ONE, 9);
    let strand = lent(&rt, &mut world, 0);
    let Ok(reply) = world.act(alloc, &strand) else {
        rt.panic("a reply")
    };
    holds(&rt, matches!(reply, Reply::Go), "Go");
    drop(reply);
    drop(strand);
    drop(world);
}

#[test]
fn fuel_is_spent_by_a_strand_that_is_out(rt: HostRuntime) {
    let alloc = rt.alloc();
    let mut world = world(&rt, alloc, TURNING, 1);
    let strand = lent(&rt, &mut world, 0);
    let strand = acts(&rt, alloc, &mut world, strand);
    let over = is_over(why(&rt, alloc, &mut world, &strand), End::Spent);
    holds(&rt, over, "no fuel is left");
    give(alloc, &mut world, strand);
    ends(&rt, world, End::Spent, 1, "");
}

#[test]
fn a_strand_that_is_out_meets_a_fault(rt: HostRuntime) {
    let alloc = rt.alloc();
    let mut world = world(&rt, alloc, UNSET, 9);
    let strand = lent(&rt, &mut world, 0);
    let strand = acts_often(&rt, alloc, &mut world, strand, 5);
    let over = is_over(why(&rt, alloc, &mut world, &strand), UNSET_AT_5);
    holds(&rt, over, "the fault");
    let again = is_over(why(&rt, alloc, &mut world, &strand), UNSET_AT_5);
    holds(&rt, again, "an end that is set stays");
    give(alloc, &mut world, strand);
    ends(&rt, world, UNSET_AT_5, 5, "");
}

// DOWN of 0 is no act, and where no other strand is there all have halted, once it is back.
#[test]
fn a_strand_that_is_out_has_to_wait(rt: HostRuntime) {
    let alloc = rt.alloc();
    let mut world = world(&rt, alloc, HALTED, 9);
    let strand = lent(&rt, &mut world, 0);
    let strand = acts_often(&rt, alloc, &mut world, strand, 2);
    idles(&rt, alloc, &mut world, &strand);
    give(alloc, &mut world, strand);
    ends(&rt, world, End::AllHalted, 2, "");
}

// A strand that waits for its units while it is out is told Go when it is back.
#[test]
fn a_strand_that_is_out_waits_for_its_units(rt: HostRuntime) {
    let alloc = rt.alloc();
    let mut world = world(&rt, alloc, TWO_UNITS, 9);
    let strand = lent(&rt, &mut world, 0);
    let strand = acts(&rt, alloc, &mut world, strand);
    holds(&rt, world.next(0) == Some(1), "a unit is next");
    idles(&rt, alloc, &mut world, &strand);
    turns(&rt, alloc, &mut world, 1, &strand);
    idles(&rt, alloc, &mut world, &strand);
    turns(&rt, alloc, &mut world, 2, &strand);
    idles(&rt, alloc, &mut world, &strand);
    give(alloc, &mut world, strand);
    ends(&rt, world, End::Done, 3, "");
}

// A unit that closes while it is out wakes the strand that waits for it.
#[test]
fn a_unit_closes_while_it_is_out(rt: HostRuntime) {
    let alloc = rt.alloc();
    let mut world = world(&rt, alloc, PASSED, 99);
    for _ in 0..5 {
        holds(
            &rt,
            matches!(world.turn(alloc, 0), Turned::Acted),
            "strand 0",
        );
    }
    let strand = lent(&rt, &mut world, 2);
    let strand = acts_often(&rt, alloc, &mut world, strand, 2);
    turns(&rt, alloc, &mut world, 1, &strand);
    turns(&rt, alloc, &mut world, 1, &strand);
    turns(&rt, alloc, &mut world, 1, &strand);
    holds(&rt, world.next(0).is_none(), "strand 0 waits");
    let strand = acts(&rt, alloc, &mut world, strand);
    idles(&rt, alloc, &mut world, &strand);
    give(alloc, &mut world, strand);
    ends(&rt, world, End::Done, 11, "");
}

// A fault of another strand ends the run, and the strand that is out finds it ended.
#[test]
fn a_run_ends_while_a_strand_is_out(rt: HostRuntime) {
    let alloc = rt.alloc();
    let mut world = world(&rt, alloc, UNSET_UNIT, 9);
    holds(&rt, matches!(world.turn(alloc, 0), Turned::Acted), "a Fork");
    let strand = lent(&rt, &mut world, 2);
    let end = End::Fault {
        kind: FaultKind::Unset,
        place: 3,
        strand: 1,
    };
    let turned = turn(alloc, &mut world, 1, &strand);
    holds(&rt, is_over(turned, end), "a fault of strand 1");
    let over = is_over(why(&rt, alloc, &mut world, &strand), end);
    holds(&rt, over, "strand 2 finds the run ended");
    give(alloc, &mut world, strand);
    ends(&rt, world, end, 1, "");
}

// The first strand is lent, acts once and is back.
fn lend_once(rt: &impl Abort, alloc: Global, world: &mut World)
    requires { IsAtRest world.old }
    ensures { IsAtRest world.new }
{
    let strand = lent(rt, world, 0);
    let strand = acts(rt, alloc, world, strand);
    give(alloc, world, strand)
}

// So many workers go on with a run of which a strand was lent, has acted and is back.
fn go_on_behind_a_lease<R: Threads + Wait + Sync + Abort>(rt: &R, alloc: Global, workers: u32) {
    holds(rt, 1 <= workers, "some workers");
    holds(rt, workers <= 64, "few workers");
    let mut run = world(rt, alloc, PASSED, 99);
    lend_once(rt, alloc, &mut run);
    let run = run_leased(rt, alloc, run, workers, &FreeGate).expect(rt, "memory");
    holds(rt, run.events() == 11, "the events");
    holds(rt, run.end() == Some(End::Done), "the end");
    drop(run);
}

#[test]
fn workers_go_on_behind_a_lease(rt: HostRuntime) {
    for workers in [1, 2, 4, 64] {
        go_on_behind_a_lease(&rt, rt.alloc(), workers);
    }
}
