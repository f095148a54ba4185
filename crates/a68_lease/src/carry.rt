//! What a worker does: it takes a strand out, does its acts, and gives it back.
ghost use Rattle.std.specs.Prelude.{◌≡◌, ◌<◌, ◌∷◌, [], ◌^◌, false, true, length, None, Some, IfSome, IfOk, IfErr, OnErr, OnOk, IsTrue, MatchOption};
ghost use Rattle.a68_instructions.specs.Room.{brings_room};
ghost use Rattle.a68_lease.specs.Places.{IsBoard, IsAway, IsIdle, IsStuck, Carries, IsAnswered};
ghost use Rattle.a68_strand.specs.Strands.{awaits};

use crate::plays::{Desk, Place};
use crate::steps::{close, close_acted, close_back, close_lent, open};
use a68_acts::Reply;
use a68_code::Code;
use a68_outside::Gate;
use a68_strand::Strand;
use a68_workers::{GivenRun, HeldWorld};
use crossbeam_utils::Backoff;
use std::alloc::Global;
use std::sync::Wait;

/// Why no strand was taken out.
#[derive(Clone, Copy)]
pub enum Why {
    /// Another has the turn, or no strand can be taken out.
    Busy,
    /// The run does not go on by several workers.
    Over,
}

// Has the run ended, has a turn found no memory, or is the strand that is left a matter for one worker?
fn is_over<J: GivenRun>(held: &HeldWorld<J>) -> bool {
    held.world().end().is_some() || held.world().lost() || held.is_left()
}

/// Takes a strand out of the world.
pub fn lease_one<J: GivenRun>(
    desk: &Desk<J>,
    code: &Code,
    seat: &mut Place<J>,
    after: u32,
) -> Result<Strand, Why>
    requires table { (seat.old.table_id ≡ desk.now.table_id) × IsBoard desk.now.table_id }
    requires code { code.now ∷ [] ≡ J.code }
    requires idle { IsIdle seat.old.me }
    ensures same { (seat.new.table_id ≡ seat.old.table_id) × (seat.new.me.0.parts ≡ seat.old.me.0.parts) }
    ensures ok { IfOk result (λ s. Carries code.now seat.new.me s) }
    ensures err { OnErr result (IsIdle seat.new.me) }
{
    let Some(mut held) = open(desk, seat) else {
        return Err(Why::Busy);
    };
    if is_over(&held) {
        close(desk, seat, held);
        return Err(Why::Over);
    }
    let Some(number) = held.world().next(after) else {
        close(desk, seat, held);
        return Err(Why::Busy);
    };
    let Some(strand) = held.lend(number) else {
        close(desk, seat, held);
        return Err(Why::Busy);
    };
    close_lent(desk, seat, held, number);
    Ok(strand)
}

/// Does the strand's act. Where it gets no reply, or is left to one worker, the strand is given back; where another has the turn, it is
/// kept.
pub fn act_once<J: GivenRun>(
    desk: &Desk<J>,
    code: &Code,
    alloc: Global,
    seat: &mut Place<J>,
    strand: Strand,
) -> Result<(Strand, Reply), Option<Strand>>
    requires table { (seat.old.table_id ≡ desk.now.table_id) × IsBoard desk.now.table_id }
    requires code { code.now ∷ [] ≡ J.code }
    requires carries { Carries code.now seat.old.me strand }
    ensures same { (seat.new.table_id ≡ seat.old.table_id) × (seat.new.me.0.parts ≡ seat.old.me.0.parts) }
    ensures ok { IfOk result (λ p. IsAnswered code.now seat.new.me p.0 p.1) }
    ensures err { IfErr result (λ o. MatchOption o (IsIdle seat.new.me) (λ s. Carries code.now seat.new.me s)) }
{
    let Some(mut held) = open(desk, seat) else {
        return Err(Some(strand));
    };
    held.known();
    if held.is_left() {
        let number = strand.number();
        held.back(alloc, strand);
        close_back(desk, seat, held, number);
        return Err(None);
    }
    match held.act(alloc, &strand) {
        Ok(reply) => {
            close_acted(desk, seat, held);
            Ok((strand, reply))
        }
        Err(_) => {
            let number = strand.number();
            held.back(alloc, strand);
            close_back(desk, seat, held, number);
            Err(None)
        }
    }
}

// One event of the strand, or a try. Err: it was given back, or is spent.
fn step_on<J: GivenRun, G: Gate>(
    desk: &Desk<J>,
    code: &Code,
    alloc: Global,
    seat: &mut Place<J>,
    strand: Strand,
    backoff: &Backoff,
    worker: u32,
    events: &mut u64,
    gate: &G,
) -> Result<Strand, Option<Strand>>
    requires table { (seat.old.table_id ≡ desk.now.table_id) × IsBoard desk.now.table_id }
    requires code { code.now ∷ [] ≡ J.code }
    requires few { length code.now.list < 2 ^ 32 }
    requires carries { Carries code.now seat.old.me strand }
    ensures same { (seat.new.table_id ≡ seat.old.table_id) × (seat.new.me.0.parts ≡ seat.old.me.0.parts) }
    ensures ok { IfOk result (λ s. Carries code.now seat.new.me s) }
    ensures err { IfErr result (λ o. MatchOption o (IsIdle seat.new.me) (λ s. IsStuck seat.new.me s)) }
{
    match act_once(desk, code, alloc, seat, strand) {
        Ok((mut strand, reply)) => {
            backoff.reset();
            gate.out(worker, strand.number(), strand.place());
            let told = strand.told(alloc, code, reply).is_ok();
            *events = events.wrapping_add(1);
            gate.pass(worker, strand.number(), *events);
            if told { Ok(strand) } else { Err(Some(strand)) }
        }
        Err(Some(kept)) => {
            backoff.snooze();
            Ok(kept)
        }
        Err(None) => Err(None),
    }
}

// Gives a spent strand back, where nobody has the turn.
fn try_back<J: GivenRun>(
    desk: &Desk<J>,
    alloc: Global,
    seat: &mut Place<J>,
    strand: Strand,
) -> Option<Strand>
    requires table { (seat.old.table_id ≡ desk.now.table_id) × IsBoard desk.now.table_id }
    requires stuck { IsStuck seat.old.me strand }
    ensures same { (seat.new.table_id ≡ seat.old.table_id) × (seat.new.me.0.parts ≡ seat.old.me.0.parts) }
    ensures stuck { MatchOption result (IsIdle seat.new.me) (λ s. IsStuck seat.new.me s) }
{
    let Some(mut held) = open(desk, seat) else {
        return Some(strand);
    };
    held.known();
    let number = strand.number();
    held.back(alloc, strand);
    close_back(desk, seat, held, number);
    None
}

fn give_up<J: GivenRun, R: Wait>(
    rt: &R,
    desk: &Desk<J>,
    alloc: Global,
    seat: &mut Place<J>,
    mut strand: Strand,
)
    requires table { (seat.old.table_id ≡ desk.now.table_id) × IsBoard desk.now.table_id }
    requires stuck { IsStuck seat.old.me strand }
    ensures same { (seat.new.table_id ≡ seat.old.table_id) × (seat.new.me.0.parts ≡ seat.old.me.0.parts) }
    ensures idle { IsIdle seat.new.me }
{
    let backoff = Backoff::new();
    for _ in rt.forever() {
        let Some(kept) = try_back(desk, alloc, seat, strand) else {
            return;
        };
        strand = kept;
        backoff.snooze();
    }
    unreachable!()
}

// The acts of one strand, until it is given back. False: memory ran out.
fn carry<J: GivenRun, R: Wait, G: Gate>(
    rt: &R,
    desk: &Desk<J>,
    code: &Code,
    alloc: Global,
    seat: &mut Place<J>,
    mut strand: Strand,
    worker: u32,
    events: &mut u64,
    gate: &G,
) -> bool
    requires table { (seat.old.table_id ≡ desk.now.table_id) × IsBoard desk.now.table_id }
    requires code { code.now ∷ [] ≡ J.code }
    requires few { length code.now.list < 2 ^ 32 }
    requires carries { Carries code.now seat.old.me strand }
    ensures same { (seat.new.table_id ≡ seat.old.table_id) × (seat.new.me.0.parts ≡ seat.old.me.0.parts) }
    ensures idle { IsIdle seat.new.me }
{
    let backoff = Backoff::new();
    for _ in rt.forever() {
        match step_on(
            desk, code, alloc, seat, strand, &backoff, worker, events, gate,
        ) {
            Ok(kept) => strand = kept,
            Err(None) => return true,
            Err(Some(spent)) => {
                give_up(rt, desk, alloc, seat, spent);
                return false;
            }
        }
    }
    unreachable!()
}

/// Takes strands out and does their acts, until the run does not go on by several workers.
pub fn work<J: GivenRun, R: Wait, G: Gate>(
    rt: &R,
    desk: &Desk<J>,
    code: &Code,
    alloc: Global,
    seat: &mut Place<J>,
    worker: u32,
    gate: &G,
)
    requires table { (seat.old.table_id ≡ desk.now.table_id) × IsBoard desk.now.table_id }
    requires code { code.now ∷ [] ≡ J.code }
    requires few { length code.now.list < 2 ^ 32 }
    requires idle { IsIdle seat.old.me }
    ensures same { (seat.new.table_id ≡ seat.old.table_id) × (seat.new.me.0.parts ≡ seat.old.me.0.parts) }
    ensures idle { IsIdle seat.new.me }
{
    let backoff = Backoff::new();
    let mut after = worker;
    let mut events: u64 = 0;
    for _ in rt.forever() {
        match lease_one(desk, code, seat, after) {
            Ok(strand) => {
                backoff.reset();
                after = strand.number();
                if !carry(
                    rt,
                    desk,
                    code,
                    alloc,
                    seat,
                    strand,
                    worker,
                    &mut events,
                    gate,
                ) {
                    return;
                }
            }
            Err(Why::Over) => return,
            Err(Why::Busy) => backoff.snooze(),
        }
    }
    unreachable!()
}
