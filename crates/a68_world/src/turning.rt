//! Which strands have something to do at their turns.
ghost use Rattle.std.specs.Prelude.{◌≡◌, ◌<◌, ◌≤◌, ◌^◌, ℕ, true, false, length, slice_get, Some, IfSome, IsNone};
ghost use Rattle.a68_strand.specs.Cyclic.{IsFirstBehind};
ghost use Rattle.a68_world.specs.Ending.{HasTurnAt, EndShown, FirstIn, NoneIn, end_at, end_asked};
ghost use Rattle.a68_world.specs.Passed.{PassTurns};
ghost use Rattle.a68_world.specs.Seats.{turn_shown, turn_in, turn_at, ended_shown, ended_in, ended_at};

use crate::seat::Seat;
use a68_instructions::Ask;
use a68_rests::Rests;
use a68_store::Store;
use a68_strand::Strand;
use a68_values::End;

/// Has a strand that shows this something to do at its turn?
#[inline(always)]
pub fn turn_shown(ask: &Ask, store: &Store) -> bool
    ensures { result ≡ turn_shown ask.now store.now }
{
    match ask {
        Ask::Want(want) => !store.waits(want),
        Ask::Fault { .. } => true,
        _ => false,
    }
}

#[inline(always)]
fn turn_in(seat: &Seat, store: &Store) -> bool
    ensures { result ≡ turn_in store.now seat.now }
{
    match seat {
        Seat::Home(strand) => turn_shown(strand.ask(), store),
        Seat::Away { .. } => false,
    }
}

/// Has the strand of this number something to do at its turn?
#[inline(always)]
pub fn turn_at(seats: &[Seat], store: &Store, n: usize) -> bool
    ensures { result ≡ turn_at seats.now store.now n }
{
    match seats.get(n) {
        Some(seat) => turn_in(seat, store),
        None => false,
    }
}

// The first strand that has something to do, from this number on and below that one. Those that rest are left out.
fn first_in(seats: &[Seat], rests: &Rests, store: &Store, from: usize, to: usize) -> Option<u32>
    requires few { to < 2 ^ 32 }
    requires order { from ≤ to }
    requires rests { PassTurns rests.now seats.now store.now }
    ensures first { IfSome result (FirstIn seats.now store.now from to) }
    ensures none { IsNone result → NoneIn seats.now store.now from to }
{
    let mut n = rests.first_other(from, to);
    while n < to {
        if turn_at(seats, store, n) {
            return Some(n as u32);
        }
        n = rests.first_other(n + 1, to);
    }
    None
}

/// The first strand that has something to do, in the order that begins behind the one named, goes on by numbers and then
/// from 0.
pub fn next_turn(seats: &[Seat], rests: &Rests, store: &Store, after: u32) -> Option<u32>
    requires few { length seats.now < 2 ^ 32 }
    requires rests { PassTurns rests.now seats.now store.now }
    ensures first { IfSome result (IsFirstBehind (HasTurnAt seats.now store.now) after) }
    ensures none { IsNone result → (n : ℕ) → turn_at seats.now store.now n ≡ false }
{
    let behind = seats.len().min(after as usize + 1);
    match first_in(seats, rests, store, behind, seats.len()) {
        Some(n) => Some(n),
        None => first_in(seats, rests, store, 0, behind),
    }
}

fn ended_shown(ask: &Ask) -> bool
    ensures { result ≡ ended_shown ask.now }
{
    matches!(ask, Ask::Ended)
}

// Has the strand of the program come to its end?
fn has_ended(seats: &[Seat]) -> bool
    ensures { result ≡ ended_at seats.now 0 }
{
    match seats.first() {
        Some(Seat::Home(strand)) => ended_shown(strand.ask()),
        _ => false,
    }
}

/// The end without a further turn, behind an act of this strand. While that one has something to do no other is looked at.
pub fn end_shown(seats: &[Seat], rests: &Rests, store: &Store, n: u32) -> Option<End>
    requires few { length seats.now < 2 ^ 32 }
    requires rests { PassTurns rests.now seats.now store.now }
    ensures { EndShown seats.now store.now result }
{
    if has_ended(seats) {
        return Some(End::Done);
    }
    if turn_at(seats, store, n as usize) {
        return None;
    }
    match next_turn(seats, rests, store, n) {
        Some(_) => None,
        None => Some(End::AllHalted),
    }
}

/// The end to which the run comes at a turn of a strand that stands before a fault, or where the fuel is spent.
#[inline(always)]
pub fn end_asked(strand: &Strand, store: &Store, full: bool, n: u32) -> Option<End>
    ensures { result ≡ end_asked strand.now.about.ask strand.now.place store.now full n }
{
    match strand.ask() {
        Ask::Fault { kind, place } => Some(End::Fault {
            kind: *kind,
            place: *place,
            strand: n,
        }),
        Ask::Want(want) => {
            if !full {
                return None;
            }
            match store.fault_of(want) {
                None => Some(End::Spent),
                Some(kind) => Some(End::Fault {
                    kind,
                    place: strand.place(),
                    strand: n,
                }),
            }
        }
        _ => None,
    }
}

/// The end to which the run comes at a turn of this strand without an act.
#[inline(always)]
pub fn end_at(seat: &Seat, store: &Store, full: bool, n: u32) -> Option<End>
    ensures { result ≡ end_at seat.now store.now full n }
{
    match seat {
        Seat::Home(strand) => end_asked(strand, store, full, n),
        Seat::Away { .. } => None,
    }
}
