//! Strands that waited for units which have now closed.
ghost use Rattle.std.specs.Prelude.{◌≡◌, ◌<◌, ◌≤◌, ◌+◌, ◌-◌, ◌^◌, ℕ, true, false, length, Some, if◌then◌else◌};
ghost use Rattle.a68_world.specs.Kin.{DueBy, WakesBehind, WakesOne, awaited_at};
ghost use Rattle.a68_world.specs.Seats.{closed_in, closed_at, all_closed_at, due_at};
ghost use Rattle.a68_world.specs.Waking.{GoesOnAt, WakesAt, seat_awaits};

use crate::kin::{Kin, forker_of, pending_of, set_pending};
use crate::seat::{Seat, spend};
use a68_acts::Reply;
use a68_code::Code;
use std::alloc::Global;

// Has the strand at this seat closed?
fn closed_in(seat: &Seat) -> bool
    ensures { result ≡ closed_in seat.now }
{
    match seat {
        Seat::Home(strand) => strand.closed(),
        Seat::Away { closed, .. } => *closed,
    }
}

/// Has the strand of this number closed?
pub fn closed_at(seats: &[Seat], n: usize) -> bool
    ensures { result ≡ closed_at seats.now n }
{
    match seats.get(n) {
        Some(seat) => closed_in(seat),
        None => false,
    }
}

// Have so many strands closed, from the first one on? The last one is looked at first, since it is mostly the last to close.
fn all_closed_at(seats: &[Seat], first: u32, count: usize) -> bool
    ensures { result ≡ all_closed_at seats.now first count }
{
    if count > seats.len() {
        return false;
    }
    for i in 0..count {
        if !closed_at(seats, first as usize + (count - 1 - i)) {
            return false;
        }
    }
    true
}

// The units for which the strand of this number waits.
fn awaited_at(seats: &[Seat], n: usize) -> Option<(u32, usize)>
    ensures { result ≡ awaited_at seats.now n }
{
    let Some(Seat::Home(strand)) = seats.get(n) else {
        return None;
    };
    strand.units()
}

// Does the strand of this number wait for units that have all closed?
fn due_at(seats: &[Seat], n: usize) -> bool
    ensures { result ≡ due_at seats.now n }
{
    let Some(Seat::Home(strand)) = seats.get(n) else {
        return false;
    };
    match strand.units() {
        Some((first, count)) => all_closed_at(seats, first, count),
        None => false,
    }
}

// How many of so many units are left once those at the end that have closed are left out.
fn still_pending(seats: &[Seat], first: u32, pending: usize) -> usize
    requires few { pending ≤ length seats.now }
    ensures less { result ≤ pending }
    ensures closed { all_closed_at seats.now (first + result) (pending - result) ≡ true }
    ensures last { 0 < result → closed_at seats.now (first + (result - 1)) ≡ false }
{
    for i in 0..pending {
        if !closed_at(seats, first as usize + (pending - 1 - i)) {
            return pending - i;
        }
    }
    0
}

// The same. Units that have closed are looked at once, from the last one on, since that one is mostly the last to close.
fn due_by(seats: &[Seat], kin: &mut Vec<Kin>, n: usize) -> bool
    ensures due { DueBy kin.old.items kin.new.items seats.now n result }
    ensures awaits { result ≡ true → (first : ℕ) × (count : ℕ) × (awaited_at seats.now n ≡ Some (first, count)) }
{
    let Some((first, count)) = awaited_at(seats, n) else {
        return false;
    };
    if count > seats.len() {
        return false;
    }
    let pending = pending_of(kin, n).min(count);
    let left = still_pending(seats, first, pending);
    set_pending(kin, n, left);
    left == 0
}

// The strand at this seat is told to go on. Tells whether it found memory.
fn go_on(alloc: Global, code: &Code, seat: &mut Seat) -> bool
    requires few { length code.now.list < 2 ^ 32 }
    requires awaits { seat_awaits seat.old ≡ true }
    ensures { GoesOnAt code.now seat.old seat.new result }
{
    let Seat::Home(strand) = seat else {
        // The strand waits for units.
        unreachable!();
    };
    match strand.told(alloc, code, Reply::Go) {
        Ok(()) => true,
        Err(_) => {
            spend(seat);
            false
        }
    }
}

/// The strand of this number goes on where it waits for units that have all closed. Tells whether it found memory.
pub fn wake_at(alloc: Global, code: &Code, seats: &mut Vec<Seat>, n: usize) -> bool
    requires few { length code.now.list < 2 ^ 32 }
    ensures { WakesAt code.now n seats.old.items seats.new.items result }
{
    if !due_at(seats, n) {
        return true;
    }
    go_on(alloc, code, &mut seats[n])
}

// The same.
fn wake_by(alloc: Global, code: &Code, seats: &mut Vec<Seat>, kin: &mut Vec<Kin>, n: usize) -> bool
    requires few { length code.now.list < 2 ^ 32 }
    ensures { WakesOne code.now n kin.old.items kin.new.items seats.old.items seats.new.items result }
{
    if !due_by(seats, kin, n) {
        return true;
    }
    go_on(alloc, code, &mut seats[n])
}

// Is the run lost behind a strand that was told to go on?
fn is_lost(found: bool) -> bool
    ensures { result ≡ (if found then false else true) }
{
    !found
}

/// Behind an act of this strand the one goes on that waits for units which have all closed: the one that made this strand, where it
/// has closed, or itself. Tells whether it found no memory, and is spent.
pub fn wake_behind(
    alloc: Global,
    code: &Code,
    seats: &mut Vec<Seat>,
    kin: &mut Vec<Kin>,
    n: usize,
) -> bool
    requires few { length code.now.list < 2 ^ 32 }
    ensures { WakesBehind code.now n kin.old.items kin.new.items seats.old.items seats.new.items result }
{
    if closed_at(seats, n) {
        let forker = forker_of(kin, n);
        let found = wake_by(alloc, code, seats, kin, forker as usize);
        return is_lost(found);
    }
    let found = wake_at(alloc, code, seats, n);
    is_lost(found)
}
