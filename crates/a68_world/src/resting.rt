//! Strands that rest: they are not looked at again until they may have a turn.
ghost use Rattle.std.specs.Prelude.{◌≡◌, ◌<◌, ◌≤◌, ◌^◌, length, IfSome};
ghost use Rattle.a68_rests.specs.Resting.{Leaves};
ghost use Rattle.a68_world.specs.Resting.{ClosesBy, IsAtCell, OpensBy, RestsBehind, RestsMore, RestsOne, RousesBehind, shows_idle, written};

use crate::kin::{Kin, forker_of};
use crate::seat::Seat;
use crate::turning::turn_at;
use crate::waking::closed_at;
use a68_acts::Want;
use a68_instructions::Ask;
use a68_rests::Rests;
use a68_store::Store;
use a68_values::Act;

// The cell to which an act writes.
fn written(act: Act) -> Option<u32>
    ensures { result ≡ written act }
{
    match act {
        Act::Assign { cell } => Some(cell),
        Act::Up { cell } => Some(cell),
        _ => None,
    }
}

// The cell of the semaphore that an act lowers.
fn lowered(act: Act) -> Option<u32> {
    match act {
        Act::Down { cell } => Some(cell),
        _ => None,
    }
}

// The strand that has done this act rests no more.
fn leave_by(rests: &mut Rests, act: Act, n: usize)
    requires few { n < 2 ^ 32 }
    ensures { Leaves rests.old n rests.new }
{
    match lowered(act) {
        Some(cell) => rests.leave(n as u32, cell),
        None => rests.rouse(n),
    }
}

// Strands that wait at the cell to which this act writes may have turns again.
fn open_by(rests: &mut Rests, act: Act)
    ensures { OpensBy (written act) rests.old rests.new }
{
    let Some(cell) = written(act) else {
        return;
    };
    rests.open(cell);
}

// Where strands have to wait again at the cell of the semaphore that this act lowers, they rest.
fn close_by(rests: &mut Rests, store: &Store, act: Act)
    ensures { ClosesBy store.now rests.old rests.new }
{
    let Some(cell) = lowered(act) else {
        return;
    };
    if store.waits(&Want::Down { cell }) {
        rests.close(cell);
    }
}

// Where this strand has closed, the one that made it may go on.
fn rouse_behind(rests: &mut Rests, kin: &[Kin], seats: &[Seat], n: usize)
    ensures { RousesBehind rests.old kin.now seats.now n rests.new }
{
    if closed_at(seats, n) {
        rests.rouse(forker_of(kin, n) as usize);
    }
}

// Has a strand that shows this nothing to do until it is told to go on?
fn shows_idle(ask: &Ask) -> bool
    ensures { result ≡ shows_idle ask.now }
{
    matches!(ask, Ask::Waits | Ask::Ended | Ask::Closed)
}

// The cell of the semaphore at which a strand that shows this would have to wait.
fn cell_waited(ask: &Ask, store: &Store) -> Option<u32>
    ensures { IfSome result (IsAtCell ask.now store.now) }
{
    let Ask::Want(want) = ask else {
        return None;
    };
    let Want::Down { cell } = want else {
        return None;
    };
    if !store.waits(want) {
        return None;
    }
    Some(*cell)
}

// The strand of this number, which shows this, rests where it has no turn.
fn rest_shown(rests: &mut Rests, store: &Store, ask: &Ask, k: u32)
    ensures { RestsOne ask.now store.now k rests.old rests.new }
{
    if shows_idle(ask) {
        rests.rest(k as usize);
        return;
    }
    let Some(cell) = cell_waited(ask, store) else {
        return;
    };
    rests.hold(k, cell);
}

// The same, where it stands in the world.
fn rest_at(rests: &mut Rests, seats: &[Seat], store: &Store, k: usize)
    requires few { k < 2 ^ 32 }
    ensures { RestsMore rests.old rests.new seats.now store.now }
{
    let Some(Seat::Home(strand)) = seats.get(k) else {
        return;
    };
    rest_shown(rests, store, strand.ask(), k as u32);
}

// Strands rest that have no turn, from this number on up to the first that has one. Tells whether there is one below that number.
fn rest_in(rests: &mut Rests, seats: &[Seat], store: &Store, from: usize, to: usize) -> bool
    requires few { to < 2 ^ 32 }
    requires order { from ≤ to }
    ensures { RestsMore rests.old rests.new seats.now store.now }
{
    let mut k = rests.first_other(from, to);
    while k < to {
        if turn_at(seats, store, k) {
            return true;
        }
        rest_at(rests, seats, store, k);
        k = rests.first_other(k + 1, to);
    }
    false
}

// Strands rest that have no turn, in the order in which they are looked at behind this one, up to the first that has one. So each
// that a search has met in vain is left out by the next one.
fn rest_from(rests: &mut Rests, seats: &[Seat], store: &Store, n: usize)
    requires few { length seats.now < 2 ^ 32 }
    requires within { n < length seats.now }
    ensures { RestsMore rests.old rests.new seats.now store.now }
{
    rest_at(rests, seats, store, n);
    if !rest_in(rests, seats, store, n + 1, seats.len()) {
        let _found = rest_in(rests, seats, store, 0, n);
    }
}

// Where this strand has closed, the one that made it rests again where it has no turn yet.
fn rest_forker(rests: &mut Rests, kin: &[Kin], seats: &[Seat], store: &Store, n: usize)
    ensures { RestsMore rests.old rests.new seats.now store.now }
{
    if closed_at(seats, n) {
        rest_at(rests, seats, store, forker_of(kin, n) as usize);
    }
}

/// Behind this act of this strand those that may have turns by it rest no more, and others rest that have none.
pub fn rest_behind(
    rests: &mut Rests,
    kin: &[Kin],
    seats: &[Seat],
    store: &Store,
    act: Act,
    n: usize,
)
    requires few { length seats.now < 2 ^ 32 }
    requires within { n < length seats.now }
    ensures { RestsBehind (written act) n kin.now seats.now store.now rests.old rests.new }
{
    leave_by(rests, act, n);
    open_by(rests, act);
    close_by(rests, store, act);
    rouse_behind(rests, kin, seats, n);
    rest_forker(rests, kin, seats, store, n);
    rest_from(rests, seats, store, n);
}
