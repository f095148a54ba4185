//! The calls of a world.
ghost use Rattle.std.specs.List.{list_all};
ghost use Rattle.std.specs.Prelude.{◌≡◌, [], ◌∷◌, ◌++◌, ◌<◌, ◌≤◌, ◌^◌, ◌↔◌, ℕ, length, Some, None, IfOk, IfSome, IsNone, MatchBool, MatchOption, MatchResult};
ghost use Rattle.a68_acts.specs.Store.{opening_store};
ghost use Rattle.a68_code.specs.Valid.{IsValid};
ghost use Rattle.a68_exec.specs.Rooms.{room_at};
ghost use Rattle.a68_heights.specs.Room.{Suffices};
ghost use Rattle.a68_joined.specs.Joined.{AreJoined};
ghost use Rattle.a68_strand.specs.Cyclic.{IsFirstBehind};
ghost use Rattle.a68_instructions.specs.Machine.{beginning};
ghost use Rattle.a68_strand.specs.Strands.{HasRoom, HasSettled};
ghost use Rattle.a68_world.specs.Ending.{EndShown};
ghost use Rattle.a68_world.specs.Passed.{PassTurns};
ghost use Rattle.a68_world.specs.Run.{IsSoundRun, RunBegins, most_fuel};
ghost use Rattle.a68_world.specs.Seats.{AreFirstSeats, is_home, place_at};
ghost use Rattle.a68_world.specs.Turns.{GoesOn, IsReady, EndsAt, IsDue, IsOtherDue, TurnOf, IsAble, FinishesRun, last_strand};

use crate::deed::Deed;
use crate::kin::Kin;
use crate::passed::pass_closed;
use crate::resting::rest_behind;
use crate::seat::{Seat, are_home};
use crate::stepping::act_at;
use crate::turning::{end_at, end_shown, next_turn, turn_at};
use crate::units::{seat_all, units_ready};
use crate::waking::wake_behind;
use crate::{Turned, World};
use a68_base::NoMemory;
use a68_code::Code;
use a68_exec::Rooms;
use a68_heights::find_rooms;
use a68_joined::JoinedCode;
use a68_marks::Marks;
use a68_rests::Rests;
use a68_store::Store;
use a68_strand::Strand;
use a68_values::{Act, Chain, End, Entries, Entry, Environ, Journal, Kept, Log};
use std::alloc::Global;

// The frame of the standard environ.
const STANDARD: Environ = Environ { frame: 0, scope: 0 };

// Strand 0 at the beginning of the code, in the frame of the standard environ.
fn first_strand(alloc: Global, code: &Code, rooms: &Rooms) -> Result<Strand, NoMemory>
    requires short { length code.now.list < 2 ^ 32 }
    requires enough { Suffices code.now (room_at rooms.now) }
    ensures settled { IfOk result (HasSettled code.now (beginning 0 (record { frame = 0; scope = 0 } ∷ []))) }
    ensures number { IfOk result (λ strand. strand.number ≡ 0) }
    ensures room { IfOk result (HasRoom code.now) }
{
    let chain = Chain::of_one(alloc, STANDARD)?;
    let strand = Strand::begin(alloc, code, rooms, 0, 0, chain)?;
    Ok(strand)
}

// The seats of a run that is yet to begin.
fn first_seats(alloc: Global, code: &Code, rooms: &Rooms) -> Result<Vec<Seat>, NoMemory>
    requires short { length code.now.list < 2 ^ 32 }
    requires enough { Suffices code.now (room_at rooms.now) }
    ensures { IfOk result (λ seats. AreFirstSeats code.now seats.items) }
{
    let strand = first_strand(alloc, code, rooms)?;
    let mut seats = Vec::new(alloc);
    seats.push(Seat::Home(strand))?;
    Ok(seats)
}

// What is kept of the first strand, which no other one made.
fn first_kin(alloc: Global) -> Result<Vec<Kin>, NoMemory>
    ensures { IfOk result (λ kin. length kin.items ≡ 1) }
{
    let mut kin = Vec::new(alloc);
    kin.push(Kin {
        forker: 0,
        pending: 0,
    })?;
    Ok(kin)
}

// The journal, the store, the seats and the kin of a run that is yet to begin, and its code, laid out; and the room that activations
// have.
fn parts(
    alloc: Global,
    code: &Code,
    fuel: u32,
) -> Result<(Log, Store, Vec<Seat>, Vec<Kin>, JoinedCode, Rooms), NoMemory>
    requires valid { IsValid code.now }
    requires short { length code.now.list < 2 ^ 32 }
    ensures empty { IfOk result (λ parts. parts.0.items ≡ []) }
    ensures room { IfOk result (λ parts. parts.0.room ≡ fuel) }
    ensures store { IfOk result (λ parts. parts.1 ≡ opening_store) }
    ensures seats { IfOk result (λ parts. AreFirstSeats code.now parts.2.items) }
    ensures kin { IfOk result (λ parts. length parts.3.items ≡ 1) }
    ensures joined { IfOk result (λ parts. AreJoined code.now parts.4.items.items) }
    ensures enough { IfOk result (λ parts. Suffices code.now (room_at parts.5)) }
{
    let journal = Log::with_room(alloc, fuel)?;
    let store = Store::new(alloc)?;
    let rooms = find_rooms(alloc, code)?;
    let seats = first_seats(alloc, code, &rooms)?;
    let kin = first_kin(alloc)?;
    let joined = JoinedCode::of(alloc, code)?;
    Ok((journal, store, seats, kin, joined, rooms))
}

/// An entry of a strand in the journal, which has room for it.
pub fn note(journal: &mut Log, strand: u32, act: Act)
    requires room { length journal.old.items < journal.old.room }
    requires few { strand < 2 ^ 16 }
    ensures items { journal.new.items ≡ journal.old.items ++ record { strand = strand; act = act } ∷ [] }
    ensures room { journal.old.room ≤ journal.new.room }
{
    if strand == 0 {
        journal.note(act);
    } else {
        journal.note_wide(Entry { strand, act });
    }
}

/// Has the journal as many entries as there is fuel?
#[inline(always)]
pub fn is_full(journal: &Log, fuel: u32) -> bool
    ensures { MatchBool result (fuel ≤ length journal.now.items) (length journal.now.items < fuel) }
{
    journal.len() >= fuel as usize
}

/// The end that is set behind an act of this strand: none where not every strand stands in the world.
pub fn end_behind(seats: &[Seat], rests: &Rests, store: &Store, n: u32) -> Option<End>
    requires few { length seats.now < 2 ^ 32 }
    requires rests { PassTurns rests.now seats.now store.now }
    ensures { MatchBool (list_all is_home seats.now) (EndShown seats.now store.now result) (result ≡ None) }
{
    let end = end_shown(seats, rests, store, n);
    if end.is_some() && !are_home(seats) {
        return None;
    }
    end
}

// The place of the construct at whose instruction the strand stands.
fn place_at(seats: &[Seat], n: usize) -> u32
    ensures { result ≡ place_at seats.now n }
{
    match seats.get(n) {
        Some(Seat::Home(strand)) => strand.place(),
        _ => 0,
    }
}

impl World {
    /// A run of this code that is yet to begin. The journal is reserved for the whole fuel, and its memory is not touched.
    pub fn start(alloc: Global, code: Code, fuel: u32) -> Result<World, NoMemory>
        requires valid { IsValid code }
        requires short { length code.list < 2 ^ 32 }
        requires some_fuel { 1 ≤ fuel }
        requires little_fuel { fuel ≤ most_fuel }
        ensures { IfOk result (RunBegins code fuel) }
    {
        match parts(alloc, &code, fuel) {
            Ok((journal, store, seats, kin, joined, rooms)) => {
                let passed = Marks::new(alloc);
                let rests = Rests::new(alloc);
                let end = end_shown(&seats, &rests, &store, 0);
                Ok(World {
                    code,
                    joined,
                    rooms,
                    fuel,
                    journal,
                    store,
                    seats,
                    passed,
                    rests,
                    kin,
                    lost: false,
                    end,
                })
            }
            Err(error) => {
                drop(code);
                Err(error)
            }
        }
    }

    /// A turn of a strand: its next act, or the end of the run. Where it finds no memory, or none was found before, the
    /// run does not go on. An end and NotReady take no memory, nor does an act in which plain values alone take part, where the
    /// strand works on plain values alone up to its next act.
    pub fn turn(&mut self, alloc: Global, strand: u32) -> Turned
        ensures { TurnOf self.old strand result self.new }
    {
        if let Some(end) = self.end {
            return Turned::Over(end);
        }
        if self.lost {
            return Turned::NoMemory;
        }
        if !self.can_turn(strand) {
            return Turned::NotReady;
        }
        self.turn_ready(alloc, strand)
    }

    // Has this strand something to do at its turn?
    #[inline(always)]
    pub(crate) fn can_turn(&self, n: u32) -> bool
        ensures { MatchBool result (IsReady self.now n) (IsReady self.now n → ⊥) }
    {
        turn_at(&self.seats, &self.store, n as usize)
    }

    // A turn of a strand that has something to do, in a run that goes on.
    fn turn_ready(&mut self, alloc: Global, n: u32) -> Turned
        requires goes_on { GoesOn self.old }
        requires ready { IsReady self.old n }
        ensures { TurnOf self.old n result self.new }
    {
        match self.ends_now(n) {
            Some(end) => self.end_with(n, end),
            None => self.do_act(alloc, n),
        }
    }

    // The run comes to this end at a turn of this strand.
    fn end_with(&mut self, n: u32, end: End) -> Turned
        requires goes_on { GoesOn self.old }
        requires ready { IsReady self.old n }
        requires ends { EndsAt self.old n end }
        ensures { TurnOf self.old n result self.new }
    {
        self.end = Some(end);
        Turned::Over(end)
    }

    // There is no memory for an act that is due.
    fn lose(&mut self, n: u32) -> Turned
        requires goes_on { GoesOn self.old }
        requires due { IsOtherDue self.old n }
        ensures { TurnOf self.old n result self.new }
    {
        self.lost = true;
        Turned::NoMemory
    }

    // The end to which the run comes at a turn of this strand, where it comes to one without an act.
    fn ends_now(&self, n: u32) -> Option<End>
        requires goes_on { GoesOn self.now }
        requires ready { IsReady self.now n }
        ensures { MatchOption result (IsDue self.now n) (EndsAt self.now n) }
    {
        let full = is_full(&self.journal, self.fuel);
        end_at(&self.seats[n as usize], &self.store, full, n)
    }

    // The act for which this strand asks.
    fn do_act(&mut self, alloc: Global, n: u32) -> Turned
        requires goes_on { GoesOn self.old }
        requires due { IsDue self.old n }
        ensures { TurnOf self.old n result self.new }
    {
        let at = n as usize;
        let Ok(units) = units_ready(
            alloc,
            &self.code,
            &self.rooms,
            &self.store,
            &mut self.seats,
            &mut self.kin,
            at,
        ) else {
            return self.lose(n);
        };
        match act_at(alloc, &self.code, &mut self.store, &mut self.seats[at]) {
            Deed::Told(act) => {
                note(&mut self.journal, n, act);
                seat_all(&mut self.seats, &mut self.kin, n, units);
                self.lost = wake_behind(alloc, &self.code, &mut self.seats, &mut self.kin, at);
                rest_behind(
                    &mut self.rests,
                    &self.kin,
                    &self.seats,
                    &self.store,
                    act,
                    at,
                );
                self.end = end_behind(&self.seats, &self.rests, &self.store, n);
                pass_closed(&mut self.passed, &self.seats, at);
                Turned::Acted
            }
            Deed::Untold(act) => {
                note(&mut self.journal, n, act);
                seat_all(&mut self.seats, &mut self.kin, n, units);
                self.rests = Rests::new(alloc);
                self.lost = true;
                Turned::NoMemory
            }
            Deed::Refused(kind) => {
                drop(units);
                let place = place_at(&self.seats, at);
                self.end_with(
                    n,
                    End::Fault {
                        kind,
                        place,
                        strand: n,
                    },
                )
            }
            Deed::NoMemory => {
                drop(units);
                self.lose(n)
            }
        }
    }

    /// The first strand that can be turned, in the order that begins behind the one named, goes on by numbers and then
    /// from 0. It takes no memory.
    pub fn next(&self, after: u32) -> Option<u32>
        ensures first { IfSome result (IsFirstBehind (IsAble self.now) after) }
        ensures none { IsNone result ↔ ((n : ℕ) → IsAble self.now n → ⊥) }
    {
        if self.end.is_some() {
            return None;
        }
        next_turn(&self.seats, &self.rests, &self.store, after)
    }

    /// The strand of the last entry of the journal, and 0 where there is none. It takes no memory.
    pub fn last(&self) -> u32
        ensures { result ≡ last_strand self.now.entries }
    {
        match self.journal.get(self.journal.len().saturating_sub(1)) {
            None => 0,
            Some(entry) => entry.strand,
        }
    }

    /// How the run has ended, where it has.
    pub fn end(&self) -> Option<End>
        ensures { result ≡ self.now.end }
    {
        self.end
    }

    /// How many entries the journal has. It takes no memory.
    pub fn events(&self) -> u64
        ensures { result ≡ length self.now.entries }
    {
        self.journal.len() as u64
    }

    /// The code of the run, and what is known of every run.
    pub fn code(&self) -> &Code
        ensures code { result.now ≡ self.now.code }
        ensures known { IsSoundRun self.now }
    {
        &self.code
    }

    /// Has a turn found no memory? Then every further one answers NoMemory while the run goes on.
    pub fn lost(&self) -> bool
        ensures { result ≡ self.now.lost }
    {
        self.lost
    }

    /// The code, and what is kept of the run, where it has ended; else the run as it is. It takes no memory.
    pub fn finish(self) -> Result<(Code, Kept), World>
        ensures { MatchResult result (λ done. FinishesRun self done.0 done.1) (λ world. (self.end ≡ None) × (world ≡ self)) }
    {
        let Some(end) = self.end else {
            return Err(self);
        };
        let World {
            code,
            journal,
            store,
            seats,
            ..
        } = self;
        drop(seats);
        let (cells, outer, text) = store.into_kept();
        let journal = Journal {
            entries: Entries::of(journal),
            text,
        };
        let kept = Kept {
            journal,
            cells,
            outer,
            end,
        };
        Ok((code, kept))
    }
}
