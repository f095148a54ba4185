//! Turns of a strand that is alone, one after the other.
ghost use Rattle.std.specs.Prelude.{◌≡◌, true, ◌<◌, ◌≤◌, ◌^◌, length, IfOk, MatchBool, OnErr, OnOk};
ghost use Rattle.a68_joined.specs.Joined.{AreJoined};
ghost use Rattle.a68_world.specs.Alone.{GoneAlone, IsLonger, IsLostBehind, NothingAhead, OthersClosed};
ghost use Rattle.a68_world.specs.AloneAt.{GoesAt, NoneAheadAt, RestsAt, SeatStopsAt};
ghost use Rattle.a68_world.specs.Run.{world};

use crate::World;
use crate::calls::end_behind;
use crate::passed::is_alone;
use crate::seat::{Seat, spend};
use a68_alone::go_alone;
use a68_base::NoMemory;
use a68_code::Code;
use a68_joined::JoinedCode;
use a68_store::Store;
use a68_values::Log;
use std::alloc::Global;

// The strand at this seat, which alone may turn, goes on. Tells whether it did; where it finds no memory it is spent.
fn go_at(
    alloc: Global,
    code: &Code,
    joined: &JoinedCode,
    fuel: u32,
    store: &mut Store,
    journal: &mut Log,
    seat: &mut Seat,
) -> Result<bool, NoMemory>
    requires few { length code.now.list < 2 ^ 32 }
    requires joined { AreJoined code.now joined.now.items.items }
    requires rests { RestsAt code.now seat.old }
    requires room { fuel ≤ journal.old.room }
    requires within { length journal.old.items ≤ fuel }
    ensures room { journal.old.room ≤ journal.new.room }
    ensures within { length journal.new.items ≤ fuel }
    ensures went { IfOk result (λ any. MatchBool any
        (GoesAt code.now store.old seat.old journal.old.items journal.new.items store.new seat.new)
        ((seat.new ≡ seat.old) × (store.new ≡ store.old) × (journal.new.items ≡ journal.old.items))) }
    ensures ahead { OnOk result (NoneAheadAt fuel (length journal.new.items) store.new seat.new) }
    ensures stops { OnErr result (SeatStopsAt code.now store.old seat.old journal.old.items journal.new.items store.new seat.new) }
    ensures more { OnErr result (length journal.old.items < length journal.new.items) }
{
    let Seat::Home(strand) = seat else {
        return Ok(false);
    };
    match go_alone(strand, alloc, code, joined, fuel, store, journal) {
        Ok(any) => Ok(any),
        Err(error) => {
            spend(seat);
            Err(error)
        }
    }
}

impl World {
    /// Has each strand but the first closed, so that no other ever turns? It takes no memory. Where there was none to mark one
    /// that has closed, it answers that there are others.
    pub fn is_alone(&self) -> bool
        ensures { result ≡ true → OthersClosed (world self.now).strands }
    {
        is_alone(&self.passed, self.seats.len())
    }

    /// The acts of the first strand of a run, where no other ever turns again, one after the other while there is fuel, up to one
    /// that meets a fault or would make strands, or to its end; each in which plain values alone take part is done. Where another
    /// strand may turn, or the next act is such, the run stays as it is. Where it finds no memory behind an act the run does not
    /// go on.
    pub fn go_alone(&mut self, alloc: Global) -> Result<(), NoMemory>
        ensures longer { IsLonger self.old self.new }
        ensures alone { OnOk result (GoneAlone self.old self.new) }
        ensures ahead { OnOk result (NothingAhead self.new) }
        ensures lost { OnErr result (IsLostBehind self.old self.new) }
    {
        self.go_alone_to(alloc, self.fuel)
    }

    /// The same, while the journal has fewer entries than this.
    pub fn go_alone_to(&mut self, alloc: Global, most: u32) -> Result<(), NoMemory>
        ensures longer { IsLonger self.old self.new }
        ensures within { length self.old.entries ≤ most → length self.new.entries ≤ most }
        ensures alone { OnOk result (GoneAlone self.old self.new) }
        ensures ahead { OnOk result (self.old.fuel ≤ most → NothingAhead self.new) }
        ensures lost { OnErr result (IsLostBehind self.old self.new) }
    {
        if self.end.is_some() || self.lost {
            return Ok(());
        }
        if !is_alone(&self.passed, self.seats.len()) {
            return Ok(());
        }
        let bound = self.fuel.min(most);
        if self.journal.len() > bound as usize {
            return Ok(());
        }
        match go_at(
            alloc,
            &self.code,
            &self.joined,
            bound,
            &mut self.store,
            &mut self.journal,
            &mut self.seats[0],
        ) {
            Ok(false) => Ok(()),
            Ok(true) => {
                self.rests.rouse(0);
                self.end = end_behind(&self.seats, &self.rests, &self.store, 0);
                Ok(())
            }
            Err(error) => {
                self.rests.rouse(0);
                self.lost = true;
                Err(error)
            }
        }
    }
}
