//! Strands that are lent.
ghost use Rattle.std.specs.Prelude.{◌≡◌, ◌||◌, ◌<◌, ◌^◌, true, false, length, None, if◌then◌else◌, MatchBool};
ghost use Rattle.std.specs.Option.{is_some};
ghost use Rattle.a68_strand.specs.Strands.{is_spent};
ghost use Rattle.a68_values.specs.declared.kept.End.{End};
ghost use Rattle.a68_world.specs.Leases.{ActOf, BackOf, IsHeld, IsReplay, LendOf, closes_by};
ghost use Rattle.a68_world.specs.Run.{IsNumber, world};
ghost use Rattle.a68_world.specs.Seats.{turn_shown};
ghost use Rattle.a68_world.specs.Turns.{EndsAt, GoesOn, IsDueAs, IsOtherDueAs};

use crate::calls::{end_behind, is_full, note};
use crate::deed::Deed;
use crate::passed::pass_closed;
use crate::resting::rest_behind;
use crate::seat::{Seat, lose, put_back, set_closed, take_out};
use crate::stepping::act_lent;
use crate::turning::{end_asked, turn_shown};
use crate::units::{seat_all, units_for};
use crate::waking::{wake_at, wake_behind};
use crate::{StrandState, Turned, World};
use a68_acts::Reply;
use a68_instructions::Waiting;
use a68_strand::Strand;
use a68_values::End;
use std::alloc::Global;

// Does a strand that waits so close by this reply?
fn closes_by(waiting: &Waiting, reply: &Reply) -> bool
    ensures { result ≡ closes_by waiting.now reply.now }
{
    match waiting {
        Waiting::Close => matches!(reply, Reply::Go),
        _ => false,
    }
}

// Is the run lost, once a strand has been given back?
fn lost_behind(lost: bool, found: bool, ended: bool) -> bool
    ensures { result ≡ (if ended then false else if found then lost else true) }
{
    if ended {
        return false;
    }
    if found { lost } else { true }
}

// Is the run lost, once a strand has been given back that is spent?
fn lost_by_spent(lost: bool, ended: bool) -> bool
    ensures { result ≡ (if ended then lost else true) }
{
    if ended { lost } else { true }
}

impl World {
    /// Takes out a strand that stands in the world and has something to do. None where there is none such, or the run has
    /// ended. It takes no memory.
    pub fn lend(&mut self, strand: u32) -> Option<Strand>
        ensures { LendOf self.old strand result self.new }
    {
        if self.end.is_some() {
            return None;
        }
        if !self.can_turn(strand) {
            return None;
        }
        take_out(&mut self.seats[strand as usize])
    }

    /// The next act of a strand that is lent, which is then to be told the reply; or why it does none.
    pub fn act(&mut self, alloc: Global, strand: &Strand) -> Result<Reply, Turned>
        requires { IsHeld self.old strand.now }
        ensures { ActOf self.old strand.now result self.new }
    {
        if let Some(end) = self.end {
            return Err(Turned::Over(end));
        }
        if self.lost {
            return Err(Turned::NoMemory);
        }
        if !turn_shown(strand.ask(), &self.store) {
            return Err(Turned::NotReady);
        }
        self.act_ready(alloc, strand)
    }

    // The same of one that has something to do, in a run that goes on.
    fn act_ready(&mut self, alloc: Global, strand: &Strand) -> Result<Reply, Turned>
        requires goes_on { GoesOn self.old }
        requires held { IsHeld self.old strand.now }
        requires turn { turn_shown strand.now.about.ask (world self.old).store ≡ true }
        ensures { ActOf self.old strand.now result self.new }
    {
        let full = is_full(&self.journal, self.fuel);
        match end_asked(strand, &self.store, full, strand.number()) {
            Some(end) => self.end_lent(strand, end),
            None => self.act_due(alloc, strand),
        }
    }

    // The run comes to this end at an act of a strand that is lent.
    fn end_lent(&mut self, strand: &Strand, end: End) -> Result<Reply, Turned>
        requires goes_on { GoesOn self.old }
        requires held { IsHeld self.old strand.now }
        requires turn { turn_shown strand.now.about.ask (world self.old).store ≡ true }
        requires ends { EndsAt self.old strand.now.number end }
        ensures { ActOf self.old strand.now result self.new }
    {
        self.end = Some(end);
        Err(Turned::Over(end))
    }

    // There is no memory for the act of a strand that is lent.
    fn lose_lent(&mut self, strand: &Strand) -> Result<Reply, Turned>
        requires goes_on { GoesOn self.old }
        requires due { IsOtherDueAs self.old strand.now.number StrandState.Lent }
        ensures { ActOf self.old strand.now result self.new }
    {
        self.lost = true;
        Err(Turned::NoMemory)
    }

    // The act of a strand that is lent.
    fn act_due(&mut self, alloc: Global, strand: &Strand) -> Result<Reply, Turned>
        requires goes_on { GoesOn self.old }
        requires held { IsHeld self.old strand.now }
        requires turn { turn_shown strand.now.about.ask (world self.old).store ≡ true }
        requires due { IsDueAs self.old strand.now.number StrandState.Lent }
        ensures { ActOf self.old strand.now result self.new }
    {
        let Ok(units) = units_for(
            alloc,
            &self.code,
            &self.rooms,
            &self.store,
            &mut self.seats,
            &mut self.kin,
            strand,
        ) else {
            return self.lose_lent(strand);
        };
        let number = strand.number();
        let at = number as usize;
        let mut reply = Reply::Go;
        match act_lent(alloc, &mut self.store, strand, &mut reply) {
            Deed::Told(act) => {
                note(&mut self.journal, number, act);
                let closed = closes_by(&strand.about.waiting, &reply);
                set_closed(&mut self.seats[at], closed);
                seat_all(&mut self.seats, &mut self.kin, number, units);
                self.lost = wake_behind(alloc, &self.code, &mut self.seats, &mut self.kin, at);
                rest_behind(
                    &mut self.rests,
                    &self.kin,
                    &self.seats,
                    &self.store,
                    act,
                    at,
                );
                pass_closed(&mut self.passed, &self.seats, at);
                Ok(reply)
            }
            // The strand is told by whoever has it.
            Deed::Untold(_) => unreachable!(),
            Deed::Refused(kind) => {
                drop(units);
                drop(reply);
                let end = End::Fault {
                    kind,
                    place: strand.place(),
                    strand: strand.number(),
                };
                self.end_lent(strand, end)
            }
            Deed::NoMemory => {
                drop(units);
                drop(reply);
                self.lose_lent(strand)
            }
        }
    }

    /// A strand that was lent stands in the world again. Where it waits for units that have all closed it goes on. One that is
    /// spent, or finds no memory for that, is spent there. Where no further turn is needed the end is set.
    pub fn back(&mut self, alloc: Global, strand: Strand)
        requires lent { IsNumber self.old strand.number StrandState.Lent }
        requires replay { is_spent strand.about.ask ≡ false → IsReplay self.old.code self.old.entries strand }
        ensures { BackOf self.old strand (is_spent strand.about.ask) self.new }
    {
        let number = strand.number();
        if strand.spent() {
            drop(strand);
            lose(&mut self.seats[number as usize]);
            self.lost = lost_by_spent(self.lost, self.end.is_some());
            return;
        }
        put_back(&mut self.seats[number as usize], strand);
        let found = wake_at(alloc, &self.code, &mut self.seats, number as usize);
        if self.end.is_some() {
            return;
        }
        let end = end_behind(&self.seats, &self.rests, &self.store, number);
        self.lost = lost_behind(self.lost, found, end.is_some());
        self.end = end;
    }
}
