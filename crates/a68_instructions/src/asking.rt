//! What a strand shows of itself.
ghost use Rattle.std.specs.Prelude.{◌≡◌, ℕ};
ghost use Rattle.a68_instructions.specs.Bodies.{StaysWhereAsking, units_awaited_in, waiting_in};

use crate::body::About;
use crate::{Ask, Waiting};
use a68_acts::Want;
use std::mem;

// The units that are waited for, the first one and how many; none where no units are.
fn units_awaited_in(waiting: &Waiting) -> (u32, usize)
    ensures { result ≡ units_awaited_in waiting.now }
{
    match waiting {
        Waiting::Units { first, count } => (*first, *count),
        _ => (0, 0),
    }
}

impl About {
    /// Shows this in the place of what was shown.
    #[inline(always)]
    pub fn show(&mut self, ask: Ask)
        ensures { self.new ≡ record self.old { ask = ask } }
    {
        self.ask = ask;
    }

    /// Asks for an act, and does this with the reply.
    #[inline(always)]
    pub fn wait(&mut self, want: Want, waiting: Waiting)
        ensures now { self.new ≡ record { ask = Ask.Want want; waiting = waiting } }
        ensures stays { (at : ℕ) → StaysWhereAsking self.new.ask at at }
    {
        self.show(Ask::Want(want));
        self.waiting = waiting;
    }

    /// Waits for units.
    pub fn wait_for(&mut self, first: u32, count: usize)
        ensures { self.new ≡ record { ask = Ask.Waits; waiting = Waiting.Units first count } }
    {
        self.show(Ask::Waits);
        self.waiting = Waiting::Units { first, count };
    }

    /// The units that are waited for.
    pub fn units(&self) -> (u32, usize)
        ensures { result ≡ units_awaited_in self.now.waiting }
    {
        units_awaited_in(&self.waiting)
    }

    /// Takes out what is done with the reply.
    pub fn take_waiting(&mut self) -> Waiting
        ensures taken { result ≡ waiting_in self.old.ask self.old.waiting }
        ensures shown { self.new.ask ≡ self.old.ask }
    {
        if matches!(self.ask, Ask::Waits) {
            let (first, count) = self.units();
            return Waiting::Units { first, count };
        }
        mem::replace(&mut self.waiting, Waiting::Turn)
    }
}
