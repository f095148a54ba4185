//! Strands.
ghost use Rattle.std.specs.Prelude.{IsTrue};
ghost use Rattle.a68_instructions.specs.Bodies.{may_go_on};

use a68_exec::Rooms;
use a68_instructions::{About, Body};

/// A strand that has run its silent instructions, and shows what it asks.
pub struct Strand {
    pub number: u32,
    pub place: u32,
    /// For how many items each activation has room on the stack.
    pub rooms: Rooms,
    pub body: Body,
    pub about: About,
    ghost may: { IsTrue (may_go_on about.ask body.at) },
}

impl Drop for Strand {
    fn drop(self) {
        let Strand {
            number: _,
            place: _,
            rooms: _,
            body: _,
            about: _,
        } = self;
    }
}
