//! The world of a run.
use crate::kin::Kin;
use crate::seat::Seat;
use a68_code::Code;
use a68_exec::Rooms;
use a68_joined::JoinedCode;
use a68_marks::Marks;
use a68_rests::Rests;
use a68_store::Store;
use a68_values::{End, Log};
use std::marker::Model;

/// A run: its code and its fuel, the journal of what was done, the store and the strands, and the end where the run has
/// come to it. What is known of every run stands in the clauses of [`code`](World::code).
#[derive(Drop)]
pub struct World {
    pub(crate) code: Code,
    // The code, laid out for a strand that is alone.
    pub(crate) joined: JoinedCode,
    // For how many items activations have room on the stack.
    pub(crate) rooms: Rooms,
    // The most entries that the journal may have.
    pub(crate) fuel: u32,
    pub(crate) journal: Log,
    pub(crate) store: Store,
    pub(crate) seats: Vec<Seat>,
    // Strands that have closed. One for whose mark there was no memory is missing.
    pub(crate) passed: Marks,
    // Strands that are not looked at for a turn until they may have one. Where there was no memory one is missing.
    pub(crate) rests: Rests,
    // For each strand who made it, and which of the units for which it waits have closed.
    pub(crate) kin: Vec<Kin>,
    // A turn has found no memory.
    pub(crate) lost: bool,
    pub(crate) end: Option<End>,
}

impl Model for World {
    ghost use Rattle.a68_world.specs.Codes.{run_code};
    ghost use Rattle.a68_world.specs.Run.{Run};

    ghost Value = { Run };

    ghost coded = { run_code };

    ghost use Rattle.a68_world.specs.Inside.{run_of, IsSound};

    ghost view = { run_of };

    ghost invariant = { IsSound };
}
