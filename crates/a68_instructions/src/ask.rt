//! What a strand asks, and what it waits for.
use a68_acts::{Next, Want};
use a68_values::{FaultKind, Plain, Routine, Values};
use std::marker::Model;

/// The parameters of a call that are not bound yet, the next one last, and the slot to which that is bound.
#[derive(Drop)]
pub struct Parameters {
    pub slot: u32,
    pub left: Values,
}

impl Model for Parameters {
    ghost use Rattle.std.specs.Prelude.{◌+◌, ◌<◌, ◌^◌, length};
    ghost use Rattle.a68_instructions.specs.Unbound.{Unbound, unbound_code};

    ghost Value = { Unbound };

    ghost coded = { unbound_code };

    ghost view = { λ parameters. let x : Unbound = record { slot = parameters.slot; left = parameters.left } in x };

    ghost invariant = { λ parameters. parameters.slot + length parameters.left < 2 ^ 32 };
}

/// What a strand that has asked for an act does with the reply.
#[derive(Drop)]
pub enum Waiting {
    /// Its operation goes on.
    Operation(Next),
    /// It stands in the new frame.
    Frame,
    /// It goes on with the next instruction.
    Turn,
    /// It goes on with the instruction at this place.
    Jump(u32),
    /// It enters a frame for the routine that it calls.
    Called(Routine, Parameters),
    /// It stands in the frame of the routine text of this number, and binds the next parameter.
    Entered(u32, Parameters),
    /// It binds the next parameter; behind the last one the body of the routine text of this number begins.
    Bound(u32, Parameters),
    /// It is told the first of so many units of a parallel clause, and waits for them.
    Fork { count: usize },
    /// It has closed.
    Close,
    /// It goes on with the next instruction, once these units have closed.
    Units { first: u32, count: usize },
}

/// What a strand is about.
#[derive(Drop)]
pub enum Stance {
    /// It stands before an instruction.
    Idle,
    /// It has asked for an act.
    Asking(Want, Waiting),
    /// It has met a fault.
    Failed(FaultKind),
    /// It waits for so many units of a parallel clause, which are numbered from this one on.
    Waits { first: u32, count: usize },
    /// It was a unit of a parallel clause, and has come to its end.
    Closed,
}

/// What a strand shows of itself.
#[derive(Drop)]
pub enum Ask {
    /// It asks for this act.
    Want(Want),
    /// It waits for the units of a parallel clause.
    Waits,
    /// It has come to its end.
    Ended,
    /// It was a unit of a parallel clause, and has come to its end.
    Closed,
    /// It stands before a fault. `place` is the byte of the text at which the construct begins that meets it.
    Fault { kind: FaultKind, place: u32 },
    /// It runs its silent instructions.
    Runs,
    /// It found no memory, and is spent.
    NoMemory,
}

/// A reply that is not made of other values, and is told without memory.
#[derive(Clone, Copy)]
pub enum PlainReply {
    /// The act is done, and there is no more to tell.
    Go,
    /// The value that a slot is bound to.
    Value(Plain),
    /// What the cell holds.
    Held(Plain),
}
