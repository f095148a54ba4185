//! Callers.
use a68_values::Chain;
use std::marker::Model;

/// Where a call goes on that is open: the number of the instruction behind it, and the frames in which it stands. A frame
/// within the innermost of these has a scope.
#[derive(Drop)]
pub struct Caller {
    pub to: u32,
    pub chain: Chain,
}

impl Model for Caller {
    ghost use Rattle.std.specs.Prelude.{IsTrue};
    ghost use Rattle.a68_stack.specs.Callers.{Caller as Calling, caller_code};
    ghost use Rattle.a68_stack.specs.Room.{has_room};

    ghost Value = { Calling };

    ghost coded = { caller_code };

    ghost view = { λ caller. let x : Calling = record { to = caller.to; chain = caller.chain } in x };

    ghost invariant = { λ caller. IsTrue (has_room caller.chain) };
}
