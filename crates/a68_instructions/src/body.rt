//! Where a strand stands.
ghost use Rattle.std.specs.Prelude.{IsTrue};
ghost use Rattle.a68_stack.specs.Room.{has_room};

use crate::{Ask, Waiting};
use a68_stack::Stack;
use a68_values::Chain;

/// Where a strand stands: the number of its instruction, its stack, and its chain of frames.
#[derive(Drop)]
pub struct Body {
    pub at: u32,
    pub stack: Stack,
    pub chain: Chain,
    // A frame within the innermost one has a scope.
    pub ghost room: { IsTrue (has_room chain) },
}

/// What a strand shows, and what it does with the reply where it has asked for an act. While it runs its silent
/// instructions it shows that.
#[derive(Drop)]
pub struct About {
    pub ask: Ask,
    pub waiting: Waiting,
}
