//! The order of jumps.
ghost use Rattle.std.specs.Prelude.{◌<◌, ◌↔◌, IsTrue, length};
ghost use Rattle.a68_code.specs.Order.{EndsLoop, IsInOrder};

use crate::{Does, Instr};

/// Whether the instruction at this place goes forward, ends a loop, or is a jump to a label, which may go anywhere.
pub fn is_in_order(list: &[Instr], at: usize, does: &Does) -> bool
    requires { at < length list.now }
    ensures { IsTrue result ↔ IsInOrder list.now at does.now }
{
    match does {
        Does::Jump(to) | Does::Unless(to) | Does::Step(to) => at < *to as usize,
        Does::Case(places) => places.are_behind(at),
        Does::Member { places, .. } => places.are_behind(at),
        Does::Advance(to) => ends_loop(list, at, *to as usize),
        _ => true,
    }
}

/// Whether an Advance at this place goes back to the Step of its loop.
fn ends_loop(list: &[Instr], at: usize, to: usize) -> bool
    requires { at < length list.now }
    ensures { IsTrue result ↔ EndsLoop list.now at to }
{
    if to >= at {
        return false;
    }
    let Does::Step(behind) = &list[to].does else {
        return false;
    };
    let Does::Turn = &list[to + 1].does else {
        return false;
    };
    at < *behind as usize
}
