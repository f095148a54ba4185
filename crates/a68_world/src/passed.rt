//! Strands that never turn again.
ghost use Rattle.std.specs.Prelude.{◌≡◌, MatchBool};
ghost use Rattle.a68_world.specs.Passed.{Passes, StandsAlone};

use crate::seat::Seat;
use crate::waking::closed_at;
use a68_marks::Marks;

/// The strand of this number has passed, where it has closed. Where there is no memory to mark it, it goes on to be looked at.
pub fn pass_closed(passed: &mut Marks, seats: &[Seat], n: usize)
    ensures { Passes passed.old seats.now n passed.new }
{
    if closed_at(seats, n) {
        let _marked = passed.mark(n);
    }
}

/// Have all strands passed but the first one, where there are so many?
pub fn is_alone(passed: &Marks, count: usize) -> bool
    ensures { MatchBool result (StandsAlone passed.now count) (count ≡ 1 → ⊥) }
{
    if count == 0 {
        return false;
    }
    passed.first_other(1, count) == count
}
