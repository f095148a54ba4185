//! The seats of strands.
ghost use Rattle.std.specs.Prelude.{◌≡◌, true, false};
ghost use Rattle.std.specs.List.{list_all};
ghost use Rattle.a68_world.specs.Leases.{Loses, TakesOut};
ghost use Rattle.a68_world.specs.Seats.{is_home};

use a68_strand::Strand;
use std::mem;

/// The seat of a strand.
#[derive(Drop)]
pub enum Seat {
    /// The strand stands in the world.
    Home(Strand),
    /// The strand is lent, or is spent: it found no memory. Has it closed?
    Away { spent: bool, closed: bool },
}

/// The strand at this seat, which has not closed, is spent.
pub fn spend(seat: &mut Seat)
    ensures { seat.new ≡ Seat.Away true false }
{
    *seat = Seat::Away {
        spent: true,
        closed: false,
    };
}

/// The strand at this seat, which has not closed, is lent.
pub fn take_out(seat: &mut Seat) -> Option<Strand>
    ensures { TakesOut seat.old result seat.new }
{
    let away = Seat::Away {
        spent: false,
        closed: false,
    };
    match mem::replace(seat, away) {
        Seat::Home(strand) => Some(strand),
        Seat::Away { .. } => None,
    }
}

/// The strand at this seat, which is lent, is spent.
pub fn lose(seat: &mut Seat)
    ensures { Loses seat.old seat.new }
{
    let closed = match seat {
        Seat::Home(_) => false,
        Seat::Away { closed, .. } => *closed,
    };
    *seat = Seat::Away {
        spent: true,
        closed,
    };
}

/// A strand that is lent has acted. Has it closed?
pub fn set_closed(seat: &mut Seat, closed: bool)
    ensures { seat.new ≡ Seat.Away false closed }
{
    *seat = Seat::Away {
        spent: false,
        closed,
    };
}

/// A strand that was lent stands in the world again.
pub fn put_back(seat: &mut Seat, strand: Strand)
    ensures { seat.new ≡ Seat.Home strand }
{
    *seat = Seat::Home(strand);
}

fn is_home(seat: &Seat) -> bool
    ensures { result ≡ is_home seat.now }
{
    matches!(seat, Seat::Home(_))
}

/// Does every strand stand in the world?
pub fn are_home(seats: &[Seat]) -> bool
    ensures { result ≡ list_all is_home seats.now }
{
    seats.iter().all(|seat| is_home(seat))
}
