//! Who made each strand, and which of the units for which one waits have closed.
ghost use Rattle.std.specs.Prelude.{◌≡◌, ◌≤◌, ◌+◌};
ghost use Rattle.std.specs.Vec.{vec_capacity, vec_len};
ghost use Rattle.a68_world.specs.Kin.{Forks, forker_at, pending_at, with_pending};

/// What is kept of a strand beside its seat.
#[derive(Clone, Copy)]
pub struct Kin {
    /// The number of the strand that made it.
    pub forker: u32,
    /// While it waits for units: those of them behind so many have closed.
    pub pending: usize,
}

/// The number of the strand that made this one.
pub fn forker_of(kin: &[Kin], n: usize) -> u32
    ensures { result ≡ forker_at kin.now n }
{
    match kin.get(n) {
        Some(of) => of.forker,
        None => 0,
    }
}

/// Of the units for which this strand waits those behind so many have closed.
pub fn pending_of(kin: &[Kin], n: usize) -> usize
    ensures { result ≡ pending_at kin.now n }
{
    match kin.get(n) {
        Some(of) => of.pending,
        None => 0,
    }
}

/// From now on those behind so many are known to have closed.
pub fn set_pending(kin: &mut Vec<Kin>, n: usize, pending: usize)
    ensures { kin.new.items ≡ with_pending kin.old.items n pending }
{
    let forker = forker_of(kin, n);
    if n < kin.len() {
        kin[n] = Kin { forker, pending };
    }
}

/// This strand has made so many units, which come behind all others, and waits for them.
pub fn fork(kin: &mut Vec<Kin>, n: u32, count: usize)
    requires { vec_len kin.old + count ≤ vec_capacity kin.old }
    ensures { Forks kin.old.items n count kin.new.items }
{
    if count == 0 {
        return;
    }
    let unit = Kin {
        forker: n,
        pending: 0,
    };
    // There is room for them.
    let _ = kin.resize(kin.len() + count, unit);
    set_pending(kin, n as usize, count);
}
