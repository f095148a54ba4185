//! Operators on BITS (Report, 10.2.3.8).
ghost use Rattle.std.specs.Prelude.{◌≡◌, ◌<◌, ◌^◌, pos};
ghost use Rattle.a68_ops.specs.Bits as spec;
ghost use Rattle.a68_ops.specs.Yields as yields;

use crate::operator::{Dyadic, truth};
use a68_values::{FaultKind, Plain};

/// Applies an operator to two values of BITS.
#[inline(always)]
pub fn on_bits(operator: Dyadic, left: u64, right: u64) -> Result<Plain, FaultKind>
    ensures { result ≡ spec.on_bits operator left right }
{
    match operator {
        Dyadic::Or => Ok(Plain::Bits(left | right)),
        Dyadic::And => Ok(Plain::Bits(left & right)),
        Dyadic::Equal => truth(left == right),
        Dyadic::NotEqual => truth(left != right),
        Dyadic::AtMost => truth(left | right == right),
        Dyadic::AtLeast => truth(left | right == left),
        _ => Err(FaultKind::Kind),
    }
}

// Moves all places to the left.
fn moved_left(bits: u64, places: u64) -> u64
    ensures { result ≡ spec.moved_left bits places }
{
    bits.unbounded_shl(places.min(64) as u32)
}

// Moves all places to the right.
fn moved_right(bits: u64, places: u64) -> u64
    ensures { result ≡ spec.moved_right bits places }
{
    bits.unbounded_shr(places.min(64) as u32)
}

/// Moves the places of BITS to the left or to the right.
pub fn shifted(operator: Dyadic, bits: u64, places: i64) -> Result<Plain, FaultKind>
    ensures { result ≡ spec.shifted operator bits places }
{
    let count = places.unsigned_abs();
    match operator {
        Dyadic::ShiftLeft if places >= 0 => Ok(Plain::Bits(moved_left(bits, count))),
        Dyadic::ShiftLeft => Ok(Plain::Bits(moved_right(bits, count))),
        Dyadic::ShiftRight if places >= 0 => Ok(Plain::Bits(moved_right(bits, count))),
        Dyadic::ShiftRight => Ok(Plain::Bits(moved_left(bits, count))),
        _ => Err(FaultKind::Kind),
    }
}

/// Tells whether a place of BITS is set; places count from 1, from the left.
pub fn on_place(operator: Dyadic, place: i64, bits: u64) -> Result<Plain, FaultKind>
    ensures { result ≡ spec.on_place operator place bits }
{
    if operator != Dyadic::Elem {
        return Err(FaultKind::Kind);
    }
    if place < 1 || place > 64 {
        return Err(FaultKind::Domain);
    }
    truth((bits >> (64 - place)) % 2 == 1)
}
