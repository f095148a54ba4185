//! Operators on LONG INT (Report, 10.2.3.3).
ghost use Rattle.std.specs.Int.{int_pow};
ghost use Rattle.std.specs.Prelude.{◌≡◌, ℤ, pos, ◌+ℤ◌, ◌-ℤ◌, ◌*ℤ◌, int_div, unsigned_abs, ◌<◌};
ghost use Rattle.a68_ops.specs.Integers as integers;
ghost use Rattle.a68_ops.specs.Yields as yields;
ghost use Rattle.a68_ops.specs.declared.operator.Monadic.TheVariants as monadic;
ghost use Rattle.a68_values.specs.Longs.{number_of};

use crate::integers::int;
use crate::operator::{Dyadic, Monadic, compared, truth};
use a68_values::{FaultKind, Long, Plain};

// Takes a number as a LONG INT, which leaves out the least of the machine's numbers.
fn long(value: i128) -> Result<Plain, FaultKind>
    ensures { result ≡ yields.long value }
{
    if value == i128::MIN {
        return Err(FaultKind::Overflow);
    }
    Ok(Plain::Long(Long::of(value)))
}

// Adds.
fn sum(left: i128, right: i128) -> Result<Plain, FaultKind>
    ensures { result ≡ yields.long (left +ℤ right) }
{
    match left.checked_add(right) {
        Some(value) => long(value),
        None => Err(FaultKind::Overflow),
    }
}

// Subtracts.
fn difference(left: i128, right: i128) -> Result<Plain, FaultKind>
    ensures { result ≡ yields.long (left -ℤ right) }
{
    match left.checked_sub(right) {
        Some(value) => long(value),
        None => Err(FaultKind::Overflow),
    }
}

// Multiplies.
fn product(left: i128, right: i128) -> Result<Plain, FaultKind>
    ensures { result ≡ yields.long (left *ℤ right) }
{
    match left.checked_mul(right) {
        Some(value) => long(value),
        None => Err(FaultKind::Overflow),
    }
}

// Divides, and cuts the quotient towards 0.
fn quotient(left: i128, right: i128) -> Result<Plain, FaultKind>
    ensures { result ≡ integers.divided yields.long right (int_div left right) }
{
    if right == 0 {
        return Err(FaultKind::Divisor);
    }
    match left.checked_div(right) {
        Some(value) => long(value),
        None => Err(FaultKind::Overflow),
    }
}

// Adds the size of the divisor to a rest that is negative.
fn lifted(rest: i128, divisor: i128) -> i128
    requires { unsigned_abs rest < unsigned_abs divisor }
    ensures { result ≡ integers.lifted rest divisor }
{
    if rest >= 0 {
        return rest;
    }
    if divisor < 0 {
        rest - divisor
    } else {
        rest + divisor
    }
}

// Takes the rest of a division that is not negative.
fn modulo(left: i128, right: i128) -> Result<Plain, FaultKind>
    ensures { result ≡ integers.divided yields.long right (integers.modulo left right) }
{
    if right == 0 {
        return Err(FaultKind::Divisor);
    }
    if right == -1 {
        return long(0);
    }
    long(lifted(left % right, right))
}

// Finds an exponent of at most 129 that gives each number the same power as far as it is a LONG INT: from 128 on only the
// numbers from -1 to 1 have powers that are, and there it matters whether the exponent is odd.
fn small_exponent(exponent: u64) -> u32
    ensures { (a : ℤ) → yields.long (int_pow a result) ≡ yields.long (int_pow a exponent) }
{
    if exponent > 128 {
        128 + (exponent % 2) as u32
    } else {
        exponent as u32
    }
}

// Raises a number to a power.
fn raised(value: i128, exponent: u32) -> Result<Plain, FaultKind>
    ensures { result ≡ yields.long (int_pow value exponent) }
{
    match value.checked_pow(exponent) {
        Some(value) => long(value),
        None => Err(FaultKind::Overflow),
    }
}

// Raises to a power; a negative exponent is outside what the operator takes.
fn power(left: i128, right: i64) -> Result<Plain, FaultKind>
    ensures { result ≡ integers.raised yields.long left right }
{
    if right < 0 {
        return Err(FaultKind::Domain);
    }
    raised(left, small_exponent(right as u64))
}

fn on_numbers(operator: Dyadic, left: i128, right: i128) -> Result<Plain, FaultKind>
    ensures { result ≡ integers.on_numbers yields.long operator left right }
{
    match operator {
        Dyadic::Plus => sum(left, right),
        Dyadic::Minus => difference(left, right),
        Dyadic::Times => product(left, right),
        Dyadic::Over => quotient(left, right),
        Dyadic::Mod => modulo(left, right),
        _ => compared(operator, left < right, left == right),
    }
}

/// Applies an operator to two values of LONG INT. It stays a call, so that what is done with INT alone is short.
#[inline(never)]
pub fn on_longs(operator: Dyadic, left: Long, right: Long) -> Result<Plain, FaultKind>
    ensures { result ≡ integers.on_numbers yields.long operator (number_of left) (number_of right) }
{
    on_numbers(operator, left.number(), right.number())
}

/// Raises a LONG INT to a power that is an INT; no other operator takes such operands.
#[inline(never)]
pub fn long_to_power(operator: Dyadic, left: Long, right: i64) -> Result<Plain, FaultKind>
    ensures { result ≡ integers.to_power yields.long operator (number_of left) right }
{
    match operator {
        Dyadic::Power => power(left.number(), right),
        _ => Err(FaultKind::Kind),
    }
}

// Changes the sign.
fn negative(value: i128) -> Result<Plain, FaultKind>
    ensures { result ≡ integers.on_long monadic.Minus value }
{
    match value.checked_neg() {
        Some(value) => long(value),
        None => Err(FaultKind::Overflow),
    }
}

// Leaves out the sign.
fn size(value: i128) -> Result<Plain, FaultKind>
    ensures { result ≡ integers.on_long monadic.Abs value }
{
    match value.checked_abs() {
        Some(value) => long(value),
        None => Err(FaultKind::Overflow),
    }
}

// Takes a number as an INT, where it is one.
fn shortened(value: i128) -> Result<Plain, FaultKind>
    ensures { result ≡ yields.int value }
{
    match i64::try_from(value) {
        Ok(value) => int(value),
        Err(_) => Err(FaultKind::Overflow),
    }
}

fn before_number(operator: Monadic, value: i128) -> Result<Plain, FaultKind>
    ensures { result ≡ integers.on_long operator value }
{
    match operator {
        Monadic::Plus => long(value),
        Monadic::Minus => negative(value),
        Monadic::Abs => size(value),
        Monadic::Sign => int(value.signum() as i64),
        Monadic::Odd => truth(value % 2 != 0),
        Monadic::Shorten => shortened(value),
        Monadic::Not | Monadic::Repr | Monadic::Bin | Monadic::Leng => Err(FaultKind::Kind),
    }
}

/// Applies an operator to a LONG INT.
#[inline(never)]
pub fn on_long(operator: Monadic, value: Long) -> Result<Plain, FaultKind>
    ensures { result ≡ integers.on_long operator (number_of value) }
{
    before_number(operator, value.number())
}
