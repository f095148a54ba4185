//! Operators on integers, and those on truth values (Report, 10.2.3.2, 10.2.3.3).
ghost use Rattle.std.specs.Int.{int_pow};
ghost use Rattle.std.specs.Prelude.{◌≡◌, ℤ, pos, ◌+ℤ◌, ◌-ℤ◌, ◌*ℤ◌, int_div, unsigned_abs, ◌<◌};
ghost use Rattle.a68_ops.specs.Booleans as booleans;
ghost use Rattle.a68_ops.specs.Integers as integers;
ghost use Rattle.a68_ops.specs.Yields as yields;
ghost use Rattle.a68_ops.specs.declared.operator.Monadic.TheVariants as monadic;

use crate::operator::{Dyadic, Monadic, compared, truth};
use a68_values::{FaultKind, Long, Plain};

/// Takes a number as an INT, which leaves out the least of the machine's numbers.
#[inline(always)]
pub fn int(value: i64) -> Result<Plain, FaultKind>
    ensures { result ≡ yields.int value }
{
    if value == i64::MIN {
        return Err(FaultKind::Overflow);
    }
    Ok(Plain::Int(value))
}

// Finds out whether a number is an INT; none where it is not.
#[inline(always)]
fn in_range(value: i64) -> Option<i64>
    ensures { yields.int_or_overflow result ≡ yields.int value }
{
    if value == i64::MIN {
        return None;
    }
    Some(value)
}

// Takes an INT as a value. Where there is none, the number was too large.
#[inline(always)]
fn int_or_overflow(number: Option<i64>) -> Result<Plain, FaultKind>
    ensures { result ≡ yields.int_or_overflow number }
{
    match number {
        Some(number) => Ok(Plain::Int(number)),
        None => Err(FaultKind::Overflow),
    }
}

/// Adds; none where the sum is no INT.
#[inline(always)]
pub fn sum(left: i64, right: i64) -> Option<i64>
    ensures { yields.int_or_overflow result ≡ yields.int (left +ℤ right) }
{
    match left.checked_add(right) {
        Some(value) => in_range(value),
        None => None,
    }
}

/// Subtracts; none where the difference is no INT.
#[inline(always)]
pub fn difference(left: i64, right: i64) -> Option<i64>
    ensures { yields.int_or_overflow result ≡ yields.int (left -ℤ right) }
{
    match left.checked_sub(right) {
        Some(value) => in_range(value),
        None => None,
    }
}

/// Multiplies; none where the product is no INT.
#[inline(always)]
pub fn product(left: i64, right: i64) -> Option<i64>
    ensures { yields.int_or_overflow result ≡ yields.int (left *ℤ right) }
{
    match left.checked_mul(right) {
        Some(value) => in_range(value),
        None => None,
    }
}

// Divides, and cuts the quotient towards 0.
#[inline(always)]
fn quotient(left: i64, right: i64) -> Result<Plain, FaultKind>
    ensures { result ≡ integers.divided yields.int right (int_div left right) }
{
    if right == 0 {
        return Err(FaultKind::Divisor);
    }
    match left.checked_div(right) {
        Some(value) => int(value),
        None => Err(FaultKind::Overflow),
    }
}

// Adds the size of the divisor to a rest that is negative.
#[inline(always)]
fn lifted(rest: i64, divisor: i64) -> i64
    requires { unsigned_abs rest < unsigned_abs divisor }
    ensures { result ≡ integers.lifted rest divisor }
{
    if rest >= 0 {
        return rest;
    }
    if divisor < 0 {
        rest - divisor
    } else {
        rest + divisor
    }
}

// Takes the rest of a division that is not negative.
#[inline(always)]
fn modulo(left: i64, right: i64) -> Result<Plain, FaultKind>
    ensures { result ≡ integers.divided yields.int right (integers.modulo left right) }
{
    if right == 0 {
        return Err(FaultKind::Divisor);
    }
    if right == -1 {
        return int(0);
    }
    int(lifted(left % right, right))
}

// Finds an exponent of at most 65 that gives each number the same power as far as it is an INT: from 64 on only the
// numbers from -1 to 1 have powers that are, and there it matters whether the exponent is odd.
fn small_exponent(exponent: u64) -> u32
    ensures { (a : ℤ) → yields.int (int_pow a result) ≡ yields.int (int_pow a exponent) }
{
    if exponent > 64 {
        64 + (exponent % 2) as u32
    } else {
        exponent as u32
    }
}

// Raises a number to a power.
fn raised(value: i64, exponent: u32) -> Result<Plain, FaultKind>
    ensures { result ≡ yields.int (int_pow value exponent) }
{
    match value.checked_pow(exponent) {
        Some(value) => int(value),
        None => Err(FaultKind::Overflow),
    }
}

// Raises to a power; a negative exponent is outside what the operator takes.
fn power(left: i64, right: i64) -> Result<Plain, FaultKind>
    ensures { result ≡ integers.raised yields.int left right }
{
    if right < 0 {
        return Err(FaultKind::Domain);
    }
    raised(left, small_exponent(right as u64))
}

/// Applies an operator to two integers.
#[inline(always)]
pub fn on_ints(operator: Dyadic, left: i64, right: i64) -> Result<Plain, FaultKind>
    ensures { result ≡ integers.on_ints operator left right }
{
    match operator {
        Dyadic::Plus => int_or_overflow(sum(left, right)),
        Dyadic::Minus => int_or_overflow(difference(left, right)),
        Dyadic::Times => int_or_overflow(product(left, right)),
        Dyadic::Over => quotient(left, right),
        Dyadic::Mod => modulo(left, right),
        Dyadic::Power => power(left, right),
        _ => compared(operator, left < right, left == right),
    }
}

/// Applies an operator to two truth values.
#[inline(always)]
pub fn on_truths(operator: Dyadic, left: bool, right: bool) -> Result<Plain, FaultKind>
    ensures { result ≡ booleans.on_truths operator left right }
{
    match operator {
        Dyadic::Or => truth(left || right),
        Dyadic::And => truth(left && right),
        Dyadic::Equal => truth(left == right),
        Dyadic::NotEqual => truth(left != right),
        _ => Err(FaultKind::Kind),
    }
}

// Changes the sign.
fn negative(value: i64) -> Result<Plain, FaultKind>
    ensures { result ≡ integers.on_int monadic.Minus value }
{
    match value.checked_neg() {
        Some(value) => int(value),
        None => Err(FaultKind::Overflow),
    }
}

// Leaves out the sign.
fn size(value: i64) -> Result<Plain, FaultKind>
    ensures { result ≡ integers.on_int monadic.Abs value }
{
    match value.checked_abs() {
        Some(value) => int(value),
        None => Err(FaultKind::Overflow),
    }
}

// Finds the character with this code.
fn character(code: i64) -> Result<Plain, FaultKind>
    ensures { result ≡ integers.char_of code }
{
    if code < 0 || code > 255 {
        return Err(FaultKind::Domain);
    }
    Ok(Plain::Char(code as u8))
}

// Turns a number that is not negative into bits.
fn bits(value: i64) -> Result<Plain, FaultKind>
    ensures { result ≡ integers.bits_of value }
{
    if value < 0 {
        return Err(FaultKind::Domain);
    }
    Ok(Plain::Bits(value as u64))
}

/// Applies an operator to an integer.
pub fn on_int(operator: Monadic, value: i64) -> Result<Plain, FaultKind>
    ensures { result ≡ integers.on_int operator value }
{
    match operator {
        Monadic::Plus => int(value),
        Monadic::Minus => negative(value),
        Monadic::Abs => size(value),
        Monadic::Sign => int(value.signum()),
        Monadic::Odd => truth(value % 2 != 0),
        Monadic::Repr => character(value),
        Monadic::Bin => bits(value),
        Monadic::Leng => Ok(Plain::Long(Long::of(i128::from(value)))),
        Monadic::Not | Monadic::Shorten => Err(FaultKind::Kind),
    }
}
