//! What the operators that yield at once yield, by their rows in the table.
ghost use Rattle.std.specs.Prelude.{◌≡◌, Ok, IfSome};
ghost use Rattle.a68_ops.specs.Applied as spec;
ghost use Rattle.a68_ops.specs.Yields.{IsAsTold, is_row, yield_of};
ghost use Rattle.a68_values.specs.Content.{plain, void};
ghost use Rattle.a68_values.specs.declared.plain.Plain.{Plain};

use crate::OpStop;
use crate::bits::{on_bits, on_place, shifted};
use crate::integers::{difference, on_int, on_ints, on_truths, product, sum};
use crate::longs::{long_to_power, on_long, on_longs};
use crate::operator::{Dyadic, Monadic, dyadic_of, monadic_of, truth};
use crate::texts::{items_of, on_texts, text_times};
use crate::unset::{is_unset, is_unset_plain};
use a68_signs::operators;
use a68_values::{FaultKind, Plain, Value, ValueNode};
use std::alloc::Global;

// Applies an operator to two plain values, where it is none between texts.
#[inline(always)]
fn between_plain(operator: Dyadic, left: Plain, right: Plain) -> Option<Result<Plain, FaultKind>>
    ensures { result ≡ spec.between_plain operator left right }
{
    match (left, right) {
        (Plain::Int(left), Plain::Int(right)) => Some(on_ints(operator, left, right)),
        (Plain::Bool(left), Plain::Bool(right)) => Some(on_truths(operator, left, right)),
        (Plain::Bits(left), Plain::Bits(right)) => Some(on_bits(operator, left, right)),
        (Plain::Long(left), Plain::Long(right)) => Some(on_longs(operator, left, right)),
        (Plain::Long(value), Plain::Int(exponent)) => Some(long_to_power(
            operator, value, exponent,
        )),
        (Plain::Bits(bits), Plain::Int(places)) => Some(shifted(operator, bits, places)),
        (Plain::Int(place), Plain::Bits(bits)) => Some(on_place(operator, place, bits)),
        _ => None,
    }
}

// Makes a value of a plain one.
fn as_value(done: Result<Plain, FaultKind>) -> Result<Value, OpStop>
    ensures { IsAsTold is_row result (yield_of done) }
{
    match done {
        Ok(held) => Ok(Value::of(held)),
        Err(kind) => Err(OpStop::Fault(kind)),
    }
}

// Applies an operator to a text and an integer.
fn counted(alloc: Global, operator: Dyadic, text: &Value, count: i64) -> Result<Value, OpStop>
    ensures { IsAsTold is_row result (spec.counted operator text.now count) }
{
    match items_of(text) {
        Some(items) => text_times(alloc, operator, items, count),
        None => Err(OpStop::Fault(FaultKind::Kind)),
    }
}

// Applies an operator to two texts.
fn between_texts(
    alloc: Global,
    operator: Dyadic,
    left: &Value,
    right: &Value,
) -> Result<Value, OpStop>
    ensures { IsAsTold is_row result (spec.between_texts operator left.now right.now) }
{
    match (items_of(left), items_of(right)) {
        (Some(left), Some(right)) => on_texts(alloc, operator, left, right),
        _ => Err(OpStop::Fault(FaultKind::Kind)),
    }
}

// Reads an integer, where the value is one.
fn as_int(value: &Value) -> Option<i64>
    ensures { result ≡ spec.as_int value.now }
{
    match &value.node {
        ValueNode::Plain(Plain::Int(number)) => Some(*number),
        _ => None,
    }
}

// Applies an operator of which an operand is a text.
fn with_texts(alloc: Global, operator: Dyadic, left: &Value, right: &Value) -> Result<Value, OpStop>
    ensures { IsAsTold is_row result (spec.with_texts operator left.now right.now) }
{
    match as_int(left) {
        Some(count) => counted(alloc, operator, right, count),
        None => match as_int(right) {
            Some(count) => counted(alloc, operator, left, count),
            None => between_texts(alloc, operator, left, right),
        },
    }
}

// Applies an operator to two values, where they are plain and it is none between texts.
#[inline(always)]
fn plain_yield(operator: Dyadic, left: &Value, right: &Value) -> Option<Result<Plain, FaultKind>>
    ensures { result ≡ spec.plain_yield operator left.now right.now }
{
    match (&left.node, &right.node) {
        (ValueNode::Plain(left), ValueNode::Plain(right)) => between_plain(operator, *left, *right),
        _ => None,
    }
}

// Applies an operator to two values that are set.
fn dyadic(alloc: Global, operator: Dyadic, left: &Value, right: &Value) -> Result<Value, OpStop>
    ensures { IsAsTold is_row result (spec.dyadic_by operator left.now right.now) }
{
    match plain_yield(operator, left, right) {
        Some(done) => as_value(done),
        None => with_texts(alloc, operator, left, right),
    }
}

// Applies an operator to a plain value that is set.
fn before_plain(operator: Monadic, right: Plain) -> Result<Plain, FaultKind>
    ensures { result ≡ spec.monadic_by operator right }
{
    match (operator, right) {
        (_, Plain::Int(value)) => on_int(operator, value),
        (_, Plain::Long(value)) => on_long(operator, value),
        (Monadic::Not, Plain::Bool(holds)) => truth(!holds),
        (Monadic::Abs, Plain::Bool(holds)) => Ok(Plain::Int(i64::from(holds))),
        (Monadic::Not, Plain::Bits(bits)) => Ok(Plain::Bits(!bits)),
        (Monadic::Abs, Plain::Bits(bits)) => match i64::try_from(bits) {
            Ok(value) => Ok(Plain::Int(value)),
            Err(_) => Err(FaultKind::Overflow),
        },
        (Monadic::Abs, Plain::Char(code)) => Ok(Plain::Int(i64::from(code))),
        _ => Err(FaultKind::Kind),
    }
}

// Applies an operator to the value on its right; on its left there is none.
fn monadic(operator: Monadic, left: &Value, right: &Value) -> Result<Value, OpStop>
    ensures { IsAsTold is_row result (spec.monadic_on operator left.now right.now) }
{
    match (&left.node, &right.node) {
        (ValueNode::Void, ValueNode::Plain(held)) => as_value(before_plain(operator, *held)),
        _ => Err(OpStop::Fault(FaultKind::Kind)),
    }
}

/// Applies the operator of a row of the table to its operands (Report, 10.2.3). The rows are those that yield at once:
/// 7 to 23, 26 to 33, and 39 and 40. Before one operand `left` is Void.
///
/// The faults, in order: Unset where an operand or a part of one is unset; Kind for another row, and where the row does
/// not take such operands; then those of the row itself (own):
///
/// - Overflow where the result is no INT, or no LONG INT: `+ - * OVER **`, monadic `+ - ABS`, and SHORTEN;
/// - Divisor where the right operand of OVER or MOD is 0;
/// - Domain where the right operand of `**` is negative, the place of ELEM is not one of 1 to 64, the operand of REPR is
///   not one of 0 to 255, or that of BIN is negative;
/// - Cells where a text of more than 4,194,304 items comes of `+` or `*`.
///
/// Memory is taken for a text alone: NoMemory comes only where one would be the yield.
#[tactic(auto, unfolding(crate::specs::Applied::applied))]
pub fn apply(alloc: Global, row: u32, left: &Value, right: &Value) -> Result<Value, OpStop>
    ensures { IsAsTold is_row result (spec.applied row left.now right.now) }
{
    if is_unset(left) || is_unset(right) {
        return Err(OpStop::Fault(FaultKind::Unset));
    }
    if let Some(operator) = dyadic_of(row) {
        return dyadic(alloc, operator, left, right);
    }
    match monadic_of(row) {
        Some(operator) => monadic(operator, left, right),
        None => Err(OpStop::Fault(FaultKind::Kind)),
    }
}

/// Finds the value that an operator combined with assignation gives to its name (rows 1 to 6; Report, 10.2.3.11), of the
/// value that the name refers to and the other operand. Its faults are those of `apply` at the row of the operator that is
/// combined; Kind for another row.
#[tactic(auto, unfolding(crate::specs::Applied::updated))]
pub fn updated(alloc: Global, row: u32, old: &Value, operand: &Value) -> Result<Value, OpStop>
    ensures { IsAsTold is_row result (spec.updated row old.now operand.now) }
{
    if row == operators::PLUSTO {
        return apply(alloc, 15, operand, old);
    }
    if row > 0 && row < 6 {
        return apply(alloc, row + operators::PLUS_FROM_PLUSAB, old, operand);
    }
    Err(OpStop::Fault(FaultKind::Kind))
}

/// Applies the operator of a row between two plain values, as `apply` does, where they are two INT, two LONG INT, two BOOL,
/// two BITS, a LONG INT and an INT, or an INT and BITS, or one of them is unset, or the row is none between two operands. None where `apply` looks for texts.
/// It takes no memory.
#[inline(always)]
#[tactic(auto, unfolding(crate::specs::Applied::applied))]
pub fn apply_plain(row: u32, left: Plain, right: Plain) -> Option<Result<Plain, FaultKind>>
    ensures plain { result ≡ spec.applied_plain row left right }
    ensures same { IfSome result (λ done. yield_of done ≡ spec.applied row (plain left) (plain right)) }
{
    if is_unset_plain(left) || is_unset_plain(right) {
        return Some(Err(FaultKind::Unset));
    }
    match dyadic_of(row) {
        Some(operator) => between_plain(operator, left, right),
        None => Some(Err(FaultKind::Kind)),
    }
}

/// The INT that `+`, `-` or `*` yields between two INT, by its row; none for another row, and where the result is no
/// INT.
#[inline(always)]
#[tactic(auto, unfolding(crate::specs::Applied::applied))]
pub fn apply_to_ints(row: u32, left: i64, right: i64) -> Option<i64>
    ensures { IfSome result (λ number. spec.applied row (plain (Plain.Int left)) (plain (Plain.Int right)) ≡ Ok (plain (Plain.Int number))) }
{
    match row {
        operators::PLUS => sum(left, right),
        operators::MINUS => difference(left, right),
        operators::TIMES => product(left, right),
        _ => None,
    }
}

/// Applies the operator of a row before a plain value, as `apply` does with a left that is Void. It takes no memory.
#[tactic(auto, unfolding(crate::specs::Applied::applied))]
pub fn apply_monadic(row: u32, right: Plain) -> Result<Plain, FaultKind>
    ensures { yield_of result ≡ spec.applied row void (plain right) }
{
    if is_unset_plain(right) {
        return Err(FaultKind::Unset);
    }
    match monadic_of(row) {
        Some(operator) => before_plain(operator, right),
        None => Err(FaultKind::Kind),
    }
}
