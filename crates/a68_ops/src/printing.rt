//! How values are written.
ghost use Rattle.std.specs.Prelude.{◌≡◌, ◌<◌, ◌++◌, true, map, IfOk};
ghost use Rattle.a68_ops.specs.Printed as spec;
ghost use Rattle.a68_ops.specs.Texts.{code_of};
ghost use Rattle.a68_ops.specs.Yields.{IsAsTold};

use crate::OpStop;
use crate::texts::{code, items_of};
use crate::unset::is_unset;
use a68_base::{NoMemory, Text};
use a68_values::{FaultKind, Layout, Plain, Value, ValueNode};
use itoa::Buffer;
use std::alloc::Global;

/// As many places as may be asked for.
const MOST_PLACES: u64 = 65_536;

/// In so many places `print` writes an INT.
const INT_PLACES: i64 = 20;

/// In so many places `print` writes a LONG INT.
const LONG_PLACES: i64 = 40;

// Writes a sign and digits at the right of so many places, or as briefly as it can where these are 0.
fn set_right(alloc: Global, places: usize, sign: &[u8], digits: &[u8]) -> Result<Text, NoMemory>
    ensures { IfOk result (λ text. text ≡ spec.set_right places (sign.now ++ digits.now)) }
{
    let size = sign.len().saturating_add(digits.len());
    if size > places && places > 0 {
        let items = vec![in alloc; b'*'; places]?;
        return Ok(Text { items });
    }
    let mut items = vec![in alloc; b' '; places.saturating_sub(size)]?;
    items.extend_from_slice(sign)?;
    items.extend_from_slice(digits)?;
    Ok(Text { items })
}

// Finds the sign that stands before the digits of a number.
fn sign_text(value: i128, width: i64) -> &'static str
    ensures { result.now ≡ spec.sign_text value width }
{
    if value < 0 {
        "-"
    } else if width > 0 {
        "+"
    } else {
        ""
    }
}

// Writes an integer.
#[tactic(auto, unfolding(crate::specs::Printed::whole_text))]
fn whole_text(alloc: Global, value: i128, width: i64) -> Result<Text, NoMemory>
    ensures { IfOk result (λ text. text ≡ spec.whole_text value width) }
{
    let mut buffer = Buffer::new();
    let digits = buffer.format(value.unsigned_abs());
    let sign = sign_text(value, width);
    let places = width.unsigned_abs() as usize;
    set_right(alloc, places, sign.as_bytes(), digits.as_bytes())
}

/// Writes an INT or a LONG INT as `whole (value, width)` does (Report, 10.3.2.1).
///
/// Its size stands right in as many places as the width says without its sign, and as briefly as it can for 0. Where the
/// width is positive the sign stands before the digits, and else only a minus does. A text that does not fit gives
/// asterisks in all places. Domain where the width is above 65,536 or below -65,536 (own).
#[tactic(auto, unfolding(crate::specs::Printed::whole))]
pub fn whole(alloc: Global, value: i128, width: i64) -> Result<Text, OpStop>
    ensures { IsAsTold (λ text. true) result (spec.whole value width) }
{
    if width.unsigned_abs() > MOST_PLACES {
        return Err(OpStop::Fault(FaultKind::Domain));
    }
    let text = whole_text(alloc, value, width)?;
    Ok(text)
}

// Writes a place of BITS; places count from 0, from the left.
fn place_text(bits: u64, place: u32) -> u8
    requires { place < 64 }
    ensures { result ≡ spec.place_text bits place }
{
    if (bits >> (63 - place)) % 2 == 1 {
        b'T'
    } else {
        b'F'
    }
}

// Writes the 64 places of BITS.
#[tactic(auto, unfolding(crate::specs::Printed::places))]
fn places(alloc: Global, bits: u64) -> Result<Text, NoMemory>
    ensures { IfOk result (λ text. text ≡ spec.places bits) }
{
    let mut items = Vec::with_capacity(alloc, 64)?;
    for place in 0..64u32 {
        items.push(place_text(bits, place))?;
    }
    Ok(Text { items })
}

// Writes the codes of the items of a text.
fn bytes(alloc: Global, chars: &[Value]) -> Result<Text, NoMemory>
    ensures { IfOk result (λ text. text ≡ map code_of chars.now) }
{
    let mut items = Vec::with_capacity(alloc, chars.len())?;
    for item in chars {
        items.push(code(item))?;
    }
    Ok(Text { items })
}

// Writes a value as it is printed.
fn written(alloc: Global, value: &Value) -> Result<Text, OpStop>
    ensures { IsAsTold (λ text. true) result (spec.written value.now) }
{
    let text = match &value.node {
        ValueNode::Plain(Plain::Int(number)) => whole_text(alloc, i128::from(*number), INT_PLACES)?,
        ValueNode::Plain(Plain::Long(number)) => whole_text(alloc, number.number(), LONG_PLACES)?,
        ValueNode::Plain(Plain::Bool(true)) => Text::from_slice(alloc, b"T")?,
        ValueNode::Plain(Plain::Bool(false)) => Text::from_slice(alloc, b"F")?,
        ValueNode::Plain(Plain::Bits(bits)) => places(alloc, *bits)?,
        ValueNode::Layout(Layout::Newline) => Text::from_slice(alloc, b"\n")?,
        ValueNode::Layout(Layout::Space) => Text::from_slice(alloc, b" ")?,
        _ => match items_of(value) {
            Some(items) => bytes(alloc, items)?,
            None => return Err(OpStop::Fault(FaultKind::Kind)),
        },
    };
    Ok(text)
}

/// Writes an item as `print` prints it (own; Report, 10.3.3.1).
///
/// An INT is written as `whole (v, 20)`, a LONG INT as `whole (v, 40)`, BOOL as `T` or `F`, BITS as its 64 places from the left with `T` and `F`, a CHAR
/// and a row of CHAR of one dimension as their bytes, `newline` as a line feed and `space` as a blank. The item may be
/// united to a union. Unset where it is unset or has a part that is, and Kind where it is another value.
#[tactic(auto, unfolding(crate::specs::Printed::item_text))]
pub fn item_text(alloc: Global, item: &Value) -> Result<Text, OpStop>
    ensures { IsAsTold (λ text. true) result (spec.item_text item.now) }
{
    if is_unset(item) {
        return Err(OpStop::Fault(FaultKind::Unset));
    }
    match &item.node {
        ValueNode::United { value, .. } => written(alloc, value),
        _ => written(alloc, item),
    }
}
