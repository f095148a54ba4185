//! Operators on texts, which are CHAR or rows of CHAR (Report, 10.2.3.6 and 10.2.3.10).
ghost use Rattle.std.specs.Prelude.{◌≡◌, ℕ, List, ◌+◌, ◌*◌, ◌≤◌, ◌++◌, None, Some, pos, map, length, MatchOption, OnOk, IfOk};
ghost use Rattle.std.specs.Option.{is_some};
ghost use Rattle.a68_ops.specs.Texts as texts;
ghost use Rattle.a68_ops.specs.Texts.{code_of};
ghost use Rattle.a68_ops.specs.Yields as yields;
ghost use Rattle.a68_ops.specs.Yields.{IsAsTold, is_row};
ghost use Rattle.a68_values.specs.Content.{contents_of};

use crate::OpStop;
use crate::operator::{Dyadic, compared};
use a68_base::NoMemory;
use a68_values::{Bounds, FaultKind, Plain, Value, ValueNode, Values};
use std::alloc::Global;
use std::cmp::Ordering;

/// As many parts as a row may have that an operator yields.
const MOST_PARTS: usize = 4_194_304;

/// Gives the code of a CHAR, and 0 of another value.
pub fn code(value: &Value) -> u8
    ensures { result ≡ code_of value.now }
{
    match &value.node {
        ValueNode::Plain(Plain::Char(code)) => *code,
        _ => 0,
    }
}

// Tells whether all these values are CHAR.
fn are_chars(items: &[Value]) -> bool
    ensures { result ≡ texts.are_chars (contents_of items.now) }
{
    for item in items {
        if !matches!(&item.node, ValueNode::Plain(Plain::Char(_))) {
            return false;
        }
    }
    true
}

/// Finds the items of a text, which are all CHAR: the value itself where it is a CHAR, the elements of a row of CHAR of
/// one dimension. None of another value.
pub fn items_of(value: &Value) -> Option<&[Value]>
    ensures { MatchOption result (texts.text_of value.now ≡ None) (λ items. texts.text_of value.now ≡ Some (map code_of items.now)) }
{
    match &value.node {
        ValueNode::Plain(Plain::Char(_)) => Some(std::slice::from_ref(value)),
        ValueNode::Row { bounds, parts }
            if bounds.as_slice().len() == 1 && are_chars(parts.as_slice()) => {
            Some(parts.as_slice())
        }
        _ => None,
    }
}

/// Tells whether a value is a text: a CHAR, or a row of CHAR of one dimension.
pub fn is_text(value: &Value) -> bool
    ensures { result ≡ is_some (texts.text_of value.now) }
{
    match items_of(value) {
        Some(_) => true,
        None => false,
    }
}

// Tells how two texts are ordered.
fn order(left: &[Value], right: &[Value]) -> Ordering
    ensures { result ≡ texts.order_of (map code_of left.now) (map code_of right.now) }
{
    let shorter = left.len().min(right.len());
    for i in 0..shorter {
        let (one, other) = (code(&left[i]), code(&right[i]));
        if one != other {
            return one.cmp(&other);
        }
    }
    left.len().cmp(&right.len())
}

// Adds the items of a text behind others.
fn add(items: &mut Vec<Value>, more: &[Value]) -> Result<(), NoMemory>
    ensures { OnOk result (items.new.items ≡ items.old.items ++ yields.char_values (map code_of more.now)) }
{
    for item in more {
        items.push(Value::of(Plain::Char(code(item))))?;
    }
    Ok(())
}

// Makes a row with bounds from 1 of these items.
fn row_of(alloc: Global, items: Vec<Value>) -> Result<Value, NoMemory>
    requires { length items.items ≤ MOST_PARTS }
    ensures { IfOk result (λ value. value ≡ yields.row_from_1 items.items) }
{
    let upper = items.len() as i64;
    row_to(alloc, upper, items)
}

// Makes CHAR values of bytes.
fn chars(alloc: Global, bytes: &[u8]) -> Result<Vec<Value>, NoMemory>
    ensures { IfOk result (λ items. items.items ≡ yields.char_values bytes.now) }
{
    let mut items = Vec::with_capacity(alloc, bytes.len())?;
    for byte in bytes {
        items.push(Value::of(Plain::Char(*byte)))?;
    }
    Ok(items)
}

// Makes a row of these items, with bounds from 1 to this one.
fn row_to(alloc: Global, upper: i64, items: Vec<Value>) -> Result<Value, NoMemory>
    requires { upper ≡ pos (length items.items) }
    ensures { IfOk result (λ value. value ≡ yields.row_from_1 items.items) }
{
    match vec![in alloc; (1, upper)] {
        Ok(bounds) => {
            let parts = Values { items }.shared()?;
            Ok(Value {
                node: ValueNode::Row {
                    bounds: Bounds::of(bounds),
                    parts,
                },
            })
        }
        Err(_) => {
            drop(items);
            Err(NoMemory)
        }
    }
}

/// Makes a row of CHAR of these bytes, with bounds from 1. For more of them than a bound can tell there is no memory.
pub fn text_value(alloc: Global, bytes: &[u8]) -> Result<Value, NoMemory>
    ensures { IfOk result (λ value. value ≡ yields.text_row bytes.now) }
{
    let Ok(upper) = i64::try_from(bytes.len()) else {
        return Err(NoMemory);
    };
    let items = chars(alloc, bytes)?;
    row_to(alloc, upper, items)
}

// Makes a text of one behind another.
fn joined(alloc: Global, left: &[Value], right: &[Value]) -> Result<Value, OpStop>
    ensures { IsAsTold is_row result (yields.text (map code_of left.now ++ map code_of right.now)) }
{
    let length = left.len().saturating_add(right.len());
    if length > MOST_PARTS {
        return Err(OpStop::Fault(FaultKind::Cells));
    }
    let value = row_of_two(alloc, left, right)?;
    Ok(value)
}

// Makes a row of the items of two texts.
fn row_of_two(alloc: Global, left: &[Value], right: &[Value]) -> Result<Value, NoMemory>
    requires { length left.now + length right.now ≤ MOST_PARTS }
    ensures { IfOk result (λ value. value ≡ yields.text_row (map code_of left.now ++ map code_of right.now)) }
{
    let mut items = Vec::with_capacity(alloc, left.len() + right.len())?;
    match add_two(&mut items, left, right) {
        Ok(()) => row_of(alloc, items),
        Err(error) => {
            drop(items);
            Err(error)
        }
    }
}

// Adds the items of two texts behind others.
fn add_two(items: &mut Vec<Value>, left: &[Value], right: &[Value]) -> Result<(), NoMemory>
    ensures { OnOk result (items.new.items ≡ items.old.items ++ yields.char_values (map code_of left.now ++ map code_of right.now)) }
{
    add(items, left)?;
    add(items, right)
}

// Adds the items of a text so many times behind others.
fn add_times(items: &mut Vec<Value>, more: &[Value], count: usize) -> Result<(), NoMemory>
    ensures { OnOk result (items.new.items ≡ items.old.items ++ yields.char_values (texts.times count (map code_of more.now))) }
{
    for _turn in 0..count {
        add(items, more)?;
    }
    Ok(())
}

// Makes a row of the items of a text so many times.
fn row_of_times(alloc: Global, chars: &[Value], count: usize) -> Result<Value, NoMemory>
    requires { count * length chars.now ≤ MOST_PARTS }
    ensures { IfOk result (λ value. value ≡ yields.text_row (texts.times count (map code_of chars.now))) }
{
    let mut items = Vec::with_capacity(alloc, count * chars.len())?;
    match add_times(&mut items, chars, count) {
        Ok(()) => row_of(alloc, items),
        Err(error) => {
            drop(items);
            Err(error)
        }
    }
}

// Finds how many times a text of so many items is to be taken: an empty one never.
#[tactic(auto, using(crate::proofs::Chars::nothing_repeated))]
fn turns(size: usize, count: i64) -> usize
    ensures { (items : List ℕ) → length items ≡ size → texts.repeated items count ≡ yields.text (texts.times result items) }
{
    if size == 0 {
        return 0;
    }
    if count < 0 { 0 } else { count as usize }
}

// Makes a text of one so many times; a number below 1 gives the empty text.
fn repeated(alloc: Global, chars: &[Value], count: i64) -> Result<Value, OpStop>
    ensures { IsAsTold is_row result (texts.repeated (map code_of chars.now) count) }
{
    let count = turns(chars.len(), count);
    if count.saturating_mul(chars.len()) > MOST_PARTS {
        return Err(OpStop::Fault(FaultKind::Cells));
    }
    match row_of_times(alloc, chars, count) {
        Ok(value) => Ok(value),
        Err(NoMemory) => Err(OpStop::NoMemory),
    }
}

/// Applies an operator to two texts.
pub fn on_texts(
    alloc: Global,
    operator: Dyadic,
    left: &[Value],
    right: &[Value],
) -> Result<Value, OpStop>
    ensures { IsAsTold is_row result (texts.on_texts operator (map code_of left.now) (map code_of right.now)) }
{
    if operator == Dyadic::Plus {
        return joined(alloc, left, right);
    }
    let order = order(left, right);
    match compared(operator, order.is_lt(), order.is_eq()) {
        Ok(held) => Ok(Value::of(held)),
        Err(kind) => Err(OpStop::Fault(kind)),
    }
}

/// Applies an operator to a text and an integer.
pub fn text_times(
    alloc: Global,
    operator: Dyadic,
    chars: &[Value],
    count: i64,
) -> Result<Value, OpStop>
    ensures { IsAsTold is_row result (texts.text_times operator (map code_of chars.now) count) }
{
    if operator != Dyadic::Times {
        return Err(OpStop::Fault(FaultKind::Kind));
    }
    repeated(alloc, chars, count)
}
