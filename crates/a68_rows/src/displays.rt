//! Displays of rows, rows without elements, rowing and widening.
ghost use Rattle.std.specs.Prelude.{◌≡◌, ◌<◌, ◌^◌, ◌++◌, ◌∷◌, [], pos, reverse, IfOk, OnOk};
ghost use Rattle.std.specs.List.{list_all};
ghost use Rattle.a68_acts.specs.Rowing as rowing;
ghost use Rattle.a68_modes.specs.Nodes.{shape_at};
ghost use Rattle.a68_ops.specs.Yields.{is_row};
ghost use Rattle.a68_values.specs.Content.{plain};

use crate::naming::dims_in;
use a68_acts::Doing;
use a68_base::NoMemory;
use a68_modes::{ModeId, Modes};
use a68_ops::{OpStop, item_text};
use a68_steps::{no_elements, same_bounds};
use a68_values::{Bounds, FaultKind, Plain, Value, ValueNode, Values};
use std::alloc::Global;

// Bounds of 1 and so many in front of others.
fn bounds_behind(alloc: Global, count: usize, others: &[(i64, i64)]) -> Result<Bounds, NoMemory>
    requires { count < 2 ^ 63 }
    ensures { IfOk result (λ bounds. bounds ≡ (pos 1, pos count) ∷ others.now) }
{
    let mut items = Vec::with_capacity(alloc, 1)?;
    items.push((1, count as i64))?;
    items.extend_from_slice(others)?;
    Ok(Bounds::of(items))
}

// Is the value a row?
fn is_a_row(value: &Value) -> bool
    ensures { result ≡ is_row value.now }
{
    matches!(&value.node, ValueNode::Row { .. })
}

// Are all these values rows?
fn are_rows(values: &[Value]) -> bool
    ensures { result ≡ list_all is_row values.now }
{
    values.iter().all(|value| is_a_row(value))
}

// Is the value a row with these bounds?
fn has_bounds(bounds: &Bounds, value: &Value) -> bool
    ensures { result ≡ rowing.has_bounds bounds.now value.now }
{
    match &value.node {
        ValueNode::Row { bounds: others, .. } => same_bounds(bounds.as_slice(), others.as_slice()),
        _ => false,
    }
}

// Have all these rows the same bounds?
fn have_bounds(bounds: &Bounds, values: &[Value]) -> bool
    ensures { result ≡ list_all (rowing.has_bounds bounds.now) values.now }
{
    values.iter().all(|value| has_bounds(bounds, value))
}

// The elements of a row put behind others; a value that is no row has none.
fn add_parts(alloc: Global, value: Value, items: &mut Vec<Value>) -> Result<(), NoMemory>
    ensures { OnOk result (items.new.items ≡ items.old.items ++ rowing.joined (value ∷ [])) }
{
    match value.into_row() {
        Some((bounds, parts)) => {
            drop(bounds);
            let mut parts = parts.into_values(alloc)?;
            items.append(&mut parts.items)?;
            Ok(())
        }
        None => Ok(()),
    }
}

// The elements of all these rows, of which the first is last, put one behind the other where there are none.
fn add_all(alloc: Global, rows: &mut Vec<Value>, items: &mut Vec<Value>) -> Result<(), NoMemory>
    requires { items.old.items ≡ [] }
    ensures { OnOk result (items.new.items ≡ rowing.joined (reverse rows.old.items)) }
{
    while let Some(value) = rows.pop() {
        add_parts(alloc, value, items)?;
    }
    Ok(())
}

// The elements of all these rows, one behind the other.
fn joined(alloc: Global, rows: Values) -> Result<Values, NoMemory>
    ensures { IfOk result (λ parts. parts ≡ rowing.joined rows) }
{
    let mut rows = rows;
    let mut items = Vec::new(alloc);
    rows.items.reverse();
    add_all(alloc, &mut rows.items, &mut items)?;
    Ok(Values { items })
}

// The bounds of as many rows as these and one with these bounds, in front of those; or the fault that is met.
fn bounds_with(
    alloc: Global,
    bounds: &Bounds,
    others: &[Value],
) -> Result<Result<Bounds, FaultKind>, NoMemory>
    ensures { IfOk result (λ found. found ≡ rowing.bounds_with bounds.now others.now) }
{
    if !are_rows(others) {
        return Ok(Err(FaultKind::Kind));
    }
    if !have_bounds(bounds, others) {
        return Ok(Err(FaultKind::Bounds));
    }
    let bounds = bounds_behind(alloc, others.len() + 1, bounds.as_slice())?;
    Ok(Ok(bounds))
}

// The bounds of the first row, behind those of as many rows as there are; or the fault that rows with other bounds meet.
fn bounds_of_rows(alloc: Global, values: &[Value]) -> Result<Result<Bounds, FaultKind>, NoMemory>
    ensures { IfOk result (λ bounds. bounds ≡ rowing.bounds_of_rows values.now) }
{
    let Some((first, others)) = values.split_first() else {
        return Ok(Err(FaultKind::Kind));
    };
    match &first.node {
        ValueNode::Row { bounds, .. } => {
            let found = bounds_with(alloc, bounds, others)?;
            Ok(found)
        }
        _ => Ok(Err(FaultKind::Kind)),
    }
}

// A row of rows, whose dimensions stand behind its own.
fn displayed_rows(alloc: Global, values: Values) -> Result<Doing, NoMemory>
    ensures { IfOk result (λ doing. doing ≡ rowing.displayed_rows values) }
{
    match bounds_of_rows(alloc, &values.items)? {
        Ok(bounds) => {
            let parts = joined(alloc, values)?.shared()?;
            Ok(Doing::Yields(Value {
                node: ValueNode::Row { bounds, parts },
            }))
        }
        Err(kind) => {
            drop(values);
            Ok(Doing::Meets(kind))
        }
    }
}

// A row of one dimension of these values.
fn row_of(alloc: Global, parts: Values) -> Result<Doing, NoMemory>
    ensures { IfOk result (λ doing. doing ≡ rowing.row_of parts) }
{
    let bounds = bounds_behind(alloc, parts.items.len(), &[])?;
    let parts = parts.shared()?;
    Ok(Doing::Yields(Value {
        node: ValueNode::Row { bounds, parts },
    }))
}

/// A row, of this mode, of these values: of one dimension, or of rows with the same bounds, which are the other
/// dimensions.
pub fn displayed(
    alloc: Global,
    modes: &Modes,
    mode: ModeId,
    values: Values,
) -> Result<Doing, NoMemory>
    ensures { IfOk result (λ doing. doing ≡ rowing.displayed (shape_at modes.now mode) values) }
{
    match dims_in(modes, mode) {
        None => {
            drop(values);
            Ok(Doing::Meets(FaultKind::Kind))
        }
        Some(1) => {
            let doing = row_of(alloc, values)?;
            Ok(doing)
        }
        Some(_) => {
            let doing = displayed_rows(alloc, values)?;
            Ok(doing)
        }
    }
}

/// A row of this mode without elements.
pub fn vacuous(alloc: Global, modes: &Modes, mode: ModeId) -> Result<Doing, NoMemory>
    ensures { IfOk result (λ doing. doing ≡ rowing.vacuous (shape_at modes.now mode)) }
{
    let Some(dims) = dims_in(modes, mode) else {
        return Ok(Doing::Meets(FaultKind::Kind));
    };
    let value = no_elements(alloc, dims)?;
    Ok(Doing::Yields(value))
}

// A row with a dimension 1:1 more in front.
fn widened_row(alloc: Global, value: Value) -> Result<Doing, NoMemory>
    ensures { IfOk result (λ doing. doing ≡ rowing.widened_row value) }
{
    match value.into_row() {
        Some((bounds, parts)) => {
            let bounds = bounds.with_front(alloc, (1, 1))?;
            Ok(Doing::Yields(Value {
                node: ValueNode::Row { bounds, parts },
            }))
        }
        None => Ok(Doing::Meets(FaultKind::Kind)),
    }
}

// A row of this one value.
fn row_of_one(alloc: Global, value: Value) -> Result<Doing, NoMemory>
    ensures { IfOk result (λ doing. doing ≡ rowing.row_of (value ∷ [])) }
{
    let mut items = Vec::with_capacity(alloc, 1)?;
    items.push(value)?;
    let doing = row_of(alloc, Values { items })?;
    Ok(doing)
}

/// A value made a row, of this mode, of one element or of one more dimension.
pub fn rowed(alloc: Global, modes: &Modes, mode: ModeId, value: Value) -> Result<Doing, NoMemory>
    ensures { IfOk result (λ doing. doing ≡ rowing.rowed (shape_at modes.now mode) value) }
{
    match dims_in(modes, mode) {
        None => {
            drop(value);
            Ok(Doing::Meets(FaultKind::Kind))
        }
        Some(1) => {
            let doing = row_of_one(alloc, value)?;
            Ok(doing)
        }
        Some(_) => {
            let doing = widened_row(alloc, value)?;
            Ok(doing)
        }
    }
}

// Truth values, of which T is true.
fn truths(alloc: Global, letters: &[u8]) -> Result<Values, NoMemory>
    ensures { IfOk result (λ values. values ≡ rowing.truths letters.now) }
{
    let mut items = Vec::with_capacity(alloc, letters.len())?;
    for letter in letters {
        items.push(Value::of(Plain::Bool(*letter == 84)))?;
    }
    Ok(Values { items })
}

// The places of bits as a row of truth values.
fn widened_bits(alloc: Global, bits: u64) -> Result<Doing, NoMemory>
    ensures { IfOk result (λ doing. doing ≡ rowing.widened (plain (Plain.Bits bits))) }
{
    match item_text(alloc, &Value::of(Plain::Bits(bits))) {
        Ok(letters) => {
            let parts = truths(alloc, &letters.items)?.shared()?;
            let bounds = bounds_behind(alloc, 64, &[])?;
            Ok(Doing::Yields(Value {
                node: ValueNode::Row { bounds, parts },
            }))
        }
        Err(OpStop::Fault(kind)) => Ok(Doing::Meets(kind)),
        Err(OpStop::NoMemory) => Err(NoMemory),
    }
}

/// BITS made a row of BOOL.
pub fn widened(alloc: Global, value: &Value) -> Result<Doing, NoMemory>
    ensures { IfOk result (λ doing. doing ≡ rowing.widened value.now) }
{
    match &value.node {
        ValueNode::Plain(Plain::Unset) => Ok(Doing::Meets(FaultKind::Unset)),
        ValueNode::Plain(Plain::Bits(bits)) => {
            let doing = widened_bits(alloc, *bits)?;
            Ok(doing)
        }
        _ => Ok(Doing::Meets(FaultKind::Kind)),
    }
}
