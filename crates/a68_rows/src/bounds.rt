//! The bounds of rows.
ghost use Rattle.std.specs.Prelude.{◌≡◌, slice_get, IfOk};
ghost use Rattle.std.specs.Option.{option_and_then};
ghost use Rattle.a68_acts.specs.Rowing as rowing;
ghost use Rattle.a68_layout.specs.Views as views;

use a68_acts::{Doing, Next, Want};
use a68_base::NoMemory;
use a68_ops::is_unset;
use a68_steps::bounds_of;
use a68_values::{Dim, FaultKind, Plain, Value, ValueNode};
use std::alloc::Global;

// The place of a dimension that is counted from 1.
fn place_of(dimension: i64) -> Option<usize>
    ensures { result ≡ rowing.place_of dimension }
{
    match usize::try_from(dimension) {
        Ok(number) if 1 <= number => Some(number - 1),
        _ => None,
    }
}

// The bounds of that dimension.
fn bounds_at(bounds: &[(i64, i64)], dimension: i64) -> Option<(i64, i64)>
    ensures { result ≡ option_and_then (slice_get bounds.now) (rowing.place_of dimension) }
{
    let place = place_of(dimension)?;
    bounds.get(place).copied()
}

// A bound of a row, in a dimension that is counted from 1.
fn bound_in(upper: bool, bounds: &[(i64, i64)], dimension: i64) -> Doing
    ensures { result ≡ rowing.yielding (rowing.bound_of upper bounds.now dimension) }
{
    match bounds_at(bounds, dimension) {
        Some(bound) => Doing::Yields(Value::of(Plain::Int(if upper { bound.1 } else { bound.0 }))),
        None => Doing::Meets(FaultKind::Bounds),
    }
}

/// A bound of a row in the store, in a dimension that is counted from 1.
pub fn bound_of(alloc: Global, upper: bool, dims: &[Dim], dimension: i64) -> Result<Doing, NoMemory>
    ensures { IfOk result (λ doing. doing ≡ rowing.yielding (rowing.bound_of upper (views.bounds_of dims.now) dimension)) }
{
    let bounds = bounds_of(alloc, dims)?;
    let doing = bound_in(upper, bounds.as_slice(), dimension);
    Ok(doing)
}

/// A bound of a row or of the one to which a name refers, in a dimension that is counted from 1.
pub fn bounded(upper: bool, dimension: i64, value: &Value) -> Doing
    ensures { result ≡ rowing.bounded upper dimension value.now }
{
    match &value.node {
        ValueNode::Plain(Plain::Nil) => Doing::Meets(FaultKind::Nil),
        ValueNode::Plain(Plain::Name(name)) => Doing::Asks(
            Want::Fetch { cell: name.cell },
            Next::Bound { upper, dimension },
        ),
        ValueNode::Row { bounds, .. } if !is_unset(value) => {
            bound_in(upper, bounds.as_slice(), dimension)
        }
        _ if is_unset(value) => Doing::Meets(FaultKind::Unset),
        _ => Doing::Meets(FaultKind::Kind),
    }
}

/// The same where a value tells the dimension.
pub fn bounded_by(upper: bool, dimension: &Value, value: &Value) -> Doing
    ensures { result ≡ rowing.bounded_by upper dimension.now value.now }
{
    match &dimension.node {
        ValueNode::Plain(Plain::Int(dimension)) => bounded(upper, *dimension, value),
        _ if is_unset(dimension) || is_unset(value) => Doing::Meets(FaultKind::Unset),
        _ => Doing::Meets(FaultKind::Kind),
    }
}
