//! The integers that values are.
ghost use Rattle.std.specs.Prelude.{◌≡◌, ◌≤◌, map, length, Ok, Err, IsOk, IfOk, IsErrOf};
ghost use Rattle.std.specs.List.{list_all, list_any};
ghost use Rattle.a68_acts.specs.Rowing as rowing;
ghost use Rattle.a68_ops.specs.Yields as yields;
ghost use Rattle.a68_values.specs.declared.act.FaultKind.{FaultKind};

use a68_base::NoMemory;
use a68_ops::{OpStop, is_unset};
use a68_values::{FaultKind, Plain, Value, ValueNode};
use smallvec::SmallVec;
use std::alloc::Global;

/// Integers. Most rows have no more than two dimensions, so that their subscripts and their bounds take no memory.
pub type Ints = SmallVec<i64, 4>;

// Is one of these values unset?
fn some_unset(values: &[Value]) -> bool
    ensures { result ≡ list_any yields.is_unset values.now }
{
    values.iter().any(|value| is_unset(value))
}

fn is_integer(value: &Value) -> bool
    ensures { result ≡ rowing.is_integer value.now }
{
    matches!(&value.node, ValueNode::Plain(Plain::Int(_)))
}

// Are all these values integers?
fn are_integers(values: &[Value]) -> bool
    ensures { result ≡ list_all rowing.is_integer values.now }
{
    values.iter().all(|value| is_integer(value))
}

// The integer that a value is, and 0 where it is none.
fn integer(value: &Value) -> i64
    ensures { result ≡ rowing.integer value.now }
{
    match &value.node {
        ValueNode::Plain(Plain::Int(int)) => *int,
        _ => 0,
    }
}

fn integers(alloc: Global, values: &[Value]) -> Result<Ints, NoMemory>
    ensures ints { IfOk result (λ ints. ints.items ≡ map rowing.integer values.now) }
    ensures few { length values.now ≤ 4 → IsOk result }
{
    let mut ints = SmallVec::new(alloc);
    for value in values {
        ints.push(integer(value))?;
    }
    Ok(ints)
}

/// The integers that these values are. The fault Unset comes exactly where one is unset, and else Kind exactly where one
/// is of another kind. Up to four take no memory.
pub fn ints_of(alloc: Global, values: &[Value]) -> Result<Ints, OpStop>
    ensures ints { IfOk result (λ ints. Ok ints.items ≡ rowing.ints_of values.now) }
    ensures few { length values.now ≤ 4 → IsErrOf result OpStop.NoMemory → ⊥ }
    ensures fault { (kind : FaultKind) → IsErrOf result (OpStop.Fault kind) → Err kind ≡ rowing.ints_of values.now }
{
    if some_unset(values) {
        return Err(OpStop::Fault(FaultKind::Unset));
    }
    if !are_integers(values) {
        return Err(OpStop::Fault(FaultKind::Kind));
    }
    match integers(alloc, values) {
        Ok(ints) => Ok(ints),
        Err(NoMemory) => Err(OpStop::NoMemory),
    }
}
