//! Parts of rows as values.
ghost use Rattle.std.specs.Prelude.{◌≡◌, ◌<◌, [], Ok, Err, Some, None, IfOk, IsErrOf};
ghost use Rattle.a68_layout.specs.Views as views;
ghost use Rattle.a68_values.specs.declared.act.FaultKind.{FaultKind};
ghost use Rattle.a68_values.specs.declared.act.FaultKind.TheVariants as faults;

use crate::LayoutStop;
use crate::extents::elements;
use a68_base::NoMemory;
use a68_values::{Bounds, Dim, FaultKind, Value, ValueNode, Values};
use std::alloc::Global;

// Tests whether a row with these bounds has so many elements.
pub fn is_filled(bounds: &[(i64, i64)], count: usize) -> bool
    requires { count < usize.MAX }
    ensures { result ≡ views.is_filled bounds.now count }
{
    elements(bounds, count as u64 + 1) == count as u64
}

// Copies the parts at these places. The fault Kind comes where one is not there.
pub fn parts_at(alloc: Global, parts: &[Value], places: &[u32]) -> Result<Vec<Value>, LayoutStop>
    ensures picked { IfOk result (λ picked. Some picked.items ≡ views.parts_at parts.now places.now) }
    ensures fault { (kind : FaultKind) → IsErrOf result (LayoutStop.Fault kind) → (kind ≡ faults.Kind) × (views.parts_at parts.now places.now ≡ None) }
{
    let mut picked = Vec::with_capacity(alloc, places.len())?;
    for place in places {
        if *place as usize >= parts.len() {
            return Err(LayoutStop::Fault(FaultKind::Kind));
        }
        let part = parts[*place as usize].copy(alloc)?;
        picked.push(part)?;
    }
    Ok(picked)
}

// Lists a lower and an upper bound for each dimension.
fn pairs_of(alloc: Global, dims: &[Dim]) -> Result<Vec<(i64, i64)>, NoMemory>
    ensures { IfOk result (λ pairs. pairs.items ≡ views.bounds_of dims.now) }
{
    let pairs = dims
        .iter()
        .map(|dim| (dim.lower, dim.upper))
        .collect(alloc)?;
    Ok(pairs)
}

// Lists the bounds of the dimensions.
fn bounds_of(alloc: Global, dims: &[Dim]) -> Result<Bounds, NoMemory>
    ensures { IfOk result (λ bounds. bounds ≡ views.bounds_of dims.now) }
{
    let pairs = pairs_of(alloc, dims)?;
    Ok(Bounds::of(pairs))
}

// Takes the only one of them. The fault Kind comes where there is another number.
fn only(mut parts: Vec<Value>) -> Result<Value, FaultKind>
    ensures { result ≡ views.part_seen [] (Some parts.items) }
{
    if parts.len() != 1 {
        return Err(FaultKind::Kind);
    }
    match parts.pop() {
        Some(part) => Ok(part),
        None => Err(FaultKind::Kind),
    }
}

// Makes a row of the dimensions that stay, and where none stays takes the only element.
pub fn part_seen(alloc: Global, dims: &[Dim], parts: Vec<Value>) -> Result<Value, LayoutStop>
    ensures part { IfOk result (λ part. Ok part ≡ views.part_seen dims.now (Some parts.items)) }
    ensures fault { (kind : FaultKind) → IsErrOf result (LayoutStop.Fault kind) → Err kind ≡ views.part_seen dims.now (Some parts.items) }
{
    if dims.is_empty() {
        let part = only(parts)?;
        return Ok(part);
    }
    let bounds = bounds_of(alloc, dims)?;
    let parts = Values { items: parts }.shared()?;
    Ok(Value {
        node: ValueNode::Row { bounds, parts },
    })
}
