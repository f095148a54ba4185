//! Slices.
ghost use Rattle.std.specs.Prelude.{◌≡◌, ◌≤◌, ◌∷◌, [], List, drop, length, map, Ok, IsOk, IfOk, IfSome, MatchOption, OnOk};
ghost use Rattle.std.specs.List.{list_all};
ghost use Rattle.a68_acts.specs.Rowing as rowing;
ghost use Rattle.a68_layout.specs.Views as views;
ghost use Rattle.a68_layout.specs.declared.types.Trim.TheVariants.{At};
ghost use Rattle.a68_layout.specs.declared.types.TrimForm.{TrimForm};
ghost use Rattle.a68_rows.specs.Subscripts as subscripts;

use crate::ints::{Ints, ints_of};
use crate::naming::names_row;
use a68_acts::{Doing, Next, Want};
use a68_base::NoMemory;
use a68_layout::{LayoutStop, Trim, TrimForm, TrimForms, Trims, element, part_of, view};
use a68_ops::OpStop;
use a68_values::{Bounds, Descriptor, FaultKind, Name, Plain, Value, ValueNode};
use smallvec::SmallVec;
use std::alloc::Global;

// The integer at a place, where one is to be taken and is there, and the place behind it.
fn take_if(take: bool, ints: &[i64], from: usize) -> (Option<i64>, usize)
    requires { from ≤ length ints.now }
    ensures value { result.0 ≡ (rowing.take_if take (drop from ints.now)).0 }
    ensures rest { drop result.1 ints.now ≡ (rowing.take_if take (drop from ints.now)).1 }
    ensures within { result.1 ≤ length ints.now }
{
    if !take || from >= ints.len() {
        return (None, from);
    }
    (Some(ints[from]), from + 1)
}

// What a trimmer that is written so says with the integers from a place on, and the place behind those.
fn trimmer(lower: bool, upper: bool, at: bool, ints: &[i64], from: usize) -> (Trim, usize)
    requires { from ≤ length ints.now }
    ensures trim { result.0 ≡ rowing.trim_of lower upper at (drop from ints.now) }
    ensures rest { drop result.1 ints.now ≡ rowing.behind_trim lower upper at (drop from ints.now) }
    ensures within { result.1 ≤ length ints.now }
{
    let (lower, from) = take_if(lower, ints, from);
    let (upper, from) = take_if(upper, ints, from);
    let (at, from) = take_if(at, ints, from);
    (Trim::Part { lower, upper, at }, from)
}

// The subscript or trimmer that is written so with the integers from a place on, and the place behind those; none where
// there is no integer for a subscript.
fn trim_from(form: TrimForm, ints: &[i64], from: usize) -> Option<(Trim, usize)>
    requires { from ≤ length ints.now }
    ensures trims { (forms : List TrimForm) → MatchOption result (rowing.trims_of (form ∷ forms) (drop from ints.now) ≡ [])
        (λ found. rowing.trims_of (form ∷ forms) (drop from ints.now) ≡ found.0 ∷ rowing.trims_of forms (drop found.1 ints.now)) }
    ensures within { IfSome result (λ found. found.1 ≤ length ints.now) }
{
    match form {
        TrimForm::Subscript => {
            let int = *ints.get(from)?;
            Some((Trim::At(int), from + 1))
        }
        TrimForm::Trimmer { lower, upper, at } => Some(trimmer(lower, upper, at, ints, from)),
    }
}

// The subscripts and trimmers that are written so, with these integers, put where there are none.
fn add_trims(
    forms: &[TrimForm],
    ints: &[i64],
    trims: &mut SmallVec<Trim, 2>,
) -> Result<(), NoMemory>
    requires { trims.old.items ≡ [] }
    ensures { OnOk result (trims.new.items ≡ rowing.trims_of forms.now ints.now) }
{
    let mut from = 0;
    for form in forms {
        let Some((trim, behind)) = trim_from(*form, ints, from) else {
            return Ok(());
        };
        trims.push(trim)?;
        from = behind;
    }
    Ok(())
}

// The subscripts and trimmers that are written so, with these integers.
fn trims_of(alloc: Global, forms: &TrimForms, ints: &[i64]) -> Result<Trims, NoMemory>
    ensures { IfOk result (λ trims. trims ≡ rowing.trims_of forms.now ints.now) }
{
    let mut items = SmallVec::new(alloc);
    add_trims(&forms.items, ints, &mut items)?;
    Ok(Trims { items })
}

// The element or the part of a row.
fn sliced_row(
    alloc: Global,
    bounds: &Bounds,
    parts: &[Value],
    trims: &Trims,
) -> Result<Doing, NoMemory>
    ensures { IfOk result (λ doing. doing ≡ rowing.yielding (views.part_of bounds.now parts.now trims.now)) }
{
    match part_of(alloc, bounds, parts, trims.items.as_slice()) {
        Ok(value) => Ok(Doing::Yields(value)),
        Err(LayoutStop::Fault(kind)) => Ok(Doing::Meets(kind)),
        Err(LayoutStop::NoMemory) => Err(NoMemory),
    }
}

// An element or a part of what a value is, or of the row to which it refers.
fn sliced_by(alloc: Global, primary: &Value, trims: Trims) -> Result<Doing, NoMemory>
    ensures { IfOk result (λ doing. doing ≡ rowing.sliced_by primary.now trims) }
{
    match &primary.node {
        ValueNode::Row { bounds, parts } => {
            let doing = sliced_row(alloc, bounds, parts.as_slice(), &trims)?;
            Ok(doing)
        }
        ValueNode::Plain(Plain::Nil) => {
            drop(trims);
            Ok(Doing::Meets(FaultKind::Nil))
        }
        ValueNode::Plain(Plain::Name(name)) => Ok(Doing::Asks(
            Want::Fetch { cell: name.cell },
            Next::Sliced {
                trims,
                scope: name.scope,
            },
        )),
        _ => {
            drop(trims);
            Ok(Doing::Meets(FaultKind::Kind))
        }
    }
}

// The same of a primary that is set.
fn sliced_set(
    alloc: Global,
    forms: &TrimForms,
    primary: &Value,
    indexes: &[Value],
) -> Result<Doing, NoMemory>
    ensures { IfOk result (λ doing. doing ≡ rowing.sliced_set forms.now primary.now (rowing.ints_of indexes.now)) }
{
    match ints_of(alloc, indexes) {
        Ok(ints) => {
            let trims = trims_of(alloc, forms, ints.as_slice())?;
            let doing = sliced_by(alloc, primary, trims)?;
            Ok(doing)
        }
        Err(OpStop::Fault(kind)) => Ok(Doing::Meets(kind)),
        Err(OpStop::NoMemory) => Err(NoMemory),
    }
}

/// An element or a part of the first of these values, a row or the name of one, by the subscripts and trimmers that are
/// written so with the others.
pub fn sliced(alloc: Global, forms: &TrimForms, values: &[Value]) -> Result<Doing, NoMemory>
    ensures { IfOk result (λ doing. doing ≡ rowing.sliced forms.now values.now) }
{
    let Some((primary, indexes)) = values.split_first() else {
        return Ok(Doing::Meets(FaultKind::Kind));
    };
    match &primary.node {
        ValueNode::Plain(Plain::Unset) => Ok(Doing::Meets(FaultKind::Unset)),
        _ => {
            let doing = sliced_set(alloc, forms, primary, indexes)?;
            Ok(doing)
        }
    }
}

// The name of an element or of a part.
fn names_seen(alloc: Global, scope: u32, part: Descriptor) -> Result<Doing, NoMemory>
    ensures { IfOk result (λ doing. doing ≡ rowing.names_part scope (Ok part)) }
{
    if part.dims.as_slice().len() == 0 {
        let cell = part.base;
        drop(part);
        return Ok(Doing::Yields(Value::of(Plain::Name(Name { cell, scope }))));
    }
    let doing = names_row(alloc, scope, part)?;
    Ok(doing)
}

fn is_subscript(trim: &Trim) -> bool
    ensures { result ≡ subscripts.is_subscript trim.now }
{
    matches!(trim, Trim::At(_))
}

// Are all these subscripts?
fn are_subscripts(trims: &[Trim]) -> bool
    ensures { result ≡ list_all subscripts.is_subscript trims.now }
{
    trims.iter().all(|trim| is_subscript(trim))
}

// The integer that a subscript is, and 0 of a trimmer.
fn subscript(trim: &Trim) -> i64
    ensures { result ≡ subscripts.subscript trim.now }
{
    match trim {
        Trim::At(at) => *at,
        _ => 0,
    }
}

// The integers that subscripts are. Up to four take no memory.
fn subscripts_of(alloc: Global, trims: &[Trim]) -> Result<Ints, NoMemory>
    ensures ints { IfOk result (λ ints. ints.items ≡ map subscripts.subscript trims.now) }
    ensures few { length trims.now ≤ 4 → IsOk result }
{
    let mut ints = SmallVec::new(alloc);
    for trim in trims {
        ints.push(subscript(trim))?;
    }
    Ok(ints)
}

// The name of the element of a row that these subscripts tell, of this scope. It takes no memory.
fn names_element(scope: u32, descriptor: &Descriptor, at: &[i64]) -> Doing
    ensures { result ≡ rowing.names_part scope (views.view descriptor.now (map (λ i. At i) at.now)) }
{
    match element(descriptor, at) {
        Ok(cell) => Doing::Yields(Value::of(Plain::Name(Name { cell, scope }))),
        Err(kind) => Doing::Meets(kind),
    }
}

// The name of the part of a row that these tell, of this scope.
fn names_trimmed(
    alloc: Global,
    scope: u32,
    descriptor: &Descriptor,
    trims: &[Trim],
) -> Result<Doing, NoMemory>
    ensures { IfOk result (λ doing. doing ≡ rowing.names_part scope (views.view descriptor.now trims.now)) }
{
    match view(alloc, descriptor, trims) {
        Ok(part) => {
            let doing = names_seen(alloc, scope, part)?;
            Ok(doing)
        }
        Err(LayoutStop::Fault(kind)) => Ok(Doing::Meets(kind)),
        Err(LayoutStop::NoMemory) => Err(NoMemory),
    }
}

// The name of the element or of the part of a row that these tell, of this scope.
fn names_by(
    alloc: Global,
    scope: u32,
    descriptor: &Descriptor,
    trims: &[Trim],
) -> Result<Doing, NoMemory>
    ensures { IfOk result (λ doing. doing ≡ rowing.names_part scope (views.view descriptor.now trims.now)) }
{
    if !are_subscripts(trims) {
        let doing = names_trimmed(alloc, scope, descriptor, trims)?;
        return Ok(doing);
    }
    let at = subscripts_of(alloc, trims)?;
    let doing = names_element(scope, descriptor, at.as_slice());
    Ok(doing)
}

/// The name of the element or of the part of a row that these tell, of this scope. An element that up to four subscripts
/// tell takes no memory.
pub fn names_part(
    alloc: Global,
    scope: u32,
    descriptor: &Descriptor,
    trims: &Trims,
) -> Result<Doing, NoMemory>
    ensures { IfOk result (λ doing. doing ≡ rowing.names_part scope (views.view descriptor.now trims.now)) }
{
    let doing = names_by(alloc, scope, descriptor, trims.items.as_slice())?;
    Ok(doing)
}
