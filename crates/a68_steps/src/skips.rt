//! The values of SKIP.
ghost use Rattle.std.specs.Prelude.{◌≡◌, ◌++◌, ◌∷◌, [], length, map, Some, IfOk, OnOk};
ghost use Rattle.a68_acts.specs.Operations as operations;
ghost use Rattle.a68_acts.specs.Operations.{skip_within};
ghost use Rattle.a68_acts.specs.Rowing.{no_bounds};
ghost use Rattle.a68_values.specs.Content.{plain, row, structure, contents_of};
ghost use Rattle.a68_values.specs.declared.plain.Plain.TheVariants.{Unset};

use a68_acts::Doing;
use a68_base::NoMemory;
use a68_layout::end_of;
use a68_modes::{ModeId, Modes, Shape};
use a68_values::{Bounds, FaultKind, Plain, Value, ValueNode, Values};
use std::alloc::Global;

// Bounds of 1:0 in so many dimensions, put where there are none.
fn add_bounds(items: &mut Vec<(i64, i64)>, dims: u32) -> Result<(), NoMemory>
    requires { items.old.items ≡ [] }
    ensures { OnOk result (items.new.items ≡ no_bounds dims) }
{
    for _ in 0..dims {
        items.push((1, 0))?;
    }
    Ok(())
}

/// A row of so many dimensions without elements.
pub fn no_elements(alloc: Global, dims: u32) -> Result<Value, NoMemory>
    ensures { IfOk result (λ value. value ≡ row (no_bounds dims) (contents_of [])) }
{
    let mut items = Vec::new(alloc);
    add_bounds(&mut items, dims)?;
    let none = Values {
        items: Vec::new(alloc),
    };
    let parts = none.shared()?;
    Ok(Value {
        node: ValueNode::Row {
            bounds: Bounds::of(items),
            parts,
        },
    })
}

// What is put behind the values stands in functions of their own, so that a structure within many others needs little of
// the stack.

// An unset value put behind the values.
#[inline(never)]
fn add_unset(items: &mut Vec<Value>) -> Result<(), NoMemory>
    ensures { OnOk result (items.new.items ≡ items.old.items ++ plain Unset ∷ []) }
{
    items.push(Value::of(Plain::Unset))?;
    Ok(())
}

// A row of so many dimensions without elements put behind the values.
#[inline(never)]
fn add_empty(alloc: Global, dims: u32, items: &mut Vec<Value>) -> Result<(), NoMemory>
    ensures { OnOk result (items.new.items ≡ items.old.items ++ row (no_bounds dims) (contents_of []) ∷ []) }
{
    let value = no_elements(alloc, dims)?;
    items.push(value)?;
    Ok(())
}

// A structure of these parts put behind the values.
#[inline(never)]
fn add_structure(parts: Vec<Value>, items: &mut Vec<Value>) -> Result<(), NoMemory>
    ensures { OnOk result (items.new.items ≡ items.old.items ++ structure (contents_of parts.items) ∷ []) }
{
    let node = ValueNode::Structure(Values { items: parts });
    items.push(Value { node })?;
    Ok(())
}

// The value of SKIP of a mode put behind the values. Structures are looked at down to this depth.
#[cycle(skip)]
fn add_skip(
    alloc: Global,
    modes: &Modes,
    depth: u32,
    mode: ModeId,
    items: &mut Vec<Value>,
) -> Result<(), NoMemory>
    ensures { OnOk result (items.new.items ≡ items.old.items ++ skip_within depth modes.now mode ∷ []) }
{
    if depth == 0 {
        add_unset(items)?;
        return Ok(());
    }
    if mode >= modes.len() {
        add_unset(items)?;
        return Ok(());
    }
    match modes.shape(mode) {
        Shape::Struct(fields) => {
            let mut parts = Vec::new(alloc);
            skip_fields(alloc, modes, depth - 1, &fields.items, &mut parts)?;
            add_structure(parts, items)?;
            Ok(())
        }
        Shape::Rows { dims, .. } => {
            add_empty(alloc, *dims, items)?;
            Ok(())
        }
        Shape::Same(mode) => {
            add_skip(alloc, modes, depth - 1, *mode, items)?;
            Ok(())
        }
        _ => {
            add_unset(items)?;
            Ok(())
        }
    }
}

#[cycle(skip)]
fn skip_fields(
    alloc: Global,
    modes: &Modes,
    depth: u32,
    fields: &[(u32, ModeId)],
    items: &mut Vec<Value>,
) -> Result<(), NoMemory>
    requires { items.old.items ≡ [] }
    ensures { OnOk result (items.new.items ≡ map (λ field. skip_within depth modes.now field.1) fields.now) }
{
    for field in fields {
        add_skip(alloc, modes, depth, field.1, items)?;
    }
    Ok(())
}

// The value of SKIP of a mode.
fn skip_of(alloc: Global, modes: &Modes, mode: ModeId) -> Result<Option<Value>, NoMemory>
    ensures { IfOk result (λ value. value ≡ Some (skip_within (length modes.now) modes.now mode)) }
{
    let mut items = Vec::new(alloc);
    add_skip(alloc, modes, modes.len(), mode, &mut items)?;
    Ok(items.pop())
}

// The value of SKIP of a mode that is not plain.
fn skipped_parts(alloc: Global, modes: &Modes, mode: ModeId) -> Result<Doing, NoMemory>
    ensures { IfOk result (λ doing. doing ≡ operations.skipped_parts modes.now mode) }
{
    if end_of(modes, mode, 0).is_none() {
        return Ok(Doing::Meets(FaultKind::Cells));
    }
    match skip_of(alloc, modes, mode)? {
        Some(value) => Ok(Doing::Yields(value)),
        None => Ok(Doing::Meets(FaultKind::Kind)),
    }
}

/// The value of SKIP.
pub fn skipped(alloc: Global, modes: &Modes, mode: ModeId) -> Result<Doing, NoMemory>
    ensures { IfOk result (λ doing. doing ≡ operations.skipped modes.now mode) }
{
    if modes.is_void(mode) {
        return Ok(Doing::Yields(Value {
            node: ValueNode::Void,
        }));
    }
    if modes.is_plain(mode) {
        return Ok(Doing::Yields(Value::of(Plain::Unset)));
    }
    let doing = skipped_parts(alloc, modes, mode)?;
    Ok(doing)
}
