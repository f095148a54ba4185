//! Structures, and names that refer to values made of others.
ghost use Rattle.std.specs.Prelude.{◌≡◌, ◌+◌, ◌≤◌, ℕ, Bool, [], ◌∷◌, min, false, None, Some, IfOk, OnOk, MatchOption};
ghost use Rattle.a68_acts.specs.Fetching as fetching;
ghost use Rattle.a68_acts.specs.Operations as operations;
ghost use Rattle.a68_layout.specs.Widths.{most_cells, width_of, width_of_fields};
ghost use Rattle.a68_modes.specs.Nodes.{shape_at};
ghost use Rattle.a68_values.specs.Content.{as_plain, plain, row, contents_of};
ghost use Rattle.std.specs.Option.{option_copied};

use crate::fetching::{assign_steps, fetch_steps};
use crate::going::goes;
use a68_acts::{Doing, Left, Next, Step, Steps, Want};
use a68_base::{MOST_COUNTED, NoMemory};
use a68_layout::{cells_before, end_of};
use a68_modes::{Fields, ModeId, Modes, Shape};
use a68_values::{Bounds, Elements, FaultKind, Held, Name, Plain, Value, ValueNode, Values};
use std::alloc::Global;

/// What a name refers to that is made of others.
pub fn fetched_parts(
    alloc: Global,
    modes: &Modes,
    mode: ModeId,
    name: Name,
) -> Result<Doing, NoMemory>
    ensures { IfOk result (λ doing. doing ≡ operations.fetched_parts modes.now mode name) }
{
    let Some(end) = end_of(modes, mode, name.cell) else {
        return Ok(Doing::Meets(FaultKind::Cells));
    };
    let mut steps = Steps::new(alloc);
    fetch_steps(modes, mode, end, &mut steps)?;
    let doing = goes(alloc, modes, steps, Left::new(alloc))?;
    Ok(doing)
}

// The steps of assigning a value to a name, which is the yield, put where there are none.
fn give_steps(
    alloc: Global,
    modes: &Modes,
    mode: ModeId,
    name: Name,
    end: u32,
    value: Value,
    steps: &mut Steps,
) -> Result<(), NoMemory>
    requires none { steps.old ≡ [] }
    requires end { end ≡ name.cell + width_of modes.now mode }
    requires few { end ≤ most_cells }
    ensures { OnOk result (steps.new ≡ fetching.assign_steps modes.now mode name.cell value (Step.Leave (plain (Plain.Name name)) ∷ [])) }
{
    steps.push(Step::Leave(Value::of(Plain::Name(name))))?;
    assign_steps(alloc, modes, mode, end, value, steps)?;
    Ok(())
}

/// A value given to a name that refers to values made of others.
pub fn assigned_parts(
    alloc: Global,
    modes: &Modes,
    mode: ModeId,
    name: Name,
    value: Value,
) -> Result<Doing, NoMemory>
    ensures { IfOk result (λ doing. doing ≡ operations.given_parts modes.now mode name value) }
{
    if value.scope() > name.scope {
        drop(value);
        return Ok(Doing::Meets(FaultKind::Scope));
    }
    let Some(end) = end_of(modes, mode, name.cell) else {
        drop(value);
        return Ok(Doing::Meets(FaultKind::Cells));
    };
    let mut steps = Steps::new(alloc);
    give_steps(alloc, modes, mode, name, end, value, &mut steps)?;
    let doing = goes(alloc, modes, steps, Left::new(alloc))?;
    Ok(doing)
}

// A value that fits one cell given to a name.
fn given(name: Name, value: &Value) -> Doing
    ensures { result ≡ operations.given name value.now }
{
    let Some(held) = value.plain() else {
        return Doing::Meets(FaultKind::Kind);
    };
    if held.scope() > name.scope {
        return Doing::Meets(FaultKind::Scope);
    }
    let cell = name.cell;
    let held = Held::Plain(held);
    Doing::Asks(Want::Assign { cell, held }, Next::Name(name))
}

// A value given to a name.
fn given_to(
    alloc: Global,
    modes: &Modes,
    mode: ModeId,
    name: Name,
    value: Value,
) -> Result<Doing, NoMemory>
    ensures { IfOk result (λ doing. doing ≡ operations.assigned modes.now mode (plain (Plain.Name name)) value) }
{
    if modes.is_plain(mode) {
        let doing = given(name, &value);
        drop(value);
        return Ok(doing);
    }
    let doing = assigned_parts(alloc, modes, mode, name, value)?;
    Ok(doing)
}

/// A value assigned to a name, which is the yield.
pub fn assigned(
    alloc: Global,
    modes: &Modes,
    mode: ModeId,
    name: &Value,
    value: Value,
) -> Result<Doing, NoMemory>
    ensures { IfOk result (λ doing. doing ≡ operations.assigned modes.now mode name.now value) }
{
    match &name.node {
        ValueNode::Plain(Plain::Unset) => {
            drop(value);
            Ok(Doing::Meets(FaultKind::Unset))
        }
        ValueNode::Plain(Plain::Nil) => {
            drop(value);
            Ok(Doing::Meets(FaultKind::Nil))
        }
        ValueNode::Plain(Plain::Name(name)) => {
            let doing = given_to(alloc, modes, mode, *name, value)?;
            Ok(doing)
        }
        _ => {
            drop(value);
            Ok(Doing::Meets(FaultKind::Kind))
        }
    }
}

/// A structure of so many values.
pub fn composed(count: u32, values: Values) -> Doing
    ensures { result ≡ operations.composed count values }
{
    if values.items.len() != count as usize {
        drop(values);
        return Doing::Meets(FaultKind::Kind);
    }
    Doing::Yields(Value {
        node: ValueNode::Structure(values),
    })
}

// The fields of a structure.
fn fields_in(modes: &Modes, mode: ModeId) -> Option<&Fields>
    ensures { option_copied result ≡ operations.fields_in (shape_at modes.now mode) }
{
    if mode >= modes.len() {
        return None;
    }
    match modes.shape(mode) {
        Shape::Struct(fields) => Some(fields),
        _ => None,
    }
}

// The mode of what a row is made of, and another one as it is.
fn element_of(modes: &Modes, mode: ModeId) -> ModeId
    ensures { operations.fields_in (shape_at modes.now result) ≡ operations.fields_behind modes.now (shape_at modes.now mode) }
{
    if mode >= modes.len() {
        return mode;
    }
    match modes.shape(mode) {
        Shape::Rows { of, .. } => *of,
        _ => mode,
    }
}

// The mode whose fields are those of a structure, of those of a row, or of either to which a name refers.
fn structure_of(modes: &Modes, mode: ModeId) -> ModeId
    ensures { operations.fields_in (shape_at modes.now result) ≡ operations.fields_of modes.now (shape_at modes.now mode) }
{
    if mode >= modes.len() {
        return mode;
    }
    match modes.shape(mode) {
        Shape::Ref(mode) => element_of(modes, *mode),
        _ => element_of(modes, mode),
    }
}

// Is it the mode of a row?
fn is_row(modes: &Modes, mode: ModeId) -> bool
    ensures { result ≡ operations.is_row_shape (shape_at modes.now mode) }
{
    mode < modes.len() && matches!(modes.shape(mode), Shape::Rows { .. })
}

// Is it the mode of a name that refers to a row?
fn names_rows(modes: &Modes, mode: ModeId) -> bool
    ensures { result ≡ operations.names_rows modes.now (shape_at modes.now mode) }
{
    if mode >= modes.len() {
        return false;
    }
    match modes.shape(mode) {
        Shape::Ref(mode) => is_row(modes, *mode),
        _ => false,
    }
}

// The name of the cell so many behind that of a name.
fn name_behind(offset: u32, name: Name) -> Doing
    ensures { (width : ℕ) → offset ≡ min (most_cells + 1) width → result ≡ operations.name_behind width name }
{
    if offset > MOST_COUNTED || name.cell > MOST_COUNTED - offset {
        return Doing::Meets(FaultKind::Cells);
    }
    Doing::Yields(Value::of(Plain::Name(Name {
        cell: name.cell + offset,
        scope: name.scope,
    })))
}

// The part of a structure.
fn part_at(parts: Values, field: usize) -> Doing
    ensures { result ≡ operations.part_of field (contents_of parts) }
{
    let mut parts = parts;
    if field >= parts.items.len() {
        drop(parts);
        return Doing::Meets(FaultKind::Kind);
    }
    let part = parts.items.swap_remove(field);
    drop(parts);
    Doing::Yields(part)
}

// The field of a structure that is an element of a row.
fn part_in(value: Value, field: usize) -> Option<Value>
    ensures { result ≡ operations.part_in field value }
{
    let mut parts = value.into_parts()?;
    if field >= parts.items.len() {
        drop(parts);
        return None;
    }
    let part = parts.items.swap_remove(field);
    drop(parts);
    Some(part)
}

// That field of each of these structures.
fn fields_at(alloc: Global, parts: Values, field: usize) -> Result<Option<Values>, NoMemory>
    ensures { IfOk result (λ fields. MatchOption fields (operations.fields_at field (contents_of parts) ≡ None)
        (λ found. operations.fields_at field (contents_of parts) ≡ Some (contents_of found))) }
{
    let mut left = parts;
    let mut items = Vec::with_capacity(alloc, left.items.len())?;
    while let Some(part) = left.items.pop() {
        match part_in(part, field) {
            Some(value) => items.push(value)?,
            None => return Ok(None),
        }
    }
    items.reverse();
    Ok(Some(Values { items }))
}

// The row of that field of each structure of a row.
fn row_of_fields(
    alloc: Global,
    bounds: Bounds,
    parts: Elements,
    field: usize,
) -> Result<Doing, NoMemory>
    ensures { (rows : Bool) (offset : ℕ) → IfOk result (λ doing. doing ≡ operations.selected_from rows offset field (row bounds (contents_of parts))) }
{
    let parts = parts.into_values(alloc)?;
    match fields_at(alloc, parts, field)? {
        Some(fields) => {
            let parts = fields.shared()?;
            Ok(Doing::Yields(Value {
                node: ValueNode::Row { bounds, parts },
            }))
        }
        None => {
            drop(bounds);
            Ok(Doing::Meets(FaultKind::Kind))
        }
    }
}

// The name of the field of a structure, or that of the row of the fields of a row.
fn selected_name(rows: bool, offset: u32, name: Name) -> Doing
    ensures { (width field : ℕ) → offset ≡ min (most_cells + 1) width → result ≡ operations.selected_from rows width field (plain (Plain.Name name)) }
{
    if !rows {
        return name_behind(offset, name);
    }
    if offset > MOST_COUNTED {
        return Doing::Meets(FaultKind::Cells);
    }
    Doing::Asks(
        Want::Fetch { cell: name.cell },
        Next::Selected {
            offset,
            scope: name.scope,
        },
    )
}

// A field of what a value that is not made of others refers to.
fn selected_plain(rows: bool, offset: u32, held: Plain) -> Doing
    ensures { (width field : ℕ) → offset ≡ min (most_cells + 1) width → result ≡ operations.selected_from rows width field (plain held) }
{
    match held {
        Plain::Unset => Doing::Meets(FaultKind::Unset),
        Plain::Nil => Doing::Meets(FaultKind::Nil),
        Plain::Name(name) => selected_name(rows, offset, name),
        _ => Doing::Meets(FaultKind::Kind),
    }
}

// A field of a value that is made of others.
fn selected_part(alloc: Global, field: usize, value: Value) -> Result<Doing, NoMemory>
    requires { as_plain value ≡ None }
    ensures { (rows : Bool) (offset : ℕ) → IfOk result (λ doing. doing ≡ operations.selected_from rows offset field value) }
{
    if let ValueNode::Row { .. } = &value.node {
        return match value.into_row() {
            Some((bounds, parts)) => {
                let doing = row_of_fields(alloc, bounds, parts, field)?;
                Ok(doing)
            }
            None => Ok(Doing::Meets(FaultKind::Kind)),
        };
    }
    match value.into_parts() {
        Some(parts) => Ok(part_at(parts, field)),
        None => Ok(Doing::Meets(FaultKind::Kind)),
    }
}

// A field of a structure or of those of a row, or the name of either, before which so many cells lie.
fn selected_from(
    alloc: Global,
    rows: bool,
    offset: u32,
    field: usize,
    value: Value,
) -> Result<Doing, NoMemory>
    ensures { (width : ℕ) → offset ≡ min (most_cells + 1) width → IfOk result (λ doing. doing ≡ operations.selected_from rows width field value) }
{
    match value.plain() {
        Some(held) => Ok(selected_plain(rows, offset, held)),
        None => {
            let doing = selected_part(alloc, field, value)?;
            Ok(doing)
        }
    }
}

/// A field of a structure, or the row of that field of each structure of a row; of a name of either the name of that.
pub fn selected(
    alloc: Global,
    modes: &Modes,
    mode: ModeId,
    field: u32,
    value: Value,
) -> Result<Doing, NoMemory>
    ensures { IfOk result (λ doing. doing ≡ operations.selected modes.now mode field value) }
{
    let rows = names_rows(modes, mode);
    let structure = structure_of(modes, mode);
    let Some(fields) = fields_in(modes, structure) else {
        drop(value);
        return Ok(Doing::Meets(FaultKind::Kind));
    };
    let field = field as usize;
    if field >= fields.items.len() {
        drop(value);
        return Ok(Doing::Meets(FaultKind::Kind));
    }
    let offset = cells_before(modes, structure, fields, field);
    let doing = selected_from(alloc, rows, offset, field, value)?;
    Ok(doing)
}
