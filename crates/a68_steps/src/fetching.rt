//! The steps of fetching and of assigning. They are put in front of others, those of the last part first.
ghost use Rattle.std.specs.Prelude.{◌≡◌, ◌<◌, ◌+◌, ◌≤◌, ◌∷◌, ℕ, true, false, length, IfOk, OnOk, MatchOption};
ghost use Rattle.a68_values.specs.Content.{contents_of, structure};
ghost use Rattle.std.specs.List.{All};
ghost use Rattle.a68_modes.specs.Nodes.{is_plain, shape_at};
ghost use Rattle.a68_layout.specs.Widths.{cells_of, most_cells, width_within, width_of, width_of_fields};
ghost use Rattle.a68_acts.specs.Fetching as fetching;
ghost use Rattle.a68_acts.specs.Fetching.{fetch_within, assign_within, has_parts};
ghost use Rattle.a68_steps.specs.Lasts.{IsTakenApart, all_but, last_of, last_ones};

use a68_acts::{Step, Steps};
use a68_base::NoMemory;
use a68_layout::fields_width;
use a68_modes::{ModeId, Modes, Shape};
use a68_values::{Held, Plain, Value, ValueNode, Values};
use std::alloc::Global;

// The step of fetching a value that lies in one cell.
fn fetch_cell(shape: &Shape, cell: u32) -> Step
    ensures { result ≡ fetching.fetch_cell shape.now cell }
{
    match shape {
        Shape::Rows { of, .. } => Step::FetchRow { of: *of, cell },
        Shape::Union(_) => Step::FetchUnion { cell },
        shape if shape.is_plain() => Step::Fetch { cell },
        _ => Step::Stray,
    }
}

// What is put in front of the steps stands in functions of their own, so that a structure within many others needs little
// of the stack.

// The step that meets a fault, put in front of the steps.
#[inline(never)]
fn put_stray(steps: &mut Steps) -> Result<(), NoMemory>
    ensures { OnOk result (steps.new ≡ Step.Stray ∷ steps.old) }
{
    steps.push(Step::Stray)?;
    Ok(())
}

// The step of making a structure of so many values, put in front of the steps.
#[inline(never)]
fn put_structure(count: usize, steps: &mut Steps) -> Result<(), NoMemory>
    ensures { OnOk result (steps.new ≡ Step.Structure count ∷ steps.old) }
{
    steps.push(Step::Structure { count })?;
    Ok(())
}

// The step of fetching a value that lies in one cell, put in front of the steps.
#[inline(never)]
fn put_fetch(shape: &Shape, cell: u32, steps: &mut Steps) -> Result<(), NoMemory>
    ensures { OnOk result (steps.new ≡ fetching.fetch_cell shape.now cell ∷ steps.old) }
{
    let step = fetch_cell(shape, cell);
    steps.push(step)?;
    Ok(())
}

// The steps of fetching a value of the mode, whose cells end before this one. Its first cell comes back. Structures are
// looked at down to this depth.
#[cycle(fetch)]
fn fetch_in(
    modes: &Modes,
    depth: u32,
    mode: ModeId,
    end: u32,
    steps: &mut Steps,
) -> Result<u32, NoMemory>
    requires { width_within depth modes.now mode ≤ end }
    ensures { IfOk result (λ cell. (cell + width_within depth modes.now mode ≡ end) × (steps.new ≡ fetch_within depth modes.now mode cell steps.old)) }
{
    if depth == 0 {
        put_stray(steps)?;
        return Ok(end - 1);
    }
    if mode >= modes.len() {
        put_stray(steps)?;
        return Ok(end - 1);
    }
    match modes.shape(mode) {
        Shape::Struct(fields) => {
            let fields = &fields.items;
            put_structure(fields.len(), steps)?;
            let cell = fetch_fields(modes, depth - 1, fields, end, steps)?;
            Ok(cell)
        }
        Shape::Same(mode) => {
            let cell = fetch_in(modes, depth - 1, *mode, end, steps)?;
            Ok(cell)
        }
        shape => {
            put_fetch(shape, end - 1, steps)?;
            Ok(end - 1)
        }
    }
}

#[cycle(fetch)]
fn fetch_fields(
    modes: &Modes,
    depth: u32,
    fields: &[(u32, ModeId)],
    end: u32,
    steps: &mut Steps,
) -> Result<u32, NoMemory>
    requires { width_of_fields (width_within depth modes.now) fields.now ≤ end }
    ensures { IfOk result (λ cell. (cell + width_of_fields (width_within depth modes.now) fields.now ≡ end)
        × (steps.new ≡ fetching.fetch_fields (fetch_within depth modes.now) (width_within depth modes.now) fields.now cell steps.old)) }
{
    let mut cell = end;
    let mut left = fields.len();
    while left > 0 {
        left -= 1;
        cell = fetch_in(modes, depth, fields[left].1, cell, steps)?;
    }
    Ok(cell)
}

/// The steps of fetching a value of the mode, whose cells end before this one, put in front of the steps.
#[tactic(auto, unfolding(a68_acts::specs::Fetching::fetch_steps))]
pub fn fetch_steps(modes: &Modes, mode: ModeId, end: u32, steps: &mut Steps) -> Result<(), NoMemory>
    requires { width_of modes.now mode ≤ end }
    ensures { (cell : ℕ) → cell + width_of modes.now mode ≡ end → OnOk result (steps.new ≡ fetching.fetch_steps modes.now mode cell steps.old) }
{
    fetch_in(modes, modes.len(), mode, end, steps)?;
    Ok(())
}

// The same of an element of a row, of which it is told whether it is plain: most elements are, and for one of these there is
// nothing to look up.
#[inline(always)]
fn fetch_element(
    modes: &Modes,
    of: ModeId,
    plain: bool,
    end: u32,
    steps: &mut Steps,
) -> Result<(), NoMemory>
    requires plain { plain ≡ is_plain (shape_at modes.now of) }
    requires room { width_of modes.now of ≤ end }
    ensures { (cell : ℕ) → cell + width_of modes.now of ≡ end → OnOk result (steps.new ≡ fetching.fetch_steps modes.now of cell steps.old) }
{
    if plain {
        steps.push(Step::Fetch { cell: end - 1 })?;
        return Ok(());
    }
    fetch_steps(modes, of, end, steps)
}

/// The steps of fetching the elements of a row, whose first cells these are and each of which takes so many cells, put
/// in front of the steps.
pub fn fetch_elements(
    modes: &Modes,
    of: ModeId,
    cells: &[u32],
    width: u32,
    steps: &mut Steps,
) -> Result<(), NoMemory>
    requires width { width ≡ cells_of modes.now of }
    requires room { All (λ cell. cell + width ≤ most_cells) cells.now }
    ensures { OnOk result (steps.new ≡ fetching.fetch_elements modes.now of cells.now steps.old) }
{
    let plain = modes.is_plain(of);
    let mut left = cells.len();
    while left > 0 {
        left -= 1;
        fetch_element(modes, of, plain, cells[left] + width, steps)?;
    }
    Ok(())
}

// The step of assigning a value to a union.
fn assign_union(cell: u32, value: Value) -> Step
    ensures { result ≡ fetching.assign_union cell value }
{
    if value.plain() == Some(Plain::Unset) {
        drop(value);
        let held = Held::Plain(Plain::Unset);
        return Step::Assign { cell, held };
    }
    match value.into_member() {
        Some((mode, value)) => Step::AssignUnion { cell, mode, value },
        None => Step::Stray,
    }
}

// The step of assigning a row.
fn assign_row(of: ModeId, flex: bool, cell: u32, value: Value) -> Step
    ensures { result ≡ fetching.assign_row of flex cell value }
{
    match value.into_row() {
        Some((bounds, parts)) => Step::AssignRow {
            of,
            flex,
            cell,
            bounds,
            parts,
        },
        None => Step::Stray,
    }
}

// The step of assigning a plain value.
fn assign_plain(is_plain: bool, cell: u32, value: &Value) -> Step
    ensures { result ≡ fetching.assign_plain is_plain cell value.now }
{
    match &value.node {
        ValueNode::Plain(held) if is_plain => Step::Assign {
            cell,
            held: Held::Plain(*held),
        },
        _ => Step::Stray,
    }
}

// The step of assigning a value that lies in one cell.
fn assign_cell(shape: &Shape, cell: u32, value: Value) -> Step
    ensures { result ≡ fetching.assign_cell shape.now cell value }
{
    match shape {
        Shape::Union(_) => assign_union(cell, value),
        Shape::Rows { flex, of, .. } => assign_row(*of, *flex, cell, value),
        shape => {
            let step = assign_plain(shape.is_plain(), cell, &value);
            drop(value);
            step
        }
    }
}

// The parts of a structure, where it has so many.
fn parts_of(value: Value, count: usize) -> Option<Values>
    ensures { MatchOption result (has_parts value count ≡ false) (λ parts. (value ≡ structure (contents_of parts)) × (length parts ≡ count)) }
{
    let parts = value.into_parts()?;
    if parts.items.len() != count {
        drop(parts);
        return None;
    }
    Some(parts)
}

// The values that are yet to be assigned are kept in one list, from which each is taken off at its end. So a structure
// within many others needs little of the stack.

// Takes the last value off, and puts the step that meets a fault in front of the steps.
#[inline(never)]
fn take_stray(values: &mut Values, steps: &mut Steps) -> Result<(), NoMemory>
    ensures values { OnOk result (values.new ≡ all_but 1 values.old) }
    ensures steps { OnOk result (steps.new ≡ Step.Stray ∷ steps.old) }
{
    let value = values.items.pop();
    drop(value);
    steps.push(Step::Stray)?;
    Ok(())
}

// Takes the last value off, and puts the step of assigning it to one cell in front of the steps.
#[inline(never)]
fn take_cell(
    shape: &Shape,
    cell: u32,
    values: &mut Values,
    steps: &mut Steps,
) -> Result<(), NoMemory>
    requires { 0 < length values.old }
    ensures values { OnOk result (values.new ≡ all_but 1 values.old) }
    ensures steps { OnOk result (steps.new ≡ fetching.assign_cell shape.now cell (last_of values.old) ∷ steps.old) }
{
    let step = match values.items.pop() {
        Some(value) => assign_cell(shape, cell, value),
        None => Step::Stray,
    };
    steps.push(step)?;
    Ok(())
}

// Takes the last value off, and puts the step of assigning it to a plain cell in front of the steps.
#[inline(always)]
fn take_plain(cell: u32, values: &mut Values, steps: &mut Steps) -> Result<(), NoMemory>
    requires { 0 < length values.old }
    ensures values { OnOk result (values.new ≡ all_but 1 values.old) }
    ensures steps { OnOk result (steps.new ≡ fetching.assign_plain true cell (last_of values.old) ∷ steps.old) }
{
    let step = match values.items.pop() {
        Some(value) => {
            let step = assign_plain(true, cell, &value);
            drop(value);
            step
        }
        None => Step::Stray,
    };
    steps.push(step)?;
    Ok(())
}

// Puts the parts of the last value in its place, where it is a structure of so many; else takes it off, and puts the step
// that meets a fault in front of the steps. Was it one?
#[inline(never)]
fn take_apart(count: usize, values: &mut Values, steps: &mut Steps) -> Result<bool, NoMemory>
    requires { 0 < length values.old }
    ensures apart { IfOk result (λ is. is ≡ true → IsTakenApart count values.old values.new × (steps.new ≡ steps.old)) }
    ensures stray { IfOk result (λ is. is ≡ false → (has_parts (last_of values.old) count ≡ false) × (values.new ≡ all_but 1 values.old) × (steps.new ≡ Step.Stray ∷ steps.old)) }
{
    let Some(value) = values.items.pop() else {
        return Ok(false);
    };
    match parts_of(value, count) {
        Some(parts) => {
            let mut parts = parts;
            values.items.append(&mut parts.items)?;
            Ok(true)
        }
        None => {
            steps.push(Step::Stray)?;
            Ok(false)
        }
    }
}

// The steps of assigning the last value to the cells of a name of the mode that end before this one; it is taken off. The
// first of these cells comes back. Structures are looked at down to this depth.
#[cycle(assign)]
fn assign_in(
    modes: &Modes,
    depth: u32,
    mode: ModeId,
    end: u32,
    values: &mut Values,
    steps: &mut Steps,
) -> Result<u32, NoMemory>
    requires some { 0 < length values.old }
    requires room { width_within depth modes.now mode ≤ end }
    requires few { end ≤ most_cells }
    ensures cells { IfOk result (λ cell. cell + width_within depth modes.now mode ≡ end) }
    ensures values { OnOk result (values.new ≡ all_but 1 values.old) }
    ensures steps { IfOk result (λ cell. steps.new ≡ assign_within depth modes.now mode cell (last_of values.old) steps.old) }
{
    if depth == 0 {
        take_stray(values, steps)?;
        return Ok(end - 1);
    }
    if mode >= modes.len() {
        take_stray(values, steps)?;
        return Ok(end - 1);
    }
    match modes.shape(mode) {
        Shape::Struct(fields) => {
            let fields = &fields.items;
            if !take_apart(fields.len(), values, steps)? {
                let cell = end - fields_width(modes, depth - 1, fields);
                return Ok(cell);
            }
            let cell = assign_fields(modes, depth - 1, fields, end, values, steps)?;
            Ok(cell)
        }
        Shape::Same(mode) => {
            let cell = assign_in(modes, depth - 1, *mode, end, values, steps)?;
            Ok(cell)
        }
        shape => {
            take_cell(shape, end - 1, values, steps)?;
            Ok(end - 1)
        }
    }
}

// The same of the last values, as many as there are fields.
#[cycle(assign)]
fn assign_fields(
    modes: &Modes,
    depth: u32,
    fields: &[(u32, ModeId)],
    end: u32,
    values: &mut Values,
    steps: &mut Steps,
) -> Result<u32, NoMemory>
    requires some { length fields.now ≤ length values.old }
    requires room { width_of_fields (width_within depth modes.now) fields.now ≤ end }
    requires few { end ≤ most_cells }
    ensures cells { IfOk result (λ cell. cell + width_of_fields (width_within depth modes.now) fields.now ≡ end) }
    ensures values { OnOk result (values.new ≡ all_but (length fields.now) values.old) }
    ensures steps { IfOk result (λ cell. steps.new
        ≡ fetching.assign_fields (assign_within depth modes.now) (width_within depth modes.now) fields.now cell (contents_of (last_ones (length fields.now) values.old)) steps.old) }
{
    let mut cell = end;
    let mut left = fields.len();
    while left > 0 {
        left -= 1;
        cell = assign_in(modes, depth, fields[left].1, cell, values, steps)?;
    }
    Ok(cell)
}

// The steps of assigning the last value to a name of the mode, whose cells end before this one, put in front of the steps;
// the value is taken off.
#[tactic(auto, unfolding(a68_acts::specs::Fetching::assign_steps))]
fn assign_last(
    modes: &Modes,
    mode: ModeId,
    end: u32,
    values: &mut Values,
    steps: &mut Steps,
) -> Result<(), NoMemory>
    requires some { 0 < length values.old }
    requires room { width_of modes.now mode ≤ end }
    requires few { end ≤ most_cells }
    ensures values { OnOk result (values.new ≡ all_but 1 values.old) }
    ensures steps { (cell : ℕ) → cell + width_of modes.now mode ≡ end → OnOk result (steps.new ≡ fetching.assign_steps modes.now mode cell (last_of values.old) steps.old) }
{
    assign_in(modes, modes.len(), mode, end, values, steps)?;
    Ok(())
}

// The same of an element of a row, of which it is told whether it is plain.
#[inline(always)]
fn assign_element(
    modes: &Modes,
    of: ModeId,
    plain: bool,
    end: u32,
    values: &mut Values,
    steps: &mut Steps,
) -> Result<(), NoMemory>
    requires some { 0 < length values.old }
    requires plain { plain ≡ is_plain (shape_at modes.now of) }
    requires room { width_of modes.now of ≤ end }
    requires few { end ≤ most_cells }
    ensures values { OnOk result (values.new ≡ all_but 1 values.old) }
    ensures steps { (cell : ℕ) → cell + width_of modes.now of ≡ end → OnOk result (steps.new ≡ fetching.assign_steps modes.now of cell (last_of values.old) steps.old) }
{
    if plain {
        return take_plain(end - 1, values, steps);
    }
    assign_last(modes, of, end, values, steps)
}

/// The steps of assigning a value to a name of the mode, whose cells end before this one, put in front of the steps.
pub fn assign_steps(
    alloc: Global,
    modes: &Modes,
    mode: ModeId,
    end: u32,
    value: Value,
    steps: &mut Steps,
) -> Result<(), NoMemory>
    requires room { width_of modes.now mode ≤ end }
    requires few { end ≤ most_cells }
    ensures { (cell : ℕ) → cell + width_of modes.now mode ≡ end → OnOk result (steps.new ≡ fetching.assign_steps modes.now mode cell value steps.old) }
{
    let mut values = Values {
        items: Vec::new(alloc),
    };
    values.items.push(value)?;
    assign_last(modes, mode, end, &mut values, steps)?;
    Ok(())
}

/// The steps of assigning the elements of a row, whose first cells these are and each of which takes so many cells, put in
/// front of the steps. There are as many cells as parts.
pub fn assign_elements(
    modes: &Modes,
    of: ModeId,
    cells: &[u32],
    width: u32,
    parts: Values,
    steps: &mut Steps,
) -> Result<(), NoMemory>
    requires width { width ≡ cells_of modes.now of }
    requires room { All (λ cell. cell + width ≤ most_cells) cells.now }
    requires same { length parts ≡ length cells.now }
    ensures { OnOk result (steps.new ≡ fetching.assign_elements modes.now of cells.now parts steps.old) }
{
    let plain = modes.is_plain(of);
    let mut values = parts;
    let mut left = cells.len();
    while left > 0 {
        left -= 1;
        assign_element(modes, of, plain, cells[left] + width, &mut values, steps)?;
    }
    Ok(())
}
