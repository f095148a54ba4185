//! Operators on texts that are combined with assignation.
ghost use Rattle.std.specs.Prelude.{◌≡◌, ◌≤◌, ◌+◌, Ok, IfOk};
ghost use Rattle.std.specs.List.{All};
ghost use Rattle.a68_layout.specs.Views as views;
ghost use Rattle.a68_layout.specs.Widths as widths;
ghost use Rattle.a68_layout.specs.Widths.{most_cells};
ghost use Rattle.std.specs.Option.{is_some};
ghost use Rattle.a68_acts.specs.Rowing as rowing;
ghost use Rattle.a68_ops.specs.Texts.{text_of};
ghost use Rattle.a68_values.specs.Content.{plain};

use a68_acts::{Doing, Left, Next, Step, Steps, Want};
use a68_base::NoMemory;
use a68_layout::{LayoutStop, cells_of, cells_seen};
use a68_modes::Modes;
use a68_ops::{is_text, is_unset};
use a68_steps::{bounds_of, fetch_elements, goes};
use a68_values::{Descriptor, FaultKind, Name, Plain, Value, ValueNode};
use std::alloc::Global;

// A text put to the text that a name has.
fn extending(alloc: Global, row: u32, name: &Value, operand: &Value) -> Result<Doing, NoMemory>
    ensures { IfOk result (λ doing. doing ≡ rowing.extending row name.now operand.now) }
{
    match &name.node {
        ValueNode::Plain(Plain::Name(name)) => {
            let name = *name;
            let operand = operand.copy(alloc)?;
            Ok(Doing::Asks(
                Want::Fetch { cell: name.cell },
                Next::Extend { row, name, operand },
            ))
        }
        ValueNode::Plain(Plain::Nil) => Ok(Doing::Meets(FaultKind::Nil)),
        _ => Ok(Doing::Meets(FaultKind::Kind)),
    }
}

/// An operator that is combined with assignation, on a name and another operand that is to be a text.
pub fn updating_text(
    alloc: Global,
    row: u32,
    name: &Value,
    operand: &Value,
) -> Result<Doing, NoMemory>
    ensures { IfOk result (λ doing. doing ≡ rowing.updating_text row name.now operand.now) }
{
    if is_unset(name) || is_unset(operand) {
        return Ok(Doing::Meets(FaultKind::Unset));
    }
    if !is_text(operand) {
        return Ok(Doing::Meets(FaultKind::Kind));
    }
    let doing = extending(alloc, row, name, operand)?;
    Ok(doing)
}

// The steps of fetching a text, and of giving its name what the operator makes of it.
fn extended(
    alloc: Global,
    modes: &Modes,
    row: u32,
    name: Name,
    operand: Value,
    descriptor: &Descriptor,
    cells: &[u32],
    width: u32,
) -> Result<Doing, NoMemory>
    requires width { width ≡ widths.cells_of modes.now 3 }
    requires room { All (λ cell. cell + width ≤ most_cells) cells.now }
    ensures { IfOk result (λ doing. doing ≡ rowing.extended modes.now row name operand (views.bounds_of descriptor.now.dims) (Ok cells.now)) }
{
    let bounds = bounds_of(alloc, descriptor.dims.as_slice())?;
    let mut steps = Steps::new(alloc);
    steps.push(Step::Update { row, name, operand })?;
    steps.push(Step::Row {
        bounds,
        count: cells.len(),
    })?;
    fetch_elements(modes, 3, cells, width, &mut steps)?;
    let doing = goes(alloc, modes, steps, Left::new(alloc))?;
    Ok(doing)
}

/// The text that a name has is fetched, and what the operator makes of it and the operand is given to the name.
pub fn extends(
    alloc: Global,
    modes: &Modes,
    row: u32,
    name: Name,
    operand: Value,
    descriptor: &Descriptor,
) -> Result<Doing, NoMemory>
    ensures { IfOk result (λ doing. doing ≡ rowing.extends modes.now row name operand descriptor.now) }
{
    let width = cells_of(modes, 3)?;
    match cells_seen(alloc, descriptor, width) {
        Ok(cells) => {
            let doing = extended(alloc, modes, row, name, operand, descriptor, &cells, width)?;
            Ok(doing)
        }
        Err(LayoutStop::Fault(kind)) => {
            drop(operand);
            Ok(Doing::Meets(kind))
        }
        Err(LayoutStop::NoMemory) => {
            drop(operand);
            Err(NoMemory)
        }
    }
}
