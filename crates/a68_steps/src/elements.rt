//! The elements of rows, fetched and assigned in order.
ghost use Rattle.std.specs.Prelude.{◌≡◌, ◌≤◌, ◌+◌, List, Ok, IfOk};
ghost use Rattle.std.specs.List.{All};
ghost use Rattle.a68_acts.specs.Steps as spec;
ghost use Rattle.a68_acts.specs.Steps.{then_goes};
ghost use Rattle.a68_layout.specs.Views as views;
ghost use Rattle.a68_layout.specs.Widths as widths;
ghost use Rattle.a68_layout.specs.Widths.{most_cells};
ghost use Rattle.a68_values.specs.Content.{Content};

use crate::fetching::{assign_elements, fetch_elements};
use a68_acts::{Reply, Step, Steps};
use a68_base::NoMemory;
use a68_layout::{LayoutStop, cells_of, cells_seen, new_row};
use a68_modes::{ModeId, Modes};
use a68_values::{Bounds, Descriptor, Dim, Elements, FaultKind, Held};
use std::alloc::Global;

/// The bounds of a row in the store.
pub fn bounds_of(alloc: Global, dims: &[Dim]) -> Result<Bounds, NoMemory>
    ensures { IfOk result (λ bounds. bounds ≡ views.bounds_of dims.now) }
{
    let mut items = Vec::with_capacity(alloc, dims.len())?;
    for dim in dims {
        items.push((dim.lower, dim.upper))?;
    }
    Ok(Bounds::of(items))
}

/// Are these the same bounds?
pub fn same_bounds(some: &[(i64, i64)], others: &[(i64, i64)]) -> bool
    ensures { result ≡ spec.same_bounds some.now others.now }
{
    some == others
}

// The steps of fetching a row's elements and of making the row of them, put in front of the steps; or the fault that is
// met.
pub fn fetches_row(
    alloc: Global,
    modes: &Modes,
    of: ModeId,
    descriptor: &Descriptor,
    steps: &mut Steps,
) -> Result<Option<FaultKind>, NoMemory>
    ensures { (left : List Content) → IfOk result (λ why. then_goes why modes.now steps.new left
        ≡ spec.fetches_row modes.now of (views.bounds_of descriptor.now.dims) (views.cells_seen descriptor.now (widths.cells_of modes.now of)) steps.old left) }
{
    let width = cells_of(modes, of)?;
    match cells_seen(alloc, descriptor, width) {
        Ok(cells) => {
            let bounds = bounds_of(alloc, descriptor.dims.as_slice())?;
            steps.push(Step::Row {
                bounds,
                count: cells.len(),
            })?;
            fetch_elements(modes, of, &cells, width, steps)?;
            Ok(None)
        }
        Err(LayoutStop::Fault(kind)) => Ok(Some(kind)),
        Err(LayoutStop::NoMemory) => Err(NoMemory),
    }
}

// The steps of assigning a row's elements, whose first cells these are, put in front of the steps; or the fault that is
// met.
fn assigns_elements(
    alloc: Global,
    modes: &Modes,
    of: ModeId,
    cells: &[u32],
    width: u32,
    parts: Elements,
    steps: &mut Steps,
) -> Result<Option<FaultKind>, NoMemory>
    requires width { width ≡ widths.cells_of modes.now of }
    requires room { All (λ cell. cell + width ≤ most_cells) cells.now }
    ensures { (left : List Content) → IfOk result (λ why. then_goes why modes.now steps.new left
        ≡ spec.assigns_elements modes.now of (Ok cells.now) parts steps.old left) }
{
    if cells.len() != parts.as_slice().len() {
        drop(parts);
        return Ok(Some(FaultKind::Kind));
    }
    let parts = parts.into_values(alloc)?;
    assign_elements(modes, of, cells, width, parts, steps)?;
    Ok(None)
}

// The same of a row that is not flexible, which takes a row of its own bounds alone.
fn assigns_row(
    alloc: Global,
    modes: &Modes,
    of: ModeId,
    descriptor: &Descriptor,
    bounds: &Bounds,
    parts: Elements,
    steps: &mut Steps,
) -> Result<Option<FaultKind>, NoMemory>
    ensures { (left : List Content) → IfOk result (λ why. then_goes why modes.now steps.new left
        ≡ spec.assigns_row modes.now of descriptor.now bounds.now parts steps.old left) }
{
    let own = bounds_of(alloc, descriptor.dims.as_slice())?;
    if !same_bounds(own.as_slice(), bounds.as_slice()) {
        drop(parts);
        return Ok(Some(FaultKind::Bounds));
    }
    let width = cells_of(modes, of)?;
    match cells_seen(alloc, descriptor, width) {
        Ok(cells) => {
            let why = assigns_elements(alloc, modes, of, &cells, width, parts, steps)?;
            Ok(why)
        }
        Err(LayoutStop::Fault(kind)) => {
            drop(parts);
            Ok(Some(kind))
        }
        Err(LayoutStop::NoMemory) => {
            drop(parts);
            Err(NoMemory)
        }
    }
}

// The same of the new elements of a flexible row, and behind them that of its descriptor.
fn assigns_new(
    alloc: Global,
    modes: &Modes,
    of: ModeId,
    cell: u32,
    descriptor: Descriptor,
    parts: Elements,
    steps: &mut Steps,
) -> Result<Option<FaultKind>, NoMemory>
    ensures { (left : List Content) → IfOk result (λ why. then_goes why modes.now steps.new left
        ≡ spec.assigns_new modes.now of cell (Ok descriptor) parts steps.old left) }
{
    let width = cells_of(modes, of)?;
    match cells_seen(alloc, &descriptor, width) {
        Ok(cells) => {
            let held = Held::Rows(descriptor);
            steps.push(Step::Assign { cell, held })?;
            let met = assigns_elements(alloc, modes, of, &cells, width, parts, steps)?;
            Ok(met)
        }
        Err(LayoutStop::Fault(kind)) => {
            drop(parts);
            drop(descriptor);
            Ok(Some(kind))
        }
        Err(LayoutStop::NoMemory) => {
            drop(parts);
            drop(descriptor);
            Err(NoMemory)
        }
    }
}

// The same where the new elements begin at this cell.
fn assigns_from(
    alloc: Global,
    modes: &Modes,
    of: ModeId,
    cell: u32,
    base: u32,
    bounds: &Bounds,
    parts: Elements,
    steps: &mut Steps,
) -> Result<Option<FaultKind>, NoMemory>
    ensures { (left : List Content) → IfOk result (λ why. then_goes why modes.now steps.new left
        ≡ spec.assigns_new modes.now of cell (views.new_row base (widths.cells_of modes.now of) bounds.now) parts steps.old left) }
{
    let width = cells_of(modes, of)?;
    match new_row(alloc, base, width, bounds) {
        Ok(descriptor) => {
            let why = assigns_new(alloc, modes, of, cell, descriptor, parts, steps)?;
            Ok(why)
        }
        Err(LayoutStop::Fault(kind)) => {
            drop(parts);
            Ok(Some(kind))
        }
        Err(LayoutStop::NoMemory) => {
            drop(parts);
            Err(NoMemory)
        }
    }
}

/// How the assignation of a row goes on with the reply to its act: the steps that are put in front of the steps, or the
/// fault that is met.
pub fn assigns(
    alloc: Global,
    modes: &Modes,
    of: ModeId,
    flex: bool,
    cell: u32,
    bounds: Bounds,
    parts: Elements,
    reply: Reply,
    steps: &mut Steps,
) -> Result<Option<FaultKind>, NoMemory>
    ensures { (left : List Content) → IfOk result (λ why. then_goes why modes.now steps.new left
        ≡ spec.assigns modes.now of flex cell bounds parts reply steps.old left) }
{
    match reply {
        Reply::Held(Held::Rows(descriptor)) if !flex => {
            let why = assigns_row(alloc, modes, of, &descriptor, &bounds, parts, steps);
            drop(descriptor);
            drop(bounds);
            why
        }
        Reply::Base(base) if flex => {
            let why = assigns_from(alloc, modes, of, cell, base, &bounds, parts, steps);
            drop(bounds);
            why
        }
        reply => {
            drop(reply);
            drop(bounds);
            drop(parts);
            Ok(Some(FaultKind::Kind))
        }
    }
}
