//! Elements and parts of rows.
ghost use Rattle.std.specs.List.{All};
ghost use Rattle.std.specs.Option.{option_to_list};
ghost use Rattle.std.specs.Prelude.{◌≡◌, ◌+◌, ◌≤◌, ◌<◌, map, ◌++◌, Ok, Err, IfOk, OnOk, IsErrOf};
ghost use Rattle.a68_values.specs.declared.act.FaultKind.{FaultKind};
ghost use Rattle.a68_layout.specs.Stretches.{found, joined};
ghost use Rattle.a68_layout.specs.Views as views;
ghost use Rattle.a68_layout.specs.Views.{bounds_of};
ghost use Rattle.a68_layout.specs.Widths.{elements_of, most_cells};
ghost use Rattle.a68_layout.specs.declared.types.Trim.TheVariants.{At};

use crate::extents::{BEYOND, elements_seen};
use crate::picking::{is_filled, part_seen, parts_at};
use crate::spreading::{last_behind, spread};
use crate::stretches::{subscripted, taken};
use crate::{LayoutStop, Trim, new_row};
use a68_base::{MOST_COUNTED, NoMemory};
use a68_values::{Bounds, Descriptor, Dim, Dims, FaultKind, Value};
use smallvec::SmallVec;
use std::alloc::Global;

// Adds a dimension that stays.
fn keep(kept: &mut SmallVec<Dim, 2>, dim: Option<Dim>) -> Result<(), NoMemory>
    ensures { OnOk result (kept.new.items ≡ kept.old.items ++ option_to_list dim) }
{
    if let Some(dim) = dim {
        kept.push(dim)?;
    }
    Ok(())
}

// Adds the dimensions that stay, and finds the cell where the part begins.
fn seen(
    dims: &[Dim],
    trims: &[Trim],
    cell: u32,
    kept: &mut SmallVec<Dim, 2>,
) -> Result<u32, LayoutStop>
    ensures part { IfOk result (λ found. Ok (found, kept.new.items) ≡ joined cell kept.old.items (views.seen_from dims.now trims.now)) }
    ensures fault { (kind : FaultKind) → IsErrOf result (LayoutStop.Fault kind) → Err kind ≡ joined cell kept.old.items (views.seen_from dims.now trims.now) }
{
    let mut cell = BEYOND.min(cell);
    for (i, dim) in dims.iter().enumerate() {
        if i >= trims.len() {
            return Err(LayoutStop::Fault(FaultKind::Kind));
        }
        let stretch = taken(dim, trims[i], cell)?;
        keep(kept, stretch.dim)?;
        cell = stretch.cell;
    }
    if dims.len() < trims.len() {
        return Err(LayoutStop::Fault(FaultKind::Kind));
    }
    Ok(cell)
}

/// The part of a row in the store that a subscript or trimmer for each dimension tells. The fault Bounds comes exactly
/// where one of them is outside, Kind where there is another number of them, and Cells where the part would begin above
/// the cells that there may be.
#[tactic(auto, unfolding(crate::specs::Views::view))]
pub fn view(
    alloc: Global,
    descriptor: &Descriptor,
    trims: &[Trim],
) -> Result<Descriptor, LayoutStop>
    ensures part { IfOk result (λ part. Ok part ≡ views.view descriptor.now trims.now) }
    ensures fault { (kind : FaultKind) → IsErrOf result (LayoutStop.Fault kind) → Err kind ≡ views.view descriptor.now trims.now }
{
    let mut dims = SmallVec::new(alloc);
    let base = seen(
        descriptor.dims.as_slice(),
        trims,
        descriptor.base,
        &mut dims,
    )?;
    if base > MOST_COUNTED {
        return Err(LayoutStop::Fault(FaultKind::Cells));
    }
    Ok(Descriptor {
        base,
        dims: Dims::of(alloc, dims.as_slice())?,
    })
}

// Finds the first cell of an element of a row that begins at this cell.
fn found(dims: &[Dim], at: &[i64], cell: u32) -> Result<u32, FaultKind>
    ensures { result ≡ found cell (views.seen_from dims.now (map (λ i. At i) at.now)) }
{
    let mut cell = BEYOND.min(cell);
    for (i, dim) in dims.iter().enumerate() {
        if i >= at.len() {
            return Err(FaultKind::Kind);
        }
        cell = subscripted(dim, at[i], cell)?;
    }
    if dims.len() < at.len() {
        return Err(FaultKind::Kind);
    }
    if cell > MOST_COUNTED {
        return Err(FaultKind::Cells);
    }
    Ok(cell)
}

/// The first cell of an element of a row in the store, by a subscript for each dimension. The fault Bounds comes exactly
/// where one of them is outside, Kind where there is another number of them, and Cells where the cell would lie above
/// those that there may be. It takes no memory.
#[tactic(auto, using(crate::proofs::Seeing::first_found), unfolding(crate::specs::Views::element, crate::specs::Views::view))]
pub fn element(descriptor: &Descriptor, at: &[i64]) -> Result<u32, FaultKind>
    ensures { result ≡ views.element descriptor.now at.now }
{
    found(descriptor.dims.as_slice(), at, descriptor.base)
}

// Tests whether the cells of the elements are none that there may be.
fn is_beyond(descriptor: &Descriptor, width: u32) -> bool
    ensures { result ≡ views.is_beyond descriptor.now width }
{
    let most = MOST_COUNTED as u64;
    let count = elements_seen(descriptor.dims.as_slice(), most + 1);
    if count > most {
        return true;
    }
    if count == 0 {
        return false;
    }
    let last = last_behind(descriptor.base, descriptor.dims.as_slice());
    last as u64 + width as u64 > most
}

// Lists the first cells of all elements, of which there are not too many.
fn all_cells(alloc: Global, dims: &[Dim], base: u32) -> Result<Vec<u32>, NoMemory>
    requires counted { elements_of (bounds_of dims.now) ≤ most_cells }
    requires few { 0 < elements_of (bounds_of dims.now) → base + views.last_offset dims.now ≤ most_cells }
    ensures { IfOk result (λ cells. cells.items ≡ views.element_cells dims.now base) }
{
    let count = elements_seen(dims, BEYOND as u64) as usize;
    if count == 0 {
        return Ok(Vec::new(alloc));
    }
    let cells = spread(alloc, dims, base, count)?;
    Ok(cells)
}

/// The first cells of the elements of a row, each of which takes so many cells, the last subscript running fastest. The
/// fault Cells comes exactly where these are not cells that there may be.
#[tactic(auto, unfolding(crate::specs::Views::cells_seen))]
pub fn cells_seen(
    alloc: Global,
    descriptor: &Descriptor,
    width: u32,
) -> Result<Vec<u32>, LayoutStop>
    ensures cells { IfOk result (λ cells. Ok cells.items ≡ views.cells_seen descriptor.now width) }
    ensures room { IfOk result (λ cells. All (λ cell. cell + width ≤ most_cells) cells.items) }
    ensures fault { (kind : FaultKind) → IsErrOf result (LayoutStop.Fault kind) → Err kind ≡ views.cells_seen descriptor.now width }
{
    if is_beyond(descriptor, width) {
        return Err(LayoutStop::Fault(FaultKind::Cells));
    }
    let cells = all_cells(alloc, descriptor.dims.as_slice(), descriptor.base)?;
    Ok(cells)
}

// Picks the element or the part of a row whose elements are reckoned to lie in cells from 0 on.
fn picked(
    alloc: Global,
    row: &Descriptor,
    parts: &[Value],
    trims: &[Trim],
) -> Result<Value, LayoutStop>
    ensures part { IfOk result (λ part. Ok part ≡ views.part_by parts.now (views.view row.now trims.now)) }
    ensures fault { (kind : FaultKind) → IsErrOf result (LayoutStop.Fault kind) → Err kind ≡ views.part_by parts.now (views.view row.now trims.now) }
{
    let seen = view(alloc, row, trims)?;
    let cells = cells_seen(alloc, &seen, 1)?;
    let picked = parts_at(alloc, parts, &cells)?;
    let part = part_seen(alloc, seen.dims.as_slice(), picked)?;
    Ok(part)
}

/// The element or the part of a row, with these bounds and elements, that a subscript or trimmer for each dimension tells.
/// The fault Bounds comes exactly where one of them is outside, and Kind where there is another number of them or the
/// elements are not as many as the bounds say.
#[tactic(auto, unfolding(crate::specs::Views::part_of))]
pub fn part_of(
    alloc: Global,
    bounds: &Bounds,
    parts: &[Value],
    trims: &[Trim],
) -> Result<Value, LayoutStop>
    ensures part { IfOk result (λ part. Ok part ≡ views.part_of bounds.now parts.now trims.now) }
    ensures fault { (kind : FaultKind) → IsErrOf result (LayoutStop.Fault kind) → Err kind ≡ views.part_of bounds.now parts.now trims.now }
{
    if !is_filled(bounds.as_slice(), parts.len()) {
        return Err(LayoutStop::Fault(FaultKind::Kind));
    }
    let row = new_row(alloc, 0, 1, bounds)?;
    let part = picked(alloc, &row, parts, trims)?;
    Ok(part)
}
