//! New rows.
ghost use Rattle.std.specs.Prelude.{◌≡◌, ◌+◌, ◌*◌, ◌≤◌, Ok, Err, IfOk, IsErrOf, nat_eq, if◌then◌else◌};
ghost use Rattle.a68_layout.specs.Stretches.{capped};
ghost use Rattle.a68_layout.specs.Views as views;
ghost use Rattle.a68_layout.specs.Widths.{elements_of, most_cells, strides};
ghost use Rattle.a68_values.specs.declared.act.FaultKind.{FaultKind};

use crate::LayoutStop;
use crate::extents::{BEYOND, elements, extent};
use a68_base::{MOST_COUNTED, NoMemory};
use a68_values::{Bounds, Descriptor, Dim, Dims, FaultKind};
use smallvec::SmallVec;
use std::alloc::Global;

// Lists the dimensions of a row whose elements take so many cells each.
fn new_dims(alloc: Global, width: u32, bounds: &[(i64, i64)]) -> Result<SmallVec<Dim, 2>, NoMemory>
    requires few { width * elements_of bounds.now ≤ most_cells }
    requires none { elements_of bounds.now ≡ 0 → width ≡ 0 }
    ensures { IfOk result (λ dims. dims.items ≡ strides width bounds.now) }
{
    let most = BEYOND as u64;
    let mut stride = (elements(bounds, most) * width as u64) as u32;
    let mut dims = SmallVec::new(alloc);
    for (lower, upper) in bounds {
        let (lower, upper) = (*lower, *upper);
        let count = extent(lower, upper, most) as u32;
        stride = stride / count.max(1);
        dims.push(Dim {
            lower,
            upper,
            stride,
        })?;
    }
    Ok(dims)
}

// Finds the cell behind the elements of a row that begin at this cell; one more than there may be where that is above.
pub fn behind_row(base: u32, width: u32, bounds: &[(i64, i64)]) -> u32
    ensures { result ≡ capped (base + width * elements_of bounds.now) }
{
    let most = BEYOND as u64;
    let cells = elements(bounds, most) * width as u64;
    most.min(base as u64 + cells) as u32
}

// Tells how many cells each element takes; none where there is no element.
fn width_of(width: u32, bounds: &[(i64, i64)]) -> u32
    ensures { result ≡ (if nat_eq (elements_of bounds.now) 0 then 0 else width) }
{
    if elements(bounds, 1) == 0 { 0 } else { width }
}

// Makes the row with these bounds whose elements begin at this cell.
#[tactic(auto, unfolding(crate::specs::Views::new_row))]
pub fn row_in(
    alloc: Global,
    base: u32,
    width: u32,
    bounds: &[(i64, i64)],
) -> Result<Descriptor, LayoutStop>
    ensures row { IfOk result (λ row. Ok row ≡ views.new_row base width bounds.now) }
    ensures fault { (kind : FaultKind) → IsErrOf result (LayoutStop.Fault kind) → Err kind ≡ views.new_row base width bounds.now }
{
    if behind_row(base, width, bounds) > MOST_COUNTED {
        return Err(LayoutStop::Fault(FaultKind::Cells));
    }
    let dims = new_dims(alloc, width_of(width, bounds), bounds)?;
    Ok(Descriptor {
        base,
        dims: Dims::of(alloc, dims.as_slice())?,
    })
}

/// The row with these bounds whose elements, of so many cells each, begin at this cell. The fault Cells comes exactly
/// where they end above the cells that there may be.
pub fn new_row(
    alloc: Global,
    base: u32,
    width: u32,
    bounds: &Bounds,
) -> Result<Descriptor, LayoutStop>
    ensures row { IfOk result (λ row. Ok row ≡ views.new_row base width bounds.now) }
    ensures fault { (kind : FaultKind) → IsErrOf result (LayoutStop.Fault kind) → Err kind ≡ views.new_row base width bounds.now }
{
    let row = row_in(alloc, base, width, bounds.as_slice())?;
    Ok(row)
}
