//! The cells of the elements of a row, one by one.
ghost use Rattle.std.specs.List.{All};
ghost use Rattle.std.specs.Prelude.{◌≡◌, ◌≤◌, ◌<◌, ◌+◌, ◌-◌, ◌*◌, ◌++◌, map, take, length, IfOk, OnOk};
ghost use Rattle.a68_layout.specs.Stretches.{capped};
ghost use Rattle.a68_layout.specs.Views as views;
ghost use Rattle.a68_layout.specs.Views.{bounds_of, for_each};
ghost use Rattle.a68_layout.specs.Widths.{between, elements_of, most_cells};

use crate::extents::{BEYOND, extent};
use a68_base::NoMemory;
use a68_values::Dim;
use std::alloc::Global;

// Finds the first cell of the last element of a row that begins at this cell; one more than there may be where it is
// above.
pub fn last_behind(cell: u32, dims: &[Dim]) -> u32
    ensures { result ≡ capped (cell + views.last_offset dims.now) }
{
    let most = BEYOND as u64;
    let mut last = most.min(cell as u64);
    for dim in dims {
        let steps = extent(dim.lower, dim.upper, most + 1).saturating_sub(1);
        last = most.min(last + steps * dim.stride as u64);
    }
    last as u32
}

// Adds the first cells once more, moved by so many cells.
fn add_moved(cells: &mut Vec<u32>, count: usize, by: u32) -> Result<(), NoMemory>
    requires there { count ≤ length cells.old.items }
    requires few { All (λ cell. cell + by ≤ most_cells) (take count cells.old.items) }
    ensures { OnOk result (cells.new.items ≡ cells.old.items ++ map (λ cell. cell + by) (take count cells.old.items)) }
{
    for i in 0..count {
        let cell = cells[i] + by;
        cells.push(cell)?;
    }
    Ok(())
}

// Adds the cells once more for each further element of a dimension.
fn repeat(cells: &mut Vec<u32>, dim: &Dim) -> Result<(), NoMemory>
    requires some { 0 < between dim.now.lower dim.now.upper }
    requires counted { between dim.now.lower dim.now.upper ≤ most_cells }
    requires far { (between dim.now.lower dim.now.upper - 1) * dim.now.stride ≤ most_cells }
    requires few { All (λ cell. cell + (between dim.now.lower dim.now.upper - 1) * dim.now.stride ≤ most_cells) cells.old.items }
    ensures { OnOk result (cells.new.items ≡ for_each 0 (between dim.now.lower dim.now.upper) (λ k. map (λ cell. cell + k * dim.now.stride) cells.old.items)) }
{
    let len = cells.len();
    let count = extent(dim.lower, dim.upper, BEYOND as u64) as u32;
    for k in 1..count {
        let by = k * dim.stride;
        add_moved(cells, len, by)?;
    }
    Ok(())
}

// Lists the first cells of the elements, of which there are so many, the last subscript running fastest: those of the
// last dimension first, and these once more for each further element of the one before it.
pub fn spread(alloc: Global, dims: &[Dim], base: u32, count: usize) -> Result<Vec<u32>, NoMemory>
    requires some { 0 < elements_of (bounds_of dims.now) }
    requires counted { elements_of (bounds_of dims.now) ≤ most_cells }
    requires few { base + views.last_offset dims.now ≤ most_cells }
    ensures { IfOk result (λ cells. cells.items ≡ views.element_cells dims.now base) }
{
    let mut cells = Vec::with_capacity(alloc, count)?;
    cells.push(base)?;
    let mut at = dims.len();
    while at > 0 {
        at -= 1;
        repeat(&mut cells, &dims[at])?;
    }
    Ok(cells)
}
