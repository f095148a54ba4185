//! What a subscript or a trimmer takes of a dimension.
ghost use Rattle.std.specs.Prelude.{◌≡◌, ◌+◌, ◌+ℤ◌, ◌-ℤ◌, int_lt, true, false, if◌then◌else◌, MatchOption};
ghost use Rattle.a68_layout.specs.Stretches.{capped, stretch, subscript};
ghost use Rattle.a68_layout.specs.Views as views;
ghost use Rattle.a68_ops.specs.Yields.{is_int};

use crate::Trim;
use crate::extents::BEYOND;
use a68_values::{Dim, FaultKind};

// What is taken of a dimension: the cell where it begins, and the dimension that stays, if one does.
#[derive(Clone, Copy)]
pub struct Stretch {
    pub cell: u32,
    pub dim: Option<Dim>,
}

// Finds the cell of an element of a dimension whose first element is in this cell; one more than there may be where it
// is more.
fn cell_behind(cell: u32, dim: &Dim, at: i64) -> u32
    ensures { result ≡ capped (cell + views.behind dim.now at) }
{
    let skipped = at.abs_diff(dim.lower).saturating_mul(dim.stride as u64);
    let found = skipped.saturating_add(cell as u64);
    found.min(BEYOND as u64) as u32
}

// Finds the cell of an element of a dimension. The fault Bounds comes where it has no such element.
pub fn subscripted(dim: &Dim, at: i64, cell: u32) -> Result<u32, FaultKind>
    ensures { result ≡ subscript cell dim.now at }
{
    if at < dim.lower || dim.upper < at {
        return Err(FaultKind::Bounds);
    }
    let cell = cell_behind(cell, dim, at);
    Ok(cell)
}

// Finds the upper bound of as many elements as lie from one bound to another, from the new lower bound `first` on; none
// where that is no INT.
fn last_from(first: i64, lower: i64, upper: i64) -> Option<i64>
    ensures { MatchOption result (is_int (first +ℤ (upper -ℤ lower)) ≡ false)
        (λ last. (is_int (first +ℤ (upper -ℤ lower)) ≡ true) × (last ≡ first +ℤ (upper -ℤ lower))) }
{
    let last = first as i128 + (upper as i128 - lower as i128);
    if last <= i64::MIN as i128 || last > i64::MAX as i128 {
        return None;
    }
    Some(last as i64)
}

// Tests whether the part is not empty, and not within the bounds.
fn leaves(dim: &Dim, lower: i64, upper: i64) -> bool
    ensures { result ≡ views.leaves dim.now lower upper }
{
    !(upper < lower) && (lower < dim.lower || dim.upper < upper)
}

// Finds the cell where the part begins. An empty part begins where the dimension does.
fn begin(dim: &Dim, lower: i64, upper: i64, cell: u32) -> u32
    ensures { result ≡ capped (cell + (if int_lt upper lower then 0 else views.behind dim.now lower)) }
{
    if upper < lower {
        BEYOND.min(cell)
    } else {
        cell_behind(cell, dim, lower)
    }
}

// Takes the part of a dimension from `lower` to `upper`, with the new lower bound `first`.
fn trimmed(dim: &Dim, lower: i64, upper: i64, first: i64, cell: u32) -> Result<Stretch, FaultKind>
    ensures { result ≡ stretch cell (views.trimmed dim.now lower upper first) }
{
    if leaves(dim, lower, upper) {
        return Err(FaultKind::Bounds);
    }
    let Some(last) = last_from(first, lower, upper) else {
        return Err(FaultKind::Bounds);
    };
    let cell = begin(dim, lower, upper, cell);
    let stride = dim.stride;
    let dim = Some(Dim {
        lower: first,
        upper: last,
        stride,
    });
    Ok(Stretch { cell, dim })
}

// Tests whether a trimmer says nothing.
fn says_nothing(lower: Option<i64>, upper: Option<i64>, at: Option<i64>) -> bool
    ensures { result ≡ views.says_nothing lower upper at }
{
    lower.is_none() && upper.is_none() && at.is_none()
}

// Takes what a trimmer says of a bound, or else the own bound.
fn or_own(own: i64, said: Option<i64>) -> i64
    ensures { result ≡ views.or_own own said }
{
    match said {
        Some(bound) => bound,
        None => own,
    }
}

// Takes of a dimension, whose first element is in this cell, what a subscript or a trimmer says.
pub fn taken(dim: &Dim, trim: Trim, cell: u32) -> Result<Stretch, FaultKind>
    ensures { result ≡ stretch cell (views.taken dim.now trim) }
{
    match trim {
        Trim::At(at) => match subscripted(dim, at, cell) {
            Ok(cell) => Ok(Stretch { cell, dim: None }),
            Err(kind) => Err(kind),
        },
        Trim::Part { lower, upper, at } => {
            if says_nothing(lower, upper, at) {
                let cell = BEYOND.min(cell);
                let dim = Some(*dim);
                return Ok(Stretch { cell, dim });
            }
            let lower = or_own(dim.lower, lower);
            let upper = or_own(dim.upper, upper);
            trimmed(dim, lower, upper, or_own(1, at), cell)
        }
    }
}
