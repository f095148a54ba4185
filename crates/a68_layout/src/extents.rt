//! How many elements a row has.
ghost use Rattle.std.specs.Prelude.{◌≡◌, min};
ghost use Rattle.a68_layout.specs.Views.{bounds_of};
ghost use Rattle.a68_layout.specs.Widths as widths;

use a68_base::MOST_COUNTED;
use a68_values::Dim;

// One more cell than there may be: counts of cells stop there.
pub const BEYOND: u32 = MOST_COUNTED + 1;

// Counts the subscripts from a lower bound to an upper one, and tells `most` where they are more.
pub fn extent(lower: i64, upper: i64, most: u64) -> u64
    ensures { result ≡ min most (widths.between lower upper) }
{
    if upper < lower {
        return 0;
    }
    let apart = upper.abs_diff(lower);
    if apart < most { apart + 1 } else { most }
}

// Counts the elements of a row with these bounds, and tells `most` where they are more.
pub fn elements(bounds: &[(i64, i64)], most: u64) -> u64
    ensures { result ≡ min most (widths.elements_of bounds.now) }
{
    let mut count = most.min(1);
    for (lower, upper) in bounds {
        count = most.min(count.saturating_mul(extent(*lower, *upper, most)));
    }
    count
}

// Counts the elements of a row with these dimensions, and tells `most` where they are more.
pub fn elements_seen(dims: &[Dim], most: u64) -> u64
    ensures { result ≡ min most (widths.elements_of (bounds_of dims.now)) }
{
    let mut count = most.min(1);
    for dim in dims {
        count = most.min(count.saturating_mul(extent(dim.lower, dim.upper, most)));
    }
    count
}
