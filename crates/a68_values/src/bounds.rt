//! The bounds of rows.
ghost use Rattle.std.specs.Prelude.{◌≡◌, ◌<◌, ◌≤◌, ◌-◌, ◌∷◌, length, drop, IfOk};

use a68_base::NoMemory;
use std::alloc::Global;
use std::marker::Model;

/// A lower and an upper bound for each dimension of a row.
// There may be free places in front of the bounds, so that a value that is made a row again and again, with a dimension
// more in front each time, does not have its bounds copied each time.
pub struct Bounds {
    items: Vec<(i64, i64)>,
    // So many places in front are free.
    free: usize,
}

impl Drop for Bounds {
    fn drop(self) {
        let Bounds { items: _, free: _ } = self;
    }
}

impl Model for Bounds {
    ghost use Rattle.std.specs.Prelude.{List, ℤ, drop};

    ghost Value = { List (ℤ × ℤ) };

    ghost view = { λ bounds. drop bounds.free bounds.items.items };
}

// Puts a bound into the last of the free places, of which there is one at least.
fn put_front(items: &mut [(i64, i64)], free: usize, bound: (i64, i64))
    requires room { 0 < free }
    requires within { free ≤ length items.old }
    ensures { drop (free - 1) items.new ≡ bound ∷ drop free items.old }
{
    items[free - 1] = bound;
}

// These bounds behind as many free places and one more.
fn with_room(alloc: Global, bounds: &[(i64, i64)]) -> Result<Vec<(i64, i64)>, NoMemory>
    ensures within { IfOk result (λ items. length bounds.now < length items.items) }
    ensures bounds { IfOk result (λ items. drop (length items.items - length bounds.now) items.items ≡ bounds.now) }
{
    let count = bounds.len() + 1;
    let mut items = Vec::with_capacity(alloc, count)?;
    items.resize(count, (1, 1))?;
    items.extend_from_slice(bounds)?;
    Ok(items)
}

impl Bounds {
    /// These bounds, from the first dimension to the last.
    pub fn of(items: Vec<(i64, i64)>) -> Bounds
        ensures { result ≡ items.items }
    {
        Bounds { items, free: 0 }
    }

    /// The bounds.
    #[inline(always)]
    pub fn as_slice(&self) -> &[(i64, i64)]
        ensures { result.now ≡ self.now }
    {
        self.items.get(self.free..).unwrap_or_default()
    }

    /// Equal bounds.
    pub fn copy(&self, alloc: Global) -> Result<Bounds, NoMemory>
        ensures { IfOk result (λ bounds. bounds ≡ self.now) }
    {
        let items = Vec::from_slice(alloc, self.as_slice())?;
        Ok(Bounds::of(items))
    }

    /// The same bounds behind one more. Many of them in turn take a time that grows straight with their number.
    pub fn with_front(self, alloc: Global, bound: (i64, i64)) -> Result<Bounds, NoMemory>
        ensures { IfOk result (λ bounds. bounds ≡ bound ∷ self) }
    {
        let Bounds { items, free } = self;
        let bounds = behind(alloc, bound, items, free)?;
        Ok(bounds)
    }
}

// The bounds behind the free places, behind one more.
fn behind(
    alloc: Global,
    bound: (i64, i64),
    items: Vec<(i64, i64)>,
    free: usize,
) -> Result<Bounds, NoMemory>
    ensures { IfOk result (λ bounds. bounds ≡ bound ∷ drop free items.items) }
{
    let mut items = items;
    if free > 0 && free <= items.len() {
        put_front(&mut items, free, bound);
        let free = free - 1;
        return Ok(Bounds { items, free });
    }
    let bounds = items.get(free..).unwrap_or_default();
    let mut roomy = with_room(alloc, bounds)?;
    let free = roomy.len() - bounds.len();
    put_front(&mut roomy, free, bound);
    Ok(Bounds {
        items: roomy,
        free: free - 1,
    })
}
