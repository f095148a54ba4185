//! How many bounds a name has.
ghost use Rattle.std.specs.Prelude.{◌≡◌, min, nat_eq};
ghost use Rattle.a68_layout.specs.Rooms as rooms;
ghost use Rattle.a68_layout.specs.Rooms.{needs_within, needs_of_fields};

use crate::measured::Measured;
use a68_modes::{ModeId, Shape};

// Counts the dimensions of the rows of a name of the mode, and tells `most` where they are more. Rows and structures lie
// at most so deep in it.
#[cycle(needs)]
pub fn needs(modes: &Measured, depth: u32, mode: ModeId, most: usize) -> usize
    ensures { result ≡ min most (needs_within depth modes.now mode) }
{
    if let Some(needs) = modes.told(depth, mode) {
        return most.min(needs);
    }
    if depth == 0 {
        return 0;
    }
    if mode >= modes.len() {
        return 0;
    }
    match modes.shape(mode) {
        Shape::Rows { dims, of, .. } => {
            let inner = needs(modes, depth - 1, *of, most);
            most.min(inner.saturating_add(*dims as usize))
        }
        Shape::Struct(fields) => fields_need(modes, depth - 1, &fields.items, most),
        Shape::Same(mode) => needs(modes, depth - 1, *mode, most),
        _ => 0,
    }
}

// Counts the same for all fields.
#[cycle(needs)]
fn fields_need(modes: &Measured, depth: u32, fields: &[(u32, ModeId)], most: usize) -> usize
    ensures { result ≡ min most (needs_of_fields (needs_within depth modes.now) fields.now) }
{
    let mut all = 0;
    for field in fields {
        let one = needs(modes, depth, field.1, most);
        all = most.min(one.saturating_add(all));
    }
    all
}

/// Has a name of the mode so many bounds? It takes no memory.
#[tactic(auto, unfolding(crate::specs::Rooms::bounds_needed))]
pub fn takes_bounds(modes: &Measured, mode: ModeId, count: usize) -> bool
    ensures { result ≡ nat_eq count (rooms.bounds_needed modes.now mode) }
{
    let half = count / 2;
    count % 2 == 0 && needs(modes, modes.len(), mode, half + 1) == half
}
