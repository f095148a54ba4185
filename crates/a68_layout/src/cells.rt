//! How many cells a mode takes.
ghost use Rattle.std.specs.Prelude.{◌≡◌, ◌≤◌, ◌<◌, ◌+◌, length, min, take, IfOk, MatchOption};
ghost use Rattle.a68_layout.specs.Widths as widths;
ghost use Rattle.a68_layout.specs.Widths.{most_cells, width_of, width_within, width_of_fields};
ghost use Rattle.a68_modes.specs.Nodes.{shape_at};

use a68_base::{MOST_COUNTED, NoMemory};
use a68_modes::{Fields, ModeId, Modes, Shape};

// Counts on from a number by the cells of a value of a mode, up to one more than there may be. Structures lie at most
// so deep in it.
#[cycle(width)]
fn count_on(modes: &Modes, depth: u32, mode: ModeId, counted: u32) -> u32
    requires { counted ≤ most_cells + 1 }
    ensures { result ≡ min (most_cells + 1) (counted + width_within depth modes.now mode) }
{
    if counted > MOST_COUNTED {
        return counted;
    }
    if depth == 0 {
        return counted + 1;
    }
    if mode >= modes.len() {
        return counted + 1;
    }
    match modes.shape(mode) {
        Shape::Struct(fields) => count_fields(modes, depth - 1, &fields.items, counted),
        Shape::Same(mode) => count_on(modes, depth - 1, *mode, counted),
        _ => counted + 1,
    }
}

#[cycle(width)]
fn count_fields(modes: &Modes, depth: u32, fields: &[(u32, ModeId)], counted: u32) -> u32
    requires { counted ≤ most_cells + 1 }
    ensures { result ≡ min (most_cells + 1) (counted + width_of_fields (width_within depth modes.now) fields.now) }
{
    let mut counted = counted;
    for field in fields {
        counted = count_on(modes, depth, field.1, counted);
    }
    counted
}

// The cells of a value of the mode, and one more than there may be where they are more.
#[tactic(auto, unfolding(crate::specs::Widths::cells_of))]
pub fn width(modes: &Modes, mode: ModeId) -> u32
    ensures { result ≡ widths.cells_of modes.now mode }
{
    count_on(modes, modes.len(), mode, 0)
}

/// How many cells a structure of these fields has before one of them, or before its end; one more than there may be where they are more.
/// It takes no memory, and where the modes are laid out no time that grows with the fields.
pub fn cells_before(modes: &Modes, structure: ModeId, fields: &Fields, field: usize) -> u32
    requires structure { shape_at modes.now structure ≡ Shape.Struct fields.now }
    requires there { field ≤ length fields.now }
    ensures { result ≡ min (most_cells + 1) (width_of_fields (width_of modes.now) (take field fields.now)) }
{
    match modes.cells_before(structure, field) {
        Some(cells) => cells,
        None => fields_width(modes, modes.len(), &fields.items[..field]),
    }
}

/// How many cells values of the modes of these fields take together, and one more than there may be where they are more.
/// Structures are looked at down to this depth. It takes no memory.
pub fn fields_width(modes: &Modes, depth: u32, fields: &[(u32, ModeId)]) -> u32
    ensures { result ≡ min (most_cells + 1) (width_of_fields (width_within depth modes.now) fields.now) }
{
    count_fields(modes, depth, fields, 0)
}

/// The cell behind those of a value of the mode that begins at this cell; none where that is above the most cells that
/// there may be. It takes no memory.
#[tactic(auto, unfolding(crate::specs::Widths::cells_of))]
pub fn end_of(modes: &Modes, mode: ModeId, cell: u32) -> Option<u32>
    ensures { MatchOption result (most_cells < cell + widths.cells_of modes.now mode)
        (λ end. (cell + widths.cells_of modes.now mode ≤ most_cells) × (end ≤ most_cells) × (end ≡ cell + widths.width_of modes.now mode)) }
{
    let width = width(modes, mode);
    if cell > MOST_COUNTED || width > MOST_COUNTED - cell {
        return None;
    }
    Some(cell + width)
}

/// How many cells a value of the mode takes as a part of another; one more than there may be where it is more. It takes
/// no memory.
pub fn cells_of(modes: &Modes, mode: ModeId) -> Result<u32, NoMemory>
    ensures { IfOk result (λ width. width ≡ widths.cells_of modes.now mode) }
{
    let width = width(modes, mode);
    Ok(width)
}
