//! How many cells values of modes take, and where the fields of structures lie. What is known is kept, so that no structure is walked
//! through again, however many fields it has and however many structures lie within it.
ghost use Rattle.std.specs.Prelude.{◌≡◌, ◌≤◌, ◌<◌, ◌+◌, ℕ, None, min, length, get_or, replicate, take, IfOk, IfSome, OnOk};
ghost use Rattle.a68_modes.specs.Known.{AreAllStarts, AreKnown, AreStarts, IsKnown, own_fields};
ghost use Rattle.a68_modes.specs.Nodes.{shape_at};
ghost use Rattle.a68_modes.specs.Widths.{most_cells, width_of_fields, width_within};

use crate::order::inner_first;
use crate::{ModeId, Modes, Shape};
use a68_base::{MOST_COUNTED, NoMemory};
use std::alloc::Global;

/// What is known of a mode: how deep structures lie in it at most, and how many cells a value of it takes, up to one more than there
/// may be.
#[derive(Clone, Copy)]
pub struct Width {
    pub depth: u32,
    pub cells: u32,
}

/// How many cells lie before each field of a structure, and before its end, up to one more than there may be; nothing of another mode,
/// or where it is not known.
#[derive(Drop)]
pub struct Starts {
    pub cells: Vec<u32>,
}

// So many cells and so many more, up to one more than there may be.
fn add(some: u32, more: u32) -> u32
    requires some { some ≤ most_cells + 1 }
    requires more { more ≤ most_cells + 1 }
    ensures { result ≡ min (most_cells + 1) (some + more) }
{
    (some + more).min(MOST_COUNTED + 1)
}

// What is known of a mode of which values are made of no others.
fn single(shapes: &[Shape], mode: ModeId) -> Option<Width>
    ensures { IfSome result (IsKnown shapes.now mode) }
{
    if mode as usize >= shapes.len() {
        return Some(Width { depth: 0, cells: 1 });
    }
    match &shapes[mode as usize] {
        Shape::Struct(_) => None,
        Shape::Same(_) => None,
        _ => Some(Width { depth: 0, cells: 1 }),
    }
}

// What is kept of a mode.
fn kept(known: &[Option<Width>], mode: ModeId) -> Option<Width>
    ensures { result ≡ get_or known.now mode None }
{
    let at = mode as usize;
    if at < known.len() { known[at] } else { None }
}

// What is known of a mode.
fn known_of(shapes: &[Shape], known: &[Option<Width>], mode: ModeId) -> Option<Width>
    requires { AreKnown shapes.now known.now }
    ensures { IfSome result (IsKnown shapes.now mode) }
{
    let found = kept(known, mode);
    if found.is_some() {
        return found;
    }
    single(shapes, mode)
}

// What is known of what a mode is around, by what is known of that.
fn around(inner: Width) -> Option<Width>
    ensures { IfSome result (λ known. (known.depth ≡ inner.depth + 1) × (known.cells ≡ inner.cells)) }
{
    let depth = inner.depth.checked_add(1)?;
    Some(Width {
        depth,
        cells: inner.cells,
    })
}

// What is known of a structure, where all is known of its fields.
fn fields_known(
    shapes: &[Shape],
    known: &[Option<Width>],
    fields: &[(u32, ModeId)],
) -> Option<Width>
    requires { AreKnown shapes.now known.now }
    ensures { IfSome result (λ all. (n : ℕ) → all.depth ≤ n → all.cells ≡ min (most_cells + 1) (width_of_fields (width_within n shapes.now) fields.now)) }
{
    let mut all = Width { depth: 0, cells: 0 };
    for field in fields {
        let Some(one) = known_of(shapes, known, field.1) else {
            return None;
        };
        all = Width {
            depth: all.depth.max(one.depth),
            cells: add(all.cells, one.cells),
        };
    }
    Some(all)
}

// What is known of a mode by what is known of those within it.
fn learnt(shapes: &[Shape], known: &[Option<Width>], mode: ModeId) -> Option<Width>
    requires known { AreKnown shapes.now known.now }
    requires there { mode < length shapes.now }
    ensures { IfSome result (IsKnown shapes.now mode) }
{
    match &shapes[mode as usize] {
        Shape::Struct(fields) => {
            let Some(all) = fields_known(shapes, known, &fields.items) else {
                return None;
            };
            around(all)
        }
        Shape::Same(to) => {
            let Some(inner) = known_of(shapes, known, *to) else {
                return None;
            };
            around(inner)
        }
        _ => single(shapes, mode),
    }
}

// Learns what is known of modes in this order.
fn learn(shapes: &[Shape], order: &[ModeId], known: &mut [Option<Width>])
    requires { AreKnown shapes.now known.old }
    ensures { AreKnown shapes.now known.new }
{
    for mode in order {
        let at = *mode as usize;
        if at < shapes.len() && at < known.len() {
            known[at] = learnt(shapes, known, *mode);
        }
    }
}

// How many cells lie before each of these fields, and before their end; nothing where it is not known.
fn starts_of(
    alloc: Global,
    shapes: &[Shape],
    known: &[Option<Width>],
    fields: &[(u32, ModeId)],
) -> Result<Vec<u32>, NoMemory>
    requires { AreKnown shapes.now known.now }
    ensures { IfOk result (λ starts. AreStarts shapes.now fields.now starts.items) }
{
    let mut starts = Vec::with_capacity(alloc, fields.len() + 1)?;
    let mut before = 0;
    starts.push(before)?;
    for field in fields {
        let Some(one) = known_of(shapes, known, field.1) else {
            return Ok(Vec::new(alloc));
        };
        if one.depth as usize > shapes.len() {
            return Ok(Vec::new(alloc));
        }
        before = add(before, one.cells);
        starts.push(before)?;
    }
    Ok(starts)
}

// The same of the fields of a mode, which has none where it is no structure.
fn starts_in(
    alloc: Global,
    shapes: &[Shape],
    known: &[Option<Width>],
    shape: &Shape,
) -> Result<Starts, NoMemory>
    requires { AreKnown shapes.now known.now }
    ensures { IfOk result (λ starts. AreStarts shapes.now (own_fields shape.now) starts.cells.items) }
{
    match shape {
        Shape::Struct(fields) => {
            let cells = starts_of(alloc, shapes, known, &fields.items)?;
            Ok(Starts { cells })
        }
        _ => Ok(Starts {
            cells: Vec::new(alloc),
        }),
    }
}

// The same of all modes.
fn all_starts(
    alloc: Global,
    shapes: &[Shape],
    known: &[Option<Width>],
) -> Result<Vec<Starts>, NoMemory>
    requires { AreKnown shapes.now known.now }
    ensures { IfOk result (λ all. AreAllStarts shapes.now all.items) }
{
    let mut all = Vec::with_capacity(alloc, shapes.len())?;
    for shape in shapes {
        let starts = starts_in(alloc, shapes, known, shape)?;
        all.push(starts)?;
    }
    Ok(all)
}

/// Where the fields of all structures lie, in a time that grows with the modes and their parts.
pub fn lay_out(alloc: Global, modes: &Modes, shapes: &[Shape]) -> Result<Vec<Starts>, NoMemory>
    ensures { IfOk result (λ all. AreAllStarts shapes.now all.items) }
{
    let count = shapes.len();
    let first = (0..modes.len()).rev().collect(alloc)?;
    let order = inner_first(alloc, modes, first)?;
    let mut known = vec![in alloc; None; count]?;
    learn(shapes, &order, &mut known);
    all_starts(alloc, shapes, &known)
}
