//! How many bounds names have, kept for each mode once it is known: so structures of two of a mode, many within one
//! another, are not looked at twice, and no more of the stack is needed however many these are.
ghost use Rattle.std.specs.Prelude.{◌≡◌, ◌≤◌, ◌<◌, ◌+◌, ℕ, None, min, length, get_or, replicate, IfOk, IfSome, OnOk};
ghost use Rattle.a68_layout.specs.Measuring.{AreKnown, IsKnown, most_needs};
ghost use Rattle.a68_layout.specs.Rooms.{needs_within, needs_of_fields};
ghost use Rattle.a68_modes.specs.Nodes.{HoldsNodes, shape_at};

use a68_base::NoMemory;
use a68_modes::{ModeId, Modes, Shape, inner_first};
use std::alloc::Global;
use std::marker::Model;

// So many looks are had at a mode and at those within it before what is known of modes is kept.
const FEW_LOOKS: u32 = 64;

/// What is known of a mode: how deep rows and structures lie in it at most, and how many dimensions the rows of a name
/// of it have, as far as a number of 64 bits tells.
#[derive(Clone, Copy)]
pub struct Known {
    pub depth: u32,
    pub needs: usize,
}

/// Modes, of some of which it is known how many bounds their names have.
#[derive(Drop)]
pub struct Measured<'a> {
    modes: &'a Modes,
    known: Vec<Option<Known>>,
}

impl<'a> Model for Measured<'a> {
    ghost use Rattle.std.specs.Prelude.{List};
    ghost use Rattle.a68_layout.specs.Measuring.{AreKnown};
    ghost use Rattle.a68_modes.specs.declared.shape.Shape.{Shape};

    ghost Value = { List Shape };

    ghost view = { λ measured. measured.modes.now };

    ghost invariant = { λ measured. AreKnown measured.modes.now measured.known.items };
}

// Looks at a mode and at those within it, and tells how many of so many looks are left.
#[cycle(looks)]
fn looks_left(modes: &Modes, depth: u32, mode: ModeId, left: u32) -> u32 {
    if left == 0 || depth == 0 {
        return 0;
    }
    if mode >= modes.len() {
        return left - 1;
    }
    match modes.shape(mode) {
        Shape::Rows { of, .. } => looks_left(modes, depth - 1, *of, left - 1),
        Shape::Struct(fields) => fields_left(modes, depth - 1, &fields.items, left - 1),
        Shape::Same(mode) => looks_left(modes, depth - 1, *mode, left - 1),
        _ => left - 1,
    }
}

#[cycle(looks)]
fn fields_left(modes: &Modes, depth: u32, fields: &[(u32, ModeId)], left: u32) -> u32 {
    let mut left = left;
    for field in fields {
        left = looks_left(modes, depth, field.1, left);
    }
    left
}

// What is known of a mode that is none of a row, a structure or a mode word.
fn nothing_in(mode: ModeId, modes: &Modes) -> Option<Known>
    ensures { IfSome result (IsKnown modes.now mode) }
{
    if mode >= modes.len() {
        return Some(Known { depth: 0, needs: 0 });
    }
    match modes.shape(mode) {
        Shape::Rows { .. } => None,
        Shape::Struct(_) => None,
        Shape::Same(_) => None,
        _ => Some(Known { depth: 0, needs: 0 }),
    }
}

// What is kept of a mode.
fn kept(known: &[Option<Known>], mode: ModeId) -> Option<Known>
    ensures { result ≡ get_or known.now mode None }
{
    let at = mode as usize;
    if at < known.len() { known[at] } else { None }
}

// What is known of a mode.
fn known_of(modes: &Modes, known: &[Option<Known>], mode: ModeId) -> Option<Known>
    requires { AreKnown modes.now known.now }
    ensures { IfSome result (IsKnown modes.now mode) }
{
    let found = kept(known, mode);
    if found.is_some() {
        return found;
    }
    nothing_in(mode, modes)
}

// What is known of a row of so many dimensions, or of another mode, by that of its elements.
fn around(inner: Known, dims: u32) -> Option<Known>
    ensures { IfSome result (λ known. (known.depth ≡ inner.depth + 1) × (known.needs ≡ min most_needs (dims + inner.needs))) }
{
    let depth = inner.depth.checked_add(1)?;
    Some(Known {
        depth,
        needs: inner.needs.saturating_add(dims as usize),
    })
}

// What is known of a structure, where all is known of its fields.
fn fields_known(modes: &Modes, known: &[Option<Known>], fields: &[(u32, ModeId)]) -> Option<Known>
    requires { AreKnown modes.now known.now }
    ensures { IfSome result (λ all. (n : ℕ) → all.depth ≤ n → all.needs ≡ min most_needs (needs_of_fields (needs_within n modes.now) fields.now)) }
{
    let mut all = Known { depth: 0, needs: 0 };
    for field in fields {
        let Some(one) = known_of(modes, known, field.1) else {
            return None;
        };
        all = Known {
            depth: all.depth.max(one.depth),
            needs: all.needs.saturating_add(one.needs),
        };
    }
    Some(all)
}

// What is known of a mode by what is known of those within it.
fn learnt(modes: &Modes, known: &[Option<Known>], mode: ModeId) -> Option<Known>
    requires known { AreKnown modes.now known.now }
    requires there { mode < length modes.now }
    ensures { IfSome result (IsKnown modes.now mode) }
{
    match modes.shape(mode) {
        Shape::Rows { dims, of, .. } => {
            let Some(inner) = known_of(modes, known, *of) else {
                return None;
            };
            around(inner, *dims)
        }
        Shape::Struct(fields) => {
            let Some(all) = fields_known(modes, known, &fields.items) else {
                return None;
            };
            around(all, 0)
        }
        Shape::Same(to) => {
            let Some(inner) = known_of(modes, known, *to) else {
                return None;
            };
            around(inner, 0)
        }
        _ => nothing_in(mode, modes),
    }
}

// Learns what is known of modes in this order.
fn learn(modes: &Modes, order: &[ModeId], known: &mut [Option<Known>])
    requires { AreKnown modes.now known.old }
    ensures { AreKnown modes.now known.new }
{
    for mode in order {
        let at = *mode as usize;
        if *mode < modes.len() && at < known.len() {
            known[at] = learnt(modes, known, *mode);
        }
    }
}

// A table in which nothing is known.
fn none_known(alloc: Global, count: usize) -> Result<Vec<Option<Known>>, NoMemory>
    ensures { IfOk result (λ known. known.items ≡ replicate count None) }
{
    let known = vec![in alloc; None; count]?;
    Ok(known)
}

// Lists what is known of a mode and of those within it.
#[tactic(auto, using(crate::proofs::Measures::known_begin))]
fn known_within(alloc: Global, modes: &Modes, mode: ModeId) -> Result<Vec<Option<Known>>, NoMemory>
    ensures { IfOk result (λ known. AreKnown modes.now known.items) }
{
    let count = modes.len() as usize;
    let mut first = Vec::new(alloc);
    first.push(mode)?;
    let order = inner_first(alloc, modes, first)?;
    let mut known = none_known(alloc, count)?;
    learn(modes, &order, &mut known);
    Ok(known)
}

impl<'a> Measured<'a> {
    /// These modes, where it is to be asked for the bounds of this one and of those within it.
    pub fn new(alloc: Global, modes: &'a Modes, mode: ModeId) -> Result<Measured<'a>, NoMemory>
        ensures { IfOk result (λ measured. measured ≡ modes.now) }
    {
        let known = if looks_left(modes, modes.len(), mode, FEW_LOOKS) > 0 {
            Vec::new(alloc)
        } else {
            known_within(alloc, modes, mode)?
        };
        Ok(Measured { modes, known })
    }

    // These modes, where it is not to be asked for bounds.
    pub fn bare(alloc: Global, modes: &'a Modes) -> Measured<'a>
        ensures { result ≡ modes.now }
    {
        let known = Vec::new(alloc);
        Measured { modes, known }
    }

    // The modes themselves.
    pub fn modes(&self) -> &Modes
        ensures { result.now ≡ self.now }
    {
        self.modes
    }

    // How many nodes there are.
    pub fn len(&self) -> u32
        ensures length { result ≡ length self.now }
        ensures nodes { HoldsNodes self.now }
    {
        self.modes.len()
    }

    // The shape of a node.
    pub fn shape(&self, mode: ModeId) -> &Shape
        requires { mode < length self.now }
        ensures shape { result.now ≡ shape_at self.now mode }
        ensures nodes { HoldsNodes self.now }
    {
        self.modes.shape(mode)
    }

    // How many dimensions the rows of a name of the mode have, down to this depth, where that is known.
    pub fn told(&self, depth: u32, mode: ModeId) -> Option<usize>
        ensures { IfSome result (λ needs. needs ≡ min most_needs (needs_within depth self.now mode)) }
    {
        let known = known_of(self.modes, &self.known, mode)?;
        if known.depth > depth {
            return None;
        }
        Some(known.needs)
    }
}
