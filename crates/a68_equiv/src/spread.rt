//! What mode words and unions lead to.
ghost use Rattle.std.specs.Prelude.{◌≡◌, ◌<◌, ◌↔◌, ℕ, [], IfOk, OnOk, IsTrue, length};
ghost use Rattle.std.specs.List.{All, Contains};
ghost use Rattle.a68_equiv.specs.Graph.{ArePlain};
ghost use Rattle.a68_equiv.specs.Spread.{AreLast, IsLed, IsSpread, AreSameModes, NotesModes};
ghost use Rattle.a68_equiv.specs.Unfolding.{leads_within, is_union as is_union_lem};

use crate::steps::{Inward, row};
use a68_base::NoMemory;
use a68_modes::{Members, ModeId, Modes, Shape};
use std::alloc::Global;
use std::collections::HashSet;

/// What these modes are where the members of a union stand in its place, and the mode of a mode word in the place of
/// that; each mode at least once.
pub fn spread(alloc: Global, modes: &Modes, start: &[ModeId]) -> Result<Members, NoMemory>
    requires { All (λ m. m < length modes.now) start.now }
    ensures members { IfOk result (λ members. (x : ℕ) → Contains members x ↔ IsSpread modes.now start.now x) }
    ensures below { IfOk result (λ members. All (λ m. m < length modes.now) members) }
{
    if are_plain(modes, start) {
        let plain = Members::from_slice(alloc, start)?;
        return Ok(plain);
    }
    let found = led(alloc, modes, start)?;
    let members = last_of(alloc, modes, &found)?;
    Ok(members)
}

/// Those of these modes that are neither a mode word nor a union.
fn last_of(alloc: Global, modes: &Modes, found: &[ModeId]) -> Result<Members, NoMemory>
    requires { All (λ m. m < length modes.now) found.now }
    ensures { IfOk result (λ members. AreLast modes.now found.now members) }
{
    let mut items = Vec::new(alloc);
    for mode in found {
        if leads_on(modes.shape(*mode)) {
            continue;
        }
        items.push(*mode)?;
    }
    Ok(Members { items })
}

/// These modes, and those to which they lead by mode words and unions, each once.
fn led(alloc: Global, modes: &Modes, start: &[ModeId]) -> Result<Vec<ModeId>, NoMemory>
    requires { All (λ m. m < length modes.now) start.now }
    ensures led { IfOk result (λ found. (x : ℕ) → Contains found.items x ↔ IsLed modes.now start.now x) }
    ensures below { IfOk result (λ found. All (λ m. m < length modes.now) found.items) }
{
    let mut found = Vec::new(alloc);
    let mut known = HashSet::new(alloc);
    lead(alloc, modes, start, &mut found, &mut known)?;
    Ok(found)
}

/// Notes in a list that is empty these modes, and those to which they lead by mode words and unions.
fn lead(
    alloc: Global,
    modes: &Modes,
    start: &[ModeId],
    found: &mut Vec<ModeId>,
    known: &mut HashSet<ModeId>,
) -> Result<(), NoMemory>
    requires start { All (λ m. m < length modes.now) start.now }
    requires empty { found.old.items ≡ [] }
    requires known { AreSameModes found.old.items known.old.keys }
    ensures led { OnOk result ((x : ℕ) → Contains found.new.items x ↔ IsLed modes.now start.now x) }
    ensures below { OnOk result (All (λ m. m < length modes.now) found.new.items) }
{
    note(found, known, start)?;
    let mut i = 0;
    while i < found.len() {
        let at = found[i];
        let steps = row(alloc, Inward::WithinUnions, modes.shape(at))?;
        note(found, known, &steps.items)?;
        i += 1;
    }
    Ok(())
}

/// Notes these modes behind the others, each once.
fn note(
    found: &mut Vec<ModeId>,
    known: &mut HashSet<ModeId>,
    modes: &[ModeId],
) -> Result<(), NoMemory>
    requires { AreSameModes found.old.items known.old.keys }
    ensures notes { OnOk result (NotesModes modes.now found.old.items found.new.items) }
    ensures known { OnOk result (AreSameModes found.new.items known.new.keys) }
{
    for mode in modes {
        if known.insert(*mode)? {
            found.push(*mode)?;
        }
    }
    Ok(())
}

/// Is none of these modes a mode word or a union?
fn are_plain(modes: &Modes, members: &[ModeId]) -> bool
    requires { All (λ m. m < length modes.now) members.now }
    ensures { IsTrue result → ArePlain modes.now members.now }
{
    for member in members {
        if leads_on(modes.shape(*member)) {
            return false;
        }
    }
    true
}

/// Is the shape a union or a mode word?
fn leads_on(shape: &Shape) -> bool
    ensures { result ≡ leads_within shape.now }
{
    matches!(shape, Shape::Union(_) | Shape::Same(_))
}

/// Is the shape a union?
pub fn is_union(shape: &Shape) -> bool
    ensures { result ≡ is_union_lem shape.now }
{
    matches!(shape, Shape::Union(_))
}
