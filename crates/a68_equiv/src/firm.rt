//! Firmly related modes.
ghost use Rattle.std.specs.Prelude.{◌≡◌, ◌<◌, ◌↔◌, ℕ, IfOk, IfSome, IsTrue, length};
ghost use Rattle.std.specs.List.{All, Contains};
ghost use Rattle.a68_modes.specs.Nodes.{HoldsNodes};
ghost use Rattle.a68_equiv.specs.Classes.{AreExact};
ghost use Rattle.a68_equiv.specs.Related.{as_it_stands, meek_step, LeadsMeekly, AreMeeklyRelated, IsSelfOrMember, AreRelated};
ghost use Rattle.a68_equiv.specs.Unfolding.{unfolded};
ghost use Rattle.a68_equiv.specs.Ways.{AreWellFormed};

use crate::Mode;
use crate::classes::Classes;
use crate::graph::behind;
use crate::spread::{is_union, spread};
use crate::steps::{Inward, row};
use a68_base::NoMemory;
use a68_modes::{Members, ModeId, Modes, Shape};
use std::alloc::Global;

/// Is a member of the one mode, or the mode itself where it is no union, equivalent to a member of the other or leads
/// to it by dereferencing and calls of procedures without parameters, or the other way round (7.1.1)?
pub fn related(
    alloc: Global,
    modes: &Modes,
    classes: &Classes,
    a: ModeId,
    b: ModeId,
) -> Result<bool, NoMemory>
    requires formed { AreWellFormed modes.now }
    requires exact { AreExact modes.now classes.now.of }
    requires a_there { a < length modes.now }
    requires b_there { b < length modes.now }
    ensures { IfOk result (λ are. IsTrue are ↔ AreRelated modes.now a b) }
{
    let ones = among(alloc, modes, a)?;
    let others = among(alloc, modes, b)?;
    let are = any_linked(modes, classes, &ones.items, &others.items);
    Ok(are)
}

/// The members of a union, or the mode itself.
pub fn among(alloc: Global, modes: &Modes, mode: ModeId) -> Result<Members, NoMemory>
    requires { mode < length modes.now }
    ensures among { IfOk result (λ among. (x : ℕ) → Contains among x ↔ IsSelfOrMember modes.now mode (unfolded modes.now mode) x) }
    ensures below { IfOk result (λ among. All (λ m. m < length modes.now) among) }
{
    if is_union(modes.shape(behind(modes, mode))) {
        let start = row(alloc, Inward::WithinUnions, modes.shape(mode))?;
        let among = spread(alloc, modes, &start.items)?;
        return Ok(among);
    }
    let among = Members::from_slice(alloc, &[mode])?;
    Ok(among)
}

/// Is one of these modes linked with one of those?
fn any_linked(modes: &Modes, classes: &Classes, ones: &[ModeId], others: &[ModeId]) -> bool
    requires formed { AreWellFormed modes.now }
    requires exact { AreExact modes.now classes.now.of }
    requires ones { All (λ m. m < length modes.now) ones.now }
    requires others { All (λ m. m < length modes.now) others.now }
    ensures { IsTrue result ↔ ((x : ℕ) × (y : ℕ) × Contains ones.now x × Contains others.now y × AreMeeklyRelated modes.now x y) }
{
    for one in ones {
        if one_linked(modes, classes, *one, others) {
            return true;
        }
    }
    false
}

/// Is this mode linked with one of those?
fn one_linked(modes: &Modes, classes: &Classes, one: ModeId, others: &[ModeId]) -> bool
    requires formed { AreWellFormed modes.now }
    requires exact { AreExact modes.now classes.now.of }
    requires one { one < length modes.now }
    requires others { All (λ m. m < length modes.now) others.now }
    ensures { IsTrue result ↔ ((y : ℕ) × Contains others.now y × AreMeeklyRelated modes.now one y) }
{
    for other in others {
        if leads(modes, classes, one, *other) {
            return true;
        }
        if leads(modes, classes, *other, one) {
            return true;
        }
    }
    false
}

/// Does the one mode lead meekly to the other?
pub fn leads(modes: &Modes, classes: &Classes, from: ModeId, to: ModeId) -> bool
    requires formed { AreWellFormed modes.now }
    requires exact { AreExact modes.now classes.now.of }
    requires from { from < length modes.now }
    requires to { to < length modes.now }
    ensures { IsTrue result ↔ LeadsMeekly modes.now (as_it_stands from) (as_it_stands to) }
{
    let goal = Mode::as_it_stands(to);
    let mut at = Mode::as_it_stands(from);
    'meekly: loop {
        if classes.are_same(at, goal) {
            return true;
        }
        let Some(next) = meek(modes, at) else {
            return false;
        };
        at = next;
    }
}

/// The mode to which the next meek coercion leads.
pub fn meek(modes: &Modes, mode: Mode) -> Option<Mode>
    requires { mode.id < length modes.now }
    ensures step { result ≡ meek_step (unfolded modes.now mode.id) }
    ensures there { IfSome result (λ next. next.id < length modes.now) }
    ensures nodes { HoldsNodes modes.now }
{
    match modes.shape(behind(modes, mode.id)) {
        Shape::Ref(of) => Some(Mode::without_flex(*of)),
        Shape::Proc { params, result } if params.items.is_empty() => {
            Some(Mode::as_it_stands(*result))
        }
        _ => None,
    }
}
