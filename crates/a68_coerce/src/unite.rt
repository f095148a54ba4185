//! Uniting.
ghost use Rattle.std.specs.Prelude.{◌≡◌, ◌<◌, ◌+◌, ◌*◌, ◌↔◌, ℕ, List, IfOk, IsTrue, MatchOption, length};
ghost use Rattle.std.specs.List.{All, Contains};
ghost use Rattle.a68_coerce.specs.Below.{IsGoalBelow};
ghost use Rattle.a68_coerce.specs.Paths.{FirmTo, UnitedTo, UnitesTo, IsFirstNode};
ghost use Rattle.a68_coerce.specs.Routes.{AreMembers, FindsRoute};
ghost use Rattle.a68_modes.specs.declared.shape.Shape.{Shape};
ghost use Rattle.a68_equiv.specs.Classes.{AreExact};
ghost use Rattle.a68_equiv.specs.Unfolding.{Equivalent};
ghost use Rattle.a68_equiv.specs.Ways.{AreWellFormed};

use crate::goal::CoercionGoal;
use crate::route::Route;
use crate::walk::{meek, next_step};
use a68_base::NoMemory;
use a68_equiv::{Classes, Mode, among, behind};
use a68_modes::{Coercion, ModeId, Modes, Shape};
use std::alloc::Global;

/// Finds the first node of a mode.
fn first_node(modes: &Modes, classes: &Classes, mode: Mode) -> Option<ModeId>
    requires exact { AreExact modes.now classes.now.of }
    requires mode { mode.id < length modes.now }
    ensures { MatchOption result ((id : ℕ) → IsFirstNode modes.now mode id → ⊥) (IsFirstNode modes.now mode) }
{
    for id in 0..modes.len() {
        if classes.are_same(Mode::as_it_stands(id), mode) {
            return Some(id);
        }
    }
    None
}

/// Is the mode one of these, with or without their FLEX?
fn is_member(classes: &Classes, members: &[ModeId], fixed: bool, mode: Mode) -> bool
    requires members { All (λ m. 2 * m + 1 < length classes.now.of) members.now }
    requires mode { 2 * mode.id + 1 < length classes.now.of }
    ensures { (nodes : List Shape) → AreExact nodes classes.now.of → IsTrue result ↔ ((x : ℕ) × Contains members.now x × Equivalent nodes mode (record { id = x; fixed = fixed })) }
{
    for member in members {
        if classes.are_same(mode, Mode { id: *member, fixed }) {
            return true;
        }
    }
    false
}

/// Is each of the modes one of these members?
fn are_members(
    classes: &Classes,
    members: &[ModeId],
    fixed: bool,
    some: &[ModeId],
    some_fixed: bool,
) -> bool
    requires members { All (λ m. 2 * m + 1 < length classes.now.of) members.now }
    requires some { All (λ m. 2 * m + 1 < length classes.now.of) some.now }
    ensures { (nodes : List Shape) → AreExact nodes classes.now.of → IsTrue result ↔ ((y : ℕ) → Contains some.now y → (x : ℕ) × Contains members.now x × Equivalent nodes (record { id = y; fixed = some_fixed }) (record { id = x; fixed = fixed })) }
{
    for mode in some {
        let one = Mode {
            id: *mode,
            fixed: some_fixed,
        };
        if !is_member(classes, members, fixed, one) {
            return false;
        }
    }
    true
}

/// Is the mode one of the members of the union, or a union of some of them?
fn unites(
    alloc: Global,
    modes: &Modes,
    classes: &Classes,
    members: &[ModeId],
    to: Mode,
    mode: Mode,
) -> Result<bool, NoMemory>
    requires exact { AreExact modes.now classes.now.of }
    requires members { AreMembers modes.now to members.now }
    requires mode { mode.id < length modes.now }
    ensures { IfOk result (λ does. IsTrue does ↔ UnitesTo modes.now to mode) }
{
    if is_member(classes, members, to.fixed, mode) {
        return Ok(true);
    }
    let Shape::Union(_) = modes.shape(behind(modes, mode.id)) else {
        return Ok(false);
    };
    let some = among(alloc, modes, mode.id)?;
    Ok(are_members(classes, members, to.fixed, &some.items, mode.fixed))
}

/// Finds the first mode on the meek way that unites to a union of these members.
fn united_among(
    alloc: Global,
    modes: &Modes,
    classes: &Classes,
    members: &[ModeId],
    from: Mode,
    to: Mode,
) -> Result<Option<Route>, NoMemory>
    requires formed { AreWellFormed modes.now }
    requires exact { AreExact modes.now classes.now.of }
    requires members { AreMembers modes.now to members.now }
    requires from { from.id < length modes.now }
    ensures { IfOk result (FindsRoute modes.now from (UnitedTo modes.now from to)) }
{
    let mut at = from;
    let mut steps = 0;
    'uniting: loop {
        if unites(alloc, modes, classes, members, to, at)? {
            let Some(node) = first_node(modes, classes, at) else {
                return Ok(None);
            };
            return Ok(Some(Route {
                meekly: steps,
                last: Some(Coercion::Unite(node)),
            }));
        }
        let Some(step) = next_step(modes, at) else {
            return Ok(None);
        };
        at = step.to;
        steps += 1;
    }
}

/// Finds the meek coercions to what unites to a mode, and Unite.
fn united(
    alloc: Global,
    modes: &Modes,
    classes: &Classes,
    from: Mode,
    to: Mode,
) -> Result<Option<Route>, NoMemory>
    requires formed { AreWellFormed modes.now }
    requires exact { AreExact modes.now classes.now.of }
    requires from { from.id < length modes.now }
    requires to { to.id < length modes.now }
    ensures { IfOk result (FindsRoute modes.now from (UnitedTo modes.now from to)) }
{
    let Shape::Union(_) = modes.shape(behind(modes, to.id)) else {
        return Ok(None);
    };
    let members = among(alloc, modes, to.id)?;
    let found = united_among(alloc, modes, classes, &members.items, from, to)?;
    Ok(found)
}

/// Finds the firm coercions to a goal: the meek ones, else those to what unites to it.
pub fn firm(
    alloc: Global,
    modes: &Modes,
    classes: &Classes,
    from: Mode,
    goal: CoercionGoal,
) -> Result<Option<Route>, NoMemory>
    requires formed { AreWellFormed modes.now }
    requires exact { AreExact modes.now classes.now.of }
    requires from { from.id < length modes.now }
    requires goal { IsGoalBelow (length modes.now) goal }
    ensures { IfOk result (FindsRoute modes.now from (FirmTo modes.now from goal)) }
{
    if let Some(meekly) = meek(modes, classes, from, goal) {
        return Ok(Some(Route { meekly, last: None }));
    }
    let CoercionGoal::Mode(to) = goal else {
        return Ok(None);
    };
    united(alloc, modes, classes, from, to)
}
