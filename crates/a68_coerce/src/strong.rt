//! Strong coercions.
ghost use Rattle.std.specs.Prelude.{◌≡◌, ◌<◌, ◌↔◌, IfOk, IfSome, IsTrue, MatchOption, length};
ghost use Rattle.a68_modes.specs.Nodes.{HoldsNodes};
ghost use Rattle.a68_coerce.specs.Below.{IsGoalBelow, depth};
ghost use Rattle.a68_coerce.specs.Goals.{IsRowOver, IsNameOver, IsVoid, IsVoidGoal, row_of, name_of_row_of};
ghost use Rattle.a68_coerce.specs.Paths.{IsBools, WidenedTo, NamedTo, StrongTo};
ghost use Rattle.a68_coerce.specs.Routes.{FindsRoute, FindsRowed, FindsUnrowed, LeadsToVoid};
ghost use Rattle.a68_equiv.specs.Classes.{AreExact};
ghost use Rattle.a68_equiv.specs.Dimensions.{HaveDimensions};
ghost use Rattle.a68_equiv.specs.Unfolding.{flex_left};
ghost use Rattle.a68_equiv.specs.Ways.{AreWellFormed};

use crate::goal::CoercionGoal;
use crate::route::{Route, RowRoute};
use crate::unite::firm;
use crate::walk::meek;
use a68_base::NoMemory;
use a68_equiv::{Classes, Mode, behind};
use a68_modes::{Coercion, Modes, Shape, standard};
use std::alloc::Global;

/// Gives what a row of an element is a row of.
fn fewer(dims: u32, flex: bool, of: Mode) -> CoercionGoal
    requires { 0 < dims }
    ensures { result ≡ row_of dims flex of }
{
    if dims == 1 {
        CoercionGoal::Mode(of)
    } else {
        CoercionGoal::Row {
            dims: dims - 1,
            flex,
            of,
        }
    }
}

/// Gives what the name of a row of an element is the name of, one dimension fewer.
fn name_of_fewer(dims: u32, of: Mode) -> CoercionGoal
    requires { 0 < dims }
    ensures { result ≡ name_of_row_of dims of }
{
    if dims == 1 {
        CoercionGoal::Name(of)
    } else {
        CoercionGoal::NameOfRow { dims: dims - 1, of }
    }
}

/// Keeps FLEX, unless it is taken away.
fn left(fixed: bool, flex: bool) -> bool
    ensures { result ≡ flex_left fixed flex }
{
    !fixed && flex
}

/// Finds what the goal is a row of.
fn row_over(modes: &Modes, goal: CoercionGoal) -> Option<CoercionGoal>
    requires nodes { HoldsNodes modes.now }
    requires formed { AreWellFormed modes.now }
    requires rows { HaveDimensions modes.now }
    requires goal { IsGoalBelow (length modes.now) goal }
    ensures over { MatchOption result ((h : CoercionGoal) → IsRowOver modes.now goal h → ⊥) (IsRowOver modes.now goal) }
    ensures below { IfSome result (IsGoalBelow (length modes.now)) }
    ensures deep { IfSome result (λ h. depth modes.now h < depth modes.now goal) }
{
    match goal {
        CoercionGoal::Mode(n) => match modes.shape(behind(modes, n.id)) {
            Shape::Rows { dims, flex, of } => {
                let element = Mode {
                    id: *of,
                    fixed: n.fixed,
                };
                Some(fewer(*dims, left(n.fixed, *flex), element))
            }
            _ => None,
        },
        CoercionGoal::Row { dims, flex, of } => Some(fewer(dims, flex, of)),
        _ => None,
    }
}

/// Finds what the name of a row without FLEX is the name of, one dimension fewer.
fn name_over(modes: &Modes, goal: CoercionGoal) -> Option<CoercionGoal>
    requires rows { HaveDimensions modes.now }
    requires goal { IsGoalBelow (length modes.now) goal }
    ensures over { MatchOption result ((h : CoercionGoal) → IsNameOver modes.now goal h → ⊥) (IsNameOver modes.now goal) }
    ensures below { IfSome result (IsGoalBelow (length modes.now)) }
{
    let CoercionGoal::Mode(n) = goal else {
        return None;
    };
    let Shape::Ref(a) = modes.shape(behind(modes, n.id)) else {
        return None;
    };
    let Shape::Rows { dims, flex, of } = modes.shape(behind(modes, *a)) else {
        return None;
    };
    if *flex {
        return None;
    }
    Some(name_of_fewer(*dims, Mode::as_it_stands(*of)))
}

/// Is the goal a row of BOOL of one dimension?
fn is_bools(modes: &Modes, classes: &Classes, goal: CoercionGoal) -> bool
    requires exact { AreExact modes.now classes.now.of }
    requires goal { IsGoalBelow (length modes.now) goal }
    requires standard { 12 < length modes.now }
    ensures { IsTrue result ↔ IsBools modes.now goal }
{
    match goal {
        CoercionGoal::Mode(n) => classes.are_same(n, Mode::as_it_stands(standard::ROW_OF_BOOL)),
        CoercionGoal::Row { dims, flex, of } => {
            dims == 1 && !flex && classes.are_same(of, Mode::as_it_stands(standard::BOOL))
        }
        _ => false,
    }
}

/// Finds the coercions from BITS to a row of BOOL.
fn widened(modes: &Modes, classes: &Classes, from: Mode, goal: CoercionGoal) -> Option<Route>
    requires formed { AreWellFormed modes.now }
    requires nodes { HoldsNodes modes.now }
    requires exact { AreExact modes.now classes.now.of }
    requires from { from.id < length modes.now }
    requires goal { IsGoalBelow (length modes.now) goal }
    ensures { FindsRoute modes.now from (WidenedTo modes.now from goal) result }
{
    if !is_bools(modes, classes, goal) {
        return None;
    }
    let Some(meekly) = meek(
        modes,
        classes,
        from,
        CoercionGoal::Mode(Mode::as_it_stands(standard::BITS)),
    ) else {
        return None;
    };
    Some(Route {
        meekly,
        last: Some(Coercion::Widen),
    })
}

/// Finds the coercions from a name to that of a row of it.
fn named(modes: &Modes, classes: &Classes, from: Mode, goal: CoercionGoal) -> Option<Route>
    requires formed { AreWellFormed modes.now }
    requires rows { HaveDimensions modes.now }
    requires exact { AreExact modes.now classes.now.of }
    requires from { from.id < length modes.now }
    requires goal { IsGoalBelow (length modes.now) goal }
    ensures { FindsRoute modes.now from (NamedTo modes.now from goal) result }
{
    let Some(inner) = name_over(modes, goal) else {
        return None;
    };
    let Some(meekly) = meek(modes, classes, from, inner) else {
        return None;
    };
    Some(Route {
        meekly,
        last: Some(Coercion::RowUpName),
    })
}

/// Is the mode VOID?
fn is_void(modes: &Modes, mode: Mode) -> bool
    requires { mode.id < length modes.now }
    ensures void { IsTrue result ↔ IsVoid modes.now mode }
    ensures nodes { HoldsNodes modes.now }
{
    matches!(modes.shape(behind(modes, mode.id)), Shape::Void)
}

/// Is the goal VOID?
fn is_void_goal(modes: &Modes, goal: CoercionGoal) -> bool
    requires { IsGoalBelow (length modes.now) goal }
    ensures { IsTrue result ↔ IsVoidGoal modes.now goal }
{
    match goal {
        CoercionGoal::Mode(n) => is_void(modes, n),
        _ => false,
    }
}

/// Gives the coercions to VOID.
fn voided(modes: &Modes, from: Mode) -> Route
    requires { from.id < length modes.now }
    ensures void { LeadsToVoid modes.now from result }
    ensures nodes { HoldsNodes modes.now }
{
    let last = if is_void(modes, from) {
        None
    } else {
        Some(Coercion::Drop)
    };
    Route { meekly: 0, last }
}

/// Finds the strong coercions to a goal by the rules before rowing: to VOID, firm, widening.
fn unrowed(
    alloc: Global,
    modes: &Modes,
    classes: &Classes,
    from: Mode,
    to_void: Route,
    goal: CoercionGoal,
) -> Result<Option<Route>, NoMemory>
    requires formed { AreWellFormed modes.now }
    requires nodes { HoldsNodes modes.now }
    requires exact { AreExact modes.now classes.now.of }
    requires from { from.id < length modes.now }
    requires void { LeadsToVoid modes.now from to_void }
    requires goal { IsGoalBelow (length modes.now) goal }
    ensures { IfOk result (FindsUnrowed modes.now from goal) }
{
    if is_void_goal(modes, goal) {
        return Ok(Some(to_void));
    }
    if let Some(route) = firm(alloc, modes, classes, from, goal)? {
        return Ok(Some(route));
    }
    Ok(widened(modes, classes, from, goal))
}

/// Finds the strong coercions to a mode, by the first rule that leads.
pub fn strong(
    alloc: Global,
    modes: &Modes,
    classes: &Classes,
    from: Mode,
    to: Mode,
) -> Result<Option<RowRoute>, NoMemory>
    requires formed { AreWellFormed modes.now }
    requires rows { HaveDimensions modes.now }
    requires exact { AreExact modes.now classes.now.of }
    requires from { from.id < length modes.now }
    requires to { to.id < length modes.now }
    ensures { IfOk result (FindsRowed modes.now from (StrongTo modes.now from (CoercionGoal.Mode to))) }
{
    let to_void = voided(modes, from);
    let mut goal = CoercionGoal::Mode(to);
    let mut rows = 0;
    'rowing: loop {
        if let Some(route) = unrowed(alloc, modes, classes, from, to_void, goal)? {
            return Ok(Some(RowRoute { route, rows }));
        }
        let Some(inner) = row_over(modes, goal) else {
            return match named(modes, classes, from, goal) {
                Some(route) => Ok(Some(RowRoute { route, rows })),
                None => Ok(None),
            };
        };
        goal = inner;
        rows += 1;
    }
}
