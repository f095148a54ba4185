//! Paths by the sort of a position.
ghost use Rattle.std.specs.Prelude.{◌<◌, IfOk, length};
ghost use Rattle.a68_coerce.specs.Paths.{Finds, FirmTo, GoesToEquivalent, Leads};
ghost use Rattle.a68_coerce.specs.Routes.{FindsRowed};
ghost use Rattle.a68_equiv.specs.Classes.{AreExact};
ghost use Rattle.a68_equiv.specs.Dimensions.{HaveDimensions};
ghost use Rattle.a68_equiv.specs.Related.{as_it_stands};
ghost use Rattle.a68_equiv.specs.Ways.{AreWellFormed};
ghost use Rattle.a68_modes.specs.Nodes.{HoldsNodes};

use crate::goal::CoercionGoal;
use crate::route::{Route, RowRoute, written};
use crate::strong::strong;
use crate::unite::firm;
use crate::walk::{Target, reach};
use a68_base::NoMemory;
use a68_equiv::{Classes, Mode};
use a68_modes::{ModeId, Modes, Path, Sort};
use std::alloc::Global;

/// Finds the coercions of a sort from one mode to another, the first in the order of the rules; None exactly where none
/// lead. The classes are any that are exact for these modes. Where the answer takes no memory, none is taken but to list
/// the members of unions.
pub fn path(
    alloc: Global,
    modes: &Modes,
    classes: &Classes,
    sort: Sort,
    from: ModeId,
    to: ModeId,
) -> Result<Option<Path>, NoMemory>
    requires formed { AreWellFormed modes.now }
    requires rows { HaveDimensions modes.now }
    requires exact { AreExact modes.now classes.now.of }
    requires from { from < length modes.now }
    requires to { to < length modes.now }
    ensures { IfOk result (Finds (Leads modes.now sort (as_it_stands from) (as_it_stands to))) }
{
    let from = Mode::as_it_stands(from);
    match route(alloc, modes, classes, sort, from, Mode::as_it_stands(to))? {
        Some(found) => {
            let path = written(alloc, modes, from, found)?;
            Ok(Some(path))
        }
        None => Ok(None),
    }
}

/// Finds a path in short.
pub fn route(
    alloc: Global,
    modes: &Modes,
    classes: &Classes,
    sort: Sort,
    from: Mode,
    to: Mode,
) -> Result<Option<RowRoute>, NoMemory>
    requires formed { AreWellFormed modes.now }
    requires rows { HaveDimensions modes.now }
    requires exact { AreExact modes.now classes.now.of }
    requires from { from.id < length modes.now }
    requires to { to.id < length modes.now }
    ensures { IfOk result (FindsRowed modes.now from (Leads modes.now sort from to)) }
{
    match sort {
        Sort::Soft | Sort::Weak | Sort::Meek => Ok(onward(modes, classes, sort, from, to)),
        Sort::Firm => firmly(alloc, modes, classes, from, to),
        Sort::Strong => strong(alloc, modes, classes, from, to),
    }
}

/// Finds the soft, weak or meek coercions.
fn onward(modes: &Modes, classes: &Classes, sort: Sort, from: Mode, to: Mode) -> Option<RowRoute>
    requires formed { AreWellFormed modes.now }
    requires exact { AreExact modes.now classes.now.of }
    requires from { from.id < length modes.now }
    requires to { to.id < length modes.now }
    ensures { FindsRowed modes.now from (GoesToEquivalent modes.now sort from to) result }
{
    let reached = reach(
        modes,
        classes,
        sort,
        from,
        Target::CoercionGoal(CoercionGoal::Mode(to)),
    )?;
    let route = Route {
        meekly: reached.steps,
        last: None,
    };
    Some(RowRoute { route, rows: 0 })
}

/// Finds the firm coercions.
fn firmly(
    alloc: Global,
    modes: &Modes,
    classes: &Classes,
    from: Mode,
    to: Mode,
) -> Result<Option<RowRoute>, NoMemory>
    requires formed { AreWellFormed modes.now }
    requires exact { AreExact modes.now classes.now.of }
    requires from { from.id < length modes.now }
    requires to { to.id < length modes.now }
    ensures { IfOk result (FindsRowed modes.now from (FirmTo modes.now from (CoercionGoal.Mode to))) }
{
    match firm(alloc, modes, classes, from, CoercionGoal::Mode(to))? {
        Some(route) => Ok(Some(RowRoute { route, rows: 0 })),
        None => Ok(None),
    }
}
