//! Balancing.
ghost use Rattle.std.specs.Prelude.{◌<◌, ◌↔◌, ◌^◌, IfOk, IfSome, IsTrue, MatchOption, length};
ghost use Rattle.std.specs.List.{All};
ghost use Rattle.a68_coerce.specs.Balanced.{FormsAt, IsBalanced, IsFormed, IsSided, LeafForms, LeafLeads, LeafSuits, OthersSuit, SidesAt};
ghost use Rattle.a68_coerce.specs.Below.{IsLeafBelow};
ghost use Rattle.a68_coerce.specs.Paths.{CanLead};
ghost use Rattle.a68_coerce.specs.Routes.{IsFirstThatLeads};
ghost use Rattle.a68_equiv.specs.Classes.{AreExact};
ghost use Rattle.a68_equiv.specs.Dimensions.{HaveDimensions};
ghost use Rattle.a68_equiv.specs.Related.{as_it_stands};
ghost use Rattle.a68_equiv.specs.Ways.{AreWellFormed};

use crate::form::ModeForm;
use crate::leaf::{Balanced, Leaf};
use crate::sorts::route;
use crate::walk::{Target, reach};
use a68_base::NoMemory;
use a68_equiv::{Classes, Mode};
use a68_modes::{ModeId, Modes, Sort};
use std::alloc::Global;

/// Finds the first unit that leads to a mode by the sort where each other one leads there strongly; None exactly where
/// there is none. Whether a unit that may stand in strong positions only suits the mode is asked elsewhere.
pub fn balance(
    alloc: Global,
    modes: &Modes,
    classes: &Classes,
    sort: Sort,
    leaves: &[Leaf],
    to: ModeId,
) -> Result<Option<u32>, NoMemory>
    requires formed { AreWellFormed modes.now }
    requires rows { HaveDimensions modes.now }
    requires exact { AreExact modes.now classes.now.of }
    requires leaves { All (IsLeafBelow (length modes.now)) leaves.now }
    requires few { length leaves.now < 2 ^ 32 }
    requires to { to < length modes.now }
    ensures { IfOk result (IsBalanced modes.now sort (as_it_stands to) leaves.now) }
{
    let to = Mode::as_it_stands(to);
    let Some(first) = first_that_leads(alloc, modes, classes, sort, leaves, to)? else {
        return Ok(None);
    };
    if others_suit(alloc, modes, classes, leaves, first, to)? {
        Ok(Some(first as u32))
    } else {
        Ok(None)
    }
}

/// Finds the first leaf that leads to a mode by the sort.
fn first_that_leads(
    alloc: Global,
    modes: &Modes,
    classes: &Classes,
    sort: Sort,
    leaves: &[Leaf],
    to: Mode,
) -> Result<Option<usize>, NoMemory>
    requires formed { AreWellFormed modes.now }
    requires rows { HaveDimensions modes.now }
    requires exact { AreExact modes.now classes.now.of }
    requires leaves { All (IsLeafBelow (length modes.now)) leaves.now }
    requires to { to.id < length modes.now }
    ensures { IfOk result (IsFirstThatLeads modes.now sort to leaves.now) }
{
    for (i, leaf) in leaves.iter().enumerate() {
        if leaf_leads(alloc, modes, classes, sort, *leaf, to)? {
            return Ok(Some(i));
        }
    }
    Ok(None)
}

/// Does a unit of the one mode lead to the other by the sort?
fn leads(
    alloc: Global,
    modes: &Modes,
    classes: &Classes,
    sort: Sort,
    from: ModeId,
    to: Mode,
) -> Result<bool, NoMemory>
    requires formed { AreWellFormed modes.now }
    requires rows { HaveDimensions modes.now }
    requires exact { AreExact modes.now classes.now.of }
    requires from { from < length modes.now }
    requires to { to.id < length modes.now }
    ensures { IfOk result (λ leads. IsTrue leads ↔ CanLead modes.now sort (as_it_stands from) to) }
{
    let found = route(alloc, modes, classes, sort, Mode::as_it_stands(from), to)?;
    Ok(found.is_some())
}

/// Does the leaf lead by the sort?
fn leaf_leads(
    alloc: Global,
    modes: &Modes,
    classes: &Classes,
    sort: Sort,
    leaf: Leaf,
    to: Mode,
) -> Result<bool, NoMemory>
    requires formed { AreWellFormed modes.now }
    requires rows { HaveDimensions modes.now }
    requires exact { AreExact modes.now classes.now.of }
    requires leaf { IsLeafBelow (length modes.now) leaf }
    requires to { to.id < length modes.now }
    ensures { IfOk result (λ leads. IsTrue leads ↔ LeafLeads modes.now sort to leaf) }
{
    match leaf {
        Leaf::Mode(from) => leads(alloc, modes, classes, sort, from, to),
        Leaf::StrongOnly => Ok(false),
    }
}

/// Does the leaf lead strongly, or stand in strong positions only?
fn leaf_suits(
    alloc: Global,
    modes: &Modes,
    classes: &Classes,
    leaf: Leaf,
    to: Mode,
) -> Result<bool, NoMemory>
    requires formed { AreWellFormed modes.now }
    requires rows { HaveDimensions modes.now }
    requires exact { AreExact modes.now classes.now.of }
    requires leaf { IsLeafBelow (length modes.now) leaf }
    requires to { to.id < length modes.now }
    ensures { IfOk result (λ suits. IsTrue suits ↔ LeafSuits modes.now to leaf) }
{
    match leaf {
        Leaf::Mode(from) => leads(alloc, modes, classes, Sort::Strong, from, to),
        Leaf::StrongOnly => Ok(true),
    }
}

/// Finds the first unit with a mode of the form on its way by the sort to which each other one leads strongly, and that
/// mode; None exactly where there is none.
pub fn balance_to_form(
    alloc: Global,
    modes: &Modes,
    classes: &Classes,
    sort: Sort,
    form: ModeForm,
    leaves: &[Leaf],
) -> Result<Option<Balanced>, NoMemory>
    requires formed { AreWellFormed modes.now }
    requires rows { HaveDimensions modes.now }
    requires exact { AreExact modes.now classes.now.of }
    requires leaves { All (IsLeafBelow (length modes.now)) leaves.now }
    requires few { length leaves.now < 2 ^ 32 }
    ensures formed { IfOk result (IsFormed modes.now sort form leaves.now) }
    ensures there { IfOk result (λ found. IfSome found (λ b. b.mode.id < length modes.now)) }
{
    for i in 0..leaves.len() {
        if let Some(mode) = formed_at(alloc, modes, classes, sort, form, leaves, i)? {
            let leaf = i as u32;
            return Ok(Some(Balanced { leaf, mode }));
        }
    }
    Ok(None)
}

/// Finds the first unit of one side of an identity relation that leads softly to a name to which each other unit of both
/// sides leads strongly, and that name (5.2.2); None exactly where there is none.
pub fn balance_sides(
    alloc: Global,
    modes: &Modes,
    classes: &Classes,
    soft: &[Leaf],
    strong: &[Leaf],
) -> Result<Option<Balanced>, NoMemory>
    requires formed { AreWellFormed modes.now }
    requires rows { HaveDimensions modes.now }
    requires exact { AreExact modes.now classes.now.of }
    requires soft { All (IsLeafBelow (length modes.now)) soft.now }
    requires strong { All (IsLeafBelow (length modes.now)) strong.now }
    requires few { length soft.now < 2 ^ 32 }
    ensures sided { IfOk result (IsSided modes.now soft.now strong.now) }
    ensures there { IfOk result (λ found. IfSome found (λ b. b.mode.id < length modes.now)) }
{
    for i in 0..soft.len() {
        if let Some(mode) = sides_at(alloc, modes, classes, soft, strong, i)? {
            let leaf = i as u32;
            return Ok(Some(Balanced { leaf, mode }));
        }
    }
    Ok(None)
}

/// Finds the name to which the leaf at a place of the one side leads softly, where each other one of both sides leads
/// there strongly.
fn sides_at(
    alloc: Global,
    modes: &Modes,
    classes: &Classes,
    soft: &[Leaf],
    strong: &[Leaf],
    at: usize,
) -> Result<Option<Mode>, NoMemory>
    requires formed { AreWellFormed modes.now }
    requires rows { HaveDimensions modes.now }
    requires exact { AreExact modes.now classes.now.of }
    requires soft { All (IsLeafBelow (length modes.now)) soft.now }
    requires strong { All (IsLeafBelow (length modes.now)) strong.now }
    requires at { at < length soft.now }
    ensures at { IfOk result (λ found. MatchOption found ((to : Mode) → SidesAt modes.now to soft.now strong.now at → ⊥) (λ to. SidesAt modes.now to soft.now strong.now at)) }
    ensures there { IfOk result (λ found. IfSome found (λ to. to.id < length modes.now)) }
{
    let Some(mode) = formed_at(alloc, modes, classes, Sort::Soft, ModeForm::Name, soft, at)? else {
        return Ok(None);
    };
    if others_suit(alloc, modes, classes, strong, strong.len(), mode)? {
        Ok(Some(mode))
    } else {
        Ok(None)
    }
}

/// Finds the mode of the form to which the leaf at a place leads by the sort, where each other one leads there strongly.
fn formed_at(
    alloc: Global,
    modes: &Modes,
    classes: &Classes,
    sort: Sort,
    form: ModeForm,
    leaves: &[Leaf],
    at: usize,
) -> Result<Option<Mode>, NoMemory>
    requires formed { AreWellFormed modes.now }
    requires rows { HaveDimensions modes.now }
    requires exact { AreExact modes.now classes.now.of }
    requires leaves { All (IsLeafBelow (length modes.now)) leaves.now }
    requires at { at < length leaves.now }
    ensures at { IfOk result (λ found. MatchOption found ((to : Mode) → FormsAt modes.now sort form to leaves.now at → ⊥) (λ to. FormsAt modes.now sort form to leaves.now at)) }
    ensures there { IfOk result (λ found. IfSome found (λ to. to.id < length modes.now)) }
{
    let Some(mode) = leaf_form(modes, classes, sort, form, leaves[at]) else {
        return Ok(None);
    };
    if others_suit(alloc, modes, classes, leaves, at, mode)? {
        Ok(Some(mode))
    } else {
        Ok(None)
    }
}

/// Finds the first mode of the form on the way of the leaf by the sort.
fn leaf_form(
    modes: &Modes,
    classes: &Classes,
    sort: Sort,
    form: ModeForm,
    leaf: Leaf,
) -> Option<Mode>
    requires formed { AreWellFormed modes.now }
    requires exact { AreExact modes.now classes.now.of }
    requires leaf { IsLeafBelow (length modes.now) leaf }
    ensures forms { MatchOption result ((k : Mode) → LeafForms modes.now sort form k leaf → ⊥) (λ k. LeafForms modes.now sort form k leaf) }
    ensures there { IfSome result (λ k. k.id < length modes.now) }
{
    match leaf {
        Leaf::Mode(from) => {
            let from = Mode::as_it_stands(from);
            let reached = reach(modes, classes, sort, from, Target::ModeForm(form))?;
            Some(reached.mode)
        }
        Leaf::StrongOnly => None,
    }
}

/// Does each leaf but that at one place lead strongly to the mode?
fn others_suit(
    alloc: Global,
    modes: &Modes,
    classes: &Classes,
    leaves: &[Leaf],
    except: usize,
    to: Mode,
) -> Result<bool, NoMemory>
    requires formed { AreWellFormed modes.now }
    requires rows { HaveDimensions modes.now }
    requires exact { AreExact modes.now classes.now.of }
    requires leaves { All (IsLeafBelow (length modes.now)) leaves.now }
    requires to { to.id < length modes.now }
    ensures { IfOk result (λ suit. IsTrue suit ↔ OthersSuit modes.now to leaves.now except) }
{
    for (i, leaf) in leaves.iter().enumerate() {
        if i != except && !leaf_suits(alloc, modes, classes, *leaf, to)? {
            return Ok(false);
        }
    }
    Ok(true)
}
