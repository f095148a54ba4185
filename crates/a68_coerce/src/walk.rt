//! The meek way from a mode: dereferencing and calls of procedures without parameters.
ghost use Rattle.std.specs.Prelude.{◌≡◌, ◌<◌, ◌↔◌, [], ◌∷◌, ℕ, List, None, true, IfSome, IsTrue, MatchOption, length};
ghost use Rattle.a68_modes.specs.Nodes.{HoldsNodes};
ghost use Rattle.a68_modes.specs.declared.coercion.Coercion.{Coercion};
ghost use Rattle.a68_coerce.specs.Goals.{IsRow, ReachesGoal, is_multiple};
ghost use Rattle.a68_coerce.specs.Below.{IsGoalBelow, IsTargetBelow};
ghost use Rattle.a68_coerce.specs.Paths.{Goes, IsFirstOnWay, MeekTo};
ghost use Rattle.a68_coerce.specs.Routes.{FindsMeekly, IsWanted, MayEnd, coercion_of, meek_way};
ghost use Rattle.a68_equiv.specs.declared.mode.Mode.{Mode};
ghost use Rattle.a68_equiv.specs.Classes.{AreExact};
ghost use Rattle.a68_equiv.specs.Related.{Meek, meek_step};
ghost use Rattle.a68_equiv.specs.Unfolding.{unfolded};
ghost use Rattle.a68_equiv.specs.Ways.{AreWellFormed};

use crate::form::{ModeForm, is_of_form};
use crate::goal::CoercionGoal;
use a68_equiv::{Classes, Mode, behind};
use a68_modes::{Coercion, Modes, Shape, Sort};

/// Is the mode a row of so many dimensions, with or without FLEX, of this element?
fn is_row(modes: &Modes, classes: &Classes, mode: Mode, dims: u32, flex: bool, of: Mode) -> bool
    requires exact { AreExact modes.now classes.now.of }
    requires mode { mode.id < length modes.now }
    requires of { of.id < length modes.now }
    ensures { IsTrue result ↔ IsRow modes.now mode dims flex of }
{
    match modes.shape(behind(modes, mode.id)) {
        Shape::Rows {
            dims: written,
            flex: flex_written,
            of: element,
        } => {
            let element = Mode {
                id: *element,
                fixed: mode.fixed,
            };
            *written == dims
                && (!mode.fixed && *flex_written) == flex
                && classes.are_same(element, of)
        }
        _ => false,
    }
}

/// Is the mode that of the goal?
fn reaches(modes: &Modes, classes: &Classes, mode: Mode, goal: CoercionGoal) -> bool
    requires exact { AreExact modes.now classes.now.of }
    requires mode { mode.id < length modes.now }
    requires goal { IsGoalBelow (length modes.now) goal }
    ensures { IsTrue result ↔ ReachesGoal modes.now mode goal }
{
    match goal {
        CoercionGoal::Mode(to) => classes.are_same(mode, to),
        CoercionGoal::Row { dims, flex, of } => is_row(modes, classes, mode, dims, flex, of),
        CoercionGoal::Name(to) => match modes.shape(behind(modes, mode.id)) {
            Shape::Ref(of) => classes.are_same(Mode::as_it_stands(*of), to),
            _ => false,
        },
        CoercionGoal::NameOfRow { dims, of } => match modes.shape(behind(modes, mode.id)) {
            Shape::Ref(row) => is_row(modes, classes, Mode::as_it_stands(*row), dims, false, of),
            _ => false,
        },
    }
}

/// What a walk looks for.
#[derive(Clone, Copy)]
pub enum Target {
    CoercionGoal(CoercionGoal),
    ModeForm(ModeForm),
}

/// Is the mode what is looked for?
fn is_wanted(modes: &Modes, classes: &Classes, mode: Mode, want: Target) -> bool
    requires exact { AreExact modes.now classes.now.of }
    requires mode { mode.id < length modes.now }
    requires want { IsTargetBelow (length modes.now) want }
    ensures { IsTrue result ↔ IsWanted modes.now want mode }
{
    match want {
        Target::CoercionGoal(goal) => reaches(modes, classes, mode, goal),
        Target::ModeForm(form) => is_of_form(modes, form, mode),
    }
}

/// A meek coercion, and the mode to which it leads.
#[derive(Clone, Copy)]
pub struct MeekStep {
    pub dereferences: bool,
    pub to: Mode,
}

impl MeekStep {
    /// Gives the coercion.
    pub fn coercion(self) -> Coercion
        ensures { result ≡ coercion_of self.dereferences }
    {
        if self.dereferences {
            Coercion::Deref
        } else {
            Coercion::Deproc
        }
    }
}

/// Gives the meek coercion of a mode.
pub fn next_step(modes: &Modes, mode: Mode) -> Option<MeekStep>
    requires { mode.id < length modes.now }
    ensures step { MatchOption result (meek_step (unfolded modes.now mode.id) ≡ None) (λ s. Meek modes.now mode (coercion_of s.dereferences ∷ []) s.to) }
    ensures there { IfSome result (λ s. s.to.id < length modes.now) }
    ensures nodes { HoldsNodes modes.now }
{
    let to = a68_equiv::meek(modes, mode)?;
    let dereferences = matches!(modes.shape(behind(modes, mode.id)), Shape::Ref(_));
    Some(MeekStep { dereferences, to })
}

fn is_multiple(shape: &Shape) -> bool
    ensures { result ≡ is_multiple shape.now }
{
    matches!(shape, Shape::Rows { .. } | Shape::Struct(_))
}

/// May a way of the sort end at this mode, by its last step? The last dereferencing of a weak way does not lead to a row
/// or a structure.
fn may_end(modes: &Modes, sort: Sort, dereferenced: bool, at: Mode) -> bool
    requires { at.id < length modes.now }
    ensures { IsTrue result ↔ MayEnd sort dereferenced (unfolded modes.now at.id) }
{
    match sort {
        Sort::Weak => !dereferenced || !is_multiple(modes.shape(behind(modes, at.id))),
        _ => true,
    }
}

/// Is the mode what is looked for, and may the way end there?
fn ends_well(
    modes: &Modes,
    classes: &Classes,
    sort: Sort,
    dereferenced: bool,
    at: Mode,
    want: Target,
) -> bool
    requires exact { AreExact modes.now classes.now.of }
    requires at { at.id < length modes.now }
    requires want { IsTargetBelow (length modes.now) want }
    ensures { IsTrue result ↔ (MayEnd sort dereferenced (unfolded modes.now at.id) × IsWanted modes.now want at) }
{
    if may_end(modes, sort, dereferenced, at) {
        is_wanted(modes, classes, at, want)
    } else {
        false
    }
}

/// Does a way of the sort break off at this step? A soft one does not dereference.
fn breaks_off(sort: Sort, step: MeekStep) -> bool
    ensures { IsTrue result ↔ ((sort ≡ Sort.Soft) × (step.dereferences ≡ true)) }
{
    match sort {
        Sort::Soft => step.dereferences,
        _ => false,
    }
}

/// A mode on a way, and how many coercions lead there.
#[derive(Clone, Copy)]
pub struct Reached {
    pub steps: u32,
    pub mode: Mode,
}

/// Finds the first mode on the way of a sort that is looked for.
pub fn reach(
    modes: &Modes,
    classes: &Classes,
    sort: Sort,
    from: Mode,
    want: Target,
) -> Option<Reached>
    requires formed { AreWellFormed modes.now }
    requires exact { AreExact modes.now classes.now.of }
    requires from { from.id < length modes.now }
    requires want { IsTargetBelow (length modes.now) want }
    ensures first { MatchOption result ((path : List Coercion) (k : Mode) → Goes modes.now sort from path k → IsWanted modes.now want k → ⊥) (λ r. IsFirstOnWay modes.now sort (IsWanted modes.now want) from (meek_way modes.now r.steps from) r.mode) }
    ensures there { IfSome result (λ r. r.mode.id < length modes.now) }
{
    let mut at = from;
    let mut steps = 0;
    let mut dereferenced = false;
    'onward: loop {
        if ends_well(modes, classes, sort, dereferenced, at, want) {
            return Some(Reached { steps, mode: at });
        }
        let Some(step) = next_step(modes, at) else {
            return None;
        };
        if breaks_off(sort, step) {
            return None;
        }
        at = step.to;
        dereferenced = step.dereferences;
        steps += 1;
    }
}

/// Counts the meek coercions to a goal.
pub fn meek(modes: &Modes, classes: &Classes, from: Mode, goal: CoercionGoal) -> Option<u32>
    requires formed { AreWellFormed modes.now }
    requires exact { AreExact modes.now classes.now.of }
    requires from { from.id < length modes.now }
    requires goal { IsGoalBelow (length modes.now) goal }
    ensures { FindsMeekly modes.now from (MeekTo modes.now from goal) result }
{
    match reach(modes, classes, Sort::Meek, from, Target::CoercionGoal(goal)) {
        Some(reached) => Some(reached.steps),
        None => None,
    }
}
