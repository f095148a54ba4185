//! Modes of which is seen at once, without memory, that they neither fit nor are related: none leads meekly to the other, or
//! to a member of it.
ghost use Rattle.std.specs.Prelude.{◌≡◌, ◌≢◌, ◌<◌, ◌+◌, ◌*◌, ◌∷◌, ◌||◌, [], ℕ, false, nat_eq, IfOk, IsTrue, Some, length};
ghost use Rattle.std.specs.List.{All, Contains, list_any};
ghost use Rattle.a68_coerce.specs.Below.{IsLeafBelow};
ghost use Rattle.a68_coerce.specs.declared.leaf.Leaf.TheVariants as leaf;
ghost use Rattle.a68_equiv.specs.Classes.{AreExact, class_of};
ghost use Rattle.a68_equiv.specs.Related.{AreRelated, as_it_stands};
ghost use Rattle.a68_equiv.specs.Unfolding as unfolds;
ghost use Rattle.a68_equiv.specs.Unfolding.{unfolded};
ghost use Rattle.a68_equiv.specs.Ways.{AreWellFormed};
ghost use Rattle.a68_identify.specs.Apart.{AreBare, IsMet, KnowsAll, NeverFirm};
ghost use Rattle.a68_identify.specs.Identified.{OperandFits};
ghost use Rattle.a68_modes.specs.Nodes.{shape_at};
ghost use Rattle.a68_modes.specs.declared.shape.Shape.TheVariants.{Union};

use a68_base::NoMemory;
use a68_coerce::Leaf;
use a68_equiv::{Classes, Mode, behind, leads, meek};
use a68_modes::{ModeId, Modes, Shape};
use std::alloc::Global;
use std::collections::HashSet;

/// What an operand meets where it is a unit that stands alone: its mode, the classes of the modes to which that leads meekly,
/// and whether one of them is a union. It is found once for each formula, and then asked for each operator.
#[derive(Drop)]
pub struct Met {
    of: Option<ModeId>,
    classes: HashSet<u32>,
    union: bool,
}

/// The mode of a unit that stands alone.
fn lone_mode(leaves: &[Leaf]) -> Option<ModeId>
    ensures { (mode : ℕ) → result ≡ Some mode → leaves.now ≡ leaf.Mode mode ∷ [] }
{
    match leaves {
        [Leaf::Mode(mode)] => Some(*mode),
        _ => None,
    }
}

/// Is a shape that of a union?
fn is_union_shape(shape: &Shape) -> bool
    ensures { result ≡ unfolds.is_union shape.now }
{
    matches!(shape, Shape::Union(_))
}

/// Is a mode a union?
fn is_union(modes: &Modes, mode: ModeId) -> bool
    requires { mode < length modes.now }
    ensures { result ≡ unfolds.is_union (unfolded modes.now mode) }
{
    is_union_shape(modes.shape(behind(modes, mode)))
}

fn either(one: bool, other: bool) -> bool
    ensures { result ≡ (one || other) }
{
    one || other
}

/// Notes the classes of the modes to which a mode leads meekly. Is one of them a union?
fn note_all(
    known: &mut HashSet<u32>,
    modes: &Modes,
    classes: &Classes,
    from: ModeId,
) -> Result<bool, NoMemory>
    requires formed { AreWellFormed modes.now }
    requires exact { AreExact modes.now classes.now.of }
    requires from { from < length modes.now }
    ensures { IfOk result (λ union. KnowsAll modes.now classes.now.of known.new.keys union (as_it_stands from)) }
{
    let _there = modes.len();
    let mut union = false;
    let mut at = Mode::as_it_stands(from);
    'meekly: loop {
        known.insert(classes.class(at))?;
        union = either(union, is_union(modes, at.id));
        let Some(next) = meek(modes, at) else {
            return Ok(union);
        };
        at = next;
    }
}

/// Finds what an operand meets.
pub fn met_by(
    alloc: Global,
    modes: &Modes,
    classes: &Classes,
    leaves: &[Leaf],
) -> Result<Met, NoMemory>
    requires formed { AreWellFormed modes.now }
    requires exact { AreExact modes.now classes.now.of }
    requires leaves { All (IsLeafBelow (length modes.now)) leaves.now }
    ensures { IfOk result (λ met. IsMet modes.now classes.now.of leaves.now met.of met.classes.keys met.union) }
{
    let Some(from) = lone_mode(leaves) else {
        return Ok(Met {
            of: None,
            classes: HashSet::new(alloc),
            union: false,
        });
    };
    let mut known = HashSet::new(alloc);
    let union = note_all(&mut known, modes, classes, from)?;
    Ok(Met {
        of: Some(from),
        classes: known,
        union,
    })
}

/// Is a shape a mode word or a union?
fn leads_on(shape: &Shape) -> bool
    ensures { result ≡ unfolds.leads_within shape.now }
{
    matches!(shape, Shape::Union(_) | Shape::Same(_))
}

/// Is none of these modes a mode word or a union?
fn are_bare(modes: &Modes, members: &[ModeId]) -> bool
    requires { All (λ m. m < length modes.now) members.now }
    ensures { IsTrue result → AreBare modes.now members.now }
{
    for member in members {
        if leads_on(modes.shape(*member)) {
            return false;
        }
    }
    true
}

/// Is the class of a mode among those that an operand meets?
fn knows(classes: &Classes, met: &Met, mode: ModeId) -> bool
    requires { 2 * mode + 1 < length classes.now.of }
    ensures { result ≡ list_any (nat_eq (class_of classes.now.of (as_it_stands mode))) met.now.classes.keys }
{
    let class = classes.class(Mode::as_it_stands(mode));
    met.classes.contains(&class)
}

/// Is the class of one of these modes among those that an operand meets?
fn knows_any(classes: &Classes, met: &Met, members: &[ModeId]) -> bool
    requires { All (λ m. 2 * m + 1 < length classes.now.of) members.now }
    ensures { result ≡ false → (x : ℕ) → Contains members.now x → list_any (nat_eq (class_of classes.now.of (as_it_stands x))) met.now.classes.keys ≡ false }
{
    for member in members {
        if knows(classes, met, *member) {
            return true;
        }
    }
    false
}

/// Is it seen at once that an operand leads firmly to no union of these members?
fn is_apart_from(
    modes: &Modes,
    classes: &Classes,
    met: &Met,
    members: &[ModeId],
    from: ModeId,
    union: ModeId,
) -> bool
    requires exact { AreExact modes.now classes.now.of }
    requires known { KnowsAll modes.now classes.now.of met.now.classes.keys met.now.union (as_it_stands from) }
    requires there { union < length modes.now }
    requires members { shape_at modes.now union ≡ Union members.now }
    requires below { All (λ m. m < length modes.now) members.now }
    ensures { IsTrue result → NeverFirm modes.now from union }
{
    let _there = modes.len();
    if !are_bare(modes, members) {
        return false;
    }
    if met.union {
        return false;
    }
    if knows_any(classes, met, members) {
        return false;
    }
    !knows(classes, met, union)
}

/// Is it seen at once that an operand does not fit a parameter? What it meets is told.
pub fn is_apart(
    modes: &Modes,
    classes: &Classes,
    leaves: &[Leaf],
    met: &Met,
    parameter: ModeId,
) -> bool
    requires exact { AreExact modes.now classes.now.of }
    requires met { IsMet modes.now classes.now.of leaves.now met.now.of met.now.classes.keys met.now.union }
    requires parameter { parameter < length modes.now }
    requires mode { parameter ≢ 0 }
    ensures { IsTrue result → OperandFits modes.now leaves.now parameter → ⊥ }
{
    let Some(from) = met.of else {
        return false;
    };
    if let Shape::Union(members) = modes.shape(parameter) {
        return is_apart_from(modes, classes, met, &members.items, from, parameter);
    }
    if is_union(modes, parameter) {
        return false;
    }
    !knows(classes, met, parameter)
}

/// Is it seen at once that two modes are not related?
pub fn are_apart(modes: &Modes, classes: &Classes, one: ModeId, other: ModeId) -> bool
    requires formed { AreWellFormed modes.now }
    requires exact { AreExact modes.now classes.now.of }
    requires one { one < length modes.now }
    requires other { other < length modes.now }
    ensures { IsTrue result → AreRelated modes.now one other → ⊥ }
{
    if is_union(modes, one) {
        return false;
    }
    if is_union(modes, other) {
        return false;
    }
    if leads(modes, classes, one, other) {
        return false;
    }
    !leads(modes, classes, other, one)
}
