//! Unions with members that they may not have.
ghost use Rattle.std.specs.Prelude.{◌≡◌, ◌<◌, ◌+◌, ◌*◌, ◌↔◌, ◌⊎◌, IfOk, IsTrue, true, length, slice_index};
ghost use Rattle.std.specs.List.{All};
ghost use Rattle.a68_declare.specs.Broken.{AreClashing, AreDifferent, HasRelated, HasNoTwo, IsWrongUnion};
ghost use Rattle.a68_declare.specs.Unions.{HasClasses, LeadsAway, has_other};
ghost use Rattle.a68_declarers.specs.Declarers.{form_at, is_united, IsDeclarerAt};
ghost use Rattle.a68_declarers.specs.Modes.{ModesAreDeclared};
ghost use Rattle.a68_declarers.specs.Numbers.{number_at};
ghost use Rattle.a68_equiv.specs.Classes.{AreExact};
ghost use Rattle.a68_equiv.specs.Related.{as_it_stands};
ghost use Rattle.a68_equiv.specs.Unfolding.{unfolded, is_union};
ghost use Rattle.a68_equiv.specs.Ways.{AreWellFormed};
ghost use Rattle.a68_ranges.specs.Indexed.{IsLeast};

use a68_base::NoMemory;
use a68_declarers::{DeclarerForm, Numbers, form_of, is_declarer, sooner};
use a68_equiv::{Classes, Mode, among, meek};
use a68_modes::{ModeId, Modes};
use a68_tree::{NodeId, Tree};
use std::alloc::Global;
use std::collections::HashSet;

// The classes of these modes.
fn classes_of(
    alloc: Global,
    classes: &Classes,
    members: &[ModeId],
) -> Result<HashSet<u32>, NoMemory>
    requires { All (λ m. 2 * m + 1 < length classes.now.of) members.now }
    ensures { IfOk result (λ known. HasClasses classes.now.of members.now known.keys) }
{
    let mut known = HashSet::new(alloc);
    for member in members {
        let class = classes.class(Mode::as_it_stands(*member));
        known.insert(class)?;
    }
    Ok(known)
}

// Is the class of a mode another one than that, and one of those that are known?
fn is_other(classes: &Classes, known: &HashSet<u32>, own: u32, mode: Mode) -> bool
    requires { 2 * mode.id + 1 < length classes.now.of }
    ensures { result ≡ has_other classes.now.of known.now.keys own mode }
{
    let class = classes.class(mode);
    class != own && known.contains(&class)
}

// Does the mode at a place lead meekly to a different one of these? One way through what it leads to meets them all.
fn clashes(
    modes: &Modes,
    classes: &Classes,
    known: &HashSet<u32>,
    members: &[ModeId],
    place: usize,
) -> bool
    requires formed { AreWellFormed modes.now }
    requires exact { AreExact modes.now classes.now.of }
    requires known { HasClasses classes.now.of members.now known.now.keys }
    requires members { All (λ m. m < length modes.now) members.now }
    requires there { place < length members.now }
    ensures { IsTrue result ↔ LeadsAway modes.now members.now (slice_index members.now place) (as_it_stands (slice_index members.now place)) }
{
    let mut at = Mode::as_it_stands(members[place]);
    let own = classes.class(at);
    'meekly: loop {
        if is_other(classes, known, own, at) {
            return true;
        }
        let Some(next) = meek(modes, at) else {
            return false;
        };
        at = next;
    }
}

// Are two of these modes different and firmly related?
fn any_clash(
    alloc: Global,
    modes: &Modes,
    classes: &Classes,
    members: &[ModeId],
) -> Result<bool, NoMemory>
    requires formed { AreWellFormed modes.now }
    requires exact { AreExact modes.now classes.now.of }
    requires members { All (λ m. m < length modes.now) members.now }
    ensures { IfOk result (λ are. IsTrue are ↔ AreClashing modes.now members.now) }
{
    let _there = modes.len();
    let known = classes_of(alloc, classes, members)?;
    for place in 0..members.len() {
        if clashes(modes, classes, &known, members, place) {
            return Ok(true);
        }
    }
    Ok(false)
}

// Are two of these modes different?
fn any_different(modes: &Modes, classes: &Classes, members: &[ModeId]) -> bool
    requires exact { AreExact modes.now classes.now.of }
    requires members { All (λ m. m < length modes.now) members.now }
    ensures { IsTrue result ↔ AreDifferent modes.now members.now }
{
    let _there = modes.len();
    for member in members {
        if !classes.same(members[0], *member) {
            return true;
        }
    }
    false
}

// Are two of these modes different and firmly related, or no two different?
fn are_wrong(
    alloc: Global,
    modes: &Modes,
    classes: &Classes,
    members: &[ModeId],
) -> Result<bool, NoMemory>
    requires formed { AreWellFormed modes.now }
    requires exact { AreExact modes.now classes.now.of }
    requires members { All (λ m. m < length modes.now) members.now }
    ensures { IfOk result (λ wrong. IsTrue wrong ↔ (AreClashing modes.now members.now ⊎ (AreDifferent modes.now members.now → ⊥))) }
{
    if !any_different(modes, classes, members) {
        return Ok(true);
    }
    let wrong = any_clash(alloc, modes, classes, members)?;
    Ok(wrong)
}

// Has a union different members that are related, or no two different ones?
fn is_wrong(
    alloc: Global,
    modes: &Modes,
    classes: &Classes,
    union: ModeId,
) -> Result<bool, NoMemory>
    requires formed { AreWellFormed modes.now }
    requires exact { AreExact modes.now classes.now.of }
    requires there { union < length modes.now }
    requires united { is_union (unfolded modes.now union) ≡ true }
    ensures { IfOk result (λ wrong. IsTrue wrong ↔ (HasRelated modes.now union ⊎ HasNoTwo modes.now union)) }
{
    let members = among(alloc, modes, union)?;
    let wrong = are_wrong(alloc, modes, classes, &members.items)?;
    Ok(wrong)
}

// Is the node a wrong union?
fn is_wrong_union(
    alloc: Global,
    tree: &Tree,
    modes: &Modes,
    classes: &Classes,
    numbers: &Numbers,
    id: NodeId,
) -> Result<bool, NoMemory>
    requires there { id < length tree.now.nodes }
    requires declared { ModesAreDeclared tree.now modes.now (number_at numbers.now) }
    requires formed { AreWellFormed modes.now }
    requires exact { AreExact modes.now classes.now.of }
    ensures { IfOk result (λ wrong. IsTrue wrong ↔ IsWrongUnion tree.now modes.now (number_at numbers.now) id) }
{
    if !is_declarer(tree, id) {
        return Ok(false);
    }
    match form_of(tree, id) {
        DeclarerForm::Union => {
            let wrong = is_wrong(alloc, modes, classes, numbers.of(id, false))?;
            Ok(wrong)
        }
        _ => Ok(false),
    }
}

/// The first union in the text that has different members that are firmly related, or no two different ones.
pub fn wrong_union(
    alloc: Global,
    tree: &Tree,
    modes: &Modes,
    classes: &Classes,
    numbers: &Numbers,
) -> Result<Option<NodeId>, NoMemory>
    requires declared { ModesAreDeclared tree.now modes.now (number_at numbers.now) }
    requires formed { AreWellFormed modes.now }
    requires exact { AreExact modes.now classes.now.of }
    ensures { IfOk result (λ found. IsLeast tree.now (IsWrongUnion tree.now modes.now (number_at numbers.now)) found) }
{
    let mut found = None;
    for id in 0..tree.len() {
        let wrong = is_wrong_union(alloc, tree, modes, classes, numbers, id)?;
        if wrong {
            found = sooner(tree, found, id);
        }
    }
    Ok(found)
}
