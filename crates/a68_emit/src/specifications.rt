//! The specifications of conformity clauses, and which members they take.
ghost use Rattle.std.specs.Prelude.{◌≡◌, ◌<◌, ◌+◌, ◌⊎◌, length, ℕ, IfOk};
ghost use Rattle.a68_acts.specs.Members.{members_of};
ghost use Rattle.a68_acts.specs.Operations as operations;
ghost use Rattle.a68_elab.specs.Made as made;
ghost use Rattle.a68_elab.specs.Made.{specs_of};
ghost use Rattle.a68_elab.specs.Programs.{behind};
ghost use Rattle.a68_elab.specs.Rows.{is_among};
ghost use Rattle.a68_elab.specs.Trees.{Tree};
ghost use Rattle.a68_emit.specs.Conforming.{IsUnaimed, takes_of};
ghost use Rattle.a68_emit.specs.Numbers.{put_all};
ghost use Rattle.a68_emit.specs.Stretches.{member_places, place_for, whole_for, wholes_of};
ghost use Rattle.a68_emit.specs.Views.{tree_of};
ghost use Rattle.a68_emit.specs.Writing.{ran_out};
ghost use Rattle.a68_modes.specs.Nodes.{shape_at};
ghost use Rattle.a68_tree.specs.Trees.{AllBetween};

use crate::emit::zeros;
use crate::view::View;
use crate::writer::Writer;
use a68_base::NoMemory;
use a68_code::{Does, Places};
use a68_modes::{ModeId, Modes, Shape};
use a68_tree::NodeId;
use std::alloc::Global;

/// The mode that is asked of a node.
pub fn goal_at(program: &View, id: NodeId) -> ModeId
    requires { id < length program.now.of.now.tree.nodes }
    ensures { result ≡ made.goal_at program.now.of.now id }
{
    program.of.note(id).goal
}

// The mode of a specification: that of its declarer.
fn spec_mode(program: &View, id: NodeId) -> ModeId
    requires { id < length program.now.of.now.tree.nodes }
    ensures { result ≡ made.spec_mode program.now.of.now (made.parts_at program.now.of.now id) }
{
    let parts = program.of.parts(id);
    if parts.len() == 0 {
        return 0;
    }
    goal_at(program, parts[0])
}

/// Has a specification a tag?
pub fn has_tag(program: &View, id: NodeId) -> bool
    requires { id < length program.now.of.now.tree.nodes }
    ensures { result ≡ made.has_tag (made.parts_at program.now.of.now id) }
{
    program.of.parts(id).len() == 2
}

// Is a mode one of these?
fn is_among(mode: ModeId, modes: &[ModeId]) -> bool
    ensures { result ≡ is_among mode modes.now }
{
    for other in modes {
        if mode == *other {
            return true;
        }
    }
    false
}

/// The members of a union; none of another mode.
pub fn members_of(modes: &Modes, mode: ModeId) -> &[ModeId]
    ensures { result.now ≡ members_of (shape_at modes.now mode) }
{
    if mode >= modes.len() {
        return &[];
    }
    match modes.shape(mode) {
        Shape::Union(members) => &members.items,
        _ => &[],
    }
}

// Is a mode a union?
fn is_union(modes: &Modes, mode: ModeId) -> bool
    ensures { result ≡ operations.is_union (shape_at modes.now mode) }
{
    mode < modes.len() && matches!(modes.shape(mode), Shape::Union(_))
}

// Does a specification of this mode take a member?
fn takes(modes: &Modes, mode: ModeId, member: ModeId) -> bool
    ensures { result ≡ is_among member (takes_of (shape_at modes.now mode) mode) }
{
    if is_union(modes, mode) {
        is_among(member, members_of(modes, mode))
    } else {
        member == mode
    }
}

// The place of the first of these specifications that takes a member, of these places; that for none where there is none.
fn place_for(
    program: &View,
    id: NodeId,
    specs: &[NodeId],
    member: ModeId,
    starts: &[u32],
    none: u32,
) -> u32
    requires { AllBetween id (length program.now.of.now.tree.nodes) specs.now }
    ensures { (f : ℕ → Tree) → result ≡ place_for member (specs_of program.now.of.now f specs.now) starts.now none }
{
    let mut at = 0;
    let mut which = 0;
    while at + 1 < specs.len() {
        if which >= starts.len() {
            return none;
        }
        if takes(program.of.modes(), spec_mode(program, specs[at]), member) {
            return starts[which];
        }
        which += 1;
        at += 2;
    }
    none
}

// 1 where the first of these specifications that takes a member takes the united value.
fn whole_for(program: &View, id: NodeId, specs: &[NodeId], member: ModeId) -> u32
    requires { AllBetween id (length program.now.of.now.tree.nodes) specs.now }
    ensures { (f : ℕ → Tree) → result ≡ whole_for member (specs_of program.now.of.now f specs.now) }
{
    let mut at = 0;
    while at + 1 < specs.len() {
        let mode = spec_mode(program, specs[at]);
        if takes(program.of.modes(), mode, member) {
            return u32::from(is_union(program.of.modes(), mode));
        }
        at += 2;
    }
    0
}

// Where each of these members is taken, and the place for none.
fn places_for(
    alloc: Global,
    program: &View,
    id: NodeId,
    specs: &[NodeId],
    members: &[ModeId],
    starts: &[u32],
    none: u32,
) -> Result<Vec<u32>, NoMemory>
    requires { AllBetween id (length program.now.of.now.tree.nodes) specs.now }
    ensures { IfOk result (λ places. places.items ≡ member_places members.now (specs_of program.now.of.now (behind id (tree_of program.now)) specs.now) starts.now none) }
{
    let mut places = Vec::new(alloc);
    for member in members {
        places.push(place_for(program, id, specs, *member, starts, none))?;
    }
    places.push(none)?;
    Ok(places)
}

// Which of these members are left united.
fn wholes_for(
    alloc: Global,
    program: &View,
    id: NodeId,
    specs: &[NodeId],
    members: &[ModeId],
) -> Result<Vec<u32>, NoMemory>
    requires { AllBetween id (length program.now.of.now.tree.nodes) specs.now }
    ensures { IfOk result (λ wholes. wholes.items ≡ wholes_of members.now (specs_of program.now.of.now (behind id (tree_of program.now)) specs.now)) }
{
    let mut wholes = Vec::new(alloc);
    for member in members {
        wholes.push(whole_for(program, id, specs, *member))?;
    }
    Ok(wholes)
}

/// A Member whose places are yet to come.
pub fn unaimed(
    alloc: Global,
    program: &View,
    id: NodeId,
    specs: &[NodeId],
    union: ModeId,
    members: &[ModeId],
) -> Result<Does, NoMemory>
    requires { AllBetween id (length program.now.of.now.tree.nodes) specs.now }
    ensures { IfOk result (IsUnaimed union (length members.now + 1) (wholes_of members.now (specs_of program.now.of.now (behind id (tree_of program.now)) specs.now))) }
{
    let places = zeros(alloc, members.len() + 1)?;
    let whole = wholes_for(alloc, program, id, specs, members)?;
    Ok(Does::Member {
        mode: union,
        places: Places { items: places },
        whole: Places { items: whole },
    })
}

/// Puts its places into a Member.
pub fn aim_member(
    alloc: Global,
    program: &View,
    id: NodeId,
    specs: &[NodeId],
    members: &[ModeId],
    at: u32,
    starts: &[u32],
    none: u32,
    out: &mut Writer,
)
    requires { AllBetween id (length program.now.of.now.tree.nodes) specs.now }
    ensures { ((out.new.list ≡ put_all out.old.list at 0 (member_places members.now (specs_of program.now.of.now (behind id (tree_of program.now)) specs.now) starts.now none))
        × (out.new.stop ≡ out.old.stop)) ⊎ (out.new.stop ≡ ran_out out.old.stop) }
{
    match places_for(alloc, program, id, specs, members, starts, none) {
        Ok(places) => out.patch_each(at, &places),
        Err(_) => out.run_out(),
    }
}
