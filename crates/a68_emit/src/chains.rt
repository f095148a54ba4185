//! Chains of choices: each but the first is the other part of the one before it.
ghost use Rattle.std.specs.Option.{option_map_or};
ghost use Rattle.std.specs.Prelude.{◌≡◌, ◌<◌, ℕ, [], length, not, IfSome, IsTrue, MatchOption};
ghost use Rattle.a68_elab.specs.Made.{choice_of, left_out, with_enquiry};
ghost use Rattle.a68_elab.specs.Trees as trees;
ghost use Rattle.a68_elab.specs.Trees.{Tree};
ghost use Rattle.a68_emit.specs.Chains.{LinkIsWithin, link_tree};
ghost use Rattle.a68_emit.specs.Views.{tree_of};
ghost use Rattle.a68_modes.specs.Nodes.{shape_at, is_void};
ghost use Rattle.a68_tree.specs.Trees.{AllBetween};

use crate::view::View;
use a68_annot::Note;
use a68_modes::ModeId;
use a68_tree::{Node, NodeId, NodeKind};

/// A choice: its node, the parts of it, the byte at which it begins, the mode that is asked of it and whether that is a
/// value, and the range that its enquiry begins: the byte, and the slots of its frame.
#[derive(Clone, Copy)]
pub struct Link {
    pub id: NodeId,
    pub enquiry: NodeId,
    pub part: NodeId,
    pub other: Option<NodeId>,
    pub place: u32,
    pub goal: ModeId,
    pub yields: bool,
    pub at: u32,
    pub slots: u32,
}

// The choice of these parts, with what its enquiry begins.
fn link_with(
    program: &View,
    id: NodeId,
    enquiry: NodeId,
    part: NodeId,
    other: Option<NodeId>,
    place: u32,
    goal: ModeId,
) -> Link
    requires enquiry { (id < enquiry) × (enquiry < length program.now.of.now.tree.nodes) }
    requires part { (id < part) × (part < length program.now.of.now.tree.nodes) }
    requires other { IfSome other (λ p. (id < p) × (p < length program.now.of.now.tree.nodes)) }
    ensures tree { (f : ℕ → Tree) → with_enquiry program.now.of.now f place (not (is_void (shape_at program.now.of.now.modes goal))) enquiry
        (λ e. trees.choice place e (f part) (option_map_or f other (left_out place goal))) ≡ link_tree program.now.of.now f result }
    ensures within { LinkIsWithin program.now.of.now result }
    ensures node { result.id ≡ id }
{
    let node = program.of.node(enquiry);
    let _parts = program.of.parts(enquiry);
    let slots = program.of.note(enquiry).slots;
    Link {
        id,
        enquiry,
        part,
        other,
        place,
        goal,
        yields: !program.of.is_void(goal),
        at: node.span.from,
        slots,
    }
}

/// The choice of a node with these parts, where there are two or three.
pub fn link_of(
    program: &View,
    id: NodeId,
    parts: &[NodeId],
    place: u32,
    goal: ModeId,
) -> Option<Link>
    requires { AllBetween id (length program.now.of.now.tree.nodes) parts.now }
    ensures tree { (f : ℕ → Tree) → MatchOption result (choice_of program.now.of.now f place goal (not (is_void (shape_at program.now.of.now.modes goal))) parts.now ≡ trees.meaningless)
        (λ link. choice_of program.now.of.now f place goal (not (is_void (shape_at program.now.of.now.modes goal))) parts.now ≡ link_tree program.now.of.now f link) }
    ensures within { IfSome result (LinkIsWithin program.now.of.now) }
    ensures node { IfSome result (λ link. link.id ≡ id) }
{
    if parts.len() == 2 {
        return Some(link_with(program, id, parts[0], parts[1], None, place, goal));
    }
    if parts.len() == 3 {
        return Some(link_with(program, id, parts[0], parts[1], Some(parts[2]), place, goal));
    }
    None
}

// Is a node a choice without coercions?
fn is_link(node: &Node, note: &Note) -> bool
    ensures kind { IsTrue result → node.now.kind ≡ NodeKind.Conditional }
    ensures path { IsTrue result → note.now.path ≡ [] }
{
    matches!(node.kind, NodeKind::Conditional) && note.path.items.is_empty()
}

/// The next choice of a chain, where there is one.
pub fn next_link(program: &View, link: &Link) -> Option<Link>
    requires { LinkIsWithin program.now.of.now link.now }
    ensures tree { IfSome result (λ next. tree_of program.now next.id ≡ link_tree program.now.of.now (tree_of program.now) next) }
    ensures within { IfSome result (LinkIsWithin program.now.of.now) }
    ensures there { IfSome result (λ next. (link.now.other ≡ Some next.id) × (link.now.id < next.id)) }
{
    let Some(id) = link.other else {
        return None;
    };
    let node = program.of.node(id);
    let note = program.of.note(id);
    if !is_link(node, note) {
        return None;
    }
    if !program.of.surely_runs(id) {
        return None;
    }
    let place = node.span.from;
    let parts = &node.parts.items;
    let next = link_of(program, id, parts, place, note.goal);
    next
}
