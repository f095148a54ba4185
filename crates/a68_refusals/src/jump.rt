//! Jumps that may not be made.
ghost use Rattle.std.specs.Prelude.{◌≡◌, ◌<◌, IfOk, length, nat_eq, replicate, slice_index_or, slice_set};
ghost use Rattle.a68_positions.specs.Below.{IsPositionBelow};
ghost use Rattle.a68_refusals.specs.Jumps as specs;

use crate::rule::NodeRule;
use a68_base::NoMemory;
use a68_definitions::{is_label, kind_of, parts_of};
use a68_modes::{Modes, Shape};
use a68_positions::Position;
use a68_tree::{NodeId, NodeKind, Tree};
use std::alloc::Global;

// ---- what stands about each node

// Is it a node of that kind that a jump does not leave?
fn is_wall(kind: NodeKind) -> bool
    ensures { result ≡ specs.is_wall kind }
{
    match kind {
        NodeKind::RoutineText | NodeKind::Parallel | NodeKind::ModeDefinition => true,
        _ => false,
    }
}

// Gives what a table has for a node; 0 for a number of no node.
fn wall_of(walls: &[u32], node: NodeId) -> u32
    ensures { result ≡ slice_index_or walls.now node 0 }
{
    match walls.get(node as usize) {
        Some(wall) => *wall,
        None => 0,
    }
}

// Gives the innermost wall about the parts of a node, by that about the node.
fn wall_within(node: NodeId, wall: u32, kind: NodeKind, nodes: u32) -> u32
    requires { node < nodes }
    ensures { result ≡ specs.wall_within node wall kind }
{
    let _nodes = nodes;
    if is_wall(kind) { node + 1 } else { wall }
}

// Notes a wall about a node; nothing where there is no such node.
fn note(walls: &mut [u32], node: NodeId, wall: u32)
    ensures { walls.new ≡ slice_set walls.old node wall }
{
    let place = node as usize;
    if place < walls.len() {
        walls[place] = wall;
    }
}

// Notes a wall about all these nodes.
fn note_all(walls: &mut [u32], nodes: &[NodeId], wall: u32)
    ensures { walls.new ≡ specs.set_all nodes.now wall walls.old }
{
    for node in nodes {
        note(walls, *node, wall);
    }
}

// Notes the innermost wall about the parts of a node.
fn note_parts(tree: &Tree, walls: &mut [u32], node: NodeId)
    requires { node < length tree.now.nodes }
    ensures { walls.new ≡ specs.with_walls tree.now node walls.old }
{
    let own = wall_of(walls, node);
    let wall = wall_within(node, own, kind_of(tree, node), tree.len());
    note_all(walls, parts_of(tree, node), wall);
}

// Notes the innermost walls about the nodes of a tree.
#[tactic(auto, unfolding(crate::specs::Jumps::walls))]
fn note_walls(tree: &Tree, walls: &mut [u32])
    requires { walls.old ≡ replicate (length tree.now.nodes) 0 }
    ensures { walls.new ≡ specs.walls tree.now }
{
    for node in 0..tree.len() {
        note_parts(tree, walls, node);
    }
}

/// Finds the innermost routine text, parallel clause or definition of a mode about each node: one more than its number; 0
/// where there is none.
pub fn walls_of(alloc: Global, tree: &Tree) -> Result<Vec<u32>, NoMemory>
    ensures { IfOk result (λ walls. walls.items ≡ specs.walls tree.now) }
{
    let mut walls = vec![in alloc; 0; tree.len() as usize]?;
    note_walls(tree, &mut walls);
    Ok(walls)
}

// ---- the rules

// Is the same wall the innermost one about two nodes?
fn same_wall(walls: &[u32], one: NodeId, other: NodeId) -> bool
    ensures { result ≡ nat_eq (slice_index_or walls.now one 0) (slice_index_or walls.now other 0) }
{
    wall_of(walls, one) == wall_of(walls, other)
}

// Is the definition that of a label, and does the jump leave nothing that it may not?
fn may_reach(tree: &Tree, walls: &[u32], node: NodeId, definition: Option<NodeId>) -> bool
    requires { walls.now ≡ specs.walls tree.now }
    ensures { result ≡ specs.may_reach tree.now node definition }
{
    match definition {
        None => false,
        Some(definition) => { is_label(tree, definition) && same_wall(walls, node, definition) }
    }
}

// Is it the mode of a procedure without parameters?
fn takes_none(shape: &Shape) -> bool
    ensures { result ≡ specs.takes_none shape.now }
{
    match shape {
        Shape::Proc { params, .. } => params.items.is_empty(),
        _ => false,
    }
}

// Is a procedure without parameters asked for?
fn is_routine_asked(modes: &Modes, own: Position) -> bool
    requires { IsPositionBelow (length modes.now) own }
    ensures { result ≡ specs.is_routine_asked modes.now own }
{
    match own {
        Position::Goal(mode, _) => takes_none(modes.shape(mode)),
        _ => false,
    }
}

/// Finds the rule of jumps that a jump breaks, by the definition of its tag and what is asked of it.
pub fn jump_rule(
    tree: &Tree,
    modes: &Modes,
    walls: &[u32],
    node: NodeId,
    definition: Option<NodeId>,
    own: Position,
) -> Option<NodeRule>
    requires own { IsPositionBelow (length modes.now) own }
    requires walls { walls.now ≡ specs.walls tree.now }
    ensures { result ≡ specs.jump_rule tree.now modes.now node definition own }
{
    if !may_reach(tree, walls, node, definition) {
        Some(NodeRule::J1)
    } else if is_routine_asked(modes, own) {
        Some(NodeRule::J2)
    } else {
        None
    }
}
