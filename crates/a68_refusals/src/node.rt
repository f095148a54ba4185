//! The rules that a node breaks by itself.
ghost use Rattle.std.specs.Prelude.{◌≡◌, ◌<◌, ◌+◌, ℕ, List, length, slice_index_or};
ghost use Rattle.a68_definitions.specs.Defined.{AllBelow};
ghost use Rattle.a68_fields.specs.Fields.{AreFieldsOf};
ghost use Rattle.a68_modes.specs.Nodes.{shape_at};
ghost use Rattle.a68_modes.specs.declared.shape.Shape.{Shape};
ghost use Rattle.a68_positions.specs.Below.{IsPositionBelow};
ghost use Rattle.a68_ranges.specs.Nodes.{name_at, parts_at};
ghost use Rattle.a68_refusals.specs.Jumps as jumps;
ghost use Rattle.a68_refusals.specs.Rules as specs;
ghost use Rattle.a68_yields.specs.Below.{IsFindingBelow};
ghost use Rattle.a68_yields.specs.Parts as parts;

use crate::jump::jump_rule;
use crate::rule::NodeRule;
use a68_declarers::place_of as start_of;
use a68_definitions::{Tags, called_by, called_tag, is_label, part_number, parts_of};
use a68_fields::FieldTable;
use a68_modes::{ModeId, Modes, Shape};
use a68_positions::Position;
use a68_ranges::tags;
use a68_tree::{NodeId, NodeKind, Tree};
use a68_yields::{
    Finding, Rowed, Structured, Yielding, as_row, as_structure, is_unknown, yield_of,
};

// Gives the name of a node.
fn name_of(tree: &Tree, node: NodeId) -> u32
    ensures { result ≡ name_at tree.now node }
{
    if node < tree.len() {
        tree.node(node).name
    } else {
        0
    }
}

// ---- tags

fn is_called(own: Position) -> bool
    ensures { result ≡ specs.is_called own }
{
    matches!(own, Position::Called)
}

fn uncalled(called: Option<u32>, own: Position) -> Option<NodeRule>
    ensures { result ≡ specs.uncalled called own }
{
    match called {
        None => None,
        Some(_) => {
            if is_called(own) {
                None
            } else {
                Some(NodeRule::P2)
            }
        }
    }
}

fn tag_rule(
    tree: &Tree,
    definition: Option<NodeId>,
    called: Option<u32>,
    own: Position,
) -> Option<NodeRule>
    ensures { result ≡ specs.tag_rule tree.now definition called own }
{
    match definition {
        None => Some(NodeRule::N1),
        Some(definition) => {
            if is_label(tree, definition) {
                Some(NodeRule::J2)
            } else {
                uncalled(called, own)
            }
        }
    }
}

// ---- selections

fn lacking_rule(fields: &FieldTable, field: u32, node: ModeId) -> Option<NodeRule>
    ensures { (nodes : List Shape) → AreFieldsOf nodes fields.now → result ≡ specs.no_field (parts.field_mode field (parts.fields_of (shape_at nodes node))) }
{
    match fields.find(node, field) {
        None => Some(NodeRule::N4),
        Some(_) => None,
    }
}

fn field_rule(fields: &FieldTable, field: u32, structured: Option<Structured>) -> Option<NodeRule>
    ensures { (nodes : List Shape) → AreFieldsOf nodes fields.now → result ≡ specs.field_rule nodes field structured }
{
    match structured {
        None => None,
        Some(it) => lacking_rule(fields, field, it.node),
    }
}

fn selection_rule(
    modes: &Modes,
    fields: &FieldTable,
    field: u32,
    found: Finding,
) -> Option<NodeRule>
    requires found { IsFindingBelow (length modes.now) found }
    requires fields { AreFieldsOf modes.now fields.now }
    ensures { result ≡ specs.selection_rule modes.now field found }
{
    match found {
        Finding::Mode(Some(mode)) => field_rule(fields, field, as_structure(modes, mode)),
        _ => None,
    }
}

// ---- formulas and identity relations

fn is_one_unknown(yields: &[Yielding], parts: &[NodeId]) -> bool
    ensures { result ≡ specs.is_one_unknown yields.now parts.now }
{
    for part in parts {
        if is_unknown(yield_of(yields, *part)) {
            return true;
        }
    }
    false
}

fn known_break(yields: &[Yielding], parts: &[NodeId], rule: NodeRule) -> Option<NodeRule>
    ensures { result ≡ specs.known_break yields.now parts.now rule }
{
    if is_one_unknown(yields, parts) {
        None
    } else {
        Some(rule)
    }
}

fn formula_rule(yields: &[Yielding], parts: &[NodeId], found: Finding) -> Option<NodeRule>
    ensures { result ≡ specs.formula_rule yields.now parts.now found }
{
    match found {
        Finding::Operator(None) => known_break(yields, parts, NodeRule::O1),
        _ => None,
    }
}

fn identity_rule(yields: &[Yielding], parts: &[NodeId], found: Finding) -> Option<NodeRule>
    ensures { result ≡ specs.identity_rule yields.now parts.now found }
{
    match found {
        Finding::Mode(None) => known_break(yields, parts, NodeRule::C2),
        _ => None,
    }
}

// ---- counts

fn counted(count: usize, due: usize) -> Option<NodeRule>
    ensures { result ≡ specs.counted count due }
{
    if count == due {
        None
    } else {
        Some(NodeRule::C3)
    }
}

// One more part is due than there are of these.
fn counted_behind(count: usize, behind: usize) -> Option<NodeRule>
    ensures { result ≡ specs.counted count (behind + 1) }
{
    if count > 0 && count - 1 == behind {
        None
    } else {
        Some(NodeRule::C3)
    }
}

fn index_rule(count: usize, row: Option<Rowed>) -> Option<NodeRule>
    ensures { result ≡ specs.index_rule count row }
{
    match row {
        None => None,
        Some(it) => counted_behind(count, it.dims as usize),
    }
}

fn slice_rule(modes: &Modes, count: usize, found: Finding) -> Option<NodeRule>
    requires { IsFindingBelow (length modes.now) found }
    ensures { result ≡ specs.slice_rule modes.now count found }
{
    match found {
        Finding::Mode(Some(mode)) => index_rule(count, as_row(modes, mode)),
        _ => None,
    }
}

fn parameter_rule(count: usize, shape: &Shape) -> Option<NodeRule>
    ensures { result ≡ specs.parameter_rule count shape.now }
{
    match shape {
        Shape::Proc { params, result: _ } => counted_behind(count, params.items.len()),
        _ => None,
    }
}

fn routine_rule(modes: &Modes, count: usize, found: Finding) -> Option<NodeRule>
    requires { IsFindingBelow (length modes.now) found }
    ensures { result ≡ specs.routine_rule modes.now count found }
{
    match found {
        Finding::Mode(Some(mode)) => parameter_rule(count, modes.shape(mode)),
        _ => None,
    }
}

fn call_rule(modes: &Modes, count: usize, called: Option<u32>, found: Finding) -> Option<NodeRule>
    requires { IsFindingBelow (length modes.now) found }
    ensures { result ≡ specs.call_rule modes.now count called found }
{
    match called {
        Some(place) => {
            if place == tags::WHOLE {
                counted(count, 3)
            } else {
                counted(count, 2)
            }
        }
        None => routine_rule(modes, count, found),
    }
}

fn unit_rule(count: usize, shape: &Shape) -> Option<NodeRule>
    ensures { result ≡ specs.unit_rule count shape.now }
{
    match shape {
        Shape::Struct(fields) => counted(count, fields.items.len()),
        _ => None,
    }
}

fn display_rule(modes: &Modes, count: usize, own: Position) -> Option<NodeRule>
    requires { IsPositionBelow (length modes.now) own }
    ensures { result ≡ specs.display_rule modes.now count own }
{
    match own {
        Position::Goal(mode, _) => unit_rule(count, modes.shape(mode)),
        _ => None,
    }
}

fn operator_rule(shape: &Shape) -> Option<NodeRule>
    ensures { result ≡ specs.operator_rule shape.now }
{
    match shape {
        Shape::Proc { params, result: _ } => {
            if params.items.len() == 1 {
                None
            } else {
                counted(params.items.len(), 2)
            }
        }
        _ => None,
    }
}

fn parallel_rule(count: usize) -> Option<NodeRule>
    ensures { result ≡ specs.parallel_rule count }
{
    if count == 1 { Some(NodeRule::P1) } else { None }
}

/// Finds the rule that a node of that kind breaks by itself.
pub fn own_rule(
    tree: &Tree,
    tags: &Tags,
    defined: &[ModeId],
    modes: &Modes,
    fields: &FieldTable,
    walls: &[u32],
    yields: &[Yielding],
    node: NodeId,
    found: Finding,
    own: Position,
    kind: NodeKind,
) -> Option<NodeRule>
    requires defined { AllBelow (length modes.now) defined.now }
    requires some { 0 < length modes.now }
    requires found { IsFindingBelow (length modes.now) found }
    requires own { IsPositionBelow (length modes.now) own }
    requires fields { AreFieldsOf modes.now fields.now }
    requires walls { walls.now ≡ jumps.walls tree.now }
    ensures { result ≡ specs.own_rule tree.now tags.now defined.now modes.now yields.now node found own kind }
{
    let parts = parts_of(tree, node);
    match kind {
        NodeKind::Tag => tag_rule(tree, tags.at(node), called_tag(tree, tags, node), own),
        NodeKind::GoTo => jump_rule(tree, modes, walls, node, tags.at(node), own),
        NodeKind::Selection => selection_rule(modes, fields, name_of(tree, node), found),
        NodeKind::Monadic | NodeKind::Dyadic => formula_rule(yields, parts, found),
        NodeKind::Identity => identity_rule(yields, parts, found),
        NodeKind::Slice => slice_rule(modes, parts.len(), found),
        NodeKind::Call => call_rule(modes, parts.len(), called_by(tree, tags, node), found),
        NodeKind::Collateral => display_rule(modes, parts.len(), own),
        NodeKind::OpDefinition => {
            operator_rule(modes.shape(part_number(defined, node as usize)))
        }
        NodeKind::Parallel => parallel_rule(parts.len()),
        _ => None,
    }
}

// ---- places

// The first byte of the last of these symbols that begins before a byte.
fn last_start(starts: &[u32], byte: u32) -> u32
    ensures { result ≡ specs.last_start starts.now byte 0 }
{
    let mut found = 0;
    for start in starts {
        if *start >= byte {
            return found;
        }
        found = *start;
    }
    found
}

fn sign_of(tree: &Tree, node: NodeId) -> u32
    ensures { result ≡ specs.sign_of tree.now node (parts_at tree.now node) }
{
    let parts = parts_of(tree, node);
    if parts.len() == 2 {
        last_start(tree.starts(), start_of(tree, parts[1]))
    } else {
        start_of(tree, node)
    }
}

fn is_operator_lacking(rule: NodeRule) -> bool
    ensures { result ≡ specs.is_operator_lacking rule }
{
    rule == NodeRule::O1
}

// The byte behind a node.
fn end_of(tree: &Tree, node: NodeId) -> u32
    ensures { result ≡ specs.end_at tree.now node }
{
    if node < tree.len() {
        tree.node(node).span.to
    } else {
        0
    }
}

// The first byte of the last symbol of a node.
fn last_symbol(tree: &Tree, node: NodeId) -> u32
    ensures { result ≡ specs.last_symbol tree.now node }
{
    last_start(tree.starts(), end_of(tree, node))
}

fn is_jump_astray(rule: NodeRule) -> bool
    ensures { result ≡ specs.is_jump_astray rule }
{
    rule == NodeRule::J1
}

fn place_behind(tree: &Tree, node: NodeId, rule: NodeRule) -> u32
    ensures { result ≡ specs.place_behind tree.now node rule }
{
    if is_jump_astray(rule) {
        last_symbol(tree, node)
    } else {
        start_of(tree, node)
    }
}

/// Finds the byte at which a rule is told that a node breaks by itself: its first, or that of a sign, or of a tag.
pub fn place_of(tree: &Tree, node: NodeId, rule: NodeRule) -> u32
    ensures { result ≡ specs.place_of tree.now node rule }
{
    if is_operator_lacking(rule) {
        sign_of(tree, node)
    } else {
        place_behind(tree, node, rule)
    }
}
