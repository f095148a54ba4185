//! What a node asks of each of its parts.
ghost use Rattle.std.specs.Prelude.{◌≡◌, ◌<◌, length};
ghost use Rattle.a68_definitions.specs.Defined.{AllBelow, first_declarer};
ghost use Rattle.a68_positions.specs.Given as specs;
ghost use Rattle.a68_positions.specs.Below.{IsPositionBelow};
ghost use Rattle.a68_ranges.specs.Nodes.{kind_at, parts_at};
ghost use Rattle.a68_yields.specs.Below.{IsFindingBelow};

use crate::asker::Asker;
use crate::parts::{argument, display_unit, operand, primary};
use crate::position::{Position, asked, at_first, at_last, goal};
use a68_declare::NodeModes;
use a68_definitions::{
    Tags, called_by, first_declarer, kind_of, part_from_end, part_number, parts_from, parts_of,
};
use a68_modes::{ModeId, Modes, Sort};
use a68_tree::{NodeId, NodeKind, Tree};
use a68_yields::{Finding, has_exit, is_subscript};

// Hands what is asked of a choice on to the parts that it chooses among.
fn of_choice(node: NodeId, own: Position) -> Position
    ensures { result ≡ specs.of_choice node own }
{
    match own {
        Position::Goal(_, _) => own,
        Position::Asks(_, Some(mode)) => goal(node, mode),
        Position::Asks(_, None) | Position::Unlooked => Position::Unlooked,
        _ => Position::Nowhere,
    }
}

// Tells what is asked of a part of a choice behind the first.
fn chosen_part(node: NodeId, own: Position, part: NodeKind) -> Position
    ensures { result ≡ specs.chosen_part node own part }
{
    match part {
        NodeKind::Spec => Position::Nowhere,
        _ => of_choice(node, own),
    }
}

// Does a node of that kind stand between the units of a serial clause, and is none?
fn is_marker(kind: NodeKind) -> bool
    ensures { result ≡ specs.is_marker kind }
{
    match kind {
        NodeKind::Label | NodeKind::Exit => true,
        _ => false,
    }
}

// Tells what is asked of the last unit of a serial clause.
fn last_unit(tree: &Tree, node: NodeId, own: Position) -> Position
    ensures { result ≡ specs.last_unit tree.now node own }
{
    if has_exit(tree, parts_of(tree, node)) {
        of_choice(node, own)
    } else {
        own
    }
}

// Tells what is asked of a phrase of a serial clause that has these parts behind it.
fn phrase(tree: &Tree, node: NodeId, own: Position, behind: &[NodeId]) -> Position
    ensures { result ≡ specs.phrase tree.now node own behind.now }
{
    match behind.first() {
        None => last_unit(tree, node, own),
        Some(next) => {
            if kind_of(tree, *next) == NodeKind::Exit {
                of_choice(node, own)
            } else {
                goal(node, 0)
            }
        }
    }
}

// Tells what is asked of a part of a serial clause.
fn serial_part(tree: &Tree, node: NodeId, place: usize, part: NodeId, own: Position) -> Position
    requires { place < length (parts_at tree.now node) }
    ensures { result ≡ specs.serial_part tree.now node place part own }
{
    if is_marker(kind_of(tree, part)) {
        Position::Nowhere
    } else {
        let behind = parts_from(parts_of(tree, node), place + 1);
        phrase(tree, node, own, behind)
    }
}

// Tells what is asked of a part of a loop.
fn looped(node: NodeId, part: NodeKind) -> Position
    ensures { result ≡ specs.looped node part }
{
    match part {
        NodeKind::Serial => goal(node, 0),
        _ => Position::Nowhere,
    }
}

// Gives the mode of the source of a variable, by the variable's declarer.
fn variable_mode(
    of: &NodeModes,
    defined: &[ModeId],
    part: NodeId,
    declarer: Option<NodeId>,
) -> ModeId
    ensures { result ≡ specs.variable_mode of.now defined.now part declarer }
{
    match declarer {
        Some(declarer) => of.without_flex(declarer),
        None => part_number(defined, part as usize),
    }
}

// Tells what is asked of the last part of a variable: nothing of a declarer.
fn variable_part(
    tree: &Tree,
    of: &NodeModes,
    defined: &[ModeId],
    node: NodeId,
    part: NodeId,
) -> Position
    ensures { result ≡ specs.variable_part tree.now of.now defined.now node part }
{
    match kind_of(tree, part) {
        NodeKind::Declarer => Position::Nowhere,
        _ => {
            let declarer = first_declarer(tree, parts_of(tree, node));
            goal(node, variable_mode(of, defined, part, declarer))
        }
    }
}

// Tells what is asked of the source of an assignation.
fn source(node: NodeId, aside: ModeId, found: Finding) -> Position
    ensures { result ≡ specs.source node aside found }
{
    match found {
        Finding::Mode(Some(_)) => goal(node, aside),
        _ => Position::Unlooked,
    }
}

// Tells what is asked of a side of an identity relation.
fn side(node: NodeId, found: Finding) -> Position
    ensures { result ≡ specs.side node found }
{
    match found {
        Finding::Mode(Some(name)) => goal(node, name),
        _ => Position::Unlooked,
    }
}

// Tells what is asked of a part of an index.
fn indexed(tree: &Tree, node: NodeId, place: usize, found: Finding) -> Position
    ensures { result ≡ specs.indexed tree.now node place found }
{
    if is_subscript(tree, parts_of(tree, node)) {
        at_first(place, asked(Sort::Meek, found), Position::Nowhere)
    } else {
        Position::Nowhere
    }
}

// Tells what is asked of the body of a routine text.
fn body(tree: &Tree, of: &NodeModes, node: NodeId, count: usize, place: usize) -> Position
    requires { place < count }
    ensures { result ≡ specs.body tree.now of.now node count place }
{
    let result_mode = of.without_flex(part_from_end(parts_of(tree, node), 2));
    at_last(count, place, goal(node, result_mode), Position::Nowhere)
}

/// Tells what a node asks of the part that stands at that place among its parts.
pub fn given_to(
    tree: &Tree,
    tags: &Tags,
    of: &NodeModes,
    defined: &[ModeId],
    modes: &Modes,
    asker: Asker,
    place: usize,
    part: NodeId,
) -> Position
    requires own { IsPositionBelow (length modes.now) asker.own }
    requires found { IsFindingBelow (length modes.now) asker.found }
    requires defined { AllBelow (length modes.now) defined.now }
    requires place { place < length (parts_at tree.now asker.node) }
    ensures { result ≡ specs.given (record { tree = tree.now; tags = tags.now; of = of.now; defined = defined.now }) modes.now asker place part (kind_at tree.now asker.node) }
{
    let Asker {
        node,
        own,
        found,
        aside,
    } = asker;
    let count = parts_of(tree, node).len();
    match kind_of(tree, node) {
        NodeKind::Closed | NodeKind::Out => own,
        NodeKind::Serial => serial_part(tree, node, place, part, own),
        NodeKind::Conditional | NodeKind::Case | NodeKind::Conformity => {
            let chosen = chosen_part(node, own, kind_of(tree, part));
            at_first(place, asked(Sort::Meek, found), chosen)
        }
        NodeKind::Parallel => goal(node, 0),
        NodeKind::From
        | NodeKind::By
        | NodeKind::To
        | NodeKind::While
        | NodeKind::Lower
        | NodeKind::Upper
        | NodeKind::At => at_first(place, asked(Sort::Meek, found), Position::Nowhere),
        NodeKind::Index => indexed(tree, node, place, found),
        NodeKind::Loop => looped(node, kind_of(tree, part)),
        NodeKind::Cast => {
            let mode = part_number(defined, node as usize);
            at_first(place, Position::Nowhere, goal(node, mode))
        }
        NodeKind::RoutineText => body(tree, of, node, count, place),
        NodeKind::IdentityDefinition | NodeKind::OpDefinition => {
            let mode = part_number(defined, node as usize);
            at_last(count, place, goal(node, mode), Position::Nowhere)
        }
        NodeKind::Variable => {
            let last = variable_part(tree, of, defined, node, part);
            at_last(count, place, last, Position::Nowhere)
        }
        NodeKind::Assignation => {
            at_first(place, asked(Sort::Soft, found), source(node, aside, found))
        }
        NodeKind::Identity => side(node, found),
        NodeKind::Selection | NodeKind::Slice => {
            at_first(place, asked(Sort::Weak, found), Position::Nowhere)
        }
        NodeKind::Call => {
            let called = called_by(tree, tags, node);
            let behind = argument(
                modes,
                node,
                count,
                place,
                aside,
                called,
                found,
                kind_of(tree, part),
            );
            at_first(place, primary(called, found), behind)
        }
        NodeKind::Monadic | NodeKind::Dyadic => {
            operand(modes, defined, node, count, place, aside, found)
        }
        NodeKind::Collateral => display_unit(modes, node, count, place, aside, own),
        _ => Position::Nowhere,
    }
}
