//! What is asked of the parts of calls, formulas and displays.
ghost use Rattle.std.specs.Prelude.{◌≡◌, ◌<◌, length};
ghost use Rattle.a68_definitions.specs.Defined.{AllBelow};
ghost use Rattle.a68_modes.specs.Nodes.{shape_at};
ghost use Rattle.a68_positions.specs.Given as specs;
ghost use Rattle.a68_positions.specs.Below.{IsPositionBelow};
ghost use Rattle.a68_yields.specs.Parts.{parameters_of};
ghost use Rattle.a68_yields.specs.Below.{IsFindingBelow};

use crate::position::{Position, asked, goal};
use a68_definitions::part_number;
use a68_identify::Identified;
use a68_modes::{ModeId, Modes, Shape, Sort, standard};
use a68_ranges::tags;
use a68_signs::Operator;
use a68_tree::{NodeId, NodeKind};
use a68_yields::Finding;

// Gives the parameters of a procedure; none of another mode.
fn parameters_of(modes: &Modes, mode: ModeId) -> &[ModeId]
    requires { mode < length modes.now }
    ensures { result.now ≡ parameters_of (shape_at modes.now mode) }
{
    match modes.shape(mode) {
        Shape::Proc { params, result: _ } => &params.items,
        _ => &[],
    }
}

// Asks for the mode of the parameter of a procedure that has so many parts less one.
fn parameter_of(node: NodeId, count: usize, place: usize, parameters: &[ModeId]) -> Position
    ensures { result ≡ specs.parameter_of node count place parameters.now }
{
    if parameters.len() + 1 == count {
        goal(node, part_number(parameters, place.saturating_sub(1)))
    } else {
        Position::Unlooked
    }
}

// Asks for the mode of a parameter of the routine that is called.
fn parameter(modes: &Modes, node: NodeId, count: usize, place: usize, found: Finding) -> Position
    requires { IsFindingBelow (length modes.now) found }
    ensures { result ≡ specs.parameter modes.now node count place found }
{
    match found {
        Finding::Mode(Some(mode)) => {
            parameter_of(node, count, place, parameters_of(modes, mode))
        }
        _ => Position::Unlooked,
    }
}

// Asks for an item of print or write.
fn item(node: NodeId, count: usize, part: NodeKind) -> Position
    ensures { result ≡ specs.item node count part }
{
    if count != 2 {
        return Position::Unlooked;
    }
    match part {
        NodeKind::Collateral => Position::Items(node),
        _ => goal(node, standard::PRINTABLE),
    }
}

// Asks for an INT or a LONG INT of whole, and for an INT.
fn whole(node: NodeId, count: usize, place: usize, aside: ModeId) -> Position
    ensures { result ≡ specs.whole node count place aside }
{
    if count != 3 {
        return Position::Unlooked;
    }
    if place == 1 {
        goal(node, aside)
    } else {
        goal(node, standard::INT)
    }
}

/// Tells what is asked of the primary of a call.
pub fn primary(called: Option<u32>, found: Finding) -> Position
    ensures { result ≡ specs.primary called found }
{
    match called {
        Some(_) => Position::Called,
        None => asked(Sort::Meek, found),
    }
}

/// Tells what is asked of another part of a call.
pub fn argument(
    modes: &Modes,
    node: NodeId,
    count: usize,
    place: usize,
    aside: ModeId,
    called: Option<u32>,
    found: Finding,
    part: NodeKind,
) -> Position
    requires { IsFindingBelow (length modes.now) found }
    ensures { result ≡ specs.argument modes.now node count place aside called found part }
{
    match called {
        Some(called) => {
            if called == tags::WHOLE {
                whole(node, count, place, aside)
            } else {
                item(node, count, part)
            }
        }
        None => parameter(modes, node, count, place, found),
    }
}

// Gives the parameter of a standard operator: of one operand the right one.
fn standard_parameter(count: usize, place: usize, operator: Operator) -> ModeId
    requires { place < count }
    ensures { result ≡ specs.standard_parameter count place operator }
{
    if place + 1 == count {
        operator.right
    } else {
        operator.left
    }
}

// Gives the parameter of an operator.
fn parameter_by(
    modes: &Modes,
    defined: &[ModeId],
    count: usize,
    place: usize,
    operator: Identified,
) -> ModeId
    requires defined { AllBelow (length modes.now) defined.now }
    requires place { place < count }
    ensures { result ≡ specs.parameter_by modes.now defined.now count place operator }
{
    match operator {
        Identified::Declared(definition) => {
            let mode = part_number(defined, definition as usize);
            part_number(parameters_of(modes, mode), place)
        }
        Identified::Standard(operator) => standard_parameter(count, place, operator),
    }
}

// Gives the mode that is set aside for a parameter that stands for every row.
fn every_row(aside: ModeId, mode: ModeId) -> ModeId
    ensures { result ≡ specs.every_row aside mode }
{
    if mode == 0 { aside } else { mode }
}

/// Tells what is asked of an operand.
pub fn operand(
    modes: &Modes,
    defined: &[ModeId],
    node: NodeId,
    count: usize,
    place: usize,
    aside: ModeId,
    found: Finding,
) -> Position
    requires defined { AllBelow (length modes.now) defined.now }
    requires place { place < count }
    ensures { result ≡ specs.operand modes.now defined.now node count place aside found }
{
    match found {
        Finding::Operator(Some(operator)) => {
            let parameter = parameter_by(modes, defined, count, place, operator);
            goal(node, every_row(aside, parameter))
        }
        _ => Position::Unlooked,
    }
}

// Asks for the mode of a field of a structure that has so many.
fn field_of(node: NodeId, count: usize, place: usize, fields: &[(u32, ModeId)]) -> Position
    ensures { result ≡ specs.field_of node count place fields.now }
{
    if fields.len() != count {
        return Position::Unlooked;
    }
    match fields.get(place) {
        Some(field) => goal(node, field.1),
        None => goal(node, 0),
    }
}

// Asks a unit of a display for its part of that shape.
fn unit_of(node: NodeId, count: usize, place: usize, aside: ModeId, shape: &Shape) -> Position
    ensures { result ≡ specs.unit_of node count place aside shape.now }
{
    match shape {
        Shape::Void => goal(node, 0),
        Shape::Rows { dims, flex: _, of } => goal(node, if *dims > 1 { aside } else { *of }),
        Shape::Struct(fields) => field_of(node, count, place, &fields.items),
        _ => Position::Unlooked,
    }
}

/// Tells what is asked of a unit of a display.
pub fn display_unit(
    modes: &Modes,
    node: NodeId,
    count: usize,
    place: usize,
    aside: ModeId,
    own: Position,
) -> Position
    requires { IsPositionBelow (length modes.now) own }
    ensures { result ≡ specs.display_unit modes.now node count place aside own }
{
    match own {
        Position::Goal(mode, _) => unit_of(node, count, place, aside, modes.shape(mode)),
        Position::Items(call) => goal(call, standard::PRINTABLE),
        Position::Nowhere | Position::Called => Position::Nowhere,
        Position::Unlooked | Position::Asks(_, _) => Position::Unlooked,
    }
}
