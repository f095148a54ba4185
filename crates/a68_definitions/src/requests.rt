//! What the modes of definitions are made of.
ghost use Rattle.std.specs.Prelude.{◌≡◌, [], IfOk, length, map};
ghost use Rattle.a68_declarers.specs.Shapes.{front};
ghost use Rattle.a68_definitions.specs.Defined as specs;
ghost use Rattle.a68_definitions.specs.Defined.{IsGranted, IsRequestBelow, fixed_mode_at};

use crate::reading::{kind_of, part_from_end, part_number};
use a68_base::NoMemory;
use a68_declare::NodeModes;
use a68_mode_table::ModeTable;
use a68_modes::{Members, ModeId};
use a68_tree::{NodeId, NodeKind, Tree};
use std::alloc::Global;

/// What the mode of a node is: nothing; a mode that is there; the name of one; or a procedure.
#[derive(Drop)]
pub enum Request {
    Nothing,
    There(ModeId),
    Name(ModeId),
    Routine(Members, ModeId),
}

// Lists the modes of the parameters that stand among these parts, without FLEX.
fn parameter_modes(
    alloc: Global,
    tree: &Tree,
    of: &NodeModes,
    parts: &[NodeId],
) -> Result<Members, NoMemory>
    ensures { IfOk result (λ found. found ≡ map (fixed_mode_at of.now) (specs.parameters tree.now 0 parts.now)) }
{
    let mut items = Vec::new(alloc);
    let mut before = 0;
    for part in parts {
        if kind_of(tree, *part) == NodeKind::Parameter {
            items.push(of.without_flex(before))?;
        } else {
            before = *part;
        }
    }
    Ok(Members { items })
}

// Lists the modes of these declarers, without FLEX.
fn modes_of(alloc: Global, of: &NodeModes, declarers: &[NodeId]) -> Result<Members, NoMemory>
    ensures { IfOk result (λ found. found ≡ map (fixed_mode_at of.now) declarers.now) }
{
    let mut items = Vec::new(alloc);
    for declarer in declarers {
        items.push(of.without_flex(*declarer))?;
    }
    Ok(Members { items })
}

/// Finds the first declarer among these parts.
pub fn first_declarer(tree: &Tree, parts: &[NodeId]) -> Option<NodeId>
    ensures { result ≡ specs.first_declarer tree.now parts.now }
{
    for part in parts {
        if kind_of(tree, *part) == NodeKind::Declarer {
            return Some(*part);
        }
    }
    None
}

// Gives the mode of a variable.
fn variable(tree: &Tree, of: &NodeModes, table: &[ModeId], parts: &[NodeId]) -> Request
    ensures { result ≡ specs.variable of.now table.now parts.now (specs.first_declarer tree.now parts.now) }
{
    match first_declarer(tree, parts) {
        Some(declarer) => Request::Name(of.at(declarer)),
        None => Request::Name(part_number(table, part_number(parts, 0) as usize)),
    }
}

// Gives the mode of what an identity definition defines.
fn identity(of: &NodeModes, table: &[ModeId], parts: &[NodeId]) -> Request
    ensures { result ≡ specs.identity of.now table.now parts.now }
{
    if parts.is_empty() {
        return Request::Nothing;
    }
    if parts.len() == 1 {
        Request::There(part_number(table, parts[0] as usize))
    } else {
        Request::There(of.without_flex(parts[0]))
    }
}

// Gives the mode of a routine text.
fn routine(
    alloc: Global,
    tree: &Tree,
    of: &NodeModes,
    parts: &[NodeId],
) -> Result<Request, NoMemory>
    ensures { IfOk result (λ found. found ≡ specs.requested tree.now of.now [] NodeKind.RoutineText parts.now) }
{
    let params = parameter_modes(alloc, tree, of, parts)?;
    let result = of.without_flex(part_from_end(parts, 2));
    Ok(Request::Routine(params, result))
}

// Gives the parts before the last one.
fn front(parts: &[NodeId]) -> &[NodeId]
    ensures { result.now ≡ front parts.now }
{
    &parts[..parts.len().saturating_sub(1)]
}

// Gives the mode of a plan.
fn plan(alloc: Global, tree: &Tree, of: &NodeModes, parts: &[NodeId]) -> Result<Request, NoMemory>
    ensures { IfOk result (λ found. found ≡ specs.requested tree.now of.now [] NodeKind.Plan parts.now) }
{
    let _tree = tree;
    let params = modes_of(alloc, of, front(parts))?;
    let result = of.without_flex(part_from_end(parts, 1));
    Ok(Request::Routine(params, result))
}

/// Finds what the mode of a node of that kind is (4.4.1, 4.5.1, 5.2.3, 5.4.1 and 5.5.1), by the modes of those behind it.
pub fn requested(
    alloc: Global,
    tree: &Tree,
    of: &NodeModes,
    table: &[ModeId],
    kind: NodeKind,
    parts: &[NodeId],
) -> Result<Request, NoMemory>
    ensures { IfOk result (λ found. found ≡ specs.requested tree.now of.now table.now kind parts.now) }
{
    match kind {
        NodeKind::For => Ok(Request::There(1)),
        NodeKind::RoutineText => routine(alloc, tree, of, parts),
        NodeKind::Plan => plan(alloc, tree, of, parts),
        NodeKind::IdentityDefinition => Ok(identity(of, table, parts)),
        NodeKind::OpDefinition => {
            let source = part_number(parts, 0);
            Ok(Request::There(part_number(table, source as usize)))
        }
        NodeKind::Variable => Ok(variable(tree, of, table, parts)),
        NodeKind::Generator => Ok(Request::Name(of.at(part_from_end(parts, 1)))),
        NodeKind::Cast => Ok(Request::There(of.without_flex(part_number(parts, 0)))),
        _ => Ok(Request::Nothing),
    }
}

/// Gives the mode that is requested, which joins the others where it is not among them.
pub fn granted(alloc: Global, modes: &mut ModeTable, request: Request) -> Result<ModeId, NoMemory>
    requires { IsRequestBelow (length modes.old) request }
    ensures { IfOk result (λ mode. IsGranted modes.old request modes.new mode) }
{
    match request {
        Request::Nothing => Ok(0),
        Request::There(mode) => Ok(mode),
        Request::Name(of) => modes.name_of(alloc, of),
        Request::Routine(params, result) => modes.procedure(alloc, params, result),
    }
}
