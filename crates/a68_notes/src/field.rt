//! The mode, the goal, the operator and the definition of a node.
ghost use Rattle.std.specs.Prelude.{◌≡◌};
ghost use Rattle.a68_notes.specs.Notes as specs;

use a68_coerce::Leaf;
use a68_declare::NodeModes;
use a68_definitions::{Tags, part_number};
use a68_identify::Identified;
use a68_modes::{ModeId, standard};
use a68_positions::Position;
use a68_tree::{NodeId, NodeKind, Tree};
use a68_yields::{Finding, Yielding};

// Gives the mode that is asked of a node; VOID where none is.
fn goal_of(own: Position) -> ModeId
    ensures { result ≡ specs.goal_of own }
{
    match own {
        Position::Goal(mode, _) => mode,
        Position::Asks(_, Some(mode)) => mode,
        Position::Items(_) => standard::PRINTABLE,
        Position::Asks(_, None) | Position::Nowhere | Position::Unlooked | Position::Called => {
            standard::VOID
        }
    }
}

/// Gives the mode that is asked at a node; at a declarer its mode without FLEX.
pub fn goal_by(of: &NodeModes, node: NodeId, own: Position, kind: NodeKind) -> ModeId
    ensures { result ≡ specs.goal_by of.now node own kind }
{
    match kind {
        NodeKind::Declarer => of.without_flex(node),
        _ => goal_of(own),
    }
}

// Gives the mode of what is defined, or of a unit before its coercions.
fn mode_by(defined: &[ModeId], node: NodeId, goal: ModeId, yielding: Yielding) -> ModeId
    ensures { result ≡ specs.mode_by defined.now node goal yielding }
{
    match yielding {
        Yielding::Unknown => part_number(defined, node as usize),
        Yielding::Unit(Leaf::Mode(mode)) => mode,
        Yielding::Unit(Leaf::StrongOnly) | Yielding::Part(_) | Yielding::Choice => goal,
    }
}

/// Gives the mode of a node before its coercions.
pub fn mode_of(
    of: &NodeModes,
    defined: &[ModeId],
    node: NodeId,
    goal: ModeId,
    yielding: Yielding,
    kind: NodeKind,
) -> ModeId
    ensures { result ≡ specs.mode_of of.now defined.now node goal yielding kind }
{
    match kind {
        NodeKind::Declarer => of.at(node),
        _ => mode_by(defined, node, goal, yielding),
    }
}

// Gives the row of an operator of the standard environ.
fn row_by(found: Identified) -> Option<u32>
    ensures { result ≡ specs.row_by found }
{
    match found {
        Identified::Standard(operator) => Some(operator.row),
        Identified::Declared(_) => None,
    }
}

/// Gives the row of the standard operator that is found at a node.
pub fn row_of(found: Finding) -> Option<u32>
    ensures { result ≡ specs.row_of found }
{
    match found {
        Finding::Operator(Some(operator)) => row_by(operator),
        Finding::Operator(None) | Finding::Mode(_) | Finding::Nothing => None,
    }
}

// Gives the definition of an operator of the text.
fn operator_by(found: Identified) -> Option<NodeId>
    ensures { result ≡ specs.operator_by found }
{
    match found {
        Identified::Declared(definition) => Some(definition),
        Identified::Standard(_) => None,
    }
}

// Gives the definition of the operator that is found at a node.
fn operator_of(found: Finding) -> Option<NodeId>
    ensures { result ≡ specs.operator_of found }
{
    match found {
        Finding::Operator(Some(operator)) => operator_by(operator),
        Finding::Operator(None) | Finding::Mode(_) | Finding::Nothing => None,
    }
}

/// Gives the definition of the operator that a formula applies; none of another node.
pub fn applied_operator(found: Finding, kind: NodeKind) -> Option<NodeId>
    ensures { result ≡ specs.applied_operator found kind }
{
    match kind {
        NodeKind::Monadic | NodeKind::Dyadic => operator_of(found),
        _ => None,
    }
}

// Gives a definition that stands in the text.
fn in_text(nodes: u32, found: Option<NodeId>) -> Option<NodeId>
    ensures { result ≡ specs.in_text nodes found }
{
    match found {
        Some(definition) if definition < nodes => Some(definition),
        _ => None,
    }
}

/// Gives the definition of the value that a node applies: a tag, or the operator of a formula; none of one of the standard environ.
pub fn definition_of(
    tree: &Tree,
    tags: &Tags,
    node: NodeId,
    found: Finding,
    kind: NodeKind,
) -> Option<NodeId>
    ensures { result ≡ specs.definition_of tree.now tags.now node found kind }
{
    match kind {
        NodeKind::Tag | NodeKind::GoTo => in_text(tree.len(), tags.at(node)),
        _ => applied_operator(found, kind),
    }
}
