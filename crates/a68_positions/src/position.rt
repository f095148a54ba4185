//! What is asked of a node.
ghost use Rattle.std.specs.Prelude.{◌≡◌, ◌<◌};
ghost use Rattle.a68_positions.specs.Given as specs;

use a68_modes::{ModeId, Sort};
use a68_tree::NodeId;
use a68_yields::Finding;

/// What is asked of a node.
#[derive(Clone, Copy)]
pub enum Position {
    /// Nothing is asked.
    Nowhere,
    /// What is asked is not known, since something is refused.
    Unlooked,
    /// A tag that is the primary of a call of `print`, `write` or `whole`.
    Called,
    /// The collateral clause that is the one parameter of this call of `print` or `write`.
    Items(NodeId),
    /// The unit leads strongly to this mode; and the node that asks for it, none of the program.
    Goal(ModeId, Option<NodeId>),
    /// A mode or a form of modes is asked for by this sort; and the mode that is found for it, if there is one.
    Asks(Sort, Option<ModeId>),
}

/// Gives what is asked of a node; nothing of a number of no node.
pub fn position_of(positions: &[Position], node: NodeId) -> Position
    ensures { result ≡ specs.position_at positions.now node }
{
    match positions.get(node as usize) {
        Some(position) => *position,
        None => Position::Nowhere,
    }
}

/// Gives what is found at a node; nothing at a number of no node.
pub fn finding_of(findings: &[Finding], node: NodeId) -> Finding
    ensures { result ≡ specs.finding_at findings.now node }
{
    match findings.get(node as usize) {
        Some(found) => *found,
        None => Finding::Nothing,
    }
}

/// Gives a strong goal that this node sets.
pub fn goal(node: NodeId, mode: ModeId) -> Position
    ensures { result ≡ specs.goal node mode }
{
    Position::Goal(mode, Some(node))
}

/// Asks for a mode or a form by that sort.
pub fn asked(sort: Sort, found: Finding) -> Position
    ensures { result ≡ specs.asked sort found }
{
    match found {
        Finding::Mode(mode) => Position::Asks(sort, mode),
        _ => Position::Asks(sort, None),
    }
}

/// Gives the first position to the first part, the second to all others.
pub fn at_first(place: usize, here: Position, there: Position) -> Position
    ensures { result ≡ specs.at_first place here there }
{
    if place == 0 { here } else { there }
}

/// Gives the first position to the last of so many parts, the second to all others.
pub fn at_last(count: usize, place: usize, here: Position, there: Position) -> Position
    requires { place < count }
    ensures { result ≡ specs.at_last count place here there }
{
    if place + 1 == count { here } else { there }
}
