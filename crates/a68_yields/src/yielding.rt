//! What nodes may yield.
ghost use Rattle.std.specs.Prelude.{◌≡◌};
ghost use Rattle.a68_yields.specs.Leaves.{yield_at};

use a68_coerce::Leaf;
use a68_identify::Identified;
use a68_modes::ModeId;
use a68_tree::NodeId;

/// What a node may yield.
#[derive(Clone, Copy)]
pub enum Yielding {
    /// Not known: the node is no unit, or something in it is refused.
    Unknown,
    /// A unit of one mode, or one that may stand in strong positions only.
    Unit(Leaf),
    /// What that part yields.
    Part(NodeId),
    /// What those parts yield among which a choice chooses.
    Choice,
}

/// What is found of the parts of a node of which something is asked.
#[derive(Clone, Copy)]
pub enum Finding {
    /// Nothing is looked for.
    Nothing,
    /// The mode to which the part, or both sides, are balanced; none where there is none, or a part is not known.
    Mode(Option<ModeId>),
    /// The operator; none where there is none, or an operand is not known.
    Operator(Option<Identified>),
}

/// Gives what a node may yield; what a number of no node yields is not known.
pub fn yield_of(yields: &[Yielding], node: NodeId) -> Yielding
    ensures { result ≡ yield_at yields.now node }
{
    match yields.get(node as usize) {
        Some(yielding) => *yielding,
        None => Yielding::Unknown,
    }
}
