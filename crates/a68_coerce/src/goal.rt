//! What the end of a path must be.
use a68_equiv::Mode;

/// A mode; the row of so many dimensions of a mode; the name of a mode; the name of such a row, without FLEX. That of a
/// row with one dimension fewer need not be a node.
#[derive(Clone, Copy)]
pub enum CoercionGoal {
    Mode(Mode),
    Row { dims: u32, flex: bool, of: Mode },
    Name(Mode),
    NameOfRow { dims: u32, of: Mode },
}
