//! The units that a choice may yield.
use a68_equiv::Mode;
use a68_modes::ModeId;

/// A unit that a choice may yield: of a mode, or one that may stand in strong positions only, as a skip or a display.
#[derive(Clone, Copy)]
pub enum Leaf {
    Mode(ModeId),
    StrongOnly,
}

/// The place of the unit that is balanced, and the mode to which each other one is coerced strongly.
#[derive(Clone, Copy)]
pub struct Balanced {
    pub leaf: u32,
    pub mode: Mode,
}
