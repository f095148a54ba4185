//! A mode with or without its FLEX.
ghost use Rattle.std.specs.Prelude.{◌≡◌, true, false};

use a68_modes::ModeId;

/// A mode: that of a node as it stands, or without its FLEX down to the next REF or PROC, as dereferencing leaves it.
#[derive(Clone, Copy, PartialEq, Eq)]
pub struct Mode {
    pub id: ModeId,
    pub fixed: bool,
}

impl Mode {
    /// The mode of a node as it stands.
    pub fn as_it_stands(id: ModeId) -> Mode
        ensures { result ≡ record { id = id; fixed = false } }
    {
        Mode { id, fixed: false }
    }

    /// The mode of a node without its FLEX down to the next REF or PROC.
    pub fn without_flex(id: ModeId) -> Mode
        ensures { result ≡ record { id = id; fixed = true } }
    {
        Mode { id, fixed: true }
    }
}
