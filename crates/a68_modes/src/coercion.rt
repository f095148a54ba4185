//! The names of the coercions (Report, chapter 6).
use crate::ModeId;
use std::marker::Model;

/// How far a position lets the mode of a unit be changed (6.1.1).
#[derive(Clone, Copy, PartialEq, Eq)]
pub enum Sort {
    Soft,
    Weak,
    Meek,
    Firm,
    Strong,
}

/// One change of the mode of a value.
#[derive(Clone, Copy, PartialEq, Eq)]
pub enum Coercion {
    /// A procedure without parameters is called (6.3).
    Deproc,
    /// The value that a name refers to is taken (6.2).
    Deref,
    /// The value becomes one of this union (6.4).
    Unite(ModeId),
    /// A value of mode BITS becomes a row of BOOL (6.5).
    Widen,
    /// A value becomes a row of one element, or a row gets one more dimension (6.6).
    RowUp,
    /// The name of an element or a row becomes the name of a row with one more dimension (6.6).
    RowUpName,
    /// The value is dropped (6.7).
    Drop,
}

/// The coercions of a unit, from the first to the last.
pub struct Path {
    pub items: Vec<Coercion>,
}

impl Drop for Path {
    fn drop(self) {
        let Path { items: _ } = self;
    }
}

impl Model for Path {
    ghost use Rattle.std.specs.Prelude.{List};
    ghost use Rattle.a68_modes.specs.declared.coercion.Coercion.{Coercion};

    ghost Value = { List Coercion };

    ghost view = { λ path. path.items.items };
}
