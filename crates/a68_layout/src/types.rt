//! Plans, and how parts of rows are told.
ghost use Rattle.std.specs.Prelude.{◌≡◌};
ghost use Rattle.a68_layout.specs.declared.types.LayoutStop.TheVariants as stops;

use a68_base::NoMemory;
use a68_values::{Cells, FaultKind};
use smallvec::SmallVec;
use std::alloc::{AllocError, AllocFailed};
use std::marker::Model;

/// Why no cells are planned.
#[derive(Clone, Copy, Debug, PartialEq, Eq)]
pub enum LayoutStop {
    /// The fault that the run meets.
    Fault(FaultKind),
    NoMemory,
}

impl From<NoMemory> for LayoutStop {
    ghost from_gives = { λ _ stop. stop ≡ stops.NoMemory };

    fn from(_error: NoMemory) -> LayoutStop {
        LayoutStop::NoMemory
    }
}

impl From<AllocError> for LayoutStop {
    ghost from_gives = { λ _ stop. stop ≡ stops.NoMemory };

    fn from(_error: AllocError) -> LayoutStop {
        LayoutStop::NoMemory
    }
}

impl<T: Drop> From<AllocFailed<T>> for LayoutStop {
    ghost from_gives = { λ _ stop. stop ≡ stops.NoMemory };

    fn from(_error: AllocFailed<T>) -> LayoutStop {
        LayoutStop::NoMemory
    }
}

impl From<FaultKind> for LayoutStop {
    ghost from_gives = { λ kind stop. stop ≡ stops.Fault kind };

    fn from(kind: FaultKind) -> LayoutStop {
        LayoutStop::Fault(kind)
    }
}

/// The cells of a new name, in order. Where the plan is shifted, the cells of rows and unions in it are counted from
/// its first cell.
#[derive(Drop)]
pub struct Plan {
    pub cells: Cells,
    pub shifted: bool,
}

/// How a slice is written in a dimension.
#[derive(Clone, Copy, PartialEq, Eq)]
pub enum TrimForm {
    Subscript,
    /// Which of lower bound, upper bound and new lower bound are there.
    Trimmer { lower: bool, upper: bool, at: bool },
}

/// How a slice is written, a form for each dimension.
#[derive(Drop)]
pub struct TrimForms {
    pub items: Vec<TrimForm>,
}

impl Model for TrimForms {
    ghost use Rattle.std.specs.Prelude.{List};
    ghost use Rattle.a68_layout.specs.declared.types.TrimForm.{TrimForm};

    ghost Value = { List TrimForm };

    ghost view = { λ forms. forms.items.items };
}

/// A subscript, or a trimmer with what it says of the lower bound, the upper one and the new lower one.
#[derive(Clone, Copy)]
pub enum Trim {
    At(i64),
    Part {
        lower: Option<i64>,
        upper: Option<i64>,
        at: Option<i64>,
    },
}

// An unused place of a list that keeps its first items within itself holds this.
impl Default for Trim {
    fn default() -> Trim {
        Trim::At(0)
    }
}

/// A subscript or trimmer for each dimension of a row. One or two take no memory.
pub struct Trims {
    pub items: SmallVec<Trim, 2>,
}

impl Drop for Trims {
    fn drop(self) {
        let Trims { items: _ } = self;
    }
}

impl Model for Trims {
    ghost use Rattle.std.specs.Prelude.{List};
    ghost use Rattle.a68_layout.specs.declared.types.Trim.{Trim};

    ghost Value = { List Trim };

    ghost view = { λ trims. trims.items.items };
}
