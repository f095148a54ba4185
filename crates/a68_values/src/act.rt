//! The acts of a run, and the faults that it can meet.

/// Why a run ends with a fault. The rules are own: the Report leaves undefined what a program does here.
#[derive(Clone, Copy, Debug, PartialEq, Eq)]
pub enum FaultKind {
    /// A value is used that is not there yet.
    Unset,
    /// A value is of a kind that the step does not take.
    Kind,
    /// A name that refers to nothing is used.
    Nil,
    /// A value would outlive the frame in which it may live (Report, 2.1.1.3, 5.2.1.2).
    Scope,
    /// A subscript, a trimmer or the bounds of a row do not fit.
    Bounds,
    /// A result is no INT.
    Overflow,
    /// A division by 0.
    Divisor,
    /// An operand is outside those that an operator takes.
    Domain,
    /// More cells and slots are wanted than a run may have.
    Cells,
    /// More bytes are printed than a run may print.
    Text,
    /// More strands are wanted than a run may have.
    Strands,
}

/// An act of a strand on what all strands share. Frames, slots, cells, strands and printed bytes are numbered from 0.
#[derive(Clone, Copy, Debug)]
pub enum Act {
    /// A new frame.
    Enter { frame: u32 },
    /// A slot is bound to a value.
    Bind { frame: u32, slot: u32 },
    /// A slot is looked at.
    Look { frame: u32, slot: u32 },
    /// New cells.
    Make { base: u32, count: u32 },
    /// A cell is read.
    Fetch { cell: u32 },
    /// A cell is written.
    Assign { cell: u32 },
    /// A semaphore is raised by 1.
    Up { cell: u32 },
    /// A semaphore is lowered by 1.
    Down { cell: u32 },
    /// Bytes are printed: those from `from` up to `to`.
    Print { from: u32, to: u32 },
    /// A turn of a loop, or a call.
    Turn,
    /// New strands for the units of a parallel clause.
    Fork { first: u32, count: u32 },
    /// The end of a unit of a parallel clause.
    Close,
}

/// An act in the journal of a run, and the strand that did it.
#[derive(Clone, Copy)]
pub struct Entry {
    pub strand: u32,
    pub act: Act,
}
