//! Operations between two of their acts.
use crate::{Left, Steps, Want};
use a68_layout::Trims;
use a68_values::{FaultKind, Name, Plain, Value, Values};

/// How an operation goes on.
#[derive(Drop)]
pub enum Doing {
    /// It yields this value.
    Yields(Value),
    /// It asks for this act, and does this with the reply.
    Asks(Want, Next),
    /// It meets a fault.
    Meets(FaultKind),
}

/// What an operation does with the reply to its act.
#[derive(Drop)]
pub enum Next {
    /// The value that it is told is its yield.
    Value,
    /// What the cell holds is its yield.
    Held,
    /// It yields nothing.
    Void,
    /// It yields this name.
    Name(Name),
    /// It applies the operator that this row combines with assignation to what the cell holds and to this operand, which is
    /// an integer, and gives that to the name.
    Update {
        row: u32,
        name: Name,
        operand: Plain,
    },
    /// It applies the operator that this row combines with assignation to the text of the name and to this operand, and
    /// gives that to the name.
    Extend {
        row: u32,
        name: Name,
        operand: Value,
    },
    /// It takes the part of the row that these tell, of which this is the scope.
    Sliced {
        trims: Trims,
        scope: u32,
    },
    /// It takes the field so many cells behind the first one of each element of the row.
    Selected {
        offset: u32,
        scope: u32,
    },
    /// It adds a dimension to the row.
    Rowed {
        scope: u32,
    },
    /// It yields a bound of the row, in this dimension, counted from 1.
    Bound {
        upper: bool,
        dimension: i64,
    },
    /// It gives the new cell this count, which is that of a semaphore.
    Raised {
        count: i64,
    },
    /// It yields the semaphore of this cell.
    Sema {
        cell: u32,
    },
    /// What the cell holds is the count of a semaphore, and its yield.
    Count,
    /// It yields the name of the new cells, of this scope.
    Made {
        scope: u32,
    },
    /// It prints these items, the next one last, and yields nothing.
    Printing(Values),
    /// It goes on with these steps, of which the first one has asked for the act, over these values.
    Steps(Steps, Left),
}

/// A loop's counter: what it counts now, what each turn adds, and the limit where there is one (Report, 3.5).
#[derive(Clone, Copy, PartialEq, Eq)]
pub struct Counter {
    pub at: i64,
    pub by: i64,
    pub to: Option<i64>,
}
