//! What a run keeps.
use crate::{Cells, Entries, FaultKind, Slots};
use a68_base::Text;

/// The journal of a run: its acts in order, and the text that they printed.
#[derive(Drop)]
pub struct Journal {
    pub entries: Entries,
    pub text: Text,
}

/// How a run ended.
#[derive(Clone, Copy, Debug, PartialEq, Eq)]
pub enum End {
    /// The program has come to its end.
    Done,
    /// A strand met a fault. `place` is the byte at which the construct begins whose step met it.
    Fault {
        kind: FaultKind,
        place: u32,
        strand: u32,
    },
    /// No strand can act.
    AllHalted,
    /// The journal has as many entries as the run had fuel.
    Spent,
}

/// What a run keeps: its journal, and at its end what the cells hold, what the slots of the outermost frame of the
/// program are bound to, and how it ended. Where the program makes no frame there are no slots.
pub struct Kept {
    pub journal: Journal,
    pub cells: Cells,
    pub outer: Slots,
    pub end: End,
}

impl Drop for Kept {
    fn drop(self) {
        let Kept {
            journal: _,
            cells: _,
            outer: _,
            end: _,
        } = self;
    }
}
