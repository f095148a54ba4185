//! Why a text was not read.
ghost use Rattle.std.specs.Prelude.{◌≡◌};
ghost use Rattle.a68_read.specs.declared.unread.Unread.{Unread};
ghost use Rattle.a68_read.specs.declared.unread.Unread.TheVariants as faults;

use a68_base::NoMemory;
use std::alloc::{AllocError, AllocFailed};

/// Why a text was not read.
#[derive(Clone, Copy)]
pub enum Unread {
    /// An allocation was refused.
    Memory,
    /// The text has no tree. So many symbols are left, the first of which does not go on the form that was chosen.
    NoTree(usize),
}

impl From<NoMemory> for Unread {
    ghost from_gives = { λ _ fault. fault ≡ faults.Memory };

    fn from(_error: NoMemory) -> Unread {
        Unread::Memory
    }
}

impl From<AllocError> for Unread {
    ghost from_gives = { λ _ fault. fault ≡ faults.Memory };

    fn from(_error: AllocError) -> Unread {
        Unread::Memory
    }
}

impl<T: Drop> From<AllocFailed<T>> for Unread {
    ghost from_gives = { λ _ fault. fault ≡ faults.Memory };

    fn from(_error: AllocFailed<T>) -> Unread {
        Unread::Memory
    }
}
