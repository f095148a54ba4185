//! Why an act is not done.
ghost use Rattle.std.specs.Prelude.{◌≡◌};
ghost use Rattle.a68_store.specs.declared.stop.StoreStop.TheVariants as stops;

use a68_base::NoMemory;
use a68_values::FaultKind;
use std::alloc::{AllocError, AllocFailed};

/// Why an act is not done.
#[derive(Clone, Copy, PartialEq, Eq)]
pub enum StoreStop {
    /// The strand meets this fault.
    Fault(FaultKind),
    /// The strand has to wait.
    Waits,
    NoMemory,
}

impl From<NoMemory> for StoreStop {
    ghost from_gives = { λ _ stop. stop ≡ stops.NoMemory };

    fn from(_error: NoMemory) -> StoreStop {
        StoreStop::NoMemory
    }
}

impl From<AllocError> for StoreStop {
    ghost from_gives = { λ _ stop. stop ≡ stops.NoMemory };

    fn from(_error: AllocError) -> StoreStop {
        StoreStop::NoMemory
    }
}

impl<T: Drop> From<AllocFailed<T>> for StoreStop {
    ghost from_gives = { λ _ stop. stop ≡ stops.NoMemory };

    fn from(_error: AllocFailed<T>) -> StoreStop {
        StoreStop::NoMemory
    }
}
