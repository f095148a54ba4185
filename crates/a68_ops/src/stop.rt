//! Why an operator yields nothing.
ghost use Rattle.std.specs.Prelude.{◌≡◌};
ghost use Rattle.a68_ops.specs.declared.stop.OpStop.TheVariants as stops;

use a68_base::NoMemory;
use a68_values::FaultKind;

/// Why an operator yields nothing.
#[derive(Clone, Copy, Debug, PartialEq, Eq)]
pub enum OpStop {
    /// A fault of the program.
    Fault(FaultKind),
    /// An allocation was refused.
    NoMemory,
}

impl From<NoMemory> for OpStop {
    ghost from_gives = { λ _ stop. stop ≡ stops.NoMemory };

    fn from(_error: NoMemory) -> OpStop {
        OpStop::NoMemory
    }
}

impl From<FaultKind> for OpStop {
    ghost from_gives = { λ kind stop. stop ≡ stops.Fault kind };

    fn from(kind: FaultKind) -> OpStop {
        OpStop::Fault(kind)
    }
}
