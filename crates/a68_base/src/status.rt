//! How a call of the program ends.
ghost use Rattle.std.specs.Prelude.{◌≡◌};
ghost use Rattle.a68_base.specs.Status.{number_of};

/// How a call of the program ended; the process ends with the status's number.
#[derive(Clone, Copy, PartialEq, Eq)]
pub enum Status {
    /// All was done.
    Done,
    /// The text breaks a rule or a limit.
    Refused,
    /// The words are no command.
    Usage,
    /// The run met a fault.
    Fault,
    /// No strand of the run could go on.
    AllHalted,
    /// The run used up its fuel.
    Spent,
    /// A read failed.
    ReadFault,
    /// A write failed.
    WriteFault,
    /// An allocation was refused.
    NoMemory,
}

impl Status {
    /// The number that the process ends with.
    pub fn number(&self) -> u8
        ensures { result ≡ number_of self.now }
    {
        match self {
            Status::Done => 0,
            Status::Refused => 1,
            Status::Usage => 2,
            Status::Fault => 3,
            Status::AllHalted => 4,
            Status::Spent => 5,
            Status::ReadFault => 6,
            Status::WriteFault => 7,
            Status::NoMemory => 8,
        }
    }
}
