//! What a call of the program gives back.
ghost use Rattle.std.specs.Prelude.{◌≡◌, OnOk, OnErr};
ghost use Rattle.a68_top.specs.Answer.{bare, status_of};

use a68_annot::Annotated;
use a68_base::{Refusal, Status, Text};
use a68_code::Code;
use a68_outside::Failed;
use a68_values::{End, Kept};

/// A program that can run: its tree with what is known of each node, and its code.
#[derive(Drop)]
pub struct Made {
    pub program: Annotated,
    pub code: Code,
}

/// How a call ended, and what it kept.
#[derive(Drop)]
pub struct Finish {
    pub status: Status,
    /// The rule that the text breaks, and where; kept where the status is Refused, or where it would have been had
    /// no write failed.
    pub refusal: Option<Refusal>,
    /// What the text was made into; kept of a run.
    pub made: Option<Made>,
    /// What the run left: its journal, its cells and outermost slots, and its end.
    pub ran: Option<Kept>,
}

/// What a run tells behind the line on how it ended.
#[derive(Clone, Copy)]
pub enum Telling {
    /// Nothing more.
    EndAlone,
    /// Nothing more; and the line counts places from behind so many bytes, which stand in front of the program.
    MovedEnd(u32),
    /// What the variables of the program refer to.
    Variables,
    /// The units of a made text and the events of its run, where that is done.
    Units(u32),
}

/// What a run writes to `out`.
#[derive(Clone, Copy)]
pub enum Writing {
    /// The text that it has printed.
    Printed,
    /// Its schedule.
    Schedule,
}

/// How a run is made: by how many workers, and for how many events at most.
#[derive(Clone, Copy)]
pub struct Means {
    pub workers: u32,
    pub fuel: u32,
}

/// What is asked of a run: what it writes, and what it tells.
#[derive(Clone, Copy)]
pub struct Asked {
    pub writing: Writing,
    pub telling: Telling,
}

/// What a call owes where every write succeeds: its finish, and the bytes for `out` and for `notes`.
#[derive(Drop)]
pub struct Owed {
    pub finish: Finish,
    pub out: Text,
    pub notes: Text,
}

/// A finish that keeps nothing.
pub fn bare(status: Status) -> Finish
    ensures { result ≡ bare status }
{
    Finish {
        status,
        refusal: None,
        made: None,
        ran: None,
    }
}

/// What is owed, once it was delivered or a write has failed.
pub fn delivered(done: Result<(), Failed>, finish: Finish) -> Finish
    ensures ok { OnOk done (result ≡ finish) }
    ensures err { OnErr done (result ≡ record finish { status = Status.WriteFault }) }
{
    match done {
        Ok(()) => finish,
        Err(_) => Finish {
            status: Status::WriteFault,
            ..finish
        },
    }
}

/// The status of a run that ended so.
pub fn status_of(end: End) -> Status
    ensures { result ≡ status_of end }
{
    match end {
        End::Done => Status::Done,
        End::Fault { .. } => Status::Fault,
        End::AllHalted => Status::AllHalted,
        End::Spent => Status::Spent,
    }
}
