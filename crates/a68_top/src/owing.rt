//! What a call owes that runs nothing.
ghost use Rattle.std.specs.Prelude.{◌≡◌, [], None, Some, IfOk};
ghost use Rattle.a68_report.specs.Listing.{code_text as listing};
ghost use Rattle.a68_top.specs.Answer.{bare, IsMovedRefusal, IsRefusal, IsUsage, ProgramIsKept, Says};
ghost use Rattle.a68_top.specs.Outcome.{IsAnswer};

use crate::finish::{Finish, Made, Owed, bare};
use a68_base::{NoMemory, Refusal, Status, Text};
use a68_report::{USAGE, code_text, moved_refusal_line, refusal_line};
use std::alloc::Global;

/// What is owed where the words are no command.
pub fn usage(alloc: Global) -> Result<Owed, NoMemory>
    ensures status { IfOk result (λ due. IsAnswer due.finish.status) }
    ensures answer { IfOk result (λ due. IsUsage due.finish due.out due.notes) }
{
    let out = Text::from_slice(alloc, b"")?;
    let notes = Text::from_slice(alloc, USAGE.as_bytes())?;
    Ok(Owed {
        finish: bare(Status::Usage),
        out,
        notes,
    })
}

// A finish that keeps a refusal alone.
fn refusing(refusal: Refusal) -> Finish
    ensures { result ≡ record { status = Status.Refused; refusal = Some refusal; made = None; ran = None } }
{
    Finish {
        status: Status::Refused,
        refusal: Some(refusal),
        made: None,
        ran: None,
    }
}

/// What the refusal of a text owes.
pub fn refused(alloc: Global, refusal: Refusal) -> Result<Owed, NoMemory>
    ensures status { IfOk result (λ due. IsAnswer due.finish.status) }
    ensures answer { IfOk result (λ due. IsRefusal refusal due.finish due.out due.notes) }
{
    let out = Text::from_slice(alloc, b"")?;
    let notes = refusal_line(alloc, refusal)?;
    Ok(Owed {
        finish: refusing(refusal),
        out,
        notes,
    })
}

/// What the refusal of a text owes with so many bytes in front of its program.
pub fn refused_behind(alloc: Global, offset: u32, refusal: Refusal) -> Result<Owed, NoMemory>
    ensures status { IfOk result (λ due. IsAnswer due.finish.status) }
    ensures answer { IfOk result (λ due. IsMovedRefusal offset refusal due.finish due.out due.notes) }
{
    let out = Text::from_slice(alloc, b"")?;
    let notes = moved_refusal_line(alloc, offset, refusal)?;
    Ok(Owed {
        finish: refusing(refusal),
        out,
        notes,
    })
}

/// What is owed where this is written to out, and nothing is kept.
pub fn shown(alloc: Global, out: Text) -> Owed
    ensures status { IsAnswer result.finish.status }
    ensures says { Says result.finish result.out result.notes (bare Status.Done) out [] }
{
    Owed {
        finish: bare(Status::Done),
        out,
        notes: Text {
            items: Vec::new(alloc),
        },
    }
}

/// What is owed for a program that is kept and not run, where this is written to out.
pub fn keep(alloc: Global, made: Made, out: Text) -> Owed
    ensures status { IsAnswer result.finish.status }
    ensures says { ProgramIsKept made out result.finish result.out result.notes }
{
    Owed {
        finish: Finish {
            status: Status::Done,
            refusal: None,
            made: Some(made),
            ran: None,
        },
        out,
        notes: Text {
            items: Vec::new(alloc),
        },
    }
}

/// What is owed for a program whose code is listed.
pub fn listed(alloc: Global, made: Made) -> Result<Owed, NoMemory>
    ensures status { IfOk result (λ due. IsAnswer due.finish.status) }
    ensures says { IfOk result (λ due. ProgramIsKept made (listing made.code) due.finish due.out due.notes) }
{
    match code_text(alloc, &made.code) {
        Ok(out) => Ok(keep(alloc, made, out)),
        Err(error) => {
            drop(made);
            Err(error)
        }
    }
}
