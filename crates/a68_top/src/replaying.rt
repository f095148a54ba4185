//! What runs by a schedule owe.
ghost use Rattle.std.specs.Prelude.{◌≤◌, ◌<◌, ◌^◌, length, IfOk};
ghost use Rattle.a68_code.specs.Valid.{IsValid};
ghost use Rattle.a68_replay.specs.declared.picks.TheConstants.{MOST_PICKS};
ghost use Rattle.a68_top.specs.Commands.{HasFollowed, HasReplayed};
ghost use Rattle.a68_top.specs.Outcome.{IsAnswer};

use crate::finish::{Asked, Made, Owed, Telling, Writing};
use crate::owing::refused;
use crate::running::finished;
use a68_base::{NoMemory, Refusal, Rule};
use a68_replay::{Picks, Replayed, ScheduleStop, read_schedule, replay};
use std::alloc::Global;

// What the run of a program by these picks owes.
fn followed(alloc: Global, made: Made, picks: &Picks) -> Result<Owed, NoMemory>
    requires valid { IsValid made.code }
    requires short { length made.code.list < 2 ^ 32 }
    requires few { length picks.now ≤ MOST_PICKS }
    ensures status { IfOk result (λ due. IsAnswer due.finish.status) }
    ensures answer { IfOk result (λ due. HasFollowed made picks.now due.finish due.out due.notes) }
{
    let Made { program, code } = made;
    match replay(alloc, code, picks) {
        Ok(Replayed::Ran(code, kept)) => {
            let asked = Asked {
                writing: Writing::Printed,
                telling: Telling::EndAlone,
            };
            finished(alloc, Made { program, code }, kept, asked)
        }
        Ok(Replayed::Stuck(code, place)) => {
            drop(code);
            drop(program);
            let rule = Rule::Q2;
            refused(alloc, Refusal { rule, place })
        }
        Ok(Replayed::Short(code, place)) => {
            drop(code);
            drop(program);
            let rule = Rule::Q3;
            refused(alloc, Refusal { rule, place })
        }
        Err(error) => {
            drop(program);
            Err(error)
        }
    }
}

/// What the run of a program by the picks of a schedule owes, or the refusal where these bytes are none.
pub fn replayed(alloc: Global, made: Made, schedule: &[u8]) -> Result<Owed, NoMemory>
    requires valid { IsValid made.code }
    requires short { length made.code.list < 2 ^ 32 }
    requires length { length schedule.now < 2 ^ 32 }
    ensures status { IfOk result (λ due. IsAnswer due.finish.status) }
    ensures answer { IfOk result (λ due. HasReplayed made schedule.now due.finish due.out due.notes) }
{
    match read_schedule(alloc, schedule) {
        Ok(picks) => followed(alloc, made, &picks),
        Err(ScheduleStop::Bad(place)) => {
            drop(made);
            let rule = Rule::Q1;
            refused(alloc, Refusal { rule, place })
        }
        Err(ScheduleStop::NoMemory) => {
            drop(made);
            Err(NoMemory)
        }
    }
}
