//! What runs of programs owe.
ghost use Rattle.std.specs.Prelude.{◌≤◌, ◌<◌, ◌+◌, ◌^◌, length, IfOk};
ghost use Rattle.a68_code.specs.Valid.{IsValid};
ghost use Rattle.a68_command.specs.declared.words.TheConstants.{MOST_TRACED_FUEL};
ghost use Rattle.a68_top.specs.Answer.{HasRun, IsTurned};
ghost use Rattle.a68_top.specs.Commands.{HasRaced, IsWritten};
ghost use Rattle.a68_top.specs.Ended.{Ends, Finishes, TellsRaces};
ghost use Rattle.a68_top.specs.Outcome.{IsAnswer};
ghost use Rattle.a68_workers.specs.Workers.{most_workers};
ghost use Rattle.a68_world.specs.Run.{most_fuel};

use crate::finish::{Asked, Finish, Made, Means, Owed, Telling, status_of};
use crate::noting::{noted, written};
use crate::owing::refused;
use crate::racing::{Found, found_in};
use a68_base::{NoMemory, Refusal, Rule, Text};
use a68_lease::run;
use a68_outside::Gate;
use a68_values::Kept;
use std::alloc::Global;
use std::marker::Sync;
use std::sync::Wait;
use std::thread::Threads;

// What a run owes that writes this to out.
fn ended(
    alloc: Global,
    made: Made,
    kept: Kept,
    out: Text,
    telling: Telling,
) -> Result<Owed, NoMemory>
    ensures status { IfOk result (λ due. IsAnswer due.finish.status) }
    ensures says { IfOk result (Ends made kept out telling) }
{
    match noted(alloc, telling, &made.program, &kept) {
        Ok(notes) => Ok(Owed {
            finish: Finish {
                status: status_of(kept.end),
                refusal: None,
                made: Some(made),
                ran: Some(kept),
            },
            out,
            notes,
        }),
        Err(error) => {
            drop(made);
            drop(kept);
            drop(out);
            Err(error)
        }
    }
}

/// What a run owes.
pub fn finished(alloc: Global, made: Made, kept: Kept, asked: Asked) -> Result<Owed, NoMemory>
    ensures status { IfOk result (λ due. IsAnswer due.finish.status) }
    ensures says { IfOk result (Finishes made kept asked) }
{
    match written(alloc, asked.writing, &kept) {
        Ok(out) => ended(alloc, made, kept, out, asked.telling),
        Err(error) => {
            drop(made);
            drop(kept);
            Err(error)
        }
    }
}

/// What the run of a program owes.
pub fn ran<R: Threads + Wait + Sync, G: Gate>(
    rt: &R,
    alloc: Global,
    made: Made,
    means: Means,
    asked: Asked,
    gate: &G,
) -> Result<Owed, NoMemory>
    requires valid { IsValid made.code }
    requires short { length made.code.list < 2 ^ 32 }
    requires fuel { (1 ≤ means.fuel) × (means.fuel ≤ most_fuel) }
    requires workers { (1 ≤ means.workers) × (means.workers ≤ most_workers) }
    ensures status { IfOk result (λ due. IsAnswer due.finish.status) }
    ensures answer { IfOk result (λ due. HasRun made means.fuel (IsTurned means.workers) (IsWritten asked.writing) asked.telling due.finish due.out due.notes) }
{
    let Made { program, code } = made;
    match run(rt, alloc, code, means.fuel, means.workers, gate) {
        Ok((code, kept)) => finished(alloc, Made { program, code }, kept, asked),
        Err(error) => {
            drop(program);
            Err(error)
        }
    }
}

// What the races of a run owe, or the refusal where it has too many strands.
fn races_of(alloc: Global, made: Made, kept: Kept) -> Result<Owed, NoMemory>
    requires { length kept.journal.entries + 1 < 2 ^ 32 }
    ensures status { IfOk result (λ due. IsAnswer due.finish.status) }
    ensures says { IfOk result (TellsRaces made kept) }
{
    match found_in(alloc, &kept) {
        Ok(Found::Told(out)) => ended(alloc, made, kept, out, Telling::EndAlone),
        Ok(Found::Beyond(place)) => {
            drop(made);
            drop(kept);
            refused(
                alloc,
                Refusal {
                    rule: Rule::Q4,
                    place,
                },
            )
        }
        Err(error) => {
            drop(made);
            drop(kept);
            Err(error)
        }
    }
}

/// What the races of a program's run owe, or the refusal where it has too many strands.
pub fn raced<R: Threads + Wait + Sync, G: Gate>(
    rt: &R,
    alloc: Global,
    made: Made,
    means: Means,
    gate: &G,
) -> Result<Owed, NoMemory>
    requires valid { IsValid made.code }
    requires short { length made.code.list < 2 ^ 32 }
    requires fuel { (1 ≤ means.fuel) × (means.fuel ≤ MOST_TRACED_FUEL) }
    requires workers { (1 ≤ means.workers) × (means.workers ≤ most_workers) }
    ensures status { IfOk result (λ due. IsAnswer due.finish.status) }
    ensures answer { IfOk result (λ due. HasRaced made means.workers means.fuel due.finish due.out due.notes) }
{
    let Made { program, code } = made;
    match run(rt, alloc, code, means.fuel, means.workers, gate) {
        Ok((code, kept)) => races_of(alloc, Made { program, code }, kept),
        Err(error) => {
            drop(program);
            Err(error)
        }
    }
}
