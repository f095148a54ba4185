//! What runs of texts that read an input owe.
ghost use Rattle.std.specs.Prelude.{◌≤◌, ◌<◌, ◌^◌, length, IfOk};
ghost use Rattle.a68_base.specs.declared.limits.TheConstants.{MOST_READ};
ghost use Rattle.a68_input.specs.Lines.{AreLines, KeepLimits};
ghost use Rattle.a68_top.specs.Commands.{HasRunJoined, HasRunOn};
ghost use Rattle.a68_top.specs.Outcome.{IsAnswer};
ghost use Rattle.a68_workers.specs.Workers.{most_workers};
ghost use Rattle.a68_world.specs.Run.{most_fuel};

use crate::compile::compile;
use crate::finish::{Asked, Means, Owed, Telling, Writing};
use crate::owing::{refused, refused_behind};
use crate::running::ran;
use a68_base::{NoMemory, Refusal, Rule, Stop};
use a68_input::{InputStop, Lines, join, lines_of};
use a68_outside::Gate;
use a68_sim::permitted_law;
use std::alloc::Global;
use std::marker::Sync;
use std::sync::Wait;
use std::thread::Threads;

// What a text owes that reads these lines.
fn joined<R: Threads + Wait + Sync, G: Gate>(
    rt: &R,
    alloc: Global,
    text: &[u8],
    lines: &Lines,
    means: Means,
    gate: &G,
) -> Result<Owed, NoMemory>
    requires text { length text.now ≤ MOST_READ }
    requires kept { KeepLimits lines.now }
    requires fuel { (1 ≤ means.fuel) × (means.fuel ≤ most_fuel) }
    requires workers { (1 ≤ means.workers) × (means.workers ≤ most_workers) }
    ensures status { IfOk result (λ due. IsAnswer due.finish.status) }
    ensures answer { IfOk result (λ due. HasRunJoined text.now lines.now means.workers means.fuel due.finish due.out due.notes) }
{
    permitted_law();
    let joined = join(alloc, text, lines)?;
    match compile(alloc, joined.bytes.as_slice()) {
        Err(Stop::NoMemory) => Err(NoMemory),
        Err(Stop::Refused(refusal)) => refused_behind(alloc, joined.offset, refusal),
        Ok(made) => {
            let asked = Asked {
                writing: Writing::Printed,
                telling: Telling::MovedEnd(joined.offset),
            };
            ran(rt, alloc, made, means, asked, gate)
        }
    }
}

/// What a text that has a tree owes and reads the lines of this input, or the refusal where it is too long.
pub fn ran_on<R: Threads + Wait + Sync, G: Gate>(
    rt: &R,
    alloc: Global,
    text: &[u8],
    input: &[u8],
    means: Means,
    gate: &G,
) -> Result<Owed, NoMemory>
    requires text { length text.now ≤ MOST_READ }
    requires length { length input.now < 2 ^ 32 }
    requires fuel { (1 ≤ means.fuel) × (means.fuel ≤ most_fuel) }
    requires workers { (1 ≤ means.workers) × (means.workers ≤ most_workers) }
    ensures status { IfOk result (λ due. IsAnswer due.finish.status) }
    ensures answer { IfOk result (λ due. HasRunOn text.now input.now means.workers means.fuel due.finish due.out due.notes) }
{
    match lines_of(alloc, input) {
        Ok(lines) => joined(rt, alloc, text, &lines, means, gate),
        Err(InputStop::Long(place)) => {
            let rule = Rule::Q5;
            refused(alloc, Refusal { rule, place })
        }
        Err(InputStop::NoMemory) => Err(NoMemory),
    }
}
