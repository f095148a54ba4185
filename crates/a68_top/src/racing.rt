//! The races of a run.
ghost use Rattle.std.specs.Prelude.{◌+◌, ◌<◌, ◌^◌, length, IfOk};
ghost use Rattle.a68_top.specs.Racing.{IsFound};

use a68_base::{NoMemory, Text};
use a68_races::{RaceStop, race_text, races};
use a68_values::Kept;
use std::alloc::Global;

/// What is found of the races of a run.
#[derive(Drop)]
pub enum Found {
    /// Their text.
    Told(Text),
    /// The first entry that is of, or numbers, a strand above those that are told apart.
    Beyond(u32),
}

/// Finds the races of what a run keeps.
pub fn found_in(alloc: Global, kept: &Kept) -> Result<Found, NoMemory>
    requires { length kept.now.journal.entries + 1 < 2 ^ 32 }
    ensures { IfOk result (IsFound kept.now) }
{
    match races(alloc, &kept.journal) {
        Ok(found) => {
            let text = race_text(alloc, &found)?;
            Ok(Found::Told(text))
        }
        Err(RaceStop::Strands(place)) => Ok(Found::Beyond(place)),
        Err(RaceStop::NoMemory) => Err(NoMemory),
    }
}
