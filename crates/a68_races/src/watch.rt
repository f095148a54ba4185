//! What is known behind the first entries of a journal.
ghost use Rattle.std.specs.Prelude.{◌≡◌, ◌+◌, ◌<◌, ◌^◌, ℕ, [], IfOk, OnOk};
ghost use Rattle.a68_races.specs.Clocks.{clock_at};
ghost use Rattle.a68_races.specs.Races.{IsBeyond};
ghost use Rattle.a68_races.specs.Telling.{AreNew, AreWithin, CellsBy, IsMark, IsRaceBy, IsToldOf, LowersOf, MarksBetween, MarksUnits, ParentsOf, ParentsTold, RaceOf, RaisedOf, Steps, TellsOf};

use crate::cells::{Cells, Last};
use crate::clock::Clock;
use crate::clocks::Clocks;
use crate::race::Pair;
use a68_base::NoMemory;
use a68_values::{Act, Entry};
use std::alloc::Global;

/// What is known behind the first entries: of each strand what is before all that it does from then on; of each strand, those
/// that have forked it; of each semaphore what is before all that lowers it from then on; and of each cell, when each strand
/// read or wrote it last, and when it wrote it last. An entry's time is its place and one.
#[derive(Drop)]
pub struct Watch {
    pub strands: Clocks,
    pub parents: Clocks,
    pub raised: Clocks,
    pub cells: Cells,
}

// A clock in which this time alone is set.
fn mark(alloc: Global, key: u32, time: u32) -> Result<Clock, NoMemory>
    ensures { IfOk result (IsMark key time) }
{
    let mut clock = Clock::new(alloc);
    clock.set(key, time)?;
    Ok(clock)
}

// A clock in which these strands are marked.
fn units_between(alloc: Global, first: u32, last: u32) -> Result<Clock, NoMemory>
    ensures { IfOk result (MarksBetween first last) }
{
    let mut units = Clock::new(alloc);
    for strand in first..last {
        units.set(strand, 1)?;
    }
    Ok(units)
}

// A clock in which the strands that an act numbers are marked.
fn units_of(alloc: Global, entry: Entry) -> Result<Clock, NoMemory>
    requires { IsBeyond entry → ⊥ }
    ensures { IfOk result (MarksUnits entry.act) }
{
    match entry.act {
        Act::Fork { first, count } => {
            let units = units_between(alloc, first, first.saturating_add(count))?;
            Ok(units)
        }
        _ => Ok(Clock::new(alloc)),
    }
}

// Marks the strands that have forked one, where it closes by this act.
fn mark_parents(parents: &Clocks, strand: u32, act: Act, told: &mut Clock) -> Result<(), NoMemory>
    ensures { OnOk result (ParentsTold parents.now strand act told.old told.new) }
{
    match act {
        Act::Close => {
            parents.tell(strand as usize, told)?;
            Ok(())
        }
        _ => Ok(()),
    }
}

// A clock in which the strands are marked that do all behind this entry from then on.
fn told_of(alloc: Global, parents: &Clocks, entry: Entry) -> Result<Clock, NoMemory>
    requires { IsBeyond entry → ⊥ }
    ensures { IfOk result (IsToldOf parents.now entry) }
{
    let mut told = units_of(alloc, entry)?;
    told.set(entry.strand, 1)?;
    mark_parents(parents, entry.strand, entry.act, &mut told)?;
    Ok(told)
}

// The race of an entry that has this place and accesses this cell, by the last time that it meets.
fn pair_by(cell: u32, latest: u32, place: u32) -> Option<Pair>
    ensures { IsRaceBy cell latest place result }
{
    if latest == 0 {
        return None;
    }
    Some(Pair {
        cell,
        first: latest - 1,
        second: place,
    })
}

// Puts the clock of a strand that lowers a semaphore forward to what is before that.
fn lower(alloc: Global, strands: &mut Clocks, raised: &Clocks, entry: Entry) -> Result<(), NoMemory>
    ensures { OnOk result (LowersOf entry.act entry.strand strands.old raised.now strands.new) }
{
    if let Act::Down { cell } = entry.act {
        strands.join_from(alloc, entry.strand as usize, raised, cell as usize)?;
    }
    Ok(())
}

// The last race of an entry that has this place, by what is known to be before it.
fn race_of(cells: &Cells, entry: Entry, place: u32, known: &Clock) -> Option<Pair>
    ensures { RaceOf cells.now entry place known.now result }
{
    match entry.act {
        Act::Fetch { cell } => {
            let latest = cells.latest(true, cell, entry.strand, known);
            pair_by(cell, latest, place)
        }
        Act::Assign { cell } => {
            let latest = cells.latest(false, cell, entry.strand, known);
            pair_by(cell, latest, place)
        }
        _ => None,
    }
}

// Puts the clocks of those whom an entry tells forward to that of its strand: none but its own, but where it forks or closes.
fn tell(alloc: Global, strands: &mut Clocks, parents: &Clocks, entry: Entry) -> Result<(), NoMemory>
    requires { IsBeyond entry → ⊥ }
    ensures { OnOk result (TellsOf parents.now entry strands.old strands.new) }
{
    match entry.act {
        Act::Fork { .. } | Act::Close => {
            let told = told_of(alloc, parents, entry)?;
            let now = strands.copy(alloc, entry.strand as usize)?;
            strands.join_marked(alloc, &told, &now)?;
            Ok(())
        }
        _ => Ok(()),
    }
}

// Notes who has forked the strands that an entry numbers.
fn note_units(alloc: Global, parents: &mut Clocks, entry: Entry) -> Result<(), NoMemory>
    requires { IsBeyond entry → ⊥ }
    ensures { OnOk result (ParentsOf entry parents.old parents.new) }
{
    match entry.act {
        Act::Fork { .. } => {
            let units = units_of(alloc, entry)?;
            let parent = mark(alloc, entry.strand, 1)?;
            parents.join_marked(alloc, &units, &parent)?;
            Ok(())
        }
        _ => Ok(()),
    }
}

// Notes that a semaphore was raised.
fn note_raised(
    alloc: Global,
    raised: &mut Clocks,
    strands: &Clocks,
    entry: Entry,
) -> Result<(), NoMemory>
    ensures { OnOk result (RaisedOf entry.act raised.old (clock_at strands.now entry.strand) raised.new) }
{
    if let Act::Up { cell } = entry.act {
        raised.join_from(alloc, cell as usize, strands, entry.strand as usize)?;
    }
    Ok(())
}

// Notes that a strand read or wrote a cell.
fn note_cell(alloc: Global, cells: &mut Cells, entry: Entry, time: u32) -> Result<(), NoMemory>
    ensures { OnOk result (CellsBy entry.act entry.strand time cells.old cells.new) }
{
    let strand = entry.strand;
    match entry.act {
        Act::Fetch { cell } => {
            cells.note(
                alloc,
                cell,
                Last {
                    strand,
                    accessed: time,
                    written: 0,
                },
            )?;
            Ok(())
        }
        Act::Assign { cell } => {
            cells.note(
                alloc,
                cell,
                Last {
                    strand,
                    accessed: time,
                    written: time,
                },
            )?;
            Ok(())
        }
        _ => Ok(()),
    }
}

impl Watch {
    /// Nothing is known.
    pub fn new(alloc: Global) -> Watch
        ensures { AreNew result }
    {
        Watch {
            strands: Clocks::new(alloc),
            parents: Clocks::new(alloc),
            raised: Clocks::new(alloc),
            cells: Cells::new(alloc),
        }
    }

    // The last race of this entry, which has this place. The clock of its strand is that of all that is before it.
    fn race(&self, alloc: Global, entry: Entry, place: u32) -> Option<Pair>
        ensures { RaceOf self.now.cells entry place (clock_at self.now.strands entry.strand) result }
    {
        match self.strands.get(entry.strand as usize) {
            Some(known) => race_of(&self.cells, entry, place, known),
            None => race_of(&self.cells, entry, place, &Clock::new(alloc)),
        }
    }

    /// Takes in the entry at this place, and gives its last race.
    pub fn step(
        &mut self,
        alloc: Global,
        entry: Entry,
        place: u32,
    ) -> Result<Option<Pair>, NoMemory>
        requires within { IsBeyond entry → ⊥ }
        requires small { place + 1 < 2 ^ 32 }
        ensures { IfOk result (λ race. AreWithin self.old.strands place → Steps self.old entry place race self.new) }
    {
        let time = place + 1;
        lower(alloc, &mut self.strands, &self.raised, entry)?;
        let race = self.race(alloc, entry, place);
        self.strands.set(alloc, entry.strand, entry.strand, time)?;
        note_raised(alloc, &mut self.raised, &self.strands, entry)?;
        tell(alloc, &mut self.strands, &self.parents, entry)?;
        note_units(alloc, &mut self.parents, entry)?;
        note_cell(alloc, &mut self.cells, entry, time)?;
        Ok(race)
    }
}
