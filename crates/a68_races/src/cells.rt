//! When strands last read and wrote cells.
ghost use Rattle.std.specs.Prelude.{◌≡◌, ◌+◌, ◌<◌, ◌≤◌, ◌^◌, ℕ, [], length, max, OnOk};
ghost use Rattle.a68_races.specs.Cells.{AreNoted, IsLatest, IsNoted, lasts_at, time_in, time_of, unknown_time};

use crate::clock::Clock;
use a68_base::NoMemory;
use std::alloc::Global;
use std::marker::Model;

/// When a strand last read or wrote a cell, and when it last wrote it; 0 where it has not.
#[derive(Clone, Copy, Debug, PartialEq, Eq)]
pub struct Last {
    pub strand: u32,
    pub accessed: u32,
    pub written: u32,
}

/// The last times of a cell, of the strands that have read or written it.
#[derive(Drop)]
pub struct Lasts {
    items: Vec<Last>,
}

impl Model for Lasts {
    ghost use Rattle.std.specs.Prelude.{List};
    ghost use Rattle.a68_races.specs.Codes.{lasts_code};
    ghost use Rattle.a68_races.specs.declared.cells.Last.{Last};

    ghost Value = { List Last };

    ghost coded = { lasts_code };

    ghost view = { λ lasts. lasts.items.items };
}

// The time of one of the two sorts.
fn time_in(writes: bool, last: Last) -> u32
    ensures { result ≡ time_in writes last }
{
    if writes { last.written } else { last.accessed }
}

// The later one of a time and of this strand's, where that is another strand and its time is not known. A time that is no
// later is not looked at, which spares most of the work where there are many races.
fn later(latest: u32, writes: bool, last: Last, strand: u32, known: &Clock) -> u32
    ensures { result ≡ max latest (unknown_time writes last strand known.now) }
{
    let time = time_in(writes, last);
    if time <= latest {
        return latest;
    }
    if last.strand == strand {
        return latest;
    }
    if known.at(last.strand as usize) < time {
        return time;
    }
    latest
}

impl Lasts {
    // The latest of the times of other strands that are not known.
    #[inline(never)]
    fn latest(&self, writes: bool, strand: u32, known: &Clock) -> u32
        ensures { IsLatest (time_of writes self.now) known.now strand result }
    {
        let mut latest: u32 = 0;
        for last in &self.items {
            latest = later(latest, writes, *last, strand, known);
        }
        latest
    }

    // Notes the times of a strand, none of which is put back.
    #[inline(never)]
    fn note(&mut self, times: Last) -> Result<(), NoMemory>
        ensures { OnOk result (IsNoted self.old times self.new) }
    {
        for at in 0..self.items.len() {
            let last = self.items[at];
            if last.strand == times.strand {
                self.items[at] = Last {
                    strand: last.strand,
                    accessed: last.accessed.max(times.accessed),
                    written: last.written.max(times.written),
                };
                return Ok(());
            }
        }
        self.items.push(times)?;
        Ok(())
    }
}

/// The last times of all cells. Behind the end of the list no strand has read or written one.
#[derive(Drop)]
pub struct Cells {
    items: Vec<Lasts>,
}

impl Model for Cells {
    ghost use Rattle.std.specs.Prelude.{List};
    ghost use Rattle.a68_races.specs.Codes.{cells_code};
    ghost use Rattle.a68_races.specs.declared.cells.Last.{Last};

    ghost Value = { List (List Last) };

    ghost coded = { cells_code };

    ghost view = { λ cells. cells.items.items };
}

impl Cells {
    /// No cell was read or written.
    pub fn new(alloc: Global) -> Cells
        ensures { result ≡ [] }
    {
        Cells {
            items: Vec::new(alloc),
        }
    }

    /// The latest of the times of other strands at a cell that are not known: of all, or of those at which they wrote it.
    pub fn latest(&self, writes: bool, cell: u32, strand: u32, known: &Clock) -> u32
        ensures { IsLatest (time_of writes (lasts_at self.now cell)) known.now strand result }
    {
        match self.items.get(cell as usize) {
            Some(lasts) => lasts.latest(writes, strand, known),
            None => 0,
        }
    }

    // Makes the list so long at least.
    fn reach(&mut self, alloc: Global, count: usize) -> Result<(), NoMemory>
        ensures same { OnOk result ((cell : ℕ) → lasts_at self.new cell ≡ lasts_at self.old cell) }
        ensures long { OnOk result (count ≤ length self.new) }
    {
        while self.items.len() < count {
            self.items.push(Lasts {
                items: Vec::new(alloc),
            })?;
        }
        Ok(())
    }

    /// Notes the times of a strand at a cell, none of which is put back.
    pub fn note(&mut self, alloc: Global, cell: u32, times: Last) -> Result<(), NoMemory>
        ensures { OnOk result (AreNoted self.old cell times self.new) }
    {
        self.reach(alloc, cell as usize + 1)?;
        self.items[cell as usize].note(times)?;
        Ok(())
    }
}
