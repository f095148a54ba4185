//! The journal of a run while it grows, and as it is kept.
ghost use Rattle.std.specs.Prelude.{◌≡◌, ◌<◌, ◌++◌, ◌^◌, [], ◌∷◌, ℕ, List, length, slice_get, IfOk, IfSome};
ghost use Rattle.a68_values.specs.Logs.{act_of, entry_of, IsAmong};
ghost use Rattle.a68_values.specs.declared.act.Entry.{Entry};
ghost use Rattle.a68_values.specs.declared.log.Numbers.{Numbers};

use crate::{Act, Entry};
use a68_base::NoMemory;
use std::alloc::Global;
use std::marker::Model;

/// What an act is, whose numbers stand elsewhere.
#[derive(Clone, Copy)]
pub enum ActKind {
    Enter,
    Bind,
    Look,
    Make,
    Fetch,
    Assign,
    Up,
    Down,
    Print,
    Turn,
    Fork,
    Close,
}

/// The numbers of an act. Those that it does not have are 0.
#[derive(Clone, Copy)]
pub struct Numbers {
    pub first: u32,
    pub second: u32,
}

/// An entry in eight bytes, since a run writes one for each of its acts: one of strand 0 whose second number is small. The numbers
/// of any other stand apart, in eight bytes more.
#[derive(Clone, Copy)]
pub enum Brief {
    Enter { frame: u32 },
    Bind { slot: u16, frame: u32 },
    Look { slot: u16, frame: u32 },
    Make { count: u16, base: u32 },
    Fetch { cell: u32 },
    Assign { cell: u32 },
    Turn,
    /// The numbers of the act are at this place among those that stand apart.
    Wide { kind: ActKind, strand: u16, at: u32 },
}

// The kind of an act, and its numbers.
fn parted(act: Act) -> (ActKind, Numbers)
    ensures { act_of result.0 result.1 ≡ act }
{
    let (kind, first, second) = match act {
        Act::Enter { frame } => (ActKind::Enter, frame, 0),
        Act::Bind { frame, slot } => (ActKind::Bind, frame, slot),
        Act::Look { frame, slot } => (ActKind::Look, frame, slot),
        Act::Make { base, count } => (ActKind::Make, base, count),
        Act::Fetch { cell } => (ActKind::Fetch, cell, 0),
        Act::Assign { cell } => (ActKind::Assign, cell, 0),
        Act::Up { cell } => (ActKind::Up, cell, 0),
        Act::Down { cell } => (ActKind::Down, cell, 0),
        Act::Print { from, to } => (ActKind::Print, from, to),
        Act::Turn => (ActKind::Turn, 0, 0),
        Act::Fork { first, count } => (ActKind::Fork, first, count),
        Act::Close => (ActKind::Close, 0, 0),
    };
    (kind, Numbers { first, second })
}

// The act of a kind with these numbers.
fn act_of(kind: ActKind, numbers: Numbers) -> Act
    ensures { result ≡ act_of kind numbers }
{
    let Numbers { first, second } = numbers;
    match kind {
        ActKind::Enter => Act::Enter { frame: first },
        ActKind::Bind => Act::Bind {
            frame: first,
            slot: second,
        },
        ActKind::Look => Act::Look {
            frame: first,
            slot: second,
        },
        ActKind::Make => Act::Make {
            base: first,
            count: second,
        },
        ActKind::Fetch => Act::Fetch { cell: first },
        ActKind::Assign => Act::Assign { cell: first },
        ActKind::Up => Act::Up { cell: first },
        ActKind::Down => Act::Down { cell: first },
        ActKind::Print => Act::Print {
            from: first,
            to: second,
        },
        ActKind::Turn => Act::Turn,
        ActKind::Fork => Act::Fork {
            first,
            count: second,
        },
        ActKind::Close => Act::Close,
    }
}

// A number that fits two bytes.
#[inline(always)]
fn small(number: u32) -> Option<u16>
    ensures { IfSome result (λ small. small ≡ number) }
{
    if number > u32::from(u16::MAX) {
        return None;
    }
    Some(number as u16)
}

impl Brief {
    // An act of strand 0; none where its entry has to stand apart.
    #[inline(always)]
    fn of(act: Act) -> Option<Brief>
        ensures is { IfSome result (λ brief. (apart : List Numbers) → entry_of apart brief ≡ record { strand = 0; act = act }) }
        ensures among { IfSome result (λ brief. (count : ℕ) → IsAmong count brief) }
    {
        let brief = match act {
            Act::Enter { frame } => Brief::Enter { frame },
            Act::Bind { frame, slot } => Brief::Bind {
                slot: small(slot)?,
                frame,
            },
            Act::Look { frame, slot } => Brief::Look {
                slot: small(slot)?,
                frame,
            },
            Act::Make { base, count } => Brief::Make {
                count: small(count)?,
                base,
            },
            Act::Fetch { cell } => Brief::Fetch { cell },
            Act::Assign { cell } => Brief::Assign { cell },
            Act::Turn => Brief::Turn,
            Act::Up { .. } | Act::Down { .. } | Act::Print { .. } | Act::Fork { .. } | Act::Close =>
                return None,
        };
        Some(brief)
    }

    // The entry that it stands for.
    fn entry(self, apart: &[Numbers]) -> Entry
        requires { IsAmong (length apart.now) self }
        ensures { result ≡ entry_of apart.now self }
    {
        let act = match self {
            Brief::Enter { frame } => Act::Enter { frame },
            Brief::Bind { slot, frame } => Act::Bind {
                frame,
                slot: u32::from(slot),
            },
            Brief::Look { slot, frame } => Act::Look {
                frame,
                slot: u32::from(slot),
            },
            Brief::Make { count, base } => Act::Make {
                base,
                count: u32::from(count),
            },
            Brief::Fetch { cell } => Act::Fetch { cell },
            Brief::Assign { cell } => Act::Assign { cell },
            Brief::Turn => Act::Turn,
            Brief::Wide { kind, strand, at } => {
                let act = act_of(kind, apart[at as usize]);
                return Entry {
                    strand: u32::from(strand),
                    act,
                };
            }
        };
        Entry { strand: 0, act }
    }
}

/// The entries of a run that goes on, in the order in which they were done. Contracts see them, and for how many memory is
/// reserved.
#[derive(Drop)]
pub struct Log {
    briefs: Vec<Brief>,
    // The numbers of those that are wide.
    apart: Vec<Numbers>,
    // For so many entries memory is reserved.
    room: u32,
}

impl Model for Log {
    ghost use Rattle.std.specs.Prelude.{◌≤◌, length};
    ghost use Rattle.std.specs.List.{All};
    ghost use Rattle.std.specs.Vec.{vec_capacity};
    ghost use Rattle.a68_values.specs.Logs.{Logged, entries_of, logged_code, IsAmong};

    ghost Value = { Logged };

    ghost coded = { logged_code };

    ghost view = { λ log. let x : Logged = record { items = entries_of log.apart.items log.briefs.items; room = log.room } in x };

    ghost invariant = { λ log. All (IsAmong (length log.apart.items)) log.briefs.items × (length log.apart.items ≤ length log.briefs.items) × (log.room ≤ vec_capacity log.briefs) × (log.room ≤ vec_capacity log.apart) };
}

impl Log {
    /// A log without entries, and memory for so many, which is not touched yet.
    pub fn with_room(alloc: Global, room: u32) -> Result<Log, NoMemory>
        ensures { IfOk result (λ log. log ≡ record { items = []; room = room }) }
    {
        Ok(Log {
            briefs: Vec::with_capacity(alloc, room as usize)?,
            apart: Vec::with_capacity(alloc, room as usize)?,
            room,
        })
    }

    /// How many entries there are.
    #[inline(always)]
    pub fn len(&self) -> usize
        ensures { result ≡ length self.now.items }
    {
        self.briefs.len()
    }

    /// The entry at this place.
    pub fn get(&self, at: usize) -> Option<Entry>
        ensures { result ≡ slice_get self.now.items at }
    {
        let brief = *self.briefs.get(at)?;
        Some(brief.entry(&self.apart))
    }

    /// Writes an act of strand 0 behind the others.
    #[inline(always)]
    pub fn note(&mut self, act: Act)
        requires { length self.old.items < self.old.room }
        ensures items { self.new.items ≡ self.old.items ++ record { strand = 0; act = act } ∷ [] }
        ensures room { self.new.room ≡ self.old.room }
    {
        match Brief::of(act) {
            Some(brief) => self.briefs.push_reserved(brief),
            None => self.note_wide(Entry { strand: 0, act }),
        }
    }

    /// Writes an entry behind the others. Its numbers stand apart.
    #[cold]
    #[inline(never)]
    pub fn note_wide(&mut self, entry: Entry)
        requires room { length self.old.items < self.old.room }
        requires few { entry.strand < 2 ^ 16 }
        ensures items { self.new.items ≡ self.old.items ++ entry ∷ [] }
        ensures room { self.new.room ≡ self.old.room }
    {
        let (kind, numbers) = parted(entry.act);
        let at = self.apart.len() as u32;
        self.apart.push_reserved(numbers);
        self.briefs.push_reserved(Brief::Wide {
            kind,
            strand: entry.strand as u16,
            at,
        });
    }
}

/// The entries of a run that has ended, in the order in which they were done.
#[derive(Drop)]
pub struct Entries {
    log: Log,
}

impl Model for Entries {
    ghost use Rattle.std.specs.Prelude.{List};
    ghost use Rattle.a68_values.specs.declared.act.Entry.{Entry};

    ghost Value = { List Entry };

    ghost view = { λ entries. entries.log.items };
}

impl Entries {
    /// The entries of this log.
    pub fn of(log: Log) -> Entries
        ensures { result ≡ log.items }
    {
        Entries { log }
    }

    /// How many there are.
    pub fn len(&self) -> usize
        ensures { result ≡ length self.now }
    {
        self.log.len()
    }

    /// The entry at this place.
    pub fn get(&self, at: usize) -> Option<Entry>
        ensures { result ≡ slice_get self.now at }
    {
        self.log.get(at)
    }
}
