//! A shelf and a sink in memory, which fail at the calls that they are told to fail at.
ghost use Rattle.std.specs.Prelude.{◌≡◌, ◌≤◌, ◌<◌, ◌-◌, ◌&&◌, ◌||◌, [], ◌∷◌, ◌++◌, None, Some, take, length, min, nat_lt, nat_le, is_err, is_none, IfOk, OnOk, OnErr, IfSome};
ghost use Rattle.std.specs.Io.KnownBytes.{IsAtEnd};
ghost use Rattle.a68_outside.specs.Cause.{HasCause, risen};
ghost use Rattle.a68_outside.specs.Known.{TakesFront, GivesFront};
ghost use Rattle.a68_outside.specs.Memory.{text_under, is_failing, faults_after};
ghost use Rattle.a68_outside.specs.Files.{texts_of, bytes_at};

use crate::{Failed, Shelf, Sink};
use a68_base::NoMemory;
use std::alloc::Global;
use std::marker::Model;

/// A text and its name.
#[derive(Drop)]
struct NamedText {
    name: String,
    bytes: Vec<u8>,
}

/// Texts in memory, each under its name. It tells all that it holds.
#[derive(Drop)]
pub struct MemoryShelf {
    alloc: Global,
    // A text that is laid in the place of another one stands behind it, so that what was begun goes on.
    files: Vec<NamedText>,
    begun: Option<usize>,
    at: usize,
    step: u32,
    fails: Vec<u64>,
    calls: u64,
    faults: u64,
}

impl Model for MemoryShelf {
    ghost use Rattle.std.specs.Prelude.{◌≡◌, ◌<◌, ◌≤◌, true, drop, length};
    ghost use Rattle.a68_outside.specs.Memory.{Shelved};
    ghost use Rattle.a68_outside.specs.Files.{texts_of, begun_bytes, is_there};

    ghost Value = { Shelved };

    ghost view = { λ shelf. record {
      texts = texts_of shelf.files.items;
      left = drop shelf.at (begun_bytes shelf.files.items shelf.begun);
      step = shelf.step;
      fails = shelf.fails.items;
      calls = shelf.calls;
      faults = shelf.faults;
    } };

    ghost invariant = { λ shelf. (0 < shelf.step)
        × (shelf.at ≤ length (begun_bytes shelf.files.items shelf.begun))
        × (is_there shelf.files.items shelf.begun ≡ true) };
}

// The place of the last text of this name.
#[tactic(auto, using(crate::proofs::FilesLemmas::file_steps))]
fn place_of(files: &[NamedText], name: &str) -> Option<usize>
    ensures none { result ≡ None → text_under (texts_of files.now) name.now ≡ None }
    ensures some { IfSome result (λ i. (i < length files.now) × (text_under (texts_of files.now) name.now ≡ Some (bytes_at files.now i))) }
{
    let mut found = None;
    for i in 0..files.len() {
        if files[i].name.as_str() == name {
            found = Some(i);
        }
    }
    found
}

// The bytes of the text at a place.
#[tactic(auto, using(crate::proofs::FilesLemmas::file_steps))]
fn text_at(files: &[NamedText], place: usize) -> &[u8]
    requires { place < length files.now }
    ensures { result.now ≡ bytes_at files.now place }
{
    &files[place].bytes
}

// Copies as much as there is and fits, at most `step` bytes, and says how much.
fn copy_front(from: &[u8], buf: &mut [u8], step: u32) -> usize
    ensures count { result ≡ min (min (length from.now) (length buf.new)) step }
    ensures copied { take result buf.new ≡ take result from.now }
{
    let count = from.len().min(buf.len()).min(step as usize);
    buf[..count].copy_from_slice(&from[..count]);
    count
}

// Does the next call fail, where there were so many?
fn fails_next(fails: &[u64], calls: u64) -> bool
    ensures { result ≡ is_failing fails.now calls }
{
    fails.contains(&calls.saturating_add(1))
}

impl MemoryShelf {
    /// A shelf with one text. `step` is the most bytes that one call gives, and `fails` has the numbers of the
    /// calls that fail, counted from 1.
    pub fn new(
        alloc: Global,
        name: &str,
        bytes: &[u8],
        step: u32,
        fails: &[u64],
    ) -> Result<MemoryShelf, NoMemory>
        requires { 0 < step }
        ensures { IfOk result (λ shelf. shelf ≡ record {
          texts = (name.now, bytes.now) ∷ [];
          left = [];
          step = step;
          fails = fails.now;
          calls = 0;
          faults = 0;
        }) }
    {
        let mut shelf = MemoryShelf {
            alloc,
            files: Vec::new(alloc),
            begun: None,
            at: 0,
            step,
            fails: Vec::from_slice(alloc, fails)?,
            calls: 0,
            faults: 0,
        };
        shelf.put(name, bytes)?;
        Ok(shelf)
    }

    /// Lays bytes under a further name, or in the place of those under one that is there. It is not counted as a
    /// call.
    pub fn put(&mut self, name: &str, bytes: &[u8]) -> Result<(), NoMemory>
        ensures ok { OnOk result (self.new ≡ record self.old { texts = self.old.texts ++ (name.now, bytes.now) ∷ [] }) }
        ensures err { OnErr result (self.new ≡ self.old) }
    {
        let name = String::from_str(self.alloc, name)?;
        let bytes = Vec::from_slice(self.alloc, bytes)?;
        self.files.push(NamedText { name, bytes })?;
        Ok(())
    }
}

impl Shelf for MemoryShelf {
    ghost may_ask = { λ name. Unit {0} };

    ghost under = { λ shelf name. text_under shelf.texts name };

    ghost left = { λ shelf. Some shelf.left };

    ghost faults = { λ shelf. shelf.faults };

    fn begin(&mut self, name: &str) -> Result<(), Failed>
        ensures ok { OnOk result (Some self.new.left ≡ text_under self.old.texts name.now) }
        ensures err { OnErr result (self.new.left ≡ []) }
        ensures names { text_under self.new.texts ≡ text_under self.old.texts }
        ensures cause { HasCause self.old.faults self.new.faults result }

        // It fails exactly where it is told to, or where no text has the name.
        ensures fails { is_err result ≡ (is_failing self.old.fails self.old.calls || is_none (text_under self.old.texts name.now)) }
        ensures rest { self.new ≡ record self.old {
          left = self.new.left;
          calls = risen self.old.calls;
          faults = faults_after result self.old.faults;
        } }
    {
        let fails = fails_next(&self.fails, self.calls);
        self.calls = self.calls.saturating_add(1);
        self.at = 0;
        self.begun = if fails {
            None
        } else {
            place_of(&self.files, name)
        };
        if self.begun.is_none() {
            self.faults = self.faults.saturating_add(1);
            return Err(Failed);
        }
        Ok(())
    }

    fn read(&mut self, buf: &mut [u8]) -> Result<usize, Failed>
        ensures fits { IfOk result (λ n. n ≤ length buf.new) }
        ensures bytes { GivesFront (Some self.old.left) (Some self.new.left) result buf.new }
        ensures names { text_under self.new.texts ≡ text_under self.old.texts }
        ensures cause { HasCause self.old.faults self.new.faults result }

        // It fails exactly where it is told to, and gives as much as there is and fits.
        ensures fails { is_err result ≡ is_failing self.old.fails self.old.calls }
        ensures count { IfOk result (λ n. n ≡ min (min (length self.old.left) (length buf.old)) self.old.step) }
        ensures rest { self.new ≡ record self.old {
          left = self.new.left;
          calls = risen self.old.calls;
          faults = faults_after result self.old.faults;
        } }
    {
        let fails = fails_next(&self.fails, self.calls);
        self.calls = self.calls.saturating_add(1);
        if fails {
            self.faults = self.faults.saturating_add(1);
            return Err(Failed);
        }
        let Some(place) = self.begun else {
            return Ok(0);
        };
        let bytes = text_at(&self.files, place);
        let count = copy_front(&bytes[self.at..], buf, self.step);
        self.at += count;
        Ok(count)
    }
}

/// A sink in memory with room for so many bytes. It tells all that it took.
#[derive(Drop)]
pub struct MemorySink {
    bytes: Vec<u8>,
    room: u32,
    step: u32,
    fails: Vec<u64>,
    calls: u64,
    faults: u64,
}

impl Model for MemorySink {
    ghost use Rattle.std.specs.Prelude.{◌≤◌, ◌<◌, vec_len, vec_capacity};
    ghost use Rattle.a68_outside.specs.Memory.{Sunken};

    ghost Value = { Sunken };

    ghost view = { λ sink. record {
      bytes = sink.bytes.items;
      room = sink.room;
      step = sink.step;
      fails = sink.fails.items;
      calls = sink.calls;
      faults = sink.faults;
    } };

    ghost invariant = { λ sink. (sink.room ≤ vec_capacity sink.bytes)
        × (vec_len sink.bytes ≤ sink.room)
        × (0 < sink.step) };
}

impl MemorySink {
    /// An empty sink. `room` is how many bytes it takes in all, `step` the most that one call takes, and `fails` has
    /// the numbers of the calls that fail, counted from 1.
    pub fn new(alloc: Global, room: u32, step: u32, fails: &[u64]) -> Result<MemorySink, NoMemory>
        requires { 0 < step }
        ensures { IfOk result (λ sink. sink ≡ record {
          bytes = [];
          room = room;
          step = step;
          fails = fails.now;
          calls = 0;
          faults = 0;
        }) }
    {
        Ok(MemorySink {
            bytes: Vec::with_capacity(alloc, room as usize)?,
            room,
            step,
            fails: Vec::from_slice(alloc, fails)?,
            calls: 0,
            faults: 0,
        })
    }

    /// What was received so far.
    pub fn taken(&self) -> &[u8]
        ensures { result.now ≡ self.now.bytes }
    {
        &self.bytes
    }
}

impl Sink for MemorySink {
    ghost received = { λ sink. Some sink.bytes };

    ghost faults = { λ sink. sink.faults };

    fn write(&mut self, piece: &[u8]) -> Result<usize, Failed>
        ensures fits { IfOk result (λ n. n ≤ length piece.now) }
        ensures moves { IfOk result (λ n. 0 < length piece.now → 0 < n) }
        ensures bytes { TakesFront (Some self.old.bytes) (Some self.new.bytes) result piece.now }
        ensures cause { HasCause self.old.faults self.new.faults result }

        // It fails exactly where it is told to, or where no room is left, and takes as much as fits.
        ensures fails { is_err result ≡ (is_failing self.old.fails self.old.calls
            || (nat_lt 0 (length piece.now) && nat_le self.old.room (length self.old.bytes))) }
        ensures count { IfOk result (λ n. n ≡ min (min (length piece.now) (self.old.room - length self.old.bytes)) self.old.step) }
        ensures rest { self.new ≡ record self.old {
          bytes = self.new.bytes;
          calls = risen self.old.calls;
          faults = faults_after result self.old.faults;
        } }
    {
        let fails = fails_next(&self.fails, self.calls);
        self.calls = self.calls.saturating_add(1);
        let free = self.room as usize - self.bytes.len();
        let is_full = !piece.is_empty() && free == 0;
        if fails || is_full {
            self.faults = self.faults.saturating_add(1);
            return Err(Failed);
        }
        let count = piece.len().min(free).min(self.step as usize);
        if self.bytes.extend_from_slice(&piece[..count]).is_err() {
            unreachable!();
        }
        Ok(count)
    }
}
