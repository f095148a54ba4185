//! Real files and streams as a shelf and sinks. They tell no bytes: what a file holds and what a stream shows is
//! trusted.
ghost use Rattle.std.specs.Prelude.{None, IfSome, ◌≤◌, length};

use a68_outside::{Failed, Shelf, Sink};
use std::io::{ErrorKind, Read, Write};
use std::{fs, rt};

/// Files by their paths.
#[derive(Drop)]
pub struct FileShelf<'a, R: rt::Files> {
    rt: &'a R,
    begun: Option<R::File>,
    faults: u64,
}

impl<'a, R: rt::Files> FileShelf<'a, R> {
    /// A shelf of the files that the runtime opens.
    pub fn new(rt: &'a R) -> FileShelf<'a, R> {
        FileShelf {
            rt,
            begun: None,
            faults: 0,
        }
    }
}

// A read that a signal interrupts is done again.
fn read_again(file: &mut impl Read, buf: &mut [u8]) -> Option<usize>
    ensures { IfSome result (λ n. n ≤ length buf.new) }
{
    for _ in 0..u64::MAX {
        match file.read(buf) {
            Ok(count) => return Some(count),
            Err(error) if error.kind() == ErrorKind::Interrupted => {}
            Err(_) => return None,
        }
    }
    None
}

impl<R: rt::Files> Shelf for FileShelf<'_, R> {
    ghost may_ask = { λ name. Unit {0} };

    ghost under = { λ shelf name. None };

    ghost left = { λ shelf. None };

    ghost faults = { λ shelf. shelf.faults };

    fn begin(&mut self, name: &str) -> Result<(), Failed> {
        self.begun = fs::open(self.rt, name).ok();
        if self.begun.is_none() {
            self.faults = self.faults.saturating_add(1);
            return Err(Failed);
        }
        Ok(())
    }

    fn read(&mut self, buf: &mut [u8]) -> Result<usize, Failed> {
        let Some(file) = &mut self.begun else {
            return Ok(0);
        };
        let Some(count) = read_again(file, buf) else {
            self.faults = self.faults.saturating_add(1);
            return Err(Failed);
        };
        Ok(count)
    }
}

/// A stream of the process.
#[derive(Drop)]
pub struct Stream<W> {
    inner: W,
    faults: u64,
}

impl<W> Stream<W> {
    /// A sink whose bytes go to this writer.
    pub fn new(inner: W) -> Stream<W> {
        Stream { inner, faults: 0 }
    }
}

impl<W: Write> Sink for Stream<W> {
    ghost received = { λ stream. None };

    ghost faults = { λ stream. stream.faults };

    // A write that a signal interrupts is done again.
    fn write(&mut self, piece: &[u8]) -> Result<usize, Failed> {
        for _ in 0..u64::MAX {
            match self.inner.write(piece) {
                Ok(count) if count > 0 || piece.is_empty() => return Ok(count),
                Err(error) if error.kind() == ErrorKind::Interrupted => {}
                _ => break,
            }
        }
        self.faults = self.faults.saturating_add(1);
        Err(Failed)
    }
}
