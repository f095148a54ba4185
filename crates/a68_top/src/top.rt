//! The top call.
ghost use Rattle.std.specs.Prelude.{◌≡◌, ◌≢◌, ◌<◌, ◌⊎◌, map, string_bytes, []};
ghost use Rattle.a68_command.specs.Words.{MayAskFor, task_in, files_of};
ghost use Rattle.a68_top.specs.Outcome.{FinishIs, IsRefused, sunk};

use crate::deliver::deliver;
use crate::fetching::Early;
use crate::finish::{Finish, bare, delivered};
use crate::prepare::prepare;
use a68_base::Status;
use a68_outside::{Gate, Shelf, Sink, write_whole};
use a68_report::READ_FAULT;
use std::alloc::Global;
use std::marker::Sync;
use std::sync::Wait;
use std::thread::Threads;

/// Does what the words ask for: reads the files from the shelf, compiles and runs its text, and writes what is printed
/// to `out` and the lines on it to `notes`. The words do not have the program's name among them.
///
/// All memory is taken before the first byte is written, and nothing more is written after a write that failed.
pub fn a68<R: Threads + Wait + Sync, F: Shelf, K: Sink, N: Sink, G: Gate>(
    rt: &R,
    alloc: Global,
    words: &[String],
    shelf: &mut F,
    out: &mut K,
    notes: &mut N,
    gate: &G,
) -> Finish
    // The shelf may be asked for the files that the words name.
    requires { MayAskFor F.may_ask (task_in (map string_bytes words.now)) }

    // The headline: what the status says is what was done.
    ensures outcome { FinishIs result.status (task_in (map string_bytes words.now))
        (F.under shelf.old) (F.faults shelf.old) (F.faults shelf.new)
        (sunk K.faults K.received out.old out.new) (sunk N.faults N.received notes.old notes.new) result }

    // A refusal has run nothing and printed nothing.
    ensures refused { result.status ≡ Status.Refused → IsRefused (sunk K.faults K.received out.old out.new) result }

    // A fault of the outside is answered.
    ensures shelf_fault { F.faults shelf.old < F.faults shelf.new → (result.status ≡ Status.ReadFault) ⊎ (result.status ≡ Status.NoMemory) }
    ensures out_fault { K.faults out.old < K.faults out.new → result.status ≡ Status.WriteFault }
    ensures notes_fault { N.faults notes.old < N.faults notes.new → (result.status ≡ Status.WriteFault) ⊎ (result.status ≡ Status.ReadFault) }

    // Where the words name no file the shelf is not asked.
    ensures unasked { files_of (task_in (map string_bytes words.now)) ≡ [] → F.faults shelf.new ≡ F.faults shelf.old }
    ensures no_read_fault { files_of (task_in (map string_bytes words.now)) ≡ [] → result.status ≢ Status.ReadFault }
{
    match prepare(rt, alloc, words, shelf, gate) {
        Err(Early::NoMemory) => bare(Status::NoMemory),
        Err(Early::ReadFault) => {
            let _ = write_whole(notes, READ_FAULT.as_bytes());
            bare(Status::ReadFault)
        }
        Ok(due) => {
            let done = deliver(&due.out, &due.notes, out, notes);
            delivered(done, due.finish)
        }
    }
}
