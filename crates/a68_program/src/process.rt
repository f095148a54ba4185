//! The top call over real files and streams.
use crate::adapters::{FileShelf, Stream};
use a68_base::{NoMemory, Status};
use a68_outside::FreeGate;
use a68_top::a68;
use std::env;
use std::io::{ErrorKind, Write};
use std::marker::Sync;
use std::process::ExitCode;
use std::rt::{Env, Files};
use std::sync::Wait;
use std::thread::Threads;

// The arguments behind the program's name. Arguments that are no text are no command, and so are none.
fn words<R: Env + AllocGlobal>(rt: &R) -> Result<Vec<String>, NoMemory> {
    match env::args(rt) {
        Ok(arguments) => Ok(arguments.skip(1).collect(rt.alloc())?),
        Err(error) if error.kind() == ErrorKind::OutOfMemory => Err(NoMemory),
        Err(_) => Ok(Vec::new(rt.alloc())),
    }
}

/// Does what the arguments of the process ask for, over its files and these two streams, and returns its status.
pub fn start<R: AllocGlobal + Env + Files + Sync + Threads + Wait>(
    rt: &R,
    out: impl Write + Drop,
    notes: impl Write + Drop,
) -> ExitCode {
    let Ok(words) = words(rt) else {
        return ExitCode::from(Status::NoMemory.number());
    };
    let mut shelf = FileShelf::new(rt);
    let mut out = Stream::new(out);
    let mut notes = Stream::new(notes);
    let finish = a68(
        rt,
        rt.alloc(),
        &words,
        &mut shelf,
        &mut out,
        &mut notes,
        &FreeGate,
    );
    let status = finish.status;
    drop(finish);
    ExitCode::from(status.number())
}
