//! All that a call does before its first byte is written.
ghost use Rattle.std.specs.Prelude.{◌≡◌, ◌≤◌, ◌<◌, ◌^◌, [], length, map, string_bytes, IfOk, OnOk, IsErrOf, Some};
ghost use Rattle.a68_outside.specs.Cause.{Rose};
ghost use Rattle.a68_command.specs.Commands.{task_of, HasRange};
ghost use Rattle.a68_command.specs.Words.{MayAskFor, task_in, files_of, replay, run_on};
ghost use Rattle.a68_code.specs.Valid.{IsValid};
ghost use Rattle.a68_top.specs.Answer.{IsListOf};
ghost use Rattle.a68_top.specs.Commands.{AnswersMade, AnswersText, HasOneText, HasReplayed, HasRunOn, IsMade, IsRun};
ghost use Rattle.a68_top.specs.Ended.{HoldsOf};
ghost use Rattle.a68_top.specs.Outcome.{IsAnswer, Owes};
ghost use Rattle.a68_workers.specs.Workers.{most_workers};
ghost use Rattle.a68_world.specs.Run.{most_fuel};

use crate::compile::compile;
use crate::fetching::{Early, fetch, text_for};
use crate::finish::{Asked, Made, Means, Owed, Telling, Writing};
use crate::inputs::ran_on;
use crate::noting::telling_of;
use crate::owing::{keep, listed, refused, shown, usage};
use crate::reading::{laid_out, read_tree};
use crate::replaying::replayed;
use crate::running::{raced, ran};
use a68_base::{MOST_READ, NoMemory, Stop, Text, USUAL_FUEL};
use a68_command::{Command, command_of};
use a68_input::MOST_INPUT;
use a68_outside::{Gate, Shelf};
use a68_replay::MOST_SCHEDULE;
use a68_sim::permitted_law;
use std::alloc::Global;
use std::marker::Sync;
use std::sync::Wait;
use std::thread::Threads;

// So many workers, and so much fuel.
fn means(workers: u32, fuel: u32) -> Means
    ensures { result ≡ record { workers = workers; fuel = fuel } }
{
    Means { workers, fuel }
}

// What is asked of a run that writes what it has printed.
fn printing(telling: Telling) -> Asked
    ensures { result ≡ record { writing = Writing.Printed; telling = telling } }
{
    Asked {
        writing: Writing::Printed,
        telling,
    }
}

// What a command owes that runs the program of its text.
fn due_run<R: Threads + Wait + Sync, G: Gate>(
    rt: &R,
    alloc: Global,
    command: &Command,
    made: Made,
    gate: &G,
) -> Result<Owed, NoMemory>
    requires valid { IsValid made.code }
    requires short { length made.code.list < 2 ^ 32 }
    requires range { HasRange command.now }
    requires run { IsRun (task_of command.now) }
    ensures status { IfOk result (λ due. IsAnswer due.finish.status) }
    ensures answer { IfOk result (λ due. AnswersMade (task_of command.now) made due.finish due.out due.notes) }
{
    match command {
        Command::Run {
            workers,
            fuel,
            names,
            ..
        } => {
            let asked = printing(telling_of(*names));
            ran(rt, alloc, made, means(*workers, *fuel), asked, gate)
        }
        Command::Make { units, workers } => {
            let asked = printing(Telling::Units(*units));
            ran(rt, alloc, made, means(*workers, USUAL_FUEL), asked, gate)
        }
        Command::Trace { workers, fuel, .. } => {
            let asked = Asked {
                writing: Writing::Schedule,
                telling: Telling::EndAlone,
            };
            ran(rt, alloc, made, means(*workers, *fuel), asked, gate)
        }
        // The others run no program so.
        _ => unreachable!(),
    }
}

// What a command owes for the program of its one text.
fn due_made<R: Threads + Wait + Sync, G: Gate>(
    rt: &R,
    alloc: Global,
    command: &Command,
    made: Made,
    gate: &G,
) -> Result<Owed, NoMemory>
    requires valid { IsValid made.code }
    requires short { length made.code.list < 2 ^ 32 }
    requires range { HasRange command.now }
    requires made { IsMade (task_of command.now) }
    ensures status { IfOk result (λ due. IsAnswer due.finish.status) }
    ensures answer { IfOk result (λ due. AnswersMade (task_of command.now) made due.finish due.out due.notes) }
{
    match command {
        Command::Check { .. } => {
            let out = Text {
                items: Vec::new(alloc),
            };
            Ok(keep(alloc, made, out))
        }
        Command::Code { .. } => listed(alloc, made),
        Command::Races { workers, fuel, .. } => {
            raced(rt, alloc, made, means(*workers, *fuel), gate)
        }
        _ => due_run(rt, alloc, command, made, gate),
    }
}

// What a command owes for its text, of which a program is made.
fn due_program<R: Threads + Wait + Sync, G: Gate>(
    rt: &R,
    alloc: Global,
    command: &Command,
    text: &[u8],
    gate: &G,
) -> Result<Owed, NoMemory>
    requires length { length text.now < 2 ^ 32 }
    requires range { HasRange command.now }
    requires made { IsMade (task_of command.now) }
    ensures status { IfOk result (λ due. IsAnswer due.finish.status) }
    ensures answer { IfOk result (λ due. AnswersText (task_of command.now) text.now due.finish due.out due.notes) }
{
    permitted_law();
    match compile(alloc, text) {
        Err(Stop::NoMemory) => Err(NoMemory),
        Err(Stop::Refused(refusal)) => refused(alloc, refusal),
        Ok(made) => due_made(rt, alloc, command, made, gate),
    }
}

// What is owed for a text that is laid out anew.
fn due_listing(alloc: Global, text: &[u8]) -> Result<Owed, NoMemory>
    requires { length text.now < 2 ^ 32 }
    ensures status { IfOk result (λ due. IsAnswer due.finish.status) }
    ensures answer { IfOk result (λ due. IsListOf text.now due.finish due.out due.notes) }
{
    match laid_out(alloc, text) {
        Err(Stop::NoMemory) => Err(NoMemory),
        Err(Stop::Refused(refusal)) => refused(alloc, refusal),
        Ok(out) => Ok(shown(alloc, out)),
    }
}

// What a command owes for its text, as much of it as was read.
fn due_for<R: Threads + Wait + Sync, G: Gate>(
    rt: &R,
    alloc: Global,
    command: &Command,
    text: &[u8],
    gate: &G,
) -> Result<Owed, NoMemory>
    requires length { length text.now < 2 ^ 32 }
    requires range { HasRange command.now }
    requires one { HasOneText (task_of command.now) }
    ensures status { IfOk result (λ due. IsAnswer due.finish.status) }
    ensures answer { IfOk result (λ due. AnswersText (task_of command.now) text.now due.finish due.out due.notes) }
{
    match command {
        Command::LayOut { .. } => due_listing(alloc, text),
        _ => due_program(rt, alloc, command, text, gate),
    }
}

// What a command of one text owes.
fn due_one<R: Threads + Wait + Sync, F: Shelf, G: Gate>(
    rt: &R,
    alloc: Global,
    command: &Command,
    shelf: &mut F,
    gate: &G,
) -> Result<Owed, Early>
    requires may_ask { MayAskFor F.may_ask (Some (task_of command.now)) }
    requires range { HasRange command.now }
    requires one { HasOneText (task_of command.now) }
    ensures status { IfOk result (λ due. IsAnswer due.finish.status) }
    ensures answer { IfOk result (λ due. Owes (Some (task_of command.now))
        (F.under shelf.old)
        due.finish due.out due.notes) }
    ensures calm { OnOk result (F.faults shelf.new ≡ F.faults shelf.old) }
    ensures memory { IsErrOf result Early.NoMemory → F.faults shelf.new ≡ F.faults shelf.old }
    ensures failed { IsErrOf result Early.ReadFault → Rose (F.faults shelf.old) (F.faults shelf.new) }
    ensures unasked { files_of (Some (task_of command.now)) ≡ [] → F.faults shelf.new ≡ F.faults shelf.old }
    ensures no_fault { files_of (Some (task_of command.now)) ≡ [] → IsErrOf result Early.ReadFault → ⊥ }
{
    let text = text_for(alloc, command, shelf)?;
    Ok(due_for(rt, alloc, command, text.as_slice(), gate)?)
}

// What a program owes for a schedule, which is read now.
fn due_scheduled<F: Shelf>(
    alloc: Global,
    made: Made,
    schedule: &str,
    shelf: &mut F,
) -> Result<Owed, Early>
    requires valid { IsValid made.code }
    requires short { length made.code.list < 2 ^ 32 }
    requires may_ask { F.may_ask schedule.now }
    ensures status { IfOk result (λ due. IsAnswer due.finish.status) }
    ensures answer { IfOk result (λ due. HoldsOf (F.under shelf.old schedule.now) (λ bytes. HasReplayed made bytes due.finish due.out due.notes)) }
    ensures calm { OnOk result (F.faults shelf.new ≡ F.faults shelf.old) }
    ensures memory { IsErrOf result Early.NoMemory → F.faults shelf.new ≡ F.faults shelf.old }
    ensures failed { IsErrOf result Early.ReadFault → Rose (F.faults shelf.old) (F.faults shelf.new) }
{
    match fetch(alloc, schedule, MOST_SCHEDULE + 1, shelf) {
        Ok(bytes) => Ok(replayed(alloc, made, bytes.as_slice())?),
        Err(error) => {
            drop(made);
            Err(error)
        }
    }
}

// What the replay of a file's text owes. The schedule is read only where the text is not refused.
fn due_replay<F: Shelf>(
    alloc: Global,
    file: &str,
    schedule: &str,
    shelf: &mut F,
) -> Result<Owed, Early>
    requires file { F.may_ask file.now }
    requires schedule { F.may_ask schedule.now }
    ensures status { IfOk result (λ due. IsAnswer due.finish.status) }
    ensures answer { IfOk result (λ due. Owes (Some (replay file.now schedule.now)) (F.under shelf.old) due.finish due.out due.notes) }
    ensures calm { OnOk result (F.faults shelf.new ≡ F.faults shelf.old) }
    ensures memory { IsErrOf result Early.NoMemory → F.faults shelf.new ≡ F.faults shelf.old }
    ensures failed { IsErrOf result Early.ReadFault → Rose (F.faults shelf.old) (F.faults shelf.new) }
{
    permitted_law();
    let text = fetch(alloc, file, MOST_READ, shelf)?;
    match compile(alloc, text.as_slice()) {
        Err(Stop::NoMemory) => Err(Early::NoMemory),
        Err(Stop::Refused(refusal)) => Ok(refused(alloc, refusal)?),
        Ok(made) => due_scheduled(alloc, made, schedule, shelf),
    }
}

// What a text that has a tree owes for an input, which is read now.
fn due_on<R: Threads + Wait + Sync, F: Shelf, G: Gate>(
    rt: &R,
    alloc: Global,
    text: &[u8],
    input: &str,
    means: Means,
    shelf: &mut F,
    gate: &G,
) -> Result<Owed, Early>
    requires text { length text.now ≤ MOST_READ }
    requires may_ask { F.may_ask input.now }
    requires fuel { (1 ≤ means.fuel) × (means.fuel ≤ most_fuel) }
    requires workers { (1 ≤ means.workers) × (means.workers ≤ most_workers) }
    ensures status { IfOk result (λ due. IsAnswer due.finish.status) }
    ensures answer { IfOk result (λ due. HoldsOf (F.under shelf.old input.now) (λ bytes. HasRunOn text.now bytes means.workers means.fuel due.finish due.out due.notes)) }
    ensures calm { OnOk result (F.faults shelf.new ≡ F.faults shelf.old) }
    ensures memory { IsErrOf result Early.NoMemory → F.faults shelf.new ≡ F.faults shelf.old }
    ensures failed { IsErrOf result Early.ReadFault → Rose (F.faults shelf.old) (F.faults shelf.new) }
{
    let bytes = fetch(alloc, input, MOST_INPUT + 1, shelf)?;
    Ok(ran_on(rt, alloc, text, bytes.as_slice(), means, gate)?)
}

// What the run of a file's text owes that reads an input. The input is read only where the text alone has a tree.
fn due_run_on<R: Threads + Wait + Sync, F: Shelf, G: Gate>(
    rt: &R,
    alloc: Global,
    file: &str,
    input: &str,
    means: Means,
    shelf: &mut F,
    gate: &G,
) -> Result<Owed, Early>
    requires file { F.may_ask file.now }
    requires input { F.may_ask input.now }
    requires fuel { (1 ≤ means.fuel) × (means.fuel ≤ most_fuel) }
    requires workers { (1 ≤ means.workers) × (means.workers ≤ most_workers) }
    ensures status { IfOk result (λ due. IsAnswer due.finish.status) }
    ensures answer { IfOk result (λ due. Owes (Some (run_on file.now input.now means.workers means.fuel)) (F.under shelf.old) due.finish due.out due.notes) }
    ensures calm { OnOk result (F.faults shelf.new ≡ F.faults shelf.old) }
    ensures memory { IsErrOf result Early.NoMemory → F.faults shelf.new ≡ F.faults shelf.old }
    ensures failed { IsErrOf result Early.ReadFault → Rose (F.faults shelf.old) (F.faults shelf.new) }
{
    let text = fetch(alloc, file, MOST_READ, shelf)?;
    match read_tree(alloc, text.as_slice()) {
        Err(Stop::NoMemory) => Err(Early::NoMemory),
        Err(Stop::Refused(refusal)) => Ok(refused(alloc, refusal)?),
        Ok((found, tree)) => {
            drop(found);
            drop(tree);
            due_on(rt, alloc, text.as_slice(), input, means, shelf, gate)
        }
    }
}

// What a command owes.
fn due_of<R: Threads + Wait + Sync, F: Shelf, G: Gate>(
    rt: &R,
    alloc: Global,
    command: &Command,
    shelf: &mut F,
    gate: &G,
) -> Result<Owed, Early>
    requires may_ask { MayAskFor F.may_ask (Some (task_of command.now)) }
    requires range { HasRange command.now }
    ensures status { IfOk result (λ due. IsAnswer due.finish.status) }
    ensures answer { IfOk result (λ due. Owes (Some (task_of command.now))
        (F.under shelf.old)
        due.finish due.out due.notes) }
    ensures calm { OnOk result (F.faults shelf.new ≡ F.faults shelf.old) }
    ensures memory { IsErrOf result Early.NoMemory → F.faults shelf.new ≡ F.faults shelf.old }
    ensures failed { IsErrOf result Early.ReadFault → Rose (F.faults shelf.old) (F.faults shelf.new) }
    ensures unasked { files_of (Some (task_of command.now)) ≡ [] → F.faults shelf.new ≡ F.faults shelf.old }
    ensures no_fault { files_of (Some (task_of command.now)) ≡ [] → IsErrOf result Early.ReadFault → ⊥ }
{
    match command {
        Command::Replay { file, schedule } => {
            due_replay(alloc, file.as_str(), schedule.as_str(), shelf)
        }
        Command::RunOn {
            file,
            input,
            workers,
            fuel,
        } => {
            let means = means(*workers, *fuel);
            due_run_on(rt, alloc, file.as_str(), input.as_str(), means, shelf, gate)
        }
        _ => due_one(rt, alloc, command, shelf, gate),
    }
}

/// Reads the words and the files, and finds what is owed. It takes all the memory that the call needs.
pub fn prepare<R: Threads + Wait + Sync, F: Shelf, G: Gate>(
    rt: &R,
    alloc: Global,
    words: &[String],
    shelf: &mut F,
    gate: &G,
) -> Result<Owed, Early>
    requires { MayAskFor F.may_ask (task_in (map string_bytes words.now)) }
    ensures status { IfOk result (λ due. IsAnswer due.finish.status) }
    ensures answer { IfOk result (λ due. Owes (task_in (map string_bytes words.now))
        (F.under shelf.old)
        due.finish due.out due.notes) }
    ensures calm { OnOk result (F.faults shelf.new ≡ F.faults shelf.old) }
    ensures memory { IsErrOf result Early.NoMemory → F.faults shelf.new ≡ F.faults shelf.old }
    ensures failed { IsErrOf result Early.ReadFault → Rose (F.faults shelf.old) (F.faults shelf.new) }
    ensures unasked { files_of (task_in (map string_bytes words.now)) ≡ [] → F.faults shelf.new ≡ F.faults shelf.old }
    ensures no_fault { files_of (task_in (map string_bytes words.now)) ≡ [] → IsErrOf result Early.ReadFault → ⊥ }
{
    match command_of(alloc, words)? {
        None => Ok(usage(alloc)?),
        Some(command) => due_of(rt, alloc, &command, shelf, gate),
    }
}
