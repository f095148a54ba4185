//! What a run writes to the two sinks.
ghost use Rattle.std.specs.Prelude.{◌≡◌, ◌++◌, length, IfOk, OnOk};
ghost use Rattle.a68_report.specs.Lines.{end_line, moved_end_line};
ghost use Rattle.a68_report.specs.Variables.{names_text};
ghost use Rattle.a68_top.specs.Answer.{run_lines, size_line, telling_of};
ghost use Rattle.a68_top.specs.Commands.{IsWritten};

use crate::finish::{Telling, Writing};
use a68_annot::Annotated;
use a68_base::{NoMemory, Text};
use a68_replay::schedule_of;
use a68_report::{end_line, moved_end_line, names_text, units_line};
use a68_values::{End, Kept};
use std::alloc::Global;

/// What a run tells where its variables are asked for, or are not.
pub fn telling_of(names: bool) -> Telling
    ensures { result ≡ telling_of names }
{
    if names {
        Telling::Variables
    } else {
        Telling::EndAlone
    }
}

// Puts the lines of the names behind the line of a run's end.
fn add_names(
    alloc: Global,
    notes: &mut Text,
    program: &Annotated,
    kept: &Kept,
) -> Result<(), NoMemory>
    ensures { OnOk result (notes.new ≡ notes.old ++ names_text program.now kept.now) }
{
    let lines = names_text(alloc, program, kept)?;
    notes.items.extend_from_slice(lines.as_slice())?;
    Ok(())
}

// Puts the line of a made text's run behind that of its end, where the run is done.
fn add_size(alloc: Global, notes: &mut Text, units: u32, kept: &Kept) -> Result<(), NoMemory>
    ensures { OnOk result (notes.new ≡ notes.old ++ size_line kept.now.end units (length kept.now.journal.entries)) }
{
    match kept.end {
        End::Done => {
            let line = units_line(alloc, units, kept.journal.entries.len())?;
            notes.items.extend_from_slice(line.as_slice())?;
            Ok(())
        }
        _ => Ok(()),
    }
}

// The line of a run's end, and behind it those of the names.
fn with_names(alloc: Global, program: &Annotated, kept: &Kept) -> Result<Text, NoMemory>
    ensures { IfOk result (λ text. text ≡ end_line kept.now.end ++ names_text program.now kept.now) }
{
    let mut notes = end_line(alloc, kept.end)?;
    add_names(alloc, &mut notes, program, kept)?;
    Ok(notes)
}

// The line of a run's end, and behind it that of a made text's run.
fn with_size(alloc: Global, units: u32, kept: &Kept) -> Result<Text, NoMemory>
    ensures { IfOk result (λ text. text ≡ end_line kept.now.end ++ size_line kept.now.end units (length kept.now.journal.entries)) }
{
    let mut notes = end_line(alloc, kept.end)?;
    add_size(alloc, &mut notes, units, kept)?;
    Ok(notes)
}

/// The lines of a run on notes.
pub fn noted(
    alloc: Global,
    telling: Telling,
    program: &Annotated,
    kept: &Kept,
) -> Result<Text, NoMemory>
    ensures { IfOk result (λ text. text ≡ run_lines telling program.now kept.now) }
{
    match telling {
        Telling::EndAlone => end_line(alloc, kept.end),
        Telling::MovedEnd(offset) => moved_end_line(alloc, offset, kept.end),
        Telling::Variables => with_names(alloc, program, kept),
        Telling::Units(units) => with_size(alloc, units, kept),
    }
}

/// What a run writes to out.
pub fn written(alloc: Global, writing: Writing, kept: &Kept) -> Result<Text, NoMemory>
    ensures { IfOk result (IsWritten writing kept.now) }
{
    match writing {
        Writing::Printed => {
            let printed = &kept.journal.text;
            Text::from_slice(alloc, printed.as_slice())
        }
        Writing::Schedule => schedule_of(alloc, kept),
    }
}
