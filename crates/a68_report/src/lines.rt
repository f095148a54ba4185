//! The lines on notes.
ghost use Rattle.std.specs.Prelude.{◌≡◌, string_bytes, IfOk};
ghost use Rattle.a68_report.specs.Lines.{place_name, refusal_line, units_line, fault_line, fault_name, end_line, shown_place, moved_refusal_line, moved_fault_line, moved_end_line};

use a68_base::{NoMemory, Refusal, Rule, Text};
use a68_values::{End, FaultKind};
use std::alloc::Global;

/// The line of words that are no command.
pub const USAGE: &str =
    "usage: a68 run FILE [--workers N] [--fuel N] [--names] [--input NAME] | check FILE | code FILE | make N [--workers N] | trace FILE [--workers N] [--fuel N] | replay FILE SCHEDULE | races FILE [--workers N] [--fuel N] | list FILE\n";

/// The line of a read that failed.
pub const READ_FAULT: &str = "a68: read fault\n";

/// The line of a run in which no strand could go on.
const ALL_HALTED: &str = "a68: all halted\n";

/// The line of a run that used up its fuel.
const FUEL_SPENT: &str = "a68: fuel spent\n";

// What the place of a refusal counts.
fn place_name(rule: Rule) -> &'static str
    ensures { result.now ≡ place_name rule }
{
    match rule {
        Rule::Q2 | Rule::Q3 | Rule::Q4 => "index",
        _ => "byte",
    }
}

/// The line of a refusal.
pub fn refusal_line(alloc: Global, refusal: Refusal) -> Result<Text, NoMemory>
    ensures { IfOk result (λ text. text ≡ refusal_line refusal.rule refusal.place) }
{
    let rule = refusal.rule.name();
    let counted = place_name(refusal.rule);
    let place = refusal.place;
    let line = format!(in alloc; "a68: refused {rule} at {counted} {place}\n")?;
    Ok(Text {
        items: line.into_bytes(),
    })
}

// A place of a text with so many bytes in front of a program.
fn shown_place(alloc: Global, offset: u32, place: u32) -> Result<String, NoMemory>
    ensures { IfOk result (λ shown. string_bytes shown ≡ shown_place offset place) }
{
    if place < offset {
        let shown = String::from_str(alloc, "in the prelude")?;
        return Ok(shown);
    }
    let byte = place - offset;
    let shown = format!(in alloc; "at byte {byte}")?;
    Ok(shown)
}

/// The line of a refusal of a text with so many bytes in front of its program.
pub fn moved_refusal_line(alloc: Global, offset: u32, refusal: Refusal) -> Result<Text, NoMemory>
    ensures { IfOk result (λ text. text ≡ moved_refusal_line offset refusal.rule refusal.place) }
{
    let rule = refusal.rule.name();
    let shown = shown_place(alloc, offset, refusal.place)?;
    let line = format!(in alloc; "a68: refused {rule} {shown}\n")?;
    Ok(Text {
        items: line.into_bytes(),
    })
}

/// The line of a made program that came to its end: its units, and the events of its run.
pub fn units_line(alloc: Global, units: u32, events: usize) -> Result<Text, NoMemory>
    ensures { IfOk result (λ text. text ≡ units_line units events) }
{
    let line = format!(in alloc; "units {units} events {events}\n")?;
    Ok(Text {
        items: line.into_bytes(),
    })
}

fn fault_name_of(kind: FaultKind) -> &'static str
    ensures { result.now ≡ fault_name kind }
{
    match kind {
        FaultKind::Unset => "Unset",
        FaultKind::Kind => "Kind",
        FaultKind::Nil => "Nil",
        FaultKind::Scope => "Scope",
        FaultKind::Bounds => "Bounds",
        FaultKind::Overflow => "Overflow",
        FaultKind::Divisor => "Divisor",
        FaultKind::Domain => "Domain",
        FaultKind::Cells => "Cells",
        FaultKind::Text => "Text",
        FaultKind::Strands => "Strands",
    }
}

fn fault_line_of(alloc: Global, kind: FaultKind, place: u32) -> Result<Text, NoMemory>
    ensures { IfOk result (λ text. text ≡ fault_line kind place) }
{
    let name = fault_name_of(kind);
    let line = format!(in alloc; "a68: fault {name} at byte {place}\n")?;
    Ok(Text {
        items: line.into_bytes(),
    })
}

/// The line of a run's end; none where the run came to its end.
pub fn end_line(alloc: Global, end: End) -> Result<Text, NoMemory>
    ensures { IfOk result (λ text. text ≡ end_line end) }
{
    match end {
        End::Done => Text::from_slice(alloc, b""),
        End::Fault { kind, place, .. } => fault_line_of(alloc, kind, place),
        End::AllHalted => Text::from_slice(alloc, ALL_HALTED.as_bytes()),
        End::Spent => Text::from_slice(alloc, FUEL_SPENT.as_bytes()),
    }
}

fn moved_fault_line_of(
    alloc: Global,
    offset: u32,
    kind: FaultKind,
    place: u32,
) -> Result<Text, NoMemory>
    ensures { IfOk result (λ text. text ≡ moved_fault_line offset kind place) }
{
    let name = fault_name_of(kind);
    let shown = shown_place(alloc, offset, place)?;
    let line = format!(in alloc; "a68: fault {name} {shown}\n")?;
    Ok(Text {
        items: line.into_bytes(),
    })
}

/// The line of a run's end, of a text with so many bytes in front of its program; none where the run came to its end.
pub fn moved_end_line(alloc: Global, offset: u32, end: End) -> Result<Text, NoMemory>
    ensures { IfOk result (λ text. text ≡ moved_end_line offset end) }
{
    match end {
        End::Fault { kind, place, .. } => moved_fault_line_of(alloc, offset, kind, place),
        _ => end_line(alloc, end),
    }
}
