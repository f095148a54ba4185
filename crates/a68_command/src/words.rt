//! The words of the command line.
ghost use Rattle.std.specs.Prelude.{◌≡◌, ◌≤◌, map, string_bytes, IfOk, IfSome, is_some};
ghost use Rattle.std.specs.Option.{option_map, option_and_then};
ghost use Rattle.clap.specs.Words.{found_of, rows_of, subcommand_rows_of};
ghost use Rattle.a68_command.specs.Words as spec;
ghost use Rattle.a68_command.specs.Words.{task_in};
ghost use Rattle.a68_command.specs.Matching.{matched_task};
ghost use Rattle.a68_command.specs.Texts.{given_of};
ghost use Rattle.a68_command.specs.Commands as commands;
ghost use Rattle.a68_command.specs.Commands.{task_of};
ghost use Rattle.a68_maker.specs.declared.maker.TheConstants.{FEWEST_UNITS, MOST_UNITS};

use crate::command::{Command, FileName};
use crate::laws::splits_are_tasks;
use crate::splitting::call;
use a68_base::{MOST_FUEL, NoMemory, USUAL_FUEL};
use a68_denote::int_of;
use a68_maker::{FEWEST_UNITS, MOST_UNITS};
use clap::ArgMatches;
use clap::error::ErrorKind;
use std::alloc::Global;

/// As many workers as a run may have.
pub const MOST_WORKERS: u32 = 64;

/// As much fuel as a run may have whose entries are looked at one by one.
pub const MOST_TRACED_FUEL: u32 = 1_000_000;

/// The texts of the operands and the options of a verb.
#[derive(Clone, Copy)]
pub struct Texts<'a> {
    operand: &'a str,
    second: Option<&'a str>,
    workers: Option<&'a str>,
    fuel: Option<&'a str>,
    input: Option<&'a str>,
    names: bool,
}

/// What a verb may have beside its first operand.
#[derive(Clone, Copy)]
pub struct Allowed {
    second: bool,
    workers: bool,
    fuel: bool,
    input: bool,
    names: bool,
}

// What a verb may have beside its first operand.
fn allowed_to(verb: &str) -> Allowed
    ensures { result ≡ spec.allowed_to verb.now }
{
    let nothing_more = Allowed {
        second: false,
        workers: false,
        fuel: false,
        input: false,
        names: false,
    };
    if verb == "run" {
        return Allowed {
            workers: true,
            fuel: true,
            input: true,
            names: true,
            ..nothing_more
        };
    }
    if verb == "make" {
        return Allowed {
            workers: true,
            ..nothing_more
        };
    }
    if verb == "trace" || verb == "races" {
        return Allowed {
            workers: true,
            fuel: true,
            ..nothing_more
        };
    }
    if verb == "replay" {
        return Allowed {
            second: true,
            ..nothing_more
        };
    }
    nothing_more
}

// Is it allowed where it is given?
fn is_right(allowed: bool, given: bool) -> bool
    ensures { result ≡ spec.is_right allowed given }
{
    if given { allowed } else { true }
}

// Is no more given than is allowed?
fn is_allowed(allowed: Allowed, texts: Texts<'_>) -> bool
    ensures { result ≡ spec.is_allowed allowed (given_of texts.entry) }
{
    let second = is_right(allowed.second, texts.second.is_some());
    let workers = is_right(allowed.workers, texts.workers.is_some());
    let fuel = is_right(allowed.fuel, texts.fuel.is_some());
    let input = is_right(allowed.input, texts.input.is_some());
    let names = is_right(allowed.names, texts.names);
    second && workers && fuel && input && names
}

// A number of one to eight digits, from 1 to a limit.
fn number_in(most: u32, word: &[u8]) -> Option<u32>
    ensures number { result ≡ spec.number_in most word.now }
    ensures range { IfSome result (λ number. (1 ≤ number) × (number ≤ most)) }
{
    if word.len() > 8 {
        return None;
    }
    match int_of(word) {
        Some(value) if value >= 1 && value <= i64::from(most) => Some(value as u32),
        _ => None,
    }
}

// The number of an option, or the usual one where the option is not given; none where it is given and no such number.
fn number_or(usual: u32, most: u32, text: Option<&str>) -> Option<u32>
    requires { (1 ≤ usual) × (usual ≤ most) }
    ensures number { result ≡ spec.number_or usual most (option_map (λ text. text.now) text.entry) }
    ensures range { IfSome result (λ number. (1 ≤ number) × (number ≤ most)) }
{
    match text {
        None => Some(usual),
        Some(text) => number_in(most, text.as_bytes()),
    }
}

// The number of units that a text may have.
fn unit_count_in(word: &str) -> Option<u32>
    ensures units { result ≡ spec.unit_count_in word.now }
    ensures range { IfSome result (λ units. (FEWEST_UNITS ≤ units) × (units ≤ MOST_UNITS)) }
{
    match number_in(MOST_UNITS, word.as_bytes()) {
        Some(units) if units >= FEWEST_UNITS => Some(units),
        _ => None,
    }
}

// What `run` asks for with so many workers and so much fuel. It tells no names of a text that reads an input.
fn run_with(
    alloc: Global,
    texts: Texts<'_>,
    workers: u32,
    fuel: u32,
) -> Result<Option<Command>, NoMemory>
    requires workers { (1 ≤ workers) × (workers ≤ MOST_WORKERS) }
    requires fuel { (1 ≤ fuel) × (fuel ≤ MOST_FUEL) }
    ensures task { IfOk result (λ command. option_map task_of command ≡ spec.run_with (given_of texts.entry) workers fuel) }
    ensures range { IfOk result (λ command. IfSome command commands.HasRange) }
{
    let names = texts.names;
    match texts.input {
        None => {
            let file = FileName::new(alloc, texts.operand)?;
            Ok(Some(Command::Run {
                file,
                workers,
                fuel,
                names,
            }))
        }
        Some(input) => {
            if names {
                return Ok(None);
            }
            let file = FileName::new(alloc, texts.operand)?;
            let input = FileName::new(alloc, input)?;
            Ok(Some(Command::RunOn {
                file,
                input,
                workers,
                fuel,
            }))
        }
    }
}

// What `run` asks for.
fn run_by(alloc: Global, texts: Texts<'_>) -> Result<Option<Command>, NoMemory>
    ensures task { IfOk result (λ command. option_map task_of command ≡ spec.run_by (given_of texts.entry)) }
    ensures range { IfOk result (λ command. IfSome command commands.HasRange) }
{
    let Some(workers) = number_or(1, MOST_WORKERS, texts.workers) else {
        return Ok(None);
    };
    let Some(fuel) = number_or(USUAL_FUEL, MOST_FUEL, texts.fuel) else {
        return Ok(None);
    };
    let command = run_with(alloc, texts, workers, fuel)?;
    Ok(command)
}

// What `make` asks for.
fn made_by(texts: Texts<'_>) -> Option<Command>
    ensures task { option_map task_of result ≡ spec.made_by (given_of texts.entry) }
    ensures range { IfSome result commands.HasRange }
{
    let Some(workers) = number_or(1, MOST_WORKERS, texts.workers) else {
        return None;
    };
    let Some(units) = unit_count_in(texts.operand) else {
        return None;
    };
    Some(Command::Make { units, workers })
}

// The workers and the fuel of a run whose entries are looked at one by one.
fn traced_numbers(texts: Texts<'_>) -> Option<(u32, u32)>
    ensures numbers { result ≡ spec.traced_numbers (given_of texts.entry) }
    ensures range { IfSome result (λ n. ((1 ≤ n.0) × (n.0 ≤ MOST_WORKERS)) × ((1 ≤ n.1) × (n.1 ≤ MOST_TRACED_FUEL))) }
{
    let Some(workers) = number_or(1, MOST_WORKERS, texts.workers) else {
        return None;
    };
    let Some(fuel) = number_or(MOST_TRACED_FUEL, MOST_TRACED_FUEL, texts.fuel) else {
        return None;
    };
    Some((workers, fuel))
}

// What `trace` asks for.
fn trace_by(alloc: Global, texts: Texts<'_>) -> Result<Option<Command>, NoMemory>
    ensures task { IfOk result (λ command. option_map task_of command ≡ spec.trace_by (given_of texts.entry)) }
    ensures range { IfOk result (λ command. IfSome command commands.HasRange) }
{
    let Some((workers, fuel)) = traced_numbers(texts) else {
        return Ok(None);
    };
    let file = FileName::new(alloc, texts.operand)?;
    Ok(Some(Command::Trace {
        file,
        workers,
        fuel,
    }))
}

// What `replay` asks for.
fn replay_by(alloc: Global, texts: Texts<'_>) -> Result<Option<Command>, NoMemory>
    ensures task { IfOk result (λ command. option_map task_of command ≡ spec.replay_by (given_of texts.entry)) }
    ensures range { IfOk result (λ command. IfSome command commands.HasRange) }
{
    let Some(schedule) = texts.second else {
        return Ok(None);
    };
    let file = FileName::new(alloc, texts.operand)?;
    let schedule = FileName::new(alloc, schedule)?;
    Ok(Some(Command::Replay { file, schedule }))
}

// What `races` asks for.
fn races_by(alloc: Global, texts: Texts<'_>) -> Result<Option<Command>, NoMemory>
    ensures task { IfOk result (λ command. option_map task_of command ≡ spec.races_by (given_of texts.entry)) }
    ensures range { IfOk result (λ command. IfSome command commands.HasRange) }
{
    let Some((workers, fuel)) = traced_numbers(texts) else {
        return Ok(None);
    };
    let file = FileName::new(alloc, texts.operand)?;
    Ok(Some(Command::Races {
        file,
        workers,
        fuel,
    }))
}

// What a verb asks for.
fn asked_by(alloc: Global, verb: &str, texts: Texts<'_>) -> Result<Option<Command>, NoMemory>
    ensures task { IfOk result (λ command. option_map task_of command ≡ spec.asked_by verb.now (given_of texts.entry)) }
    ensures range { IfOk result (λ command. IfSome command commands.HasRange) }
{
    if verb == "run" {
        let command = run_by(alloc, texts)?;
        return Ok(command);
    }
    if verb == "check" {
        let file = FileName::new(alloc, texts.operand)?;
        return Ok(Some(Command::Check { file }));
    }
    if verb == "code" {
        let file = FileName::new(alloc, texts.operand)?;
        return Ok(Some(Command::Code { file }));
    }
    if verb == "make" {
        return Ok(made_by(texts));
    }
    if verb == "trace" {
        let command = trace_by(alloc, texts)?;
        return Ok(command);
    }
    if verb == "replay" {
        let command = replay_by(alloc, texts)?;
        return Ok(command);
    }
    if verb == "races" {
        let command = races_by(alloc, texts)?;
        return Ok(command);
    }
    if verb == "list" {
        let file = FileName::new(alloc, texts.operand)?;
        return Ok(Some(Command::LayOut { file }));
    }
    Ok(None)
}

// What a verb asks for, where no more is given than it may have.
fn command_by(alloc: Global, verb: &str, texts: Texts<'_>) -> Result<Option<Command>, NoMemory>
    ensures task { IfOk result (λ command. option_map task_of command ≡ spec.task_by verb.now (given_of texts.entry)) }
    ensures range { IfOk result (λ command. IfSome command commands.HasRange) }
{
    if !is_allowed(allowed_to(verb), texts) {
        return Ok(None);
    }
    let command = asked_by(alloc, verb, texts)?;
    Ok(command)
}

// Is the flag set?
fn is_true(text: Option<&str>) -> bool
    ensures { result ≡ spec.is_true (option_map (λ text. text.now) text.entry) }
{
    match text {
        None => false,
        Some(text) => text == "true",
    }
}

// The command of a verb and its matches.
fn matched(alloc: Global, verb: &str, matches: &ArgMatches<'_>) -> Result<Option<Command>, NoMemory>
    ensures task { IfOk result (λ command. option_map task_of command ≡ matched_task (verb.now, rows_of (found_of matches.now))) }
    ensures range { IfOk result (λ command. IfSome command commands.HasRange) }
{
    let operand = matches.get_str("operand");
    let second = matches.get_str("second");
    let workers = matches.get_str("workers");
    let fuel = matches.get_str("fuel");
    let input = matches.get_str("input");
    let names = is_true(matches.get_str("names"));
    match operand {
        None => Ok(None),
        Some(operand) => {
            let texts = Texts {
                operand,
                second,
                workers,
                fuel,
                input,
                names,
            };
            let command = command_by(alloc, verb, texts)?;
            Ok(command)
        }
    }
}

// The command of what the words were split into.
fn command_in(alloc: Global, matches: &ArgMatches<'_>) -> Result<Option<Command>, NoMemory>
    ensures task { IfOk result (λ command. option_map task_of command ≡ option_and_then matched_task (subcommand_rows_of matches.now)) }
    ensures range { IfOk result (λ command. IfSome command commands.HasRange) }
{
    let Some((verb, matches)) = matches.subcommand() else {
        return Ok(None);
    };
    let command = matched(alloc, verb, matches)?;
    Ok(command)
}

/// The command that the words are, without the program's name; none where they are no command.
pub fn command_of(alloc: Global, words: &[String]) -> Result<Option<Command>, NoMemory>
    ensures task { IfOk result (λ command. option_map task_of command ≡ task_in (map string_bytes words.now)) }
    ensures range { IfOk result (λ command. IfSome command commands.HasRange) }
{
    splits_are_tasks();
    let call = call(alloc)?;
    match call.try_get_matches_from(words) {
        Ok(found) => {
            let command = command_in(alloc, &found)?;
            Ok(command)
        }
        Err(error) => {
            if error.kind() == ErrorKind::OutOfMemory {
                return Err(NoMemory);
            }
            Ok(None)
        }
    }
}
