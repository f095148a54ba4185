//! Words of the command line, and the commands that they are, by hand.
use crate::table::{holds, strings};
use a68_command::{Command, command_of};
use std::alloc::Global;
use std::panic::Expect;
use std::process::Abort;

// The verb of a command, its file, and its fuel, which is 0 where it has none. Names are told with the verb. A made text has
// no file, and its units are told in the place of the fuel.
fn parts(command: &Command) -> (&'static str, &str, u32) {
    match command {
        Command::Run {
            file,
            fuel,
            names,
            ..
        } => (
            if *names { "run with names" } else { "run" },
            file.as_str(),
            *fuel,
        ),
        Command::Check { file } => ("check", file.as_str(), 0),
        Command::Code { file } => ("code", file.as_str(), 0),
        Command::Make { units, .. } => ("make", "", *units),
        Command::RunOn { file, fuel, .. } => ("run on", file.as_str(), *fuel),
        Command::Trace { file, fuel, .. } => ("trace", file.as_str(), *fuel),
        Command::Replay { file, .. } => ("replay", file.as_str(), 0),
        Command::Races { file, fuel, .. } => ("races", file.as_str(), *fuel),
        Command::LayOut { file } => ("list", file.as_str(), 0),
    }
}

// Whether the words are this command.
fn are_command(rt: &impl Abort, alloc: Global, words: &[&str], due: (&str, &str, u32)) {
    let words = strings(rt, alloc, words);
    let command = command_of(alloc, &words).expect(rt, "memory");
    let found = match &command {
        Some(command) => parts(command) == due,
        None => false,
    };
    holds(rt, found, "the command");
    drop(command);
    drop(words);
}

// Whether the words are no command.
fn are_none(rt: &impl Abort, alloc: Global, words: &[&str]) {
    let words = strings(rt, alloc, words);
    let command = command_of(alloc, &words).expect(rt, "memory");
    holds(rt, command.is_none(), "no command");
    drop(command);
    drop(words);
}

// The second file of a command, where it has one.
fn second(command: &Command) -> Option<&str> {
    match command {
        Command::RunOn { input, .. } => Some(input.as_str()),
        Command::Replay { schedule, .. } => Some(schedule.as_str()),
        _ => None,
    }
}

// Whether the words are this command, with this second file.
fn have_second(
    rt: &impl Abort,
    alloc: Global,
    words: &[&str],
    due: (&str, &str, u32),
    other: &str,
) {
    are_command(rt, alloc, words, due);
    let words = strings(rt, alloc, words);
    let command = command_of(alloc, &words).expect(rt, "memory");
    let found = match &command {
        Some(command) => second(command) == Some(other),
        None => false,
    };
    holds(rt, found, "the second file");
    drop(command);
    drop(words);
}

/// Words of runs, the file, and the fuel.
const RUNS: &[(&[&str], &str, u32)] = &[
    (&["run", "f"], "f", 4_000_000),
    (&["run", "-"], "-", 4_000_000),
    (&["run", ""], "", 4_000_000),
    (&["run", "--", "f"], "f", 4_000_000),
    (&["run", "--", "-f"], "-f", 4_000_000),
    (&["run", "--", "--"], "--", 4_000_000),
    (&["run", "--", "--fuel"], "--fuel", 4_000_000),
    (&["run", "f", "--"], "f", 4_000_000),
    (&["run", "f", "--fuel", "7"], "f", 7),
    (&["run", "--fuel", "7", "f"], "f", 7),
    (&["run", "--fuel=7", "f"], "f", 7),
    (&["run", "f", "--fuel=7"], "f", 7),
    (&["run", "f", "--fuel", "00000007"], "f", 7),
    (&["run", "f", "--fuel=16000000"], "f", 16_000_000),
    (&["run", "f", "--fuel", "1"], "f", 1),
    (&["run", "f", "--workers", "4"], "f", 4_000_000),
];

/// More of them.
const MORE_RUNS: &[(&[&str], &str, u32)] = &[
    (&["run", "f", "--workers=4"], "f", 4_000_000),
    (&["run", "--workers", "4", "--", "f"], "f", 4_000_000),
    (&["run", "--workers", "64", "f"], "f", 4_000_000),
    (&["run", "--workers=01", "--fuel=2", "f"], "f", 2),
    (&["run", "--fuel", "3", "--workers", "2", "f"], "f", 3),
    (&["run", "f", "--fuel", "5", "--workers", "1"], "f", 5),
    (&["run", "--fuel=5", "--", "--workers"], "--workers", 5),
    (&["run", "--fuel=6", "-"], "-", 6),
    (&["run", "run"], "run", 4_000_000),
    (&["run", "check"], "check", 4_000_000),
    (&["run", "a b"], "a b", 4_000_000),
    (&["run", "f", "--fuel=00000001"], "f", 1),
    (&["run", "--", "--fuel=7"], "--fuel=7", 4_000_000),
    (&["run", "--", "--names"], "--names", 4_000_000),
    (&["run", "é"], "é", 4_000_000),
];

#[test]
fn words_run_files(rt: HostRuntime) {
    for table in [RUNS, MORE_RUNS] {
        for (words, file, fuel) in table {
            are_command(&rt, rt.alloc(), words, ("run", file, *fuel));
        }
    }
}

/// Words of runs that tell the names, the file, and the fuel.
const NAMED: &[(&[&str], &str, u32)] = &[
    (&["run", "f", "--names"], "f", 4_000_000),
    (&["run", "--names", "f"], "f", 4_000_000),
    (&["run", "--names", "--", "-f"], "-f", 4_000_000),
    (&["run", "--names", "--fuel", "7", "f"], "f", 7),
    (&["run", "--fuel=7", "f", "--names"], "f", 7),
    (&["run", "f", "--workers", "4", "--names"], "f", 4_000_000),
    (&["run", "--names", "names"], "names", 4_000_000),
    (&["run", "--names", "--", "--names"], "--names", 4_000_000),
];

#[test]
fn words_run_files_and_ask_for_names(rt: HostRuntime) {
    for (words, file, fuel) in NAMED {
        are_command(&rt, rt.alloc(), words, ("run with names", file, *fuel));
    }
}

/// Words of the commands without options, the verb, and the file.
const OTHERS: &[(&[&str], &str, &str)] = &[
    (&["check", "f"], "check", "f"),
    (&["check", "-"], "check", "-"),
    (&["check", ""], "check", ""),
    (&["check", "--", "f"], "check", "f"),
    (&["check", "--", "-f"], "check", "-f"),
    (&["check", "f", "--"], "check", "f"),
    (&["check", "--", "--fuel"], "check", "--fuel"),
    (&["check", "code"], "check", "code"),
    (&["code", "f"], "code", "f"),
    (&["code", "-"], "code", "-"),
    (&["code", ""], "code", ""),
    (&["code", "--", "f"], "code", "f"),
    (&["code", "--", "--workers"], "code", "--workers"),
    (&["code", "f", "--"], "code", "f"),
];

#[test]
fn words_check_and_list_files(rt: HostRuntime) {
    for (words, verb, file) in OTHERS {
        are_command(&rt, rt.alloc(), words, (verb, file, 0));
    }
}

/// Words that ask for a made text, and its units.
const MADE: &[(&[&str], u32)] = &[
    (&["make", "2"], 2),
    (&["make", "3"], 3),
    (&["make", "2000"], 2000),
    (&["make", "00000002"], 2),
    (&["make", "--", "7"], 7),
    (&["make", "3", "--workers", "2"], 3),
    (&["make", "--workers=64", "3"], 3),
];

#[test]
fn words_make_texts(rt: HostRuntime) {
    for (words, units) in MADE {
        are_command(&rt, rt.alloc(), words, ("make", "", *units));
    }
}

/// Words that ask for races, the file, and the fuel.
const RACED: &[(&[&str], &str, u32)] = &[
    (&["races", "f"], "f", 1_000_000),
    (&["races", "-"], "-", 1_000_000),
    (&["races", "--", "-f"], "-f", 1_000_000),
    (&["races", "races"], "races", 1_000_000),
    (&["races", "f", "--fuel", "7"], "f", 7),
    (&["races", "--fuel=1000000", "f"], "f", 1_000_000),
    (&["races", "--workers", "64", "f", "--fuel=01"], "f", 1),
];

#[test]
fn words_ask_for_races(rt: HostRuntime) {
    for (words, file, fuel) in RACED {
        are_command(&rt, rt.alloc(), words, ("races", file, *fuel));
    }
}

/// Words that ask for a schedule, the file, and the fuel.
const TRACED: &[(&[&str], &str, u32)] = &[
    (&["trace", "f"], "f", 1_000_000),
    (&["trace", "-"], "-", 1_000_000),
    (&["trace", "--", "-f"], "-f", 1_000_000),
    (&["trace", "replay"], "replay", 1_000_000),
    (&["trace", "f", "--fuel", "7"], "f", 7),
    (&["trace", "--fuel=1000000", "f"], "f", 1_000_000),
    (&["trace", "--workers", "64", "f", "--fuel=01"], "f", 1),
];

#[test]
fn words_ask_for_schedules(rt: HostRuntime) {
    for (words, file, fuel) in TRACED {
        are_command(&rt, rt.alloc(), words, ("trace", file, *fuel));
    }
}

/// Words that ask for a run by a schedule, and the two files.
const REPLAYED: &[(&[&str], &str, &str)] = &[
    (&["replay", "f", "g"], "f", "g"),
    (&["replay", "f", "f"], "f", "f"),
    (&["replay", "-", "-"], "-", "-"),
    (&["replay", "f", ""], "f", ""),
    (&["replay", "f", "--", "-g"], "f", "-g"),
    (&["replay", "--", "--fuel", "--names"], "--fuel", "--names"),
    (&["replay", "f", "g", "--"], "f", "g"),
];

#[test]
fn words_name_schedules(rt: HostRuntime) {
    for (words, file, schedule) in REPLAYED {
        have_second(&rt, rt.alloc(), words, ("replay", file, 0), schedule);
    }
}

/// Words that ask for a run that reads an input, and the file, the input and the fuel.
const READING: &[(&[&str], &str, &str, u32)] = &[
    (&["run", "f", "--input", "g"], "f", "g", 4_000_000),
    (&["run", "f", "--input=g"], "f", "g", 4_000_000),
    (&["run", "--input", "g", "f"], "f", "g", 4_000_000),
    (&["run", "f", "--input", "-"], "f", "-", 4_000_000),
    (&["run", "f", "--input=-g"], "f", "-g", 4_000_000),
    (&["run", "f", "--input=--fuel"], "f", "--fuel", 4_000_000),
    (&["run", "f", "--input="], "f", "", 4_000_000),
    (&["run", "f", "--input=a=b"], "f", "a=b", 4_000_000),
    (
        &["run", "--input=g", "--", "--input"],
        "--input",
        "g",
        4_000_000,
    ),
    (
        &["run", "f", "--input", "g", "--fuel", "7", "--workers=2"],
        "f",
        "g",
        7,
    ),
];

#[test]
fn words_name_inputs(rt: HostRuntime) {
    for (words, file, input, fuel) in READING {
        have_second(&rt, rt.alloc(), words, ("run on", file, *fuel), input);
    }
}

#[test]
fn words_are_listings(rt: HostRuntime) {
    are_command(&rt, rt.alloc(), &["list", "f"], ("list", "f", 0));
    are_command(&rt, rt.alloc(), &["list", "-"], ("list", "-", 0));
    are_command(&rt, rt.alloc(), &["list", "--", "-f"], ("list", "-f", 0));
}

/// Words that look like options of help, or like a verb, and name files.
const NAMING: &[(&[&str], (&str, &str, u32))] = &[
    (&["run", "--", "-x"], ("run", "-x", 4_000_000)),
    (&["run", "help"], ("run", "help", 4_000_000)),
    (
        &["run", "--names", "--", "--help"],
        ("run with names", "--help", 4_000_000),
    ),
    (
        &["run", "f", "--fuel", "1", "--workers", "1", "--names"],
        ("run with names", "f", 1),
    ),
    (&["check", "--", "-h"], ("check", "-h", 0)),
    (&["check", "help"], ("check", "help", 0)),
    (&["code", "--", "--version"], ("code", "--version", 0)),
    (&["make", "03"], ("make", "", 3)),
];

#[test]
fn words_name_files_like_options(rt: HostRuntime) {
    for (words, due) in NAMING {
        are_command(&rt, rt.alloc(), words, *due);
    }
}

/// Words that no command has, or too many files, or none.
const MISSHAPEN: &[&[&str]] = &[
    &[],
    &[""],
    &["run"],
    &["Run", "f"],
    &["RUN", "f"],
    &["walk", "f"],
    &["--"],
    &["--", "run", "f"],
    &["run", "f", "g"],
    &["run", "f", "-"],
    &["run", "-", "-"],
    &["run", "--"],
    &["run", "--", "f", "g"],
    &["run", "f", "--", "g"],
    &["run", "-x"],
    &["run", "--help"],
    &["run", "-h"],
    &["run", "f", "--fuelx"],
    &["run", "f", "--fue", "7"],
    &["run", "f", "--fuel:7"],
    &["run", "f", "--Fuel", "7"],
    &["run", "f", "-fuel", "7"],
];

/// Fuel that is no number of fuel, or is there twice.
const MISCOUNTED: &[&[&str]] = &[
    &["run", "--fuel"],
    &["run", "--fuel", "7"],
    &["run", "f", "--fuel"],
    &["run", "f", "--fuel", "0"],
    &["run", "f", "--fuel", "16000001"],
    &["run", "f", "--fuel", "5x"],
    &["run", "f", "--fuel", "x"],
    &["run", "f", "--fuel", "-1"],
    &["run", "f", "--fuel", "--"],
    &["run", "f", "--fuel", "+5"],
    &["run", "f", "--fuel", ""],
    &["run", "f", "--fuel", " 5"],
    &["run", "f", "--fuel", "000000007"],
    &["run", "f", "--fuel="],
    &["run", "f", "--fuel=0"],
    &["run", "f", "--fuel=16000001"],
    &["run", "f", "--fuel=-1"],
    &["run", "f", "--fuel=000000001"],
    &["run", "f", "--fuel", "7", "--fuel", "7"],
    &["run", "f", "--fuel=7", "--fuel=7"],
    &["run", "f", "--fuel", "7", "--fuel=7"],
];

/// The same of workers.
const MISMANNED: &[&[&str]] = &[
    &["run", "f", "--workers"],
    &["run", "f", "--workers", "0"],
    &["run", "f", "--workers", "65"],
    &["run", "f", "--workers=0"],
    &["run", "f", "--workers=65"],
    &["run", "f", "--workers="],
    &["run", "f", "--workers", "4", "--workers", "4"],
    &["run", "f", "--workers=4", "--workers", "4"],
    &["run", "f", "--workers=x"],
    &["run", "--workers", "--", "f"],
    &["run", "--workers=4"],
    &["run", "f", "--worker=4"],
    &["run", "f", "--workers", "-4"],
    &["run", "f", "--workers", "000000004"],
];

/// Names that are asked for twice, with a value, without a file, or where an option wants its number.
const MISNAMED: &[&[&str]] = &[
    &["run", "--names"],
    &["run", "f", "--names", "--names"],
    &["run", "--names", "f", "--names"],
    &["run", "f", "--names=1"],
    &["run", "f", "--names="],
    &["run", "f", "--name"],
    &["run", "f", "--Names"],
    &["run", "f", "-names"],
    &["run", "f", "--fuel", "--names"],
    &["run", "f", "--workers", "--names"],
    &["run", "--names", "f", "g"],
    &["--names", "run", "f"],
    &["check", "f", "--names"],
    &["check", "--names", "f"],
    &["code", "f", "--names"],
    &["make", "3", "--names"],
];

/// Other verbs, and options that a verb does not have.
const UNSUITED: &[&[&str]] = &[
    &["check"],
    &["Check", "f"],
    &["check", "f", "g"],
    &["check", "-x"],
    &["check", "f", "--fuel", "7"],
    &["check", "f", "--fuel=7"],
    &["check", "f", "--workers", "2"],
    &["check", "--", "f", "g"],
    &["check", "--"],
    &["code"],
    &["code", "f", "g"],
    &["code", "-x"],
    &["code", "f", "--fuel", "7"],
    &["code", "f", "--workers=1"],
    &["code", "--", "f", "g"],
    &["make"],
    &["make", "0"],
    &["make", "1"],
    &["make", "2001"],
    &["make", "000000002"],
    &["make", "f"],
    &["make", "-3"],
    &["make", "3", "4"],
    &["make", "3", "--fuel", "7"],
    &["make", "3", "--workers", "65"],
    &["explain", "S6"],
    &["try", "f"],
];

/// Words of help and of versions, which are words like others, and words without a verb.
const HELPLESS: &[&[&str]] = &[
    &["-h"],
    &["--help"],
    &["--version"],
    &["help"],
    &["help", "run"],
    &["run", "-h", "f"],
    &["run", "--help", "f"],
    &["check", "-h"],
    &["check", "--help"],
    &["code", "--version"],
    &["make", "-h"],
    &["make", "--help"],
    &["--", "run"],
    &["-", "f"],
    &["-"],
    &["", "f"],
    &["check", "", ""],
];

/// Options that are cut short, doubled, without a value, or of no verb.
const MISFITTING: &[&[&str]] = &[
    &["run", "--work", "2", "f"],
    &["run", "f", "--work=2"],
    &["run", "--names=1", "f"],
    &["run", "--fuel=", "f"],
    &["run", "--fuel", "-1", "f"],
    &["run", "--fuel", "f"],
    &["run", "--workers", "--", "2", "f"],
    &["run", "--fuel", "1", "f", "--fuel", "2"],
    &["run", "--fuel=1", "--fuel=2", "f"],
    &["run", "--workers", "1", "f", "--workers", "2"],
    &["run", "--names", "f", "--names"],
    &["run", "f", "--=x"],
    &["run", "f", "---"],
    &["run", "f", "--second", "g"],
    &["run", "--operand", "f"],
    &["make", "+3"],
    &["make", "-", "3"],
    &["make", "3", "--workers", "1", "--workers", "1"],
];

/// Words that ask for no races.
const UNRACED: &[&[&str]] = &[
    &["races"],
    &["Races", "f"],
    &["races", "f", "g"],
    &["races", "f", "--names"],
    &["races", "f", "--fuel", "0"],
    &["races", "f", "--fuel", "1000001"],
    &["races", "f", "--fuel=16000000"],
    &["races", "f", "--workers", "65"],
    &["races", "f", "--input", "g"],
    &["list"],
    &["list", "f", "g"],
    &["list", "f", "--fuel", "1"],
    &["list", "f", "--workers", "2"],
    &["list", "f", "--names"],
];

/// Words that ask for no schedule, and for no run by one.
const UNTRACED: &[&[&str]] = &[
    &["trace"],
    &["Trace", "f"],
    &["trace", "f", "g"],
    &["trace", "f", "--names"],
    &["trace", "f", "--fuel", "0"],
    &["trace", "f", "--fuel", "1000001"],
    &["trace", "f", "--fuel=16000000"],
    &["trace", "f", "--workers", "65"],
    &["trace", "f", "--input", "g"],
    &["replay"],
    &["replay", "f"],
    &["replay", "f", "g", "h"],
    &["replay", "f", "-g"],
    &["replay", "f", "g", "--fuel", "7"],
    &["replay", "f", "g", "--workers", "1"],
    &["replay", "f", "g", "--names"],
    &["replay", "f", "--input", "g"],
    &["replay", "f", "g", "--input=h"],
];

/// Words that name no input.
const UNREAD: &[&[&str]] = &[
    &["run", "--input", "g"],
    &["run", "f", "--input"],
    &["run", "f", "--input", "-g"],
    &["run", "f", "--input", "--", "g"],
    &["run", "f", "--input", "--names"],
    &["run", "f", "--input", "g", "--input", "g"],
    &["run", "f", "--input=g", "--input=h"],
    &["run", "f", "--input", "g", "--names"],
    &["run", "--names", "f", "--input=g"],
    &["run", "f", "g", "--input", "h"],
    &["run", "f", "--inputs", "g"],
    &["run", "f", "--in=g"],
    &["check", "f", "--input", "g"],
    &["code", "f", "--input", "g"],
    &["make", "3", "--input", "g"],
    &["list", "f", "--input", "g"],
];

#[test]
fn other_words_are_no_command(rt: HostRuntime) {
    for table in [MISSHAPEN, MISCOUNTED, MISMANNED, MISNAMED, UNSUITED] {
        for words in table {
            are_none(&rt, rt.alloc(), words);
        }
    }
}

#[test]
fn words_like_options_are_no_command(rt: HostRuntime) {
    for table in [HELPLESS, MISFITTING, UNRACED, UNTRACED, UNREAD] {
        for words in table {
            are_none(&rt, rt.alloc(), words);
        }
    }
}
