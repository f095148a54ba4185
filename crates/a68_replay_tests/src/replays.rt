//! Codes with schedules, and what comes of them, found by hand.
ghost use Rattle.std.specs.Prelude.{◌≤◌, ◌<◌, ◌^◌, length};
ghost use Rattle.a68_code.specs.Valid.{IsValid};
ghost use Rattle.a68_replay.specs.declared.picks.TheConstants.{MOST_PICKS};

use crate::table::holds;
use a68_code::Code;
use a68_code_tests::code_of;
use a68_replay::{MOST_PICKS, Picks, Replayed, ScheduleStop, read_schedule, replay, schedule_of};
use a68_values::{End, FaultKind, Kept};
use std::alloc::Global;
use std::panic::Expect;
use std::process::Abort;

/// BEGIN INT x; print(x) END
const UNSET: &str = "Enter 1, Make 1 0, Bind 0, Tag 0 0, Deref 1, Print 1, Leave 0, End";

const UNSET_AT_5: End = End::Fault {
    kind: FaultKind::Unset,
    place: 5,
    strand: 0,
};

/// PAR ( .., print(SKIP) )
const UNSET_UNIT: &str = "Fork 2 4, End, Turn, Close, Skip 1, Print 1, Close";

const UNSET_IN_UNIT: End = End::Fault {
    kind: FaultKind::Unset,
    place: 5,
    strand: 2,
};

/// BEGIN SEMA s = LEVEL 0; PAR ( DOWN s, UP s ) END
const PASSED: &str =
    "Enter 1, Push 0, Apply 34, Bind 0, Fork 7 10, Leave 0, End, Tag 0 0, Apply 36, Close, Tag 0 0, Apply 35, Close";

/// BEGIN SEMA s = LEVEL 0; PAR ( DOWN s, DOWN s ) END
const LOCKED: &str =
    "Enter 1, Push 0, Apply 34, Bind 0, Fork 7 10, Leave 0, End, Tag 0 0, Apply 36, Close, Tag 0 0, Apply 36, Close";

/// What a code and the bytes of a schedule come to.
#[derive(Clone, Copy, PartialEq, Eq)]
enum Outcome {
    Ran(End),
    Stuck(u32),
    Short(u32),
    Bad(u32),
}

/// Replays: the instructions, the schedule, and what comes of them. Strand 0 of PASSED does five acts, the last of them makes
/// strands 1 and 2; each of these looks its semaphore up, lowers or raises it, and closes.
const REPLAYS: &[(&str, &str, Outcome)] = &[
    ("End", "", Outcome::Ran(End::Done)),
    ("End", "0", Outcome::Stuck(0)),
    (PASSED, "", Outcome::Short(0)),
    (PASSED, "0 0 0\n", Outcome::Short(3)),
    (PASSED, "0 0 0 0 0 1 2 2 1 2 1", Outcome::Ran(End::Done)),
    (
        PASSED,
        "0\n0\n0\n0\n0\n2\n2\n2\n1\n1\n1\n",
        Outcome::Ran(End::Done),
    ),
    (
        PASSED,
        "\t00 000 0 0\r\n0 2 0002 01 1 1 2 ",
        Outcome::Ran(End::Done),
    ),
    (PASSED, "0 0 0 0 0 1 2 2 1 2", Outcome::Short(10)),
    (PASSED, "0 0 0 0 0 1 1", Outcome::Stuck(6)),
    (PASSED, "0 0 0 0 0 0", Outcome::Stuck(5)),
    (PASSED, "0 0 0 0 0 3", Outcome::Stuck(5)),
    (PASSED, "1 0", Outcome::Stuck(0)),
    (PASSED, "0 0 0 0 0 1 2 2 1 2 1 0", Outcome::Stuck(11)),
    (LOCKED, "0 0 0 0 0 1 2", Outcome::Ran(End::AllHalted)),
    (LOCKED, "0 0 0 0 0 2 1", Outcome::Ran(End::AllHalted)),
    (LOCKED, "0 0 0 0 0 2 1 2", Outcome::Stuck(7)),
    (UNSET, "0 0 0 0 0", Outcome::Short(5)),
    (UNSET, "0 0 0 0 0 0", Outcome::Ran(UNSET_AT_5)),
    (UNSET, "0 0 0 0 0 0 0", Outcome::Stuck(6)),
    (UNSET_UNIT, "0 1 2", Outcome::Ran(UNSET_IN_UNIT)),
    (UNSET_UNIT, "0 2", Outcome::Ran(UNSET_IN_UNIT)),
    (UNSET_UNIT, "0 2 1", Outcome::Stuck(2)),
];

/// Bytes that are no schedule.
const BAD: &[(&str, u32)] = &[
    ("-1", 0),
    ("+1", 0),
    ("0 x", 2),
    ("0,0", 1),
    ("0\0", 1),
    ("0 65535 65536", 12),
    ("0 1000000", 7),
    ("0\n1a", 3),
];

// The code of these instructions, which is valid.
fn valid_code(rt: &impl Abort, alloc: Global, ops: &str) -> Code
    ensures valid { IsValid result }
    ensures short { length result.list < 2 ^ 32 }
{
    let code = code_of(alloc, ops).expect(rt, "a code");
    let valid = code.valid(alloc).expect(rt, "memory");
    holds(rt, valid, "a valid code");
    holds(rt, code.list.items.len() < 100, "a short code");
    code
}

// The picks of a schedule, or the place at which none goes on.
fn picks_of(rt: &impl Abort, alloc: Global, schedule: &[u8]) -> Result<Picks, u32> {
    holds(rt, schedule.len() < 1_000, "a short schedule");
    match read_schedule(alloc, schedule) {
        Ok(picks) => Ok(picks),
        Err(ScheduleStop::Bad(place)) => Err(place),
        Err(ScheduleStop::NoMemory) => rt.panic("memory"),
    }
}

// The schedule of a run that was replayed is the one that it followed.
fn comes_back(rt: &impl Abort, alloc: Global, kept: &Kept, picks: &Picks, case: &str) {
    let text = schedule_of(alloc, kept).expect(rt, "memory");
    let back = picks_of(rt, alloc, &text.items).ok().expect(rt, case);
    holds(rt, back.items.as_slice() == picks.items.as_slice(), case);
}

// What comes of picks.
fn comes_to(rt: &impl Abort, alloc: Global, ops: &str, picks: &Picks) -> Outcome {
    holds(rt, picks.items.len() <= MOST_PICKS, "few picks");
    let code = valid_code(rt, alloc, ops);
    match replay(alloc, code, picks).expect(rt, "memory") {
        Replayed::Ran(code, kept) => {
            drop(code);
            comes_back(rt, alloc, &kept, picks, ops);
            let end = kept.end;
            drop(kept);
            Outcome::Ran(end)
        }
        Replayed::Stuck(code, place) => {
            drop(code);
            Outcome::Stuck(place)
        }
        Replayed::Short(code, count) => {
            drop(code);
            Outcome::Short(count)
        }
    }
}

// What comes of the bytes of a schedule.
fn read_and_replayed(rt: &impl Abort, alloc: Global, ops: &str, schedule: &str) -> Outcome {
    match picks_of(rt, alloc, schedule.as_bytes()) {
        Ok(picks) => comes_to(rt, alloc, ops, &picks),
        Err(place) => Outcome::Bad(place),
    }
}

#[test]
fn schedules_are_followed(rt: HostRuntime) {
    for (ops, schedule, told) in REPLAYS {
        let found = read_and_replayed(&rt, rt.alloc(), ops, schedule);
        holds(&rt, found == *told, schedule);
    }
}

#[test]
fn other_bytes_are_refused(rt: HostRuntime) {
    for (schedule, place) in BAD {
        let found = read_and_replayed(&rt, rt.alloc(), "End", schedule);
        holds(&rt, found == Outcome::Bad(*place), schedule);
    }
}
