//! Runs of codes with units, with journals and ends found by hand.
use crate::table::{agrees, holds};
use crate::world::valid_code;
use a68_values::{End, Entries, FaultKind, Kept};
use a68_world::{Turned, World};
use std::alloc::Global;
use std::panic::Expect;
use std::process::Abort;
use std::string::String;

/// BEGIN SEMA s = LEVEL 0; PAR ( DOWN s, UP s ) END
pub const PASSED: &str =
    "Enter 1, Push 0, Apply 34, Bind 0, Fork 7 10, Leave 0, End, Tag 0 0, Apply 36, Close, Tag 0 0, Apply 35, Close";

/// Its journal. The strands take turns: strand 1 has to wait until strand 2 has raised the semaphore, and strand 0 until
/// both have closed.
const PASSED_IN_TURN: &str = "\
0 Enter { frame: 1 }
0 Make { base: 0, count: 1 }
0 Assign { cell: 0 }
0 Bind { frame: 1, slot: 0 }
0 Fork { first: 1, count: 2 }
1 Look { frame: 1, slot: 0 }
2 Look { frame: 1, slot: 0 }
2 Up { cell: 0 }
1 Down { cell: 0 }
2 Close
1 Close
";

/// BEGIN SEMA s = LEVEL 0; PAR ( DOWN s, DOWN s ) END
pub const LOCKED: &str =
    "Enter 1, Push 0, Apply 34, Bind 0, Fork 7 10, Leave 0, End, Tag 0 0, Apply 36, Close, Tag 0 0, Apply 36, Close";

/// PAR ( PAR ( print(1), print(2) ), print(3) )
pub const WITHIN: &str =
    "Fork 2 10, End, Fork 4 7, Close, Push 1, Print 1, Close, Push 2, Print 1, Close, Push 3, Print 1, Close";

const UNSET_IN_UNIT: End = End::Fault {
    kind: FaultKind::Unset,
    place: 5,
    strand: 2,
};

/// Runs: the instructions, the fuel, how many events there are, and the end.
const RUNS: &[(&str, u32, usize, End)] = &[
    (
        "Fork 2 4, End, Skip 0, Close, Skip 0, Close",
        9,
        3,
        End::Done,
    ),
    (
        "Fork 2 4, End, Skip 0, Close, Skip 0, Close",
        3,
        3,
        End::Done,
    ),
    (
        "Fork 2 4, End, Skip 0, Close, Skip 0, Close",
        2,
        2,
        End::Spent,
    ),
    ("Fork 2 2, End, Close", 9, 3, End::Done),
    (
        "Fork 2 4, End, Turn, Close, Skip 1, Print 1, Close",
        9,
        2,
        UNSET_IN_UNIT,
    ),
    (PASSED, 99, 11, End::Done),
    (LOCKED, 99, 7, End::AllHalted),
    (WITHIN, 99, 9, End::Done),
];

// Turns, each time, the strand that is next behind that of the last entry.
fn turn_in_circle(alloc: Global, world: &mut World) {
    for _ in 0..=100 {
        let Some(strand) = world.next(world.last()) else {
            return;
        };
        let _ = world.turn(alloc, strand);
    }
}

fn kept(rt: &impl Abort, alloc: Global, ops: &str, fuel: u32) -> Kept {
    holds(rt, 1 <= fuel, "some fuel");
    holds(rt, fuel <= 100, "little fuel");
    let code = valid_code(rt, alloc, ops);
    let mut world = World::start(alloc, code, fuel).expect(rt, "memory");
    turn_in_circle(alloc, &mut world);
    let (code, kept) = world.finish().ok().expect(rt, "an end");
    drop(code);
    kept
}

#[test]
fn runs_of_units(rt: HostRuntime) {
    let alloc = rt.alloc();
    for (ops, fuel, events, end) in RUNS {
        let kept = kept(&rt, alloc, ops, *fuel);
        holds(&rt, kept.end == *end, ops);
        holds(&rt, kept.journal.entries.len() == *events, ops);
        drop(kept);
    }
}

fn is_journal(rt: &impl Abort, alloc: Global, entries: &Entries, wanted: &str) {
    let mut journal = String::new(alloc);
    for at in 0..entries.len() {
        let entry = entries.get(at).expect(rt, "an entry");
        write!(journal, "{} {:?}\n", entry.strand, entry.act).expect(rt, "memory");
    }
    agrees(rt, &journal, wanted, "journal");
}

#[test]
fn strands_take_turns(rt: HostRuntime) {
    let alloc = rt.alloc();
    let kept = kept(&rt, alloc, PASSED, 99);
    is_journal(&rt, alloc, &kept.journal.entries, PASSED_IN_TURN);
    drop(kept);
}

// Whether the strand has acted, and which can be turned next behind it.
fn turned(alloc: Global, world: &mut World, strand: u32) -> (bool, Option<u32>) {
    let acted = matches!(world.turn(alloc, strand), Turned::Acted);
    (acted, world.next(strand))
}

// A strand that waits for its units is not ready, nor is one that has closed; the last unit to close sets the end.
#[test]
fn waits_for_units(rt: HostRuntime) {
    let alloc = rt.alloc();
    let code = valid_code(&rt, alloc, "Fork 2 2, End, Close");
    let mut world = World::start(alloc, code, 9).expect(&rt, "memory");
    holds(
        &rt,
        turned(alloc, &mut world, 1) == (false, Some(0)),
        "no unit",
    );
    holds(
        &rt,
        turned(alloc, &mut world, 0) == (true, Some(1)),
        "a Fork",
    );
    holds(
        &rt,
        turned(alloc, &mut world, 0) == (false, Some(1)),
        "a wait",
    );
    holds(
        &rt,
        turned(alloc, &mut world, 2) == (true, Some(1)),
        "a unit",
    );
    holds(
        &rt,
        turned(alloc, &mut world, 2) == (false, Some(1)),
        "its end",
    );
    holds(&rt, world.end().is_none(), "another unit");
    holds(
        &rt,
        turned(alloc, &mut world, 1) == (true, None),
        "the last",
    );
    holds(&rt, world.end() == Some(End::Done), "the end");
    drop(world);
}

// What the first strand does by itself: whether it is alone, and how many events there are then.
fn goes_alone(rt: &impl Abort, alloc: Global, world: &mut World) -> (bool, u64) {
    let alone = world.is_alone();
    world.go_alone(alloc).expect(rt, "memory");
    (alone, world.events())
}

// Beside units that have yet to close the first strand takes no turn by itself; behind the last of them it does.
#[test]
fn goes_on_alone_behind_its_units(rt: HostRuntime) {
    let alloc = rt.alloc();
    let code = valid_code(
        &rt,
        alloc,
        "Fork 4 6, Turn, Turn, End, Skip 0, Close, Skip 0, Close",
    );
    let mut world = World::start(alloc, code, 9).expect(&rt, "memory");
    let _ = world.turn(alloc, 0);
    holds(
        &rt,
        goes_alone(&rt, alloc, &mut world) == (false, 1),
        "two units",
    );
    let _ = world.turn(alloc, 1);
    holds(
        &rt,
        goes_alone(&rt, alloc, &mut world) == (false, 2),
        "one unit",
    );
    let _ = world.turn(alloc, 2);
    holds(
        &rt,
        goes_alone(&rt, alloc, &mut world) == (true, 5),
        "no unit",
    );
    holds(&rt, world.end() == Some(End::Done), "the end");
    drop(world);
}
