//! Runs of small codes, with journals and ends found by hand.
ghost use Rattle.std.specs.Prelude.{◌<◌, ◌^◌, length};
ghost use Rattle.a68_code.specs.Valid.{IsValid};
ghost use Rattle.a68_workers.specs.Runs.{IsAtRest};

use crate::table::{agrees, holds};
use a68_code::Code;
use a68_code_tests::code_of;
use a68_values::{End, Entries, FaultKind, Kept, Plain};
use a68_values_tests::plain_in;
use a68_world::{Turned, World};
use std::alloc::Global;
use std::panic::Expect;
use std::process::Abort;
use std::string::String;

/// BEGIN INT x := 5; print(x) END
const PRINTING: &str =
    "Enter 1, Make 1 0, Push 5, Store 1, Bind 0, Tag 0 0, Deref 1, Print 1, Leave 0, End";

/// Its journal.
const JOURNAL: &str = "\
Enter { frame: 1 }
Make { base: 0, count: 1 }
Assign { cell: 0 }
Bind { frame: 1, slot: 0 }
Look { frame: 1, slot: 0 }
Fetch { cell: 0 }
Print { from: 0, to: 20 }
";

/// BEGIN INT x; print(x) END
pub const UNSET: &str = "Enter 1, Make 1 0, Bind 0, Tag 0 0, Deref 1, Print 1, Leave 0, End";

/// ( DO SKIP OD )
const ENDLESS: &str =
    "Push 5, Push 5, Skip 1, Counter, Step 8, Turn, Skip 0, Advance 4, Forget, End";

/// ( FOR i TO 2 DO print(i) OD )
const COUNTING: &str =
    "Push 1, Push 1, Push 2, Counter, Step 14, Turn, Enter 1, Index, Bind 0, Tag 0 0, Print 1, Leave 0, Advance 4, Jump 14, Forget, End";

pub const UNSET_AT_5: End = End::Fault {
    kind: FaultKind::Unset,
    place: 5,
    strand: 0,
};

const UNSET_AT_3: End = End::Fault {
    kind: FaultKind::Unset,
    place: 3,
    strand: 0,
};

const UNSET_AT_4: End = End::Fault {
    kind: FaultKind::Unset,
    place: 4,
    strand: 0,
};

const UNSET_AT_6: End = End::Fault {
    kind: FaultKind::Unset,
    place: 6,
    strand: 0,
};

const UNSET_AT_9: End = End::Fault {
    kind: FaultKind::Unset,
    place: 9,
    strand: 0,
};

const UNSET_AT_1: End = End::Fault {
    kind: FaultKind::Unset,
    place: 1,
    strand: 0,
};

const KIND_AT_0: End = End::Fault {
    kind: FaultKind::Kind,
    place: 0,
    strand: 0,
};

const KIND_AT_1: End = End::Fault {
    kind: FaultKind::Kind,
    place: 1,
    strand: 0,
};

const KIND_AT_3: End = End::Fault {
    kind: FaultKind::Kind,
    place: 3,
    strand: 0,
};

/// ( SEMA s = LEVEL 0; UP s; DOWN s; DOWN s )
const RAISED_ONCE: &str =
    "Enter 1, Push 0, Apply 34, Bind 0, Tag 0 0, Apply 35, Tag 0 0, Apply 36, Tag 0 0, Apply 36, Leave 0, End";

/// ( INT i := 0; l: i := i + 1; IF i < 3 THEN GO TO l FI; print(i) )
const BACKWARD: &str =
    "Enter 1, Make 1 0, Push 0, Store 1, Bind 0, Tag 0 0, Tag 0 0, Deref 1, Push 1, Apply 15, Store 1, Drop, Tag 0 0, Deref 1, Push 3, Apply 11, Unless 18, Goto 5, Tag 0 0, Deref 1, Print 1, Leave 0, End";

/// A jump out of a frame: behind the label the slot of the outer one is looked at.
const OUTWARD: &str =
    "Enter 1, Push 5, Bind 0, Enter 0, Push 6, Goto 8 1 0, Drop, Leave 0, Tag 0 0, Print 1, Leave 0, End";

/// A routine that jumps from above two values, and keeps one, which it yields to a caller that has put two itself.
const WITHIN_A_CALL: &str =
    "Text 6 1, Push 7, Routine 0 -, Call 0 1, Print 2, Skip 0, End, Push 1, Push 2, Goto 10 0 1 0, Drop, Return";

/// UP LEVEL (2 ** 62 - 1 + 2 ** 62)
const RAISED_BEYOND: &str =
    "Push 2, Push 62, Apply 21, Push 1, Apply 16, Push 2, Push 62, Apply 21, Apply 15, Apply 34, Apply 35, End";

/// DOWN LEVEL 0
pub const HALTED: &str = "Push 0, Apply 34, Apply 36, End";

const OVERFLOW_AT_10: End = End::Fault {
    kind: FaultKind::Overflow,
    place: 10,
    strand: 0,
};

const CELLS_AT_1: End = End::Fault {
    kind: FaultKind::Cells,
    place: 1,
    strand: 0,
};

/// Runs: the instructions, the fuel, how many events there are, and the end. The number of an instruction is its place.
/// In the choices by 0 to 3 the first part meets a fault at 3, the second at 6, and the one for no number at 9.
const RUNS: &[(&str, u32, u64, End)] = &[
    ("End", 1, 0, End::Done),
    (PRINTING, 7, 7, End::Done),
    (PRINTING, 6, 6, End::Spent),
    (UNSET, 9, 5, UNSET_AT_5),
    (UNSET, 5, 5, UNSET_AT_5),
    ("Enter 1, Tag 0 0, Drop, Leave 0, End", 1, 1, UNSET_AT_1),
    ("Enter 1, Tag 0 1, Drop, Leave 0, End", 9, 1, KIND_AT_1),
    (
        "Enter 4194304, Enter 1, Leave 0, Leave 0, End",
        9,
        1,
        CELLS_AT_1,
    ),
    (ENDLESS, 3, 3, End::Spent),
    (COUNTING, 19, 10, End::Done),
    ("Skip 1, Case 2 2, End", 9, 0, UNSET_AT_1),
    (
        "Make 1 0, Push 5, Store 1, Push 3, Apply 1, Deref 1, Print 1, End",
        9,
        6,
        End::Done,
    ),
    (
        "Push 0, Make 1 0, Push 3, Apply 1, Drop, Drop, End",
        9,
        2,
        UNSET_AT_3,
    ),
    (
        "Push 0, Case 2 5 8, Skip 1, Print 1, Jump 10, Skip 1, Print 1, Jump 10, Skip 1, Print 1, End",
        9,
        0,
        UNSET_AT_9,
    ),
    (
        "Push 1, Case 2 5 8, Skip 1, Print 1, Jump 10, Skip 1, Print 1, Jump 10, Skip 1, Print 1, End",
        9,
        0,
        UNSET_AT_3,
    ),
    (
        "Push 2, Case 2 5 8, Skip 1, Print 1, Jump 10, Skip 1, Print 1, Jump 10, Skip 1, Print 1, End",
        9,
        0,
        UNSET_AT_6,
    ),
    (
        "Push 3, Case 2 5 8, Skip 1, Print 1, Jump 10, Skip 1, Print 1, Jump 10, Skip 1, Print 1, End",
        9,
        0,
        UNSET_AT_9,
    ),
    ("Skip 1, Member 8 2 2 2 2 2 2 2 2, End", 9, 0, UNSET_AT_1),
    ("Push 5, Member 8 2 2 2 2 2 2 2 2, End", 9, 0, KIND_AT_1),
    (
        "Push 5, Unite 1, Member 8 3 7 7 7 7 7 7 7, Drop, Skip 1, Print 1, Jump 10, Skip 0, Skip 1, Print 1, End",
        9,
        0,
        UNSET_AT_5,
    ),
    (
        "Push 5, Unite 2, Member 8 3 7 7 7 7 7 7 7, Drop, Skip 1, Print 1, Jump 10, Skip 0, Skip 1, Print 1, End",
        9,
        0,
        UNSET_AT_9,
    ),
    (
        "Push 5, Unite 1, United 8 3 6 6 6 6 6 6 6, Member 8 4 6 6 6 6 6 6 6, Drop, Skip 0, End",
        9,
        0,
        End::Done,
    ),
    (
        "Push 5, Unite 1, Member 8 3 6 6 6 6 6 6 6, Member 8 4 6 6 6 6 6 6 6, Drop, Skip 0, End",
        9,
        0,
        KIND_AT_3,
    ),
    (
        "Push 1, Push 1, Skip 1, Apply 26, Counter, Forget, End",
        9,
        0,
        UNSET_AT_3,
    ),
    (
        "Skip 1, Push 1, Skip 1, Apply 26, Counter, Forget, End",
        9,
        0,
        UNSET_AT_3,
    ),
    (
        "Skip 1, Push 1, Push 2, Apply 26, Counter, Forget, End",
        9,
        0,
        UNSET_AT_4,
    ),
    (
        "Push 1, Push 1, Push 2, Apply 26, Counter, Step 9, Turn, Advance 5, Jump 9, Forget, End",
        9,
        2,
        End::Done,
    ),
    ("Goto 0, End", 5, 5, End::Spent),
    ("Goto 1 1, End", 9, 1, End::Done),
    ("Goto 1 2, End", 9, 0, KIND_AT_0),
    (BACKWARD, 99, 27, End::Done),
    (BACKWARD, 14, 14, End::Spent),
    (OUTWARD, 9, 6, End::Done),
    (WITHIN_A_CALL, 9, 5, End::Done),
    ("Push 5, Apply 34, Apply 34, Print 1, End", 9, 4, End::Done),
    ("Push 1, Apply 34, Apply 36, End", 3, 3, End::Done),
    ("Push 1, Apply 34, Apply 36, End", 2, 2, End::Spent),
    (HALTED, 9, 2, End::AllHalted),
    (HALTED, 2, 2, End::AllHalted),
    (HALTED, 1, 1, End::Spent),
    (
        "Push 1, Apply 27, Apply 34, Apply 36, End",
        9,
        2,
        End::AllHalted,
    ),
    ("Push 0, Apply 34, Apply 35, End", 3, 3, End::Done),
    (RAISED_ONCE, 99, 9, End::AllHalted),
    (RAISED_BEYOND, 9, 2, OVERFLOW_AT_10),
];

/// The code of these instructions, which is valid.
pub fn valid_code(rt: &impl Abort, alloc: Global, ops: &str) -> Code
    ensures valid { IsValid result }
    ensures short { length result.list < 2 ^ 32 }
{
    let code = code_of(alloc, ops).expect(rt, "a code");
    let valid = code.valid(alloc).expect(rt, "memory");
    holds(rt, valid, "a valid code");
    holds(rt, code.list.items.len() < 100, "a short code");
    code
}

/// A run of this code that is yet to begin.
pub fn world(rt: &impl Abort, alloc: Global, ops: &str, fuel: u32) -> World
    ensures { IsAtRest result }
{
    holds(rt, 1 <= fuel, "some fuel");
    holds(rt, fuel <= 100, "little fuel");
    let code = valid_code(rt, alloc, ops);
    World::start(alloc, code, fuel).expect(rt, "memory")
}

// The end to which a turn comes.
fn over(turned: Turned) -> Option<End> {
    match turned {
        Turned::Over(end) => Some(end),
        _ => None,
    }
}

// Turns strand 0 until the run has ended.
fn turn_on(alloc: Global, world: &mut World) -> Option<End> {
    for _ in 0..40 {
        let end = over(world.turn(alloc, 0));
        if end.is_some() {
            return end;
        }
    }
    None
}

#[test]
fn runs(rt: HostRuntime) {
    let alloc = rt.alloc();
    for (ops, fuel, events, end) in RUNS {
        let mut world = world(&rt, alloc, ops, *fuel);
        holds(&rt, turn_on(alloc, &mut world) == Some(*end), ops);
        holds(&rt, world.events() == *events, ops);
        drop(world);
    }
}

fn is_journal(rt: &impl Abort, alloc: Global, entries: &Entries) {
    let mut journal = String::new(alloc);
    for at in 0..entries.len() {
        let entry = entries.get(at).expect(rt, "an entry");
        write!(journal, "{:?}\n", entry.act).expect(rt, "memory");
    }
    agrees(rt, &journal, JOURNAL, "journal");
}

// Whether this is what a run of PRINTING keeps: 5 is left in the only cell and slot.
fn is_printed(rt: &impl Abort, alloc: Global, kept: &Kept) {
    let text = kept.journal.text.items.as_slice();
    holds(rt, text == b"                  +5".as_slice(), "the text");
    let cells = kept.cells.items.as_slice();
    let five = cells.first().and_then(plain_in);
    let left = (cells.len(), kept.outer.items.len(), five);
    holds(rt, left == (1, 1, Some(Plain::Int(5))), "what is left");
    is_journal(rt, alloc, &kept.journal.entries);
}

// A run of PRINTING that is turned by hand.
#[test]
fn keeps(rt: HostRuntime) {
    let alloc = rt.alloc();
    let mut world = world(&rt, alloc, PRINTING, 7);
    holds(
        &rt,
        turn_on(alloc, &mut world) == Some(End::Done),
        "the end",
    );
    let (code, kept) = world.finish().ok().expect(&rt, "an end");
    drop(code);
    is_printed(&rt, alloc, &kept);
    drop(kept);
}

// One turn of a run that has fuel for one. Then there is one event, of strand 0, and the run goes on with all it needs.
fn turns_once(rt: &impl Abort, alloc: Global, world: &mut World) {
    let is_not_ready = matches!(world.turn(alloc, 1), Turned::NotReady);
    let next = world.next(0);
    let acted = matches!(world.turn(alloc, 0), Turned::Acted);
    let events = (world.events(), world.last(), world.end(), world.lost());
    holds(
        rt,
        (is_not_ready, next, acted) == (true, Some(0), true),
        "one turn",
    );
    holds(rt, events == (1, 0, None, false), "after one turn");
}

// Its end.
fn is_spent(rt: &impl Abort, alloc: Global, world: &mut World) {
    let end = over(world.turn(alloc, 0));
    let length = world.code().list.items.len();
    holds(
        rt,
        (end, world.next(0), length) == (Some(End::Spent), None, 10),
        "its end",
    );
}

// After one turn a run is not finished.
#[test]
fn turns(rt: HostRuntime) {
    let alloc = rt.alloc();
    let mut world = world(&rt, alloc, ENDLESS, 1);
    turns_once(&rt, alloc, &mut world);
    let mut world = world.finish().err().expect(&rt, "a run that goes on");
    is_spent(&rt, alloc, &mut world);
    drop(world);
}

// The end of a run whose only strand has to wait is set with the event before the wait.
#[test]
fn halts(rt: HostRuntime) {
    let alloc = rt.alloc();
    let mut world = world(&rt, alloc, HALTED, 9);
    let made = matches!(world.turn(alloc, 0), Turned::Acted);
    holds(&rt, (made, world.end()) == (true, None), "a semaphore");
    let counted = matches!(world.turn(alloc, 0), Turned::Acted);
    let end = (world.end(), world.next(0));
    holds(
        &rt,
        (counted, end) == (true, (Some(End::AllHalted), None)),
        "its count",
    );
    holds(
        &rt,
        over(world.turn(alloc, 0)) == Some(End::AllHalted),
        "the end",
    );
    drop(world);
}

// Takes what may go to another thread.
fn sent<T: Send>(value: T) -> T {
    value
}

#[test]
fn goes_to_another_thread(rt: HostRuntime) {
    let world = sent(world(&rt, rt.alloc(), "End", 1));
    holds(&rt, world.events() == 0, "no events");
    drop(world);
}
