//! Strands of small codes, told their replies by hand.
ghost use Rattle.std.specs.Prelude.{◌≡◌, IsTrue};
ghost use Rattle.a68_stack.specs.Room.{has_room};
ghost use Rattle.a68_instructions.specs.Room.{brings_room};
ghost use Rattle.a68_strand.specs.Strands.{wants};

use crate::table::{agrees, cut, holds};
use a68_acts::Reply;
use a68_base::find;
use a68_code::Code;
use a68_code_tests::{code_of, code_over, modes_with_pair};
use a68_exec::Rooms;
use a68_instructions::{Ask, PlainReply};
use a68_rules_tests::act;
use a68_strand::Strand;
use a68_values::{Chain, Environ, Held, Name, Plain};
use std::alloc::Global;
use std::panic::Expect;
use std::process::Abort;
use std::string::String;

// The outermost frame.
const STANDARD: Environ = Environ { frame: 0, scope: 0 };

// A strand at the beginning of a code.
fn begun(rt: &impl Abort, alloc: Global, code: &Code) -> Strand {
    holds(rt, code.list.items.len() < 100, "a short code");
    let chain = Chain::of_one(alloc, STANDARD).expect(rt, "memory");
    let rooms = Rooms::of(alloc, &[], code.list.items.len() as u32).expect(rt, "memory");
    let strand = Strand::begin(alloc, code, &rooms, 0, 0, chain).expect(rt, "memory");
    drop(rooms);
    strand
}

// Whether a strand asks what is told.
fn asks(rt: &impl Abort, alloc: Global, strand: &Strand, told: &str) {
    let asked = match strand.ask() {
        Ask::Want(want) => act(alloc, want).expect(rt, "memory"),
        Ask::Fault { kind, place } => {
            format!(in alloc; "{kind:?} at {place}").expect(rt, "memory")
        }
        Ask::Ended => String::from_str(alloc, "End").expect(rt, "memory"),
        _ => String::from_str(alloc, "another").expect(rt, "memory"),
    };
    agrees(rt, &asked, told, told);
    drop(asked);
}

fn wants_a_reply(strand: &Strand) -> bool
    ensures { IsTrue result → IsTrue (wants strand.now.about.ask) }
{
    matches!(strand.ask(), Ask::Want(_))
}

const NAME: Name = Name { cell: 7, scope: 1 };

// The frames behind a new one.
fn frames(rt: &impl Abort, alloc: Global) -> Chain
    ensures { IsTrue (has_room result) }
{
    let items = vec![in alloc; Environ { frame: 1, scope: 1 }, STANDARD].expect(rt, "memory");
    Chain::outwards(items)
}

// The words for replies.
#[derive(Clone, Copy)]
enum Told {
    Name,
    Done,
    Frame,
    Base,
    Held,
    Go,
}

const TOLD: &[(&str, Told)] = &[
    ("Name", Told::Name),
    ("Done", Told::Done),
    ("Frame", Told::Frame),
    ("Base", Told::Base),
    ("Held", Told::Held),
    ("Go", Told::Go),
];

fn reply(rt: &impl Abort, alloc: Global, told: Told) -> Reply
    ensures { IsTrue (brings_room result) }
{
    match told {
        Told::Frame => Reply::Frame(frames(rt, alloc)),
        Told::Base => Reply::Base(7),
        Told::Held => Reply::Held(Held::Plain(Plain::Int(5))),
        _ => Reply::Go,
    }
}

// Tells a strand a reply, some as plain ones.
fn tell(rt: &impl Abort, alloc: Global, code: &Code, strand: &mut Strand, told: &str) {
    holds(rt, code.list.items.len() < 100, "a short code");
    holds(rt, wants_a_reply(strand), "a strand that wants a reply");
    let told = find(TOLD, told.as_bytes()).expect(rt, "a reply");
    let done = match told {
        Told::Name => strand.told_plain(alloc, code, PlainReply::Value(Plain::Name(NAME))),
        Told::Done => strand.told_plain(alloc, code, PlainReply::Go),
        _ => strand.told(alloc, code, reply(rt, alloc, told)),
    };
    done.expect(rt, "memory");
}

// Whether a strand asks for each act, and comes to this end when it was told the reply to each.
fn goes_on(
    rt: &impl Abort,
    alloc: Global,
    code: &Code,
    strand: &mut Strand,
    acts: &str,
    end: &str,
) {
    for line in acts.lines() {
        let (act, told) = cut(rt, line, " = ");
        asks(rt, alloc, strand, act);
        tell(rt, alloc, code, strand, told);
    }
    asks(rt, alloc, strand, end);
}

// The same for a strand at the beginning of a code.
fn run(rt: &impl Abort, alloc: Global, ops: &str, acts: &str, end: &str) {
    let code = code_of(alloc, ops).expect(rt, "a code");
    let mut strand = begun(rt, alloc, &code);
    goes_on(rt, alloc, &code, &mut strand, acts, end);
    drop(strand);
    drop(code);
}

#[test]
fn prints(rt: HostRuntime) {
    let alloc = rt.alloc();
    let code = code_of(alloc, "Push 3, Print 1, End").expect(&rt, "a code");
    let mut strand = begun(&rt, alloc, &code);
    holds(&rt, strand.number() == 0, "the first strand");
    holds(&rt, strand.place() == 1, "where it begins");
    let acts = "Print \"                  +3\" = Go";
    goes_on(&rt, alloc, &code, &mut strand, acts, "End");
    let has_one = strand.chain().inwards() == [STANDARD].as_slice();
    holds(&rt, has_one, "the frame where it ends");
    holds(&rt, !strand.spent(), "memory");
    drop(strand);
    drop(code);
}

/// BEGIN INT x := 5; print(x) END
const PRINTING: &str =
    "Enter 1, Make 1 0, Push 5, Store 1, Bind 0, Tag 0 0, Deref 1, Print 1, Leave 0, End";

/// The acts for which it asks, and the reply to each.
const ACTS: &str = "\
Enter 0 1 1 = Frame
Make 1 = Base
Assign 7 Int(5) = Go
Bind 1 0 Name(Name { cell: 7, scope: 1 }) = Go
Look 1 0 = Name
Fetch 7 = Held
Print \"                  +5\" = Done
";

#[test]
fn goes_on_with_replies(rt: HostRuntime) {
    run(&rt, rt.alloc(), PRINTING, ACTS, "End");
}

// A reply of another kind than the one that is waited for.
#[test]
fn meets_kind(rt: HostRuntime) {
    let ops = "Skip 0, Tag 0 0, End";
    run(&rt, rt.alloc(), ops, "Look 0 0 = Go", "Kind at 1");
}

/// print((NIL IS NIL, 97 < 100, whole (7, 0))), each item united.
const UNITED: &str =
    "Nil, Nil, Same 0, Unite 2, Push 97, Push 100, Apply 11, Unite 2, Push 7, Push 0, Whole, Unite 7, Print 3, End";

const ITEMS: &str = "\
Print \"T\" = Go
Print \"T\" = Done
Print \"7\" = Go
";

#[test]
fn prints_united_items(rt: HostRuntime) {
    run(&rt, rt.alloc(), UNITED, ITEMS, "End");
}

/// A new name of scope 0, which is no NIL.
const IN_HEAP: &str = "Heap 1 0, Nil, Same 1, Unite 2, Print 1, End";

const MADE: &str = "\
Make 1 = Base
Print \"T\" = Go
";

#[test]
fn makes_names_that_stay(rt: HostRuntime) {
    run(&rt, rt.alloc(), IN_HEAP, MADE, "End");
}

// An operator meets its own fault, at its own place.
#[test]
fn meets_the_fault_of_an_operator(rt: HostRuntime) {
    run(
        &rt,
        rt.alloc(),
        "Push 1, Push 0, Apply 18, Drop, End",
        "",
        "Divisor at 2",
    );
}

/// A name of a cell that holds 5 is given 8, and then its 5 less 6.
const UPDATED: &str = "\
Make 1 = Base
Fetch 7 = Held
Assign 7 Int(8) = Done
Fetch 7 = Held
Assign 7 Int(-1) = Go
";

// An operator that is combined with assignation fetches, and then assigns.
#[test]
fn updates(rt: HostRuntime) {
    let ops = "Make 1 0, Push 3, Apply 1, Push 6, Apply 2, Drop, End";
    run(&rt, rt.alloc(), ops, UPDATED, "End");
}

// It meets its fault at its own place.
#[test]
fn meets_the_fault_of_an_update(rt: HostRuntime) {
    run(
        &rt,
        rt.alloc(),
        "Make 1 0, Push 0, Apply 5, Drop, End",
        "Make 1 = Base\nFetch 7 = Held\n",
        "Divisor at 2",
    );
}

/// A jump out of a frame and of an operand. Behind the label a slot of the frame about that is looked at in which the strand then stands.
const JUMPING: &str =
    "Enter 1, Push 4, Bind 0, Enter 1, Push 7, Goto 8 1 0, Drop, Leave 0, Tag 1 0, Drop, Leave 0, End";

const JUMPED: &str = "\
Enter 0 1 1 = Frame
Bind 1 0 Int(4) = Go
Enter 1 2 1 = Frame
Turn = Go
Look 0 0 = Name
";

// The inner frame is told as frame 1 again.
#[test]
fn jumps_out_of_a_frame(rt: HostRuntime) {
    let alloc = rt.alloc();
    run(&rt, alloc, JUMPING, JUMPED, "End");
}

// A jump waits for its turn where it stands, with what it leaves; another reply meets Kind, as do too few frames before the turn.
#[test]
fn jumps_by_a_turn(rt: HostRuntime) {
    let alloc = rt.alloc();
    run(&rt, alloc, "Goto 1, End", "Turn = Done", "End");
    run(
        &rt,
        alloc,
        "Skip 0, Goto 1, End",
        "Turn = Go\nTurn = Done\nTurn = Base",
        "Kind at 1",
    );
    run(&rt, alloc, "Goto 1 1, End", "Turn = Go", "End");
    run(&rt, alloc, "Goto 1 2, End", "", "Kind at 0");
    run(&rt, alloc, "Goto 1 0 1, End", "", "Kind at 0");
}

/// A call with two parameters: its frame within frame 0, of scope 1, with a slot for each; the second parameter is the
/// yield.
const CALLING: &str =
    "Text 6 1, Routine 0 -, Push 5, Push 6, Call 2 1, Print 1, End, Tag 0 1, Return";

const CALLED: &str = "\
Turn = Go
Enter 0 1 2 = Frame
Bind 1 0 Int(5) = Go
Bind 1 1 Int(6) = Done
Look 1 1 = Name
";

// What the name yields is newer than the caller's frame; so Return meets Scope at its own place.
#[test]
fn calls(rt: HostRuntime) {
    run(&rt, rt.alloc(), CALLING, CALLED, "Scope at 7");
}

/// A routine without parameters that yields a number.
const YIELDING: &str = "Text 4 1, Routine 0 -, Call 0 1, Print 1, End, Push 3, Return";

const YIELDED: &str = "\
Turn = Done
Enter 0 1 0 = Frame
Print \"                  +3\" = Go
";

#[test]
fn goes_back_with_a_value(rt: HostRuntime) {
    run(&rt, rt.alloc(), YIELDING, YIELDED, "End");
}

/// A routine within a routine: the caller's frame gives the scope, that of the text the frame about it.
const NESTED: &str =
    "Text 3 0, Text 6 0, Routine 0 -, Call 0 0, End, Routine 1 0, Call 0 0, Return, Skip 0, Return";

const ENTERED: &str = "\
Turn = Go
Enter 0 1 0 = Frame
Turn = Go
Enter 1 2 0 = Frame
";

#[test]
fn calls_within_a_call(rt: HostRuntime) {
    run(&rt, rt.alloc(), NESTED, ENTERED, "End");
}

// What is no routine is not called, nor one that yields just where nothing comes back.
#[test]
fn calls_no_other_value(rt: HostRuntime) {
    let alloc = rt.alloc();
    run(&rt, alloc, "Push 5, Call 0 0, End", "", "Kind at 1");
    run(&rt, alloc, "Skip 1, Call 0 0, End", "", "Unset at 1");
    let ops = "Text 3 0, Routine 0 -, Call 0 1, End, Return";
    run(&rt, alloc, ops, "", "Kind at 1");
}

// A run over the standard modes and STRUCT (INT x, y), which is 15; REF 15 is 16.
fn run_with_pair(rt: &impl Abort, alloc: Global, ops: &str, acts: &str, end: &str) {
    let modes = modes_with_pair(alloc).expect(rt, "modes");
    let code = code_over(alloc, modes, ops).expect(rt, "a code");
    let mut strand = begun(rt, alloc, &code);
    goes_on(rt, alloc, &code, &mut strand, acts, end);
    drop(strand);
    drop(code);
}

// The first value that was pushed is the first field.
#[test]
fn composes_and_selects(rt: HostRuntime) {
    let alloc = rt.alloc();
    let first = "Push 7, Push 9, Compose 2, Select 15 0, Print 1, End";
    let acts = "Print \"                  +7\" = Go";
    run_with_pair(&rt, alloc, first, acts, "End");
    let second = "Push 7, Push 9, Compose 2, Select 15 1, Print 1, End";
    let acts = "Print \"                  +9\" = Go";
    run_with_pair(&rt, alloc, second, acts, "End");
}

/// A structure of two cells is assigned and fetched, field by field; each cell is told to hold 5.
const ASSIGNED: &str =
    "Make 15 0, Push 7, Push 9, Compose 2, Store 15, Deref 15, Select 15 1, Print 1, End";

const FIELDS: &str = "\
Make 2 = Base
Assign 7 Int(7) = Go
Assign 8 Int(9) = Go
Fetch 7 = Held
Fetch 8 = Held
Print \"                  +5\" = Go
";

#[test]
fn stores_and_fetches_structures(rt: HostRuntime) {
    run_with_pair(&rt, rt.alloc(), ASSIGNED, FIELDS, "End");
}

/// The name of the second field is that of the cell behind the first one.
const NAMED: &str = "Make 15 0, Select 16 1, Deref 1, Print 1, End";

const FETCHED: &str = "\
Make 2 = Base
Fetch 8 = Held
Print \"                  +5\" = Go
";

#[test]
fn selects_names(rt: HostRuntime) {
    run_with_pair(&rt, rt.alloc(), NAMED, FETCHED, "End");
}

// Nothing is selected from what is no structure, nor a field that is not there.
#[test]
fn selects_nothing_else(rt: HostRuntime) {
    let alloc = rt.alloc();
    run_with_pair(
        &rt,
        alloc,
        "Push 5, Select 15 0, Drop, End",
        "",
        "Kind at 1",
    );
    run_with_pair(
        &rt,
        alloc,
        "Skip 1, Select 16 0, Drop, End",
        "",
        "Unset at 1",
    );
    run_with_pair(&rt, alloc, "Nil, Select 16 0, Drop, End", "", "Nil at 1");
    run_with_pair(
        &rt,
        alloc,
        "Skip 15, Select 15 2, Drop, End",
        "",
        "Kind at 1",
    );
}
