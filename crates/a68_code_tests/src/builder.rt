//! Codes that are built instruction by instruction.
ghost use Rattle.std.specs.Prelude.{IsTrue, ◌<◌};
ghost use Rattle.a68_builder.specs.Aiming.{names_at};

use crate::codes::code_of;
use crate::table::holds;
use a68_builder::Builder;
use a68_code::{Code, Does, Instr, Places, Routines};
use a68_modes::Modes;
use std::alloc::Global;
use std::panic::Expect;
use std::process::Abort;

/// The entrances of the units of each code, in order.
const UNITS: &[u32] = &[0, 2, 1];

/// Instructions, which instruction is given a place, by its number and that of the place in it, the place, and the
/// instructions then. The others stay as they are. A Fork is given the number of a unit, and names its entrance then.
const PATCHES: &[(&str, u32, u32, u32, &str)] = &[
    ("Push 7, Unless 0, End", 1, 0, 2, "Push 7, Unless 2, End"),
    ("Jump 0, Jump 0, End", 0, 0, 2, "Jump 2, Jump 0, End"),
    (
        "Push 7, Case 0 0 0, End",
        1,
        1,
        2,
        "Push 7, Case 0 2 0, End",
    ),
    (
        "Step 0, Turn, Advance 0, End",
        0,
        0,
        3,
        "Step 3, Turn, Advance 0, End",
    ),
    (
        "Step 0, Turn, Advance 5, End",
        2,
        0,
        0,
        "Step 0, Turn, Advance 0, End",
    ),
    ("Fork 0 0, End, Close", 0, 1, 1, "Fork 0 2, End, Close"),
    ("Goto 0 1 2 1, End", 0, 0, 1, "Goto 1 1 2 1, End"),
];

// A place that an instruction names, of a Case or a Fork the second one; 0 where it names none.
fn first_place(does: &Does) -> u32 {
    match does {
        Does::Jump(to) => *to,
        Does::Goto { to, .. } => *to,
        Does::Unless(to) => *to,
        Does::Step(to) => *to,
        Does::Advance(to) => *to,
        Does::Case(places) => places.items.get(1).copied().unwrap_or(0),
        Does::Fork(entrances) => entrances.items.get(1).copied().unwrap_or(0),
        _ => 0,
    }
}

fn built(rt: &impl Abort, alloc: Global, code: &Code, patch: (u32, u32, u32)) -> Code {
    let mut builder = Builder::new(alloc).expect(rt, "memory");
    for instr in &code.list.items {
        let copy: Instr = instr.copy(alloc).expect(rt, "memory");
        builder.emit(copy).ok().expect(rt, "memory");
    }
    let (at, which, to) = patch;
    holds(rt, (which as usize) < builder.names(at), "a place is named");
    builder.patch(at, which, to);
    let texts = Routines {
        items: Vec::new(alloc),
    };
    let units = Places {
        items: Vec::from_slice(alloc, UNITS).expect(rt, "memory"),
    };
    let modes = Modes::new(alloc).expect(rt, "memory");
    builder.finish(texts, units, modes)
}

fn agree(one: &Code, other: &Code) -> bool {
    let pairs = one.list.items.iter().zip(other.list.items.iter());
    one.list.items.len() == other.list.items.len()
        && pairs.into_iter().all(|pair| { first_place(&pair.0.does) == first_place(&pair.1.does) })
}

#[test]
fn patches(rt: HostRuntime) {
    let alloc = rt.alloc();
    for (ops, at, which, to, expected) in PATCHES {
        let given = code_of(alloc, ops).expect(&rt, "a code");
        let code = built(&rt, alloc, &given, (*at, *which, *to));
        let wanted = code_of(alloc, expected).expect(&rt, "a code");
        holds(&rt, agree(&code, &wanted), ops);
    }
}
