//! Codes by their instructions in words: a name and at most two numbers each, with commas between. A Case and a Fork have any
//! number of them, a Goto four, a Member its mode and then its places, the last of them for none, and a Routine of scope 0 has - for
//! its second number. A Member that leaves the united values is called United, and one that tells of a member more than it has
//! places for is called Excess. Text is no instruction but the entrance of a routine text, with 1 where its body leaves a
//! value.
use a68_base::find;
use a68_code::{Code, Does, Instr, Instrs, Places, RoutineEntrance, Routines};
use a68_modes::{Modes, Shape};
use a68_values::{Plain, Value};
use a68_values_tests::modes::{INT, POINT, add, add_structure};
use std::alloc::Global;

// The names of instructions.
#[derive(Clone, Copy)]
enum InstrName {
    Push,
    Skip,
    Tag,
    Enter,
    Leave,
    Bind,
    Make,
    Deref,
    Store,
    Apply,
    Drop,
    Print,
    Jump,
    Unless,
    Counter,
    Step,
    Turn,
    Advance,
    Forget,
    Index,
    Nil,
    Heap,
    Same,
    Compose,
    Select,
    Unite,
    Whole,
    Call,
    Return,
    Close,
    End,
}

const INSTR_NAMES: &[(&str, InstrName)] = &[
    ("Push", InstrName::Push),
    ("Skip", InstrName::Skip),
    ("Tag", InstrName::Tag),
    ("Enter", InstrName::Enter),
    ("Leave", InstrName::Leave),
    ("Bind", InstrName::Bind),
    ("Make", InstrName::Make),
    ("Deref", InstrName::Deref),
    ("Store", InstrName::Store),
    ("Apply", InstrName::Apply),
    ("Drop", InstrName::Drop),
    ("Print", InstrName::Print),
    ("Jump", InstrName::Jump),
    ("Unless", InstrName::Unless),
    ("Counter", InstrName::Counter),
    ("Step", InstrName::Step),
    ("Turn", InstrName::Turn),
    ("Advance", InstrName::Advance),
    ("Forget", InstrName::Forget),
    ("Index", InstrName::Index),
    ("Nil", InstrName::Nil),
    ("Heap", InstrName::Heap),
    ("Same", InstrName::Same),
    ("Compose", InstrName::Compose),
    ("Select", InstrName::Select),
    ("Unite", InstrName::Unite),
    ("Whole", InstrName::Whole),
    ("Call", InstrName::Call),
    ("Return", InstrName::Return),
    ("Close", InstrName::Close),
    ("End", InstrName::End),
];

fn instruction(form: InstrName, one: u32, two: u32) -> Does {
    match form {
        InstrName::Push => Does::Push(Value::of(Plain::Int(one as i64))),
        InstrName::Skip => Does::Skip(one),
        InstrName::Tag => Does::Tag {
            hops: one,
            slot: two,
        },
        InstrName::Enter => Does::Enter(one),
        InstrName::Leave => Does::Leave(one),
        InstrName::Bind => Does::Bind(one),
        InstrName::Make => Does::Make {
            mode: one,
            bounds: two,
        },
        InstrName::Deref => Does::Deref(one),
        InstrName::Store => Does::Store(one),
        InstrName::Apply => Does::Apply(one),
        InstrName::Drop => Does::Drop,
        InstrName::Print => Does::Print(one),
        InstrName::Jump => Does::Jump(one),
        InstrName::Unless => Does::Unless(one),
        InstrName::Counter => Does::Counter,
        InstrName::Step => Does::Step(one),
        InstrName::Turn => Does::Turn,
        InstrName::Advance => Does::Advance(one),
        InstrName::Forget => Does::Forget,
        InstrName::Index => Does::Index,
        InstrName::Nil => Does::Nil,
        InstrName::Heap => Does::Heap {
            mode: one,
            bounds: two,
        },
        InstrName::Same => Does::Same(one),
        InstrName::Compose => Does::Compose(one),
        InstrName::Select => Does::Select {
            mode: one,
            field: two,
        },
        InstrName::Unite => Does::Unite(one),
        InstrName::Whole => Does::Whole,
        InstrName::Call => Does::Call {
            count: one,
            gives: two == 1,
        },
        InstrName::Return => Does::Return,
        InstrName::Close => Does::Close,
        InstrName::End => Does::End,
    }
}

// A word and what stands behind it, 0 where nothing does.
fn apart(text: &str) -> (&str, &str) {
    text.split_once(' ').unwrap_or((text, "0"))
}

fn number(word: &str) -> Option<u32> {
    word.parse().ok()
}

fn places(alloc: Global, numbers: &str) -> Option<Places> {
    let mut items = Vec::new(alloc);
    for word in numbers.split(' ') {
        items.push(number(word)?).ok()?;
    }
    Some(Places { items })
}

// A Member of these numbers, the first of which is its mode, which leaves what is united in values, or with 1 the united ones. It
// says so of each member that it has a place for, and of so many more.
fn member(alloc: Global, numbers: &str, kept: u32, more: usize) -> Option<Does> {
    let (mode, rest) = apart(numbers);
    let mode = number(mode)?;
    let places = places(alloc, rest)?;
    let members = places.items.len().checked_sub(1)?.checked_add(more)?;
    let items = vec![in alloc; kept; members].ok()?;
    Some(Does::Member {
        mode,
        places,
        whole: Places { items },
    })
}

// A Routine of these numbers, the second of which is - where it has scope 0.
fn routine(numbers: &str) -> Option<Does> {
    let (text, distance) = apart(numbers);
    let text = number(text)?;
    let distance = if distance == "-" {
        None
    } else {
        Some(number(distance)?)
    };
    Some(Does::Routine { text, distance })
}

// A Goto of these numbers: its place, frames, height, and 1 where a value is counted.
fn goto(numbers: &str) -> Option<Does> {
    let (to, rest) = apart(numbers);
    let (frames, rest) = apart(rest);
    let (height, gives) = apart(rest);
    Some(Does::Goto {
        to: number(to)?,
        frames: number(frames)?,
        height: number(height)?,
        gives: gives == "1",
    })
}

// A number that is left out is 0.
fn does(alloc: Global, op: &str) -> Option<Does> {
    let (name, numbers) = apart(op);
    match name {
        "Case" => Some(Does::Case(places(alloc, numbers)?)),
        "Fork" => Some(Does::Fork(places(alloc, numbers)?)),
        "Member" => member(alloc, numbers, 0, 0),
        "United" => member(alloc, numbers, 1, 0),
        "Excess" => member(alloc, numbers, 0, 1),
        "Routine" => routine(numbers),
        "Goto" => goto(numbers),
        _ => {
            let (one, two) = apart(numbers);
            let form = find(INSTR_NAMES, name.as_bytes())?;
            Some(instruction(form, number(one)?, number(two)?))
        }
    }
}

// The entrance of a routine text, of which these numbers tell.
fn entrance(numbers: &str) -> Option<RoutineEntrance> {
    let (at, yields) = apart(numbers);
    Some(RoutineEntrance {
        at: number(at)?,
        yields: yields == "1",
    })
}

fn texts(alloc: Global, ops: &str) -> Option<Routines> {
    let mut items = Vec::new(alloc);
    for op in ops.split(',') {
        if let Some(numbers) = op.trim().strip_prefix("Text ") {
            items.push(entrance(numbers)?).ok()?;
        }
    }
    Some(Routines { items })
}

fn instructions(alloc: Global, ops: &str) -> Option<Instrs> {
    let mut items = Vec::new(alloc);
    let mut place = 0u32;
    for op in ops.split(',') {
        let op = op.trim();
        if !op.is_empty() && !op.starts_with("Text ") {
            let does = does(alloc, op)?;
            items.push(Instr { place, does }).ok()?;
            place = place.saturating_add(1);
        }
    }
    Some(Instrs { items })
}

/// The standard modes; behind them 15 is STRUCT (INT x, y), and 16 REF 15. None where memory runs out.
pub fn modes_with_pair(alloc: Global) -> Option<Modes> {
    let mut modes = Modes::new(alloc).ok()?;
    add_structure(alloc, &mut modes, &[INT, INT])?;
    add(alloc, &mut modes, Shape::Ref(POINT))?;
    Some(modes)
}

/// The code of these instructions over the standard modes. The number of an instruction is its place. None where the words
/// are no instructions, or where memory runs out.
pub fn code_of(alloc: Global, ops: &str) -> Option<Code> {
    let modes = Modes::new(alloc).ok()?;
    code_over(alloc, modes, ops)
}

/// The same over these modes.
pub fn code_over(alloc: Global, modes: Modes, ops: &str) -> Option<Code> {
    let list = instructions(alloc, ops)?;
    let texts = texts(alloc, ops)?;
    let units = Places {
        items: Vec::new(alloc),
    };
    Some(Code {
        list,
        texts,
        units,
        modes,
    })
}
