//! The instructions of small programs, by hand from the definition of the listing, and programs that are refused.
use crate::annot::note;
use crate::table::{agrees, cut, holds, number};
use crate::trees::tree_of;
use a68_annot::{Annotated, Notes};
use a68_check::annotate;
use a68_code::{Code, Does, Instr};
use a68_gen::generate;
use a68_modes::Modes;
use a68_values::{Plain, Value, ValueNode};
use std::alloc::Global;
use std::panic::Expect;
use std::process::Abort;

/// The nodes of BEGIN print(1) END.
const PRINTING: &str = "\
Closed 0 18 0 1
Serial 6 14 0 2
Call 6 14 0 3 4
Tag 6 11 0
Denotation 12 13 1
";

fn is_one(value: &Value) -> bool {
    matches!(value.node, ValueNode::Plain(Plain::Int(1)))
}

// The instructions in words.
fn name(does: &Does) -> &'static str {
    match does {
        Does::Push(value) if is_one(value) => "push 1",
        Does::Unite(1) => "unite 1",
        Does::Print(1) => "print 1",
        Does::End => "end",
        _ => "another",
    }
}

// The instruction stands for the place, and does what the words say, that are told.
fn is_as_told(rt: &impl Abort, instr: &Instr, told: &str) {
    let (place, words) = cut(rt, told, " ");
    holds(rt, instr.place == number(rt, place), told);
    agrees(rt, name(&instr.does), words, told);
}

// The listing of the program.
fn are_as_told(rt: &impl Abort, list: &[Instr]) {
    holds(rt, list.len() == 4, "four instructions");
    is_as_told(rt, &list[0], "12 push 1");
    is_as_told(rt, &list[1], "12 unite 1");
    is_as_told(rt, &list[2], "6 print 1");
    is_as_told(rt, &list[3], "0 end");
}

#[test]
fn print_of_a_number(rt: HostRuntime) {
    let alloc = rt.alloc();
    let tree = tree_of(&rt, alloc, PRINTING, "print 1");
    let program = annotate(alloc, tree).expect(&rt, "a program");
    let code = generate(alloc, &program).expect(&rt, "code");
    drop(program);
    are_as_told(&rt, &code.list.items);
    drop(code);
}

/// The nodes of BEGIN SKIP END.
const SKIPPING: &str = "\
Closed 0 14 0 1
Serial 6 10 0 2
Skip 6 10 0
";

/// The nodes of BEGIN SKIP; GOTO a; GOTO b END, the later jump first.
const JUMPING: &str = "\
Closed 0 30 0 1
Serial 6 26 0 4 3 2
GoTo 20 26 0
GoTo 12 18 0
Skip 6 10 0
";

// A program of these nodes, where no value is asked of any.
fn program(rt: &impl Abort, alloc: Global, lines: &str) -> Annotated {
    let tree = tree_of(rt, alloc, lines, "x");
    let modes = Modes::new(alloc).expect(rt, "memory");
    let mut items = Vec::new(alloc);
    for _ in 0..tree.len() {
        items.push(note(alloc, 0)).expect(rt, "memory");
    }
    holds(rt, items.len() == tree.len() as usize, "a note each");
    Annotated {
        tree,
        modes,
        notes: Notes { items },
    }
}

#[test]
fn skips_run(rt: HostRuntime) {
    let alloc = rt.alloc();
    let program = program(&rt, alloc, SKIPPING);
    let code = generate(alloc, &program).expect(&rt, "code");
    drop(program);
    holds(&rt, code.list.items.len() == 2, "a skip and the end");
    drop(code);
}

// The instructions of what does not fit: NIL is not widened.
fn is_misfit(rt: &impl Abort, list: &[Instr], place: u32) {
    holds(rt, list.len() == 3, "three instructions");
    holds(rt, list[0].place == place, "where the node begins");
    holds(rt, matches!(list[0].does, Does::Nil), "NIL");
    holds(rt, matches!(list[1].does, Does::Widen), "that is widened");
    holds(rt, matches!(list[2].does, Does::Drop), "and dropped");
}

#[test]
fn jumps_do_not_fit(rt: HostRuntime) {
    let alloc = rt.alloc();
    let program = program(&rt, alloc, JUMPING);
    let code = generate(alloc, &program).expect(&rt, "code");
    drop(program);
    let list = &code.list.items;
    holds(&rt, list.len() == 8, "a skip, two jumps and the end");
    is_misfit(&rt, &list[1..4], 12);
    is_misfit(&rt, &list[4..7], 20);
    drop(code);
}
