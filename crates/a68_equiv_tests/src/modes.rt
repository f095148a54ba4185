//! The standard modes, and nodes more.
use crate::nodes::{add, modes_of};
use crate::table::holds;
use a68_modes::{Modes, Shape};
use std::alloc::Global;
use std::panic::Expect;
use std::process::Abort;

/// Node 15 is REF STRING, and 16 a mode word that stands for it.
const MORE: &str = "\
REF 12
WORD
16 IS 15
";

// REF INT is plain, STRING and VOID are not; VOID alone is VOID.
fn are_plain_and_void(rt: &impl Abort, modes: &Modes) {
    holds(rt, modes.is_plain(9), "REF INT is plain");
    holds(rt, !modes.is_plain(12), "STRING is not plain");
    holds(rt, !modes.is_plain(0), "VOID is not plain");
    holds(rt, !modes.is_void(9), "REF INT is not VOID");
    holds(rt, !modes.is_void(12), "STRING is not VOID");
    holds(rt, modes.is_void(0), "VOID is VOID");
}

// The shape is the union of what can be printed.
fn is_what_prints(rt: &impl Abort, alloc: Global, shape: &Shape) {
    let parts = shape.parts(alloc).expect(rt, "memory");
    let members = [1, 13, 2, 3, 4, 7, 6];
    holds(
        rt,
        parts.items.as_slice() == members.as_slice(),
        "the union",
    );
}

// The printed modes, REF STRING and the mode word are as they were.
fn are_copied(rt: &impl Abort, alloc: Global, copy: &Modes) {
    holds(rt, copy.len() == 17, "17 modes");
    holds(rt, matches!(copy.shape(10), Shape::Ref(12)), "REF STRING");
    holds(rt, matches!(copy.shape(16), Shape::Same(15)), "the word");
    is_what_prints(rt, alloc, copy.shape(8));
}

#[test]
fn nodes(rt: HostRuntime) {
    let alloc = rt.alloc();
    let modes = modes_of(&rt, alloc, MORE);
    let copy = modes.copy(alloc).expect(&rt, "memory");
    drop(modes);
    are_copied(&rt, alloc, &copy);
    are_plain_and_void(&rt, &copy);
    drop(copy);
}

#[test]
fn numbers(rt: HostRuntime) {
    let alloc = rt.alloc();
    let mut modes = Modes::new(alloc).expect(&rt, "memory");
    holds(&rt, modes.len() == 15, "15 standard modes");
    let id = add(&rt, alloc, &mut modes, Shape::Ref(12));
    holds(&rt, id == 15, "a new mode");
    add(&rt, alloc, &mut modes, Shape::Int);
    drop(modes);
}
