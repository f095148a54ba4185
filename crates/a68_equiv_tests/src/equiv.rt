//! Modes as programs declare them: which are equivalent, well formed and related.
ghost use Rattle.std.specs.Prelude.{◌≡◌, ◌<◌, ◌*◌, length};
ghost use Rattle.a68_equiv.specs.Classes.{AreKept};
ghost use Rattle.a68_equiv.specs.Ways.{AreWellFormed};

use crate::nodes::{mode_there, modes_of, parts_are_there, shape};
use crate::table::{agrees, cut, holds, number};
use a68_equiv::{Classes, Mode, all_well_formed, ill_formed, intern, related, settle};
use a68_modes::{ModeId, Modes};
use std::alloc::Global;
use std::panic::Expect;
use std::process::Abort;

/// MODE A = STRUCT (INT v, REF A n); MODE B = STRUCT (INT v, REF STRUCT (INT v, REF B n) n);
/// 23 STRUCT (INT n), 24 STRUCT (INT v); 25 UNION (BOOL, CHAR), 26 UNION (INT, 25), 27 UNION (CHAR, BOOL, INT);
/// 28 REF [] CHAR, 29 REF REF INT.
const DECLARED: &str = "\
WORD
REF 15
STRUCT 0 1 1 16
15 IS 17
WORD
REF 18
STRUCT 0 1 1 19
REF 20
STRUCT 0 1 1 21
18 IS 22
STRUCT 1 1
STRUCT 0 1
UNION 2 3
UNION 1 25
UNION 3 2 1
REF 7
REF 9
";

/// Which of them, and of the standard modes, are equivalent; a `f` takes FLEX away.
const EQUIVALENT: &str = "\
15 18: yes
15 1: no
23 24: no
26 27: yes
26 25: no
12 7: no
f12 7: yes
f10 10: yes
f10 28: no
9 29: no
7 11: no
";

/// The mode that a word names, which is there.
pub fn mode(rt: &impl Abort, modes: &Modes, word: &str) -> Mode
    ensures { result.id < length modes.now }
{
    match word.strip_prefix("f") {
        Some(id) => Mode::without_flex(mode_there(rt, modes, id)),
        None => Mode::as_it_stands(mode_there(rt, modes, word)),
    }
}

fn yes_or_no(is: bool) -> &'static str {
    if is { "yes" } else { "no" }
}

// Whether the modes of each line are equivalent as it says.
fn are_as_told(rt: &impl Abort, modes: &Modes, classes: &Classes, table: &str)
    requires { length classes.now.of ≡ 2 * length modes.now }
{
    for line in table.lines() {
        let (pair, want) = cut(rt, line, ": ");
        let (one, other) = cut(rt, pair, " ");
        let are = classes.are_same(mode(rt, modes, one), mode(rt, modes, other));
        agrees(rt, yes_or_no(are), want, pair);
    }
}

// A and B are one mode, and A is not INT.
fn are_same_modes(rt: &impl Abort, modes: &Modes, classes: &Classes)
    requires { length classes.now.of ≡ 2 * length modes.now }
{
    holds(rt, modes.len() > 18, "A and B");
    holds(rt, classes.same(15, 18), "A is B");
    holds(rt, !classes.same(15, 1), "A is not INT");
}

#[test]
fn equivalent_modes(rt: HostRuntime) {
    let (rt, alloc) = (&rt, rt.alloc());
    let modes = modes_of(rt, alloc, DECLARED);
    let classes = settle(alloc, &modes).expect(rt, "memory");
    are_same_modes(rt, &modes, &classes);
    are_as_told(rt, &modes, &classes, EQUIVALENT);
    drop(classes);
    drop(modes);
}

/// MODE A = PROC (A) A, B = PROC B, C = REF C, D = STRUCT (D v), E = STRUCT (INT v, REF STRUCT (INT v, REF E n) n)
const RECURSIVE: &str = "\
WORD
PROC 15 15
15 IS 16
WORD
PROC 17
17 IS 18
WORD
REF 19
19 IS 20
WORD
STRUCT 0 21
21 IS 22
WORD
REF 23
STRUCT 0 1 1 24
REF 25
STRUCT 0 1 1 26
23 IS 27
";

/// Modes, and the place of each in a list of it alone, where it is not well formed.
const FORMED: &[(&str, Option<u32>)] = &[
    ("15", None),
    ("17", Some(0)),
    ("19", Some(0)),
    ("21", Some(0)),
    ("23", None),
];

fn are_formed(rt: &impl Abort, alloc: Global, modes: &Modes) {
    for (mode, place) in FORMED {
        let list = [mode_there(rt, modes, mode)];
        let found = ill_formed(alloc, modes, &list).expect(rt, "memory");
        holds(rt, found == *place, mode);
    }
}

// The third of INT, A and C is not well formed.
fn are_not_all_formed(rt: &impl Abort, alloc: Global, modes: &Modes) {
    holds(rt, modes.len() == 28, "28 modes");
    let fault = ill_formed(alloc, modes, &[1, 15, 19]).expect(rt, "memory");
    holds(rt, fault == Some(2), "C is not well formed");
    let all = all_well_formed(alloc, modes).expect(rt, "memory");
    holds(rt, !all, "not all are well formed");
}

#[test]
fn formed_modes(rt: HostRuntime) {
    let (rt, alloc) = (&rt, rt.alloc());
    let modes = modes_of(rt, alloc, RECURSIVE);
    are_not_all_formed(rt, alloc, &modes);
    are_formed(rt, alloc, &modes);
    drop(modes);
}

/// 15 PROC INT, 16 UNION (INT, BOOL), 17 UNION (SEMA, REF INT), 18 PROC (INT) INT, 19 UNION (SEMA, UNION (INT, BOOL))
const BESIDE: &str = "\
PROC 1
UNION 1 2
UNION 5 9
PROC 1 1
UNION 5 16
";

/// Which of them, and of the standard modes, are related.
const RELATED: &str = "\
9 1: yes
1 9: yes
1 2: no
15 1: yes
15 9: no
18 1: no
16 2: yes
16 17: yes
17 2: no
10 7: yes
10 12: no
19 9: yes
19 3: no
";

// Whether the modes of each line are related as it says.
fn are_related(rt: &impl Abort, alloc: Global, modes: &Modes, classes: &Classes)
    requires formed { AreWellFormed modes.now }
    requires kept { AreKept modes.now classes.now }
{
    for line in RELATED.lines() {
        let (pair, want) = cut(rt, line, ": ");
        let (one, other) = cut(rt, pair, " ");
        let one = mode_there(rt, modes, one);
        let other = mode_there(rt, modes, other);
        let are = related(alloc, modes, classes, one, other).expect(rt, "memory");
        agrees(rt, yes_or_no(are), want, pair);
    }
}

/// The modes of this text, which are well formed.
pub fn formed(rt: &impl Abort, alloc: Global, text: &str) -> Modes
    ensures { AreWellFormed result }
{
    let modes = modes_of(rt, alloc, text);
    let formed = all_well_formed(alloc, &modes).expect(rt, "memory");
    holds(rt, formed, "all are well formed");
    modes
}

#[test]
fn related_modes(rt: HostRuntime) {
    let (rt, alloc) = (&rt, rt.alloc());
    let modes = formed(rt, alloc, BESIDE);
    let classes = settle(alloc, &modes).expect(rt, "memory");
    are_related(rt, alloc, &modes, &classes);
    drop(classes);
    drop(modes);
}

// The node of the shape of a line.
fn interned(
    rt: &impl Abort,
    alloc: Global,
    modes: &mut Modes,
    classes: &mut Classes,
    line: &str,
) -> ModeId
    requires formed { AreWellFormed modes.old }
    requires kept { AreKept modes.old classes.old }
    ensures formed { AreWellFormed modes.new }
    ensures kept { AreKept modes.new classes.new }
{
    let shape = shape(rt, alloc, line);
    parts_are_there(rt, alloc, modes, &shape);
    intern(alloc, modes, classes, shape).expect(rt, "a node")
}

/// 15 is A, by MODE A = STRUCT (INT v, REF A n); 16 REF A, 17 the structure; 18 is P, by MODE P = PROC (P) P; 19 the PROC
const FIRST: &str = "\
WORD
REF 15
STRUCT 0 1 1 16
15 IS 17
WORD
PROC 18 18
18 IS 19
";

/// Shapes, and the nodes that they get.
const INTERNED: &str = "\
REF 1 = 9
FLEX 1 3 = 12
UNION 6 7 13 4 3 2 1 = 8
STRUCT 0 1 1 16 = 15
REF 17 = 16
SAME 17 = 15
PROC 19 18 = 18
REF 7 = 20
FLEX 2 1 = 21
ROW 2 1 = 22
UNION 1 2 = 23
UNION 2 1 2 = 23
UNION 3 23 = 24
UNION 24 4 13 7 6 = 8
PROC 1 1 = 25
STRUCT 1 1 = 26
STRUCT 0 1 = 27
";

/// Which of the nodes are then equivalent.
const THEN_EQUIVALENT: &str = "\
f21 22: yes
21 22: no
26 27: no
";

// Whether each shape gets its node.
fn intern_all(rt: &impl Abort, alloc: Global, modes: &mut Modes, classes: &mut Classes)
    requires formed { AreWellFormed modes.old }
    requires kept { AreKept modes.old classes.old }
    ensures formed { AreWellFormed modes.new }
    ensures kept { AreKept modes.new classes.new }
{
    'rows: for line in INTERNED.lines() {
        let (made, want) = cut(rt, line, " = ");
        let id = interned(rt, alloc, modes, classes, made);
        holds(rt, id == number(rt, want), made);
    }
}

// The same shapes once more get the same nodes.
#[test]
fn interned_modes(rt: HostRuntime) {
    let (rt, alloc) = (&rt, rt.alloc());
    let mut modes = formed(rt, alloc, FIRST);
    let mut classes = settle(alloc, &modes).expect(rt, "memory");
    intern_all(rt, alloc, &mut modes, &mut classes);
    intern_all(rt, alloc, &mut modes, &mut classes);
    holds(rt, modes.len() == 28, "28 modes");
    are_as_told(rt, &modes, &classes, THEN_EQUIVALENT);
    drop(classes);
    drop(modes);
}
