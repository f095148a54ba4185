//! Coercions between modes, and balancing, by hand from the rules (Report, chapter 6 and 3.2.1).
ghost use Rattle.std.specs.Prelude.{length};
ghost use Rattle.std.specs.List.{All};
ghost use Rattle.a68_coerce.specs.Below.{IsLeafBelow};
ghost use Rattle.a68_equiv.specs.Classes.{AreExact};
ghost use Rattle.a68_equiv.specs.Dimensions.{HaveDimensions};
ghost use Rattle.a68_equiv.specs.Ways.{AreWellFormed};

use crate::equiv::{formed, mode};
use crate::nodes::mode_there;
use crate::table::{agrees, cut, holds, number};
use a68_base::find;
use a68_coerce::{Balanced, Leaf, ModeForm, balance, balance_sides, balance_to_form, path};
use a68_equiv::{Classes, all_have_dimensions, settle};
use a68_modes::{Coercion, Modes, Path, Sort};
use std::alloc::Global;
use std::panic::Expect;
use std::process::Abort;

/// 15 REF REF INT, 16 PROC INT, 17 REF PROC INT, 18 PROC REF INT; 19 [] INT, 20 [,] INT, 21 REF [] INT, 22 REF [,] INT;
/// 23 UNION (INT, BOOL), 24 UNION (INT, BOOL, CHAR); 25 STRUCT (INT a, BOOL b), 26 REF STRUCT, 27 [] STRUCT,
/// 28 REF [] STRUCT; 29 PROC (INT) INT, 30 REF PROC (INT) INT, 31 PROC VOID; 32 [,] BOOL, 33 UNION (REF INT, BOOL),
/// 34 FLEX [] INT, 35 REF FLEX [] INT, 36 UNION ([] INT, BOOL), 37 REF REF [] INT, 38 REF UNION (INT, BOOL),
/// 39 PROC [] INT, 40 REF BITS, 41 a word for 24, 42 UNION (UNION (INT, BOOL), CHAR), 43 [] [] INT
const DECLARED: &str = "\
REF 9
PROC 1
REF 16
PROC 9
ROW 1 1
ROW 2 1
REF 19
REF 20
UNION 1 2
UNION 1 2 3
STRUCT 0 1 1 2
REF 25
ROW 1 25
REF 27
PROC 1 1
REF 29
PROC 0
ROW 2 2
UNION 9 2
FLEX 1 1
REF 34
UNION 19 2
REF 21
REF 23
PROC 19
REF 4
WORD
UNION 23 3
ROW 1 19
41 IS 24
";

/// A sort, two modes, and the coercions from the one to the other; `none` where there are none.
const PATHS: &str = "\
soft 1 1:
soft 16 1: Deproc
soft 18 9: Deproc
soft 9 1: none
soft 18 1: none
soft 17 1: none
weak 9 1: Deref
weak 15 9: Deref
weak 21 21:
weak 21 19: none
weak 37 21: Deref
weak 39 19: Deproc
weak 26 25: none
weak 28 27: none
meek 26 25: Deref
meek 15 1: Deref Deref
meek 17 1: Deref Deproc
meek 18 1: Deproc Deref
meek 1 9: none
meek 29 1: none
meek 1 23: none
firm 1 23: Unite 1
firm 9 23: Deref Unite 1
firm 9 33: Unite 9
firm 15 33: Deref Unite 9
firm 23 24: Unite 23
firm 38 24: Deref Unite 23
firm 2 41: Unite 2
firm 24 42:
firm 42 41:
firm 24 23: none
firm 3 23: none
firm 1 19: none
firm 4 11: none
firm 9 21: none
strong 1 19: RowUp
strong 9 19: Deref RowUp
strong 1 20: RowUp RowUp
strong 19 20: RowUp
strong 1 43: RowUp RowUp
strong 19 43: RowUp
strong 26 27: Deref RowUp
strong 3 12: RowUp
strong 10 7: Deref
strong 4 11: Widen
strong 40 11: Deref Widen
strong 4 32: Widen RowUp
strong 9 21: RowUpName
strong 15 21: Deref RowUpName
strong 21 22: RowUpName
strong 9 22: none
strong 9 35: none
strong 21 35: none
strong 35 19: Deref
strong 1 0: Drop
strong 31 0: Drop
strong 0 0:
strong 1 23: Unite 1
strong 19 36: Unite 19
strong 1 36: none
strong 9 8: Deref Unite 1
strong 10 8: Deref Unite 7
meek 14 13: Deref
strong 14 8: Deref Unite 13
strong 13 0: Drop
strong 1 13: none
strong 9 13: none
strong 13 1: none
strong 1 2: none
";

/// A sort, a mode and the units of a choice by their modes, `S` for one in strong positions only; and which is balanced.
const BALANCED: &str = "\
soft 9 of 18 9: 0
soft 9 of 15 9: 1
meek 2 of S 2: 1
meek 1 of 9 16 1: 0
meek 2 of 9 2: none
weak 21 of 21 9: 0
firm 23 of 1 2: 0
firm 19 of 1 19: 1
firm 11 of 4 11: 1
firm 19 of 1 1: none
firm 1 of S S: none
firm 1 of: none
";

/// A sort, a form and the units of a choice; which is balanced, and its mode, `f` where FLEX is taken away.
const FORMED: &str = "\
weak row of 21: 0 21
weak row of 37: 0 f21
weak row of 39: 0 19
weak row of 35: 0 35
weak row of 9: none
weak row of 1 19: 1 19
weak row of 19 21: 0 19
weak row of 21 19: 1 19
weak structure of 26: 0 26
weak structure of 28: 0 28
weak structure of 19: none
meek routine of 30: 0 f29
meek routine of 16: none
meek union of 38: 0 f23
meek union of 1 23: 1 23
meek union of 1: none
soft name of 18: 0 9
soft name of S 9: 1 9
soft name of 15 9: 1 9
soft name of 16: none
soft name of S S: none
";

/// The units of one side of an identity relation, and those of the other; which of the first is balanced, and its mode.
const SIDES: &str = "\
9 is 9: 0 9
9 is 15: 0 9
15 is 9: none
18 is 9: 0 9
9 15 is S: 0 9
15 9 is 9: 1 9
9 is 1: none
1 is 9: none
S is 9: none
37 is 37: 0 37
21 is 9: 0 21
";

const SORTS: &[(&str, Sort)] = &[
    ("soft", Sort::Soft),
    ("weak", Sort::Weak),
    ("meek", Sort::Meek),
    ("firm", Sort::Firm),
    ("strong", Sort::Strong),
];

const FORMS: &[(&str, ModeForm)] = &[
    ("name", ModeForm::Name),
    ("row", ModeForm::Row),
    ("structure", ModeForm::Structure),
    ("routine", ModeForm::Routine),
    ("union", ModeForm::Union),
];

fn sort(rt: &impl Abort, word: &str) -> Sort {
    find(SORTS, word.as_bytes()).expect(rt, "a sort")
}

fn form(rt: &impl Abort, word: &str) -> ModeForm {
    find(FORMS, word.as_bytes()).expect(rt, "a form")
}

// The modes of these tests, whose rows have dimensions.
fn declared(rt: &impl Abort, alloc: Global) -> Modes
    ensures formed { AreWellFormed result }
    ensures rows { HaveDimensions result }
{
    let modes = formed(rt, alloc, DECLARED);
    holds(rt, all_have_dimensions(&modes), "all rows have dimensions");
    modes
}

fn name(coercion: &Coercion) -> &'static str {
    match coercion {
        Coercion::Deproc => "Deproc",
        Coercion::Deref => "Deref",
        Coercion::Unite(_) => "Unite",
        Coercion::Widen => "Widen",
        Coercion::RowUp => "RowUp",
        Coercion::RowUpName => "RowUpName",
        Coercion::Drop => "Drop",
    }
}

// The coercions are those of these words.
fn are_told(rt: &impl Abort, path: &Path, told: &str, case: &str) {
    let mut words = told.split_whitespace();
    for coercion in &path.items {
        let word = words.next().expect(rt, case);
        agrees(rt, name(coercion), word, case);
        if let Coercion::Unite(mode) = coercion {
            let word = words.next().expect(rt, case);
            holds(rt, *mode == number(rt, word), case);
        }
    }
    holds(rt, words.next().is_none(), case);
}

// The coercions from the one mode to the other are as the line says.
fn path_is_told(rt: &impl Abort, alloc: Global, modes: &Modes, classes: &Classes, case: &str)
    requires formed { AreWellFormed modes.now }
    requires rows { HaveDimensions modes.now }
    requires exact { AreExact modes.now classes.now.of }
{
    let (position, told) = cut(rt, case, ":");
    let (word, pair) = cut(rt, position, " ");
    let (from, to) = cut(rt, pair, " ");
    let from = mode_there(rt, modes, from);
    let to = mode_there(rt, modes, to);
    match path(alloc, modes, classes, sort(rt, word), from, to).expect(rt, "memory") {
        Some(found) => are_told(rt, &found, told, case),
        None => agrees(rt, " none", told, case),
    }
}

#[test]
fn paths(rt: HostRuntime) {
    let (rt, alloc) = (&rt, rt.alloc());
    let modes = declared(rt, alloc);
    let classes = settle(alloc, &modes).expect(rt, "memory");
    for case in PATHS.lines() {
        path_is_told(rt, alloc, &modes, &classes, case);
    }
    drop(classes);
    drop(modes);
}

// A unit of a mode, or S.
fn leaf(rt: &impl Abort, modes: &Modes, word: &str) -> Leaf
    ensures { IsLeafBelow (length modes.now) result }
{
    if word == "S" {
        Leaf::StrongOnly
    } else {
        Leaf::Mode(mode_there(rt, modes, word))
    }
}

fn leaves(rt: &impl Abort, alloc: Global, modes: &Modes, words: &str) -> Vec<Leaf>
    ensures { All (IsLeafBelow (length modes.now)) result.items }
{
    let mut leaves = Vec::new(alloc);
    for word in words.split_whitespace() {
        leaves.push(leaf(rt, modes, word)).expect(rt, "memory");
    }
    leaves
}

// The balanced unit is as the line says.
fn balance_is_told(rt: &impl Abort, alloc: Global, modes: &Modes, classes: &Classes, case: &str)
    requires formed { AreWellFormed modes.now }
    requires rows { HaveDimensions modes.now }
    requires exact { AreExact modes.now classes.now.of }
{
    let (position, told) = cut(rt, case, ": ");
    let (want, words) = cut(rt, position, " of");
    let (word, to) = cut(rt, want, " ");
    let to = mode_there(rt, modes, to);
    let units = leaves(rt, alloc, modes, words);
    holds(rt, units.len() < 9, case);
    match balance(alloc, modes, classes, sort(rt, word), &units, to).expect(rt, "memory") {
        Some(leaf) => holds(rt, leaf == number(rt, told), case),
        None => agrees(rt, "none", told, case),
    }
}

fn form_is_told(rt: &impl Abort, modes: &Modes, found: Balanced, told: &str, case: &str) {
    let (unit, word) = cut(rt, told, " ");
    holds(rt, found.leaf == number(rt, unit), case);
    holds(rt, found.mode == mode(rt, modes, word), case);
}

// The balanced unit and its mode are as the line says.
fn formed_is_told(rt: &impl Abort, alloc: Global, modes: &Modes, classes: &Classes, case: &str)
    requires formed { AreWellFormed modes.now }
    requires rows { HaveDimensions modes.now }
    requires exact { AreExact modes.now classes.now.of }
{
    let (position, told) = cut(rt, case, ": ");
    let (want, words) = cut(rt, position, " of");
    let (word, asked) = cut(rt, want, " ");
    let (sort, form) = (sort(rt, word), form(rt, asked));
    let units = leaves(rt, alloc, modes, words);
    holds(rt, units.len() < 9, case);
    match balance_to_form(alloc, modes, classes, sort, form, &units).expect(rt, "memory") {
        Some(found) => form_is_told(rt, modes, found, told, case),
        None => agrees(rt, "none", told, case),
    }
}

// The balanced unit of a side and its mode are as the line says.
fn side_is_told(rt: &impl Abort, alloc: Global, modes: &Modes, classes: &Classes, case: &str)
    requires formed { AreWellFormed modes.now }
    requires rows { HaveDimensions modes.now }
    requires exact { AreExact modes.now classes.now.of }
{
    let (sides, told) = cut(rt, case, ": ");
    let (one, other) = cut(rt, sides, " is ");
    let one = leaves(rt, alloc, modes, one);
    let other = leaves(rt, alloc, modes, other);
    holds(rt, one.len() < 9, case);
    match balance_sides(alloc, modes, classes, &one, &other).expect(rt, "memory") {
        Some(found) => form_is_told(rt, modes, found, told, case),
        None => agrees(rt, "none", told, case),
    }
}

#[test]
fn balancing(rt: HostRuntime) {
    let (rt, alloc) = (&rt, rt.alloc());
    let modes = declared(rt, alloc);
    let classes = settle(alloc, &modes).expect(rt, "memory");
    for case in BALANCED.lines() {
        balance_is_told(rt, alloc, &modes, &classes, case);
    }
    for case in FORMED.lines() {
        formed_is_told(rt, alloc, &modes, &classes, case);
    }
    for case in SIDES.lines() {
        side_is_told(rt, alloc, &modes, &classes, case);
    }
    drop(classes);
    drop(modes);
}
