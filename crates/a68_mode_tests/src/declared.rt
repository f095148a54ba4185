//! The modes of declarers, and the rules that they break, by hand from the text (Report, 4.6 to 4.8, 7.3 and 7.4).
ghost use Rattle.std.specs.Prelude.{◌<◌, IsTrue, length};
ghost use Rattle.a68_ranges.specs.Tables.{AreRanges};

use crate::table::holds;
use a68_base::{Refusal, Rule, Stop};
use a68_declare::{Declared, declare};
use a68_modes::ModeId;
use a68_parse::{parse, symbols_are_bounded};
use a68_ranges::ranges;
use a68_symbols::symbols;
use a68_tree::{NodeId, NodeKind, Tree};
use a68_words::words;
use std::alloc::Global;
use std::panic::Expect;
use std::process::Abort;

/// Texts that are refused, the rule, and the byte.
const REFUSED: &[(&str, Rule, u32)] = &[
    ("( ( MODE A = INT; SKIP ); A a; SKIP )", Rule::N2, 26),
    (
        "( ( MODE A = INT; SKIP ); REF A a; STRUCT (A b) c; SKIP )",
        Rule::N2,
        30,
    ),
    (
        "( ( MODE A = INT; SKIP ); PROC (INT) A p; MODE B = REF B; SKIP )",
        Rule::N2,
        37,
    ),
    ("( MODE A = REF A; SKIP )", Rule::M1, 7),
    ("( MODE A = PROC A; SKIP )", Rule::M1, 7),
    ("( MODE A = STRUCT (A a); SKIP )", Rule::M1, 7),
    ("( MODE A = [1:2] A; SKIP )", Rule::M1, 7),
    ("( MODE A = A; SKIP )", Rule::M1, 7),
    ("( MODE A = UNION (INT, A); SKIP )", Rule::M1, 7),
    (
        "( MODE A = PROC (INT) A, B = REF REF B; SKIP )",
        Rule::M1,
        25,
    ),
    ("( MODE A = REF B, B = PROC A; SKIP )", Rule::M1, 7),
    (
        "( MODE B = STRUCT (INT v, REF B n); ( MODE C = PROC C; SKIP ); MODE A = REF A; SKIP )",
        Rule::M1,
        43,
    ),
    (
        "( MODE A = STRUCT (INT v, B n), B = UNION (A, INT); SKIP )",
        Rule::M1,
        7,
    ),
    ("( UNION (INT, INT) u; SKIP )", Rule::M2, 2),
    ("( UNION (INT, REF INT) u; SKIP )", Rule::M2, 2),
    ("( UNION (INT, PROC INT) u; SKIP )", Rule::M2, 2),
    (
        "( UNION (REF PROC REF INT, BOOL, INT) u; SKIP )",
        Rule::M2,
        2,
    ),
    ("( UNION (STRING, [] CHAR) u; SKIP )", Rule::M2, 2),
    ("( UNION (REF STRING, STRING) u; SKIP )", Rule::M2, 2),
    (
        "( MODE A = UNION (INT, BOOL); UNION (A, A) u; UNION (A, REF INT) v; SKIP )",
        Rule::M2,
        46,
    ),
    ("( MODE A = INT; UNION (A, INT) u; SKIP )", Rule::M2, 16),
    (
        "( STRUCT (INT a, UNION (CHAR, REF CHAR) u) s; SKIP )",
        Rule::M2,
        17,
    ),
    ("( PROC (UNION (BOOL, BOOL)) VOID p; SKIP )", Rule::M2, 8),
    (
        "( UNION (INT, STRUCT (UNION (CHAR, CHAR) c)) u; UNION (INT, INT) v; SKIP )",
        Rule::M2,
        22,
    ),
    ("( [] INT a; SKIP )", Rule::C4, 2),
    ("( FLEX [] INT a; SKIP )", Rule::C4, 7),
    ("( FLEX CO here CO [] INT a; SKIP )", Rule::C4, 18),
    ("( REF [1:2] INT a; SKIP )", Rule::C4, 6),
    ("( [1:2] [] INT a; SKIP )", Rule::C4, 8),
    ("( [1:2,] INT a; SKIP )", Rule::C4, 2),
    ("( STRUCT (INT n, [] INT a) s; SKIP )", Rule::C4, 17),
    ("( UNION ([1:2] INT, BOOL) u; SKIP )", Rule::C4, 9),
    ("( PROC ([1:2] INT) VOID p; SKIP )", Rule::C4, 8),
    ("( LOC [] INT; SKIP )", Rule::C4, 6),
    ("( [1:2] INT a = (1, 2); SKIP )", Rule::C4, 2),
    ("( PROC f = ([1:2] INT a) INT: 1; SKIP )", Rule::C4, 12),
    ("( MODE A = [] INT; SKIP )", Rule::C4, 11),
    (
        "( MODE A = [1 : ( PROC f = INT: 1; f )] INT; SKIP )",
        Rule::C4,
        11,
    ),
    (
        "( MODE A = [1 : ( PAR ( SKIP, SKIP ); 1 )] INT; SKIP )",
        Rule::C4,
        11,
    ),
    (
        "( MODE B = INT; MODE A = [1 : ( B b; 1 )] INT; SKIP )",
        Rule::C4,
        25,
    ),
    (
        "( MODE A = STRUCT (INT n, [1 : ( PROC f = INT: 1; f )] INT a); SKIP )",
        Rule::C4,
        26,
    ),
    ("( [] INT a; UNION (INT, INT) u; SKIP )", Rule::M2, 12),
    (
        "( [] INT a; UNION (INT, INT) u; MODE A = REF A; SKIP )",
        Rule::M1,
        37,
    ),
    (
        "( [] INT a; UNION (INT, INT) u; MODE A = REF A; ( MODE B = INT; SKIP ); B b; SKIP )",
        Rule::N2,
        72,
    ),
    ("( [] INT a; [] INT b; SKIP )", Rule::C4, 2),
];

/// Texts in which nothing is refused.
const ACCEPTED: &[&str] = &[
    "( STRING s; UNION (STRING, INT) u := s; SKIP )",
    "( MODE A = PROC (A) A; SKIP )",
    "( MODE A = STRUCT (INT v, REF A n); SKIP )",
    "( MODE A = [1:2] REF STRUCT (A a); SKIP )",
    "( UNION (INT, BOOL, INT) u; SKIP )",
    "( UNION (INT, PROC (INT) INT) u; SKIP )",
    "( UNION (REF INT, REF BOOL) u; SKIP )",
    "( MODE A = [1 : 2] INT; A a; [1 : 2] A b; REF A c; SKIP )",
    "( MODE A = [1 : (INT i := 2; i)] INT; SKIP )",
    "( FLEX [1 : 0] INT a; SKIP )",
    "( HEAP [1:2] INT a; SKIP )",
    "( REF [] INT a = LOC [1:2] INT; SKIP )",
    "( PROC f = ([] INT a) [] INT: a; SKIP )",
    "( STRUCT ([1:2] INT a, REF [] INT b) s; SKIP )",
    "( MODE A = [1 : ( REF B r; 1 )] INT, B = INT; SKIP )",
    "( ( MODE A = INT; A a; SKIP ); SKIP )",
];

/// A text, the byte of a declarer or of VOID in it, and the number of its mode as it stands and without FLEX, among the standard ones.
const STANDARD: &[(&str, u32, ModeId, ModeId)] = &[
    ("( INT a; SKIP )", 2, 1, 1),
    ("( LONG INT a; SKIP )", 2, 13, 13),
    ("( REF LONG INT r; SKIP )", 2, 14, 14),
    ("( REF LONG INT r; SKIP )", 6, 13, 13),
    ("( PROC (LONG INT) INT p; SKIP )", 8, 13, 13),
    ("( STRING s; SKIP )", 2, 12, 7),
    ("( FLEX [1:0] CHAR s; SKIP )", 2, 12, 7),
    ("( [1:3] CHAR s; SKIP )", 2, 7, 7),
    ("( [1:3] BOOL s; SKIP )", 2, 11, 11),
    ("( REF INT r; SKIP )", 2, 9, 9),
    ("( REF STRING r; SKIP )", 2, 10, 10),
    ("( REF STRING r; SKIP )", 6, 12, 7),
    ("( PROC (SEMA) BITS p; SKIP )", 8, 5, 5),
    ("( PROC VOID p; SKIP )", 7, 0, 0),
    ("( MODE A = B, B = REF C, C = CHAR; A a; SKIP )", 22, 3, 3),
    ("( A a; MODE A = FLEX [1:1] CHAR; SKIP )", 2, 12, 7),
    (
        "( MODE A = INT; ( MODE A = BOOL; A a; SKIP ); SKIP )",
        33,
        2,
        2,
    ),
    (
        "( MODE A = INT; ( A a; MODE A = BOOL; SKIP ); SKIP )",
        18,
        2,
        2,
    ),
    ("( MODE A = INT; ( A a; SKIP ); SKIP )", 18, 1, 1),
];

/// A text, the bytes of two declarers in it, and whether their modes are one: as they stand, and without FLEX.
const PAIRS: &[(&str, u32, u32, bool, bool)] = &[
    (
        "( MODE A = STRUCT (INT v, REF A n), B = STRUCT (INT v, REF STRUCT (INT v, REF B n) n); SKIP )",
        11,
        40,
        true,
        true,
    ),
    (
        "( MODE A = STRUCT (INT v, REF A n), B = STRUCT (INT v, REF STRUCT (INT v, REF B n) n); SKIP )",
        11,
        59,
        true,
        true,
    ),
    (
        "( MODE A = STRUCT (INT v, REF A n), B = STRUCT (INT v, REF STRUCT (INT v, REF B n) n); SKIP )",
        26,
        74,
        true,
        true,
    ),
    (
        "( STRUCT (INT a) s; STRUCT (INT b) t; SKIP )",
        2,
        20,
        false,
        false,
    ),
    (
        "( STRUCT (INT a, b) s; STRUCT (INT a, INT b) t; SKIP )",
        2,
        23,
        true,
        true,
    ),
    (
        "( STRUCT (STRING a) s; STRUCT ([1:2] CHAR a) t; SKIP )",
        2,
        23,
        false,
        true,
    ),
    (
        "( PROC (STRING) STRING p; PROC ([] CHAR) [] CHAR q; SKIP )",
        2,
        26,
        true,
        true,
    ),
    (
        "( PROC (REF STRING) VOID p; PROC (REF [] CHAR) VOID q; SKIP )",
        2,
        28,
        false,
        false,
    ),
    ("( PROC VOID p; PROC INT q; SKIP )", 2, 15, false, false),
    (
        "( UNION (INT, BOOL) u; UNION (BOOL, INT) v; SKIP )",
        2,
        23,
        true,
        true,
    ),
    (
        "( MODE A = UNION (BOOL, CHAR); UNION (A, INT) u; UNION (INT, BOOL, CHAR) v; SKIP )",
        31,
        49,
        true,
        true,
    ),
    (
        "( UNION (STRING, INT) u; UNION ([] CHAR, INT) v; SKIP )",
        2,
        25,
        true,
        true,
    ),
    (
        "( UNION (INT, BOOL, INT) u; UNION (INT, BOOL) v; SKIP )",
        2,
        28,
        true,
        true,
    ),
    (
        "( [1:2,1:2] INT a; [1:2] [1:2] INT b; SKIP )",
        2,
        19,
        false,
        false,
    ),
    (
        "( [1:2] INT a; FLEX [1:2] INT b; SKIP )",
        2,
        15,
        false,
        true,
    ),
    (
        "( REF [] INT a; REF FLEX [] INT b; SKIP )",
        2,
        16,
        false,
        false,
    ),
    (
        "( MODE A = PROC (A) A, B = PROC (PROC (B) B) B; SKIP )",
        11,
        27,
        true,
        true,
    ),
    (
        "( MODE A = REF INT; A a; REF INT b; SKIP )",
        20,
        25,
        true,
        true,
    ),
];

/// The tree of a text.
pub fn tree_of(rt: &impl Abort, alloc: Global, text: &str) -> Tree {
    let found = symbols(alloc, text.as_bytes()).expect(rt, "symbols");
    let classes = words(alloc, &found).expect(rt, "classes");
    symbols_are_bounded();
    let tree = parse(alloc, &found, &classes, text.len() as u32).expect(rt, text);
    drop(classes);
    drop(found);
    tree
}

/// What is found of the declarers of a tree.
pub fn declared(rt: &impl Abort, alloc: Global, tree: &Tree) -> Result<Declared, Stop> {
    let ranges = ranges(alloc, tree).expect(rt, "ranges");
    let declared = declare(alloc, tree, &ranges);
    drop(ranges);
    declared
}

/// A text is refused by that rule at that byte.
pub fn is_refused(rt: &impl Abort, alloc: Global, text: &str, rule: Rule, place: u32) {
    let tree = tree_of(rt, alloc, text);
    let stop = declared(rt, alloc, &tree).err();
    holds(
        rt,
        stop == Some(Stop::Refused(Refusal { rule, place })),
        text,
    );
    drop(tree);
}

/// Nothing in a text is refused.
pub fn is_accepted(rt: &impl Abort, alloc: Global, text: &str) {
    let tree = tree_of(rt, alloc, text);
    let found = declared(rt, alloc, &tree);
    holds(rt, found.is_ok(), text);
    drop(found);
    drop(tree);
}

#[test]
fn refused(rt: HostRuntime) {
    for (text, rule, place) in REFUSED {
        is_refused(&rt, rt.alloc(), text, *rule, *place);
    }
}

#[test]
fn accepted(rt: HostRuntime) {
    for text in ACCEPTED {
        is_accepted(&rt, rt.alloc(), text);
    }
}

// The declarer, or VOID in the place of one, that begins at that byte.
fn declarer_at(rt: &impl Abort, tree: &Tree, place: u32) -> NodeId {
    for id in 0..tree.len() {
        let node = tree.node(id);
        if matches!(node.kind, NodeKind::Declarer | NodeKind::VoidWord) && node.span.from == place {
            return id;
        }
    }
    rt.panic("a declarer at that byte")
}

// The modes of the declarer at that byte, as it stands and without FLEX.
fn modes_at(rt: &impl Abort, tree: &Tree, found: &Declared, place: u32) -> (ModeId, ModeId) {
    let id = declarer_at(rt, tree, place);
    holds(rt, found.of.has(id), "a mode for each node");
    (found.of.at(id), found.of.without_flex(id))
}

fn is_standard(rt: &impl Abort, alloc: Global, row: &(&str, u32, ModeId, ModeId)) {
    let tree = tree_of(rt, alloc, row.0);
    let found = declared(rt, alloc, &tree).expect(rt, row.0);
    let modes = modes_at(rt, &tree, &found, row.1);
    holds(rt, modes == (row.2, row.3), row.0);
    drop(found);
    drop(tree);
}

#[test]
fn standard_modes(rt: HostRuntime) {
    for row in STANDARD {
        is_standard(&rt, rt.alloc(), row);
    }
}

fn is_pair(rt: &impl Abort, alloc: Global, row: &(&str, u32, u32, bool, bool)) {
    let tree = tree_of(rt, alloc, row.0);
    let found = declared(rt, alloc, &tree).expect(rt, row.0);
    let one = modes_at(rt, &tree, &found, row.1);
    let other = modes_at(rt, &tree, &found, row.2);
    holds(rt, (one.0 == other.0) == row.3, row.0);
    holds(rt, (one.1 == other.1) == row.4, row.0);
    drop(found);
    drop(tree);
}

#[test]
fn one_mode_or_two(rt: HostRuntime) {
    for row in PAIRS {
        is_pair(&rt, rt.alloc(), row);
    }
}
