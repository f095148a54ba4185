//! The operators that formulas apply, by hand from the text (Report, 7.2.1 and 10.2.3).
ghost use Rattle.std.specs.Prelude.{◌<◌, ◌^◌, length};
ghost use Rattle.std.specs.List.{All};
ghost use Rattle.a68_coerce.specs.Below.{IsLeafBelow};
ghost use Rattle.a68_equiv.specs.Classes.{AreKept};
ghost use Rattle.a68_equiv.specs.Dimensions.{HaveDimensions};
ghost use Rattle.a68_equiv.specs.Ways.{AreWellFormed};
ghost use Rattle.a68_identify.specs.Operators.{AreListed, NumbersAreThere};
ghost use Rattle.a68_ranges.specs.Tables.{AreRanges};

use crate::shapes::{operator_at, shaped};
use crate::table::holds;
use a68_coerce::Leaf;
use a68_declare::{Declared, declare};
use a68_identify::{
    Identified, OperatorModes, declared_modes_are_there, identify, interning_keeps_operators,
    operators_are_one,
};
use a68_modes::ModeId;
use a68_ranges::{Ranges, ranges};
use a68_signs::Operator;
use a68_tree::{NodeId, NodeKind, Tree};
use std::alloc::Global;
use std::panic::Expect;
use std::process::Abort;
use std::str::SplitWhitespace;

/// A text, the byte of a formula in it, what its left and its right operand may yield, and its operator.
///
/// An operand may yield units of several modes: the number of a standard one, or `@` and the byte of a declarer; `~` is a
/// unit that stands in strong positions only. Where the left operand is empty, the formula has one operand alone. The
/// operator is `own` and the byte of its definition, or its row in the table with the modes of its parameters, or `none`.
const FORMULAS: &[(&str, u32, &str, &str, &str)] = &[
    ("( 1 + 2 )", 2, "1", "1", "15 1 1"),
    ("( INT x; x + 2 )", 9, "9", "1", "15 1 1"),
    ("( \"a\" + \"b\" )", 2, "3", "3", "15 3 3"),
    ("( \"ab\" + \"c\" )", 2, "7", "3", "15 7 3"),
    ("( \"c\" + \"ab\" )", 2, "3", "7", "15 3 7"),
    ("( STRING s; s + \"c\" )", 12, "10", "3", "15 7 3"),
    ("( STRING s; s + s )", 12, "10", "10", "15 7 7"),
    ("( 2r1 + 1 )", 2, "4", "1", "none"),
    ("( TRUE + FALSE )", 2, "2", "2", "none"),
    ("( TRUE AND FALSE )", 2, "2", "2", "8 2 2"),
    ("( 2r1 & 2r1 )", 2, "4", "4", "8 4 4"),
    ("( 1 OR 2 )", 2, "1", "1", "none"),
    ("( 2r1 SHL 3 )", 2, "4", "1", "22 4 1"),
    ("( 2r1 SHR 3 )", 2, "4", "1", "23 4 1"),
    ("( 1 ELEM 2r1 )", 2, "1", "4", "20 1 4"),
    ("( INT x; x +:= 1 )", 9, "9", "1", "1 9 1"),
    (
        "( REF REF INT r = HEAP REF INT; r PLUSAB 1 )",
        32,
        "@2",
        "1",
        "1 9 1",
    ),
    ("( 1 +:= 1 )", 2, "1", "1", "none"),
    ("( STRING s; s +:= \"ab\" )", 12, "10", "7", "1 10 7"),
    ("( STRING s; s +:= \"a\" )", 12, "10", "3", "1 10 3"),
    ("( STRING s; \"ab\" +=: s )", 12, "7", "10", "6 7 10"),
    ("( STRING s; s *:= 3 )", 12, "10", "1", "3 10 1"),
    ("( INT x; x %*:= 3 )", 9, "9", "1", "5 9 1"),
    ("( TRUE = FALSE )", 2, "2", "2", "9 2 2"),
    ("( \"a\" = \"ab\" )", 2, "3", "7", "9 3 7"),
    ("( 2r1 /= 2r10 )", 2, "4", "4", "10 4 4"),
    ("( 2r1 <= 2r10 )", 2, "4", "4", "12 4 4"),
    ("( 2r1 < 2r10 )", 2, "4", "4", "none"),
    ("( \"ab\" GT \"aa\" )", 2, "7", "7", "14 7 7"),
    ("( \"ab\" * 3 )", 2, "7", "1", "17 7 1"),
    ("( 3 * \"a\" )", 2, "1", "3", "17 1 3"),
    ("( 7 OVER 2 )", 2, "1", "1", "18 1 1"),
    ("( 7 %* 2 )", 2, "1", "1", "19 1 1"),
    ("( 7 ** 2 )", 2, "1", "1", "21 1 1"),
    ("( - 1 )", 2, "", "1", "27 0 1"),
    ("( INT x; + x )", 9, "", "9", "26 0 1"),
    ("( - TRUE )", 2, "", "2", "none"),
    ("( NOT TRUE )", 2, "", "2", "28 0 2"),
    ("( NOT 2r1 )", 2, "", "4", "28 0 4"),
    ("( NOT 1 )", 2, "", "1", "none"),
    ("( ABS TRUE )", 2, "", "2", "29 0 2"),
    ("( ABS \"a\" )", 2, "", "3", "29 0 3"),
    ("( ABS 2r1 )", 2, "", "4", "29 0 4"),
    ("( ABS \"ab\" )", 2, "", "7", "none"),
    ("( SIGN 3 )", 2, "", "1", "30 0 1"),
    ("( ODD 3 )", 2, "", "1", "31 0 1"),
    ("( REPR 65 )", 2, "", "1", "32 0 1"),
    ("( BIN 3 )", 2, "", "1", "33 0 1"),
    ("( LEVEL 1 )", 2, "", "1", "34 0 1"),
    ("( SEMA s = LEVEL 1; LEVEL s )", 20, "", "5", "34 0 5"),
    ("( SEMA s = LEVEL 1; UP s )", 20, "", "5", "35 0 5"),
    ("( SEMA s = LEVEL 1; DOWN s )", 20, "", "5", "36 0 5"),
    (
        "( REF [] INT r = HEAP [1:3] INT; UPB r )",
        33,
        "",
        "@2",
        "38 0 0",
    ),
    ("( [] INT r = (1, 2); LWB r )", 21, "", "@2", "37 0 0"),
    ("( [,] INT r = SKIP; 2 UPB r )", 20, "1", "@2", "25 1 0"),
    (
        "( REF REF [] INT r = SKIP; INT x; x LWB r )",
        34,
        "9",
        "@2",
        "24 1 0",
    ),
    ("( PROC [] INT p = SKIP; UPB p )", 24, "", "@2", "38 0 0"),
    ("( PROC VOID p = SKIP; UPB p )", 22, "", "@2", "none"),
    ("( PROC VOID p = SKIP; 1 UPB p )", 22, "1", "@2", "none"),
    ("( STRING s; UPB s )", 12, "", "10", "38 0 0"),
    ("( UPB \"abc\" )", 2, "", "7", "38 0 0"),
    ("( UPB 1 )", 2, "", "1", "none"),
    (
        "( STRUCT (INT x, y) s = SKIP; UPB s )",
        30,
        "",
        "@2",
        "none",
    ),
    (
        "( UNION (INT, [] INT) u = SKIP; UPB u )",
        32,
        "",
        "@2",
        "none",
    ),
    ("( TRUE UPB \"abc\" )", 2, "2", "7", "none"),
    ("( (TRUE | 1 | 2) + 3 )", 2, "1 1", "1", "15 1 1"),
    ("( INT x; (TRUE | x | 2) + 3 )", 9, "9 1", "1", "15 1 1"),
    ("( (TRUE | 1 | SKIP) + 3 )", 2, "1 ~", "1", "15 1 1"),
    ("( (TRUE | SKIP | NIL) + 3 )", 2, "~ ~", "1", "none"),
    ("( (TRUE | 1 | TRUE) + 3 )", 2, "1 2", "1", "none"),
    (
        "( (TRUE | \"a\" | \"ab\") + \"c\" )",
        2,
        "3 7",
        "3",
        "15 7 3",
    ),
    (
        "( \"c\" + (TRUE | \"a\" | \"ab\") )",
        2,
        "3",
        "3 7",
        "15 3 7",
    ),
    ("( UPB (TRUE | \"abc\" | SKIP) )", 2, "", "7 ~", "38 0 0"),
    (
        "( [] INT r = (1, 2); UPB (TRUE | 1 | r) )",
        21,
        "",
        "1 @2",
        "38 0 0",
    ),
    ("( UPB (TRUE | SKIP | NIL) )", 2, "", "~ ~", "none"),
    (
        "( OP + = (BOOL a, b) BOOL: a; TRUE + FALSE )",
        30,
        "2",
        "2",
        "own 5",
    ),
    (
        "( OP + = (BOOL a, b) BOOL: a; 1 + 2 )",
        30,
        "1",
        "1",
        "15 1 1",
    ),
    ("( OP + = (INT a, b) INT: a; 1 + 2 )", 28, "1", "1", "own 5"),
    (
        "( OP + = (REF INT a, INT b) INT: b; INT x; x + 1 )",
        43,
        "9",
        "1",
        "own 5",
    ),
    (
        "( OP + = (REF INT a, INT b) INT: b; 1 + 1 )",
        36,
        "1",
        "1",
        "15 1 1",
    ),
    (
        "( OP + = (INT a, b) INT: a; ( OP + = (INT a, b) INT: b; 1 + 2 ) )",
        56,
        "1",
        "1",
        "own 33",
    ),
    (
        "( OP + = (INT a, b) INT: a; ( OP + = (INT a, b) INT: b; SKIP ); 1 + 2 )",
        64,
        "1",
        "1",
        "own 5",
    ),
    (
        "( OP + = (BOOL a, b) BOOL: a; ( OP + = (CHAR a, b) CHAR: b; TRUE + FALSE ) )",
        60,
        "2",
        "2",
        "own 5",
    ),
    (
        "( ( OP + = (BOOL a, b) BOOL: a; SKIP ); TRUE + FALSE )",
        40,
        "2",
        "2",
        "none",
    ),
    (
        "( OP + = (BOOL a, b) BOOL: a; OP + = (BOOL a, CHAR b) BOOL: a; TRUE + \"a\" )",
        63,
        "2",
        "3",
        "own 33",
    ),
    (
        "( OP + = (INT a, b) INT: a; OP + = (INT a, b) INT: b; 1 + 2 )",
        54,
        "1",
        "1",
        "own 5",
    ),
    (
        "( OP + = (BOOL a, b) BOOL: a, - = (BOOL a, b) BOOL: b; TRUE - FALSE )",
        55,
        "2",
        "2",
        "own 30",
    ),
    (
        "( PROC f = INT: 1 + 2; OP + = (INT a, b) INT: a; SKIP )",
        16,
        "1",
        "1",
        "own 26",
    ),
    (
        "( PRIO MAX = 5; OP MAX = (INT a, b) INT: a; 1 MAX 2 )",
        44,
        "1",
        "1",
        "own 19",
    ),
    (
        "( PRIO MAX = 5; OP MAX = (INT a, b) INT: a; 1 MAX TRUE )",
        44,
        "1",
        "2",
        "none",
    ),
    ("( PRIO MAX = 5; 1 MAX 2 )", 16, "1", "1", "none"),
    (
        "( PRIO MAX = 5; OP MAX = (INT a, b) INT: a; ( PRIO MAX = 6; 1 MAX 2 ) )",
        60,
        "1",
        "1",
        "own 19",
    ),
    ("( OP NEG = (INT a) INT: a; NEG 1 )", 27, "", "1", "own 5"),
    ("( OP F = (INT a) INT: F a; SKIP )", 22, "", "1", "own 5"),
    (
        "( OP - = (BOOL a) BOOL: a; OP - = (BOOL a, b) BOOL: a; - TRUE )",
        55,
        "",
        "2",
        "own 5",
    ),
    (
        "( OP - = (BOOL a) BOOL: a; OP - = (BOOL a, b) BOOL: a; TRUE - FALSE )",
        55,
        "2",
        "2",
        "own 30",
    ),
    (
        "( OP - = (INT a, b, c) INT: a; 1 - 2 )",
        31,
        "1",
        "1",
        "16 1 1",
    ),
    (
        "( OP (BOOL, BOOL) BOOL + = SKIP; TRUE + FALSE )",
        33,
        "2",
        "2",
        "own 23",
    ),
    (
        "( OP (BOOL) VOID SAY = SKIP, TELL = SKIP; TELL TRUE )",
        42,
        "",
        "2",
        "own 29",
    ),
    (
        "( OP AND = (INT a, b) INT: a; 1 & 2 )",
        30,
        "1",
        "1",
        "none",
    ),
    ("( OP UPB = (INT a) INT: a; UPB 1 )", 27, "", "1", "own 5"),
    (
        "( OP LEN = (STRING s) INT: 0; STRING t; LEN t )",
        40,
        "",
        "10",
        "own 5",
    ),
    (
        "( OP LEN = (STRING s) INT: 0; LEN \"a\" )",
        30,
        "",
        "3",
        "none",
    ),
    (
        "( OP SHOW = (UNION (INT, BOOL) u) VOID: SKIP; SHOW 1 )",
        46,
        "",
        "1",
        "own 5",
    ),
    (
        "( OP SHOW = (UNION (INT, BOOL) u) VOID: SKIP; INT x; SHOW x )",
        53,
        "",
        "9",
        "own 5",
    ),
    (
        "( OP SHOW = (UNION (INT, BOOL) u) VOID: SKIP; SHOW \"a\" )",
        46,
        "",
        "3",
        "none",
    ),
    (
        "( OP SHOW = (UNION (INT, BOOL, CHAR) u) VOID: SKIP; UNION (INT, BOOL) v = 1; SHOW v )",
        77,
        "",
        "@52",
        "own 5",
    ),
    (
        "( OP SHOW = (UNION (INT, BOOL) u) VOID: SKIP; UNION (INT, BOOL, CHAR) v = 1; SHOW v )",
        77,
        "",
        "@46",
        "none",
    ),
    (
        "( OP INC = (REF INT a) VOID: SKIP; INT x; INC x )",
        42,
        "",
        "9",
        "own 5",
    ),
    (
        "( OP INC = (REF INT a) VOID: SKIP; INC 1 )",
        35,
        "",
        "1",
        "none",
    ),
    (
        "( OP RUN = (PROC INT p) INT: p; PROC INT q = SKIP; RUN q )",
        51,
        "",
        "@32",
        "own 5",
    ),
    (
        "( MODE P = STRUCT (INT x, y); OP + = (P a, b) P: a; P p = SKIP; p + p )",
        64,
        "@52",
        "@52",
        "own 33",
    ),
    (
        "( WHILE OP + = (BOOL a, b) BOOL: a; TRUE DO TRUE + FALSE OD )",
        44,
        "2",
        "2",
        "own 11",
    ),
    (
        "IF OP + = (BOOL a, b) BOOL: a; TRUE THEN TRUE + FALSE ELSE FALSE FI",
        41,
        "2",
        "2",
        "own 6",
    ),
    (
        "( OP + = (BOOL a, b) BOOL: a; (TRUE | TRUE | SKIP) + FALSE )",
        30,
        "2 ~",
        "2",
        "own 5",
    ),
];

/// The same with operands of LONG INT, 13, and its name, 14.
const LONG_FORMULAS: &[(&str, u32, &str, &str, &str)] = &[
    ("( LONG 1 + LONG 2 )", 2, "13", "13", "15 13 13"),
    ("( LONG 1 - LONG 2 )", 2, "13", "13", "16 13 13"),
    ("( LONG 1 * LONG 2 )", 2, "13", "13", "17 13 13"),
    ("( LONG 1 OVER LONG 2 )", 2, "13", "13", "18 13 13"),
    ("( LONG 1 %* LONG 2 )", 2, "13", "13", "19 13 13"),
    ("( LONG 2 ** 3 )", 2, "13", "1", "21 13 1"),
    ("( LONG 2 ** LONG 3 )", 2, "13", "13", "none"),
    ("( 2 ** LONG 3 )", 2, "1", "13", "none"),
    ("( LONG 1 + 1 )", 2, "13", "1", "none"),
    ("( 1 + LONG 1 )", 2, "1", "13", "none"),
    ("( LONG 1 = LONG 2 )", 2, "13", "13", "9 13 13"),
    ("( LONG 1 /= LONG 2 )", 2, "13", "13", "10 13 13"),
    ("( LONG 1 < LONG 2 )", 2, "13", "13", "11 13 13"),
    ("( LONG 1 LE LONG 2 )", 2, "13", "13", "12 13 13"),
    ("( LONG 1 >= LONG 2 )", 2, "13", "13", "13 13 13"),
    ("( LONG 1 GT LONG 2 )", 2, "13", "13", "14 13 13"),
    ("( LONG 1 = 1 )", 2, "13", "1", "none"),
    ("( LONG INT x; x +:= LONG 1 )", 14, "14", "13", "1 14 13"),
    ("( LONG INT x; x MINUSAB x )", 14, "14", "14", "2 14 13"),
    ("( LONG INT x; x *:= LONG 1 )", 14, "14", "13", "3 14 13"),
    ("( LONG INT x; x %:= LONG 1 )", 14, "14", "13", "4 14 13"),
    ("( LONG INT x; x %*:= LONG 1 )", 14, "14", "13", "5 14 13"),
    ("( LONG INT x; x +:= 1 )", 14, "14", "1", "none"),
    ("( INT x; x +:= LONG 1 )", 9, "9", "13", "none"),
    ("( - LONG 1 )", 2, "", "13", "27 0 13"),
    ("( + LONG 1 )", 2, "", "13", "26 0 13"),
    ("( ABS LONG 1 )", 2, "", "13", "29 0 13"),
    ("( SIGN LONG 1 )", 2, "", "13", "30 0 13"),
    ("( ODD LONG 1 )", 2, "", "13", "31 0 13"),
    ("( LENG 1 )", 2, "", "1", "39 0 1"),
    ("( LENG LONG 1 )", 2, "", "13", "none"),
    ("( SHORTEN LONG 1 )", 2, "", "13", "40 0 13"),
    ("( SHORTEN 1 )", 2, "", "1", "none"),
    ("( REPR LONG 1 )", 2, "", "13", "none"),
    ("( BIN LONG 1 )", 2, "", "13", "none"),
    ("( LEVEL LONG 1 )", 2, "", "13", "none"),
];

/// Such rows of operators that stand beside variables, and outside ranges that declare none or nothing at all.
const BESIDE_OTHERS: &[(&str, u32, &str, &str, &str)] = &[
    (
        "( INT i; OP + = (BOOL a, b) BOOL: a; INT j; TRUE + FALSE )",
        44,
        "2",
        "2",
        "own 12",
    ),
    (
        "( INT i; OP + = (BOOL a, b) BOOL: a; INT j; OP + = (CHAR a, b) CHAR: b; INT k; \"a\" + \"b\" )",
        79,
        "3",
        "3",
        "own 47",
    ),
    (
        "( OP + = (BOOL a, b) BOOL: a; ( INT i; ( ( OP + = (BOOL a, b) BOOL: b; ( INT j; TRUE + FALSE ) ) ) ) )",
        80,
        "2",
        "2",
        "own 46",
    ),
    (
        "( OP + = (BOOL a, b) BOOL: a; ( INT i; ( ( OP + = (CHAR a, b) CHAR: b; ( INT j; TRUE + FALSE ) ) ) ) )",
        80,
        "2",
        "2",
        "own 5",
    ),
    (
        "( OP + = (BOOL a, b) BOOL: a; IF FALSE THEN TRUE ELIF FALSE THEN TRUE ELIF TRUE + FALSE THEN TRUE ELSE FALSE FI )",
        75,
        "2",
        "2",
        "own 5",
    ),
];

// The number that a word tells.
fn number(rt: &impl Abort, word: &str) -> u32 {
    word.parse::<u32>().expect(rt, word)
}

// The mode of the declarer at that byte, as it stands.
fn mode_at(rt: &impl Abort, tree: &Tree, found: &Declared, place: u32) -> ModeId {
    for id in 0..tree.len() {
        let node = tree.node(id);
        if node.kind == NodeKind::Declarer && node.span.from == place && found.of.has(id) {
            return found.of.at(id);
        }
    }
    rt.panic("a declarer at that byte")
}

// The mode that a word tells.
fn mode_of(rt: &impl Abort, tree: &Tree, found: &Declared, word: &str) -> ModeId {
    match word.strip_prefix("@") {
        Some(place) => mode_at(rt, tree, found, number(rt, place)),
        None => number(rt, word),
    }
}

// A unit of a mode that is there.
fn unit(rt: &impl Abort, found: &Declared, mode: ModeId) -> Leaf
    ensures { IsLeafBelow (length found.now.modes) result }
{
    if mode >= found.modes.len() {
        rt.panic("a mode that is there")
    }
    Leaf::Mode(mode)
}

// The unit that a word tells.
fn leaf(rt: &impl Abort, tree: &Tree, found: &Declared, word: &str) -> Leaf
    ensures { IsLeafBelow (length found.now.modes) result }
{
    if word == "~" {
        return Leaf::StrongOnly;
    }
    unit(rt, found, mode_of(rt, tree, found, word))
}

// The units that words tell.
fn leaves(rt: &impl Abort, alloc: Global, tree: &Tree, found: &Declared, words: &str) -> Vec<Leaf>
    ensures { All (IsLeafBelow (length found.now.modes)) result.items }
{
    let mut leaves = Vec::new(alloc);
    for word in words.split_whitespace() {
        leaves
            .push(leaf(rt, tree, found, word))
            .expect(rt, "memory");
    }
    leaves
}

// The operator of a formula with operands that may yield these units, where the modes of parameters are listed.
fn operator_of(
    rt: &impl Abort,
    alloc: Global,
    tree: &Tree,
    ranges: &Ranges,
    found: &Declared,
    of: &OperatorModes<'_>,
    at: NodeId,
    left: &[Leaf],
    right: &[Leaf],
) -> Option<Identified>
    requires at { at < length tree.now.nodes }
    requires ranges { AreRanges tree.now ranges.now }
    requires formed { AreWellFormed found.now.modes }
    requires rows { HaveDimensions found.now.modes }
    requires kept { AreKept found.now.modes found.now.classes }
    requires there { NumbersAreThere tree.now found.now.modes of.now.of }
    requires listed { AreListed tree.now of.now }
    requires left { All (IsLeafBelow (length found.now.modes)) left.now }
    requires right { All (IsLeafBelow (length found.now.modes)) right.now }
{
    holds(rt, left.len() < 99_999 && right.len() < 99_999, "few units");
    let modes = &found.modes;
    let classes = &found.classes;
    let told = if left.is_empty() {
        identify(alloc, tree, ranges, modes, classes, of, at, &[right])
    } else {
        identify(alloc, tree, ranges, modes, classes, of, at, &[left, right])
    };
    told.expect(rt, "memory")
}

// The operator of a formula with operands that may yield these units.
fn identified(
    rt: &impl Abort,
    alloc: Global,
    tree: &Tree,
    ranges: &Ranges,
    found: &Declared,
    at: NodeId,
    left: &[Leaf],
    right: &[Leaf],
) -> Option<Identified>
    requires at { at < length tree.now.nodes }
    requires ranges { AreRanges tree.now ranges.now }
    requires formed { AreWellFormed found.now.modes }
    requires rows { HaveDimensions found.now.modes }
    requires kept { AreKept found.now.modes found.now.classes }
    requires there { NumbersAreThere tree.now found.now.modes found.now.of }
    requires left { All (IsLeafBelow (length found.now.modes)) left.now }
    requires right { All (IsLeafBelow (length found.now.modes)) right.now }
{
    let of = OperatorModes::new(alloc, tree, &found.of).expect(rt, "memory");
    operator_of(rt, alloc, tree, ranges, found, &of, at, left, right)
}

fn is_next(rt: &impl Abort, words: &mut SplitWhitespace<'_>, told: u32, case: &str) {
    let word = words.next().expect(rt, case);
    holds(rt, number(rt, word) == told, case);
}

fn is_row(rt: &impl Abort, words: &mut SplitWhitespace<'_>, told: Operator, case: &str) {
    is_next(rt, words, told.row, case);
    is_next(rt, words, told.left, case);
    is_next(rt, words, told.right, case);
}

// The words tell of this operator.
fn is_answer(rt: &impl Abort, tree: &Tree, told: Option<Identified>, answer: &str, case: &str) {
    let mut words = answer.split_whitespace();
    match told {
        None => holds(rt, words.next() == Some("none"), case),
        Some(Identified::Declared(id)) => {
            holds(rt, words.next() == Some("own") && id < tree.len(), case);
            is_next(rt, &mut words, tree.node(id).span.from, case);
        }
        Some(Identified::Standard(operator)) => is_row(rt, &mut words, operator, case),
    }
    holds(rt, words.next().is_none(), case);
}

fn operator_is_told(rt: &impl Abort, alloc: Global, row: &(&str, u32, &str, &str, &str)) {
    let tree = shaped(rt, alloc, row.0).expect(rt, row.0);
    let ranges = ranges(alloc, &tree).expect(rt, row.0);
    let found = declare(alloc, &tree, &ranges).expect(rt, row.0);
    declared_modes_are_there();
    let at = operator_at(rt, &tree, row.1);
    let left = leaves(rt, alloc, &tree, &found, row.2);
    let right = leaves(rt, alloc, &tree, &found, row.3);
    let told = identified(rt, alloc, &tree, &ranges, &found, at, &left, &right);
    is_answer(rt, &tree, told, row.4, row.0);
    drop(right);
    drop(left);
    drop(found);
    drop(ranges);
    drop(tree);
}

#[test]
fn operators_of_formulas(rt: HostRuntime) {
    operators_are_one();
    interning_keeps_operators();
    for row in FORMULAS {
        operator_is_told(&rt, rt.alloc(), row);
    }
}

#[test]
fn operators_on_long_integers(rt: HostRuntime) {
    operators_are_one();
    interning_keeps_operators();
    for row in LONG_FORMULAS {
        operator_is_told(&rt, rt.alloc(), row);
    }
}

#[test]
fn operators_beside_other_definitions(rt: HostRuntime) {
    for row in BESIDE_OTHERS {
        operator_is_told(&rt, rt.alloc(), row);
    }
}
