//! The symbols of texts, and their refusals, by hand from the table of symbols.
use crate::table::{agrees, holds};
use a68_base::{Refusal, Rule, Stop};
use a68_symbols::{Symbol, Symbols, symbols};
use std::alloc::Global;
use std::panic::Expect;
use std::process::Abort;
use std::str::from_utf8;
use std::string::String;

/// Texts, and a line for each of their symbols: its kind, its spelling, the bytes from and to which it stands, and its
/// name.
const FORMS: &[(&str, &str)] = &[
    ("", ""),
    (" \t\n\r# a \" #CO 1 CO", ""),
    ("x 1 y", "Tag x1y [0, 5, 0]\n"),
    (
        "BEGIN1 A",
        "\
Word BEGIN1 [0, 6, 0]
Word A [7, 8, 1]
",
    ),
    (
        "a # c # b",
        "\
Tag a [0, 1, 0]
Tag b [8, 9, 1]
",
    ),
    (
        "a CO x COMMENT y CO b",
        "\
Tag a [0, 1, 0]
Tag b [20, 21, 1]
",
    ),
    ("PR CO1 1PR PR1 xPR(", "Mark ( [18, 19, 0]\n"),
    ("COMMENT a COMMENT PRAGMAT PRAGMAT", ""),
    ("1 2 3", "Number 123 [0, 5, 0]\n"),
    (
        "0016,9223372036854775807",
        "\
Number 0016 [0, 4, 0]
Mark , [4, 5, 1]
Number 9223372036854775807 [5, 24, 2]
",
    ),
    (
        "2r 1 0 1;16r0ff;4r3;8r7",
        "\
BitsNumber 2r101 [0, 8, 0]
Mark ; [8, 9, 1]
BitsNumber 16r0ff [9, 15, 2]
Mark ; [15, 16, 1]
BitsNumber 4r3 [16, 19, 3]
Mark ; [19, 20, 1]
BitsNumber 8r7 [20, 23, 4]
",
    ),
    (
        "\"a\"\"b\" \"\" \"\"\"\" \"\"",
        "\
Quoted \"a\"\"b\" [0, 6, 0]
Quoted \"\" [7, 9, 1]
Quoted \"\"\"\" [10, 14, 2]
Quoted \"\" [15, 17, 1]
",
    ),
    (
        "()[],;:||:@",
        "\
Mark ( [0, 1, 0]
Mark ) [1, 2, 1]
Mark [ [2, 3, 2]
Mark ] [3, 4, 3]
Mark , [4, 5, 4]
Mark ; [5, 6, 5]
Mark : [6, 7, 6]
Mark | [7, 8, 7]
Mark |: [8, 10, 8]
Mark @ [10, 11, 9]
",
    ),
    (
        "a:=:=:/=::==:",
        "\
Tag a [0, 1, 0]
Mark :=: [1, 4, 1]
Mark = [4, 5, 2]
Mark :/=: [5, 9, 3]
Mark := [9, 11, 4]
Mark = [11, 12, 2]
Mark : [12, 13, 5]
",
    ),
    (
        "-= -+ ** %*:= <=:=>=: +:= ^&!?/",
        "\
Mark -= [0, 2, 0]
Mark - [3, 4, 1]
Mark + [4, 5, 2]
Mark ** [6, 8, 3]
Mark %*:= [9, 13, 4]
Mark <=:= [14, 18, 5]
Mark >=: [18, 21, 6]
Mark +:= [22, 25, 7]
Mark ^ [26, 27, 8]
Mark & [27, 28, 9]
Mark ! [28, 29, 10]
Mark ?/ [29, 31, 11]
",
    ),
    (
        "LONG 170141183460469231731687303715884105727",
        "\
Word LONG [0, 4, 0]
Number 170141183460469231731687303715884105727 [5, 44, 1]
",
    ),
    (
        "LONG # c # 9223372036854775808,1 LONG\tPR 1 PR LONG 16r1",
        "\
Word LONG [0, 4, 0]
Number 9223372036854775808 [11, 30, 1]
Mark , [30, 31, 2]
Number 1 [31, 32, 3]
Word LONG [33, 37, 0]
Word LONG [46, 50, 0]
BitsNumber 16r1 [51, 55, 4]
",
    ),
    (
        "x 1,x1,X1,x 1",
        "\
Tag x1 [0, 3, 0]
Mark , [3, 4, 1]
Tag x1 [4, 6, 0]
Mark , [6, 7, 1]
Word X1 [7, 9, 2]
Mark , [9, 10, 1]
Tag x1 [10, 13, 0]
",
    ),
];

const REFUSALS: &[(&str, Rule, u32)] = &[
    ("( print(\"ab )", Rule::S1, 8),
    ("\"a\"\"b", Rule::S1, 0),
    ("\"a\nb\"", Rule::S1, 0),
    ("a # b", Rule::S1, 2),
    ("a CO 1CO CO1", Rule::S1, 2),
    ("COMMENT CO PR PRAGMAT", Rule::S1, 0),
    ("PR # PR1", Rule::S1, 0),
    (" PRAGMAT", Rule::S1, 1),
    ("\0", Rule::S2, 0),
    ("a ~ \"", Rule::S2, 2),
    ("1.5", Rule::S2, 1),
    ("a\x7f", Rule::S2, 1),
    ("( REAL x; SKIP )", Rule::S3, 2),
    ("x SHORT \"", Rule::S3, 2),
    ("GO GOTO EXIT BYTES", Rule::S3, 13),
    ("1b", Rule::S5, 0),
    ("1 a", Rule::S5, 0),
    ("x := 02r1", Rule::S5, 5),
    ("2r", Rule::S5, 0),
    ("2r12", Rule::S5, 0),
    ("9223372036854775808", Rule::S5, 0),
    ("LONG 170141183460469231731687303715884105728", Rule::S5, 5),
    (
        "LONG 170141183460469231731687303715884105727 0",
        Rule::S5,
        5,
    ),
    ("LONG ; 9223372036854775808", Rule::S5, 7),
    ("LONG 1,9223372036854775808", Rule::S5, 7),
    ("LONG1 9223372036854775808", Rule::S5, 6),
    ("\"LONG\" 9223372036854775808", Rule::S5, 7),
    ("LONG 16r10000000000000000", Rule::S5, 5),
    ("LONG REAL", Rule::S3, 5),
    ("16r10000000000000000", Rule::S5, 0),
    ("16rffffffffffffffff 1 0", Rule::S5, 0),
];

// The line of a symbol.
fn add_line(rt: &impl Abort, lines: &mut String, symbol: Symbol, spelling: &[u8]) {
    let spelling = from_utf8(spelling).expect(rt, "a text");
    let places = [symbol.span.from, symbol.span.to, symbol.name];
    write!(lines, "{:?} {spelling} {places:?}\n", symbol.kind).expect(rt, "memory");
}

fn shown(rt: &impl Abort, alloc: Global, found: &Symbols) -> String {
    let mut lines = String::new(alloc);
    for i in 0..found.len() {
        let symbol = found.at(i);
        add_line(rt, &mut lines, symbol, found.spelling(symbol.name));
    }
    lines
}

fn is_cut(rt: &impl Abort, alloc: Global, text: &str, rows: &str) {
    let found = symbols(alloc, text.as_bytes()).expect(rt, "symbols");
    let shown = shown(rt, alloc, &found);
    drop(found);
    agrees(rt, &shown, rows, rows);
}

#[test]
fn texts_are_cut(rt: HostRuntime) {
    for (text, rows) in FORMS {
        is_cut(&rt, rt.alloc(), text, rows);
    }
}

fn is_refused(rt: &impl Abort, alloc: Global, text: &[u8], rule: Rule, place: u32) {
    let refusal = Refusal { rule, place };
    let stop = symbols(alloc, text).err();
    holds(rt, stop == Some(Stop::Refused(refusal)), rule.name());
}

fn are_refused(rt: &impl Abort, alloc: Global, rows: &[(&str, Rule, u32)]) {
    for (text, rule, place) in rows {
        is_refused(rt, alloc, text.as_bytes(), *rule, *place);
    }
}

#[test]
fn texts_are_refused(rt: HostRuntime) {
    are_refused(&rt, rt.alloc(), REFUSALS);
    is_refused(&rt, rt.alloc(), b"\xff", Rule::S2, 0);
}

// A text of more than so many of these bytes is refused, and one of as many is not.
fn is_most(rt: &impl Abort, alloc: Global, byte: u8, most: u32, rule: Rule) {
    let mut text = vec![in alloc; byte; most as usize].expect(rt, "memory");
    drop(symbols(alloc, &text).expect(rt, "symbols"));
    text.push(byte).expect(rt, "memory");
    is_refused(rt, alloc, &text, rule, most);
}

#[test]
fn texts_are_too_long(rt: HostRuntime) {
    is_most(&rt, rt.alloc(), b';', 262_144, Rule::L2);
    is_most(&rt, rt.alloc(), b' ', 1_048_576, Rule::L1);
}
