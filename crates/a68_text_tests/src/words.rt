//! The classes of words, and what is refused, by hand from the rules.
ghost use Rattle.a68_words.specs.Classes.{IsClassed};

use crate::pieces::text_of;
use crate::table::{agrees, holds};
use a68_base::Stop;
use a68_symbols::{SymbolKind, Symbols, symbols};
use a68_words::{Class, Classed, words};
use std::alloc::Global;
use std::panic::Expect;
use std::process::Abort;
use std::string::String;

// Each row has an answer and a text: a letter for each word, R for a reserved one, M for a mode and O for an operator; or
// the rule that is broken, and the byte.
const CASES: &[(&str, &str)] = &[
    (
        "RMRRRMMRRRRRRMMRMRR",
        "( MODE A = STRUCT (INT v, REF A n), B = STRUCT (INT v, REF STRUCT (INT v, REF B n) n); A a; REF B b = a; v OF b := 4; print(v OF a) )",
    ),
    ("ROOR", "PRIO M = 9, N = 1; INT"),
    ("RRRROOR", "OP (INT, INT) INT M = x, N = y; INT"),
    ("ROROOOO", "OP M = (INT a) x, N = z; x N 1 M 2 OVER 3"),
    ("RMRRRRMR", "MODE A = STRUCT (PROC (OP) INT x), B = INT"),
    ("RMRROR", "[ MODE A = INT ] PRIO ( ; ) , M = 1 ; OP"),
    ("RRMRROR", "OP ( MODE A = INT ) INT M = y ; VOID"),
    ("RRRMRM", "OP (INT x) := ( MODE M = INT ) ; M"),
    ("ROOR", "PRIO + = 1, ABS = ABS INT"),
    ("ROMRM", "PRIO M = 1 ; N ; ( MODE N"),
    ("RMM", ") ) ; MODE A ] ) A"),
    ("RRR", ") END OD ) ] FI"),
    ("RRRR", "GO TO l ; GOTO m EXIT l : 1"),
    ("ROOR", "PRIO M = 9, N = 1; EXIT"),
    ("(S4, 20)", "MODE M = INT ; PRIO M = 1"),
    ("(S4, 18)", "PRIO M = 1 ; MODE M = INT"),
    ("(S4, 5)", "MODE ABS = INT"),
    ("(S4, 22)", "MODE M = INT ; OP (M) M = = y"),
    ("(S4, 22)", "OP (INT) INT (x) MODE M = y"),
    ("(N2, 2)", "( A a )"),
    ("(N2, 0)", "N + M ; MODE M = INT"),
    ("(N2, 9)", "PRIO ( , M = 1 )"),
];

// Each row has an answer, or `ok` for any classes, and the pieces of a text, each behind how often it stands there.
const LONG: &[(&str, &str)] = &[
    ("ok", "200 ("),
    ("(L3, 200)", "201 ("),
    ("(L3, 201)", "1 M 201 ( 1 MODE 1 ## 1 M"),
    ("ok", "1 ( 997 + 1 1 1 )"),
    ("(L3, 999)", "1 ( 998 + 1 1 1 )"),
    ("(N2, 999)", "1 ( 998 + 1 M 1 )"),
    ("ok", "1 ( 500 + 1 ; 990 + 1 )"),
    ("(L3, 999)", "900 + 1 ( 900 +"),
    ("ok", "900 + 1 DO 900 + 1 OD 900 +"),
    ("ok", "900 + 1 EXIT 900 +"),
    ("ok", "1 ( 500 + 1 EXIT 990 + 1 )"),
    ("(L3, 1001)", "900 + 1 GO 900 +"),
    ("(L3, 1003)", "900 + 1 GOTO 900 +"),
    ("ok", "900 + 1 GO 1 ## 1 TO 900 +"),
    ("ok", "1 IF 1 a 1 THEN 1 b 60000 ELIFcTHENd 1 FI"),
];

fn letter(class: Class) -> char {
    match class {
        Class::Reserved => 'R',
        Class::ModeWord => 'M',
        Class::OperatorWord => 'O',
    }
}

fn letters(rt: &impl Abort, alloc: Global, found: &Symbols, classed: &Classed) -> String
    requires { IsClassed found.now classed.now }
{
    let mut letters = String::new(alloc);
    for i in 0..found.len() {
        if found.at(i).kind == SymbolKind::Word {
            letters.push(letter(classed.class(i))).expect(rt, "memory");
        }
    }
    letters
}

fn refused(rt: &impl Abort, alloc: Global, stop: Stop) -> String {
    match stop {
        Stop::Refused(refusal) => {
            format!(in alloc; "{:?}", (refusal.rule, refusal.place)).expect(rt, "memory")
        }
        Stop::NoMemory => rt.panic("memory"),
    }
}

fn answer_of(rt: &impl Abort, alloc: Global, found: &Symbols) -> String {
    match words(alloc, found) {
        Ok(classed) => {
            let letters = letters(rt, alloc, found, &classed);
            drop(classed);
            letters
        }
        Err(stop) => refused(rt, alloc, stop),
    }
}

// The answer for a text.
fn answer(rt: &impl Abort, alloc: Global, text: &[u8]) -> String {
    let found = symbols(alloc, text).expect(rt, "symbols");
    let answer = answer_of(rt, alloc, &found);
    drop(found);
    answer
}

fn is_answered(rt: &impl Abort, alloc: Global, text: &str, wanted: &str) {
    let answer = answer(rt, alloc, text.as_bytes());
    agrees(rt, &answer, wanted, text);
}

#[test]
fn texts_are_classed(rt: HostRuntime) {
    for (wanted, text) in CASES {
        is_answered(&rt, rt.alloc(), text, wanted);
    }
}

// The answer for these pieces is the one that is wanted.
fn fits(rt: &impl Abort, alloc: Global, wanted: &str, pieces: &str) {
    let text = text_of(rt, alloc, pieces, ' ');
    let answer = answer(rt, alloc, text.as_bytes());
    let is_fine = wanted == "ok" && !answer.contains(' ') || answer.as_str() == wanted;
    holds(rt, is_fine, pieces);
}

#[test]
fn limits_hold(rt: HostRuntime) {
    for (wanted, pieces) in LONG {
        fits(&rt, rt.alloc(), wanted, pieces);
    }
}
