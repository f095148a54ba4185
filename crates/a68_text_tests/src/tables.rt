//! The tables of symbols, as the language pages list them: a definition cites each table, so a slip in a row would be one in the
//! statement too.

use crate::table::holds;
use a68_base::{find, is_listed};
use a68_symbols::{Bracket, LEFT_OUT, SYMBOLS, Sym, Token};
use std::process::Abort;

// Brackets by pairs.
const BRACKETS: &[(&str, &str, Bracket)] = &[
    ("(", ")", Bracket::Round),
    ("[", "]", Bracket::Square),
    ("BEGIN", "END", Bracket::Begin),
    ("IF", "FI", Bracket::If),
    ("CASE", "ESAC", Bracket::Case),
    ("DO", "OD", Bracket::Do),
];

// Words within choices, loops and declarations.
const CLAUSES: &[(&str, Token)] = &[
    ("THEN", Token::Then),
    ("ELIF", Token::Elif),
    ("ELSE", Token::Else),
    ("IN", Token::In),
    ("OUSE", Token::Ouse),
    ("OUT", Token::Out),
    ("FOR", Token::For),
    ("FROM", Token::From),
    ("BY", Token::By),
    ("TO", Token::To),
    ("WHILE", Token::While),
    ("PAR", Token::Par),
    ("MODE", Token::Mode),
    ("PRIO", Token::Prio),
    ("OP", Token::Op),
    ("PROC", Token::Proc),
    ("LOC", Token::Loc),
    ("HEAP", Token::Heap),
    ("OF", Token::Of),
];

// Words of declarers and within units.
const DECLARERS: &[(&str, Token)] = &[
    ("REF", Token::Ref),
    ("FLEX", Token::Flex),
    ("STRUCT", Token::Struct),
    ("UNION", Token::Union),
    ("LONG", Token::Long),
    ("INT", Token::Int),
    ("BOOL", Token::Plain),
    ("CHAR", Token::Plain),
    ("BITS", Token::Plain),
    ("SEMA", Token::Plain),
    ("STRING", Token::Plain),
    ("VOID", Token::Void),
    ("IS", Token::Is),
    ("ISNT", Token::Isnt),
    ("AT", Token::At),
    ("SKIP", Token::Skip),
    ("GO", Token::Go),
    ("GOTO", Token::Goto),
    ("EXIT", Token::Exit),
    ("NIL", Token::Nil),
    ("TRUE", Token::True),
    ("FALSE", Token::False),
];

// Marks that are no brackets.
const MARKS: &[(&str, Token)] = &[
    (",", Token::Comma),
    (";", Token::Semicolon),
    (":", Token::Colon),
    ("|", Token::Bar),
    ("|:", Token::BarColon),
    ("@", Token::At),
    (":=", Token::Becomes),
    (":=:", Token::Is),
    (":/=:", Token::Isnt),
    ("=", Token::Equals),
    ("+", Token::Plus),
    ("-", Token::Minus),
    ("*", Token::Times),
    ("/=", Token::Differs),
    ("<", Token::Less),
    ("<=", Token::AtMost),
    (">", Token::Greater),
    (">=", Token::AtLeast),
];

const LEFT: &[&str] = &["REAL", "COMPL", "BYTES", "FORMAT", "SHORT", "EMPTY"];

fn is_row(rt: &impl Abort, spelling: &str, sym: Sym) {
    holds(
        rt,
        find(&SYMBOLS, spelling.as_bytes()) == Some(sym),
        spelling,
    );
}

fn are_rows(rt: &impl Abort, rows: &[(&str, Token)]) {
    for (spelling, token) in rows {
        is_row(rt, spelling, Sym::Is(*token));
    }
}

#[test]
fn symbols_are_those_of_the_pages(rt: HostRuntime) {
    for (opening, closing, bracket) in BRACKETS {
        is_row(&rt, opening, Sym::Opens(*bracket));
        is_row(&rt, closing, Sym::Closes(*bracket));
    }
    are_rows(&rt, CLAUSES);
    are_rows(&rt, DECLARERS);
    are_rows(&rt, MARKS);
    let listed = 2 * BRACKETS.len() + CLAUSES.len() + DECLARERS.len() + MARKS.len();
    holds(
        &rt,
        listed == SYMBOLS.len() && listed == 71,
        "no other symbol",
    );
}

#[test]
fn words_that_are_left_out_are_those_of_the_pages(rt: HostRuntime) {
    for word in LEFT {
        holds(&rt, is_listed(&LEFT_OUT, word.as_bytes()), word);
    }
    holds(&rt, LEFT.len() == LEFT_OUT.len(), "no other word");
}
