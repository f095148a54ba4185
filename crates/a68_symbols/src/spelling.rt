//! The symbol of the grammar that each symbol of a text is.
ghost use Rattle.std.specs.Prelude.{◌≡◌, ◌&&◌, nat_le, map, IfOk};
ghost use Rattle.a68_symbols.specs.Spellings as spellings;

use crate::marks::is_monad;
use crate::sym::{Bracket, Sym, Token};
use crate::symbol::{Spelling, SymbolKind, Symbols};
use a68_base::{NoMemory, find};
use std::alloc::Global;

/// The symbols that the grammar tells apart by their spellings (Report, 9.4; which there are is own): the brackets; the
/// words within choices and loops; those that begin declarations and parallel clauses, LOC, HEAP and OF; those of
/// declarers; those within units, those of jumps and EXIT; the brackets that are marks; the marks that are no operators; the operators.
pub const SYMBOLS: [(&str, Sym); 71] = [
    ("BEGIN", Sym::Opens(Bracket::Begin)),
    ("END", Sym::Closes(Bracket::Begin)),
    ("IF", Sym::Opens(Bracket::If)),
    ("FI", Sym::Closes(Bracket::If)),
    ("CASE", Sym::Opens(Bracket::Case)),
    ("ESAC", Sym::Closes(Bracket::Case)),
    ("DO", Sym::Opens(Bracket::Do)),
    ("OD", Sym::Closes(Bracket::Do)),
    ("THEN", Sym::Is(Token::Then)),
    ("ELIF", Sym::Is(Token::Elif)),
    ("ELSE", Sym::Is(Token::Else)),
    ("IN", Sym::Is(Token::In)),
    ("OUSE", Sym::Is(Token::Ouse)),
    ("OUT", Sym::Is(Token::Out)),
    ("FOR", Sym::Is(Token::For)),
    ("FROM", Sym::Is(Token::From)),
    ("BY", Sym::Is(Token::By)),
    ("TO", Sym::Is(Token::To)),
    ("WHILE", Sym::Is(Token::While)),
    ("PAR", Sym::Is(Token::Par)),
    ("MODE", Sym::Is(Token::Mode)),
    ("PRIO", Sym::Is(Token::Prio)),
    ("OP", Sym::Is(Token::Op)),
    ("PROC", Sym::Is(Token::Proc)),
    ("LOC", Sym::Is(Token::Loc)),
    ("HEAP", Sym::Is(Token::Heap)),
    ("OF", Sym::Is(Token::Of)),
    ("REF", Sym::Is(Token::Ref)),
    ("FLEX", Sym::Is(Token::Flex)),
    ("STRUCT", Sym::Is(Token::Struct)),
    ("UNION", Sym::Is(Token::Union)),
    ("LONG", Sym::Is(Token::Long)),
    ("INT", Sym::Is(Token::Int)),
    ("BOOL", Sym::Is(Token::Plain)),
    ("CHAR", Sym::Is(Token::Plain)),
    ("BITS", Sym::Is(Token::Plain)),
    ("SEMA", Sym::Is(Token::Plain)),
    ("STRING", Sym::Is(Token::Plain)),
    ("VOID", Sym::Is(Token::Void)),
    ("IS", Sym::Is(Token::Is)),
    ("ISNT", Sym::Is(Token::Isnt)),
    ("AT", Sym::Is(Token::At)),
    ("SKIP", Sym::Is(Token::Skip)),
    ("GO", Sym::Is(Token::Go)),
    ("GOTO", Sym::Is(Token::Goto)),
    ("EXIT", Sym::Is(Token::Exit)),
    ("NIL", Sym::Is(Token::Nil)),
    ("TRUE", Sym::Is(Token::True)),
    ("FALSE", Sym::Is(Token::False)),
    ("(", Sym::Opens(Bracket::Round)),
    (")", Sym::Closes(Bracket::Round)),
    ("[", Sym::Opens(Bracket::Square)),
    ("]", Sym::Closes(Bracket::Square)),
    (",", Sym::Is(Token::Comma)),
    (";", Sym::Is(Token::Semicolon)),
    (":", Sym::Is(Token::Colon)),
    ("|", Sym::Is(Token::Bar)),
    ("|:", Sym::Is(Token::BarColon)),
    ("@", Sym::Is(Token::At)),
    (":=", Sym::Is(Token::Becomes)),
    (":=:", Sym::Is(Token::Is)),
    (":/=:", Sym::Is(Token::Isnt)),
    ("=", Sym::Is(Token::Equals)),
    ("+", Sym::Is(Token::Plus)),
    ("-", Sym::Is(Token::Minus)),
    ("*", Sym::Is(Token::Times)),
    ("/=", Sym::Is(Token::Differs)),
    ("<", Sym::Is(Token::Less)),
    ("<=", Sym::Is(Token::AtMost)),
    (">", Sym::Is(Token::Greater)),
    (">=", Sym::Is(Token::AtLeast)),
];

fn word_sym(s: &[u8]) -> Sym
    ensures { result ≡ spellings.word_sym s.now }
{
    match find(&SYMBOLS, s) {
        Some(sym) => sym,
        None => Sym::Is(Token::Word),
    }
}

fn other_sign(s: &[u8]) -> Sym
    ensures { result ≡ spellings.other_sign s.now }
{
    match s {
        [first, ..] if is_monad(*first) => Sym::Is(Token::Monad),
        _ => Sym::Is(Token::Nomad),
    }
}

fn mark_sym(s: &[u8]) -> Sym
    ensures { result ≡ spellings.mark_sym s.now }
{
    match find(&SYMBOLS, s) {
        Some(sym) => sym,
        None => other_sign(s),
    }
}

fn is_priority(digit: u8) -> bool
    ensures { result ≡ (nat_le 49 digit && nat_le digit 57) }
{
    (b'1'..=b'9').contains(&digit)
}

fn number_sym(s: &[u8]) -> Sym
    ensures { result ≡ spellings.number_sym s.now }
{
    match s {
        [digit] if is_priority(*digit) => Sym::Is(Token::Digit),
        _ => Sym::Is(Token::Number),
    }
}

/// The symbol of the grammar that a symbol of that kind and spelling is. Until words have classes, each word that is not
/// reserved is one that no rule takes.
pub fn sym_of(kind: SymbolKind, spelling: &[u8]) -> Sym
    ensures { result ≡ spellings.sym_of kind spelling.now }
{
    match kind {
        SymbolKind::Word => word_sym(spelling),
        SymbolKind::Tag => Sym::Is(Token::Tag),
        SymbolKind::Number => number_sym(spelling),
        SymbolKind::BitsNumber => Sym::Is(Token::BitsNumber),
        SymbolKind::Quoted => Sym::Is(Token::Quoted),
        SymbolKind::Mark => mark_sym(spelling),
    }
}

/// The symbols of the grammar that have these spellings, in order.
pub fn syms_spelled(alloc: Global, list: &[Spelling]) -> Result<Vec<Sym>, NoMemory>
    ensures { IfOk result (λ syms. syms.items ≡ map spellings.sym_spelled list.now) }
{
    let mut syms = Vec::new(alloc);
    for spelling in list {
        syms.push(sym_of(spelling.kind, &spelling.bytes))?;
    }
    Ok(syms)
}

/// The symbols of a text as the grammar tells them apart, in order.
pub fn syms(alloc: Global, symbols: &Symbols) -> Result<Vec<Sym>, NoMemory>
    ensures { IfOk result (λ list. list.items ≡ spellings.syms_of symbols.now) }
{
    let mut list = Vec::new(alloc);
    for i in 0..symbols.len() {
        list.push(symbols.sym_at(i))?;
    }
    Ok(list)
}
