//! The roles of symbols by their spellings.
ghost use Rattle.std.specs.Prelude.{◌≡◌, ◌<◌, ◌^◌, length, IfOk};
ghost use Rattle.a68_words.specs.Spellings as spellings;

use crate::role::Role;
use a68_base::NoMemory;
use a68_signs::is_sign;
use a68_symbols::{Bracket, Sym, Symbols, Token};
use std::alloc::Global;

// A word that is not reserved: the operators of the standard environ that are words are those of the table of signs.
fn word_role(spelling: &[u8]) -> Role
    ensures { result ≡ spellings.word_role spelling.now }
{
    if is_sign(spelling) {
        Role::Standard
    } else {
        Role::Bold
    }
}

// A symbol that is neither a bracket nor a word that a text may define.
fn token_role(token: Token) -> Role
    ensures { result ≡ spellings.token_role token }
{
    match token {
        Token::Comma => Role::Comma,
        Token::Semicolon
        | Token::Bar
        | Token::BarColon
        | Token::Then
        | Token::Elif
        | Token::Else
        | Token::In
        | Token::Ouse
        | Token::Out
        | Token::Exit
        | Token::From
        | Token::By
        | Token::To
        | Token::While => Role::Separator,
        Token::Mode => Role::Mode,
        Token::Prio => Role::Prio,
        Token::Op => Role::Op,
        Token::Equals => Role::Equals,
        _ => Role::Other,
    }
}

// What a symbol does to levels and classes. A word that is not reserved is known by its spelling.
fn role_of(sym: Sym, spelling: &[u8]) -> Role
    ensures { result ≡ spellings.role_of sym spelling.now }
{
    match sym {
        Sym::Opens(Bracket::Round) => Role::Round,
        Sym::Opens(Bracket::Do) => Role::Do,
        Sym::Opens(_) => Role::Open,
        Sym::Closes(_) => Role::Close,
        Sym::Is(Token::Word) => word_role(spelling),
        Sym::Is(token) => token_role(token),
    }
}

/// The roles of the symbols of a text, in order.
pub fn roles(alloc: Global, symbols: &Symbols) -> Result<Vec<Role>, NoMemory>
    ensures roles { IfOk result (λ list. list.items ≡ spellings.roles_of symbols.now) }
    ensures few { IfOk result (λ list. length list.items < 2 ^ 32) }
{
    let mut list = Vec::new(alloc);
    for i in 0..symbols.len() {
        let symbol = symbols.at(i);
        list.push(role_of(symbols.sym_at(i), symbols.spelling(symbol.name)))?;
    }
    Ok(list)
}

/// The names of the symbols of a text, in order.
pub fn names(alloc: Global, symbols: &Symbols) -> Result<Vec<u32>, NoMemory>
    ensures { IfOk result (λ list. list.items ≡ spellings.names_of symbols.now) }
{
    let mut list = Vec::new(alloc);
    for i in 0..symbols.len() {
        list.push(symbols.at(i).name)?;
    }
    Ok(list)
}
