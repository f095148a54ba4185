//! The first symbols of a text.
ghost use Rattle.std.specs.Prelude.{◌≡◌};
ghost use Rattle.a68_lookahead.specs.Symbols as spec;

use a68_symbols::{Bracket, Sym, Token};

/// Whether the text begins with that symbol.
pub fn starts(text: &[Sym], wanted: Sym) -> bool
    ensures { result ≡ spec.starts wanted text.now }
{
    match text.first() {
        Some(first) => *first == wanted,
        None => false,
    }
}

/// Whether the text begins with these two symbols.
pub fn starts_pair(text: &[Sym], wanted: Sym, second: Sym) -> bool
    ensures { result ≡ spec.starts_pair wanted second text.now }
{
    match text.split_first() {
        Some((first, rest)) => *first == wanted && starts(rest, second),
        None => false,
    }
}

/// Whether the text begins with a label: a tag and a colon.
pub fn label_ahead(text: &[Sym]) -> bool
    ensures { result ≡ spec.label_ahead text.now }
{
    starts_pair(text, Sym::Is(Token::Tag), Sym::Is(Token::Colon))
}

fn starts_is(text: &[Sym], wanted: Token) -> bool
    ensures { result ≡ spec.starts_is wanted text.now }
{
    starts(text, Sym::Is(wanted))
}

/// Whether the text begins with an operator that may stand before an operand alone.
pub fn is_monadic(text: &[Sym]) -> bool
    ensures { result ≡ spec.is_monadic text.now }
{
    starts_is(text, Token::Plus) || starts_is(text, Token::Minus) || starts_is(text, Token::Monad)
}

fn is_comparison(text: &[Sym]) -> bool
    ensures { result ≡ spec.is_comparison text.now }
{
    starts_is(text, Token::Equals)
        || starts_is(text, Token::Differs)
        || starts_is(text, Token::Less)
        || starts_is(text, Token::AtMost)
        || starts_is(text, Token::Greater)
        || starts_is(text, Token::AtLeast)
}

/// Whether the text begins with an operator.
pub fn is_operator(text: &[Sym]) -> bool
    ensures { result ≡ spec.is_operator text.now }
{
    is_monadic(text)
        || is_comparison(text)
        || starts_is(text, Token::Times)
        || starts_is(text, Token::Nomad)
}

/// Whether the text begins with a denotation.
pub fn is_denotation(text: &[Sym]) -> bool
    ensures { result ≡ spec.is_denotation text.now }
{
    starts_is(text, Token::Digit)
        || starts_is(text, Token::Number)
        || starts_is(text, Token::BitsNumber)
        || starts_is(text, Token::Quoted)
        || starts_is(text, Token::True)
        || starts_is(text, Token::False)
}

/// Whether the text begins with the word of a mode: INT, BOOL, CHAR, BITS, SEMA or STRING.
pub fn is_plain(text: &[Sym]) -> bool
    ensures { result ≡ spec.is_plain text.now }
{
    starts_is(text, Token::Int) || starts_is(text, Token::Plain)
}

/// Whether the text begins with a symbol with which declarers begin.
pub fn is_declarer(text: &[Sym]) -> bool
    ensures { result ≡ spec.is_declarer text.now }
{
    is_plain(text)
        || starts_is(text, Token::Long)
        || starts_is(text, Token::ModeWord)
        || starts_is(text, Token::Ref)
        || starts_is(text, Token::Flex)
        || starts_is(text, Token::Struct)
        || starts_is(text, Token::Union)
        || starts_is(text, Token::Proc)
        || starts(text, Sym::Opens(Bracket::Square))
}

/// Whether the text begins with a symbol that stands behind a place in square brackets.
pub fn ends_bound(text: &[Sym]) -> bool
    ensures { result ≡ spec.ends_bound text.now }
{
    starts_is(text, Token::Comma) || starts(text, Sym::Closes(Bracket::Square))
}

/// Whether the text begins with such a symbol, or with AT.
pub fn ends_trimmer(text: &[Sym]) -> bool
    ensures { result ≡ spec.ends_trimmer text.now }
{
    starts_is(text, Token::At) || ends_bound(text)
}
