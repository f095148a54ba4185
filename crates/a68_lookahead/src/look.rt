//! Looking behind declarers and brackets.
ghost use Rattle.std.specs.Prelude.{◌≡◌, ◌<◌, ◌^◌};
ghost use Rattle.a68_lookahead.specs.Ahead as spec;

use a68_symbols::{Bracket, Sym, Token};

/// What is due outside the brackets.
#[derive(Clone, Copy)]
pub enum Due {
    /// A declarer.
    Declarer,
    /// A declarer or VOID.
    Result,
    /// The parameters or the result of a mode that PROC begins.
    Procedure,
    /// The brackets behind STRUCT or UNION.
    Fields,
    /// What stands behind a declarer.
    Ended,
    /// What stands behind a tag in the brackets in which looking began.
    Named,
    /// One more tag, or a declarer.
    More,
    /// The colon behind the brackets of a spec.
    Colon,
    /// INT, behind LONG.
    Long,
}

/// What is looked for.
#[derive(Clone, Copy)]
pub enum Landmark {
    /// A declarer and a colon.
    Colon,
    /// A declarer and a tag.
    Tag,
    /// Parameters, up to the bracket that closes them.
    Parameters,
    /// The spec of a choice.
    Spec,
}

/// What a symbol says: looking goes on within so many brackets; or what is looked for ends here; or it does not stand here.
#[derive(Clone, Copy)]
pub enum Look {
    Goes(usize, Due),
    Found,
    Missed,
}

// A word of a declarer.
fn word(token: Token) -> Look
    ensures { result ≡ spec.word token }
{
    match token {
        Token::Int | Token::Plain | Token::ModeWord => Look::Goes(0, Due::Ended),
        Token::Long => Look::Goes(0, Due::Long),
        Token::Ref | Token::Flex => Look::Goes(0, Due::Declarer),
        Token::Struct | Token::Union => Look::Goes(0, Due::Fields),
        Token::Proc => Look::Goes(0, Due::Procedure),
        _ => Look::Missed,
    }
}

// A word of a declarer, or VOID.
fn word_or_void(token: Token) -> Look
    ensures { result ≡ spec.word_or_void token }
{
    match token {
        Token::Void => Look::Goes(0, Due::Ended),
        _ => word(token),
    }
}

// The token behind LONG: INT, which ends a declarer.
fn behind_long(token: Token) -> Look
    ensures { result ≡ spec.behind_long token }
{
    match token {
        Token::Int => Look::Goes(0, Due::Ended),
        _ => Look::Missed,
    }
}

// The token behind a declarer.
fn test(sought: Landmark, token: Token) -> Look
    ensures { result ≡ spec.test sought token }
{
    match (sought, token) {
        (Landmark::Colon, Token::Colon) | (Landmark::Tag, Token::Tag) => Look::Found,
        (Landmark::Parameters | Landmark::Spec, Token::Tag) => Look::Goes(0, Due::Named),
        _ => Look::Missed,
    }
}

// The token behind a tag in the brackets, where these do not end.
fn named(sought: Landmark, token: Token) -> Look
    ensures { result ≡ spec.named sought token }
{
    match (sought, token) {
        (Landmark::Parameters, Token::Comma) => Look::Goes(0, Due::More),
        _ => Look::Missed,
    }
}

// The token behind a comma there: one more tag, or a declarer.
fn more(token: Token) -> Look
    ensures { result ≡ spec.more token }
{
    match token {
        Token::Tag => Look::Goes(0, Due::Named),
        _ => word(token),
    }
}

// The token behind the brackets of a spec.
fn colon(token: Token) -> Look
    ensures { result ≡ spec.colon token }
{
    match token {
        Token::Colon => Look::Found,
        _ => Look::Missed,
    }
}

// A bracket that opens outside the brackets.
fn bracket(due: Due, bracket: Bracket) -> Look
    ensures { result ≡ spec.bracket due bracket }
{
    match (due, bracket) {
        (Due::Declarer | Due::Result | Due::Procedure | Due::More, Bracket::Square) => {
            Look::Goes(1, Due::Declarer)
        }
        (Due::Procedure, Bracket::Round) => Look::Goes(1, Due::Result),
        (Due::Fields, Bracket::Round) => Look::Goes(1, Due::Ended),
        _ => Look::Missed,
    }
}

// The bracket that closes those in which looking began.
fn closing(sought: Landmark, due: Due, bracket: Bracket) -> Look
    ensures { result ≡ spec.closing sought due bracket }
{
    match (sought, due, bracket) {
        (Landmark::Parameters, Due::Named, Bracket::Round) => Look::Found,
        (Landmark::Spec, Due::Ended, Bracket::Round) => Look::Found,
        (Landmark::Spec, Due::Named, Bracket::Round) => Look::Goes(0, Due::Colon),
        _ => Look::Missed,
    }
}

// A token outside the brackets.
fn token(sought: Landmark, due: Due, token: Token) -> Look
    ensures { result ≡ spec.token sought due token }
{
    match due {
        Due::Declarer => word(token),
        Due::Result | Due::Procedure => word_or_void(token),
        Due::Fields => Look::Missed,
        Due::Ended => test(sought, token),
        Due::Named => named(sought, token),
        Due::More => more(token),
        Due::Colon => colon(token),
        Due::Long => behind_long(token),
    }
}

// A symbol outside the brackets.
fn outside(sought: Landmark, due: Due, sym: Sym) -> Look
    ensures { result ≡ spec.step sought 0 due sym }
{
    match sym {
        Sym::Opens(opened) => bracket(due, opened),
        Sym::Closes(closed) => closing(sought, due, closed),
        Sym::Is(found) => token(sought, due, found),
    }
}

// A symbol, within so many brackets.
fn step(sought: Landmark, depth: usize, due: Due, sym: Sym) -> Look
    requires { depth < 2 ^ 63 }
    ensures { result ≡ spec.step sought depth due sym }
{
    if depth == 0 {
        return outside(sought, due, sym);
    }
    match sym {
        Sym::Opens(_) => Look::Goes(depth + 1, due),
        Sym::Closes(_) => Look::Goes(depth - 1, due),
        Sym::Is(_) => Look::Goes(depth, due),
    }
}

// Whether what is looked for stands at the front, of which this is due.
fn behind(sought: Landmark, first: Due, text: &[Sym]) -> bool
    ensures { result ≡ spec.behind sought 0 first text.now }
{
    let mut depth = 0;
    let mut due = first;
    let mut rest = text;
    while let Some((sym, after)) = rest.split_first() {
        match step(sought, depth, due, *sym) {
            Look::Goes(within, next) => {
                depth = within;
                due = next;
            }
            Look::Found => return true,
            Look::Missed => return false,
        }
        rest = after;
    }
    false
}

// Whether it stands behind an opening bracket at the front.
fn inside(sought: Landmark, text: &[Sym]) -> bool
    ensures { result ≡ spec.inside sought text.now }
{
    match text.split_first() {
        Some((Sym::Opens(Bracket::Round), listed)) => behind(sought, Due::Declarer, listed),
        _ => false,
    }
}

/// Whether a routine text stands at the front, if any unit does.
pub fn routine_ahead(text: &[Sym]) -> bool
    ensures { result ≡ spec.routine_ahead text.now }
{
    inside(Landmark::Parameters, text) || behind(Landmark::Colon, Due::Result, text)
}

/// Whether the spec of a choice stands at the front, if any choice does.
pub fn spec_ahead(text: &[Sym]) -> bool
    ensures { result ≡ spec.spec_ahead text.now }
{
    inside(Landmark::Spec, text)
}

// Whether a tag stands at the front.
fn tag_first(text: &[Sym]) -> bool
    ensures { result ≡ spec.tag_first text.now }
{
    match text.first() {
        Some(Sym::Is(Token::Tag)) => true,
        _ => false,
    }
}

/// Whether a declaration stands at the front, if any phrase does.
pub fn phrase_ahead(text: &[Sym]) -> bool
    ensures { result ≡ spec.phrase_ahead text.now }
{
    match text.split_first() {
        Some((Sym::Is(Token::Mode | Token::Prio | Token::Op), _)) => true,
        Some((Sym::Is(Token::Loc | Token::Heap), declarer)) => {
            behind(Landmark::Tag, Due::Declarer, declarer)
        }
        Some((Sym::Is(Token::Proc), named)) if tag_first(named) => true,
        _ => behind(Landmark::Tag, Due::Declarer, text),
    }
}
