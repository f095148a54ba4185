//! What is to be read: secondaries, primaries and what stands in the brackets of a slice.
ghost use Rattle.std.specs.Prelude.{◌≡◌};
ghost use Rattle.a68_unit_productions.specs.Primaries as spec;

use crate::goal::Goal;
use a68_lookahead::{ends_trimmer, is_declarer, is_denotation, starts, starts_pair};
use a68_symbols::{Bracket, Sym, Token};
use a68_tree::NodeKind;

/// `tag OF secondary | (LOC | HEAP) declarer | primary`
pub fn secondary(text: &[Sym]) -> &'static [Goal]
    ensures { result.now ≡ spec.secondary text.now }
{
    if starts_pair(text, Sym::Is(Token::Tag), Sym::Is(Token::Of)) {
        &[
            Goal::Take(Token::Tag),
            Goal::Take(Token::Of),
            Goal::Begin,
            Goal::Secondary,
            Goal::Leave,
            Goal::Wrap(NodeKind::Selection),
        ]
    } else if starts(text, Sym::Is(Token::Loc)) {
        &[
            Goal::Take(Token::Loc),
            Goal::DeclarerNode,
            Goal::Wrap(NodeKind::Generator),
        ]
    } else if starts(text, Sym::Is(Token::Heap)) {
        &[
            Goal::Take(Token::Heap),
            Goal::DeclarerNode,
            Goal::Wrap(NodeKind::Generator),
        ]
    } else {
        &[Goal::Base, Goal::PrimaryTail]
    }
}

/// `enclosed | (declarer | VOID) enclosed | tag | denotation | LONG number`: a primary that is neither a slice nor a call.
pub fn base(text: &[Sym]) -> &'static [Goal]
    ensures { result.now ≡ spec.base text.now }
{
    if starts(text, Sym::Is(Token::Tag)) {
        &[Goal::Take(Token::Tag), Goal::Wrap(NodeKind::Tag)]
    } else if is_denotation(text) {
        &[Goal::Denotation, Goal::Wrap(NodeKind::Denotation)]
    } else if starts_pair(text, Sym::Is(Token::Long), Sym::Is(Token::Digit)) {
        &[
            Goal::Take(Token::Long),
            Goal::Take(Token::Digit),
            Goal::WrapLong,
        ]
    } else if starts_pair(text, Sym::Is(Token::Long), Sym::Is(Token::Number)) {
        &[
            Goal::Take(Token::Long),
            Goal::Take(Token::Number),
            Goal::WrapLong,
        ]
    } else if starts(text, Sym::Is(Token::Void)) {
        &[
            Goal::Begin,
            Goal::Take(Token::Void),
            Goal::Close(NodeKind::VoidWord),
            Goal::Begin,
            Goal::Enclosed,
            Goal::Leave,
            Goal::Wrap(NodeKind::Cast),
        ]
    } else if is_declarer(text) {
        &[
            Goal::DeclarerNode,
            Goal::Begin,
            Goal::Enclosed,
            Goal::Leave,
            Goal::Wrap(NodeKind::Cast),
        ]
    } else {
        &[Goal::Enclosed]
    }
}

/// `{'[' indexes ']' | '(' units ')'}`
pub fn primary_tail(text: &[Sym]) -> &'static [Goal]
    ensures { result.now ≡ spec.primary_tail text.now }
{
    if starts(text, Sym::Opens(Bracket::Square)) {
        &[
            Goal::Opens(Bracket::Square),
            Goal::Indexes,
            Goal::Closes(Bracket::Square),
            Goal::Wrap(NodeKind::Slice),
            Goal::PrimaryTail,
        ]
    } else if starts(text, Sym::Opens(Bracket::Round)) {
        &[
            Goal::Opens(Bracket::Round),
            Goal::Units,
            Goal::Closes(Bracket::Round),
            Goal::Wrap(NodeKind::Call),
            Goal::PrimaryTail,
        ]
    } else {
        &[]
    }
}

/// `index {',' index}`
pub fn indexes() -> &'static [Goal]
    ensures { result.now ≡ spec.indexes }
{
    &[
        Goal::Begin,
        Goal::Index,
        Goal::Close(NodeKind::Index),
        Goal::IndexesTail,
    ]
}

/// `{',' index}`
pub fn indexes_tail(text: &[Sym]) -> &'static [Goal]
    ensures { result.now ≡ spec.indexes_tail text.now }
{
    if starts(text, Sym::Is(Token::Comma)) {
        &[Goal::Take(Token::Comma), Goal::Indexes]
    } else {
        &[]
    }
}

/// `unit | [unit] ':' [unit] [AT unit] | [AT unit]`
pub fn index(text: &[Sym]) -> &'static [Goal]
    ensures { result.now ≡ spec.index text.now }
{
    if starts(text, Sym::Is(Token::Colon)) {
        &[Goal::Take(Token::Colon), Goal::Trimmer]
    } else if ends_trimmer(text) {
        &[Goal::AtPart]
    } else {
        &[Goal::Begin, Goal::Unit, Goal::IndexTail]
    }
}

/// `[':' trimmer]`, behind the first unit.
pub fn index_tail(text: &[Sym]) -> &'static [Goal]
    ensures { result.now ≡ spec.index_tail text.now }
{
    if starts(text, Sym::Is(Token::Colon)) {
        &[
            Goal::Close(NodeKind::Lower),
            Goal::Take(Token::Colon),
            Goal::Trimmer,
        ]
    } else {
        &[Goal::Leave]
    }
}

/// `[unit] [AT unit]`
pub fn trimmer(text: &[Sym]) -> &'static [Goal]
    ensures { result.now ≡ spec.trimmer text.now }
{
    if ends_trimmer(text) {
        &[Goal::AtPart]
    } else {
        &[
            Goal::Begin,
            Goal::Unit,
            Goal::Close(NodeKind::Upper),
            Goal::AtPart,
        ]
    }
}

/// `[AT unit]`
pub fn at_part(text: &[Sym]) -> &'static [Goal]
    ensures { result.now ≡ spec.at_part text.now }
{
    if starts(text, Sym::Is(Token::At)) {
        &[
            Goal::Take(Token::At),
            Goal::Begin,
            Goal::Unit,
            Goal::Close(NodeKind::At),
        ]
    } else {
        &[]
    }
}
