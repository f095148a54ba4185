//! What is to be read: declarers.
ghost use Rattle.std.specs.Prelude.{◌≡◌};
ghost use Rattle.a68_unit_productions.specs.Declarers as spec;

use crate::goal::Goal;
use a68_lookahead::{ends_bound, starts};
use a68_symbols::{Bracket, Sym, Token};
use a68_tree::NodeKind;

/// `declarer`, as a node.
pub fn declarer_node() -> &'static [Goal]
    ensures { result.now ≡ spec.declarer_node }
{
    &[Goal::Begin, Goal::Declarer, Goal::Close(NodeKind::Declarer)]
}

/// `word | REF declarer | [FLEX] '[' bounds ']' declarer | STRUCT '(' fields ')' | UNION '(' declarer ',' declarers ')' |
/// PROC plan | LONG INT | INT | ..`
pub fn declarer(text: &[Sym]) -> &'static [Goal]
    ensures { result.now ≡ spec.declarer text.now }
{
    if starts(text, Sym::Is(Token::ModeWord)) {
        &[Goal::Take(Token::ModeWord)]
    } else if starts(text, Sym::Is(Token::Ref)) {
        &[Goal::Take(Token::Ref), Goal::DeclarerNode]
    } else if starts(text, Sym::Opens(Bracket::Square)) {
        &[
            Goal::Opens(Bracket::Square),
            Goal::Bounds,
            Goal::Closes(Bracket::Square),
            Goal::DeclarerNode,
        ]
    } else if starts(text, Sym::Is(Token::Flex)) {
        &[
            Goal::Take(Token::Flex),
            Goal::Opens(Bracket::Square),
            Goal::Bounds,
            Goal::Closes(Bracket::Square),
            Goal::DeclarerNode,
        ]
    } else if starts(text, Sym::Is(Token::Struct)) {
        &[
            Goal::Take(Token::Struct),
            Goal::Opens(Bracket::Round),
            Goal::Fields,
            Goal::Closes(Bracket::Round),
        ]
    } else if starts(text, Sym::Is(Token::Union)) {
        &[
            Goal::Take(Token::Union),
            Goal::Opens(Bracket::Round),
            Goal::DeclarerNode,
            Goal::Take(Token::Comma),
            Goal::Declarers,
            Goal::Closes(Bracket::Round),
        ]
    } else if starts(text, Sym::Is(Token::Proc)) {
        &[Goal::Take(Token::Proc), Goal::ProcedurePlan]
    } else if starts(text, Sym::Is(Token::Long)) {
        &[Goal::Take(Token::Long), Goal::Take(Token::Int)]
    } else {
        &[Goal::Plain]
    }
}

/// `['(' declarers ')'] (declarer | VOID)`
pub fn procedure_plan(text: &[Sym]) -> &'static [Goal]
    ensures { result.now ≡ spec.procedure_plan text.now }
{
    if starts(text, Sym::Opens(Bracket::Round)) {
        &[
            Goal::Opens(Bracket::Round),
            Goal::Declarers,
            Goal::Closes(Bracket::Round),
            Goal::Yields,
        ]
    } else {
        &[Goal::Yields]
    }
}

/// `declarer | VOID`
pub fn yields(text: &[Sym]) -> &'static [Goal]
    ensures { result.now ≡ spec.yields text.now }
{
    if starts(text, Sym::Is(Token::Void)) {
        &[
            Goal::Begin,
            Goal::Take(Token::Void),
            Goal::Close(NodeKind::VoidWord),
        ]
    } else {
        &[Goal::DeclarerNode]
    }
}

/// `declarer {',' declarer}`
pub fn declarers() -> &'static [Goal]
    ensures { result.now ≡ spec.declarers }
{
    &[Goal::DeclarerNode, Goal::DeclarersTail]
}

/// `{',' declarer}`
pub fn declarers_tail(text: &[Sym]) -> &'static [Goal]
    ensures { result.now ≡ spec.declarers_tail text.now }
{
    if starts(text, Sym::Is(Token::Comma)) {
        &[Goal::Take(Token::Comma), Goal::Declarers]
    } else {
        &[]
    }
}

/// `bound {',' bound}`
pub fn bounds() -> &'static [Goal]
    ensures { result.now ≡ spec.bounds }
{
    &[
        Goal::Begin,
        Goal::Bound,
        Goal::Close(NodeKind::Bound),
        Goal::BoundsTail,
    ]
}

/// `{',' bound}`
pub fn bounds_tail(text: &[Sym]) -> &'static [Goal]
    ensures { result.now ≡ spec.bounds_tail text.now }
{
    if starts(text, Sym::Is(Token::Comma)) {
        &[Goal::Take(Token::Comma), Goal::Bounds]
    } else {
        &[]
    }
}

/// `[':' | unit | unit ':' unit]`
pub fn bound(text: &[Sym]) -> &'static [Goal]
    ensures { result.now ≡ spec.bound text.now }
{
    if starts(text, Sym::Is(Token::Colon)) {
        &[Goal::Take(Token::Colon)]
    } else if ends_bound(text) {
        &[]
    } else {
        &[Goal::Begin, Goal::Unit, Goal::BoundTail]
    }
}

/// `[':' unit]`, behind the first unit.
pub fn bound_tail(text: &[Sym]) -> &'static [Goal]
    ensures { result.now ≡ spec.bound_tail text.now }
{
    if starts(text, Sym::Is(Token::Colon)) {
        &[
            Goal::Close(NodeKind::Lower),
            Goal::Take(Token::Colon),
            Goal::Begin,
            Goal::Unit,
            Goal::Close(NodeKind::Upper),
        ]
    } else {
        &[Goal::Close(NodeKind::Upper)]
    }
}

/// `declarer tag {',' tag} {',' declarer tag {',' tag}}`
pub fn fields() -> &'static [Goal]
    ensures { result.now ≡ spec.fields }
{
    &[Goal::DeclarerNode, Goal::FieldTags]
}

/// `tag {',' tag} {',' declarer tag {',' tag}}`
pub fn field_tags() -> &'static [Goal]
    ensures { result.now ≡ spec.field_tags }
{
    &[
        Goal::Begin,
        Goal::Take(Token::Tag),
        Goal::Close(NodeKind::Field),
        Goal::FieldTail,
    ]
}

/// `{',' tag} {',' declarer tag {',' tag}}`
pub fn field_tail(text: &[Sym]) -> &'static [Goal]
    ensures { result.now ≡ spec.field_tail text.now }
{
    if starts(text, Sym::Is(Token::Comma)) {
        &[Goal::Take(Token::Comma), Goal::FieldMore]
    } else {
        &[]
    }
}

/// `tag .. | declarer tag ..`, behind the comma.
pub fn field_more(text: &[Sym]) -> &'static [Goal]
    ensures { result.now ≡ spec.field_more text.now }
{
    if starts(text, Sym::Is(Token::Tag)) {
        &[Goal::FieldTags]
    } else {
        &[Goal::Fields]
    }
}
