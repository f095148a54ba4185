//! What is to be read: the parts of choices and loops.
ghost use Rattle.std.specs.Prelude.{◌≡◌};
ghost use Rattle.a68_productions.specs.Choices as spec;

use a68_lookahead::starts;
use a68_symbols::{Bracket, Sym, Token};
use a68_tree::NodeKind;
use a68_unit_productions::Goal;

/// `{ELIF enquiry THEN serial} [ELSE serial]`
pub fn else_part(text: &[Sym]) -> &'static [Goal]
    ensures { result.now ≡ spec.else_part text.now }
{
    if starts(text, Sym::Is(Token::Elif)) {
        &[
            Goal::Begin,
            Goal::Take(Token::Elif),
            Goal::EnquiryNode,
            Goal::Take(Token::Then),
            Goal::SerialNode,
            Goal::ElsePart,
            Goal::Close(NodeKind::Conditional),
        ]
    } else if starts(text, Sym::Is(Token::Else)) {
        &[Goal::Take(Token::Else), Goal::SerialNode]
    } else {
        &[]
    }
}

/// `{'|:' enquiry '|' serial} ['|' serial]`
pub fn else_brief(text: &[Sym]) -> &'static [Goal]
    ensures { result.now ≡ spec.else_brief text.now }
{
    if starts(text, Sym::Is(Token::BarColon)) {
        &[
            Goal::Begin,
            Goal::Take(Token::BarColon),
            Goal::EnquiryNode,
            Goal::Take(Token::Bar),
            Goal::SerialNode,
            Goal::ElseBrief,
            Goal::Close(NodeKind::Conditional),
        ]
    } else if starts(text, Sym::Is(Token::Bar)) {
        &[Goal::Take(Token::Bar), Goal::SerialNode]
    } else {
        &[]
    }
}

/// `{OUSE enquiry IN unit ',' units} [OUT serial]`
pub fn out_case(text: &[Sym]) -> &'static [Goal]
    ensures { result.now ≡ spec.out_case text.now }
{
    if starts(text, Sym::Is(Token::Ouse)) {
        &[
            Goal::Begin,
            Goal::Begin,
            Goal::Take(Token::Ouse),
            Goal::EnquiryNode,
            Goal::Take(Token::In),
            Goal::Unit,
            Goal::Take(Token::Comma),
            Goal::Units,
            Goal::OutCase,
            Goal::Close(NodeKind::Case),
            Goal::Close(NodeKind::Out),
        ]
    } else if starts(text, Sym::Is(Token::Out)) {
        &[
            Goal::Take(Token::Out),
            Goal::Begin,
            Goal::SerialNode,
            Goal::Close(NodeKind::Out),
        ]
    } else {
        &[]
    }
}

/// `{'|:' enquiry '|' unit ',' units} ['|' serial]`
pub fn out_case_brief(text: &[Sym]) -> &'static [Goal]
    ensures { result.now ≡ spec.out_case_brief text.now }
{
    if starts(text, Sym::Is(Token::BarColon)) {
        &[
            Goal::Begin,
            Goal::Begin,
            Goal::Take(Token::BarColon),
            Goal::EnquiryNode,
            Goal::Take(Token::Bar),
            Goal::Unit,
            Goal::Take(Token::Comma),
            Goal::Units,
            Goal::OutCaseBrief,
            Goal::Close(NodeKind::Case),
            Goal::Close(NodeKind::Out),
        ]
    } else if starts(text, Sym::Is(Token::Bar)) {
        &[
            Goal::Take(Token::Bar),
            Goal::Begin,
            Goal::SerialNode,
            Goal::Close(NodeKind::Out),
        ]
    } else {
        &[]
    }
}

/// `{OUSE enquiry IN choices} [OUT serial]`
pub fn out_conformity(text: &[Sym]) -> &'static [Goal]
    ensures { result.now ≡ spec.out_conformity text.now }
{
    if starts(text, Sym::Is(Token::Ouse)) {
        &[
            Goal::Begin,
            Goal::Begin,
            Goal::Take(Token::Ouse),
            Goal::EnquiryNode,
            Goal::Take(Token::In),
            Goal::Choices,
            Goal::OutConformity,
            Goal::Close(NodeKind::Conformity),
            Goal::Close(NodeKind::Out),
        ]
    } else if starts(text, Sym::Is(Token::Out)) {
        &[
            Goal::Take(Token::Out),
            Goal::Begin,
            Goal::SerialNode,
            Goal::Close(NodeKind::Out),
        ]
    } else {
        &[]
    }
}

/// `{'|:' enquiry '|' choices} ['|' serial]`
pub fn out_conformity_brief(text: &[Sym]) -> &'static [Goal]
    ensures { result.now ≡ spec.out_conformity_brief text.now }
{
    if starts(text, Sym::Is(Token::BarColon)) {
        &[
            Goal::Begin,
            Goal::Begin,
            Goal::Take(Token::BarColon),
            Goal::EnquiryNode,
            Goal::Take(Token::Bar),
            Goal::Choices,
            Goal::OutConformityBrief,
            Goal::Close(NodeKind::Conformity),
            Goal::Close(NodeKind::Out),
        ]
    } else if starts(text, Sym::Is(Token::Bar)) {
        &[
            Goal::Take(Token::Bar),
            Goal::Begin,
            Goal::SerialNode,
            Goal::Close(NodeKind::Out),
        ]
    } else {
        &[]
    }
}

/// `[FROM unit] [BY unit] [TO unit] [WHILE enquiry] DO serial OD`
pub fn loop_from(text: &[Sym]) -> &'static [Goal]
    ensures { result.now ≡ spec.loop_from text.now }
{
    if starts(text, Sym::Is(Token::From)) {
        &[
            Goal::Take(Token::From),
            Goal::Begin,
            Goal::Unit,
            Goal::Close(NodeKind::From),
            Goal::LoopBy,
        ]
    } else {
        &[Goal::LoopBy]
    }
}

/// `[BY unit] [TO unit] [WHILE enquiry] DO serial OD`
pub fn loop_by(text: &[Sym]) -> &'static [Goal]
    ensures { result.now ≡ spec.loop_by text.now }
{
    if starts(text, Sym::Is(Token::By)) {
        &[
            Goal::Take(Token::By),
            Goal::Begin,
            Goal::Unit,
            Goal::Close(NodeKind::By),
            Goal::LoopTo,
        ]
    } else {
        &[Goal::LoopTo]
    }
}

/// `[TO unit] [WHILE enquiry] DO serial OD`
pub fn loop_to(text: &[Sym]) -> &'static [Goal]
    ensures { result.now ≡ spec.loop_to text.now }
{
    if starts(text, Sym::Is(Token::To)) {
        &[
            Goal::Take(Token::To),
            Goal::Begin,
            Goal::Unit,
            Goal::Close(NodeKind::To),
            Goal::LoopWhile,
        ]
    } else {
        &[Goal::LoopWhile]
    }
}

/// `[WHILE enquiry] DO serial OD`
pub fn loop_while(text: &[Sym]) -> &'static [Goal]
    ensures { result.now ≡ spec.loop_while text.now }
{
    if starts(text, Sym::Is(Token::While)) {
        &[
            Goal::Take(Token::While),
            Goal::Begin,
            Goal::EnquiryNode,
            Goal::Close(NodeKind::While),
            Goal::Opens(Bracket::Do),
            Goal::SerialNode,
            Goal::Closes(Bracket::Do),
        ]
    } else {
        &[
            Goal::Opens(Bracket::Do),
            Goal::SerialNode,
            Goal::Closes(Bracket::Do),
        ]
    }
}

/// `spec unit {',' spec unit}`
pub fn choices() -> &'static [Goal]
    ensures { result.now ≡ spec.choices }
{
    &[
        Goal::Begin,
        Goal::ChoiceSpec,
        Goal::Close(NodeKind::Spec),
        Goal::Unit,
        Goal::ChoicesTail,
    ]
}

/// `{',' spec unit}`
pub fn choices_tail(text: &[Sym]) -> &'static [Goal]
    ensures { result.now ≡ spec.choices_tail text.now }
{
    if starts(text, Sym::Is(Token::Comma)) {
        &[Goal::Take(Token::Comma), Goal::Choices]
    } else {
        &[]
    }
}

/// `'(' declarer [tag] ')' ':'`
pub fn choice_spec() -> &'static [Goal]
    ensures { result.now ≡ spec.choice_spec }
{
    &[
        Goal::Opens(Bracket::Round),
        Goal::DeclarerNode,
        Goal::SpecTag,
        Goal::Closes(Bracket::Round),
        Goal::Take(Token::Colon),
    ]
}

/// `[tag]`
pub fn spec_tag(text: &[Sym]) -> &'static [Goal]
    ensures { result.now ≡ spec.spec_tag text.now }
{
    if starts(text, Sym::Is(Token::Tag)) {
        &[
            Goal::Begin,
            Goal::Take(Token::Tag),
            Goal::Close(NodeKind::Parameter),
        ]
    } else {
        &[]
    }
}
