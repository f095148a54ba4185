//! What is to be read: serial clauses, units and formulas.
ghost use Rattle.std.specs.Prelude.{◌≡◌};
ghost use Rattle.a68_unit_productions.specs.Units as spec;

use crate::goal::Goal;
use a68_lookahead::{is_monadic, is_operator, label_ahead, phrase_ahead, routine_ahead, starts};
use a68_symbols::{Bracket, Sym, Token};
use a68_tree::NodeKind;

/// `serial`, as a node.
pub fn serial_node() -> &'static [Goal]
    ensures { result.now ≡ spec.serial_node }
{
    &[Goal::Begin, Goal::Serial, Goal::Close(NodeKind::Serial)]
}

/// `{phrase ';'} (unit | labelled | unit EXIT labelled)`
pub fn serial(text: &[Sym]) -> &'static [Goal]
    ensures { result.now ≡ spec.serial text.now }
{
    if label_ahead(text) {
        &[Goal::Labelled]
    } else if phrase_ahead(text) {
        &[
            Goal::Declaration,
            Goal::Take(Token::Semicolon),
            Goal::Serial,
        ]
    } else {
        &[Goal::Unit, Goal::SerialTail]
    }
}

/// `[';' serial | EXIT labelled]`
pub fn serial_tail(text: &[Sym]) -> &'static [Goal]
    ensures { result.now ≡ spec.serial_tail text.now }
{
    if starts(text, Sym::Is(Token::Semicolon)) {
        &[Goal::Take(Token::Semicolon), Goal::Serial]
    } else if starts(text, Sym::Is(Token::Exit)) {
        &[
            Goal::Begin,
            Goal::Take(Token::Exit),
            Goal::Close(NodeKind::Exit),
            Goal::Labelled,
        ]
    } else {
        &[]
    }
}

/// `label steps`
pub fn labelled() -> &'static [Goal]
    ensures { result.now ≡ spec.labelled }
{
    &[
        Goal::Begin,
        Goal::Take(Token::Tag),
        Goal::Take(Token::Colon),
        Goal::Close(NodeKind::Label),
        Goal::Steps,
    ]
}

/// `{label} unit {(';' {label} unit) | (EXIT label {label} unit)}`
pub fn steps(text: &[Sym]) -> &'static [Goal]
    ensures { result.now ≡ spec.steps text.now }
{
    if label_ahead(text) {
        &[Goal::Labelled]
    } else {
        &[Goal::Unit, Goal::StepsTail]
    }
}

/// `[';' steps | EXIT labelled]`
pub fn steps_tail(text: &[Sym]) -> &'static [Goal]
    ensures { result.now ≡ spec.steps_tail text.now }
{
    if starts(text, Sym::Is(Token::Semicolon)) {
        &[Goal::Take(Token::Semicolon), Goal::Steps]
    } else if starts(text, Sym::Is(Token::Exit)) {
        &[
            Goal::Begin,
            Goal::Take(Token::Exit),
            Goal::Close(NodeKind::Exit),
            Goal::Labelled,
        ]
    } else {
        &[]
    }
}

/// The serial clause of an enquiry, as a node.
pub fn enquiry_node() -> &'static [Goal]
    ensures { result.now ≡ spec.enquiry_node }
{
    &[Goal::Begin, Goal::Enquiry, Goal::Close(NodeKind::Serial)]
}

/// `{phrase ';'} unit`
pub fn enquiry(text: &[Sym]) -> &'static [Goal]
    ensures { result.now ≡ spec.enquiry text.now }
{
    if phrase_ahead(text) {
        &[
            Goal::Declaration,
            Goal::Take(Token::Semicolon),
            Goal::Enquiry,
        ]
    } else {
        &[Goal::Unit, Goal::EnquiryTail]
    }
}

/// `[';' enquiry]`
pub fn enquiry_tail(text: &[Sym]) -> &'static [Goal]
    ensures { result.now ≡ spec.enquiry_tail text.now }
{
    if starts(text, Sym::Is(Token::Semicolon)) {
        &[Goal::Take(Token::Semicolon), Goal::Enquiry]
    } else {
        &[]
    }
}

/// `unit {',' unit}`
pub fn units() -> &'static [Goal]
    ensures { result.now ≡ spec.units }
{
    &[Goal::Unit, Goal::UnitsTail]
}

/// `{',' unit}`
pub fn units_tail(text: &[Sym]) -> &'static [Goal]
    ensures { result.now ≡ spec.units_tail text.now }
{
    if starts(text, Sym::Is(Token::Comma)) {
        &[Goal::Take(Token::Comma), Goal::Units]
    } else {
        &[]
    }
}

/// `SKIP | routine | tertiary [':=' unit | (IS | ISNT) tertiary]`, as a node.
pub fn unit(text: &[Sym]) -> &'static [Goal]
    ensures { result.now ≡ spec.unit text.now }
{
    if starts(text, Sym::Is(Token::Skip)) {
        &[
            Goal::Begin,
            Goal::Take(Token::Skip),
            Goal::Close(NodeKind::Skip),
        ]
    } else if starts(text, Sym::Is(Token::Go)) {
        &[
            Goal::Begin,
            Goal::Take(Token::Go),
            Goal::Take(Token::To),
            Goal::Take(Token::Tag),
            Goal::Leap,
        ]
    } else if starts(text, Sym::Is(Token::Goto)) {
        &[
            Goal::Begin,
            Goal::Take(Token::Goto),
            Goal::Take(Token::Tag),
            Goal::Leap,
        ]
    } else if routine_ahead(text) {
        &[
            Goal::Begin,
            Goal::Routine,
            Goal::Close(NodeKind::RoutineText),
        ]
    } else {
        &[Goal::Begin, Goal::Tertiary, Goal::UnitTail, Goal::Leave]
    }
}

/// `[':=' unit | (IS | ISNT) tertiary]`, behind a tertiary.
pub fn unit_tail(text: &[Sym]) -> &'static [Goal]
    ensures { result.now ≡ spec.unit_tail text.now }
{
    if starts(text, Sym::Is(Token::Becomes)) {
        &[
            Goal::Take(Token::Becomes),
            Goal::Unit,
            Goal::Wrap(NodeKind::Assignation),
        ]
    } else if starts(text, Sym::Is(Token::Is)) {
        &[
            Goal::Take(Token::Is),
            Goal::Begin,
            Goal::Tertiary,
            Goal::Leave,
            Goal::Relate,
        ]
    } else if starts(text, Sym::Is(Token::Isnt)) {
        &[
            Goal::Take(Token::Isnt),
            Goal::Begin,
            Goal::Tertiary,
            Goal::Leave,
            Goal::Relate,
        ]
    } else {
        &[]
    }
}

/// `['(' parameters ')'] (declarer | VOID) ':' unit`
pub fn routine(text: &[Sym]) -> &'static [Goal]
    ensures { result.now ≡ spec.routine text.now }
{
    if starts(text, Sym::Opens(Bracket::Round)) {
        &[
            Goal::Opens(Bracket::Round),
            Goal::Parameters,
            Goal::Closes(Bracket::Round),
            Goal::RoutineResult,
        ]
    } else {
        &[Goal::RoutineResult]
    }
}

/// `(declarer | VOID) ':' unit`
pub fn routine_result(text: &[Sym]) -> &'static [Goal]
    ensures { result.now ≡ spec.routine_result text.now }
{
    if starts(text, Sym::Is(Token::Void)) {
        &[
            Goal::Begin,
            Goal::Take(Token::Void),
            Goal::Close(NodeKind::VoidWord),
            Goal::Take(Token::Colon),
            Goal::Unit,
        ]
    } else {
        &[Goal::DeclarerNode, Goal::Take(Token::Colon), Goal::Unit]
    }
}

/// `declarer tag {',' tag} {',' declarer tag {',' tag}}`
pub fn parameters() -> &'static [Goal]
    ensures { result.now ≡ spec.parameters }
{
    &[Goal::DeclarerNode, Goal::ParameterTags]
}

/// `tag {',' tag} {',' declarer tag {',' tag}}`
pub fn parameter_tags() -> &'static [Goal]
    ensures { result.now ≡ spec.parameter_tags }
{
    &[
        Goal::Begin,
        Goal::Take(Token::Tag),
        Goal::Close(NodeKind::Parameter),
        Goal::ParameterTail,
    ]
}

/// `{',' tag} {',' declarer tag {',' tag}}`
pub fn parameter_tail(text: &[Sym]) -> &'static [Goal]
    ensures { result.now ≡ spec.parameter_tail text.now }
{
    if starts(text, Sym::Is(Token::Comma)) {
        &[Goal::Take(Token::Comma), Goal::ParameterMore]
    } else {
        &[]
    }
}

/// `tag .. | declarer tag ..`, behind the comma.
pub fn parameter_more(text: &[Sym]) -> &'static [Goal]
    ensures { result.now ≡ spec.parameter_more text.now }
{
    if starts(text, Sym::Is(Token::Tag)) {
        &[Goal::ParameterTags]
    } else {
        &[Goal::Parameters]
    }
}

/// `NIL | sign operands | secondary [sign operands]`
pub fn tertiary(text: &[Sym]) -> &'static [Goal]
    ensures { result.now ≡ spec.tertiary text.now }
{
    if starts(text, Sym::Is(Token::Nil)) {
        &[Goal::Take(Token::Nil), Goal::Wrap(NodeKind::Nil)]
    } else if is_monadic(text) {
        &[Goal::Monadic, Goal::Operands, Goal::Wrap(NodeKind::Formula)]
    } else {
        &[Goal::Secondary, Goal::TertiaryTail]
    }
}

/// `[sign operands]`, behind the first operand.
pub fn tertiary_tail(text: &[Sym]) -> &'static [Goal]
    ensures { result.now ≡ spec.tertiary_tail text.now }
{
    if is_operator(text) {
        &[Goal::Dyadic, Goal::Operands, Goal::Wrap(NodeKind::Formula)]
    } else {
        &[]
    }
}

/// `{sign} secondary {sign {sign} secondary}`
pub fn operands(text: &[Sym]) -> &'static [Goal]
    ensures { result.now ≡ spec.operands text.now }
{
    if is_monadic(text) {
        &[Goal::Monadic, Goal::Operands]
    } else {
        &[
            Goal::Begin,
            Goal::Secondary,
            Goal::Leave,
            Goal::OperandsTail,
        ]
    }
}

/// `{sign {sign} secondary}`
pub fn operands_tail(text: &[Sym]) -> &'static [Goal]
    ensures { result.now ≡ spec.operands_tail text.now }
{
    if is_operator(text) {
        &[Goal::Dyadic, Goal::Operands]
    } else {
        &[]
    }
}
