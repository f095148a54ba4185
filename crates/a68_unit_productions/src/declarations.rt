//! What is to be read: declarations.
ghost use Rattle.std.specs.Prelude.{◌≡◌};
ghost use Rattle.a68_unit_productions.specs.Declarations as spec;

use crate::goal::{Defining, Goal};
use a68_lookahead::{is_operator, starts, starts_pair};
use a68_symbols::{Bracket, Sym, Token};
use a68_tree::NodeKind;

/// `definition {',' definition}`: one, or several as a node Joined.
pub fn declaration() -> &'static [Goal]
    ensures { result.now ≡ spec.declaration }
{
    &[Goal::Begin, Goal::Forget, Goal::Definitions, Goal::Join]
}

/// `(MODE | PRIO | OP | PROC | [LOC | HEAP] declarer) definition {',' ..}`: a declaration, and those that commas join to it.
pub fn definitions(text: &[Sym]) -> &'static [Goal]
    ensures { result.now ≡ spec.definitions text.now }
{
    if starts(text, Sym::Is(Token::Mode)) {
        &[
            Goal::Take(Token::Mode),
            Goal::Definition(Defining::Mode),
            Goal::Tail(Defining::Mode),
        ]
    } else if starts(text, Sym::Is(Token::Prio)) {
        &[
            Goal::Take(Token::Prio),
            Goal::Definition(Defining::Priority),
            Goal::Tail(Defining::Priority),
        ]
    } else if starts(text, Sym::Is(Token::Op)) {
        &[Goal::Take(Token::Op), Goal::OperatorForm]
    } else if starts_pair(text, Sym::Is(Token::Proc), Sym::Is(Token::Tag)) {
        &[Goal::Take(Token::Proc), Goal::ProcedureForm]
    } else if starts(text, Sym::Is(Token::Loc)) {
        &[
            Goal::Take(Token::Loc),
            Goal::Begin,
            Goal::Declarer,
            Goal::SetAside(NodeKind::Declarer),
            Goal::Definition(Defining::Variable),
            Goal::Tail(Defining::Variable),
        ]
    } else if starts(text, Sym::Is(Token::Heap)) {
        &[
            Goal::Begin,
            Goal::Take(Token::Heap),
            Goal::SetAside(NodeKind::Heap),
            Goal::Begin,
            Goal::Declarer,
            Goal::SetAside(NodeKind::Declarer),
            Goal::Definition(Defining::Variable),
            Goal::Tail(Defining::Variable),
        ]
    } else {
        &[
            Goal::Begin,
            Goal::Declarer,
            Goal::SetAside(NodeKind::Declarer),
            Goal::Named,
        ]
    }
}

/// `[plan] sign '=' ..`, behind OP.
pub fn operator_form(text: &[Sym]) -> &'static [Goal]
    ensures { result.now ≡ spec.operator_form text.now }
{
    if starts(text, Sym::Opens(Bracket::Round)) {
        &[
            Goal::Begin,
            Goal::Plan,
            Goal::SetAside(NodeKind::Plan),
            Goal::Definition(Defining::Planned),
            Goal::Tail(Defining::Planned),
        ]
    } else {
        &[
            Goal::Definition(Defining::Operator),
            Goal::Tail(Defining::Operator),
        ]
    }
}

/// `tag ('=' | ':=') routine`, behind PROC.
pub fn procedure_form(text: &[Sym]) -> &'static [Goal]
    ensures { result.now ≡ spec.procedure_form text.now }
{
    if starts_pair(text, Sym::Is(Token::Tag), Sym::Is(Token::Becomes)) {
        &[
            Goal::Definition(Defining::ProcedureVariable),
            Goal::Tail(Defining::ProcedureVariable),
        ]
    } else {
        &[
            Goal::Definition(Defining::Procedure),
            Goal::Tail(Defining::Procedure),
        ]
    }
}

/// `tag '=' unit | tag [':=' unit]`, behind the declarer.
pub fn named(text: &[Sym]) -> &'static [Goal]
    ensures { result.now ≡ spec.named text.now }
{
    if starts_pair(text, Sym::Is(Token::Tag), Sym::Is(Token::Equals)) {
        &[
            Goal::Definition(Defining::Identity),
            Goal::Tail(Defining::Identity),
        ]
    } else {
        &[
            Goal::Definition(Defining::Variable),
            Goal::Tail(Defining::Variable),
        ]
    }
}

/// `'(' declarer [',' declarer] ')' (declarer | VOID)`
pub fn plan() -> &'static [Goal]
    ensures { result.now ≡ spec.plan }
{
    &[
        Goal::Opens(Bracket::Round),
        Goal::DeclarerNode,
        Goal::PlanTail,
        Goal::Closes(Bracket::Round),
        Goal::Yields,
    ]
}

/// `[',' declarer]`
pub fn plan_tail(text: &[Sym]) -> &'static [Goal]
    ensures { result.now ≡ spec.plan_tail text.now }
{
    if starts(text, Sym::Is(Token::Comma)) {
        &[Goal::Take(Token::Comma), Goal::DeclarerNode]
    } else {
        &[]
    }
}

/// `[':=' unit]`
pub fn initial(text: &[Sym]) -> &'static [Goal]
    ensures { result.now ≡ spec.initial text.now }
{
    if starts(text, Sym::Is(Token::Becomes)) {
        &[Goal::Take(Token::Becomes), Goal::Unit]
    } else {
        &[]
    }
}

/// `word '=' declarer | sign '=' (digit | routine | unit) | tag ('=' | ':=') routine | tag '=' unit | tag [':=' unit]`, by what
/// is defined, as a node.
pub fn definition(defining: Defining) -> &'static [Goal]
    ensures { result.now ≡ spec.definition defining }
{
    match defining {
        Defining::Mode => &[
            Goal::Begin,
            Goal::Take(Token::ModeWord),
            Goal::Take(Token::Equals),
            Goal::DeclarerNode,
            Goal::Close(NodeKind::ModeDefinition),
        ],
        Defining::Priority => &[
            Goal::Begin,
            Goal::Operator,
            Goal::Take(Token::Equals),
            Goal::Begin,
            Goal::Take(Token::Digit),
            Goal::Close(NodeKind::Digit),
            Goal::Close(NodeKind::Priority),
        ],
        Defining::Operator => &[
            Goal::Begin,
            Goal::Operator,
            Goal::Take(Token::Equals),
            Goal::Begin,
            Goal::Routine,
            Goal::Close(NodeKind::RoutineText),
            Goal::Close(NodeKind::OpDefinition),
        ],
        Defining::Planned => &[
            Goal::Begin,
            Goal::Share,
            Goal::Operator,
            Goal::Take(Token::Equals),
            Goal::Unit,
            Goal::Close(NodeKind::OpDefinition),
        ],
        Defining::Identity => &[
            Goal::Begin,
            Goal::Share,
            Goal::Take(Token::Tag),
            Goal::Take(Token::Equals),
            Goal::Unit,
            Goal::Close(NodeKind::IdentityDefinition),
        ],
        Defining::Procedure => &[
            Goal::Begin,
            Goal::Take(Token::Tag),
            Goal::Take(Token::Equals),
            Goal::Begin,
            Goal::Routine,
            Goal::Close(NodeKind::RoutineText),
            Goal::Close(NodeKind::IdentityDefinition),
        ],
        Defining::ProcedureVariable => &[
            Goal::Begin,
            Goal::Take(Token::Tag),
            Goal::Take(Token::Becomes),
            Goal::Begin,
            Goal::Routine,
            Goal::Close(NodeKind::RoutineText),
            Goal::Close(NodeKind::Variable),
        ],
        Defining::Variable => &[
            Goal::Begin,
            Goal::Share,
            Goal::Take(Token::Tag),
            Goal::Initial,
            Goal::Close(NodeKind::Variable),
        ],
    }
}

fn comma_more(defining: Defining) -> &'static [Goal]
    ensures { result.now ≡ spec.comma_more defining }
{
    match defining {
        Defining::Mode => &[Goal::Take(Token::Comma), Goal::More(Defining::Mode)],
        Defining::Priority => &[Goal::Take(Token::Comma), Goal::More(Defining::Priority)],
        Defining::Operator => &[Goal::Take(Token::Comma), Goal::More(Defining::Operator)],
        Defining::Planned => &[Goal::Take(Token::Comma), Goal::More(Defining::Planned)],
        Defining::Identity => &[Goal::Take(Token::Comma), Goal::More(Defining::Identity)],
        Defining::Procedure => &[Goal::Take(Token::Comma), Goal::More(Defining::Procedure)],
        Defining::ProcedureVariable => &[
            Goal::Take(Token::Comma),
            Goal::More(Defining::ProcedureVariable),
        ],
        Defining::Variable => &[Goal::Take(Token::Comma), Goal::More(Defining::Variable)],
    }
}

/// `{',' definition}`, of the same declaration or of others.
pub fn tail(defining: Defining, text: &[Sym]) -> &'static [Goal]
    ensures { result.now ≡ spec.tail defining text.now }
{
    if starts(text, Sym::Is(Token::Comma)) {
        comma_more(defining)
    } else {
        &[]
    }
}

fn definition_tail(defining: Defining) -> &'static [Goal]
    ensures { result.now ≡ spec.definition_tail defining }
{
    match defining {
        Defining::Mode => &[Goal::Definition(Defining::Mode), Goal::Tail(Defining::Mode)],
        Defining::Priority => &[
            Goal::Definition(Defining::Priority),
            Goal::Tail(Defining::Priority),
        ],
        Defining::Operator => &[
            Goal::Definition(Defining::Operator),
            Goal::Tail(Defining::Operator),
        ],
        Defining::Planned => &[
            Goal::Definition(Defining::Planned),
            Goal::Tail(Defining::Planned),
        ],
        Defining::Identity => &[
            Goal::Definition(Defining::Identity),
            Goal::Tail(Defining::Identity),
        ],
        Defining::Procedure => &[
            Goal::Definition(Defining::Procedure),
            Goal::Tail(Defining::Procedure),
        ],
        Defining::ProcedureVariable => &[
            Goal::Definition(Defining::ProcedureVariable),
            Goal::Tail(Defining::ProcedureVariable),
        ],
        Defining::Variable => &[
            Goal::Definition(Defining::Variable),
            Goal::Tail(Defining::Variable),
        ],
    }
}

// Whether one more definition of the same declaration stands behind the comma.
fn goes_on(defining: Defining, text: &[Sym]) -> bool
    ensures { result ≡ spec.goes_on defining text.now }
{
    match defining {
        Defining::Mode => starts_pair(text, Sym::Is(Token::ModeWord), Sym::Is(Token::Equals)),
        Defining::Priority | Defining::Operator | Defining::Planned => is_operator(text),
        Defining::Identity
        | Defining::Procedure
        | Defining::ProcedureVariable
        | Defining::Variable => starts(text, Sym::Is(Token::Tag)),
    }
}

/// `definition | declaration`, behind the comma: a definition of the same declaration, or another declaration.
pub fn more(defining: Defining, text: &[Sym]) -> &'static [Goal]
    ensures { result.now ≡ spec.more defining text.now }
{
    if goes_on(defining, text) {
        definition_tail(defining)
    } else {
        &[Goal::Forget, Goal::Definitions]
    }
}
