//! What is to be read: closed, collateral and parallel clauses, choices and loops.
ghost use Rattle.std.specs.Prelude.{◌≡◌};
ghost use Rattle.a68_productions.specs.Clauses as spec;

use a68_lookahead::{label_ahead, phrase_ahead, spec_ahead, starts};
use a68_symbols::{Bracket, Sym, Token};
use a68_tree::NodeKind;
use a68_unit_productions::Goal;

/// `'(' .. | BEGIN .. | PAR .. | IF enquiry THEN serial [else] FI | CASE enquiry IN .. | [FOR tag] loop`, by the first symbol.
pub fn enclosed(text: &[Sym]) -> &'static [Goal]
    ensures { result.now ≡ spec.enclosed text.now }
{
    if starts(text, Sym::Opens(Bracket::Round)) {
        &[Goal::Opens(Bracket::Round), Goal::Brief]
    } else if starts(text, Sym::Opens(Bracket::Begin)) {
        &[Goal::Opens(Bracket::Begin), Goal::Block]
    } else if starts(text, Sym::Is(Token::Par)) {
        &[Goal::Take(Token::Par), Goal::Parallel]
    } else if starts(text, Sym::Opens(Bracket::If)) {
        &[
            Goal::Opens(Bracket::If),
            Goal::EnquiryNode,
            Goal::Take(Token::Then),
            Goal::SerialNode,
            Goal::ElsePart,
            Goal::Closes(Bracket::If),
            Goal::Wrap(NodeKind::Conditional),
        ]
    } else if starts(text, Sym::Opens(Bracket::Case)) {
        &[
            Goal::Opens(Bracket::Case),
            Goal::EnquiryNode,
            Goal::Take(Token::In),
            Goal::CaseChoice,
        ]
    } else if starts(text, Sym::Is(Token::For)) {
        &[
            Goal::Take(Token::For),
            Goal::Begin,
            Goal::Take(Token::Tag),
            Goal::Close(NodeKind::For),
            Goal::LoopFrom,
            Goal::Wrap(NodeKind::Loop),
        ]
    } else {
        &[Goal::LoopFrom, Goal::Wrap(NodeKind::Loop)]
    }
}

/// `')' | unit ',' units ')' | serial ')' | enquiry '|' ..`, behind `(`.
pub fn brief(text: &[Sym]) -> &'static [Goal]
    ensures { result.now ≡ spec.brief text.now }
{
    if starts(text, Sym::Closes(Bracket::Round)) {
        &[Goal::Closes(Bracket::Round), Goal::Wrap(NodeKind::Vacuum)]
    } else if label_ahead(text) {
        &[Goal::Begin, Goal::Labelled, Goal::BriefLabelled]
    } else if phrase_ahead(text) {
        &[
            Goal::Begin,
            Goal::Declaration,
            Goal::Take(Token::Semicolon),
            Goal::BriefSteps,
        ]
    } else {
        &[Goal::Begin, Goal::Unit, Goal::BriefUnit]
    }
}

/// `',' units ')' | ..`, behind `(` and a unit: one more unit, or the rest of a serial clause.
pub fn brief_unit(text: &[Sym]) -> &'static [Goal]
    ensures { result.now ≡ spec.brief_unit text.now }
{
    if starts(text, Sym::Is(Token::Comma)) {
        &[
            Goal::Leave,
            Goal::Take(Token::Comma),
            Goal::Units,
            Goal::Closes(Bracket::Round),
            Goal::Wrap(NodeKind::Collateral),
        ]
    } else {
        &[Goal::BriefTail]
    }
}

/// `';' steps .. | EXIT labelled ')' | ..`, behind `(` and a unit of a serial clause in which no label stands yet: a bar may
/// follow such a clause alone, which is then an enquiry.
pub fn brief_tail(text: &[Sym]) -> &'static [Goal]
    ensures { result.now ≡ spec.brief_tail text.now }
{
    if starts(text, Sym::Is(Token::Semicolon)) {
        &[Goal::Take(Token::Semicolon), Goal::BriefSteps]
    } else if starts(text, Sym::Is(Token::Exit)) {
        &[
            Goal::Begin,
            Goal::Take(Token::Exit),
            Goal::Close(NodeKind::Exit),
            Goal::Labelled,
            Goal::BriefLabelled,
        ]
    } else {
        &[Goal::Close(NodeKind::Serial), Goal::BriefEnd]
    }
}

/// `labelled ')' | phrase ..`, behind `(` and one phrase or several.
pub fn brief_steps(text: &[Sym]) -> &'static [Goal]
    ensures { result.now ≡ spec.brief_steps text.now }
{
    if label_ahead(text) {
        &[Goal::Labelled, Goal::BriefLabelled]
    } else if phrase_ahead(text) {
        &[
            Goal::Declaration,
            Goal::Take(Token::Semicolon),
            Goal::BriefSteps,
        ]
    } else {
        &[Goal::Unit, Goal::BriefTail]
    }
}

/// `')'`, behind `(` and a serial clause with labels.
pub fn brief_labelled() -> &'static [Goal]
    ensures { result.now ≡ spec.brief_labelled }
{
    &[
        Goal::Close(NodeKind::Serial),
        Goal::Closes(Bracket::Round),
        Goal::Wrap(NodeKind::Closed),
    ]
}

/// `'|' .. | ')'`, behind `(` and a serial clause without labels.
pub fn brief_end(text: &[Sym]) -> &'static [Goal]
    ensures { result.now ≡ spec.brief_end text.now }
{
    if starts(text, Sym::Is(Token::Bar)) {
        &[Goal::Take(Token::Bar), Goal::BriefChoice]
    } else {
        &[Goal::Closes(Bracket::Round), Goal::Wrap(NodeKind::Closed)]
    }
}

/// `choices [out] ')' | serial [else] ')' | unit ',' units [out] ')'`, behind the first bar.
pub fn brief_choice(text: &[Sym]) -> &'static [Goal]
    ensures { result.now ≡ spec.brief_choice text.now }
{
    if spec_ahead(text) {
        &[
            Goal::Choices,
            Goal::OutConformityBrief,
            Goal::Closes(Bracket::Round),
            Goal::Wrap(NodeKind::Conformity),
        ]
    } else if label_ahead(text) {
        &[
            Goal::Begin,
            Goal::Labelled,
            Goal::Close(NodeKind::Serial),
            Goal::ElseBrief,
            Goal::Closes(Bracket::Round),
            Goal::Wrap(NodeKind::Conditional),
        ]
    } else if phrase_ahead(text) {
        &[
            Goal::Begin,
            Goal::Declaration,
            Goal::Take(Token::Semicolon),
            Goal::Serial,
            Goal::Close(NodeKind::Serial),
            Goal::ElseBrief,
            Goal::Closes(Bracket::Round),
            Goal::Wrap(NodeKind::Conditional),
        ]
    } else {
        &[Goal::Begin, Goal::Unit, Goal::BriefChosen]
    }
}

/// `',' units [out] ')' | [';' serial | EXIT labelled] [else] ')'`, behind the first bar and a unit.
pub fn brief_chosen(text: &[Sym]) -> &'static [Goal]
    ensures { result.now ≡ spec.brief_chosen text.now }
{
    if starts(text, Sym::Is(Token::Comma)) {
        &[
            Goal::Leave,
            Goal::Take(Token::Comma),
            Goal::Units,
            Goal::OutCaseBrief,
            Goal::Closes(Bracket::Round),
            Goal::Wrap(NodeKind::Case),
        ]
    } else {
        &[
            Goal::SerialTail,
            Goal::Close(NodeKind::Serial),
            Goal::ElseBrief,
            Goal::Closes(Bracket::Round),
            Goal::Wrap(NodeKind::Conditional),
        ]
    }
}

/// `END | unit ',' units END | serial END`, behind BEGIN.
pub fn block(text: &[Sym]) -> &'static [Goal]
    ensures { result.now ≡ spec.block text.now }
{
    if starts(text, Sym::Closes(Bracket::Begin)) {
        &[Goal::Closes(Bracket::Begin), Goal::Wrap(NodeKind::Vacuum)]
    } else if label_ahead(text) {
        &[
            Goal::Begin,
            Goal::Labelled,
            Goal::Close(NodeKind::Serial),
            Goal::Closes(Bracket::Begin),
            Goal::Wrap(NodeKind::Closed),
        ]
    } else if phrase_ahead(text) {
        &[
            Goal::Begin,
            Goal::Declaration,
            Goal::Take(Token::Semicolon),
            Goal::Serial,
            Goal::Close(NodeKind::Serial),
            Goal::Closes(Bracket::Begin),
            Goal::Wrap(NodeKind::Closed),
        ]
    } else {
        &[Goal::Begin, Goal::Unit, Goal::BlockUnit]
    }
}

/// `',' units END | [';' serial | EXIT labelled] END`, behind BEGIN and a unit.
pub fn block_unit(text: &[Sym]) -> &'static [Goal]
    ensures { result.now ≡ spec.block_unit text.now }
{
    if starts(text, Sym::Is(Token::Comma)) {
        &[
            Goal::Leave,
            Goal::Take(Token::Comma),
            Goal::Units,
            Goal::Closes(Bracket::Begin),
            Goal::Wrap(NodeKind::Collateral),
        ]
    } else {
        &[
            Goal::SerialTail,
            Goal::Close(NodeKind::Serial),
            Goal::Closes(Bracket::Begin),
            Goal::Wrap(NodeKind::Closed),
        ]
    }
}

/// `'(' units ')' | BEGIN units END`, behind PAR.
pub fn parallel(text: &[Sym]) -> &'static [Goal]
    ensures { result.now ≡ spec.parallel text.now }
{
    if starts(text, Sym::Opens(Bracket::Round)) {
        &[
            Goal::Opens(Bracket::Round),
            Goal::Units,
            Goal::Closes(Bracket::Round),
            Goal::Wrap(NodeKind::Parallel),
        ]
    } else {
        &[
            Goal::Opens(Bracket::Begin),
            Goal::Units,
            Goal::Closes(Bracket::Begin),
            Goal::Wrap(NodeKind::Parallel),
        ]
    }
}

/// `choices [out] ESAC | unit ',' units [out] ESAC`, behind CASE, the enquiry and IN.
pub fn case_choice(text: &[Sym]) -> &'static [Goal]
    ensures { result.now ≡ spec.case_choice text.now }
{
    if spec_ahead(text) {
        &[
            Goal::Choices,
            Goal::OutConformity,
            Goal::Closes(Bracket::Case),
            Goal::Wrap(NodeKind::Conformity),
        ]
    } else {
        &[
            Goal::Unit,
            Goal::Take(Token::Comma),
            Goal::Units,
            Goal::OutCase,
            Goal::Closes(Bracket::Case),
            Goal::Wrap(NodeKind::Case),
        ]
    }
}
