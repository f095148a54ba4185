//! Symbols that are taken.
ghost use Rattle.std.specs.Prelude.{◌≡◌, ◌<◌, ◌∷◌, length, true, MatchOption, IfSome, IfOk};
ghost use Rattle.a68_unit_productions.specs.declared.goal.Goal.TheVariants as g;
ghost use Rattle.a68_read.specs.Weights.{is_taking};
ghost use Rattle.a68_tree.specs.Grammar.{IsMonadic, IsSign, IsDenotation, IsPlain};
ghost use Rattle.a68_nodes.specs.Views.{DraftState};
ghost use Rattle.a68_read.specs.Readings.{Lacks, LacksAny, FirstOf, Takes};

use crate::unread::Unread;
use a68_lookahead::{is_denotation, is_monadic, is_operator, is_plain};
use a68_nodes::Drafting;
use a68_symbols::{Bracket, Sym, Token};
use a68_unit_productions::Goal;

/// What stands behind that symbol, where the text begins with it.
fn behind(text: &[Sym], wanted: Sym) -> Option<&[Sym]>
    ensures rest { MatchOption result (Lacks wanted text.now) (λ rest. text.now ≡ wanted ∷ rest.now) }
    ensures shorter { IfSome result (λ rest. length rest.now < length text.now) }
{
    let (first, rest) = text.split_first()?;
    if *first == wanted { Some(rest) } else { None }
}

/// What stands behind the first symbol, where it is an operator that may stand before an operand alone.
fn behind_monadic(text: &[Sym]) -> Option<&[Sym]>
    ensures rest { MatchOption result (LacksAny IsMonadic text.now) (λ rest. FirstOf IsMonadic text.now rest.now) }
    ensures shorter { IfSome result (λ rest. length rest.now < length text.now) }
{
    let (_, rest) = text.split_first()?;
    if is_monadic(text) { Some(rest) } else { None }
}

/// What stands behind the first symbol, where it is an operator.
fn behind_operator(text: &[Sym]) -> Option<&[Sym]>
    ensures rest { MatchOption result (LacksAny IsSign text.now) (λ rest. FirstOf IsSign text.now rest.now) }
    ensures shorter { IfSome result (λ rest. length rest.now < length text.now) }
{
    let (_, rest) = text.split_first()?;
    if is_operator(text) { Some(rest) } else { None }
}

/// What stands behind the first symbol, where it is a denotation.
fn behind_denotation(text: &[Sym]) -> Option<&[Sym]>
    ensures rest { MatchOption result (LacksAny IsDenotation text.now) (λ rest. FirstOf IsDenotation text.now rest.now) }
    ensures shorter { IfSome result (λ rest. length rest.now < length text.now) }
{
    let (_, rest) = text.split_first()?;
    if is_denotation(text) {
        Some(rest)
    } else {
        None
    }
}

/// What stands behind the first symbol, where it is the word of a mode.
fn behind_plain(text: &[Sym]) -> Option<&[Sym]>
    ensures rest { MatchOption result (LacksAny IsPlain text.now) (λ rest. FirstOf IsPlain text.now rest.now) }
    ensures shorter { IfSome result (λ rest. length rest.now < length text.now) }
{
    let (_, rest) = text.split_first()?;
    if is_plain(text) { Some(rest) } else { None }
}

// An opening bracket.
fn opening<'a>(
    rest: &'a [Sym],
    bracket: Bracket,
    drafting: &mut Drafting,
) -> Result<&'a [Sym], Unread>
    ensures shorter { IfOk result (λ after. length after.now < length rest.now) }
    ensures takes { Takes (λ after. after.now) (g.Opens bracket) rest.now drafting.old drafting.new result }
{
    let Some(after) = behind(rest, Sym::Opens(bracket)) else {
        return Err(Unread::NoTree(rest.len()));
    };
    drafting.bracket(after)?;
    Ok(after)
}

// A closing bracket.
fn closing<'a>(
    rest: &'a [Sym],
    bracket: Bracket,
    drafting: &mut Drafting,
) -> Result<&'a [Sym], Unread>
    ensures shorter { IfOk result (λ after. length after.now < length rest.now) }
    ensures takes { Takes (λ after. after.now) (g.Closes bracket) rest.now drafting.old drafting.new result }
{
    let Some(after) = behind(rest, Sym::Closes(bracket)) else {
        return Err(Unread::NoTree(rest.len()));
    };
    drafting.unbracket();
    Ok(after)
}

// A sign before an operand.
fn monadic<'a>(rest: &'a [Sym], drafting: &mut Drafting) -> Result<&'a [Sym], Unread>
    ensures shorter { IfOk result (λ after. length after.now < length rest.now) }
    ensures takes { Takes (λ after. after.now) g.Monadic rest.now drafting.old drafting.new result }
{
    let Some(after) = behind_monadic(rest) else {
        return Err(Unread::NoTree(rest.len()));
    };
    drafting.sign(after)?;
    Ok(after)
}

// A sign behind an operand.
fn dyadic<'a>(rest: &'a [Sym], drafting: &mut Drafting) -> Result<&'a [Sym], Unread>
    ensures shorter { IfOk result (λ after. length after.now < length rest.now) }
    ensures takes { Takes (λ after. after.now) g.Dyadic rest.now drafting.old drafting.new result }
{
    let Some(after) = behind_operator(rest) else {
        return Err(Unread::NoTree(rest.len()));
    };
    drafting.sign(after)?;
    Ok(after)
}

// A token.
fn token<'a>(rest: &'a [Sym], wanted: Token) -> Result<&'a [Sym], Unread>
    ensures shorter { IfOk result (λ after. length after.now < length rest.now) }
    ensures takes { (s : DraftState) → Takes (λ after. after.now) (g.Take wanted) rest.now s s result }
{
    match behind(rest, Sym::Is(wanted)) {
        Some(after) => Ok(after),
        None => Err(Unread::NoTree(rest.len())),
    }
}

// An operator that is defined.
fn operator<'a>(rest: &'a [Sym]) -> Result<&'a [Sym], Unread>
    ensures shorter { IfOk result (λ after. length after.now < length rest.now) }
    ensures takes { (s : DraftState) → Takes (λ after. after.now) g.Operator rest.now s s result }
{
    match behind_operator(rest) {
        Some(after) => Ok(after),
        None => Err(Unread::NoTree(rest.len())),
    }
}

// A denotation.
fn denotation<'a>(rest: &'a [Sym]) -> Result<&'a [Sym], Unread>
    ensures shorter { IfOk result (λ after. length after.now < length rest.now) }
    ensures takes { (s : DraftState) → Takes (λ after. after.now) g.Denotation rest.now s s result }
{
    match behind_denotation(rest) {
        Some(after) => Ok(after),
        None => Err(Unread::NoTree(rest.len())),
    }
}

// The word of a mode.
fn plain<'a>(rest: &'a [Sym]) -> Result<&'a [Sym], Unread>
    ensures shorter { IfOk result (λ after. length after.now < length rest.now) }
    ensures takes { (s : DraftState) → Takes (λ after. after.now) g.Plain rest.now s s result }
{
    match behind_plain(rest) {
        Some(after) => Ok(after),
        None => Err(Unread::NoTree(rest.len())),
    }
}

/// Takes the symbol that the goal is to take. Gives the text behind it.
pub fn take<'a>(goal: Goal, rest: &'a [Sym], drafting: &mut Drafting) -> Result<&'a [Sym], Unread>
    requires { is_taking goal ≡ true }
    ensures shorter { IfOk result (λ after. length after.now < length rest.now) }
    ensures takes { Takes (λ after. after.now) goal rest.now drafting.old drafting.new result }
{
    match goal {
        Goal::Take(wanted) => token(rest, wanted),
        Goal::Opens(bracket) => opening(rest, bracket, drafting),
        Goal::Closes(bracket) => closing(rest, bracket, drafting),
        Goal::Monadic => monadic(rest, drafting),
        Goal::Dyadic => dyadic(rest, drafting),
        Goal::Operator => operator(rest),
        Goal::Denotation => denotation(rest),
        _ => plain(rest),
    }
}
