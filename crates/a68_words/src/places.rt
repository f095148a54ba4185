//! The places at which words are defined, and the first at which a text is too deep.
ghost use Rattle.std.specs.Prelude.{◌≡◌, ◌<◌, ◌^◌, length, IfOk};
ghost use Rattle.a68_words.specs.declared.class.Class.TheVariants.{ModeWord, OperatorWord};
ghost use Rattle.a68_words.specs.Definitions.{Defines};
ghost use Rattle.a68_words.specs.Levels.{IsTooDeep};
ghost use Rattle.a68_words.specs.Levels as levels;
ghost use Rattle.a68_words.specs.Steps as steps;

use crate::Class;
use crate::levels::{Levels, OpenLevel};
use crate::role::Role;
use a68_base::NoMemory;
use std::alloc::Global;

/// For each symbol whether it is defined as a mode and whether it is defined as an operator there; and the first symbol
/// that is too deep.
#[derive(Drop)]
pub struct DefinedWords {
    pub modes: Vec<bool>,
    pub operators: Vec<bool>,
    pub too_deep: Option<usize>,
}

/// The first symbol so far, where symbol `i` is one or not.
pub fn first(found: Option<usize>, holds: bool, i: usize) -> Option<usize>
    ensures { result ≡ steps.first found holds i }
{
    match found {
        Some(k) => Some(k),
        None => { if holds { Some(i) } else { None } }
    }
}

/// The role of that symbol; behind the last one there are only other symbols.
pub fn role_at(roles: &[Role], i: usize) -> Role
    ensures { result ≡ levels.role_at roles.now i }
{
    if i < roles.len() {
        roles[i]
    } else {
        Role::Other
    }
}

// The role of the symbol in front of that one.
fn role_before(roles: &[Role], i: usize) -> Role
    ensures { result ≡ steps.role_before roles.now i }
{
    if i == 0 {
        Role::Other
    } else {
        role_at(roles, i - 1)
    }
}

fn is_mode_word(class: Option<Class>) -> bool
    ensures { result ≡ steps.is_mode_word class }
{
    matches!(class, Some(Class::ModeWord))
}

fn is_operator_word(class: Option<Class>) -> bool
    ensures { result ≡ steps.is_operator_word class }
{
    matches!(class, Some(Class::OperatorWord))
}

// Is a symbol between those defined as a mode there?
fn as_mode(previous: Role, role: Role, next: Role, level: &OpenLevel) -> bool
    ensures { result ≡ steps.as_mode previous role next level.now }
{
    role.is_definable()
        && (previous.is_mode()
            || previous.is_comma() && next.is_equals() && is_mode_word(level.last))
}

// Is it defined as an operator?
fn as_operator(previous: Role, role: Role, next: Role, level: &OpenLevel) -> bool
    ensures { result ≡ steps.as_operator previous role next level.now }
{
    role.is_definable()
        && (previous.is_operator_definer()
            || next.is_equals()
                && (level.waits || previous.is_comma() && is_operator_word(level.last)))
}

/// Walks over the levels of a text.
pub fn walk(alloc: Global, roles: &[Role]) -> Result<DefinedWords, NoMemory>
    requires { length roles.now < 2 ^ 32 }
    ensures modes { IfOk result (λ found. steps.AreFlags (λ i. Defines roles.now i ModeWord) (length roles.now) found.modes.items) }
    ensures operators { IfOk result (λ found. steps.AreFlags (λ i. Defines roles.now i OperatorWord) (length roles.now) found.operators.items) }
    ensures deep { IfOk result (λ found. steps.IsFirstSymbol (IsTooDeep roles.now) (length roles.now) found.too_deep) }
{
    let mut levels = Levels::new(alloc);
    let mut modes = Vec::new(alloc);
    let mut operators = Vec::new(alloc);
    let mut too_deep = None;
    for i in 0..roles.len() {
        let role = role_at(roles, i);
        let previous = role_before(roles, i);
        let next = role_at(roles, i + 1);
        levels.reach(role);
        let level = levels.top();
        modes.push(as_mode(previous, role, next, &level))?;
        operators.push(as_operator(previous, role, next, &level))?;
        too_deep = first(too_deep, levels.is_over(role), i);
        levels.leave(i, previous, role)?;
    }
    Ok(DefinedWords {
        modes,
        operators,
        too_deep,
    })
}
