//! The operators that yield at once.
ghost use Rattle.std.specs.Prelude.{◌≡◌};
ghost use Rattle.a68_ops.specs.Operators as spec;
ghost use Rattle.a68_ops.specs.Yields as yields;

use a68_signs::operators;
use a68_values::{FaultKind, Plain};

/// An operator between two operands.
#[derive(Clone, Copy, PartialEq, Eq)]
pub enum Dyadic {
    Or,
    And,
    Equal,
    NotEqual,
    Less,
    AtMost,
    AtLeast,
    Greater,
    Plus,
    Minus,
    Times,
    Over,
    Mod,
    Elem,
    Power,
    ShiftLeft,
    ShiftRight,
}

/// An operator before one operand.
#[derive(Clone, Copy, PartialEq, Eq)]
pub enum Monadic {
    Plus,
    Minus,
    Not,
    Abs,
    Sign,
    Odd,
    Repr,
    Bin,
    Leng,
    Shorten,
}

/// Finds the operator of a row.
#[inline(always)]
pub fn dyadic_of(row: u32) -> Option<Dyadic>
    ensures { result ≡ spec.dyadic_of row }
{
    match row {
        operators::OR => Some(Dyadic::Or),
        operators::AND => Some(Dyadic::And),
        operators::EQ => Some(Dyadic::Equal),
        operators::NE => Some(Dyadic::NotEqual),
        operators::LT => Some(Dyadic::Less),
        operators::LE => Some(Dyadic::AtMost),
        operators::GE => Some(Dyadic::AtLeast),
        operators::GT => Some(Dyadic::Greater),
        operators::PLUS => Some(Dyadic::Plus),
        operators::MINUS => Some(Dyadic::Minus),
        operators::TIMES => Some(Dyadic::Times),
        operators::OVER => Some(Dyadic::Over),
        operators::MOD => Some(Dyadic::Mod),
        operators::ELEM => Some(Dyadic::Elem),
        operators::POWER => Some(Dyadic::Power),
        operators::SHL => Some(Dyadic::ShiftLeft),
        operators::SHR => Some(Dyadic::ShiftRight),
        _ => None,
    }
}

/// Finds the operator of a row before one operand.
#[inline(always)]
pub fn monadic_of(row: u32) -> Option<Monadic>
    ensures { result ≡ spec.monadic_of row }
{
    match row {
        operators::POSITIVE => Some(Monadic::Plus),
        operators::NEGATIVE => Some(Monadic::Minus),
        operators::NOT => Some(Monadic::Not),
        operators::ABS => Some(Monadic::Abs),
        operators::SIGN => Some(Monadic::Sign),
        operators::ODD => Some(Monadic::Odd),
        operators::REPR => Some(Monadic::Repr),
        operators::BIN => Some(Monadic::Bin),
        operators::LENG => Some(Monadic::Leng),
        operators::SHORTEN => Some(Monadic::Shorten),
        _ => None,
    }
}

/// Yields a truth value.
#[inline(always)]
pub fn truth(holds: bool) -> Result<Plain, FaultKind>
    ensures { result ≡ yields.truth holds }
{
    Ok(Plain::Bool(holds))
}

/// Compares two operands of which it is known whether the left is less, and whether they are equal.
#[inline(always)]
pub fn compared(operator: Dyadic, less: bool, equal: bool) -> Result<Plain, FaultKind>
    ensures { result ≡ spec.compared operator less equal }
{
    match operator {
        Dyadic::Equal => truth(equal),
        Dyadic::NotEqual => truth(!equal),
        Dyadic::Less => truth(less),
        Dyadic::AtMost => truth(less || equal),
        Dyadic::AtLeast => truth(!less),
        Dyadic::Greater => truth(!(less || equal)),
        _ => Err(FaultKind::Kind),
    }
}
