//! Signs without a priority.
ghost use Rattle.std.specs.Prelude.{◌≡◌, length};
ghost use Rattle.a68_op_ident.specs.Inner as inner;
ghost use Rattle.a68_op_ident.specs.Inner.{IsLeastNumber, IsLateToken};

use crate::FormulaPart;

/// The lesser one of two, if any.
pub fn lesser(one: Option<u32>, other: Option<u32>) -> Option<u32>
    ensures { result ≡ inner.lesser one other }
{
    match one {
        None => other,
        Some(a) => match other {
            None => one,
            Some(b) => { if a <= b { one } else { other } }
        },
    }
}

// The place of a dyadic sign that has no priority.
fn late_of(token: FormulaPart) -> Option<u32>
    ensures { result ≡ inner.late_of token }
{
    match token {
        FormulaPart::Operand(_) => None,
        FormulaPart::Monad(_) => None,
        FormulaPart::Dyad(sign, priority) => match priority {
            None => Some(sign.from),
            Some(_) => None,
        },
    }
}

/// The first place in the text of a dyadic sign that has no priority.
pub fn first_late(tokens: &[FormulaPart]) -> Option<u32>
    ensures { IsLeastNumber (IsLateToken tokens.now (length tokens.now)) result }
{
    let mut late = None;
    for k in 0..tokens.len() {
        late = lesser(late, late_of(tokens[k]));
    }
    late
}
