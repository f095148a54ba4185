//! Goals by what is done for them.
ghost use Rattle.std.specs.Prelude.{◌≡◌};
ghost use Rattle.a68_read.specs.Weights as weights;

use a68_unit_productions::Goal;

/// Whether the goal is to take a symbol.
pub fn is_taking(goal: Goal) -> bool
    ensures { result ≡ weights.is_taking goal }
{
    match goal {
        Goal::Take(_)
        | Goal::Opens(_)
        | Goal::Closes(_)
        | Goal::Monadic
        | Goal::Dyadic
        | Goal::Operator
        | Goal::Denotation
        | Goal::Plain => true,
        _ => false,
    }
}
