//! Laws of the definitions: what they say in other words.
ghost use Rattle.std.specs.Prelude.{◌≡◌, ◌≢◌, ◌<◌, ◌↔◌, ◌^◌, List, ℕ, ℤ, pos, bit_or};
ghost use Rattle.std.specs.List.{All};
ghost use Rattle.a68_ops.specs.Fitting.{IsFitting};
ghost use Rattle.a68_ops.specs.Integers.{modulo};
ghost use Rattle.a68_ops.specs.Laws.{IsRest, BitsAreWithin};
ghost use Rattle.a68_signs.specs.Signs.{candidates};

/// States that MOD gives a rest that is at least 0 and below the size of the divisor (Report, 10.2.3.3).
pub fn mod_gives_a_rest()
    ensures { (a b : ℤ) → b ≢ pos 0 → IsRest a b (modulo a b) }
{}

/// States that one value of BITS is at most another exactly where each place that is set in it is set in the other (Report,
/// 10.2.3.8).
pub fn at_most_is_told_by_places()
    ensures { (a b : ℕ) → a < 2 ^ 64 → (bit_or a b ≡ b) ↔ BitsAreWithin a b }
{}

/// States that set values of the modes that an operator of the table takes meet neither Unset nor Kind in a row that
/// yields at once, and that what it yields then has the mode that the table tells (Report, 10.2.3).
pub fn operators_fit_their_modes()
    ensures { (sign : List ℕ) (operands : ℕ) → All IsFitting (candidates sign operands) }
{}
