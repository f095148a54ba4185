//! The rules that a node of a tree may break.
ghost use Rattle.std.specs.Prelude.{◌≡◌};
ghost use Rattle.a68_refusals.specs.Order as specs;

use a68_base::Rule;

/// A rule that a node may break, in the order in which a node's rules are told.
#[derive(Clone, Copy, Debug, PartialEq, Eq)]
pub enum NodeRule {
    N1,
    N4,
    O1,
    C1,
    C2,
    C3,
    P1,
    P2,
    J1,
    J2,
}

/// Gives the place of a rule in the order.
pub fn rank(rule: NodeRule) -> u32
    ensures { result ≡ specs.rank rule }
{
    match rule {
        NodeRule::N1 => 0,
        NodeRule::N4 => 1,
        NodeRule::O1 => 2,
        NodeRule::C1 => 3,
        NodeRule::C2 => 4,
        NodeRule::C3 => 5,
        NodeRule::P1 => 6,
        NodeRule::P2 => 7,
        NodeRule::J1 => 8,
        NodeRule::J2 => 9,
    }
}

/// Gives the rule as it is told.
pub fn rule_of(rule: NodeRule) -> Rule
    ensures { result ≡ specs.rule_of rule }
{
    match rule {
        NodeRule::N1 => Rule::N1,
        NodeRule::N4 => Rule::N4,
        NodeRule::O1 => Rule::O1,
        NodeRule::C1 => Rule::C1,
        NodeRule::C2 => Rule::C2,
        NodeRule::C3 => Rule::C3,
        NodeRule::P1 => Rule::P1,
        NodeRule::P2 => Rule::P2,
        NodeRule::J1 => Rule::J1,
        NodeRule::J2 => Rule::J2,
    }
}
