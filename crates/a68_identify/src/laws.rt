//! What holds of the operators of every formula.
ghost use Rattle.std.specs.Prelude.{◌≡◌, ◌≤◌, ℕ, List, length};
ghost use Rattle.a68_coerce.specs.Kept.{InterningKeeps};
ghost use Rattle.a68_coerce.specs.declared.leaf.Leaf.{Leaf};
ghost use Rattle.a68_declare.specs.Outcome.{AreModesOf, ByNode};
ghost use Rattle.a68_identify.specs.Identified.{IsOperator};
ghost use Rattle.a68_identify.specs.Kept.{KeepOperators};
ghost use Rattle.a68_identify.specs.Operators.{NumbersAreThere};
ghost use Rattle.a68_identify.specs.declared.identified.Identified.{Identified};
ghost use Rattle.a68_modes.specs.declared.shape.Shape.{Shape};
ghost use Rattle.a68_tree.specs.Trees.{Built};

/// A law: a formula applies one operator to its operands, or none.
pub fn operators_are_one()
    ensures { (tree : Built) (nodes : List Shape) (of : ByNode) (at sign : ℕ) (operands : List (List Leaf)) (one other : Identified)
        → IsOperator tree nodes of at sign operands one → IsOperator tree nodes of at sign operands other → one ≡ other }
{}

/// A law: the modes that are found of the declarers of a tree are there, and they stay there where others are added.
pub fn declared_modes_are_there()
    ensures found { (tree : Built) (nodes : List Shape) (of : ByNode) → AreModesOf tree nodes of → NumbersAreThere tree nodes of }
    ensures stay { (tree : Built) (nodes new : List Shape) (of : ByNode) → length nodes ≤ length new → NumbersAreThere tree nodes of → NumbersAreThere tree new of }
{}

/// A law: interning a mode changes the operator of no formula whose operands yield modes that were there, where the members of
/// unions have no FLEX.
pub fn interning_keeps_operators()
    ensures { InterningKeeps KeepOperators }
{}
