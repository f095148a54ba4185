//! What holds of every tree.
ghost use Rattle.std.specs.Prelude.{◌≡◌, ◌⊎◌, ◌*◌, ◌≤◌, ℕ, List, length, slice_get, Some};
ghost use Rattle.a68_symbols.specs.declared.symbol.Symbol.{Symbol};
ghost use Rattle.a68_tree.specs.declared.node.Node.{Node};
ghost use Rattle.a68_tree.specs.Forest.{Forest, Single, Several};
ghost use Rattle.a68_tree.specs.Grammar.{IsDefinitions};
ghost use Rattle.a68_symbols.specs.declared.sym.Sym.{Sym};
ghost use Rattle.a68_tree.specs.Derived.{IsDerived};
ghost use Rattle.a68_tree.specs.Trees.{AllBetween};

/// A law: every part of a node stands behind it, and there are at most three nodes for each symbol.
pub fn derived_trees_are_lists()
    ensures behind { (symbols : List Symbol) (text : List Sym) (list : List Node) → IsDerived symbols text list
        → (i : ℕ) (n : Node) → slice_get list i ≡ Some n → AllBetween i (length list) n.parts }
    ensures few { (symbols : List Symbol) (text : List Sym) (list : List Node) → IsDerived symbols text list → length list ≤ 3 * length text }
{}

/// A law: the definitions of a phrase are one or several, so each of them has a place in the tree.
pub fn definitions_are_one_or_several()
    ensures { (f : Forest) → IsDefinitions f → (Single f ⊎ Several f) }
{}
