//! What holds of the first rule that a node of a tree breaks.
ghost use Rattle.std.specs.Prelude.{◌≡◌, ◌≤◌, ℕ, Option, Some, slice_get};
ghost use Rattle.a68_refusals.specs.First.{Asked, IsFirstRefused};
ghost use Rattle.a68_refusals.specs.declared.turn.Broken.{Broken};
ghost use Rattle.a68_tree.specs.declared.node.Node.{Node};

/// A law: by what is known of a tree, one rule is broken first, or none.
pub fn first_broken_is_one()
    ensures { (asked : Asked) (one other : Option Broken) → IsFirstRefused asked one → IsFirstRefused asked other → one ≡ other }
{}

/// A law: where the nodes and the symbols of a tree begin by a byte, the rule is told by that byte.
pub fn first_broken_begins_by()
    ensures { (asked : Asked) (end : ℕ) (broken : Broken) → ((id : ℕ) (n : Node) → slice_get asked.tree.nodes id ≡ Some n → n.span.from ≤ end)
        → ((i s : ℕ) → slice_get asked.tree.starts i ≡ Some s → s ≤ end) → IsFirstRefused asked (Some broken) → broken.place ≤ end }
{}
