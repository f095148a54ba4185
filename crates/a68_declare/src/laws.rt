//! What holds of the declarers of every tree whose ranges declare no word twice.
ghost use Rattle.std.specs.Prelude.{◌≡◌, ◌≤◌, ℕ, List, length, slice_get, Some};
ghost use Rattle.a68_base.specs.declared.refusal.Refusal.{Refusal};
ghost use Rattle.a68_declare.specs.Outcome.{AreModesOf, ByNode, IsFirstBroken};
ghost use Rattle.a68_modes.specs.declared.shape.Shape.{Shape};
ghost use Rattle.a68_ranges.specs.Twice.{IsTwice};
ghost use Rattle.a68_tree.specs.Trees.{Built};
ghost use Rattle.a68_tree.specs.declared.node.Node.{Node};

/// A law: where no word is declared twice, the declarers of a tree break one rule first, at one place; what breaks one has no
/// modes; and the modes of the others are one list, in which each declarer has one number.
pub fn declarations_are_one()
    ensures refusal { (tree : Built) → ((id : ℕ) → IsTwice tree id → ⊥) → (r s : Refusal) → IsFirstBroken tree r → IsFirstBroken tree s
        → (r.rule ≡ s.rule) × (r.place ≡ s.place) }
    ensures apart { (tree : Built) → ((id : ℕ) → IsTwice tree id → ⊥) → (modes : List Shape) (of : ByNode) (r : Refusal) → AreModesOf tree modes of
        → IsFirstBroken tree r → ⊥ }
    ensures modes { (tree : Built) → ((id : ℕ) → IsTwice tree id → ⊥) → (one other : List Shape) (of of_other : ByNode)
        → AreModesOf tree one of → AreModesOf tree other of_other → (one ≡ other) × (of ≡ of_other) }
{}

/// A law: where the nodes and the symbols of a tree begin by a byte, its declarers are refused by that byte.
pub fn declarations_begin_by()
    ensures { (tree : Built) (end : ℕ) (r : Refusal) → ((id : ℕ) (n : Node) → slice_get tree.nodes id ≡ Some n → n.span.from ≤ end)
        → ((i s : ℕ) → slice_get tree.starts i ≡ Some s → s ≤ end) → IsFirstBroken tree r → r.place ≤ end }
{}
