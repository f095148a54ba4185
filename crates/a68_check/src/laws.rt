//! What holds of the annotation of every tree.
ghost use Rattle.std.specs.Prelude.{◌≡◌, ◌≤◌, ℕ, slice_get, Some};
ghost use Rattle.a68_annot.specs.declared.annotated.Annotated.{Annotated};
ghost use Rattle.a68_base.specs.declared.refusal.Refusal.{Refusal};
ghost use Rattle.a68_check.specs.Annotates.{Annotates, Refuses};
ghost use Rattle.a68_tree.specs.Trees.{Built};
ghost use Rattle.a68_tree.specs.declared.node.Node.{Node};

use a68_meaning::{meanings_are_one, meanings_begin_by};
use a68_notes::notes_are_one;
use a68_op_ident::{shaped_trees_begin_alike, shapes_are_one};

/// A law: a tree breaks one rule, at one place; what breaks a rule is not annotated; and a tree has one annotation.
pub fn annotations_are_one()
    ensures refusal { (flat : Built) (r s : Refusal) → Refuses flat r → Refuses flat s → (r.rule ≡ s.rule) × (r.place ≡ s.place) }
    ensures apart { (flat : Built) (program : Annotated) (r : Refusal) → Annotates flat program → Refuses flat r → ⊥ }
    ensures programs { (flat : Built) (a b : Annotated) → Annotates flat a → Annotates flat b → a ≡ b }
{
    shapes_are_one();
    meanings_are_one();
    notes_are_one();
}

/// A law: where the nodes and the symbols of a tree begin by a byte, it is refused by that byte, and the nodes of its
/// annotated tree begin by it.
pub fn annotations_begin_by()
    ensures refused { (flat : Built) (end : ℕ) (r : Refusal) → ((id : ℕ) (n : Node) → slice_get flat.nodes id ≡ Some n → n.span.from ≤ end)
        → ((i s : ℕ) → slice_get flat.starts i ≡ Some s → s ≤ end) → Refuses flat r → r.place ≤ end }
    ensures nodes { (flat : Built) (end : ℕ) (program : Annotated) → ((id : ℕ) (n : Node) → slice_get flat.nodes id ≡ Some n → n.span.from ≤ end)
        → Annotates flat program → (id : ℕ) (n : Node) → slice_get program.tree.nodes id ≡ Some n → n.span.from ≤ end }
{
    shaped_trees_begin_alike();
    meanings_begin_by();
}
