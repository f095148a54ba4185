//! What holds of the meaning of every tree whose ranges declare no word twice.
ghost use Rattle.std.specs.Prelude.{◌≡◌, ◌≤◌, ℕ, List, slice_get, Some};
ghost use Rattle.a68_base.specs.declared.refusal.Refusal.{Refusal};
ghost use Rattle.a68_declare.specs.Outcome.{ByNode};
ghost use Rattle.a68_meaning.specs.Meaning.{IsMisused, IsUnbroken};
ghost use Rattle.a68_ranges.specs.Twice.{IsTwice};
ghost use Rattle.a68_refusals.specs.First.{Asked};
ghost use Rattle.a68_tree.specs.Trees.{Built};
ghost use Rattle.a68_tree.specs.declared.node.Node.{Node};

use a68_declare::{declarations_are_one, declarations_begin_by};
use a68_definitions::{definitions_are_one, definitions_are_sound, modes_of_declarers_are_below};
use a68_positions::{positions_are_one, positions_keep_shapes};
use a68_refusals::{first_broken_begins_by, first_broken_is_one};
use a68_yields::{yields_are_one, yields_are_sound};

/// A law: where no word is declared twice, a tree breaks one rule, at one place; what breaks one has no meaning; and the others have one.
pub fn meanings_are_one()
    ensures refusal { (tree : Built) → ((id : ℕ) → IsTwice tree id → ⊥) → (r s : Refusal) → IsMisused tree r → IsMisused tree s
        → (r.rule ≡ s.rule) × (r.place ≡ s.place) }
    ensures one { (of other : ByNode) (a b : Asked) → ((id : ℕ) → IsTwice a.tree id → ⊥) → a.tree ≡ b.tree → IsUnbroken of a → IsUnbroken other b
        → (of ≡ other) × (a ≡ b) }
    ensures apart { (of : ByNode) (a : Asked) (r : Refusal) → ((id : ℕ) → IsTwice a.tree id → ⊥) → IsUnbroken of a → IsMisused a.tree r → ⊥ }
{
    declarations_are_one();
    definitions_are_one();
    definitions_are_sound();
    modes_of_declarers_are_below();
    yields_are_one();
    yields_are_sound();
    positions_are_one();
    positions_keep_shapes();
    first_broken_is_one();
}

/// A law: where the nodes and the symbols of a tree begin by a byte, it is refused by that byte.
pub fn meanings_begin_by()
    ensures { (tree : Built) (end : ℕ) (r : Refusal) → ((id : ℕ) (n : Node) → slice_get tree.nodes id ≡ Some n → n.span.from ≤ end)
        → ((i s : ℕ) → slice_get tree.starts i ≡ Some s → s ≤ end) → IsMisused tree r → r.place ≤ end }
{
    declarations_begin_by();
    first_broken_begins_by();
}
