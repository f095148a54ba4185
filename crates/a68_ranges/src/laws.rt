//! What holds of all trees whose ranges declare no word twice.
ghost use Rattle.std.specs.Prelude.{◌≡◌, ℕ, Option};
ghost use Rattle.a68_ranges.specs.Standard.{IsPriorityOf};
ghost use Rattle.a68_ranges.specs.Twice.{IsTwice};
ghost use Rattle.a68_tree.specs.Trees.{Built};

/// A law: where no range declares a word twice, a sign has one priority at a node, or none.
pub fn priorities_are_one()
    ensures { (tree : Built) → ((id : ℕ) → IsTwice tree id → ⊥) → (at name : ℕ) (one other : Option ℕ)
        → IsPriorityOf tree at name one → IsPriorityOf tree at name other → one ≡ other }
{}
