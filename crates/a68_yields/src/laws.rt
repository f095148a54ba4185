//! What holds of the yields of every tree.
ghost use Rattle.std.specs.Prelude.{◌≡◌, ◌<◌, ◌≤◌, ℕ, List, length};
ghost use Rattle.a68_base.specs.declared.limits.TheConstants.{MOST_MODES};
ghost use Rattle.a68_declare.specs.Clean.{IsNode};
ghost use Rattle.a68_definitions.specs.Defined.{AllBelow};
ghost use Rattle.a68_equiv.specs.declared.mode.Mode.{Mode};
ghost use Rattle.a68_mode_table.specs.Growing.{AreSound};
ghost use Rattle.a68_modes.specs.Nodes.{shape_at};
ghost use Rattle.a68_modes.specs.declared.shape.Shape.{Shape};
ghost use Rattle.a68_ranges.specs.Nodes.{parts_at};
ghost use Rattle.a68_tree.specs.Trees.{AllBetween};
ghost use Rattle.a68_yields.specs.Below.{AreTablesBelow};
ghost use Rattle.a68_yields.specs.Yields.{AreYields, Known};
ghost use Rattle.a68_yields.specs.declared.yielding.Finding.{Finding};
ghost use Rattle.a68_yields.specs.declared.yielding.Yielding.{Yielding};

/// A law: over sound modes the nodes of a tree yield one table, one table is found at them, and one list of modes comes of it, as long as there
/// is room for these.
pub fn yields_are_one()
    ensures modes { (k : Known) (start nodes others : List Shape) (ys zs : List Yielding) (fs gs : List Finding) → AreSound start
        → length nodes ≤ MOST_MODES → length others ≤ MOST_MODES → AreYields k start nodes ys fs → AreYields k start others zs gs → nodes ≡ others }
    ensures yields { (k : Known) (start nodes others : List Shape) (ys zs : List Yielding) (fs gs : List Finding) → AreSound start
        → length nodes ≤ MOST_MODES → length others ≤ MOST_MODES → AreYields k start nodes ys fs → AreYields k start others zs gs → ys ≡ zs }
    ensures findings { (k : Known) (start nodes others : List Shape) (ys zs : List Yielding) (fs gs : List Finding) → AreSound start
        → length nodes ≤ MOST_MODES → length others ≤ MOST_MODES → AreYields k start nodes ys fs → AreYields k start others zs gs → fs ≡ gs }
{}

/// A law: sound modes stay so where those of what nodes yield join them, as long as there is room for these, and what is
/// found and yielded is among them; old modes stay where they were.
pub fn yields_are_sound()
    ensures sound { (k : Known) (start nodes : List Shape) (ys : List Yielding) (fs : List Finding) → AreSound start → length nodes ≤ MOST_MODES
        → AreYields k start nodes ys fs → AreSound nodes }
    ensures tables { (k : Known) (start nodes : List Shape) (ys : List Yielding) (fs : List Finding) → AreSound start → AllBelow (length start) k.defined
        → ((n : ℕ) → AllBetween n (length k.tree.nodes) (parts_at k.tree n)) → length nodes ≤ MOST_MODES → AreYields k start nodes ys fs
        → AreTablesBelow (length nodes) (length k.tree.nodes) ys fs }
    ensures longer { (k : Known) (start nodes : List Shape) (ys : List Yielding) (fs : List Finding) → AreYields k start nodes ys fs
        → length start ≤ length nodes }
    ensures kept { (k : Known) (start nodes : List Shape) (ys : List Yielding) (fs : List Finding) → AreYields k start nodes ys fs
        → (m : ℕ) → m < length start → shape_at nodes m ≡ shape_at start m }
{}

/// A law: a node of an old mode stays one as the modes of what nodes yield join them.
pub fn yields_keep_nodes()
    ensures { (k : Known) (start nodes : List Shape) (ys : List Yielding) (fs : List Finding) → AreSound start → length nodes ≤ MOST_MODES
        → AreYields k start nodes ys fs → (mode : Mode) (node : ℕ) → mode.id < length start → IsNode start mode node → IsNode nodes mode node }
{}
