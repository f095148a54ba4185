//! What holds of the definitions of every tree.
ghost use Rattle.std.specs.Prelude.{◌≡◌, ◌<◌, ◌≤◌, ℕ, List, Option, length};
ghost use Rattle.a68_base.specs.declared.limits.TheConstants.{MOST_MODES};
ghost use Rattle.a68_declare.specs.Clean.{IsNode};
ghost use Rattle.a68_declare.specs.Outcome.{AreModesOf, ByNode};
ghost use Rattle.a68_definitions.specs.Defined.{AllBelow, AreBelow, AreDefined};
ghost use Rattle.a68_definitions.specs.Tags.{AreTags};
ghost use Rattle.a68_equiv.specs.declared.mode.Mode.{Mode};
ghost use Rattle.a68_mode_table.specs.Growing.{AreSound};
ghost use Rattle.a68_modes.specs.Nodes.{shape_at};
ghost use Rattle.a68_modes.specs.declared.shape.Shape.{Shape};
ghost use Rattle.a68_ranges.specs.Twice.{IsTwice};
ghost use Rattle.a68_tree.specs.Trees.{Built};

/// A law: where no range declares a word twice, the tags of a tree have one table of definitions; and over sound modes those of
/// its definitions are one, as long as there is room for them.
pub fn definitions_are_one()
    ensures tags { (tree : Built) → ((id : ℕ) → IsTwice tree id → ⊥) → (tags others : List (Option ℕ)) → AreTags tree tags → AreTags tree others
        → tags ≡ others }
    ensures modes { (tree : Built) (of : ByNode) (start nodes others : List Shape) (table listed : List ℕ) → AreSound start → AreBelow (length start) of
        → length nodes ≤ MOST_MODES → length others ≤ MOST_MODES → AreDefined tree of start nodes table → AreDefined tree of start others listed
        → (nodes ≡ others) × (table ≡ listed) }
{}

/// A law: sound modes stay so where those of definitions join them, as long as there is room for these; and the modes of declarers and
/// definitions are among them.
pub fn definitions_are_sound()
    ensures sound { (tree : Built) (of : ByNode) (start nodes : List Shape) (table : List ℕ) → AreSound start → AreBelow (length start) of
        → length nodes ≤ MOST_MODES → AreDefined tree of start nodes table → AreSound nodes }
    ensures of { (tree : Built) (of : ByNode) (start nodes : List Shape) (table : List ℕ) → AreSound start → AreBelow (length start) of
        → length nodes ≤ MOST_MODES → AreDefined tree of start nodes table → AreBelow (length nodes) of }
    ensures table { (tree : Built) (of : ByNode) (start nodes : List Shape) (table : List ℕ) → AreSound start → AreBelow (length start) of
        → length nodes ≤ MOST_MODES → AreDefined tree of start nodes table → AllBelow (length nodes) table }
{}

/// A law: old modes stay where they were as those of definitions join them.
pub fn definitions_keep_shapes()
    ensures longer { (tree : Built) (of : ByNode) (start nodes : List Shape) (table : List ℕ) → AreDefined tree of start nodes table
        → length start ≤ length nodes }
    ensures kept { (tree : Built) (of : ByNode) (start nodes : List Shape) (table : List ℕ) → AreDefined tree of start nodes table
        → (m : ℕ) → m < length start → shape_at nodes m ≡ shape_at start m }
{}

/// A law: a node of an old mode stays one as the modes of definitions join them.
pub fn definitions_keep_nodes()
    ensures { (tree : Built) (of : ByNode) (start nodes : List Shape) (table : List ℕ) → AreSound start → AreBelow (length start) of
        → length nodes ≤ MOST_MODES → AreDefined tree of start nodes table
        → (mode : Mode) (node : ℕ) → mode.id < length start → IsNode start mode node → IsNode nodes mode node }
{}

/// A law: the modes that are found of the declarers of a tree are there.
pub fn modes_of_declarers_are_below()
    ensures { (tree : Built) (nodes : List Shape) (of : ByNode) → AreModesOf tree nodes of → AreBelow (length nodes) of }
{}
