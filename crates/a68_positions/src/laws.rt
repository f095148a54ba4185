//! What holds of the positions of every tree.
ghost use Rattle.std.specs.Prelude.{◌≡◌, ◌<◌, ◌≤◌, ℕ, List, length};
ghost use Rattle.a68_base.specs.declared.limits.TheConstants.{MOST_MODES};
ghost use Rattle.a68_definitions.specs.Defined.{AllBelow};
ghost use Rattle.a68_identify.specs.Operators.{NumbersAreThere};
ghost use Rattle.a68_equiv.specs.declared.mode.Mode.{Mode};
ghost use Rattle.a68_mode_table.specs.Growing.{AreSound, IsNode};
ghost use Rattle.a68_modes.specs.Nodes.{shape_at};
ghost use Rattle.a68_modes.specs.declared.shape.Shape.{Shape};
ghost use Rattle.a68_positions.specs.Below.{ArePositionsBelow};
ghost use Rattle.a68_positions.specs.Positions.{ArePositions};
ghost use Rattle.a68_positions.specs.declared.position.Position.{Position};
ghost use Rattle.a68_yields.specs.Below.{AreTablesBelow};
ghost use Rattle.a68_yields.specs.Yields.{Known};
ghost use Rattle.a68_yields.specs.declared.yielding.Finding.{Finding};
ghost use Rattle.a68_yields.specs.declared.yielding.Yielding.{Yielding};

/// A law: over sound modes a tree has one table of positions, and the modes that join the others are one, as long as there is room for them.
pub fn positions_are_one()
    ensures { (k : Known) (ys : List Yielding) (fs : List Finding) (start nodes others : List Shape) (ps qs : List Position) → AreSound start
        → NumbersAreThere k.tree start k.of → AllBelow (length start) k.defined → AreTablesBelow (length start) (length k.tree.nodes) ys fs
        → length nodes ≤ MOST_MODES → length others ≤ MOST_MODES → ArePositions k ys fs start nodes ps → ArePositions k ys fs start others qs
        → (nodes ≡ others) × (ps ≡ qs) }
{}

/// A law: sound modes stay so where those of positions join them, as long as there is room for these; and the modes that are asked for are among
/// them.
pub fn positions_are_sound()
    ensures sound { (k : Known) (ys : List Yielding) (fs : List Finding) (start nodes : List Shape) (ps : List Position) → AreSound start
        → NumbersAreThere k.tree start k.of → AllBelow (length start) k.defined → AreTablesBelow (length start) (length k.tree.nodes) ys fs
        → length nodes ≤ MOST_MODES → ArePositions k ys fs start nodes ps → AreSound nodes }
    ensures below { (k : Known) (ys : List Yielding) (fs : List Finding) (start nodes : List Shape) (ps : List Position) → AreSound start
        → NumbersAreThere k.tree start k.of → AllBelow (length start) k.defined → AreTablesBelow (length start) (length k.tree.nodes) ys fs
        → length nodes ≤ MOST_MODES → ArePositions k ys fs start nodes ps → ArePositionsBelow (length nodes) ps }
{}

/// A law: old modes stay where they were as those of positions join them.
pub fn positions_keep_shapes()
    ensures longer { (k : Known) (ys : List Yielding) (fs : List Finding) (start nodes : List Shape) (ps : List Position)
        → ArePositions k ys fs start nodes ps → length start ≤ length nodes }
    ensures kept { (k : Known) (ys : List Yielding) (fs : List Finding) (start nodes : List Shape) (ps : List Position)
        → ArePositions k ys fs start nodes ps → (m : ℕ) → m < length start → shape_at nodes m ≡ shape_at start m }
{}

/// A law: a node of an old mode stays one as the modes of positions join them.
pub fn positions_keep_nodes()
    ensures { (k : Known) (ys : List Yielding) (fs : List Finding) (start nodes : List Shape) (ps : List Position) → AreSound start
        → NumbersAreThere k.tree start k.of → AllBelow (length start) k.defined → AreTablesBelow (length start) (length k.tree.nodes) ys fs
        → length nodes ≤ MOST_MODES → ArePositions k ys fs start nodes ps
        → (mode : Mode) (node : ℕ) → mode.id < length start → IsNode start mode node → IsNode nodes mode node }
{}
