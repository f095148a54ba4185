//! What holds of all lists of modes as they grow.
ghost use Rattle.std.specs.Prelude.{◌≡◌, ◌<◌, ◌≤◌, ◌^◌, ℕ, Bool, List, length};
ghost use Rattle.std.specs.List.{All};
ghost use Rattle.a68_base.specs.declared.limits.TheConstants.{MOST_MODES};
ghost use Rattle.a68_declare.specs.Clean.{IsNode};
ghost use Rattle.a68_equiv.specs.declared.mode.Mode.{Mode};
ghost use Rattle.a68_mode_table.specs.Growing.{AreSound, IsInterned, IsNumberInterned, IsRowInterned, KeepsOld, KeepsShapes};
ghost use Rattle.a68_modes.specs.declared.shape.Shape.{Shape};
ghost use Rattle.a68_modes.specs.declared.shape.Shape.TheVariants.{Proc, Ref, Rows};

/// A law: a shape that joins modes makes one list of them, and has one node; so do a row, and the union of INT and LONG INT.
pub fn growing_is_one()
    ensures shapes { (old new other : List Shape) (shape : Shape) (id next : ℕ) → AreSound old
        → IsInterned old shape new id → IsInterned old shape other next → (new ≡ other) × (id ≡ next) }
    ensures rows { (old new other : List Shape) (dims : ℕ) (flex : Bool) (of id next : ℕ) → AreSound old → of < length old
        → IsRowInterned old dims flex of new id → IsRowInterned old dims flex of other next → (new ≡ other) × (id ≡ next) }
    ensures numbers { (old new other : List Shape) (id next : ℕ) → AreSound old → IsNumberInterned old new id → IsNumberInterned old other next
        → (new ≡ other) × (id ≡ next) }
{}

/// A law: modes that are sound stay so where a name, a procedure, a row or the union of INT and LONG INT joins them, as long as
/// there is room for it.
pub fn growing_is_sound()
    ensures names { (old new : List Shape) (of id : ℕ) → AreSound old → length new ≤ MOST_MODES → of < length old
        → IsInterned old (Ref of) new id → AreSound new }
    ensures procedures { (old new : List Shape) (params : List ℕ) (of id : ℕ) → AreSound old → length new ≤ MOST_MODES
        → All (λ param. param < length old) params → of < length old → IsInterned old (Proc params of) new id → AreSound new }
    ensures rows { (old new : List Shape) (dims : ℕ) (flex : Bool) (of id : ℕ) → AreSound old → length new ≤ MOST_MODES
        → 0 < dims → dims < 2 ^ 32 → of < length old → IsRowInterned old dims flex of new id → AreSound new }
    ensures numbers { (old new : List Shape) (id : ℕ) → AreSound old → length new ≤ MOST_MODES → IsNumberInterned old new id → AreSound new }
{}

/// A law: old modes stay where they were, and the new one stands at its node.
pub fn growing_keeps_shapes()
    ensures shapes { (old new : List Shape) (shape : Shape) (id : ℕ) → IsInterned old shape new id → KeepsShapes old new id shape }
    ensures rows { (old new : List Shape) (dims : ℕ) (flex : Bool) (of id : ℕ) → IsRowInterned old dims flex of new id
        → KeepsShapes old new id (Rows dims flex of) }
    ensures numbers { (old new : List Shape) (id : ℕ) → IsNumberInterned old new id → KeepsOld old new id }
{}

/// A law: a node of an old mode stays one where a name, a procedure, a row or the union of INT and LONG INT joins them.
pub fn growing_keeps_nodes()
    ensures names { (old new : List Shape) (of id : ℕ) → AreSound old → of < length old → IsInterned old (Ref of) new id
        → (mode : Mode) (node : ℕ) → mode.id < length old → IsNode old mode node → IsNode new mode node }
    ensures procedures { (old new : List Shape) (params : List ℕ) (of id : ℕ) → AreSound old
        → All (λ param. param < length old) params → of < length old → IsInterned old (Proc params of) new id
        → (mode : Mode) (node : ℕ) → mode.id < length old → IsNode old mode node → IsNode new mode node }
    ensures rows { (old new : List Shape) (dims : ℕ) (flex : Bool) (of id : ℕ) → AreSound old → length new ≤ MOST_MODES
        → 0 < dims → dims < 2 ^ 32 → of < length old → IsRowInterned old dims flex of new id
        → (mode : Mode) (node : ℕ) → mode.id < length old → IsNode old mode node → IsNode new mode node }
    ensures numbers { (old new : List Shape) (id : ℕ) → AreSound old → IsNumberInterned old new id
        → (mode : Mode) (node : ℕ) → mode.id < length old → IsNode old mode node → IsNode new mode node }
{}

/// A law: a mode has one node.
pub fn nodes_are_one()
    ensures { (nodes : List Shape) (mode : Mode) (one other : ℕ) → AreSound nodes → IsNode nodes mode one → IsNode nodes mode other
        → one ≡ other }
{}
