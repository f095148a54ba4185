//! What looking ahead tells.
ghost use Rattle.std.specs.Prelude.{◌≡◌, ◌⊎◌, List, ◌∷◌, true, false};
ghost use Rattle.a68_tree.specs.declared.kind.NodeKind.{NodeKind};
ghost use Rattle.a68_symbols.specs.declared.sym.Sym.{Sym};
ghost use Rattle.a68_tree.specs.Forest.{Forest, spells};
ghost use Rattle.a68_tree.specs.Grammar.{IsUnit, IsRoutine, IsChoices};
ghost use Rattle.a68_lookahead.specs.Ahead as spec;
ghost use Rattle.a68_lookahead.specs.declared.look.Due.TheVariants as due;
ghost use Rattle.a68_lookahead.specs.declared.look.Landmark.TheVariants as sought;
ghost use Rattle.a68_lookahead.specs.Sets.{begins_unit};
ghost use Rattle.a68_lookahead.specs.Symbols.{Begins};

/// Looking ahead tells a routine text from every other unit.
pub fn routines_are_told()
    ensures { (k : NodeKind) (u : Forest) (r : List Sym) → IsUnit k u
        → ((IsRoutine u × (spec.routine_ahead (spells u r) ≡ true)) ⊎ (spec.routine_ahead (spells u r) ≡ false)) }
{}

/// Looking ahead sees no declaration where a unit stands, with no tag behind it.
pub fn units_are_no_declarations()
    ensures { (k : NodeKind) (u : Forest) (r : List Sym) → IsUnit k u → spec.behind sought.Tag 0 due.Ended r ≡ false → spec.phrase_ahead (spells u r) ≡ false }
{}

/// Looking ahead tells the choices of a conformity clause from a unit.
pub fn choices_are_told()
    ensures seen { (f : Forest) (r : List Sym) → IsChoices f → spec.spec_ahead (spells f r) ≡ true }
    ensures unseen { (k : NodeKind) (u : Forest) (r : List Sym) → IsUnit k u → spec.spec_ahead (spells u r) ≡ false }
{}

/// With which symbols units begin.
pub fn units_begin()
    ensures { (k : NodeKind) (u : Forest) (r : List Sym) → IsUnit k u → Begins begins_unit (spells u r) }
{}
