//! The law that ties the machine to the rules of the language.
#![tactic(auto)]

ghost use Rattle.std.specs.Prelude.{◌≡◌, ◌≤◌, ℕ};
ghost use Rattle.a68_code.specs.declared.code.Code.{Code};
ghost use Rattle.a68_elab.specs.Permitted.{Permitted};
ghost use Rattle.a68_elab.specs.Places.{ProgramBeginsBy};
ghost use Rattle.a68_elab.specs.Trees.{Program};
ghost use Rattle.a68_emit.specs.Stretches.{Translates};
ghost use Rattle.a68_strand.specs.RunOf.{RunOf};
ghost use Rattle.a68_values.specs.declared.act.FaultKind.{FaultKind};
ghost use Rattle.a68_values.specs.declared.kept.End.TheVariants.{Fault};
ghost use Rattle.a68_values.specs.declared.kept.Kept.{Kept};

/// What the machine does with the translation of a program is permitted by the rules of the language: every journal that
/// a run can have, with whatever fuel, is that of an elaboration of the program, and so are the text, the cells, the
/// outermost slots and the end that the run leaves.
///
/// The premises are that the code is a translation of the program, and that a run of the code can leave this. No call
/// needs this one: it is there for its contract.
pub fn permitted_law()
    ensures { (program : Program) (code : Code) (fuel : ℕ) (kept : Kept) → Translates program code → RunOf code fuel kept → Permitted program fuel kept }
{}

/// A law: where each construct of a program begins at a byte or before it, a fault of a run does too. The fault of a
/// routine whose yield is newer than its caller's frame is that of the routine text.
pub fn faults_lie_in_programs()
    ensures { (program : Program) (code : Code) (fuel end place strand : ℕ) (why : FaultKind) (kept : Kept) → Translates program code
        → ProgramBeginsBy end program → RunOf code fuel kept → kept.end ≡ Fault why place strand → place ≤ end }
{}
