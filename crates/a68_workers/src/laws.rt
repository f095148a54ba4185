//! What holds of all runs, and of those by one worker.
ghost use Rattle.std.specs.Prelude.{◌≡◌, ℕ, List};
ghost use Rattle.a68_code.specs.declared.code.Code.{Code};
ghost use Rattle.a68_strand.specs.Cyclic.{Cyclic};
ghost use Rattle.a68_strand.specs.Ends.{CanActNow, HasEnded};
ghost use Rattle.a68_strand.specs.RunOf.{RunOf};
ghost use Rattle.a68_exec.specs.Runs.{Machine, World, opening};
ghost use Rattle.a68_values.specs.declared.act.Entry.{Entry};
ghost use Rattle.a68_values.specs.declared.kept.Kept.{Kept};

/// A law: where the first strand of a run has come to its end, no strand can act. So a run that is done goes on in no other
/// one.
pub fn ended_runs_do_no_more()
    ensures { (code : Code) (entries : List Entry) (world : World) → Machine code (opening code) entries world → HasEnded world 0 → (strand : ℕ) → CanActNow code world strand → ⊥ }
{}

/// A law: with this fuel a code has at most one run in which the strands take turns.
pub fn one_worker_has_one_run()
    ensures { (code : Code) (fuel : ℕ) (a b : Kept) → RunOf code fuel a → Cyclic code a → RunOf code fuel b → Cyclic code b → a ≡ b }
{}

/// A law: with each fuel a code has a run in which the strands take turns. So it has exactly one.
pub fn one_worker_has_a_run()
    ensures { (code : Code) (fuel : ℕ) → (kept : Kept) × RunOf code fuel kept × Cyclic code kept }
{}
