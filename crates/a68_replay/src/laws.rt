//! What holds of all schedules.
ghost use Rattle.std.specs.Prelude.{◌≡◌, ◌≤◌, ℕ, List, length};
ghost use Rattle.a68_base.specs.declared.limits.TheConstants.{MOST_FUEL};
ghost use Rattle.a68_code.specs.declared.code.Code.{Code};
ghost use Rattle.a68_replay.specs.Replays.{Replays, comes_back};
ghost use Rattle.a68_replay.specs.Schedules.{ArePicks, IsBad, IsSchedule, picks_of, schedule_text};
ghost use Rattle.a68_replay.specs.declared.picks.TheConstants.{MOST_PICKS};
ghost use Rattle.a68_replay.specs.declared.turning.Replayed.{Replayed};
ghost use Rattle.a68_strand.specs.RunOf.{RunOf};
ghost use Rattle.a68_values.specs.declared.kept.Kept.{Kept};

/// A law: a text is the schedule of one list of picks at most, and what is written of picks is read as these. A text that is none
/// is bad at one place at most.
pub fn schedules_read_back()
    ensures one { (bytes a b : List ℕ) → IsSchedule bytes a → IsSchedule bytes b → a ≡ b }
    ensures bad { (bytes : List ℕ) (i j : ℕ) → IsBad bytes i → IsBad bytes j → i ≡ j }
    ensures apart { (bytes picks : List ℕ) (place : ℕ) → IsSchedule bytes picks → IsBad bytes place → ⊥ }
    ensures back { (picks : List ℕ) → ArePicks picks → length picks ≤ MOST_PICKS → IsSchedule (schedule_text picks) picks }
{}

/// A law: with given picks a code has at most one run, and what comes of them is one. So `replay` answers Ran exactly where
/// a run has these picks, and Stuck and Short exactly where their clauses hold.
pub fn schedules_have_one_run()
    ensures run { (code : Code) (fuel : ℕ) (a b : Kept) → RunOf code fuel a → RunOf code fuel b → picks_of a ≡ picks_of b → a ≡ b }
    ensures outcome { (code : Code) (picks : List ℕ) (a b : Replayed) → length picks ≤ MOST_PICKS → Replays code picks a → Replays code picks b → a ≡ b }
{}

/// A law: a run comes back whole from its picks, with any fuel that it had; one that stopped as its fuel was spent is short.
pub fn traced_runs_come_back()
    ensures { (code : Code) (fuel : ℕ) (kept : Kept) → fuel ≤ MOST_FUEL → RunOf code fuel kept → Replays code (picks_of kept) (comes_back code kept kept.end) }
{}
