//! What holds of every text, whatever is done with it.
ghost use Rattle.std.specs.Prelude.{◌≡◌, ◌<◌, ◌≤◌, ◌⊎◌, ℕ, List, length};
ghost use Rattle.a68_annot.specs.declared.annotated.Annotated.{Annotated};
ghost use Rattle.a68_base.specs.declared.limits.TheConstants.{MOST_FUEL};
ghost use Rattle.a68_base.specs.declared.refusal.Refusal.{Refusal};
ghost use Rattle.a68_base.specs.declared.refusal.Rule.TheVariants.{S6};
ghost use Rattle.a68_code.specs.declared.code.Code.{Code};
ghost use Rattle.a68_lister.specs.Relists.{Relists};
ghost use Rattle.a68_races.specs.Races.{FirstBeyond, NoneBeyond, RacesAre};
ghost use Rattle.a68_races.specs.Shown.{Shown};
ghost use Rattle.a68_replay.specs.Replays.{Replays, comes_back};
ghost use Rattle.a68_replay.specs.Schedules.{ArePicks, IsBad, IsSchedule, picks_of, schedule_text};
ghost use Rattle.a68_replay.specs.declared.picks.TheConstants.{MOST_PICKS};
ghost use Rattle.a68_replay.specs.declared.turning.Replayed.{Replayed};
ghost use Rattle.a68_strand.specs.Cyclic.{Cyclic};
ghost use Rattle.a68_strand.specs.RunOf.{RunOf};
ghost use Rattle.a68_symbols.specs.Limits.{most_bytes};
ghost use Rattle.a68_top.specs.Answer.{IsListingOf};
ghost use Rattle.a68_top.specs.Compiles.{IsProgramOf, Compiles, RefusedAs};
ghost use Rattle.a68_top.specs.declared.finish.Made.{Made};
ghost use Rattle.a68_values.specs.declared.act.Entry.{Entry};
ghost use Rattle.a68_values.specs.declared.kept.Kept.{Kept};

use a68_check::{annotations_are_one, annotations_begin_by};
use a68_gen::translations_are_listings;
use a68_lister::listings_keep_the_symbols;
use a68_parse::{symbols_are_bounded, trees_lie_in_texts};
use a68_races::races_are_one;
use a68_replay::{schedules_have_one_run, schedules_read_back, traced_runs_come_back};
use a68_symbols::symbols_are_one;
use a68_words::classes_are_one;
use a68_workers::{one_worker_has_a_run, one_worker_has_one_run};

/// A law: a text has one answer. It is compiled or refused and never both; what it is compiled into is one program with
/// one code; it is refused by one rule, and but for S6 at one place; and this place is a byte of the text, or its end. With
/// this fuel it has a run by one worker, and no other one. And a run has its races in one way, or one first entry, which is one of its entries, of
/// a strand that is not told apart. And a text is laid out in one way, which has its symbols, and which laid out once more stays as it
/// is, where it is no longer than a text may be. And bytes are one schedule, or bad at one place; what comes of picks is one; and a run
/// comes back from its own, which are read from the schedule that is written of them.
pub fn answers_are_one()
    ensures refusals { (text : List ℕ) (r s : Refusal) → RefusedAs text r → RefusedAs text s
        → (r.rule ≡ s.rule) × ((r.rule ≡ S6) ⊎ (r.place ≡ s.place)) }
    ensures within { (text : List ℕ) (r : Refusal) → RefusedAs text r → r.place ≤ length text }
    ensures apart { (text : List ℕ) (made : Made) (r : Refusal) → Compiles text made → RefusedAs text r → ⊥ }
    ensures programs { (text : List ℕ) (a b : Annotated) → IsProgramOf text a → IsProgramOf text b → a ≡ b }
    ensures compiled { (text : List ℕ) (a b : Made) → Compiles text a → Compiles text b → a ≡ b }
    ensures runs { (text : List ℕ) (made : Made) (fuel : ℕ) (a b : Kept) → Compiles text made → RunOf made.code fuel a → Cyclic made.code a
        → RunOf made.code fuel b → Cyclic made.code b → a ≡ b }
    ensures run { (made : Made) (fuel : ℕ) → (kept : Kept) × RunOf made.code fuel kept × Cyclic made.code kept }
    ensures races { (entries : List Entry) (a b : Shown) → RacesAre entries a → RacesAre entries b → a ≡ b }
    ensures beyond { (entries : List Entry) (i j : ℕ) → FirstBeyond entries i → FirstBeyond entries j → i ≡ j }
    ensures raced { (entries : List Entry) (i : ℕ) → FirstBeyond entries i → NoneBeyond entries → ⊥ }
    ensures listings { (text a b : List ℕ) → IsListingOf text a → IsListingOf text b → a ≡ b }
    ensures laid_out { (text out : List ℕ) (is : IsListingOf text out) → length out ≤ most_bytes → Relists is.is.found }
    ensures schedules { (bytes a b : List ℕ) → IsSchedule bytes a → IsSchedule bytes b → a ≡ b }
    ensures bad { (bytes : List ℕ) (i j : ℕ) → IsBad bytes i → IsBad bytes j → i ≡ j }
    ensures readable { (bytes picks : List ℕ) (i : ℕ) → IsSchedule bytes picks → IsBad bytes i → ⊥ }
    ensures written { (picks : List ℕ) → ArePicks picks → length picks ≤ MOST_PICKS → IsSchedule (schedule_text picks) picks }
    ensures picked { (code : Code) (fuel : ℕ) (a b : Kept) → RunOf code fuel a → RunOf code fuel b → picks_of a ≡ picks_of b → a ≡ b }
    ensures replays { (code : Code) (picks : List ℕ) (a b : Replayed) → length picks ≤ MOST_PICKS → Replays code picks a → Replays code picks b → a ≡ b }
    ensures traced { (code : Code) (fuel : ℕ) (kept : Kept) → fuel ≤ MOST_FUEL → RunOf code fuel kept → Replays code (picks_of kept) (comes_back code kept kept.end) }
    ensures among { (entries : List Entry) (i : ℕ) → FirstBeyond entries i → i < length entries }
{
    symbols_are_one();
    classes_are_one();
    symbols_are_bounded();
    trees_lie_in_texts();
    annotations_are_one();
    annotations_begin_by();
    one_worker_has_one_run();
    one_worker_has_a_run();
    translations_are_listings();
    races_are_one();
    schedules_read_back();
    schedules_have_one_run();
    traced_runs_come_back();
    listings_keep_the_symbols();
}
