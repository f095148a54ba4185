//! What holds of all journals.
ghost use Rattle.std.specs.Prelude.{◌≡◌, ◌<◌, ℕ, List, length};
ghost use Rattle.a68_races.specs.Races.{FirstBeyond, NoneBeyond, RacesAre};
ghost use Rattle.a68_races.specs.Shown.{Shown};
ghost use Rattle.a68_values.specs.declared.act.Entry.{Entry};

/// A law: a journal has its races in one way. Of a strand that is not told apart it has one first entry or none, and this
/// is one of its entries.
pub fn races_are_one()
    ensures shown { (entries : List Entry) (a b : Shown) → RacesAre entries a → RacesAre entries b → a ≡ b }
    ensures beyond { (entries : List Entry) (i j : ℕ) → FirstBeyond entries i → FirstBeyond entries j → i ≡ j }
    ensures apart { (entries : List Entry) (i : ℕ) → FirstBeyond entries i → NoneBeyond entries → ⊥ }
    ensures within { (entries : List Entry) (i : ℕ) → FirstBeyond entries i → i < length entries }
{}
