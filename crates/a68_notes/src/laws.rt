//! What holds of the notes of every tree.
ghost use Rattle.std.specs.Prelude.{◌≡◌, ℕ, false, List, slice_get, Option, Some};
ghost use Rattle.a68_annot.specs.declared.note.Note.{Note};
ghost use Rattle.a68_coerce.specs.Paths.{Leads};
ghost use Rattle.a68_coerce.specs.declared.leaf.Leaf.TheVariants as leaf;
ghost use Rattle.a68_declare.specs.Outcome.{ByNode};
ghost use Rattle.a68_equiv.specs.Related.{as_it_stands};
ghost use Rattle.a68_meaning.specs.Meaning.{IsMeaning, IsUnbroken};
ghost use Rattle.a68_modes.specs.declared.coercion.Sort.TheVariants as by;
ghost use Rattle.a68_notes.specs.Notes.{AreNotes};
ghost use Rattle.a68_notes.specs.Voiding.{is_voided};
ghost use Rattle.a68_positions.specs.Given.{position_at};
ghost use Rattle.a68_positions.specs.declared.position.Position.TheVariants as position;
ghost use Rattle.a68_ranges.specs.Nodes.{kind_at};
ghost use Rattle.a68_ranges.specs.Twice.{IsTwice};
ghost use Rattle.a68_refusals.specs.First.{Asked};
ghost use Rattle.a68_yields.specs.Leaves.{yield_at};
ghost use Rattle.a68_yields.specs.declared.yielding.Yielding.TheVariants as yields;

use a68_coerce::paths_are_one;
use a68_definitions::{definitions_are_sound, modes_of_declarers_are_below};
use a68_frames::ways_are_one;
use a68_positions::{positions_are_sound, positions_keep_shapes};
use a68_yields::yields_are_sound;

/// A law: where no range declares a word twice, a tree of one meaning has one list of notes.
pub fn notes_are_one()
    ensures { (of : ByNode) (a : Asked) (x y : List Note) → ((id : ℕ) → IsTwice a.tree id → ⊥) → IsMeaning of a → AreNotes of a x → AreNotes of a y
        → x ≡ y }
{
    paths_are_one();
    ways_are_one();
    modes_of_declarers_are_below();
    definitions_are_sound();
    yields_are_sound();
    positions_are_sound();
    positions_keep_shapes();
}

/// A law: where a tree breaks no rule, the coercions of a unit of one mode lead strongly to the mode that is asked of it, but
/// for those of a unit that is called where nothing is asked.
pub fn paths_lead()
    ensures { (of : ByNode) (a : Asked) (notes : List Note) (n from m : ℕ) (setter : Option ℕ) (note : Note) → IsUnbroken of a → AreNotes of a notes
        → slice_get notes n ≡ Some note → yield_at a.ys n ≡ yields.Unit (leaf.Mode from) → position_at a.ps n ≡ position.Goal m setter
        → is_voided a.nodes (kind_at a.tree n) m ≡ false
        → Leads a.nodes by.Strong (as_it_stands from) (as_it_stands m) note.path }
{}
