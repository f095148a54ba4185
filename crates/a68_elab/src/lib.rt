//! The elaboration of a program.
#![tactic(auto)]

mod bound;
mod sight;

ghost use Rattle.std.specs.Prelude.{◌≡◌, ◌≤◌, ◌<◌, ℕ, List, Some, slice_get};
ghost use Rattle.a68_annot.specs.declared.annotated.Annotated.{Annotated};
ghost use Rattle.a68_annot.specs.declared.note.Note.{Note};
ghost use Rattle.a68_elab.specs.Made.{bytes_of, seen};
ghost use Rattle.a68_elab.specs.Programs.{fitting, behind, defined_bound, program_of, tree_in, unit};
ghost use Rattle.a68_elab.specs.Places.{ProgramBeginsBy};
ghost use Rattle.a68_elab.specs.declared.sight.Sight.{Sight};
ghost use Rattle.a68_elab.specs.declared.sight.Sight.TheVariants as sights;
ghost use Rattle.a68_tree.specs.declared.node.Node.{Node};

pub use bound::Bound;
pub use sight::Sight;

/// A law: the tree of a node that leaves what is asked of it is that of its kind over the trees of the nodes behind it,
/// wherever it is seen from. A bound of
/// a definition is seen from within it.
pub fn trees_law()
    ensures trees { (program : Annotated) (sight : Sight) (id : ℕ) (node : Node) (note : Note)
        → slice_get program.tree.nodes id ≡ Some node → slice_get program.notes id ≡ Some note
        → tree_in program sight id ≡ fitting program node note (unit program (defined_bound program sight) (behind id (tree_in program sight)) node (seen program sight note)) }
    ensures bounds { (program : Annotated) (frames id : ℕ)
        → defined_bound program sights.Here frames id ≡ tree_in program (sights.Within frames (bytes_of program id)) id }
{}

/// A law: where each node of an annotated tree begins at a byte or before it, each construct of the program does.
pub fn constructs_begin_by()
    ensures { (program : Annotated) (end : ℕ) → ((id : ℕ) (n : Node) → slice_get program.tree.nodes id ≡ Some n → n.span.from ≤ end)
        → ProgramBeginsBy end (program_of program) }
{}
