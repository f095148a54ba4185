//! Single instructions, and constructs that are one.
ghost use Rattle.std.specs.Option.{option_and_then};
ghost use Rattle.std.specs.Prelude.{◌≡◌, ◌<◌, ◌++◌, not, length, map, if◌then◌else◌, IfOk, OnOk};
ghost use Rattle.a68_elab.specs.Constants.{long_value_in, value_in};
ghost use Rattle.a68_elab.specs.Made as made;
ghost use Rattle.a68_elab.specs.Programs as programs;
ghost use Rattle.a68_elab.specs.Trees as trees;
ghost use Rattle.a68_emit.specs.Forms.{form_of};
ghost use Rattle.a68_emit.specs.Listing.{stretch};
ghost use Rattle.a68_emit.specs.Stretches.{does_of};
ghost use Rattle.a68_emit.specs.Writers.{Wrote};
ghost use Rattle.a68_modes.specs.Nodes.{shape_at, is_void};

use crate::view::{View, hops};
use crate::writer::Writer;
use a68_annot::{Annotated, Note};
use a68_base::NoMemory;
use a68_code::Does;
use a68_layout::{TrimForm, TrimForms};
use a68_modes::{ModeId, Shape};
use a68_parts::{
    behind_ref, first_goal, is_one_of, long_value_in, parts_at, standard_of, value_in,
};
use a68_runs::form_of as slice_form;
use a68_tree::{Node, NodeId};
use a68_values::Value;
use std::alloc::Global;

/// Writes nothing for what stands for no construct. No annotated tree has one.
pub fn meaningless(_out: &mut Writer)
    ensures { Wrote _out.old _out.new (stretch trees.meaningless (length _out.old.list)) }
{}

/// Writes what meets the fault Kind, and leaves a value or none as is asked: Nil Widen; with Drop where it is none.
#[inline(never)]
pub fn misfit(place: u32, wanted: bool, out: &mut Writer)
    ensures { Wrote out.old out.new (stretch (programs.misfit place wanted) (length out.old.list)) }
{
    out.emit(place, Does::Nil);
    out.emit(place, Does::Widen);
    if !wanted {
        out.emit(place, Does::Drop);
    }
}

/// Writes nothing for what is not elaborated.
pub fn nothing(_out: &mut Writer)
    ensures { Wrote _out.old _out.new (stretch (trees.together trees.no_trees) (length _out.old.list)) }
{}

// Push the value, where the denotation has one.
fn denoted(place: u32, value: Option<Value>, out: &mut Writer)
    ensures { Wrote out.old out.new (stretch (made.denoted place value) (length out.old.list)) }
{
    match value {
        Some(value) => out.emit(place, Does::Push(value)),
        None => meaningless(out),
    }
}

/// Push the value of a denotation.
pub fn denotation(alloc: Global, program: &View, node: &Node, out: &mut Writer)
    requires { node.now.name < length program.now.of.now.tree.spellings }
    ensures { Wrote out.old out.new (stretch (made.denoted node.now.span.from (option_and_then value_in (made.spelling_of program.now.of.now node.now))) (length out.old.list)) }
{
    match value_in(alloc, program.of.annotated().tree.spelling(node.name)) {
        Ok(value) => denoted(node.span.from, value, out),
        Err(_) => out.run_out(),
    }
}

/// Push the value of a number behind LONG.
pub fn long_denotation(program: &View, node: &Node, out: &mut Writer)
    requires { node.now.name < length program.now.of.now.tree.spellings }
    ensures { Wrote out.old out.new (stretch (made.denoted node.now.span.from (option_and_then long_value_in (made.spelling_of program.now.of.now node.now))) (length out.old.list)) }
{
    let value = long_value_in(program.of.annotated().tree.spelling(node.name));
    denoted(node.span.from, value, out);
}

/// Push the value of a tag of the standard environ, or Tag: hops and slot.
pub fn tag(program: &View, node: &Node, note: &Note) -> Does
    requires { node.now.name < length program.now.of.now.tree.spellings }
    ensures { result ≡ does_of (made.tag_of (made.standard_of note.now.definition (made.spelling_of program.now.of.now node.now)) (made.hops_seen program.now.of.now program.now.sight note.now) note.now.step.slot) 0 }
{
    match standard_of(program.of.annotated(), node, note) {
        Some(value) => Does::Push(value),
        None => Does::Tag {
            hops: hops(program, note),
            slot: note.step.slot,
        },
    }
}

/// Store: the mode behind that of the name.
pub fn store(program: &View, note: &Note) -> Does
    ensures { result ≡ Does.Store (made.behind_ref (shape_at program.now.of.now.modes note.now.mode)) }
{
    Does::Store(behind_ref(program.of.modes(), note.mode))
}

/// Leave 1 where a value is yielded, else Leave 0.
pub fn leave(program: &View, note: &Note) -> Does
    ensures { result ≡ Does.Leave (if not (is_void (shape_at program.now.of.now.modes note.now.goal)) then 1 else 0) }
{
    if program.of.is_void(note.goal) {
        Does::Leave(0)
    } else {
        Does::Leave(1)
    }
}

/// What a mode is, as far as a collateral clause asks.
pub enum CollateralForm {
    Void,
    Structure,
    Row,
    Other,
}

/// What a mode is: VOID, a structure, a row, or none of these.
pub fn form_at(program: &View, mode: ModeId) -> CollateralForm
    ensures { result ≡ form_of (shape_at program.now.of.now.modes mode) }
{
    if mode >= program.of.modes().len() {
        return CollateralForm::Other;
    }
    match program.of.modes().shape(mode) {
        Shape::Void => CollateralForm::Void,
        Shape::Struct(_) => CollateralForm::Structure,
        Shape::Rows { .. } => CollateralForm::Row,
        _ => CollateralForm::Other,
    }
}

/// The mode that is asked of the first of these nodes.
pub fn mode_in_front(program: &View, parts: &[NodeId]) -> ModeId
    ensures { result ≡ made.first_goal program.now.of.now parts.now }
{
    first_goal(program.of.annotated(), parts)
}

// The words and marks that negate an identity relation.
fn isnt() -> &'static [&'static str]
    ensures { map (λ word. word.now) result.now ≡ made.isnt }
{
    &["ISNT", ":/=:"]
}

/// Same: 1 where the relation is negated.
pub fn same(program: &View, node: &Node) -> Does
    requires { node.now.name < length program.now.of.now.tree.spellings }
    ensures { result ≡ Does.Same (made.negated (made.is_one_of made.isnt (made.spelling_of program.now.of.now node.now))) }
{
    let is_negated = is_one_of(
        isnt(),
        Some(program.of.annotated().tree.spelling(node.name)),
    );
    Does::Same(u32::from(is_negated))
}

// The word before a generator whose name stays.
fn heaps() -> &'static [&'static str]
    ensures { map (λ word. word.now) result.now ≡ made.heaps }
{
    &["HEAP"]
}

/// Is a generator's name one that stays?
pub fn is_heap(program: &View, node: &Node) -> bool
    requires { node.now.name < length program.now.of.now.tree.spellings }
    ensures { result ≡ made.is_one_of made.heaps (made.spelling_of program.now.of.now node.now) }
{
    is_one_of(
        heaps(),
        Some(program.of.annotated().tree.spelling(node.name)),
    )
}

/// Heap or Make: a new name, with so many bounds.
pub fn new_does(in_heap: bool, mode: ModeId, bounds: u32) -> Does
    ensures { result ≡ (if in_heap then Does.Heap mode bounds else Does.Make mode bounds) }
{
    if in_heap {
        Does::Heap { mode, bounds }
    } else {
        Does::Make { mode, bounds }
    }
}

// Adds how indexes are written.
fn add_forms(program: &Annotated, ids: &[NodeId], forms: &mut Vec<TrimForm>) -> Result<(), NoMemory>
    ensures { OnOk result (forms.new.items ≡ forms.old.items ++ made.forms_of program.now ids.now) }
{
    for id in ids {
        forms.push(slice_form(program, parts_at(program, *id)))?;
    }
    Ok(())
}

/// How the indexes of a slice are written.
pub fn forms_of(alloc: Global, program: &View, ids: &[NodeId]) -> Result<TrimForms, NoMemory>
    ensures { IfOk result (λ forms. forms ≡ made.forms_of program.now.of.now ids.now) }
{
    let mut items = Vec::new(alloc);
    add_forms(program.of.annotated(), ids, &mut items)?;
    Ok(TrimForms { items })
}
