//! The bounds of actual declarers.
ghost use Rattle.std.specs.Prelude.{◌≡◌, ◌<◌, ◌≤◌, ◌+◌, ◌∷◌, ◌++◌, [], length, map, take, nat_eq, slice_get, if◌then◌else◌, Some, IfOk, OnOk, MatchOption};
ghost use Rattle.std.specs.List.{list_all};
ghost use Rattle.a68_elab.specs.Made as made;
ghost use Rattle.a68_layout.specs.Rooms.{bounds_needed};
ghost use Rattle.a68_modes.specs.Nodes.{shape_at};
ghost use Rattle.a68_runs.specs.Bounds as bounds_so_far;
ghost use Rattle.a68_runs.specs.Opens.{all_of, listed, looks_of, marks_within, those_of};
ghost use Rattle.a68_elab.specs.Runs as runs;
ghost use Rattle.a68_tree.specs.Trees.{AllBetween};

use crate::outcomes::leaves;
use a68_annot::Annotated;
use a68_base::{MOST_INSTRUCTIONS, NoMemory};
use a68_elab::Bound;
use a68_layout::{Measured, takes_bounds};
use a68_modes::ModeId;
use a68_parts::{behind_ref, is_one_of, kind_at, last_id, mode_at, parts_at};
use a68_tree::{NodeId, NodeKind};
use std::alloc::Global;
use std::marker::Model;

// The most bounds that are listed: one more than there may be instructions.
const MOST_BOUNDS: usize = MOST_INSTRUCTIONS + 1;

/// So many frames more than these; more than a number of 32 bits tells are not told.
pub fn further(frames: u32, hops: u32) -> u32
    ensures { result ≡ made.further frames hops }
{
    hops.saturating_add(frames)
}

// A bound that is written here, or in the definition of a mode word, so many frames further out.
fn written(frames: Option<u32>, id: NodeId) -> Bound
    ensures { result ≡ bounds_so_far.seen_from frames (Bound.Written id) }
{
    match frames {
        Some(frames) => Bound::Defined { frames, id },
        None => Bound::Written(id),
    }
}

// How many frames further out a definition stands, of which a mode word that stands so far out, if not here, tells its hops.
fn outwards(frames: Option<u32>, hops: u32) -> u32
    ensures { result ≡ bounds_so_far.outwards frames hops }
{
    match frames {
        Some(frames) => further(frames, hops),
        None => hops,
    }
}

// Is a node the bounds of a dimension?
fn is_bound(program: &Annotated, id: NodeId) -> bool
    ensures { result ≡ made.is_bound (made.kind_at program.now id) }
{
    matches!(kind_at(program, id), NodeKind::Bound)
}

// Is a node the tag of a field?
fn is_field(program: &Annotated, id: NodeId) -> bool
    ensures { result ≡ made.is_field (made.kind_at program.now id) }
{
    matches!(kind_at(program, id), NodeKind::Field)
}

// Is a node a declarer?
fn is_declarer(program: &Annotated, id: NodeId) -> bool
    ensures { result ≡ made.is_declarer (made.kind_at program.now id) }
{
    matches!(kind_at(program, id), NodeKind::Declarer)
}

// Is the first of these nodes a lower bound?
fn begins_with_lower(program: &Annotated, parts: &[NodeId]) -> bool
    ensures { result ≡ made.begins_with made.is_lower program.now parts.now }
{
    parts.len() > 0 && matches!(kind_at(program, parts[0]), NodeKind::Lower)
}

// Is the first of these nodes the bounds of a dimension?
fn begins_with_bound(program: &Annotated, parts: &[NodeId]) -> bool
    ensures { result ≡ made.begins_with made.is_bound program.now parts.now }
{
    parts.len() > 0 && is_bound(program, parts[0])
}

// The mode word that has bounds of its own.
fn strings() -> &'static [&'static str]
    ensures { map (λ word. word.now) result.now ≡ made.strings }
{
    &["STRING"]
}

// Is a node named by it?
fn is_string(program: &Annotated, id: NodeId) -> bool
    ensures { result ≡ made.named_at program.now made.strings id }
{
    if id >= program.tree.len() {
        return false;
    }
    let node = program.tree.node(id);
    is_one_of(strings(), Some(program.tree.spelling(node.name)))
}

// Has the mode of a declarer no rows?
fn has_no_rows(program: &Annotated, modes: &Measured, id: NodeId) -> bool
    requires { modes.now ≡ program.now.modes }
    ensures { result ≡ nat_eq 0 (bounds_needed program.now.modes (made.mode_of program.now id)) }
{
    takes_bounds(modes, mode_at(program, id), 0)
}

// Adds bounds that are written.
fn add_written(
    frames: Option<u32>,
    parts: &[NodeId],
    bounds: &mut Vec<Bound>,
) -> Result<(), NoMemory>
    ensures { OnOk result (bounds.new.items ≡ bounds.old.items ++ map (bounds_so_far.seen_from frames) (made.all_written parts.now)) }
{
    for part in parts {
        let bound = written(frames, *part);
        bounds.push(bound)?;
    }
    Ok(())
}

// Adds the bounds of a dimension.
fn add_dimension(
    program: &Annotated,
    frames: Option<u32>,
    id: NodeId,
    bounds: &mut Vec<Bound>,
) -> Result<(), NoMemory>
    ensures { OnOk result (bounds.new.items ≡ bounds.old.items
        ++ map (bounds_so_far.seen_from frames) (made.dimension program.now (made.parts_at program.now id))) }
{
    let parts = parts_at(program, id);
    if !begins_with_lower(program, parts) {
        let meant = Bound::Meant(1);
        bounds.push(meant)?;
    }
    add_written(frames, parts, bounds)?;
    Ok(())
}

// Adds the bounds of STRING.
fn add_string(bounds: &mut Vec<Bound>) -> Result<(), NoMemory>
    ensures { OnOk result (bounds.new.items ≡ bounds.old.items ++ Bound.Meant 1 ∷ Bound.Meant 0 ∷ []) }
{
    bounds.push(Bound::Meant(1))?;
    bounds.push(Bound::Meant(0))?;
    Ok(())
}

/// A declarer whose bounds are yet to be added, within which others lie at most so deep; and how many frames further out
/// it stands, where it does not stand here.
#[derive(Clone, Copy)]
pub struct Open {
    pub depth: u32,
    pub frames: Option<u32>,
    pub id: NodeId,
}

/// Declarers whose bounds are yet to be added. They are kept in a list, so that no more of the stack is needed however many
/// lie within one another. Contracts see the next one first.
#[derive(Drop)]
pub struct Opens {
    items: Vec<Open>,
}

impl Model for Opens {
    ghost use Rattle.std.specs.Prelude.{List, reverse};
    ghost use Rattle.a68_runs.specs.declared.bounds.Open.{Open};

    ghost Value = { List Open };

    ghost view = { λ opens. reverse opens.items.items };
}

impl Opens {
    // None.
    fn new(alloc: Global) -> Opens
        ensures { result ≡ [] }
    {
        Opens {
            items: Vec::new(alloc),
        }
    }

    // A declarer put in front of the others.
    fn push(&mut self, next: Open) -> Result<(), NoMemory>
        ensures { OnOk result (self.new ≡ next ∷ self.old) }
    {
        self.items.push(next)?;
        Ok(())
    }

    // Takes the next one off.
    fn pop(&mut self) -> Option<Open>
        ensures { MatchOption result ((self.old ≡ []) × (self.new ≡ [])) (λ next. self.old ≡ next ∷ self.new) }
    {
        self.items.pop()
    }

    // These declarers, in order, put in front of the others.
    fn put(&mut self, found: Vec<Open>) -> Result<(), NoMemory>
        ensures { OnOk result (self.new ≡ found.items ++ self.old) }
    {
        let mut left = found;
        while let Some(next) = left.pop() {
            self.push(next)?;
        }
        Ok(())
    }
}

// Adds the bounds of the dimensions of a row; the declarer of its elements is yet to be looked at.
fn add_rows(
    program: &Annotated,
    depth: u32,
    frames: Option<u32>,
    parts: &[NodeId],
    opens: &mut Opens,
    bounds: &mut Vec<Bound>,
) -> Result<(), NoMemory>
    ensures all { OnOk result (bounds.new.items ++ all_of program.now opens.new
        ≡ bounds.old.items ++ map (bounds_so_far.seen_from frames) (made.row_bounds program.now (made.bounds_within depth program.now) parts.now) ++ all_of program.now opens.old) }
    ensures looks { OnOk result (looks_of program.now opens.new
        ≤ length (made.row_bounds program.now (marks_within depth program.now) parts.now) + looks_of program.now opens.old) }
{
    for part in parts {
        if !is_bound(program, *part) {
            let id = *part;
            opens.push(Open { depth, frames, id })?;
            return Ok(());
        }
        add_dimension(program, frames, *part, bounds)?;
    }
    Ok(())
}

// Adds the declarer that stands last before a part, if any, where the part is a field.
fn add_last(
    program: &Annotated,
    depth: u32,
    frames: Option<u32>,
    last: Option<NodeId>,
    part: NodeId,
    found: &mut Vec<Open>,
) -> Result<(), NoMemory>
    ensures { OnOk result (found.new.items ≡ found.old.items ++ (if made.is_field (made.kind_at program.now part) then listed depth frames last else [])) }
{
    if !is_field(program, part) {
        return Ok(());
    }
    if let Some(id) = last {
        found.push(Open { depth, frames, id })?;
    }
    Ok(())
}

// The declarer that stands last before the next part: a part is one, or a field.
fn next_last(program: &Annotated, last: Option<NodeId>, part: NodeId) -> Option<NodeId>
    ensures { result ≡ (if made.is_field (made.kind_at program.now part) then last else Some part) }
{
    if is_field(program, part) {
        last
    } else {
        Some(part)
    }
}

// Finds the declarer of each field, to be added to none.
fn find_fields(
    program: &Annotated,
    depth: u32,
    frames: Option<u32>,
    parts: &[NodeId],
    found: &mut Vec<Open>,
) -> Result<(), NoMemory>
    requires { found.old.items ≡ [] }
    ensures all { OnOk result (all_of program.now found.new.items
        ≡ map (bounds_so_far.seen_from frames) (made.field_bounds program.now (made.bounds_within depth program.now) [] parts.now)) }
    ensures looks { OnOk result (looks_of program.now found.new.items ≡ length (made.field_bounds program.now (marks_within depth program.now) [] parts.now)) }
{
    let mut last = None;
    for part in parts {
        add_last(program, depth, frames, last, *part, found)?;
        last = next_last(program, last, *part);
    }
    Ok(())
}

// Opens the declarers of the fields.
fn open_fields(
    alloc: Global,
    program: &Annotated,
    depth: u32,
    frames: Option<u32>,
    parts: &[NodeId],
    opens: &mut Opens,
) -> Result<(), NoMemory>
    ensures all { OnOk result (all_of program.now opens.new
        ≡ map (bounds_so_far.seen_from frames) (made.field_bounds program.now (made.bounds_within depth program.now) [] parts.now) ++ all_of program.now opens.old) }
    ensures looks { OnOk result (looks_of program.now opens.new
        ≡ length (made.field_bounds program.now (marks_within depth program.now) [] parts.now) + looks_of program.now opens.old) }
{
    let mut found = Vec::new(alloc);
    find_fields(program, depth, frames, parts, &mut found)?;
    opens.put(found)?;
    Ok(())
}

// Opens what is within a declarer that is no row: that of the definition of a mode word, or those of its fields.
fn open_word(
    alloc: Global,
    program: &Annotated,
    depth: u32,
    frames: Option<u32>,
    id: NodeId,
    parts: &[NodeId],
    opens: &mut Opens,
) -> Result<(), NoMemory>
    requires { id < length program.now.tree.nodes }
    ensures all { OnOk result (all_of program.now opens.new
        ≡ map (bounds_so_far.seen_from frames) (made.word_bounds program.now (made.bounds_within depth program.now) (slice_get program.now.notes id) parts.now) ++ all_of program.now opens.old) }
    ensures looks { OnOk result (looks_of program.now opens.new
        ≡ length (made.word_bounds program.now (marks_within depth program.now) (slice_get program.now.notes id) parts.now) + looks_of program.now opens.old) }
{
    let note = program.note(id);
    match note.definition {
        Some(definition) => {
            let id = last_id(parts_at(program, definition));
            let out = outwards(frames, note.step.hops);
            let frames = Some(out);
            opens.push(Open { depth, frames, id })?;
            Ok(())
        }
        None => {
            open_fields(alloc, program, depth, frames, parts, opens)?;
            Ok(())
        }
    }
}

// Adds the bounds of a declarer up to those of the declarers within it, which are yet to be looked at. Where its mode has
// no rows there are none: so a structure of two of a mode, many within one another, is quick.
fn look_at(
    alloc: Global,
    program: &Annotated,
    modes: &Measured,
    next: Open,
    opens: &mut Opens,
    bounds: &mut Vec<Bound>,
) -> Result<(), NoMemory>
    requires { modes.now ≡ program.now.modes }
    ensures all { OnOk result (bounds.new.items ++ all_of program.now opens.new ≡ bounds.old.items ++ those_of program.now next ++ all_of program.now opens.old) }
    ensures looks { OnOk result (looks_of program.now opens.new < length (marks_within next.depth program.now next.id) + looks_of program.now opens.old) }
{
    let Open { depth, frames, id } = next;
    if depth == 0 {
        return Ok(());
    }
    if id >= program.tree.len() {
        return Ok(());
    }
    if has_no_rows(program, modes, id) {
        return Ok(());
    }
    let parts = parts_at(program, id);
    if is_string(program, id) {
        add_string(bounds)?;
    } else if begins_with_bound(program, parts) {
        add_rows(program, depth - 1, frames, parts, opens, bounds)?;
    } else {
        open_word(alloc, program, depth - 1, frames, id, parts, opens)?;
    }
    Ok(())
}

// Adds the bounds of a declarer. Where there are too many already, no more are looked for.
fn add_bounds(
    alloc: Global,
    program: &Annotated,
    modes: &Measured,
    first: Open,
    bounds: &mut Vec<Bound>,
) -> Result<(), NoMemory>
    requires { modes.now ≡ program.now.modes }
    ensures { OnOk result (bounds_so_far.AreAdded first.frames bounds.old.items bounds.new.items (made.bounds_within first.depth program.now first.id)) }
{
    let mut opens = Opens::new(alloc);
    opens.push(first)?;
    while let Some(next) = opens.pop() {
        if bounds.len() >= MOST_BOUNDS {
            return Ok(());
        }
        look_at(alloc, program, modes, next, &mut opens, bounds)?;
    }
    Ok(())
}

// Adds the bounds of the first of these nodes, where it is a declarer, to none.
fn add_first(
    alloc: Global,
    program: &Annotated,
    parts: &[NodeId],
    bounds: &mut Vec<Bound>,
) -> Result<(), NoMemory>
    requires { bounds.old.items ≡ [] }
    ensures { OnOk result (take made.most_bounds bounds.new.items ≡ made.first_bounds program.now parts.now) }
{
    if parts.len() > 0 && is_declarer(program, parts[0]) {
        let modes = Measured::new(alloc, &program.modes, mode_at(program, parts[0]))?;
        let depth = program.tree.len();
        let frames = None;
        let id = parts[0];
        add_bounds(alloc, program, &modes, Open { depth, frames, id }, bounds)?;
    }
    Ok(())
}

/// The bounds of the first of these nodes, where it is a declarer: a lower and an upper one for each dimension of each
/// row, from outside inwards, fields in order; at most one more than there may be instructions.
pub fn bounds_of(
    alloc: Global,
    program: &Annotated,
    parts: &[NodeId],
) -> Result<Vec<Bound>, NoMemory>
    ensures { IfOk result (λ bounds. bounds.items ≡ made.first_bounds program.now parts.now) }
{
    let mut bounds = Vec::new(alloc);
    add_first(alloc, program, parts, &mut bounds)?;
    bounds.truncate(MOST_BOUNDS);
    Ok(bounds)
}

// Does a bound leave a value, where it is written?
fn is_bounding(program: &Annotated, bound: Bound) -> bool
    ensures { result ≡ runs.is_bounding program.now bound }
{
    match bound {
        Bound::Written(id) => leaves(program, true, id),
        Bound::Defined { id, .. } => leaves(program, true, id),
        Bound::Meant(_) => true,
    }
}

// Do all of them?
fn are_bounding(program: &Annotated, bounds: &[Bound]) -> bool
    ensures { result ≡ list_all (runs.is_bounding program.now) bounds.now }
{
    bounds.iter().all(|bound| is_bounding(program, *bound))
}

// Do the bounds leave values, as many as a name of a mode has? More than there may be instructions are not counted.
fn bounds_run(program: &Annotated, modes: &Measured, mode: ModeId, bounds: &[Bound]) -> bool
    requires { modes.now ≡ program.now.modes }
    ensures { result ≡ runs.bounds_run program.now mode bounds.now }
{
    if !are_bounding(program, bounds) {
        return false;
    }
    MOST_INSTRUCTIONS < bounds.len() || takes_bounds(modes, mode, bounds.len())
}

/// Does a new name run of what a name of this mode refers to, with the bounds of the first of these nodes?
pub fn new_runs(
    alloc: Global,
    program: &Annotated,
    mode: ModeId,
    parts: &[NodeId],
) -> Result<bool, NoMemory>
    ensures { IfOk result (λ is_run. is_run ≡ runs.new_runs program.now mode parts.now) }
{
    let to = behind_ref(&program.modes, mode);
    if to >= program.modes.len() {
        return Ok(false);
    }
    let bounds = bounds_of(alloc, program, parts)?;
    let modes = Measured::new(alloc, &program.modes, to)?;
    let is_run = bounds_run(program, &modes, to, &bounds);
    Ok(is_run)
}
