//! Choices, by a truth value or by a number, and their chains, in which choices by a mode may stand.
ghost use Rattle.std.specs.Option.{option_map_or};
ghost use Rattle.std.specs.Prelude.{◌≡◌, ◌<◌, ◌≤◌, ◌+◌, ◌∷◌, ◌++◌, [], not, length, IfSome, IsTrue};
ghost use Rattle.a68_elab.specs.Made as made;
ghost use Rattle.a68_elab.specs.Made.{trees_at};
ghost use Rattle.a68_elab.specs.Programs.{behind};
ghost use Rattle.a68_emit.specs.Chains.{IsOpen, TreeIsWritten, LinkIsWithin, enquiry_tree, jump_of, link_list, link_tree, other_tree};
ghost use Rattle.a68_emit.specs.Listing.{arm_places, arm_stretches, instr, size, stretch};
ghost use Rattle.a68_emit.specs.Numbers.{arm_jumps};
ghost use Rattle.a68_constructs.specs.Endings.{GoesOn, IsBareChoice, IsChoice, IsFront, IsSeenAlike, TailIsWithin, by_mode, case_front, case_tree, choice_tree, enquiry_slots, laid_choice, out_tree, tail_behind};
ghost use Rattle.a68_emit.specs.Views.{laid_of, lying, tree_of, within};
ghost use Rattle.a68_emit.specs.Writers.{Wrote};
ghost use Rattle.a68_modes.specs.Nodes.{shape_at, is_void};
ghost use Rattle.a68_tree.specs.Trees.{AllBetween};

use crate::conformity::conform_front;
use crate::endings::{Ending, end_all, keep_ending};
use crate::rows::{unit, write_part};
use crate::turns::enquire;
use a68_annot::Note;
use a68_code::{Does, Places};
use a68_emit::{
    Link, Opened, View, Writer, close_all, keep, keep_open, link_of, meaningless, next_link, zeros,
};
use a68_modes::ModeId;
use a68_parts::{before_out, out_of};
use a68_tree::{Node, NodeId, NodeKind};
use std::alloc::Global;

/// The part that is chosen where the enquiry is false: [part], or Skip.
#[cycle(units)]
pub fn otherwise(
    alloc: Global,
    program: &View,
    id: NodeId,
    part: Option<NodeId>,
    place: u32,
    goal: ModeId,
    out: &mut Writer,
)
    requires { IfSome part (λ p. (id < p) × (p < length program.now.of.now.tree.nodes)) }
    ensures { Wrote out.old out.new (stretch (option_map_or (laid_of program.now) part (made.left_out place goal)) (length out.old.list)) }
{
    match part {
        Some(part) => unit(alloc, program, part, out),
        None => out.emit(place, Does::Skip(goal)),
    }
}

// [enquiry] Unless x [part] Jump 0 x: and gives the number of the Jump. With slots Enter stands before it. The program is
// seen from within its frame.
#[cycle(units)]
fn write_link(alloc: Global, program: &View, link: &Link, out: &mut Writer) -> u32
    requires { LinkIsWithin program.now.of.now link.now }
    ensures writes { Wrote out.old out.new (link_list link.now.at link.now.slots link.now.place (enquiry_tree program.now.of.now (laid_of program.now) link.now)
        (laid_of program.now link.now.part) (length out.old.list)) }
    ensures jump { out.new.stop ≡ None → result ≡ jump_of link.now.at link.now.slots (enquiry_tree program.now.of.now (laid_of program.now) link.now)
        (laid_of program.now link.now.part) (length out.old.list) }
{
    let place = link.place;
    let phrases = program.of.parts(link.enquiry);
    enquire(
        alloc,
        program,
        link.enquiry,
        phrases,
        link.at,
        link.slots,
        out,
    );
    let unless = out.len();
    out.emit(place, Does::Unless(0));
    unit(alloc, program, link.part, out);
    let jump = out.len();
    out.emit(place, Does::Jump(0));
    let x = out.len();
    out.patch(unless, x);
    jump
}

// Writes the choices of a chain one behind the other, whose ends are yet to come, and gives the last one, whose other
// part is yet to be written, and how the program is seen from there.
#[cycle(units)]
fn write_links<'a>(
    alloc: Global,
    program: &View<'a>,
    first: Link,
    opens: &mut Vec<Opened>,
    out: &mut Writer,
) -> (Link, View<'a>)
    requires within { LinkIsWithin program.now.of.now first }
    requires empty { opens.old.items ≡ [] }
    ensures within { LinkIsWithin program.now.of.now result.0 }
    ensures behind { first.id ≤ result.0.id }
    ensures seen { IsSeenAlike program.now result.1 }
    ensures chain { IsOpen (TreeIsWritten (link_tree program.now.of.now (laid_of (within first.slots program.now)) first) out.old.stop out.old.list) opens.new.items
        (other_tree (laid_of result.1) result.0) out.new.stop out.new.list }
{
    let mut link = first;
    let mut inner = program.within(first.slots);
    'links: loop {
        let jump = write_link(alloc, &inner, &link, out);
        keep_open(opens, &link, jump, out);
        match next_link(&inner, &link) {
            Some(next) => {
                link = next;
                inner = inner.within(next.slots);
            }
            None => return (link, inner),
        }
    }
}

// A chain of choices: no more of the stack is needed however long it is.
#[cycle(units)]
fn chain(alloc: Global, program: &View, first: Link, out: &mut Writer)
    requires { LinkIsWithin program.now.of.now first }
    ensures { Wrote out.old out.new (stretch (link_tree program.now.of.now (laid_of (within first.slots program.now)) first) (length out.old.list)) }
{
    let mut opens = Vec::new(alloc);
    let (last, inner) = write_links(alloc, program, first, &mut opens, out);
    otherwise(
        alloc, &inner, last.id, last.other, last.place, last.goal, out,
    );
    close_all(&opens, out);
}

/// A choice of two parts, or of one.
#[cycle(units)]
#[inline(never)]
pub fn conditional(
    alloc: Global,
    program: &View,
    id: NodeId,
    parts: &[NodeId],
    place: u32,
    goal: ModeId,
    out: &mut Writer,
)
    requires { AllBetween id (length program.now.of.now.tree.nodes) parts.now }
    ensures { Wrote out.old out.new (stretch (lying program.now (made.choice_of program.now.of.now (behind id (tree_of program.now)) place goal
        (not (is_void (shape_at program.now.of.now.modes goal))) parts.now)) (length out.old.list)) }
{
    match link_of(program, id, parts, place, goal) {
        Some(first) => chain(alloc, program, first, out),
        None => meaningless(out),
    }
}

// [part] Jump 0: and keeps where the part begins, and the number of the Jump.
#[cycle(units)]
fn write_arm(
    alloc: Global,
    program: &View,
    id: NodeId,
    part: NodeId,
    place: u32,
    starts: &mut Vec<u32>,
    jumps: &mut Vec<u32>,
    out: &mut Writer,
)
    requires { (id < part) × (part < length program.now.of.now.tree.nodes) }
    ensures writes { Wrote out.old out.new (stretch (behind id (laid_of program.now) part) (length out.old.list) ++ instr place (Does.Jump 0) ∷ []) }
    ensures starts { out.new.stop ≡ None → starts.new.items ≡ starts.old.items ++ length out.old.list ∷ [] }
    ensures jumps { out.new.stop ≡ None → jumps.new.items ≡ jumps.old.items ++ (length out.old.list + size (behind id (laid_of program.now) part)) ∷ [] }
{
    let start = out.len();
    keep(starts, start, out);
    write_part(alloc, program, id, part, out);
    let jump = out.len();
    keep(jumps, jump, out);
    out.emit(place, Does::Jump(0));
}

// Writes the parts that are chosen among by a number, and keeps where each begins and where the other part does, and the
// numbers of the jumps to the end, which are yet to be patched.
#[cycle(units)]
fn write_arms(
    alloc: Global,
    program: &View,
    id: NodeId,
    parts: &[NodeId],
    place: u32,
    starts: &mut Vec<u32>,
    jumps: &mut Vec<u32>,
    out: &mut Writer,
)
    requires between { AllBetween id (length program.now.of.now.tree.nodes) parts.now }
    requires no_starts { starts.old.items ≡ [] }
    requires no_jumps { jumps.old.items ≡ [] }
    ensures writes { Wrote out.old out.new (arm_stretches place 0 (trees_at (behind id (laid_of program.now)) parts.now) (length out.old.list)) }
    ensures starts { out.new.stop ≡ None → starts.new.items ≡ arm_places (trees_at (behind id (laid_of program.now)) parts.now) (length out.old.list) ++ length out.new.list ∷ [] }
    ensures jumps { out.new.stop ≡ None → jumps.new.items ≡ arm_jumps (trees_at (behind id (laid_of program.now)) parts.now) (length out.old.list) }
{
    for part in parts {
        write_arm(alloc, program, id, *part, place, starts, jumps, out);
    }
    let other = out.len();
    keep(starts, other, out);
}

/// What is yet to be written of a choice by a number or by a mode: the other part, if there is one, behind the node of the choice; the
/// byte at which that begins, and the mode that is asked of it.
#[derive(Clone, Copy)]
pub struct Tail {
    pub id: NodeId,
    pub other: Option<NodeId>,
    pub place: u32,
    pub goal: ModeId,
}

// Case and its places, the [part] of each number and Jump 0: and keeps the numbers of the jumps.
#[cycle(units)]
fn choose(
    alloc: Global,
    program: &View,
    id: NodeId,
    parts: &[NodeId],
    place: u32,
    jumps: &mut Vec<u32>,
    out: &mut Writer,
)
    requires between { AllBetween id (length program.now.of.now.tree.nodes) parts.now }
    requires no_jumps { jumps.old.items ≡ [] }
    ensures writes { Wrote out.old out.new (case_front place (trees_at (behind id (laid_of program.now)) parts.now) (length out.old.list)) }
    ensures jumps { out.new.stop ≡ None → jumps.new.items ≡ arm_jumps (trees_at (behind id (laid_of program.now)) parts.now) (length out.old.list + 1) }
{
    let Ok(items) = zeros(alloc, parts.len() + 1) else {
        out.run_out();
        return;
    };
    let case = out.len();
    out.emit(place, Does::Case(Places { items }));
    let mut starts = Vec::new(alloc);
    write_arms(alloc, program, id, parts, place, &mut starts, jumps, out);
    out.patch_each(case, &starts);
}

// [enquiry] Case .. up to where the other part begins, and tells what is to be done at the end. With slots Enter stands
// before it. The program is seen from within its frame.
#[cycle(units)]
fn write_front(
    alloc: Global,
    program: &View,
    id: NodeId,
    parts: &[NodeId],
    place: u32,
    goal: ModeId,
    out: &mut Writer,
) -> Ending
    requires some { 0 < length parts.now }
    requires between { AllBetween id (length program.now.of.now.tree.nodes) parts.now }
    ensures { IsFront (case_tree program.now.of.now (laid_of program.now) id place goal parts.now)
        (out_tree (laid_of program.now) (tail_behind program.now.of.now id place goal parts.now)) result out.old.stop out.old.list out.new.stop out.new.list }
{
    let enquiry = parts[0];
    let begin = program.of.node(enquiry).span.from;
    let slots = program.of.note(enquiry).slots;
    let phrases = program.of.parts(enquiry);
    enquire(alloc, program, enquiry, phrases, begin, slots, out);
    let units = before_out(program.of.annotated(), id, &parts[1..]);
    let mut jumps = Vec::new(alloc);
    choose(alloc, program, id, units, place, &mut jumps, out);
    Ending {
        jumps,
        place,
        slots,
        yields: !program.of.is_void(goal),
    }
}

// What is left of a choice with these parts behind its front.
fn tail_of(program: &View, id: NodeId, parts: &[NodeId], place: u32, goal: ModeId) -> Tail
    requires some { 0 < length parts.now }
    requires between { AllBetween id (length program.now.of.now.tree.nodes) parts.now }
    ensures is { result ≡ tail_behind program.now.of.now id place goal parts.now }
    ensures within { TailIsWithin program.now.of.now result }
{
    Tail {
        id,
        other: out_of(program.of.annotated(), id, &parts[1..]),
        place,
        goal,
    }
}

// Is a node the other part of a choice, without coercions?
fn is_bare_out(node: &Node, note: &Note) -> bool
    ensures kind { IsTrue result → node.now.kind ≡ NodeKind.Out }
    ensures path { IsTrue result → note.now.path ≡ [] }
{
    matches!(node.kind, NodeKind::Out) && note.path.items.is_empty()
}

// Is it a choice by a mode?
fn is_by_mode(node: &Node) -> bool
    ensures { result ≡ by_mode node.now.kind }
{
    matches!(node.kind, NodeKind::Conformity)
}

// Is it a choice by a number or by a mode, without coercions?
fn is_bare_choice(node: &Node, note: &Note) -> bool
    ensures kind { IsTrue result → IsChoice node.now.kind }
    ensures path { IsTrue result → note.now.path ≡ [] }
{
    match node.kind {
        NodeKind::Case | NodeKind::Conformity => note.path.items.is_empty(),
        _ => false,
    }
}

// What an other part consists of, where it is a unit that is written as it stands.
fn unit_within(program: &View, id: NodeId) -> Option<NodeId>
    requires { id < length program.now.of.now.tree.nodes }
    ensures tree { IfSome result (λ unit. tree_of program.now id ≡ tree_of program.now unit) }
    ensures within { IfSome result (λ unit. (id < unit) × (unit < length program.now.of.now.tree.nodes)) }
{
    let node = program.of.node(id);
    let note = program.of.note(id);
    if !is_bare_out(node, note) {
        return None;
    }
    if !program.of.surely_runs(id) {
        return None;
    }
    let parts = program.of.parts(id);
    if parts.len() != 1 {
        return None;
    }
    Some(parts[0])
}

// Is a node a choice by a number or by a mode that is written as it stands?
fn is_choice(program: &View, id: NodeId) -> bool
    requires { id < length program.now.of.now.tree.nodes }
    ensures { IsTrue result → IsBareChoice program.now.of.now id }
{
    let node = program.of.node(id);
    let note = program.of.note(id);
    if !is_bare_choice(node, note) {
        return false;
    }
    if !program.of.surely_runs(id) {
        return false;
    }
    if program.of.parts(id).len() == 0 {
        return false;
    }
    true
}

// The node of the next choice of a chain, where there is one.
fn next_choice(program: &View, tail: &Tail) -> Option<NodeId>
    requires { TailIsWithin program.now.of.now tail.now }
    ensures tree { IfSome result (λ next. out_tree (tree_of program.now) tail.now ≡ tree_of program.now next) }
    ensures choice { IfSome result (IsBareChoice program.now.of.now) }
    ensures within { IfSome result (λ next. (tail.now.id < next) × (next < length program.now.of.now.tree.nodes)) }
{
    let Some(other) = tail.other else {
        return None;
    };
    let Some(unit) = unit_within(program, other) else {
        return None;
    };
    if !is_choice(program, unit) {
        return None;
    }
    Some(unit)
}

// The front of a choice by a mode, or of one by a number, and what is to be done at its end. The program is seen from within
// its frame.
#[cycle(units)]
fn front_of(
    alloc: Global,
    program: &View,
    by_mode: bool,
    id: NodeId,
    parts: &[NodeId],
    place: u32,
    goal: ModeId,
    out: &mut Writer,
) -> Ending
    requires some { 0 < length parts.now }
    requires between { AllBetween id (length program.now.of.now.tree.nodes) parts.now }
    ensures { IsFront (laid_choice program.now by_mode id place goal parts.now)
        (out_tree (laid_of program.now) (tail_behind program.now.of.now id place goal parts.now)) result out.old.stop out.old.list out.new.stop out.new.list }
{
    if by_mode {
        return conform_front(alloc, program, id, parts, place, goal, out);
    }
    write_front(alloc, program, id, parts, place, goal, out)
}

// How a program is seen from within the frame of a choice with these parts.
fn inner<'a>(program: &View<'a>, id: NodeId, parts: &[NodeId]) -> View<'a>
    requires some { 0 < length parts.now }
    requires between { AllBetween id (length program.now.of.now.tree.nodes) parts.now }
    ensures { result ≡ within (enquiry_slots program.now.of.now parts.now) program.now }
{
    program.within(program.of.note(parts[0]).slots)
}

// Writes a choice of a chain up to where its other part begins, and keeps what is to be done at its end. Gives what is left
// of it, and how the program is seen from there.
#[cycle(units)]
fn write_choice<'a>(
    alloc: Global,
    program: &View<'a>,
    id: NodeId,
    endings: &mut Vec<Ending>,
    out: &mut Writer,
) -> (Tail, View<'a>)
    requires there { id < length program.now.of.now.tree.nodes }
    requires choice { IsBareChoice program.now.of.now id }
    ensures within { TailIsWithin program.now.of.now result.0 }
    ensures node { result.0.id ≡ id }
    ensures seen { IsSeenAlike program.now result.1 }
    ensures on { GoesOn (laid_of program.now id) (out_tree (laid_of result.1) result.0) endings.old.items out.old.stop out.old.list endings.new.items out.new.stop out.new.list }
{
    let node = program.of.node(id);
    let note = program.of.note(id);
    let parts = program.of.parts(id);
    let place = node.span.from;
    let by_mode = is_by_mode(node);
    let seen = inner(program, id, parts);
    let ending = front_of(alloc, &seen, by_mode, id, parts, place, note.goal, out);
    keep_ending(endings, ending, out);
    let tail = tail_of(&seen, id, parts, place, note.goal);
    (tail, seen)
}

// Writes the choices of a chain one behind the other, whose ends are yet to come, and tells what is left of the last one, and
// how the program is seen from there.
#[cycle(units)]
fn write_choices<'a>(
    alloc: Global,
    program: &View<'a>,
    first: Tail,
    endings: &mut Vec<Ending>,
    out: &mut Writer,
) -> (Tail, View<'a>)
    requires { TailIsWithin program.now.of.now first }
    ensures within { TailIsWithin program.now.of.now result.0 }
    ensures behind { first.id ≤ result.0.id }
    ensures seen { IsSeenAlike program.now result.1 }
    ensures on { GoesOn (out_tree (laid_of program.now) first) (out_tree (laid_of result.1) result.0) endings.old.items out.old.stop out.old.list
        endings.new.items out.new.stop out.new.list }
{
    let mut tail = first;
    let mut seen = *program;
    'tails: loop {
        match next_choice(&seen, &tail) {
            Some(next) => (tail, seen) = write_choice(alloc, &seen, next, endings, out),
            None => return (tail, seen),
        }
    }
}

/// A chain of choices by a number or by a mode, of which the first is of these parts: no more of the stack is needed
/// however long it is.
#[cycle(units)]
pub fn choice_chain(
    alloc: Global,
    program: &View,
    by_mode: bool,
    id: NodeId,
    parts: &[NodeId],
    place: u32,
    goal: ModeId,
    out: &mut Writer,
)
    requires some { 0 < length parts.now }
    requires between { AllBetween id (length program.now.of.now.tree.nodes) parts.now }
    ensures { Wrote out.old out.new (stretch (lying program.now (choice_tree program.now.of.now (tree_of program.now) by_mode id place goal parts.now)) (length out.old.list)) }
{
    let mut endings = Vec::new(alloc);
    let within = inner(program, id, parts);
    let ending = front_of(alloc, &within, by_mode, id, parts, place, goal, out);
    keep_ending(&mut endings, ending, out);
    let first = tail_of(&within, id, parts, place, goal);
    let (last, seen) = write_choices(alloc, &within, first, &mut endings, out);
    otherwise(
        alloc, &seen, last.id, last.other, last.place, last.goal, out,
    );
    end_all(&endings, out);
}

/// [enquiry] Case .., with slots Enter before it and Leave behind it.
#[cycle(units)]
#[inline(never)]
pub fn case(
    alloc: Global,
    program: &View,
    id: NodeId,
    parts: &[NodeId],
    place: u32,
    goal: ModeId,
    out: &mut Writer,
)
    requires { AllBetween id (length program.now.of.now.tree.nodes) parts.now }
    ensures { Wrote out.old out.new (stretch (lying program.now (made.case_of program.now.of.now (behind id (tree_of program.now)) place goal
        (not (is_void (shape_at program.now.of.now.modes goal))) parts.now)) (length out.old.list)) }
{
    if parts.len() == 0 {
        meaningless(out);
        return;
    }
    choice_chain(alloc, program, false, id, parts, place, goal, out);
}
