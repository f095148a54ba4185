//! Enquiries and loops.
ghost use Rattle.std.specs.Option.{is_some, option_map_or};
ghost use Rattle.std.specs.Prelude.{◌≡◌, ◌<◌, ◌∷◌, [], length, true, IfSome};
ghost use Rattle.a68_elab.specs.Made as made;
ghost use Rattle.a68_elab.specs.Made.{trees_at};
ghost use Rattle.a68_elab.specs.Programs.{all_seated, behind, test_seated};
ghost use Rattle.a68_elab.specs.Trees as trees;
ghost use Rattle.a68_emit.specs.Listing.{instr, stretch, test_stretch};
ghost use Rattle.a68_constructs.specs.Loops.{asked, counted, unless_at};
ghost use Rattle.a68_emit.specs.Views.{laid_of, lying, seat_of, tree_of};
ghost use Rattle.a68_emit.specs.Writers.{Wrote};
ghost use Rattle.a68_parts.specs.Loops.{AreWithin};
ghost use Rattle.a68_tree.specs.Trees.{AllBetween};

use crate::rows::{all, write_part};
use a68_code::Does;
use a68_emit::{View, Writer, depth, leave_frames, limit, loop_turn, meaningless, open, push_int};
use a68_parts::{LoopParts, loop_parts, only_id};
use a68_tree::NodeId;
use std::alloc::Global;

// FROM, BY or TO: [part], or what is meant where it is left out.
#[cycle(units)]
fn control(
    alloc: Global,
    program: &View,
    id: NodeId,
    part: Option<NodeId>,
    left_out: Does,
    place: u32,
    out: &mut Writer,
)
    requires { IfSome part (λ p. (id < p) × (p < length program.now.of.now.tree.nodes)) }
    ensures { Wrote out.old out.new (option_map_or (λ p. stretch (behind id (laid_of program.now) p) (length out.old.list)) part (instr place left_out ∷ [])) }
{
    match part {
        Some(part) => write_part(alloc, program, id, part, out),
        None => out.emit(place, left_out),
    }
}

// [FROM] [BY] [TO] Counter; with TO [FROM] [BY] [TO] Apply + Counter.
#[cycle(units)]
fn count(alloc: Global, program: &View, id: NodeId, parts: &LoopParts, place: u32, out: &mut Writer)
    requires { AreWithin id (length program.now.of.now.tree.nodes) parts.now }
    ensures { Wrote out.old out.new (counted (all_seated (seat_of program.now) true (made.controls_of (behind id (tree_of program.now)) place parts.now.from parts.now.by parts.now.to))
        (is_some parts.now.to) place (length out.old.list)) }
{
    let over_from = program.raised();
    let over_by = over_from.raised();
    control(alloc, program, id, parts.from, push_int(1), place, out);
    control(alloc, &over_from, id, parts.by, push_int(1), place, out);
    control(alloc, &over_by, id, parts.to, Does::Skip(1), place, out);
    limit(place, parts.to.is_some(), out);
    out.emit(place, Does::Counter);
}

/// [phrases]; with slots Enter [phrases]. The program is seen from within the frame.
#[cycle(units)]
pub fn enquire(
    alloc: Global,
    program: &View,
    id: NodeId,
    parts: &[NodeId],
    place: u32,
    slots: u32,
    out: &mut Writer,
)
    requires { AllBetween id (length program.now.of.now.tree.nodes) parts.now }
    ensures { Wrote out.old out.new (asked (trees.while_in place slots (made.phrases_of place (trees_at (behind id (laid_of program.now)) parts.now))) (length out.old.list)) }
{
    open(place, slots, out);
    all(alloc, program, id, parts, out);
}

// The enquiry behind WHILE.
#[cycle(units)]
fn ask(alloc: Global, program: &View, id: NodeId, clause: Option<NodeId>, out: &mut Writer)
    requires { IfSome clause (λ p. (id < p) × (p < length program.now.of.now.tree.nodes)) }
    ensures { Wrote out.old out.new (asked (test_seated (seat_of program.now) (made.enquiry_at program.now.of.now (behind id (tree_of program.now)) clause)) (length out.old.list)) }
{
    match clause {
        Some(clause) => {
            let place = program.of.node(clause).span.from;
            let slots = program.of.note(clause).slots;
            let parts = program.of.parts(clause);
            let within = program.deeper(u32::from(slots > 0));
            enquire(alloc, &within, id, parts, place, slots, out)
        }
        None => meaningless(out),
    }
}

// [enquiry] Unless 0, where WHILE is there: and gives the number of the Unless.
#[cycle(units)]
fn test(
    alloc: Global,
    program: &View,
    id: NodeId,
    test: Option<NodeId>,
    place: u32,
    out: &mut Writer,
) -> Option<u32>
    requires { IfSome test (λ p. (id < p) × (p < length program.now.of.now.tree.nodes)) }
    ensures writes { Wrote out.old out.new (test_stretch place 0 (test_seated (seat_of program.now) (made.test_of program.now.of.now (behind id (tree_of program.now)) test)) (length out.old.list)) }
    ensures unless { out.new.stop ≡ None → result ≡ unless_at (test_seated (seat_of program.now) (made.test_of program.now.of.now (behind id (tree_of program.now)) test)) (length out.old.list) }
{
    let Some(part) = test else {
        return None;
    };
    ask(alloc, program, id, only_id(program.of.parts(part)), out);
    let unless = out.len();
    out.emit(place, Does::Unless(0));
    Some(unless)
}

// The body of a loop.
#[cycle(units)]
fn body(alloc: Global, program: &View, id: NodeId, part: Option<NodeId>, out: &mut Writer)
    requires { IfSome part (λ p. (id < p) × (p < length program.now.of.now.tree.nodes)) }
    ensures { Wrote out.old out.new (stretch (option_map_or (behind id (laid_of program.now)) part trees.meaningless) (length out.old.list)) }
{
    match part {
        Some(part) => write_part(alloc, program, id, part, out),
        None => meaningless(out),
    }
}

/// [FROM] [BY] [TO] Counter t: Step e Turn [test] Unless f [body] Advance t Jump e f: e: Forget. FOR and WHILE make
/// frames: a Leave for each stands before Advance and before e.
#[cycle(units)]
#[inline(never)]
pub fn repeat(
    alloc: Global,
    program: &View,
    id: NodeId,
    parts: &[NodeId],
    place: u32,
    out: &mut Writer,
)
    requires { AllBetween id (length program.now.of.now.tree.nodes) parts.now }
    ensures { Wrote out.old out.new (stretch (lying program.now (made.loop_of program.now.of.now (behind id (tree_of program.now)) place parts.now)) (length out.old.list)) }
{
    let parts = loop_parts(program.of.annotated(), id, parts);
    let frames = depth(program, &parts);
    count(alloc, program, id, &parts, place, out);
    let step = out.len();
    loop_turn(place, parts.counts, out);
    let turn = program.raised();
    let counted = turn.deeper(u32::from(parts.counts));
    let unless = test(alloc, &counted, id, parts.test, place, out);
    body(alloc, &turn.deeper(frames), id, parts.body, out);
    leave_frames(place, frames, out);
    let quit = out.len() + 2;
    let end = quit + frames;
    out.patch(step, end);
    out.patch_some(unless, quit);
    out.emit(place, Does::Advance(step));
    out.emit(place, Does::Jump(end));
    leave_frames(place, frames, out);
    out.emit(place, Does::Forget);
}
