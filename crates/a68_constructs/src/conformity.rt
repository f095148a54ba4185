//! The instructions of conformity clauses. Above each function stands what it writes: `[x]` is what the part x writes.
ghost use Rattle.std.specs.Prelude.{◌≡◌, ◌<◌, ◌+◌, ◌∷◌, ◌++◌, [], not, length};
ghost use Rattle.a68_acts.specs.Members.{members_of};
ghost use Rattle.a68_constructs.specs.Endings.{IsFront, laid_conformity, member_front, out_tree, tail_behind};
ghost use Rattle.a68_elab.specs.Made as made;
ghost use Rattle.a68_elab.specs.Made.{specs_of};
ghost use Rattle.a68_elab.specs.Programs.{behind, one_if, specs_seated};
ghost use Rattle.a68_emit.specs.Conforming.{spec_body, spec_jumps, spec_size};
ghost use Rattle.a68_emit.specs.Listing.{instr, spec_places, spec_stretches, stretch};
ghost use Rattle.a68_emit.specs.Views.{deeper, laid_of, lying, seat_of, tree_of};
ghost use Rattle.a68_emit.specs.Writers.{Wrote};
ghost use Rattle.a68_modes.specs.Nodes.{shape_at, is_void};
ghost use Rattle.a68_tree.specs.Trees.{AllBetween};

use crate::choices::choice_chain;
use crate::endings::Ending;
use crate::rows::write_part;
use crate::turns::enquire;
use a68_code::Does;
use a68_emit::{
    View, Writer, aim_member, goal_at, has_tag, keep, meaningless, members_of, unaimed,
};
use a68_modes::ModeId;
use a68_parts::before_out;
use a68_tree::NodeId;
use std::alloc::Global;

// Enter 1 Bind 0 [part] Leave, or without a tag Drop [part].
#[cycle(units)]
fn write_specified(
    alloc: Global,
    program: &View,
    id: NodeId,
    part: NodeId,
    tagged: bool,
    yields: bool,
    place: u32,
    out: &mut Writer,
)
    requires { (id < part) × (part < length program.now.of.now.tree.nodes) }
    ensures { Wrote out.old out.new (spec_body place yields tagged (behind id (laid_of (deeper (one_if tagged) program.now)) part) (length out.old.list)) }
{
    let within = program.deeper(u32::from(tagged));
    if !tagged {
        out.emit(place, Does::Drop);
        write_part(alloc, &within, id, part, out);
        return;
    }
    out.emit(place, Does::Enter(1));
    out.emit(place, Does::Bind(0));
    write_part(alloc, &within, id, part, out);
    out.emit(place, Does::Leave(u32::from(yields)));
}

// A specification and its part, and Jump 0: keeps where it begins, and the number of the Jump.
#[cycle(units)]
fn write_spec(
    alloc: Global,
    program: &View,
    id: NodeId,
    part: NodeId,
    tagged: bool,
    yields: bool,
    place: u32,
    starts: &mut Vec<u32>,
    jumps: &mut Vec<u32>,
    out: &mut Writer,
)
    requires { (id < part) × (part < length program.now.of.now.tree.nodes) }
    ensures writes { Wrote out.old out.new (spec_body place yields tagged (behind id (laid_of (deeper (one_if tagged) program.now)) part) (length out.old.list) ++ instr place (Does.Jump 0) ∷ []) }
    ensures starts { out.new.stop ≡ None → starts.new.items ≡ starts.old.items ++ length out.old.list ∷ [] }
    ensures jumps { out.new.stop ≡ None → jumps.new.items ≡ jumps.old.items ++ (length out.old.list + spec_size tagged (behind id (laid_of (deeper (one_if tagged) program.now)) part)) ∷ [] }
{
    let start = out.len();
    keep(starts, start, out);
    write_specified(alloc, program, id, part, tagged, yields, place, out);
    let jump = out.len();
    keep(jumps, jump, out);
    out.emit(place, Does::Jump(0));
}

// Writes specifications and their parts, two by two, and keeps where each begins, and the numbers of the jumps to the
// end, which are yet to be patched.
#[cycle(units)]
fn write_specs(
    alloc: Global,
    program: &View,
    id: NodeId,
    specs: &[NodeId],
    yields: bool,
    place: u32,
    starts: &mut Vec<u32>,
    jumps: &mut Vec<u32>,
    out: &mut Writer,
)
    requires between { AllBetween id (length program.now.of.now.tree.nodes) specs.now }
    requires no_starts { starts.old.items ≡ [] }
    requires no_jumps { jumps.old.items ≡ [] }
    ensures writes { Wrote out.old out.new (spec_stretches place 0 yields (specs_seated (seat_of program.now) (specs_of program.now.of.now (behind id (tree_of program.now)) specs.now)) (length out.old.list)) }
    ensures starts { out.new.stop ≡ None → starts.new.items ≡ spec_places (specs_seated (seat_of program.now) (specs_of program.now.of.now (behind id (tree_of program.now)) specs.now)) (length out.old.list) }
    ensures jumps { out.new.stop ≡ None → jumps.new.items ≡ spec_jumps (specs_seated (seat_of program.now) (specs_of program.now.of.now (behind id (tree_of program.now)) specs.now)) (length out.old.list) }
{
    let mut at = 0;
    while at + 1 < specs.len() {
        let tagged = has_tag(program, specs[at]);
        write_spec(
            alloc,
            program,
            id,
            specs[at + 1],
            tagged,
            yields,
            place,
            starts,
            jumps,
            out,
        );
        at += 2;
    }
}

// Member and its places, the specifications with their parts and Jump 0: and keeps the numbers of the jumps.
#[cycle(units)]
fn conform(
    alloc: Global,
    program: &View,
    id: NodeId,
    specs: &[NodeId],
    union: ModeId,
    place: u32,
    yields: bool,
    jumps: &mut Vec<u32>,
    out: &mut Writer,
)
    requires between { AllBetween id (length program.now.of.now.tree.nodes) specs.now }
    requires no_jumps { jumps.old.items ≡ [] }
    ensures writes { Wrote out.old out.new (member_front place union (members_of (shape_at program.now.of.now.modes union)) yields
        (specs_seated (seat_of program.now) (specs_of program.now.of.now (behind id (tree_of program.now)) specs.now)) (length out.old.list)) }
    ensures jumps { out.new.stop ≡ None → jumps.new.items ≡ spec_jumps (specs_seated (seat_of program.now) (specs_of program.now.of.now (behind id (tree_of program.now)) specs.now)) (length out.old.list + 1) }
{
    let members = members_of(program.of.modes(), union);
    let Ok(does) = unaimed(alloc, program, id, specs, union, members) else {
        out.run_out();
        return;
    };
    let member = out.len();
    out.emit(place, does);
    let mut starts = Vec::new(alloc);
    write_specs(
        alloc,
        program,
        id,
        specs,
        yields,
        place,
        &mut starts,
        jumps,
        out,
    );
    let none = out.len();
    aim_member(
        alloc, program, id, specs, members, member, &starts, none, out,
    );
}

/// [enquiry] Member .. up to where the other part begins, and tells what is to be done at the end. With slots Enter stands
/// before it. The program is seen from within its frame.
#[cycle(units)]
pub fn conform_front(
    alloc: Global,
    program: &View,
    id: NodeId,
    parts: &[NodeId],
    place: u32,
    goal: ModeId,
    out: &mut Writer,
) -> Ending
    requires some { 0 < length parts.now }
    requires between { AllBetween id (length program.now.of.now.tree.nodes) parts.now }
    ensures { IsFront (laid_conformity program.now id place goal parts.now)
        (out_tree (laid_of program.now) (tail_behind program.now.of.now id place goal parts.now)) result out.old.stop out.old.list out.new.stop out.new.list }
{
    let enquiry = parts[0];
    let begin = program.of.node(enquiry).span.from;
    let slots = program.of.note(enquiry).slots;
    let phrases = program.of.parts(enquiry);
    enquire(alloc, program, enquiry, phrases, begin, slots, out);
    let specs = before_out(program.of.annotated(), id, &parts[1..]);
    let union = goal_at(program, enquiry);
    let yields = !program.of.is_void(goal);
    let mut jumps = Vec::new(alloc);
    conform(
        alloc, program, id, specs, union, place, yields, &mut jumps, out,
    );
    Ending {
        jumps,
        place,
        slots,
        yields,
    }
}

/// [enquiry] Member .., with slots Enter before it and Leave behind it.
#[cycle(units)]
#[inline(never)]
pub fn conformity(
    alloc: Global,
    program: &View,
    id: NodeId,
    parts: &[NodeId],
    place: u32,
    goal: ModeId,
    out: &mut Writer,
)
    requires { AllBetween id (length program.now.of.now.tree.nodes) parts.now }
    ensures { Wrote out.old out.new (stretch (lying program.now (made.conformity_of program.now.of.now (behind id (tree_of program.now)) place goal
        (not (is_void (shape_at program.now.of.now.modes goal))) parts.now)) (length out.old.list)) }
{
    if parts.len() == 0 {
        meaningless(out);
        return;
    }
    choice_chain(alloc, program, true, id, parts, place, goal, out);
}
