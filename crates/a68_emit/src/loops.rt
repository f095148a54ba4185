//! The instructions about loops.
ghost use Rattle.std.specs.Prelude.{◌≡◌, ◌<◌, ◌≤◌, ◌+◌, ◌∷◌, ℕ, [], length, IfSome, if◌then◌else◌};
ghost use Rattle.a68_elab.specs.Made as made;
ghost use Rattle.a68_elab.specs.Trees as trees;
ghost use Rattle.a68_elab.specs.Trees.{Tree};
ghost use Rattle.a68_emit.specs.Listing as listing;
ghost use Rattle.a68_emit.specs.Listing.{instr};
ghost use Rattle.a68_emit.specs.Writers.{Wrote};

use crate::view::View;
use crate::writer::Writer;
use a68_code::Does;
use a68_parts::{LoopParts, only_id};
use a68_signs::operators;
use a68_tree::NodeId;

// Has the range of WHILE a frame?
fn is_deeper(program: &View, id: NodeId) -> bool
    requires { id < length program.now.of.now.tree.nodes }
    ensures { (f : ℕ → Tree) (n : ℕ) → trees.deeper_in (made.test_of program.now.of.now f (Some id)) n ≡ (if result then n + 1 else n) }
{
    match only_id(program.of.parts(id)) {
        Some(clause) => program.of.note(clause).slots > 0,
        None => false,
    }
}

/// How many frames a turn of a loop makes: that of FOR, and that of WHILE.
pub fn depth(program: &View, parts: &LoopParts) -> u32
    requires { IfSome parts.now.test (λ p. p < length program.now.of.now.tree.nodes) }
    ensures frames { (f : ℕ → Tree) → result ≡ trees.depth_of parts.now.counts (made.test_of program.now.of.now f parts.now.test) }
    ensures few { result ≤ 2 }
{
    let counts = u32::from(parts.counts);
    match parts.test {
        Some(test) => counts + u32::from(is_deeper(program, test)),
        None => counts,
    }
}

/// With slots Enter.
pub fn open(place: u32, slots: u32, out: &mut Writer)
    ensures { Wrote out.old out.new (listing.opens slots place) }
{
    if slots > 0 {
        out.emit(place, Does::Enter(slots));
    }
}

/// With TO the operator `+` before its value: an unset one is a fault.
pub fn limit(place: u32, is_limited: bool, out: &mut Writer)
    ensures { Wrote out.old out.new (listing.limits is_limited place) }
{
    if is_limited {
        out.emit(place, Does::Apply(operators::POSITIVE));
    }
}

/// Step 0 Turn; with FOR Step 0 Turn Enter 1 Index Bind 0.
pub fn loop_turn(place: u32, counts: bool, out: &mut Writer)
    ensures { Wrote out.old out.new (instr place (Does.Step 0) ∷ instr place Does.Turn ∷ listing.indexes counts place) }
{
    out.emit(place, Does::Step(0));
    out.emit(place, Does::Turn);
    if counts {
        out.emit(place, Does::Enter(1));
        out.emit(place, Does::Index);
        out.emit(place, Does::Bind(0));
    }
}

/// Leave 0 for each of at most two frames.
pub fn leave_frames(place: u32, frames: u32, out: &mut Writer)
    requires { frames ≤ 2 }
    ensures { Wrote out.old out.new (listing.leaves place frames) }
{
    if frames == 0 {
        return;
    }
    out.emit(place, Does::Leave(0));
    if frames > 1 {
        out.emit(place, Does::Leave(0));
    }
}
