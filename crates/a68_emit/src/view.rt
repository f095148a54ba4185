//! From where a program is seen.
ghost use Rattle.std.specs.Prelude.{◌≡◌};
ghost use Rattle.a68_elab.specs.Made as made;
ghost use Rattle.a68_emit.specs.Views as views;
ghost use Rattle.a68_emit.specs.Views.{IsAlike};

use crate::numbered::Numbered;
use crate::seat::Clause;
use a68_annot::Note;
use a68_base::Span;
use a68_elab::Sight;
use a68_runs::further;
use a68_tree::NodeId;

/// A program as it is seen from where it is written, or from within a bound of a definition that is elaborated elsewhere;
/// how many values and frames of the activation there are where it is written; and the serial clauses with labels about
/// that, the innermost first.
#[derive(Clone, Copy)]
pub struct View<'a> {
    pub of: &'a Numbered<'a>,
    pub sight: Sight,
    pub height: u32,
    pub depth: u32,
    pub clauses: &'a [Clause],
}

// How many frames there are within a range with so many slots.
fn depth_within(slots: u32, depth: u32) -> u32
    ensures { result ≡ views.depth_within slots depth }
{
    if slots == 0 {
        return depth;
    }
    further(1, depth)
}

impl<'a> View<'a> {
    /// As it is seen from over one value more.
    pub fn raised(&self) -> View<'a>
        ensures view { result ≡ views.raised self.now }
        ensures alike { IsAlike self.now result }
    {
        View {
            of: self.of,
            sight: self.sight,
            height: further(1, self.height),
            depth: self.depth,
            clauses: self.clauses,
        }
    }

    /// As it is seen from so many frames further in.
    pub fn deeper(&self, frames: u32) -> View<'a>
        ensures view { result ≡ views.deeper frames self.now }
        ensures alike { IsAlike self.now result }
    {
        View {
            of: self.of,
            sight: self.sight,
            height: self.height,
            depth: further(frames, self.depth),
            clauses: self.clauses,
        }
    }

    /// As it is seen from within a range with so many slots, which has a frame where it has any.
    pub fn within(&self, slots: u32) -> View<'a>
        ensures view { result ≡ views.within slots self.now }
        ensures alike { IsAlike self.now result }
    {
        View {
            of: self.of,
            sight: self.sight,
            height: self.height,
            depth: depth_within(slots, self.depth),
            clauses: self.clauses,
        }
    }
}

// Does what a node applies stand outside these bytes?
fn is_outside(program: &View, bytes: Span, definition: Option<NodeId>) -> bool
    ensures { result ≡ made.is_outside program.now.of.now bytes definition }
{
    let Some(id) = definition else {
        return false;
    };
    if id >= program.of.len() {
        return false;
    }
    let from = program.of.node(id).span.from;
    !(bytes.from <= from && from < bytes.to)
}

/// How many frames outwards that stands which a node applies, as it is seen.
pub fn hops(program: &View, note: &Note) -> u32
    ensures { result ≡ made.hops_seen program.now.of.now program.now.sight note.now }
{
    match program.sight {
        Sight::Here => note.step.hops,
        Sight::Within { frames, bytes } => {
            if is_outside(program, bytes, note.definition) {
                further(frames, note.step.hops)
            } else {
                note.step.hops
            }
        }
    }
}
