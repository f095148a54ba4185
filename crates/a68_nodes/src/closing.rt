//! How a node gets its parts.
ghost use Rattle.std.specs.Prelude.{◌≡◌, ℕ, ◌<◌, ◌≤◌, ◌++◌, List, [], ◌∷◌, length, take, drop, reverse, MatchOption, IfOk, OnOk};
ghost use Rattle.a68_nodes.specs.declared.draft.Piece.TheVariants.{Part};
ghost use Rattle.a68_nodes.specs.Closing.{unfinished, with_closed, behind_first};
ghost use Rattle.a68_nodes.specs.Pieces.{signs_added, parts_from};
ghost use Rattle.a68_nodes.specs.Views.{view, views, all_opened, inherited, AllWithin};

use crate::draft::{Draft, OpenLayer, Piece};
use crate::frames::open;
use a68_base::NoMemory;
use a68_symbols::Sym;
use a68_tree::NodeKind;
use std::alloc::Global;

/// Takes off the last piece, where there are more than so many.
fn take_last(pieces: &mut Vec<Piece>, first: usize) -> Option<Piece>
    ensures { MatchOption result
        ((pieces.new.items ≡ pieces.old.items) × (length pieces.old.items ≤ first))
        (λ piece. (pieces.old.items ≡ pieces.new.items ++ piece ∷ []) × (first < length pieces.old.items)) }
{
    if pieces.len() > first {
        pieces.pop()
    } else {
        None
    }
}

/// Takes off the pieces from that place on, and adds the signs among them, from the last to the first. Gives the numbers of
/// all of them from the last to the first.
fn backwards(
    alloc: Global,
    drafts: &mut Vec<Draft>,
    pieces: &mut Vec<Piece>,
    first: usize,
) -> Result<Vec<usize>, NoMemory>
    ensures added { OnOk result (views drafts.new.items ≡ signs_added (views drafts.old.items) (drop first pieces.old.items)) }
    ensures left { OnOk result (pieces.new.items ≡ take first pieces.old.items) }
    ensures numbers { IfOk result (λ ids. ids.items ≡ reverse (parts_from (length (views drafts.old.items)) (drop first pieces.old.items))) }
{
    let mut ids = Vec::new(alloc);
    while let Some(piece) = take_last(pieces, first) {
        match piece {
            Piece::Part(id) => ids.push(id)?,
            Piece::Sign { before, after } => {
                ids.push(drafts.len())?;
                drafts.push(Draft {
                    kind: NodeKind::Sign,
                    before,
                    after,
                    named: before,
                    parts: Vec::new(alloc),
                })?;
            }
        }
    }
    Ok(ids)
}

/// A node of what was read in that layer, up to where that text is left. Its parts are to come.
pub fn unfinished(
    alloc: Global,
    frame: &OpenLayer,
    kind: NodeKind,
    named: usize,
    rest: &[Sym],
) -> Draft
    ensures { view result ≡ unfinished frame.now kind named (length rest.now) }
{
    Draft {
        kind,
        before: frame.before,
        after: rest.len(),
        named,
        parts: Vec::new(alloc),
    }
}

/// Adds a node with the pieces from that place on as its parts, the signs among them first. Gives its number.
pub fn close(
    alloc: Global,
    drafts: &mut Vec<Draft>,
    pieces: &mut Vec<Piece>,
    first: usize,
    mut draft: Draft,
) -> Result<usize, NoMemory>
    ensures added { OnOk result (views drafts.new.items ≡ with_closed (views drafts.old.items) (drop first pieces.old.items) (view draft)) }
    ensures left { OnOk result (pieces.new.items ≡ take first pieces.old.items) }
    ensures number { IfOk result (λ id. id ≡ length (signs_added (views drafts.old.items) (drop first pieces.old.items))) }
{
    let mut ids = backwards(alloc, drafts, pieces, first)?;
    ids.reverse();
    draft.parts = ids;
    let id = drafts.len();
    drafts.push(draft)?;
    Ok(id)
}

/// Adds a node with the pieces of a layer that was taken off as its parts, and opens the layer again with the node in it.
pub fn close_within(
    alloc: Global,
    drafts: &mut Vec<Draft>,
    pieces: &mut Vec<Piece>,
    frames: &mut Vec<OpenLayer>,
    frame: OpenLayer,
    draft: Draft,
) -> Result<(), NoMemory>
    ensures added { OnOk result (views drafts.new.items ≡ with_closed (views drafts.old.items) (drop frame.first pieces.old.items) (view draft)) }
    ensures left { OnOk result (pieces.new.items ≡ take frame.first pieces.old.items ++ Part (length (signs_added (views drafts.old.items) (drop frame.first pieces.old.items))) ∷ []) }
    ensures is { OnOk result ((asides : List ℕ)
        → all_opened asides frames.new.items ≡ record { first = frame.first; before = frame.before; kept = inherited (all_opened asides frames.old.items) } ∷ all_opened asides frames.old.items) }
    ensures within { (n : ℕ) → AllWithin n frames.old.items → AllWithin n frames.new.items }
{
    let id = close(alloc, drafts, pieces, frame.first, draft)?;
    pieces.push(Piece::Part(id))?;
    open(frames, frame.first, frame.before)?;
    Ok(())
}

/// How many symbols are left behind the first of the pieces from that place on, where it is a node, or else so many.
pub fn behind_first(drafts: &[Draft], pieces: &[Piece], first: usize, other: usize) -> usize
    ensures { result ≡ behind_first (views drafts.now) (drop first pieces.now) other }
{
    match pieces.get(first) {
        Some(Piece::Part(id)) => match drafts.get(*id) {
            Some(draft) => draft.after,
            None => other,
        },
        _ => other,
    }
}
