//! The layers that are open.
ghost use Rattle.std.specs.Prelude.{◌≡◌, ◌-◌, ◌++◌, nat_eq, ℕ, List, [], ◌∷◌, length, IfOk, OnOk};
ghost use Rattle.a68_nodes.specs.Pieces.{all_parts};
ghost use Rattle.a68_nodes.specs.declared.draft.Section.{Section};
ghost use Rattle.a68_nodes.specs.Views.{Opened, all_opened, inherited, first_of, stretch, IsWithin, AllWithin};

use crate::draft::{OpenLayer, Piece, Section};
use a68_base::NoMemory;

/// What is set aside for the innermost layer.
pub fn kept(frames: &[OpenLayer]) -> Section
    ensures is { (asides : List ℕ) → stretch asides result ≡ inherited (all_opened asides frames.now) }
    ensures within { (n : ℕ) → AllWithin n frames.now → IsWithin n result }
{
    match frames.last() {
        Some(frame) => frame.kept,
        None => Section { from: 0, to: 0 },
    }
}

/// How many pieces stand before those of the innermost layer.
pub fn first_piece(frames: &[OpenLayer]) -> usize
    ensures { (asides : List ℕ) → result ≡ first_of (all_opened asides frames.now) }
{
    match frames.last() {
        Some(frame) => frame.first,
        None => 0,
    }
}

/// Whether the innermost layer has one piece.
pub fn is_one(frames: &[OpenLayer], pieces: &[Piece]) -> bool
    ensures { (asides : List ℕ) → result ≡ nat_eq (length pieces.now - first_of (all_opened asides frames.now)) 1 }
{
    pieces.len().saturating_sub(first_piece(frames)) == 1
}

/// Sets that aside for the innermost layer, in place of what was.
pub fn keep(frames: &mut Vec<OpenLayer>, kept: Section)
    ensures is { (asides : List ℕ) (o : Opened) (os : List Opened) → all_opened asides frames.old.items ≡ o ∷ os
        → all_opened asides frames.new.items ≡ record o { kept = stretch asides kept } ∷ os }
    ensures within { (n : ℕ) → AllWithin n frames.old.items → IsWithin n kept → AllWithin n frames.new.items }
{
    let count = frames.len();
    if count > 0 {
        frames[count - 1].kept = kept;
    }
}

/// Opens a layer, for which the same is set aside as for the one around it.
pub fn open(frames: &mut Vec<OpenLayer>, first: usize, before: usize) -> Result<(), NoMemory>
    ensures is { OnOk result ((asides : List ℕ)
        → all_opened asides frames.new.items ≡ record { first = first; before = before; kept = inherited (all_opened asides frames.old.items) } ∷ all_opened asides frames.old.items) }
    ensures within { (n : ℕ) → AllWithin n frames.old.items → AllWithin n frames.new.items }
{
    let kept = kept(frames);
    frames.push(OpenLayer {
        first,
        before,
        kept,
    })?;
    Ok(())
}

/// Adds the nodes of that stretch of the list as parts.
pub fn add_parts(pieces: &mut Vec<Piece>, asides: &[usize], kept: Section) -> Result<(), NoMemory>
    requires { IsWithin (length asides.now) kept }
    ensures { OnOk result (pieces.new.items ≡ pieces.old.items ++ all_parts (stretch asides.now kept)) }
{
    let ids = &asides[kept.from..kept.to];
    for id in ids {
        pieces.push(Piece::Part(*id))?;
    }
    Ok(())
}

/// Sets one more node aside: adds what is set aside already to the list, and then that number.
pub fn keep_one(asides: &mut Vec<usize>, kept: Section, id: usize) -> Result<Section, NoMemory>
    requires { IsWithin (length asides.old.items) kept }
    ensures is { IfOk result (λ s. stretch asides.new.items s ≡ stretch asides.old.items kept ++ id ∷ []) }
    ensures within { IfOk result (IsWithin (length asides.new.items)) }
    ensures others { (s : Section) → IsWithin (length asides.old.items) s
        → IsWithin (length asides.new.items) s × (stretch asides.new.items s ≡ stretch asides.old.items s) }
{
    let from = asides.len();
    asides.extend_from_within(kept.from..kept.to)?;
    asides.push(id)?;
    Ok(Section {
        from,
        to: asides.len(),
    })
}
