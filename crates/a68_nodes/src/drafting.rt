//! The nodes that are read, layer by layer.
ghost use Rattle.std.specs.Prelude.{◌≡◌, true, false, ◌++◌, List, [], ◌∷◌, take, drop, length, IfOk, OnOk};
ghost use Rattle.a68_tree.specs.declared.kind.NodeKind.{NodeKind};
ghost use Rattle.a68_tree.specs.declared.kind.NodeKind.TheVariants as k;
ghost use Rattle.a68_symbols.specs.declared.sym.Bracket.{Bracket};
ghost use Rattle.a68_symbols.specs.declared.sym.Sym.{Sym};
ghost use Rattle.a68_symbols.specs.declared.sym.Sym.TheVariants.{Opens, Closes, Is};
ghost use Rattle.a68_symbols.specs.declared.sym.Token.{Token};
ghost use Rattle.a68_tree.specs.Forest.{Forest, Single, Several, end, mark, group, part, sign, aside, shared, forget, spells};
ghost use Rattle.a68_tree.specs.Nodes.{with_node};
ghost use Rattle.a68_nodes.specs.Stack.{Layer, node, inside, put};
ghost use Rattle.a68_nodes.specs.Closing.{names_first};
ghost use Rattle.a68_nodes.specs.Views.{views};
ghost use Rattle.a68_nodes.specs.Built.{IsDraftOf};

use crate::closing::{behind_first, close, close_within, unfinished};
use crate::draft::{Draft, OpenLayer, Piece, Section};
use crate::frames::{add_parts, is_one, keep, keep_one, kept, open};
use a68_base::NoMemory;
use a68_symbols::Sym;
use a68_tree::NodeKind;
use std::alloc::Global;
use std::marker::Model;

/// The nodes that have been read, and the layers that are open.
#[derive(Drop)]
pub struct Drafting {
    drafts: Vec<Draft>,
    frames: Vec<OpenLayer>,
    // The pieces of all layers, those of the innermost last.
    pieces: Vec<Piece>,
    // The numbers of the nodes that are set aside.
    asides: Vec<usize>,
}

impl Model for Drafting {
    ghost use Rattle.std.specs.Prelude.{length};
    ghost use Rattle.a68_nodes.specs.Views.{DraftState, views, all_opened, AllWithin};

    ghost Value = { DraftState };

    ghost view = { λ d. record { drafts = views d.drafts.items; frames = all_opened d.asides.items d.frames.items; pieces = d.pieces.items } };

    ghost invariant = { λ d. AllWithin (length d.asides.items) d.frames.items };
}

impl Drafting {
    /// Before the first symbol of a text, with a layer for all of it.
    pub fn new(alloc: Global, text: &[Sym]) -> Result<Drafting, NoMemory>
        ensures built { IfOk result (λ drafting. IsDraftOf text.now (node end ∷ []) text.now drafting) }
    {
        let mut frames = Vec::new(alloc);
        open(&mut frames, 0, text.len())?;
        Ok(Drafting {
            drafts: Vec::new(alloc),
            frames,
            pieces: Vec::new(alloc),
            asides: Vec::new(alloc),
        })
    }

    /// Opens what may become a node.
    pub fn open(&mut self, rest: &[Sym]) -> Result<(), NoMemory>
        ensures built { OnOk result ((whole : List Sym) (ls : List Layer) → IsDraftOf whole ls rest.now self.old → IsDraftOf whole (node end ∷ ls) rest.now self.new) }
    {
        open(&mut self.frames, self.pieces.len(), rest.len())
    }

    /// Leaves what was opened: what was read in it stands in the layer around.
    pub fn leave(&mut self)
        ensures built { (whole rest : List Sym) (l : Layer) (ls : List Layer) (f : Forest)
            → IsDraftOf whole (node f ∷ l ∷ ls) rest self.old → IsDraftOf whole (put l f ∷ ls) rest self.new }
    {
        if let Some(frame) = self.frames.pop() {
            keep(&mut self.frames, frame.kept);
        }
    }

    /// A bracket is open, behind which that text is left.
    pub fn bracket(&mut self, rest: &[Sym]) -> Result<(), NoMemory>
        ensures built { OnOk result ((whole : List Sym) (ls : List Layer) (b : Bracket)
            → IsDraftOf whole ls (Opens b ∷ rest.now) self.old → IsDraftOf whole (inside b end ∷ ls) rest.now self.new) }
    {
        open(&mut self.frames, self.pieces.len(), rest.len())
    }

    /// A bracket is closed.
    pub fn unbracket(&mut self)
        ensures built { (whole rest : List Sym) (b : Bracket) (l : Layer) (ls : List Layer) (f : Forest)
            → IsDraftOf whole (inside b f ∷ l ∷ ls) (Closes b ∷ rest) self.old → IsDraftOf whole (put l (group b f end) ∷ ls) rest self.new }
    {
        let _ = self.frames.pop();
    }

    /// A sign of a formula is read, behind which that text is left.
    pub fn sign(&mut self, rest: &[Sym]) -> Result<(), NoMemory>
        ensures built { OnOk result ((whole : List Sym) (l : Layer) (ls : List Layer) (t : Token)
            → IsDraftOf whole (l ∷ ls) (Is t ∷ rest.now) self.old → IsDraftOf whole (put l (sign t end) ∷ ls) rest.now self.new) }
    {
        let after = rest.len();
        self.pieces.push(Piece::Sign {
            before: after + 1,
            after,
        })?;
        Ok(())
    }

    /// The nodes that are set aside are parts here.
    pub fn share(&mut self) -> Result<(), NoMemory>
        ensures built { OnOk result ((whole rest : List Sym) (l : Layer) (ls : List Layer)
            → IsDraftOf whole (l ∷ ls) rest self.old → IsDraftOf whole (put l (shared end) ∷ ls) rest self.new) }
    {
        let kept = kept(&self.frames);
        add_parts(&mut self.pieces, &self.asides, kept)
    }

    /// From here on nothing is set aside.
    pub fn forget(&mut self)
        ensures built { (whole rest : List Sym) (l : Layer) (ls : List Layer)
            → IsDraftOf whole (l ∷ ls) rest self.old → IsDraftOf whole (put l (forget end) ∷ ls) rest self.new }
    {
        keep(&mut self.frames, Section { from: 0, to: 0 });
    }

    /// What was read in the innermost layer becomes a node of that kind, up to where that text is left. It is named by its
    /// first symbol.
    pub fn wrap(&mut self, alloc: Global, kind: NodeKind, rest: &[Sym]) -> Result<(), NoMemory>
        ensures built { OnOk result ((whole : List Sym) (ls : List Layer) (f : Forest) → names_first kind ≡ true
            → IsDraftOf whole (node f ∷ ls) rest.now self.old → IsDraftOf whole (node (part kind f end) ∷ ls) rest.now self.new) }
    {
        let Some(frame) = self.frames.pop() else {
            return Ok(());
        };
        let draft = unfinished(alloc, &frame, kind, frame.before, rest);
        close_within(
            alloc,
            &mut self.drafts,
            &mut self.pieces,
            &mut self.frames,
            frame,
            draft,
        )?;
        Ok(())
    }

    /// What was read in the innermost layer becomes an identity relation, which is named by the symbol behind its first part
    /// (5.2.2).
    pub fn wrap_identity(&mut self, alloc: Global, rest: &[Sym]) -> Result<(), NoMemory>
        ensures built { OnOk result ((whole : List Sym) (ls : List Layer) (kind : NodeKind) (under f : Forest)
            → IsDraftOf whole (node (part kind under f) ∷ ls) rest.now self.old → IsDraftOf whole (node (part k.Identity (part kind under f) end) ∷ ls) rest.now self.new) }
    {
        let Some(frame) = self.frames.pop() else {
            return Ok(());
        };
        let named = behind_first(&self.drafts, &self.pieces, frame.first, frame.before);
        let draft = unfinished(alloc, &frame, NodeKind::Identity, named, rest);
        close_within(
            alloc,
            &mut self.drafts,
            &mut self.pieces,
            &mut self.frames,
            frame,
            draft,
        )?;
        Ok(())
    }

    /// What was read in the innermost layer becomes a denotation of LONG INT, which is named by its second symbol (8.1.1).
    pub fn wrap_long(&mut self, alloc: Global, rest: &[Sym]) -> Result<(), NoMemory>
        ensures built { OnOk result ((whole : List Sym) (ls : List Layer) (t : Token) (f : Forest)
            → IsDraftOf whole (node (mark t f) ∷ ls) rest.now self.old → IsDraftOf whole (node (part k.LongDenotation (mark t f) end) ∷ ls) rest.now self.new) }
    {
        let Some(frame) = self.frames.pop() else {
            return Ok(());
        };
        let named = frame.before.saturating_sub(1);
        let draft = unfinished(alloc, &frame, NodeKind::LongDenotation, named, rest);
        close_within(
            alloc,
            &mut self.drafts,
            &mut self.pieces,
            &mut self.frames,
            frame,
            draft,
        )?;
        Ok(())
    }

    /// What was read in the innermost layer becomes a jump, which is named by its last symbol, the tag of its label (5.4.4).
    pub fn wrap_jump(&mut self, alloc: Global, rest: &[Sym]) -> Result<(), NoMemory>
        ensures built { OnOk result ((whole : List Sym) (ls : List Layer) (f : Forest)
            → IsDraftOf whole (node f ∷ ls) rest.now self.old → IsDraftOf whole (node (part k.GoTo f end) ∷ ls) rest.now self.new) }
    {
        let Some(frame) = self.frames.pop() else {
            return Ok(());
        };
        let named = rest.len() + 1;
        let draft = unfinished(alloc, &frame, NodeKind::GoTo, named, rest);
        close_within(
            alloc,
            &mut self.drafts,
            &mut self.pieces,
            &mut self.frames,
            frame,
            draft,
        )?;
        Ok(())
    }

    /// What was read in the innermost layer becomes a node that is set aside for the layer around. It is named by its first
    /// symbol.
    pub fn set_aside(&mut self, alloc: Global, kind: NodeKind, rest: &[Sym]) -> Result<(), NoMemory>
        ensures built { OnOk result ((whole : List Sym) (l : Layer) (ls : List Layer) (f : Forest) → names_first kind ≡ true
            → IsDraftOf whole (node f ∷ l ∷ ls) rest.now self.old → IsDraftOf whole (put l (aside kind f end) ∷ ls) rest.now self.new) }
    {
        let Some(frame) = self.frames.pop() else {
            return Ok(());
        };
        let draft = unfinished(alloc, &frame, kind, frame.before, rest);
        let id = close(
            alloc,
            &mut self.drafts,
            &mut self.pieces,
            frame.first,
            draft,
        )?;
        let kept = keep_one(&mut self.asides, kept(&self.frames), id)?;
        keep(&mut self.frames, kept);
        Ok(())
    }

    /// Whether one part stands in the innermost layer, and no more.
    pub fn is_single(&self) -> bool
        ensures one { (whole rest : List Sym) (ls : List Layer) (f : Forest) → Single f → IsDraftOf whole (node (forget f) ∷ ls) rest self.now → result ≡ true }
        ensures several { (whole rest : List Sym) (ls : List Layer) (f : Forest) → Several f → IsDraftOf whole (node (forget f) ∷ ls) rest self.now → result ≡ false }
    {
        is_one(&self.frames, &self.pieces)
    }

    /// The list of nodes.
    pub fn finish(self) -> Vec<Draft>
        ensures nodes { (whole : List Sym) (kind : NodeKind) (under : Forest) → IsDraftOf whole (node (part kind under end) ∷ []) [] self → views result.items ≡ with_node [] [] kind under [] }
        ensures spelled { (whole : List Sym) (kind : NodeKind) (under : Forest) → IsDraftOf whole (node (part kind under end) ∷ []) [] self → whole ≡ spells under [] }
    {
        let Drafting { drafts, .. } = self;
        drafts
    }
}
