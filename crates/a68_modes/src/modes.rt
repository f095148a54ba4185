//! The list of the modes.
ghost use Rattle.std.specs.Prelude.{◌≡◌, ◌<◌, ◌≤◌, ◌+◌, ◌↔◌, ◌++◌, ◌∷◌, [], IfOk, IfSome, OnErr, Err, length, min, slice_set, take};
ghost use Rattle.a68_modes.specs.Known.{own_fields};
ghost use Rattle.a68_modes.specs.Widths.{most_cells, width_of_fields, width_within};
ghost use Rattle.a68_modes.specs.Nodes.{shape_at, is_plain, is_void, standard_shapes, HoldsNodes, ShapeIsWithin};
ghost use Rattle.a68_modes.specs.declared.modes.ModeStop.TheVariants.{Full, NoMemory as no_memory};
ghost use Rattle.a68_modes.specs.declared.shape.Shape.TheVariants.{Blank};

use crate::standard::{STANDARD, standard_shape};
use crate::widths::{Starts, lay_out};
use crate::{ModeId, Shape};
use a68_base::{MOST_MODES, NoMemory};
use std::alloc::Global;
use std::marker::Model;

/// Why no node is added.
#[derive(Clone, Copy, Debug, PartialEq, Eq)]
pub enum ModeStop {
    /// There are as many nodes as there may be, 16,777,216.
    Full,
    /// An allocation was refused.
    NoMemory,
}

impl From<NoMemory> for ModeStop {
    ghost from_gives = { λ _ stop. stop ≡ no_memory };

    fn from(_error: NoMemory) -> ModeStop {
        ModeStop::NoMemory
    }
}

/// The modes of a text: a list of nodes, of which a mode is named by its number. The first of them are the standard
/// modes 0 VOID, 1 INT, 2 BOOL, 3 CHAR, 4 BITS, 5 SEMA, 6 the mode of `newline` and `space`, 7 `[] CHAR`, 8 the union
/// of what can be printed, 9 REF INT, 10 REF STRING, 11 `[] BOOL`, 12 STRING, which is `FLEX [] CHAR`, 13 LONG INT and 14
/// REF LONG INT (10.2.2).
///
/// Contracts see the list of the shapes.
pub struct Modes {
    items: Vec<Shape>,
    // where the fields of structures lie, once the modes are laid out; none of a mode that came later
    starts: Vec<Starts>,
}

impl Drop for Modes {
    fn drop(self) {
        let Modes {
            items: _,
            starts: _,
        } = self;
    }
}

impl Model for Modes {
    ghost use Rattle.std.specs.Prelude.{List};
    ghost use Rattle.a68_modes.specs.Known.{AreAllStarts};
    ghost use Rattle.a68_modes.specs.Nodes.{HoldsNodes};
    ghost use Rattle.a68_modes.specs.declared.shape.Shape.{Shape};

    ghost Value = { List Shape };

    ghost view = { λ modes. modes.items.items };

    ghost invariant = { λ modes. HoldsNodes modes.items.items × AreAllStarts modes.items.items modes.starts.items };
}

impl Modes {
    /// The standard modes alone.
    pub fn new(alloc: Global) -> Result<Modes, NoMemory>
        ensures { IfOk result (λ modes. modes ≡ standard_shapes) }
    {
        let mut items = Vec::new(alloc);
        for id in 0..STANDARD {
            let shape = standard_shape(alloc, id)?;
            items.push(shape)?;
        }
        let starts = Vec::new(alloc);
        Ok(Modes { items, starts })
    }

    /// How many nodes there are. A list of modes holds the standard ones, leads to no node that is not there, and has
    /// at most 16,777,216 nodes.
    pub fn len(&self) -> u32
        ensures length { result ≡ length self.now }
        ensures nodes { HoldsNodes self.now }
    {
        self.items.len() as u32
    }

    /// A new node of this shape, behind all others, and its number. Full exactly where 16,777,216 nodes are there;
    /// an error leaves the list as it was.
    pub fn add(&mut self, shape: Shape) -> Result<ModeId, ModeStop>
        requires within { ShapeIsWithin (length self.old) shape }
        ensures id { IfOk result (λ id. id ≡ length self.old) }
        ensures added { IfOk result (λ id. self.new ≡ self.old ++ shape ∷ []) }
        ensures full { (result ≡ Err Full) ↔ (length self.old ≡ MOST_MODES) }
        ensures stays { OnErr result (self.new ≡ self.old) }
    {
        if self.items.len() >= MOST_MODES as usize {
            return Err(ModeStop::Full);
        }
        self.starts.clear();
        let id = self.items.len() as u32;
        match self.items.push(shape) {
            Ok(()) => Ok(id),
            Err(_) => Err(ModeStop::NoMemory),
        }
    }

    /// Gives a node that is Blank its shape.
    pub fn set(&mut self, id: ModeId, shape: Shape)
        requires there { id < length self.old }
        requires blank { shape_at self.old id ≡ Blank }
        requires within { ShapeIsWithin (length self.old) shape }
        ensures { self.new ≡ slice_set self.old id shape }
    {
        self.starts.clear();
        self.items[id as usize] = shape;
    }

    /// The shape of a node.
    pub fn shape(&self, id: ModeId) -> &Shape
        requires { id < length self.now }
        ensures shape { result.now ≡ shape_at self.now id }
        ensures nodes { HoldsNodes self.now }
    {
        &self.items[id as usize]
    }

    /// Is the node there, and a value of it one that fits one cell and is not made of others?
    pub fn is_plain(&self, id: ModeId) -> bool
        ensures { result ≡ is_plain (shape_at self.now id) }
    {
        id < self.len() && self.shape(id).is_plain()
    }

    /// Is the node there, and VOID?
    pub fn is_void(&self, id: ModeId) -> bool
        ensures { result ≡ is_void (shape_at self.now id) }
    {
        id < self.len() && self.shape(id).is_void()
    }

    /// The same modes once more.
    pub fn copy(&self, alloc: Global) -> Result<Modes, NoMemory>
        ensures { IfOk result (λ modes. modes ≡ self.now) }
    {
        let items = copied(alloc, &self.items)?;
        let starts = Vec::new(alloc);
        Ok(Modes { items, starts })
    }

    /// Lays the modes out: from now on, until a node is added or set, `cells_before` tells where the fields of structures lie. It takes
    /// a time that grows with the nodes and their parts.
    pub fn lay_out(&mut self, alloc: Global) -> Result<(), NoMemory>
        ensures { self.new ≡ self.old }
    {
        let starts = lay_out(alloc, self, &self.items)?;
        self.starts = starts;
        Ok(())
    }

    /// How many cells a structure has before this field, or before its end where the field is as many as there are; one more than there
    /// may be where they are more. None where the modes are not laid out, where the mode is no structure, or where it is not known.
    pub fn cells_before(&self, mode: ModeId, field: usize) -> Option<u32>
        ensures { IfSome result (λ cells. cells ≡ min (most_cells + 1) (width_of_fields (width_within (length self.now) self.now) (take field (own_fields (shape_at self.now mode))))) }
    {
        let starts = self.starts.get(mode as usize)?;
        starts.cells.get(field).copied()
    }
}

fn copied(alloc: Global, shapes: &[Shape]) -> Result<Vec<Shape>, NoMemory>
    ensures { IfOk result (λ copies. copies.items ≡ shapes.now) }
{
    let mut copies = Vec::with_capacity(alloc, shapes.len())?;
    for shape in shapes {
        let copy = shape.copy(alloc)?;
        copies.push(copy)?;
    }
    Ok(copies)
}
