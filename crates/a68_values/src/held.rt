//! What cells and slots hold.
ghost use Rattle.std.specs.Prelude.{◌≡◌, IfOk};

use crate::{Plain, Value};
use a68_base::NoMemory;
use std::alloc::Global;
use std::marker::Model;
use std::sync::ArcSlice;

/// A dimension of a row in the store: its bounds, and how many cells lie between two neighbours.
#[derive(Clone, Copy)]
pub struct Dim {
    pub lower: i64,
    pub upper: i64,
    pub stride: u32,
}

// An unused place of a list that keeps its first items within itself holds this.
impl Default for Dim {
    fn default() -> Dim {
        Dim {
            lower: 0,
            upper: 0,
            stride: 0,
        }
    }
}

/// The dimensions of a row, from the first subscript to the last.
#[derive(Drop)]
pub struct Dims {
    // They never change, so whoever looks at a row shares them, and a copy takes no memory.
    items: ArcSlice<Dim>,
}

impl Model for Dims {
    ghost use Rattle.std.specs.Arc.{arc_slice_items};
    ghost use Rattle.std.specs.Prelude.{List};
    ghost use Rattle.a68_values.specs.declared.held.Dim.{Dim};

    ghost Value = { List Dim };

    ghost view = { λ dims. arc_slice_items dims.items };
}

impl Dims {
    /// These dimensions, from the first subscript to the last.
    pub fn of(alloc: Global, dims: &[Dim]) -> Result<Dims, NoMemory>
        ensures { IfOk result (λ made. made ≡ dims.now) }
    {
        let items = ArcSlice::from_slice(alloc, dims)?;
        Ok(Dims { items })
    }

    /// The same dimensions once more, without memory of their own. It fails only where more share them than can be counted.
    pub fn copy(&self) -> Result<Dims, NoMemory>
        ensures { IfOk result (λ made. made ≡ self.now) }
    {
        let items = self.items.clone()?;
        Ok(Dims { items })
    }

    /// The dimensions.
    #[inline(always)]
    pub fn as_slice(&self) -> &[Dim]
        ensures { result.now ≡ self.now }
    {
        self.items.as_slice()
    }
}

/// A row in the store: the cell of its first element, and its dimensions (Report, 2.1.3.4).
pub struct Descriptor {
    pub base: u32,
    pub dims: Dims,
}

impl Drop for Descriptor {
    fn drop(self) {
        let Descriptor { base: _, dims: _ } = self;
    }
}

/// What a cell holds.
#[derive(Drop)]
pub enum Held {
    Plain(Plain),
    /// The descriptor of a row, whose elements lie in cells of their own.
    Rows(Descriptor),
    /// The member of a union: its mode, and the first cell of its value.
    Member { mode: u32, base: u32 },
}

/// What the cells hold, by their numbers.
pub struct Cells {
    pub items: Vec<Held>,
}

impl Drop for Cells {
    fn drop(self) {
        let Cells { items: _ } = self;
    }
}

impl Model for Cells {
    ghost use Rattle.std.specs.Prelude.{List};
    ghost use Rattle.a68_values.specs.declared.held.Held.{Held};

    ghost Value = { List Held };

    ghost view = { λ cells. cells.items.items };
}

/// What the slots of a frame are bound to, by their numbers; none where a slot is not bound yet.
pub struct Slots {
    pub items: Vec<Option<Value>>,
}

impl Drop for Slots {
    fn drop(self) {
        let Slots { items: _ } = self;
    }
}

impl Model for Slots {
    ghost use Rattle.std.specs.Coded.{coded_list, coded_option};
    ghost use Rattle.std.specs.Prelude.{List};
    ghost use Rattle.std.specs.declared.option.Option.{Option};
    ghost use Rattle.a68_values.specs.Codes.{content_code};
    ghost use Rattle.a68_values.specs.Content.{Content};

    ghost Value = { List (Option Content) };

    ghost coded = { coded_list (coded_option content_code) };

    ghost view = { λ slots. slots.items.items };
}

impl Held {
    /// An equal held value, without memory of its own. It fails only where more share the dimensions of a row than can be
    /// counted.
    pub fn copy(&self) -> Result<Held, NoMemory>
        ensures { IfOk result (λ held. held ≡ self.now) }
    {
        match self {
            Held::Plain(plain) => Ok(Held::Plain(*plain)),
            Held::Rows(descriptor) => Ok(Held::Rows(Descriptor {
                base: descriptor.base,
                dims: descriptor.dims.copy()?,
            })),
            Held::Member { mode, base } => Ok(Held::Member {
                mode: *mode,
                base: *base,
            }),
        }
    }
}
