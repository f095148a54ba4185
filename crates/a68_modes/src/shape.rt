//! What a node is.
ghost use Rattle.std.specs.Prelude.{◌≡◌, IfOk};
ghost use Rattle.a68_modes.specs.Nodes.{is_plain, is_void, parts_of};

use crate::{Fields, Members};
use a68_base::NoMemory;
use std::alloc::Global;

/// The number of a node in the list of the modes.
pub type ModeId = u32;

/// What a node is: a plain mode, a mode made of others, a mode word, or nothing yet.
pub enum Shape {
    /// VOID.
    Void,
    /// INT.
    Int,
    /// LONG INT.
    Long,
    /// BOOL.
    Bool,
    /// CHAR.
    Char,
    /// BITS.
    Bits,
    /// SEMA.
    Sema,
    /// The mode of `newline` and `space` (own).
    Layout,
    /// REF to a mode.
    Ref(ModeId),
    /// A row of elements: the number of its dimensions, and whether it is FLEX.
    Rows { dims: u32, flex: bool, of: ModeId },
    /// STRUCT: its fields in declared order.
    Struct(Fields),
    /// UNION: its members in declared order.
    Union(Members),
    /// PROC: the modes of its parameters in order, and of its result.
    Proc { params: Members, result: ModeId },
    /// A mode word: the mode that it stands for.
    Same(ModeId),
    /// A node whose mode is not known yet.
    Blank,
}

impl Drop for Shape {
    fn drop(self) {
        match self {
            Shape::Void
            | Shape::Int
            | Shape::Long
            | Shape::Bool
            | Shape::Char
            | Shape::Bits
            | Shape::Sema
            | Shape::Layout
            | Shape::Ref(_)
            | Shape::Rows {
                dims: _,
                flex: _,
                of: _,
            }
            | Shape::Struct(_)
            | Shape::Union(_)
            | Shape::Proc {
                params: _,
                result: _,
            }
            | Shape::Same(_)
            | Shape::Blank => {}
        }
    }
}

impl Shape {
    /// The same shape once more.
    pub fn copy(&self, alloc: Global) -> Result<Shape, NoMemory>
        ensures { IfOk result (λ shape. shape ≡ self.now) }
    {
        let shape = match self {
            Shape::Void => Shape::Void,
            Shape::Int => Shape::Int,
            Shape::Long => Shape::Long,
            Shape::Bool => Shape::Bool,
            Shape::Char => Shape::Char,
            Shape::Bits => Shape::Bits,
            Shape::Sema => Shape::Sema,
            Shape::Layout => Shape::Layout,
            Shape::Ref(of) => Shape::Ref(*of),
            Shape::Rows { dims, flex, of } => Shape::Rows {
                dims: *dims,
                flex: *flex,
                of: *of,
            },
            Shape::Struct(fields) => Shape::Struct(fields.copy(alloc)?),
            Shape::Union(members) => Shape::Union(members.copy(alloc)?),
            Shape::Proc { params, result } => Shape::Proc {
                params: params.copy(alloc)?,
                result: *result,
            },
            Shape::Same(mode) => Shape::Same(*mode),
            Shape::Blank => Shape::Blank,
        };
        Ok(shape)
    }

    /// Does a value of the mode fit one cell, and is it not made of others?
    pub fn is_plain(&self) -> bool
        ensures { result ≡ is_plain self.now }
    {
        matches!(
            self,
            Shape::Int
                | Shape::Long
                | Shape::Bool
                | Shape::Char
                | Shape::Bits
                | Shape::Sema
                | Shape::Ref(_)
                | Shape::Proc { .. }
        )
    }

    /// Is it VOID?
    pub fn is_void(&self) -> bool
        ensures { result ≡ is_void self.now }
    {
        matches!(self, Shape::Void)
    }

    /// The modes within the shape, in declared order: those of the parameters of a procedure before that of its
    /// result.
    pub fn parts(&self, alloc: Global) -> Result<Members, NoMemory>
        ensures { IfOk result (λ parts. parts ≡ parts_of self.now) }
    {
        match self {
            Shape::Ref(mode) | Shape::Same(mode) | Shape::Rows { of: mode, .. } => {
                Members::from_slice(alloc, &[*mode])
            }
            Shape::Struct(fields) => fields.modes(alloc),
            Shape::Union(members) => members.copy(alloc),
            Shape::Proc { params, result } => {
                let mut parts = params.copy(alloc)?;
                parts.items.push(*result)?;
                Ok(parts)
            }
            _ => Members::from_slice(alloc, &[]),
        }
    }
}
