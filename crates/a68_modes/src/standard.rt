//! The standard modes: those of the standard environ (Report, 10.2.2), by the numbers of their nodes, which all lists of
//! modes begin with. What `print` and `whole` take is own.
ghost use Rattle.std.specs.Prelude.{◌≡◌, ◌<◌, IfOk};
ghost use Rattle.a68_modes.specs.Nodes.{shape_at, standard_shapes};

use crate::{Members, Shape};
use a68_base::NoMemory;
use std::alloc::Global;

pub const VOID: u32 = 0;

pub const INT: u32 = 1;

pub const BOOL: u32 = 2;

pub const CHAR: u32 = 3;

pub const BITS: u32 = 4;

pub const SEMA: u32 = 5;
/// The mode of `newline` and `space`.
pub const LAYOUT: u32 = 6;
/// `[] CHAR`, the mode of strings as values.
pub const ROW_OF_CHAR: u32 = 7;
/// What can be printed: the union of INT, LONG INT, BOOL, CHAR, BITS, `[] CHAR` and the mode of `newline` and `space`.
pub const PRINTABLE: u32 = 8;

pub const REF_INT: u32 = 9;

pub const REF_STRING: u32 = 10;
/// `[] BOOL`, to which BITS are widened.
pub const ROW_OF_BOOL: u32 = 11;
/// STRING, which is `FLEX [1 : 0] CHAR`.
pub const STRING: u32 = 12;

pub const LONG_INT: u32 = 13;

pub const REF_LONG_INT: u32 = 14;

/// How many standard modes there are.
pub const STANDARD: u32 = 15;

/// The shape of a standard mode.
pub fn standard_shape(alloc: Global, id: u32) -> Result<Shape, NoMemory>
    requires { id < STANDARD }
    ensures { IfOk result (λ shape. shape ≡ shape_at standard_shapes id) }
{
    let row_of = |flex: bool, of: u32| Shape::Rows { dims: 1, flex, of };
    let shape = match id {
        VOID => Shape::Void,
        INT => Shape::Int,
        BOOL => Shape::Bool,
        CHAR => Shape::Char,
        BITS => Shape::Bits,
        SEMA => Shape::Sema,
        LAYOUT => Shape::Layout,
        ROW_OF_CHAR => row_of(false, CHAR),
        PRINTABLE => Shape::Union(Members::from_slice(
            alloc,
            &[INT, LONG_INT, BOOL, CHAR, BITS, ROW_OF_CHAR, LAYOUT],
        )?),
        REF_INT => Shape::Ref(INT),
        REF_STRING => Shape::Ref(STRING),
        ROW_OF_BOOL => row_of(false, BOOL),
        STRING => row_of(true, CHAR),
        LONG_INT => Shape::Long,
        _ => Shape::Ref(LONG_INT),
    };
    Ok(shape)
}
