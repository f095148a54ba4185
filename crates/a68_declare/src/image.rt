//! The shapes of classes.
ghost use Rattle.std.specs.Prelude.{◌≡◌, ◌<◌, IfOk, OnOk, length, map, nat_eq};
ghost use Rattle.std.specs.List.{IsDistinct};
ghost use Rattle.std.specs.List.Sorted.{IsPermutation, IsSorted, IsStrictlyIncreasing};
ghost use Rattle.std.specs.Ordering.{nat_cmp};
ghost use Rattle.a68_declare.specs.Clean.{IsRising};
ghost use Rattle.a68_declare.specs.Numbering.{number_in, AreImagesOf, IsShapeFrom};
ghost use Rattle.a68_equiv.specs.Spread.{AreSameModes, NotesModes};
ghost use Rattle.a68_equiv.specs.Unfolding.{unfolded};

use a68_base::NoMemory;
use a68_equiv::{among, behind};
use a68_modes::{Fields, Members, ModeId, Modes, Shape};
use std::alloc::Global;
use std::collections::HashSet;

/// The number of a mode; the first for a mode that is not there.
pub fn number(to: &[ModeId], mode: ModeId) -> ModeId
    ensures { result ≡ number_in to.now mode }
{
    match to.get(mode as usize) {
        Some(number) => *number,
        None => 0,
    }
}

// The numbers of these modes.
fn numbers(alloc: Global, to: &[ModeId], modes: &[ModeId]) -> Result<Members, NoMemory>
    ensures { IfOk result (λ found. found ≡ map (number_in to.now) modes.now) }
{
    let mut items = Vec::new(alloc);
    for mode in modes {
        items.push(number(to, *mode))?;
    }
    Ok(Members { items })
}

// These fields, with the numbers of their modes.
fn fields_of(alloc: Global, to: &[ModeId], fields: &[(u32, ModeId)]) -> Result<Fields, NoMemory>
    ensures { IfOk result (λ found. found ≡ map (λ field. (field.0, number_in to.now field.1)) fields.now) }
{
    let mut items = Vec::new(alloc);
    for (name, mode) in fields {
        items.push((*name, number(to, *mode)))?;
    }
    Ok(Fields { items })
}

// Notes the numbers of these modes, each once.
fn note(
    to: &[ModeId],
    modes: &[ModeId],
    found: &mut Vec<ModeId>,
    known: &mut HashSet<ModeId>,
) -> Result<(), NoMemory>
    requires { AreSameModes found.old.items known.old.keys }
    ensures notes { OnOk result (NotesModes (map (number_in to.now) modes.now) found.old.items found.new.items) }
    ensures known { OnOk result (AreSameModes found.new.items known.new.keys) }
{
    for mode in modes {
        let number = number(to, *mode);
        if known.insert(number)? {
            found.push(number)?;
        }
    }
    Ok(())
}

// Puts numbers in order, from the least to the greatest.
fn put_in_order(numbers: &mut Vec<ModeId>)
    ensures moved { IsPermutation numbers.old.items numbers.new.items }
    ensures sorted { IsSorted nat_cmp numbers.new.items }
{
    numbers.sort_unstable();
}

// The numbers of these modes, each once, from the least to the greatest.
fn distinct(alloc: Global, to: &[ModeId], modes: &[ModeId]) -> Result<Members, NoMemory>
    ensures same { IfOk result (λ found. AreImagesOf to.now modes.now found) }
    ensures once { IfOk result (λ found. IsDistinct nat_eq found) }
    ensures rising { IfOk result (λ found. IsStrictlyIncreasing found) }
{
    let mut items = Vec::new(alloc);
    let mut known = HashSet::new(alloc);
    note(to, modes, &mut items, &mut known)?;
    put_in_order(&mut items);
    Ok(Members { items })
}

/// The shape of a mode, with the numbers of the modes within it: of a union of its members, each once, from the least to the
/// greatest, where those of inner unions stand in their place.
pub fn shape_from(
    alloc: Global,
    modes: &Modes,
    to: &[ModeId],
    mode: ModeId,
) -> Result<Shape, NoMemory>
    requires { mode < length modes.now }
    ensures from { IfOk result (λ shape. IsShapeFrom modes.now to.now mode shape) }
    ensures rising { IfOk result IsRising }
{
    let shape = modes.shape(behind(modes, mode));
    match shape {
        Shape::Ref(of) => Ok(Shape::Ref(number(to, *of))),
        Shape::Rows { dims, flex, of } => Ok(Shape::Rows {
            dims: *dims,
            flex: *flex,
            of: number(to, *of),
        }),
        Shape::Struct(fields) => {
            let fields = fields_of(alloc, to, &fields.items)?;
            Ok(Shape::Struct(fields))
        }
        Shape::Union(_) => {
            let members = among(alloc, modes, mode)?;
            let images = distinct(alloc, to, &members.items)?;
            Ok(Shape::Union(images))
        }
        Shape::Proc { params, result } => {
            let params = numbers(alloc, to, &params.items)?;
            Ok(Shape::Proc {
                params,
                result: number(to, *result),
            })
        }
        Shape::Same(of) => Ok(Shape::Same(number(to, *of))),
        _ => {
            let copy = shape.copy(alloc)?;
            Ok(copy)
        }
    }
}
