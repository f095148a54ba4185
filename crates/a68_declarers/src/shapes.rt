//! The shapes of the modes of declarers.
ghost use Rattle.std.specs.Prelude.{◌≡◌, ◌<◌, IfOk, true, length, map};
ghost use Rattle.a68_declarers.specs.Declarers.{form_at};
ghost use Rattle.a68_declarers.specs.Numbers.{number_at};
ghost use Rattle.a68_declarers.specs.Shapes as shapes;
ghost use Rattle.a68_declarers.specs.Shapes.{front, fields, defined_mode, IsShapeOf};
ghost use Rattle.a68_ranges.specs.Tables.{AreRanges};

use crate::form::{DeclarerForm, form_of};
use crate::numbers::Numbers;
use crate::reading::{is_field, name_of};
use a68_base::NoMemory;
use a68_modes::{Fields, Members, ModeId, Shape};
use a68_ranges::Ranges;
use a68_tree::{NodeId, Tree};
use std::alloc::Global;

/// The mode of the last of these parts; VOID where there is none.
pub fn last_mode(numbers: &Numbers, parts: &[NodeId], fixed: bool) -> ModeId
    ensures { result ≡ shapes.last_mode (λ e. number_at numbers.now e fixed) parts.now }
{
    match parts.last() {
        Some(part) => numbers.of(*part, fixed),
        None => 0,
    }
}

// The parts before the last one.
fn front_of(parts: &[NodeId]) -> &[NodeId]
    ensures { result.now ≡ front parts.now }
{
    &parts[..parts.len().saturating_sub(1)]
}

// The dimensions of a row with these parts.
fn dims_of(parts: &[NodeId]) -> u32
    ensures { result ≡ shapes.dims_of parts.now }
{
    if parts.len() <= 1 {
        1
    } else if parts.len() > 4_294_967_295 {
        u32::MAX
    } else {
        (parts.len() - 1) as u32
    }
}

// The modes of these declarers without their FLEX.
fn members_of(alloc: Global, numbers: &Numbers, parts: &[NodeId]) -> Result<Members, NoMemory>
    ensures { IfOk result (λ members. members ≡ map (λ e. number_at numbers.now e true) parts.now) }
{
    let mut items = Vec::new(alloc);
    for part in parts {
        items.push(numbers.of(*part, true))?;
    }
    Ok(Members { items })
}

// The fields among these parts.
fn fields_of(
    alloc: Global,
    tree: &Tree,
    numbers: &Numbers,
    parts: &[NodeId],
    fixed: bool,
) -> Result<Fields, NoMemory>
    ensures { IfOk result (λ found. found ≡ fields tree.now (λ e. number_at numbers.now e fixed) 0 parts.now) }
{
    let mut before = 0;
    let mut items = Vec::new(alloc);
    for part in parts {
        if is_field(tree, *part) {
            items.push((name_of(tree, *part), before))?;
        } else {
            before = numbers.of(*part, fixed);
        }
    }
    Ok(Fields { items })
}

// The shape of a mode word: the mode of its definition.
fn word_shape(tree: &Tree, ranges: &Ranges, numbers: &Numbers, word: NodeId, fixed: bool) -> Shape
    requires there { word < length tree.now.nodes }
    requires ranges { AreRanges tree.now ranges.now }
    ensures { IsShapeOf tree.now (number_at numbers.now) word fixed DeclarerForm.Word result }
{
    match ranges.mode_word(word, name_of(tree, word)) {
        Some(definition) => Shape::Same(last_mode(numbers, tree.parts(definition), fixed)),
        None => Shape::Same(0),
    }
}

/// The shape of the mode of a declarer, as it stands or without its FLEX down to the next REF or PROC.
pub fn shape_of(
    alloc: Global,
    tree: &Tree,
    ranges: &Ranges,
    numbers: &Numbers,
    declarer: NodeId,
    fixed: bool,
) -> Result<Shape, NoMemory>
    requires there { declarer < length tree.now.nodes }
    requires ranges { AreRanges tree.now ranges.now }
    ensures { IfOk result (λ shape. IsShapeOf tree.now (number_at numbers.now) declarer fixed (form_at tree.now declarer) shape) }
{
    let parts = tree.parts(declarer);
    match form_of(tree, declarer) {
        DeclarerForm::Standard {
            as_it_stands,
            without_flex,
        } => Ok(Shape::Same(if fixed { without_flex } else { as_it_stands })),
        DeclarerForm::Name => Ok(Shape::Ref(last_mode(numbers, parts, false))),
        DeclarerForm::Row { flex } => Ok(Shape::Rows {
            dims: dims_of(parts),
            flex: flex && !fixed,
            of: last_mode(numbers, parts, fixed),
        }),
        DeclarerForm::Structure => {
            let fields = fields_of(alloc, tree, numbers, parts, fixed)?;
            Ok(Shape::Struct(fields))
        }
        DeclarerForm::Union => {
            let members = members_of(alloc, numbers, parts)?;
            Ok(Shape::Union(members))
        }
        DeclarerForm::Procedure => {
            let params = members_of(alloc, numbers, front_of(parts))?;
            Ok(Shape::Proc {
                params,
                result: last_mode(numbers, parts, true),
            })
        }
        DeclarerForm::Word => Ok(word_shape(tree, ranges, numbers, declarer, fixed)),
    }
}
