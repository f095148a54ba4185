//! What a position asks for where the mode itself is not known.
ghost use Rattle.std.specs.Prelude.{◌≡◌, ◌<◌, length};
ghost use Rattle.a68_coerce.specs.Forms.{has_fields, is_name, is_of_form, is_routine, is_row, is_structure, named_or};
ghost use Rattle.a68_equiv.specs.Unfolding.{is_union, unfolded};
ghost use Rattle.a68_modes.specs.Nodes.{ShapeIsWithin};

use a68_equiv::{Mode, behind};
use a68_modes::{Modes, Shape};

/// What a position asks for where the mode itself is not known.
#[derive(Clone, Copy)]
pub enum ModeForm {
    /// A name: the destination of an assignation, a side of an identity relation (5.2.1, 5.2.2).
    Name,
    /// A row, or the name of one: the primary of a slice (5.3.2), the operand of LWB and UPB.
    Row,
    /// A structure, a row of structures, or the name of either: the secondary of a selection (5.3.1).
    Structure,
    /// A procedure with parameters: the primary of a call (5.4.3).
    Routine,
    /// A union: the enquiry of a conformity clause (3.4.1).
    Union,
}

/// Is the mode of the form?
pub fn is_of_form(modes: &Modes, form: ModeForm, mode: Mode) -> bool
    requires { mode.id < length modes.now }
    ensures { result ≡ is_of_form modes.now form (unfolded modes.now mode.id) }
{
    let shape = modes.shape(behind(modes, mode.id));
    match form {
        ModeForm::Name => is_name(shape),
        ModeForm::Row => is_row(behind_name(modes, shape)),
        ModeForm::Structure => has_fields(modes, behind_name(modes, shape)),
        ModeForm::Routine => is_routine(shape),
        ModeForm::Union => is_union(shape),
    }
}

/// Gives what a name is a name of; the shape itself where it is no name.
fn behind_name<'a>(modes: &'a Modes, shape: &'a Shape) -> &'a Shape
    requires { ShapeIsWithin (length modes.now) shape.now }
    ensures shape { result.now ≡ named_or modes.now shape.now }
    ensures within { ShapeIsWithin (length modes.now) result.now }
{
    match shape {
        Shape::Ref(of) => modes.shape(behind(modes, *of)),
        _ => shape,
    }
}

fn is_name(shape: &Shape) -> bool
    ensures { result ≡ is_name shape.now }
{
    matches!(shape, Shape::Ref(_))
}

fn is_row(shape: &Shape) -> bool
    ensures { result ≡ is_row shape.now }
{
    matches!(shape, Shape::Rows { .. })
}

fn is_structure(shape: &Shape) -> bool
    ensures { result ≡ is_structure shape.now }
{
    matches!(shape, Shape::Struct(_))
}

fn is_union(shape: &Shape) -> bool
    ensures { result ≡ is_union shape.now }
{
    matches!(shape, Shape::Union(_))
}

/// Is it a procedure with parameters?
fn is_routine(shape: &Shape) -> bool
    ensures { result ≡ is_routine shape.now }
{
    match shape {
        Shape::Proc { params, result: _ } => !params.items.is_empty(),
        _ => false,
    }
}

/// Is it a structure, or a row of structures?
fn has_fields(modes: &Modes, shape: &Shape) -> bool
    requires { ShapeIsWithin (length modes.now) shape.now }
    ensures { result ≡ has_fields modes.now shape.now }
{
    match shape {
        Shape::Struct(_) => true,
        Shape::Rows {
            dims: _,
            flex: _,
            of,
        } => is_structure(modes.shape(behind(modes, *of))),
        _ => false,
    }
}
