//! The codes of constructors.
ghost use Rattle.std.specs.Prelude.{◌≡◌, ◌∷◌, IfOk, map};
ghost use Rattle.a68_equiv.specs.Graph.{code_of};

use a68_base::NoMemory;
use a68_modes::{Fields, Members, Shape};
use std::alloc::Global;

/// The constructor of a mode as a list of numbers.
pub fn code(alloc: Global, fixed: bool, shape: &Shape) -> Result<Vec<u32>, NoMemory>
    ensures { IfOk result (λ code. code.items ≡ code_of fixed shape.now) }
{
    let kind = match shape {
        Shape::Void => 0,
        Shape::Int => 1,
        Shape::Bool => 2,
        Shape::Char => 3,
        Shape::Bits => 4,
        Shape::Sema => 5,
        Shape::Layout => 6,
        Shape::Ref(_) => 7,
        Shape::Rows { dims, flex, .. } => {
            let flex = *flex && !fixed;
            return Ok(Vec::from_slice(alloc, &[8, *dims, u32::from(flex)])?);
        }
        Shape::Struct(fields) => return names(alloc, fields),
        Shape::Union(_) => 10,
        Shape::Proc { params, .. } => return places(alloc, params),
        Shape::Same(_) => 12,
        Shape::Blank => 13,
        Shape::Long => 14,
    };
    Ok(Vec::from_slice(alloc, &[kind])?)
}

fn names(alloc: Global, fields: &Fields) -> Result<Vec<u32>, NoMemory>
    ensures { IfOk result (λ code. code.items ≡ 9 ∷ map (λ field. field.0) fields.now) }
{
    let mut code = Vec::from_slice(alloc, &[9])?;
    for field in &fields.items {
        code.push(field.0)?;
    }
    Ok(code)
}

fn places(alloc: Global, params: &Members) -> Result<Vec<u32>, NoMemory>
    ensures { IfOk result (λ code. code.items ≡ 11 ∷ map (λ p. 0) params.now) }
{
    let mut code = Vec::from_slice(alloc, &[11])?;
    for _ in &params.items {
        code.push(0)?;
    }
    Ok(code)
}
