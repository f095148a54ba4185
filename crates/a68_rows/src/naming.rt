//! Names of rows, which have descriptors of their own.
ghost use Rattle.std.specs.Prelude.{◌≡◌, ◌∷◌, IfOk};
ghost use Rattle.a68_acts.specs.Operations as operations;
ghost use Rattle.a68_acts.specs.Rowing as rowing;
ghost use Rattle.a68_modes.specs.Nodes.{shape_at};

use a68_acts::{Doing, Next, Want};
use a68_base::{MOST_COUNTED, NoMemory};
use a68_layout::Plan;
use a68_modes::{ModeId, Modes, Shape};
use a68_values::{Cells, Descriptor, Dim, Dims, FaultKind, Held, Name, Plain, Value, ValueNode};
use smallvec::SmallVec;
use std::alloc::Global;

// The dimension 1:1 of a row of one element.
fn one_dimension() -> Dim
    ensures { result ≡ rowing.one_dimension }
{
    Dim {
        lower: 1,
        upper: 1,
        stride: 0,
    }
}

/// The name of a new descriptor, of this scope.
pub fn names_row(alloc: Global, scope: u32, descriptor: Descriptor) -> Result<Doing, NoMemory>
    ensures { IfOk result (λ doing. doing ≡ rowing.names_row scope descriptor) }
{
    let mut items = Vec::new(alloc);
    items.push(Held::Rows(descriptor))?;
    let plan = Plan {
        cells: Cells { items },
        shifted: false,
    };
    Ok(Doing::Asks(Want::Make(plan), Next::Made { scope }))
}

/// The name of the row of the fields so many cells behind the first one of each element of a row.
pub fn names_field(
    alloc: Global,
    scope: u32,
    offset: u32,
    descriptor: Descriptor,
) -> Result<Doing, NoMemory>
    ensures { IfOk result (λ doing. doing ≡ operations.named_rows scope offset descriptor) }
{
    let mut descriptor = descriptor;
    if offset > MOST_COUNTED || descriptor.base > MOST_COUNTED - offset {
        drop(descriptor);
        return Ok(Doing::Meets(FaultKind::Cells));
    }
    descriptor.base += offset;
    let doing = names_row(alloc, scope, descriptor)?;
    Ok(doing)
}

// A dimension 1:1 in front of others.
fn dims_behind(alloc: Global, dims: &[Dim]) -> Result<Dims, NoMemory>
    ensures { IfOk result (λ all. all ≡ rowing.one_dimension ∷ dims.now) }
{
    let mut items: SmallVec<Dim, 2> = SmallVec::new(alloc);
    items.push(one_dimension())?;
    items.extend_from_slice(dims)?;
    let dims = Dims::of(alloc, items.as_slice())?;
    Ok(dims)
}

/// The name of a row with a dimension 1:1 in front of those of this one.
pub fn with_dimension(alloc: Global, scope: u32, descriptor: &Descriptor) -> Result<Doing, NoMemory>
    ensures { IfOk result (λ doing. doing ≡ rowing.names_row scope (rowing.with_dimension descriptor.now)) }
{
    let dims = dims_behind(alloc, descriptor.dims.as_slice())?;
    let base = descriptor.base;
    let doing = names_row(alloc, scope, Descriptor { base, dims })?;
    Ok(doing)
}

// The name of a row of the one element to which a name refers.
fn names_one(alloc: Global, name: Name) -> Result<Doing, NoMemory>
    ensures { IfOk result (λ doing. doing ≡ rowing.names_one name) }
{
    let dims = dims_behind(alloc, &[])?;
    let base = name.cell;
    let doing = names_row(alloc, name.scope, Descriptor { base, dims })?;
    Ok(doing)
}

// How many dimensions has the row to which a name of the mode refers? None where that is no row.
fn dims_named(modes: &Modes, mode: ModeId) -> Option<u32>
    ensures { result ≡ rowing.dims_of_shape (operations.shape_behind modes.now (shape_at modes.now mode)) }
{
    if mode >= modes.len() {
        return None;
    }
    match modes.shape(mode) {
        Shape::Ref(mode) => dims_in(modes, *mode),
        _ => dims_in(modes, mode),
    }
}

/// How many dimensions have the rows of the mode? None where it is no mode of rows.
pub fn dims_in(modes: &Modes, mode: ModeId) -> Option<u32>
    ensures { result ≡ rowing.dims_of_shape (shape_at modes.now mode) }
{
    if mode >= modes.len() {
        return None;
    }
    match modes.shape(mode) {
        Shape::Rows { dims, .. } => Some(*dims),
        _ => None,
    }
}

// A name of a mode made that of a row of so many dimensions.
fn rowed_plain(alloc: Global, dims: Option<u32>, name: Name) -> Result<Doing, NoMemory>
    ensures { IfOk result (λ doing. doing ≡ rowing.rowed_in dims name) }
{
    match dims {
        None => Ok(Doing::Meets(FaultKind::Kind)),
        Some(1) => {
            let doing = names_one(alloc, name)?;
            Ok(doing)
        }
        Some(_) => Ok(Doing::Asks(
            Want::Fetch { cell: name.cell },
            Next::Rowed { scope: name.scope },
        )),
    }
}

/// A name made that of a row, of this mode, of one element or of one more dimension. NIL stays.
pub fn rowed_name(
    alloc: Global,
    modes: &Modes,
    mode: ModeId,
    name: &Value,
) -> Result<Doing, NoMemory>
    ensures { IfOk result (λ doing. doing ≡ rowing.rowed_name (operations.shape_behind modes.now (shape_at modes.now mode)) name.now) }
{
    match &name.node {
        ValueNode::Plain(Plain::Unset) => Ok(Doing::Meets(FaultKind::Unset)),
        ValueNode::Plain(Plain::Nil) => Ok(Doing::Yields(Value::of(Plain::Nil))),
        ValueNode::Plain(Plain::Name(name)) => {
            let doing = rowed_plain(alloc, dims_named(modes, mode), *name)?;
            Ok(doing)
        }
        _ => Ok(Doing::Meets(FaultKind::Kind)),
    }
}
