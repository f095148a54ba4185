//! Rowing: the modes between a value and the row that it becomes.
ghost use Rattle.std.specs.Prelude.{◌≡◌, ◌<◌, ◌≤◌, ◌-◌, ℕ, List, Option, true, length, IfSome, IsTrue};
ghost use Rattle.a68_elab.specs.Made as made;
ghost use Rattle.a68_modes.specs.Nodes.{shape_at};
ghost use Rattle.a68_parts.specs.Rowing as running;
ghost use Rattle.a68_parts.specs.Rowing.{AreInOrder, AreRowings};

use crate::nodes::behind_ref;
use a68_modes::{Coercion, ModeId, Modes, Shape};

// Is a mode a row of so many dimensions, without FLEX, of another?
fn is_row_of(shape: &Shape, dims: u32, of: ModeId) -> bool
    ensures { result ≡ made.is_row_of dims of shape.now }
{
    match shape {
        Shape::Rows {
            dims: n,
            flex,
            of: element,
        } => !*flex && *n == dims && *element == of,
        _ => false,
    }
}

// Is a mode that of a name of another?
fn is_name_of(shape: &Shape, of: ModeId) -> bool
    ensures { result ≡ made.is_name_of of shape.now }
{
    match shape {
        Shape::Ref(to) => *to == of,
        _ => false,
    }
}

// The first row of so many dimensions, without FLEX, of a mode.
fn row_of(modes: &Modes, dims: u32, of: ModeId) -> Option<ModeId>
    ensures { result ≡ made.found_from 0 (made.is_row_of dims of) modes.now }
{
    for mode in 0..modes.len() {
        if is_row_of(modes.shape(mode), dims, of) {
            return Some(mode);
        }
    }
    None
}

// The first mode of a name of a mode.
fn name_of(modes: &Modes, of: ModeId) -> Option<ModeId>
    ensures { result ≡ made.found_from 0 (made.is_name_of of) modes.now }
{
    for mode in 0..modes.len() {
        if is_name_of(modes.shape(mode), of) {
            return Some(mode);
        }
    }
    None
}

// The mode that is rowed to a row of this shape.
fn unrowed_by(modes: &Modes, shape: &Shape) -> Option<ModeId>
    ensures { result ≡ made.unrowed_by modes.now shape.now }
{
    match shape {
        Shape::Rows { dims, of, .. } => {
            if *dims == 0 {
                None
            } else if *dims == 1 {
                Some(*of)
            } else {
                row_of(modes, *dims - 1, *of)
            }
        }
        _ => None,
    }
}

// The mode that is rowed to a mode.
fn unrowed(modes: &Modes, mode: ModeId) -> Option<ModeId>
    ensures { result ≡ made.unrowed modes.now mode }
{
    if mode >= modes.len() {
        return None;
    }
    unrowed_by(modes, modes.shape(mode))
}

// The mode of a name that is rowed to that of a name.
fn unrowed_name(modes: &Modes, mode: ModeId) -> Option<ModeId>
    ensures { result ≡ made.unrowed_name modes.now mode }
{
    match unrowed(modes, behind_ref(modes, mode)) {
        Some(of) => name_of(modes, of),
        None => None,
    }
}

// The mode before a rowing to a mode; none before another coercion.
fn before(modes: &Modes, mode: Option<ModeId>, coercion: Coercion) -> Option<ModeId>
    ensures { result ≡ running.before modes.now mode coercion }
{
    match (coercion, mode) {
        (Coercion::RowUp, Some(mode)) => unrowed(modes, mode),
        (Coercion::RowUpName, Some(mode)) => unrowed_name(modes, mode),
        _ => None,
    }
}

/// What is known of the end of a path of coercions that leads to a row: the last coercions, so many, are rowings from rows
/// that are there, each of a dimension fewer. The last row has so many dimensions, and its elements this mode. Where all rows
/// of fewer dimensions stand in order, each in front of the one with a dimension more, `fewer` is the last of these.
#[derive(Clone, Copy)]
pub struct Rowings {
    pub count: usize,
    pub dims: u32,
    pub of: ModeId,
    pub fewer: Option<ModeId>,
}

// Up to so many rowings each row is looked for among all modes.
const FEW: usize = 2;

// Is it a rowing of a value?
fn is_row_up(coercion: Coercion) -> bool
    ensures { IsTrue result → coercion ≡ Coercion.RowUp }
{
    matches!(coercion, Coercion::RowUp)
}

// A row of so many dimensions, without FLEX, of a mode: the one in front of a mode, where it is that, else the first.
fn near(modes: &Modes, at: ModeId, dims: u32, of: ModeId) -> Option<ModeId>
    ensures { IfSome result (λ mode. (mode < length modes.now) × (made.is_row_of dims of (shape_at modes.now mode) ≡ true)) }
{
    let before = at.saturating_sub(1);
    if before < modes.len() {
        if is_row_of(modes.shape(before), dims, of) {
            return Some(before);
        }
    }
    row_of(modes, dims, of)
}

// Does a mode, where it is a row without FLEX of another with fewer dimensions than so many, stand as far in front of a
// mode as it has dimensions fewer?
fn stands(shape: &Shape, dims: u32, of: ModeId, fewer: ModeId, mode: ModeId) -> bool
    ensures { result ≡ running.stands dims of fewer mode shape.now }
{
    match shape {
        Shape::Rows {
            dims: n,
            flex,
            of: element,
        } => {
            if *flex || *element != of || *n >= dims {
                true
            } else {
                mode <= fewer && fewer - mode == dims - 1 - *n
            }
        }
        _ => true,
    }
}

// The row of a dimension fewer than so many, where all rows of fewer dimensions stand in order in front of it.
fn in_order(modes: &Modes, dims: u32, of: ModeId) -> Option<ModeId>
    ensures { IfSome result (AreInOrder modes.now dims of) }
{
    let Some(fewer) = row_of(modes, dims.saturating_sub(1), of) else {
        return None;
    };
    for mode in 0..modes.len() {
        if !stands(modes.shape(mode), dims, of, fewer, mode) {
            return None;
        }
    }
    Some(fewer)
}

// How many last rowings of a path that leads to a row start from rows that are there. These rows are not looked for among
// all modes, since each stands mostly in front of the one with a dimension more.
fn rows_back(modes: &Modes, goal: ModeId, dims: u32, of: ModeId, path: &[Coercion]) -> usize
    requires { running.IsRows dims of (shape_at modes.now goal) }
    ensures within { result ≤ length path.now }
    ensures rows { (fewer : Option ℕ) → IfSome fewer (AreInOrder modes.now dims of) → AreRowings modes.now goal path.now (record { count = result; dims = dims; of = of; fewer = fewer }) }
{
    let mut at = goal;
    let mut left = dims;
    for count in 0..path.len() {
        if left < 2 || !is_row_up(path[path.len() - 1 - count]) {
            return count;
        }
        let Some(next) = near(modes, at, left - 1, of) else {
            return count;
        };
        at = next;
        left -= 1;
    }
    path.len()
}

// Where rows stand in order, of which there are more than few.
fn order_of(modes: &Modes, dims: u32, of: ModeId, count: usize) -> Option<ModeId>
    ensures { IfSome result (AreInOrder modes.now dims of) }
{
    if count <= FEW {
        return None;
    }
    in_order(modes, dims, of)
}

/// What is known of the end of a path that leads to a mode.
pub fn last_rowings(modes: &Modes, goal: ModeId, path: &[Coercion]) -> Rowings
    ensures within { result.count ≤ length path.now }
    ensures rows { AreRowings modes.now goal path.now result }
{
    let none = Rowings {
        count: 0,
        dims: 0,
        of: 0,
        fewer: None,
    };
    if goal >= modes.len() {
        return none;
    }
    match modes.shape(goal) {
        Shape::Rows { dims, of, .. } => {
            let count = rows_back(modes, goal, *dims, *of, path);
            let fewer = order_of(modes, *dims, *of, count);
            Rowings {
                count,
                dims: *dims,
                of: *of,
                fewer,
            }
        }
        _ => none,
    }
}

// The mode that so many last rowings reach.
fn row_behind(modes: &Modes, goal: ModeId, rowings: Rowings, count: usize) -> Option<ModeId>
    ensures { result ≡ running.row_behind modes.now goal rowings count }
{
    if count == 0 {
        return Some(goal);
    }
    match rowings.fewer {
        Some(fewer) => {
            let mode = (fewer as usize).saturating_sub(count - 1);
            Some(mode as u32)
        }
        None => {
            let dims = (rowings.dims as usize).saturating_sub(count);
            row_of(modes, dims as u32, rowings.of)
        }
    }
}

/// The mode that a rowing reaches, behind which these coercions lead to a mode; none where it is not there.
pub fn rowed_to(modes: &Modes, goal: ModeId, path: &[Coercion]) -> Option<ModeId>
    ensures { result ≡ made.rowed_to modes.now goal path.now }
{
    let rowings = last_rowings(modes, goal, path);
    let mut mode = row_behind(modes, goal, rowings, rowings.count);
    for behind in rowings.count..path.len() {
        mode = before(modes, mode, path[path.len() - 1 - behind]);
    }
    mode
}

/// The same, where it is known of the whole path, of which these coercions are the end, with which rowings it ends.
pub fn rowed_by(modes: &Modes, goal: ModeId, path: &[Coercion], rowings: Rowings) -> Option<ModeId>
    requires { running.Tells modes.now goal path.now rowings }
    ensures { result ≡ made.rowed_to modes.now goal path.now }
{
    if path.len() <= rowings.count {
        return row_behind(modes, goal, rowings, path.len());
    }
    rowed_to(modes, goal, path)
}
