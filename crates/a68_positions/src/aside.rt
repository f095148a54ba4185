//! The mode that a node has to find before it can say what it asks of its parts.
ghost use Rattle.std.specs.Prelude.{◌≡◌, ◌<◌, ℕ, IfOk, List, Option, length};
ghost use Rattle.a68_declare.specs.Outcome.{ByNode};
ghost use Rattle.a68_modes.specs.Nodes.{shape_at};
ghost use Rattle.a68_positions.specs.Aside as specs;
ghost use Rattle.a68_positions.specs.Aside.{IsSetAside};
ghost use Rattle.a68_positions.specs.Below.{IsAsideBelow, IsPositionBelow};
ghost use Rattle.a68_ranges.specs.Nodes.{kind_at};
ghost use Rattle.a68_yields.specs.Below.{AreAhead, AreUnitsBelow, IsFindingBelow};

use crate::position::Position;
use a68_base::NoMemory;
use a68_coerce::ModeForm;
use a68_declare::NodeModes;
use a68_definitions::{Tags, called_by, kind_of, part_from_end, parts_of};
use a68_identify::Identified;
use a68_mode_table::ModeTable;
use a68_modes::{ModeId, Modes, Shape, Sort};
use a68_ranges::tags;
use a68_tree::{NodeId, NodeKind, Tree};
use a68_yields::{Expectation, Finding, Yielding, part_found};
use std::alloc::Global;

/// Nothing; a mode without its FLEX; a row; the row, or name of one, to which the units of that part are balanced; or the union
/// of INT and LONG INT.
#[derive(Clone, Copy)]
pub enum Aside {
    Nothing,
    WithoutFlex(ModeId),
    Row { dims: u32, flex: bool, of: ModeId },
    AnyRow(NodeId),
    Number,
}

// Gives what a name refers to, without its FLEX.
fn of_source(modes: &Modes, found: Finding) -> Aside
    requires { IsFindingBelow (length modes.now) found }
    ensures { result ≡ specs.of_source modes.now found }
{
    match found {
        Finding::Mode(Some(name)) => match modes.shape(name) {
            Shape::Ref(of) => Aside::WithoutFlex(*of),
            _ => Aside::Nothing,
        },
        _ => Aside::Nothing,
    }
}

// Gives the row of one dimension fewer.
fn row_within(shape: &Shape) -> Aside
    ensures { result ≡ specs.row_within shape.now }
{
    match shape {
        Shape::Rows { dims, flex, of } if *dims > 1 => Aside::Row {
            dims: *dims - 1,
            flex: *flex,
            of: *of,
        },
        _ => Aside::Nothing,
    }
}

// Gives the row that is asked of the units of a display.
fn of_display(modes: &Modes, own: Position) -> Aside
    requires { IsPositionBelow (length modes.now) own }
    ensures { result ≡ specs.of_display modes.now own }
{
    match own {
        Position::Goal(mode, _) => row_within(modes.shape(mode)),
        _ => Aside::Nothing,
    }
}

// Gives every row, where an operator takes that.
fn of_formula(last: NodeId, found: Finding) -> Aside
    ensures { result ≡ specs.of_formula last found }
{
    match found {
        Finding::Operator(Some(Identified::Standard(operator))) => {
            if operator.right == 0 {
                Aside::AnyRow(last)
            } else {
                Aside::Nothing
            }
        }
        _ => Aside::Nothing,
    }
}

// Gives what the first parameter of whole leads to, where that is called with two units.
fn of_call(called: Option<u32>, count: usize) -> Aside
    ensures { result ≡ specs.of_call called count }
{
    match called {
        Some(place) if place == tags::WHOLE && count == 3 => Aside::Number,
        _ => Aside::Nothing,
    }
}

/// Tells what a node has to find, by what is asked of it and what is found of its parts.
pub fn aside_of(
    tree: &Tree,
    tags: &Tags,
    modes: &Modes,
    node: NodeId,
    own: Position,
    found: Finding,
) -> Aside
    requires own { IsPositionBelow (length modes.now) own }
    requires found { IsFindingBelow (length modes.now) found }
    ensures { (of : ByNode) (defined : List ℕ) → result ≡ specs.aside_by (record { tree = tree.now; tags = tags.now; of = of; defined = defined }) modes.now node own found (kind_at tree.now node) }
{
    match kind_of(tree, node) {
        NodeKind::Assignation => of_source(modes, found),
        NodeKind::Collateral => of_display(modes, own),
        NodeKind::Monadic | NodeKind::Dyadic => {
            of_formula(part_from_end(parts_of(tree, node), 1), found)
        }
        NodeKind::Call => of_call(called_by(tree, tags, node), parts_of(tree, node).len()),
        _ => Aside::Nothing,
    }
}

// Gives the mode that is found; VOID where there is none.
fn mode_or_void(found: Finding) -> ModeId
    ensures { result ≡ specs.mode_or_void found }
{
    match found {
        Finding::Mode(Some(mode)) => mode,
        _ => 0,
    }
}

/// Finds the mode that is set aside, which joins the others where it is not among them.
pub fn set_aside(
    alloc: Global,
    tree: &Tree,
    of: &NodeModes,
    modes: &mut ModeTable,
    yields: &[Yielding],
    aside: Aside,
) -> Result<ModeId, NoMemory>
    requires ahead { AreAhead (length tree.now.nodes) yields.now }
    requires long { length yields.now ≡ length tree.now.nodes }
    requires units { AreUnitsBelow (length modes.old) yields.now }
    requires aside { IsAsideBelow (length modes.old) aside }
    ensures { (tags : List (Option ℕ)) (defined : List ℕ) → IfOk result (IsSetAside (record { tree = tree.now; tags = tags; of = of.now; defined = defined }) modes.old yields.now aside modes.new) }
{
    match aside {
        Aside::Nothing => Ok(0),
        Aside::WithoutFlex(mode) => Ok(modes.without_flex(mode)),
        Aside::Row { dims, flex, of } => modes.row_of(alloc, dims, flex, of),
        Aside::AnyRow(part) => {
            let row = Expectation::ModeForm(ModeForm::Row);
            let found = part_found(alloc, tree, modes, of, yields, part, Sort::Weak, row, part)?;
            Ok(mode_or_void(found))
        }
        Aside::Number => modes.number(alloc),
    }
}
