//! What is found for the parts of which something is asked.
ghost use Rattle.std.specs.Prelude.{◌≡◌, ◌<◌, ◌^◌, IfOk, IfSome, length, map};
ghost use Rattle.std.specs.List.{All};
ghost use Rattle.a68_coerce.specs.Below.{IsLeafBelow};
ghost use Rattle.a68_identify.specs.Operators.{AreListed, NumbersAreThere};
ghost use Rattle.a68_ranges.specs.Tables.{AreRanges};
ghost use Rattle.a68_yields.specs.Below.{AreAhead, AreUnitsBelow, IsFindingBelow, IsOperatorBelow, IsSoughtBelow, IsExpectationBelow};
ghost use Rattle.a68_yields.specs.Found.{IsFound, IsModeFound, IsNameFound, IsOperatorFound};

use crate::leaves::leaves_of;
use crate::sought::{Expectation, Sought};
use crate::yielding::{Finding, Yielding};
use a68_base::NoMemory;
use a68_coerce::{Leaf, ModeForm, balance, balance_sides, balance_to_form};
use a68_declare::NodeModes;
use a68_identify::{Identified, OperatorModes, identify};
use a68_mode_table::ModeTable;
use a68_modes::{ModeId, Sort};
use a68_ranges::Ranges;
use a68_tree::{NodeId, Tree};
use std::alloc::Global;

// Finds whether these leaves are balanced to a mode.
fn mode_found(
    alloc: Global,
    modes: &ModeTable,
    sort: Sort,
    mode: ModeId,
    leaves: &[Leaf],
) -> Result<Option<ModeId>, NoMemory>
    requires leaves { All (IsLeafBelow (length modes.now)) leaves.now }
    requires few { length leaves.now < 2 ^ 32 }
    requires mode { mode < length modes.now }
    ensures found { IfOk result (IsModeFound modes.now sort (Expectation.Mode mode) leaves.now) }
    ensures there { IfOk result (λ found. IfSome found (λ m. m < length modes.now)) }
{
    let found = balance(alloc, modes.modes(), modes.classes(), sort, leaves, mode)?;
    match found {
        Some(_) => Ok(Some(mode)),
        None => Ok(None),
    }
}

// Finds the mode of a form to which these leaves are balanced.
fn form_found(
    alloc: Global,
    modes: &ModeTable,
    sort: Sort,
    form: ModeForm,
    leaves: &[Leaf],
) -> Result<Option<ModeId>, NoMemory>
    requires leaves { All (IsLeafBelow (length modes.now)) leaves.now }
    requires few { length leaves.now < 2 ^ 32 }
    ensures found { IfOk result (IsModeFound modes.now sort (Expectation.ModeForm form) leaves.now) }
    ensures there { IfOk result (λ found. IfSome found (λ m. m < length modes.now)) }
{
    let found = balance_to_form(alloc, modes.modes(), modes.classes(), sort, form, leaves)?;
    match found {
        Some(balanced) => Ok(Some(modes.node_of(balanced.mode))),
        None => Ok(None),
    }
}

// Finds the mode to which these leaves are balanced, where a mode or a form is wanted.
fn wanted(
    alloc: Global,
    modes: &ModeTable,
    sort: Sort,
    want: Expectation,
    leaves: &[Leaf],
) -> Result<Option<ModeId>, NoMemory>
    requires leaves { All (IsLeafBelow (length modes.now)) leaves.now }
    requires few { length leaves.now < 2 ^ 32 }
    requires want { IsExpectationBelow (length modes.now) want }
    ensures found { IfOk result (IsModeFound modes.now sort want leaves.now) }
    ensures there { IfOk result (λ found. IfSome found (λ m. m < length modes.now)) }
{
    match want {
        Expectation::Mode(mode) => mode_found(alloc, modes, sort, mode, leaves),
        Expectation::ModeForm(form) => form_found(alloc, modes, sort, form, leaves),
    }
}

/// Finds what is asked of a part: the mode to which the units that it may yield are balanced.
pub fn part_found(
    alloc: Global,
    tree: &Tree,
    modes: &ModeTable,
    of: &NodeModes,
    yields: &[Yielding],
    node: NodeId,
    sort: Sort,
    want: Expectation,
    part: NodeId,
) -> Result<Finding, NoMemory>
    requires ahead { AreAhead (length tree.now.nodes) yields.now }
    requires long { length yields.now ≡ length tree.now.nodes }
    requires units { AreUnitsBelow (length modes.now) yields.now }
    requires want { IsExpectationBelow (length modes.now) want }
    ensures found { IfOk result (IsFound tree.now modes.now of.now yields.now node (Sought.Part sort want part)) }
    ensures there { IfOk result (IsFindingBelow (length modes.now)) }
{
    let _of = of;
    match leaves_of(alloc, tree, yields, part)? {
        Some(leaves) => {
            let found = wanted(alloc, modes, sort, want, &leaves)?;
            Ok(Finding::Mode(found))
        }
        None => Ok(Finding::Mode(None)),
    }
}

// Finds the name of an identity relation: first one to which the left side leads softly.
fn name_found(
    alloc: Global,
    modes: &ModeTable,
    left: &[Leaf],
    right: &[Leaf],
) -> Result<Option<ModeId>, NoMemory>
    requires left { All (IsLeafBelow (length modes.now)) left.now }
    requires right { All (IsLeafBelow (length modes.now)) right.now }
    requires few_left { length left.now < 2 ^ 32 }
    requires few_right { length right.now < 2 ^ 32 }
    ensures found { IfOk result (IsNameFound modes.now left.now right.now) }
    ensures there { IfOk result (λ found. IfSome found (λ m. m < length modes.now)) }
{
    if let Some(balanced) = balance_sides(alloc, modes.modes(), modes.classes(), left, right)? {
        return Ok(Some(modes.node_of(balanced.mode)));
    }
    match balance_sides(alloc, modes.modes(), modes.classes(), right, left)? {
        Some(balanced) => Ok(Some(modes.node_of(balanced.mode))),
        None => Ok(None),
    }
}

// Finds the name of an identity relation between two nodes.
fn sides_found(
    alloc: Global,
    tree: &Tree,
    modes: &ModeTable,
    of: &NodeModes,
    yields: &[Yielding],
    node: NodeId,
    left: NodeId,
    right: NodeId,
) -> Result<Finding, NoMemory>
    requires ahead { AreAhead (length tree.now.nodes) yields.now }
    requires long { length yields.now ≡ length tree.now.nodes }
    requires units { AreUnitsBelow (length modes.now) yields.now }
    ensures found { IfOk result (IsFound tree.now modes.now of.now yields.now node (Sought.Sides left right)) }
    ensures there { IfOk result (IsFindingBelow (length modes.now)) }
{
    let _of = of;
    let Some(one) = leaves_of(alloc, tree, yields, left)? else {
        return Ok(Finding::Mode(None));
    };
    let Some(other) = leaves_of(alloc, tree, yields, right)? else {
        return Ok(Finding::Mode(None));
    };
    let found = name_found(alloc, modes, &one, &other)?;
    Ok(Finding::Mode(found))
}

// Finds the operator of a formula for these operands.
fn operator_found(
    alloc: Global,
    tree: &Tree,
    ranges: &Ranges,
    modes: &ModeTable,
    of: &OperatorModes<'_>,
    node: NodeId,
    operands: &[&[Leaf]],
) -> Result<Option<Identified>, NoMemory>
    requires node { node < length tree.now.nodes }
    requires ranges { AreRanges tree.now ranges.now }
    requires of { NumbersAreThere tree.now modes.now of.now.of }
    requires listed { AreListed tree.now of.now }
    requires leaves { All (λ o. All (IsLeafBelow (length modes.now)) o.now) operands.now }
    requires few { All (λ o. length o.now < 2 ^ 32) operands.now }
    requires count { length operands.now < 2 ^ 32 }
    ensures found { IfOk result (IsOperatorFound tree.now modes.now of.now.of node (map (λ o. o.now) operands.now)) }
    ensures there { IfOk result (λ found. IfSome found (IsOperatorBelow (length modes.now))) }
{
    let shapes = modes.modes();
    let found = identify(
        alloc,
        tree,
        ranges,
        shapes,
        modes.classes(),
        of,
        node,
        operands,
    )?;
    Ok(found)
}

// Finds the operator of a formula of one operand.
fn monadic_found(
    alloc: Global,
    tree: &Tree,
    ranges: &Ranges,
    modes: &ModeTable,
    of: &OperatorModes<'_>,
    yields: &[Yielding],
    node: NodeId,
    operand: NodeId,
) -> Result<Finding, NoMemory>
    requires node { node < length tree.now.nodes }
    requires ranges { AreRanges tree.now ranges.now }
    requires of { NumbersAreThere tree.now modes.now of.now.of }
    requires listed { AreListed tree.now of.now }
    requires ahead { AreAhead (length tree.now.nodes) yields.now }
    requires long { length yields.now ≡ length tree.now.nodes }
    requires units { AreUnitsBelow (length modes.now) yields.now }
    ensures found { IfOk result (IsFound tree.now modes.now of.now.of yields.now node (Sought.Monadic operand)) }
    ensures there { IfOk result (IsFindingBelow (length modes.now)) }
{
    let Some(leaves) = leaves_of(alloc, tree, yields, operand)? else {
        return Ok(Finding::Operator(None));
    };
    let found = operator_found(alloc, tree, ranges, modes, of, node, &[&leaves])?;
    Ok(Finding::Operator(found))
}

// Finds the operator of a formula of two operands.
fn dyadic_found(
    alloc: Global,
    tree: &Tree,
    ranges: &Ranges,
    modes: &ModeTable,
    of: &OperatorModes<'_>,
    yields: &[Yielding],
    node: NodeId,
    left: NodeId,
    right: NodeId,
) -> Result<Finding, NoMemory>
    requires node { node < length tree.now.nodes }
    requires ranges { AreRanges tree.now ranges.now }
    requires of { NumbersAreThere tree.now modes.now of.now.of }
    requires listed { AreListed tree.now of.now }
    requires ahead { AreAhead (length tree.now.nodes) yields.now }
    requires long { length yields.now ≡ length tree.now.nodes }
    requires units { AreUnitsBelow (length modes.now) yields.now }
    ensures found { IfOk result (IsFound tree.now modes.now of.now.of yields.now node (Sought.Dyadic left right)) }
    ensures there { IfOk result (IsFindingBelow (length modes.now)) }
{
    let Some(one) = leaves_of(alloc, tree, yields, left)? else {
        return Ok(Finding::Operator(None));
    };
    let Some(other) = leaves_of(alloc, tree, yields, right)? else {
        return Ok(Finding::Operator(None));
    };
    let found = operator_found(alloc, tree, ranges, modes, of, node, &[&one, &other])?;
    Ok(Finding::Operator(found))
}

/// Finds what is looked for at a node.
pub fn found_at(
    alloc: Global,
    tree: &Tree,
    ranges: &Ranges,
    modes: &ModeTable,
    of: &OperatorModes<'_>,
    yields: &[Yielding],
    node: NodeId,
    sought: Sought,
) -> Result<Finding, NoMemory>
    requires node { node < length tree.now.nodes }
    requires ranges { AreRanges tree.now ranges.now }
    requires of { NumbersAreThere tree.now modes.now of.now.of }
    requires listed { AreListed tree.now of.now }
    requires ahead { AreAhead (length tree.now.nodes) yields.now }
    requires long { length yields.now ≡ length tree.now.nodes }
    requires units { AreUnitsBelow (length modes.now) yields.now }
    requires sought { IsSoughtBelow (length modes.now) sought }
    ensures found { IfOk result (IsFound tree.now modes.now of.now.of yields.now node sought) }
    ensures there { IfOk result (IsFindingBelow (length modes.now)) }
{
    let declared = of.declared();
    match sought {
        Sought::Nothing => Ok(Finding::Nothing),
        Sought::Part(sort, want, part) => {
            part_found(alloc, tree, modes, declared, yields, node, sort, want, part)
        }
        Sought::Sides(left, right) => {
            sides_found(alloc, tree, modes, declared, yields, node, left, right)
        }
        Sought::Monadic(operand) => {
            monadic_found(alloc, tree, ranges, modes, of, yields, node, operand)
        }
        Sought::Dyadic(left, right) => {
            dyadic_found(alloc, tree, ranges, modes, of, yields, node, left, right)
        }
    }
}
