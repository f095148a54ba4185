//! The operator of a formula.
ghost use Rattle.std.specs.Prelude.{◌<◌, ◌↔◌, ◌^◌, ℕ, List, IfOk, IsTrue, MatchOption, length, map};
ghost use Rattle.std.specs.List.{All};
ghost use Rattle.a68_coerce.specs.Below.{IsLeafBelow};
ghost use Rattle.a68_equiv.specs.Classes.{AreExact};
ghost use Rattle.a68_equiv.specs.Dimensions.{HaveDimensions};
ghost use Rattle.a68_equiv.specs.Ways.{AreWellFormed};
ghost use Rattle.a68_identify.specs.Apart.{AreMet};
ghost use Rattle.a68_identify.specs.Identified.{DefinitionFits, IsFirstThatHolds, IsLow, IsOperator, IsOwn, StandardFits};
ghost use Rattle.a68_identify.specs.Operators.{AreListed, NumbersAreThere};
ghost use Rattle.a68_ranges.specs.Nodes.{name_at};
ghost use Rattle.a68_ranges.specs.Surroundings.{Lies};
ghost use Rattle.a68_ranges.specs.Tables.{AreRanges};

use crate::apart::Met;
use crate::fitting::{all_fit, all_met};
use crate::listed::{OperatorModes, parameters_of};
use crate::reading::defines_sign;
use a68_base::NoMemory;
use a68_coerce::Leaf;
use a68_equiv::Classes;
use a68_modes::Modes;
use a68_ranges::Ranges;
use a68_signs::{Operator, candidates};
use a68_tree::{NodeId, Tree};
use std::alloc::Global;

/// The operator of a formula: an OpDefinition of the text, or an operator of the standard environ.
#[derive(Clone, Copy, Debug, PartialEq, Eq)]
pub enum Identified {
    Declared(NodeId),
    Standard(Operator),
}

/// A formula: its node, its sign, the units that its operands may yield, and what these meet.
#[derive(Clone, Copy)]
struct Formula<'a, 'm> {
    at: NodeId,
    sign: u32,
    operands: &'a [&'a [Leaf]],
    mets: &'m [Met],
}

/// Do the operands fit the parameters of an operator definition of the sign?
fn definition_fits(
    alloc: Global,
    tree: &Tree,
    modes: &Modes,
    classes: &Classes,
    of: &OperatorModes<'_>,
    formula: &Formula<'_, '_>,
    definition: NodeId,
) -> Result<bool, NoMemory>
    requires formed { AreWellFormed modes.now }
    requires rows { HaveDimensions modes.now }
    requires exact { AreExact modes.now classes.now.of }
    requires of { NumbersAreThere tree.now modes.now of.now.of }
    requires listed { AreListed tree.now of.now }
    requires leaves { All (λ o. All (IsLeafBelow (length modes.now)) o.now) formula.now.operands.now }
    requires few { All (λ o. length o.now < 2 ^ 32) formula.now.operands.now }
    requires mets { AreMet modes.now classes.now.of (map (λ o. o.now) formula.now.operands.now) formula.now.mets.now }
    ensures { IfOk result (λ fits. IsTrue fits ↔ DefinitionFits tree.now modes.now of.now.of formula.now.sign (map (λ o. o.now) formula.now.operands.now) definition) }
{
    if !defines_sign(tree, formula.sign, definition) {
        return Ok(false);
    }
    let _there = modes.len();
    let parameters = parameters_of(tree, of, definition);
    let fits = all_fit(
        alloc,
        modes,
        classes,
        formula.operands,
        formula.mets,
        parameters,
    )?;
    Ok(fits)
}

/// Finds the first of these definitions that fits.
fn first_definition(
    alloc: Global,
    tree: &Tree,
    modes: &Modes,
    classes: &Classes,
    of: &OperatorModes<'_>,
    formula: &Formula<'_, '_>,
    list: &[NodeId],
) -> Result<Option<NodeId>, NoMemory>
    requires formed { AreWellFormed modes.now }
    requires rows { HaveDimensions modes.now }
    requires exact { AreExact modes.now classes.now.of }
    requires of { NumbersAreThere tree.now modes.now of.now.of }
    requires listed { AreListed tree.now of.now }
    requires leaves { All (λ o. All (IsLeafBelow (length modes.now)) o.now) formula.now.operands.now }
    requires few { All (λ o. length o.now < 2 ^ 32) formula.now.operands.now }
    requires mets { AreMet modes.now classes.now.of (map (λ o. o.now) formula.now.operands.now) formula.now.mets.now }
    ensures { IfOk result (IsFirstThatHolds (DefinitionFits tree.now modes.now of.now.of formula.now.sign (map (λ o. o.now) formula.now.operands.now)) list.now) }
{
    for definition in list {
        if definition_fits(alloc, tree, modes, classes, of, formula, *definition)? {
            return Ok(Some(*definition));
        }
    }
    Ok(None)
}

/// Finds the first definition that fits in the innermost range about the formula that has one.
fn own(
    alloc: Global,
    tree: &Tree,
    ranges: &Ranges,
    modes: &Modes,
    classes: &Classes,
    of: &OperatorModes<'_>,
    formula: &Formula<'_, '_>,
) -> Result<Option<NodeId>, NoMemory>
    requires at { formula.now.at < length tree.now.nodes }
    requires ranges { AreRanges tree.now ranges.now }
    requires formed { AreWellFormed modes.now }
    requires rows { HaveDimensions modes.now }
    requires exact { AreExact modes.now classes.now.of }
    requires of { NumbersAreThere tree.now modes.now of.now.of }
    requires listed { AreListed tree.now of.now }
    requires leaves { All (λ o. All (IsLeafBelow (length modes.now)) o.now) formula.now.operands.now }
    requires few { All (λ o. length o.now < 2 ^ 32) formula.now.operands.now }
    requires mets { AreMet modes.now classes.now.of (map (λ o. o.now) formula.now.operands.now) formula.now.mets.now }
    ensures { IfOk result (λ found. (about : List ℕ) → Lies tree.now formula.now.at about → IsOwn tree.now modes.now of.now.of formula.now.sign (map (λ o. o.now) formula.now.operands.now) about found) }
{
    let mut next = ranges.about(formula.at);
    'outwards: while let Some(number) = next {
        let layer = ranges.layer(number);
        let list = ranges.operators(layer.range, formula.sign);
        let found = first_definition(alloc, tree, modes, classes, of, formula, list)?;
        if found.is_some() {
            return Ok(found);
        }
        next = layer.outer;
    }
    Ok(None)
}

/// Do the operands fit the parameters of a standard operator?
fn standard_fits(
    alloc: Global,
    modes: &Modes,
    classes: &Classes,
    operands: &[&[Leaf]],
    mets: &[Met],
    operator: Operator,
) -> Result<bool, NoMemory>
    requires formed { AreWellFormed modes.now }
    requires rows { HaveDimensions modes.now }
    requires exact { AreExact modes.now classes.now.of }
    requires leaves { All (λ o. All (IsLeafBelow (length modes.now)) o.now) operands.now }
    requires few { All (λ o. length o.now < 2 ^ 32) operands.now }
    requires mets { AreMet modes.now classes.now.of (map (λ o. o.now) operands.now) mets.now }
    requires low { IsLow operator }
    ensures { IfOk result (λ fits. IsTrue fits ↔ StandardFits modes.now (map (λ o. o.now) operands.now) operator) }
{
    let _there = modes.len();
    let fits = if operands.len() < 2 {
        all_fit(alloc, modes, classes, operands, mets, &[operator.right])?
    } else {
        all_fit(
            alloc,
            modes,
            classes,
            operands,
            mets,
            &[operator.left, operator.right],
        )?
    };
    Ok(fits)
}

/// Finds the first of these standard operators that fits.
fn first_standard(
    alloc: Global,
    modes: &Modes,
    classes: &Classes,
    operands: &[&[Leaf]],
    mets: &[Met],
    operators: &[Operator],
) -> Result<Option<Operator>, NoMemory>
    requires formed { AreWellFormed modes.now }
    requires rows { HaveDimensions modes.now }
    requires exact { AreExact modes.now classes.now.of }
    requires leaves { All (λ o. All (IsLeafBelow (length modes.now)) o.now) operands.now }
    requires few { All (λ o. length o.now < 2 ^ 32) operands.now }
    requires mets { AreMet modes.now classes.now.of (map (λ o. o.now) operands.now) mets.now }
    requires low { All IsLow operators.now }
    ensures { IfOk result (IsFirstThatHolds (StandardFits modes.now (map (λ o. o.now) operands.now)) operators.now) }
{
    for operator in operators {
        if standard_fits(alloc, modes, classes, operands, mets, *operator)? {
            return Ok(Some(*operator));
        }
    }
    Ok(None)
}

/// Finds the operator that a formula applies to operands which may yield these leaves: one list for a formula of one
/// operand, two for one of two. It is the first fitting definition in the innermost range about the formula that has one;
/// else the first fitting operator of the standard environ, in the order of its table. None exactly where there is neither.
///
/// The modes of the parameters are listed beforehand. An operand fits a parameter where it is balanced firmly to its mode (3.2.1); for LWB and UPB where it is balanced weakly
/// to a row or the name of one.
pub fn identify(
    alloc: Global,
    tree: &Tree,
    ranges: &Ranges,
    modes: &Modes,
    classes: &Classes,
    of: &OperatorModes<'_>,
    at: NodeId,
    operands: &[&[Leaf]],
) -> Result<Option<Identified>, NoMemory>
    requires at { at < length tree.now.nodes }
    requires ranges { AreRanges tree.now ranges.now }
    requires formed { AreWellFormed modes.now }
    requires rows { HaveDimensions modes.now }
    requires exact { AreExact modes.now classes.now.of }
    requires of { NumbersAreThere tree.now modes.now of.now.of }
    requires listed { AreListed tree.now of.now }
    requires leaves { All (λ o. All (IsLeafBelow (length modes.now)) o.now) operands.now }
    requires few { All (λ o. length o.now < 2 ^ 32) operands.now }
    requires count { length operands.now < 2 ^ 32 }
    ensures { IfOk result (λ found. MatchOption found ((any : Identified) → IsOperator tree.now modes.now of.now.of at (name_at tree.now at) (map (λ o. o.now) operands.now) any → ⊥) (IsOperator tree.now modes.now of.now.of at (name_at tree.now at) (map (λ o. o.now) operands.now))) }
{
    let sign = tree.node(at).name;
    let mets = all_met(alloc, modes, classes, operands)?;
    let formula = Formula {
        at,
        sign,
        operands,
        mets: &mets,
    };
    if let Some(definition) = own(alloc, tree, ranges, modes, classes, of, &formula)? {
        return Ok(Some(Identified::Declared(definition)));
    }
    let standard = candidates(tree.spelling(sign), operands.len() as u32);
    if let Some(operator) = first_standard(alloc, modes, classes, operands, &mets, standard)? {
        return Ok(Some(Identified::Standard(operator)));
    }
    Ok(None)
}
