//! Operands and the parameters of operators.
ghost use Rattle.std.specs.Prelude.{◌≡◌, ◌≢◌, ◌<◌, ◌↔◌, ◌^◌, ℕ, IfOk, IsTrue, length, map};
ghost use Rattle.std.specs.List.{All};
ghost use Rattle.a68_coerce.specs.Balanced.{BalancesAt, IsFormed};
ghost use Rattle.a68_coerce.specs.Below.{IsLeafBelow};
ghost use Rattle.a68_equiv.specs.Classes.{AreExact};
ghost use Rattle.a68_equiv.specs.Dimensions.{HaveDimensions};
ghost use Rattle.a68_equiv.specs.Ways.{AreWellFormed};
ghost use Rattle.a68_identify.specs.Apart.{AreMet, IsMet};
ghost use Rattle.a68_identify.specs.Identified.{AllFit, OperandFits};

use crate::apart::{Met, is_apart, met_by};
use a68_base::NoMemory;
use a68_coerce::{Leaf, ModeForm, balance, balance_to_form};
use a68_equiv::Classes;
use a68_modes::{ModeId, Modes, Sort};
use std::alloc::Global;

/// The parameter that stands for every row, of LWB and UPB. It has the number of VOID, which is the mode of no parameter.
const EVERY_ROW: ModeId = 0;

/// Is the operand balanced firmly to the mode of a parameter?
fn fits_mode(
    alloc: Global,
    modes: &Modes,
    classes: &Classes,
    leaves: &[Leaf],
    met: &Met,
    parameter: ModeId,
) -> Result<bool, NoMemory>
    requires formed { AreWellFormed modes.now }
    requires rows { HaveDimensions modes.now }
    requires exact { AreExact modes.now classes.now.of }
    requires leaves { All (IsLeafBelow (length modes.now)) leaves.now }
    requires few { length leaves.now < 2 ^ 32 }
    requires met { IsMet modes.now classes.now.of leaves.now met.now.of met.now.classes.keys met.now.union }
    requires parameter { parameter < length modes.now }
    requires mode { parameter ≢ 0 }
    ensures { IfOk result (λ fits. IsTrue fits ↔ OperandFits modes.now leaves.now parameter) }
{
    if is_apart(modes, classes, leaves, met, parameter) {
        return Ok(false);
    }
    let found = balance(alloc, modes, classes, Sort::Firm, leaves, parameter)?;
    Ok(found.is_some())
}

/// Is the operand balanced weakly to a row or the name of one?
fn fits_every_row(
    alloc: Global,
    modes: &Modes,
    classes: &Classes,
    leaves: &[Leaf],
) -> Result<bool, NoMemory>
    requires formed { AreWellFormed modes.now }
    requires rows { HaveDimensions modes.now }
    requires exact { AreExact modes.now classes.now.of }
    requires leaves { All (IsLeafBelow (length modes.now)) leaves.now }
    requires few { length leaves.now < 2 ^ 32 }
    ensures { IfOk result (λ fits. IsTrue fits ↔ OperandFits modes.now leaves.now 0) }
{
    let found = balance_to_form(alloc, modes, classes, Sort::Weak, ModeForm::Row, leaves)?;
    Ok(found.is_some())
}

/// Does the operand fit a parameter?
fn operand_fits(
    alloc: Global,
    modes: &Modes,
    classes: &Classes,
    leaves: &[Leaf],
    met: &Met,
    parameter: ModeId,
) -> Result<bool, NoMemory>
    requires formed { AreWellFormed modes.now }
    requires rows { HaveDimensions modes.now }
    requires exact { AreExact modes.now classes.now.of }
    requires leaves { All (IsLeafBelow (length modes.now)) leaves.now }
    requires few { length leaves.now < 2 ^ 32 }
    requires met { IsMet modes.now classes.now.of leaves.now met.now.of met.now.classes.keys met.now.union }
    requires parameter { parameter < length modes.now }
    ensures { IfOk result (λ fits. IsTrue fits ↔ OperandFits modes.now leaves.now parameter) }
{
    let fits = if parameter == EVERY_ROW {
        fits_every_row(alloc, modes, classes, leaves)?
    } else {
        fits_mode(alloc, modes, classes, leaves, met, parameter)?
    };
    Ok(fits)
}

/// Finds what each operand of a formula meets.
pub fn all_met(
    alloc: Global,
    modes: &Modes,
    classes: &Classes,
    operands: &[&[Leaf]],
) -> Result<Vec<Met>, NoMemory>
    requires formed { AreWellFormed modes.now }
    requires exact { AreExact modes.now classes.now.of }
    requires leaves { All (λ o. All (IsLeafBelow (length modes.now)) o.now) operands.now }
    ensures { IfOk result (λ mets. AreMet modes.now classes.now.of (map (λ o. o.now) operands.now) mets.items) }
{
    let _there = modes.len();
    let mut mets = Vec::new(alloc);
    for leaves in operands {
        mets.push(met_by(alloc, modes, classes, leaves)?)?;
    }
    Ok(mets)
}

/// Are there as many operands as parameters, and does each fit its own?
pub fn all_fit(
    alloc: Global,
    modes: &Modes,
    classes: &Classes,
    operands: &[&[Leaf]],
    mets: &[Met],
    parameters: &[ModeId],
) -> Result<bool, NoMemory>
    requires formed { AreWellFormed modes.now }
    requires rows { HaveDimensions modes.now }
    requires exact { AreExact modes.now classes.now.of }
    requires leaves { All (λ o. All (IsLeafBelow (length modes.now)) o.now) operands.now }
    requires few { All (λ o. length o.now < 2 ^ 32) operands.now }
    requires mets { AreMet modes.now classes.now.of (map (λ o. o.now) operands.now) mets.now }
    requires parameters { All (λ p. p < length modes.now) parameters.now }
    ensures { IfOk result (λ fit. IsTrue fit ↔ AllFit modes.now (map (λ o. o.now) operands.now) parameters.now) }
{
    if operands.len() != parameters.len() {
        return Ok(false);
    }
    for i in 0..operands.len() {
        if !operand_fits(alloc, modes, classes, operands[i], &mets[i], parameters[i])? {
            return Ok(false);
        }
    }
    Ok(true)
}
