//! Related operators of one range.
ghost use Rattle.std.specs.Prelude.{◌≡◌, ◌<◌, ◌↔◌, ℕ, IfOk, IsTrue, length};
ghost use Rattle.std.specs.List.{All, Contains};
ghost use Rattle.a68_equiv.specs.Classes.{AreExact};
ghost use Rattle.a68_equiv.specs.Related.{AreRelated};
ghost use Rattle.a68_equiv.specs.Ways.{AreWellFormed};
ghost use Rattle.a68_identify.specs.Operators.{AreListed, AreRelatedOperators, NumbersAreThere, IsRelatedAt, IsRelatedBefore, IsRelatedIn, IsRelatedPair, IsRelatedTo};
ghost use Rattle.a68_identify.specs.Pairs.{Pairwise};
ghost use Rattle.a68_ranges.specs.Indexed.{IsLeast};
ghost use Rattle.a68_ranges.specs.Tables.{AreRanges};

use crate::apart::are_apart;
use crate::listed::{OperatorModes, parameters_of};
use crate::reading::{declared_by, defines_sign, earlier, name_of};
use a68_base::NoMemory;
use a68_declare::NodeModes;
use a68_equiv::{Classes, related};
use a68_modes::{ModeId, Modes};
use a68_ranges::Ranges;
use a68_tree::{NodeId, Tree};
use std::alloc::Global;

/// Are two modes related?
fn are_related(
    alloc: Global,
    modes: &Modes,
    classes: &Classes,
    one: ModeId,
    other: ModeId,
) -> Result<bool, NoMemory>
    requires formed { AreWellFormed modes.now }
    requires exact { AreExact modes.now classes.now.of }
    requires one { one < length modes.now }
    requires other { other < length modes.now }
    ensures { IfOk result (λ are. IsTrue are ↔ AreRelated modes.now one other) }
{
    if are_apart(modes, classes, one, other) {
        return Ok(false);
    }
    let are = related(alloc, modes, classes, one, other)?;
    Ok(are)
}

/// Are there as many of the ones as of the others, and is each firmly related to its like?
fn all_related(
    alloc: Global,
    modes: &Modes,
    classes: &Classes,
    ones: &[ModeId],
    others: &[ModeId],
) -> Result<bool, NoMemory>
    requires formed { AreWellFormed modes.now }
    requires exact { AreExact modes.now classes.now.of }
    requires ones { All (λ m. m < length modes.now) ones.now }
    requires others { All (λ m. m < length modes.now) others.now }
    ensures { IfOk result (λ are. IsTrue are ↔ Pairwise (AreRelated modes.now) ones.now others.now) }
{
    if ones.len() != others.len() {
        return Ok(false);
    }
    for i in 0..ones.len() {
        if !are_related(alloc, modes, classes, ones[i], others[i])? {
            return Ok(false);
        }
    }
    Ok(true)
}

/// The sign of an operator, and the modes of its parameters.
#[derive(Clone, Copy)]
struct Signature<'a> {
    sign: u32,
    parameters: &'a [ModeId],
}

/// Is it an operator definition of that sign, with as many parameters, each related to its like?
fn is_related_to(
    alloc: Global,
    tree: &Tree,
    modes: &Modes,
    classes: &Classes,
    of: &OperatorModes<'_>,
    signature: &Signature<'_>,
    one: NodeId,
) -> Result<bool, NoMemory>
    requires formed { AreWellFormed modes.now }
    requires exact { AreExact modes.now classes.now.of }
    requires of { NumbersAreThere tree.now modes.now of.now.of }
    requires listed { AreListed tree.now of.now }
    requires parameters { All (λ m. m < length modes.now) signature.now.parameters.now }
    ensures { IfOk result (λ is. IsTrue is ↔ IsRelatedTo tree.now modes.now of.now.of signature.now.sign signature.now.parameters.now one) }
{
    if !defines_sign(tree, signature.sign, one) {
        return Ok(false);
    }
    let _there = modes.len();
    let ones = parameters_of(tree, of, one);
    let are = all_related(alloc, modes, classes, ones, signature.parameters)?;
    Ok(are)
}

/// Is one of these definitions such a one?
fn any_related_to(
    alloc: Global,
    tree: &Tree,
    modes: &Modes,
    classes: &Classes,
    of: &OperatorModes<'_>,
    signature: &Signature<'_>,
    before: &[NodeId],
) -> Result<bool, NoMemory>
    requires formed { AreWellFormed modes.now }
    requires exact { AreExact modes.now classes.now.of }
    requires of { NumbersAreThere tree.now modes.now of.now.of }
    requires listed { AreListed tree.now of.now }
    requires parameters { All (λ m. m < length modes.now) signature.now.parameters.now }
    ensures { IfOk result (λ any. IsTrue any ↔ ((one : ℕ) × Contains before.now one × IsRelatedTo tree.now modes.now of.now.of signature.now.sign signature.now.parameters.now one)) }
{
    for one in before {
        if is_related_to(alloc, tree, modes, classes, of, signature, *one)? {
            return Ok(true);
        }
    }
    Ok(false)
}

/// Is one of these definitions related to that one?
fn is_late(
    alloc: Global,
    tree: &Tree,
    modes: &Modes,
    classes: &Classes,
    of: &OperatorModes<'_>,
    before: &[NodeId],
    later: NodeId,
) -> Result<bool, NoMemory>
    requires formed { AreWellFormed modes.now }
    requires exact { AreExact modes.now classes.now.of }
    requires of { NumbersAreThere tree.now modes.now of.now.of }
    requires listed { AreListed tree.now of.now }
    ensures { IfOk result (λ late. IsTrue late ↔ ((one : ℕ) × Contains before.now one × AreRelatedOperators tree.now modes.now of.now.of one later)) }
{
    let _there = modes.len();
    let sign = name_of(tree, later);
    if !defines_sign(tree, sign, later) {
        return Ok(false);
    }
    let parameters = parameters_of(tree, of, later);
    let signature = Signature { sign, parameters };
    let late = any_related_to(alloc, tree, modes, classes, of, &signature, before)?;
    Ok(late)
}

/// Finds the first in the text of the definitions in a list that a related one precedes there.
fn related_in(
    alloc: Global,
    tree: &Tree,
    modes: &Modes,
    classes: &Classes,
    of: &OperatorModes<'_>,
    list: &[NodeId],
) -> Result<Option<NodeId>, NoMemory>
    requires formed { AreWellFormed modes.now }
    requires exact { AreExact modes.now classes.now.of }
    requires of { NumbersAreThere tree.now modes.now of.now.of }
    requires listed { AreListed tree.now of.now }
    ensures { IfOk result (λ found. IsLeast tree.now (IsRelatedIn tree.now modes.now of.now.of list.now (length list.now)) found) }
{
    let mut found = None;
    for (place, later) in list.iter().enumerate() {
        if is_late(alloc, tree, modes, classes, of, &list[..place], *later)? {
            found = earlier(tree, found, Some(*later));
        }
    }
    Ok(found)
}

/// Finds the first in the text of the definitions that related ones precede in their ranges.
fn related_among(
    alloc: Global,
    tree: &Tree,
    ranges: &Ranges,
    modes: &Modes,
    classes: &Classes,
    of: &OperatorModes<'_>,
) -> Result<Option<NodeId>, NoMemory>
    requires ranges { AreRanges tree.now ranges.now }
    requires formed { AreWellFormed modes.now }
    requires exact { AreExact modes.now classes.now.of }
    requires of { NumbersAreThere tree.now modes.now of.now.of }
    requires listed { AreListed tree.now of.now }
    ensures { IfOk result (IsLeast tree.now (IsRelatedPair tree.now modes.now of.now.of)) }
{
    let mut found = None;
    for range in 0..tree.len() {
        let list = declared_by(tree, ranges, range);
        found = earlier(
            tree,
            found,
            related_in(alloc, tree, modes, classes, of, list)?,
        );
    }
    Ok(found)
}

/// Finds the first operator definition in the text that a related one precedes in its range (7.1.1): one of the same sign
/// with as many parameters, each firmly related to its like. None exactly where there is none.
pub fn related_pair(
    alloc: Global,
    tree: &Tree,
    ranges: &Ranges,
    modes: &Modes,
    classes: &Classes,
    of: &NodeModes,
) -> Result<Option<NodeId>, NoMemory>
    requires ranges { AreRanges tree.now ranges.now }
    requires formed { AreWellFormed modes.now }
    requires exact { AreExact modes.now classes.now.of }
    requires of { NumbersAreThere tree.now modes.now of.now }
    ensures { IfOk result (IsLeast tree.now (IsRelatedPair tree.now modes.now of.now)) }
{
    let listed = OperatorModes::new(alloc, tree, of)?;
    let found = related_among(alloc, tree, ranges, modes, classes, &listed)?;
    Ok(found)
}
