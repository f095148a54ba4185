//! The operands and the signs of a formula.
ghost use Rattle.std.specs.Prelude.{◌≡◌, ◌≤◌, ◌+◌, ◌<◌, ◌^◌, List, false, true, length, IfOk, IfSome, IfNone};
ghost use Rattle.a68_op_ident.specs.Formulas as formulas;
ghost use Rattle.a68_op_ident.specs.Formulas.{EachOf, IsToken, ReadsParts, HasItsPriority};
ghost use Rattle.a68_op_ident.specs.declared.formula.FormulaPart.{FormulaPart as Part};
ghost use Rattle.a68_ranges.specs.Tables.{AreRanges};
ghost use Rattle.a68_tree.specs.Trees.{Built};

use crate::{FormulaPart, Operand, Sign};
use a68_base::NoMemory;
use a68_ranges::Ranges;
use a68_tree::{Node, NodeId, NodeKind};
use std::alloc::Global;

fn is_sign(kind: NodeKind) -> bool
    ensures { result ≡ formulas.is_sign kind }
{
    matches!(kind, NodeKind::Sign)
}

// The operand that stands at a node.
fn operand_at(nodes: &[Node], id: NodeId) -> Option<Operand>
    ensures { result ≡ formulas.operand_at nodes.now id }
{
    let Some(node) = nodes.get(id as usize) else {
        return None;
    };
    if is_sign(node.kind) {
        None
    } else {
        Some(Operand {
            id,
            span: node.span,
        })
    }
}

// The sign that stands at a node.
fn sign_at(nodes: &[Node], id: NodeId) -> Option<Sign>
    ensures { result ≡ formulas.sign_at nodes.now id }
{
    let Some(node) = nodes.get(id as usize) else {
        return None;
    };
    if is_sign(node.kind) {
        Some(Sign {
            id,
            name: node.name,
            from: node.span.from,
        })
    } else {
        None
    }
}

// The sign of a part, where that is the next one to come.
fn next_sign(nodes: &[Node], from: NodeId, part: NodeId) -> Option<Sign>
    ensures { result ≡ formulas.next_sign nodes.now from part }
{
    if part == from {
        sign_at(nodes, part)
    } else {
        None
    }
}

// The part of a formula that begins an operand.
fn first_token(nodes: &[Node], from: NodeId, part: NodeId) -> Option<FormulaPart>
    ensures is { IfSome result (λ t. IsToken nodes.now from false part t) }
    ensures none { IfNone result ((t : Part) → IsToken nodes.now from false part t → ⊥) }
    ensures free { (tree : Built) → IfSome result (λ t. HasItsPriority tree t) }
{
    match operand_at(nodes, part) {
        Some(operand) => Some(FormulaPart::Operand(operand)),
        None => match next_sign(nodes, from, part) {
            Some(sign) => Some(FormulaPart::Monad(sign)),
            None => None,
        },
    }
}

// The part of a formula that stands behind an operand.
fn next_token(nodes: &[Node], ranges: &Ranges, from: NodeId, part: NodeId) -> Option<FormulaPart>
    requires { length nodes.now ≤ length ranges.now.nests.about }
    ensures is { IfSome result (λ t. IsToken nodes.now from true part t) }
    ensures none { IfNone result ((t : Part) → IsToken nodes.now from true part t → ⊥) }
    ensures ranked { (tree : Built) → AreRanges tree ranges.now → IfSome result (λ t. HasItsPriority tree t) }
{
    match next_sign(nodes, from, part) {
        Some(sign) => {
            let priority = ranges.priority(sign.id, sign.name);
            Some(FormulaPart::Dyad(sign, priority))
        }
        None => None,
    }
}

// The part of a formula that stands behind an operand, or begins one.
fn token_at(
    nodes: &[Node],
    ranges: &Ranges,
    from: NodeId,
    after_operand: bool,
    part: NodeId,
) -> Option<FormulaPart>
    requires { length nodes.now ≤ length ranges.now.nests.about }
    ensures is { IfSome result (λ t. IsToken nodes.now from after_operand part t) }
    ensures none { IfNone result ((t : Part) → IsToken nodes.now from after_operand part t → ⊥) }
    ensures ranked { (tree : Built) → AreRanges tree ranges.now → IfSome result (λ t. HasItsPriority tree t) }
{
    if after_operand {
        next_token(nodes, ranges, from, part)
    } else {
        first_token(nodes, from, part)
    }
}

fn is_operand(token: FormulaPart) -> bool
    ensures { result ≡ formulas.is_operand token }
{
    matches!(token, FormulaPart::Operand(_))
}

fn signs_of(token: FormulaPart) -> u32
    ensures { result ≡ formulas.signs_of token }
{
    match token {
        FormulaPart::Operand(_) => 0,
        FormulaPart::Monad(_) => 1,
        FormulaPart::Dyad(_, _) => 1,
    }
}

/// The operands and signs of a formula of these parts. None where its parts are not such.
pub fn tokens(
    alloc: Global,
    nodes: &[Node],
    ranges: &Ranges,
    parts: &[NodeId],
    formula: NodeId,
) -> Result<Option<Vec<FormulaPart>>, NoMemory>
    requires there { formula < length nodes.now }
    requires few { length nodes.now < 2 ^ 32 }
    requires ranges { length nodes.now ≤ length ranges.now.nests.about }
    ensures none { IfOk result (λ found. IfNone found ((ts : List Part) → ReadsParts nodes.now (formula + 1) false parts.now ts → ⊥)) }
    ensures reads { IfOk result (λ found. IfSome found (λ ts. ReadsParts nodes.now (formula + 1) false parts.now ts.items)) }
    ensures ranked { IfOk result (λ found. IfSome found (λ ts. (tree : Built) → AreRanges tree ranges.now → EachOf (HasItsPriority tree) ts.items)) }
{
    let mut tokens = Vec::new(alloc);
    let mut from = formula + 1;
    let mut after_operand = false;
    for i in 0..parts.len() {
        let Some(token) = token_at(nodes, ranges, from, after_operand, parts[i]) else {
            return Ok(None);
        };
        from += signs_of(token);
        after_operand = is_operand(token);
        tokens.push(token)?;
    }
    if after_operand {
        Ok(Some(tokens))
    } else {
        Ok(None)
    }
}
