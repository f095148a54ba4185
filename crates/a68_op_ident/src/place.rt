//! The nodes of a formula.
ghost use Rattle.std.specs.Prelude.{◌≡◌, ◌≤◌, ◌<◌, ◌+◌, ◌^◌, false, length, take, drop, vec_len, slice_set, IfOk, OnOk};
ghost use Rattle.a68_op_ident.specs.Formulas as formulas;
ghost use Rattle.a68_op_ident.specs.Formulas.{EachOf, IsRanked, Placed, signs, monadic_node, dyadic_node, standing};
ghost use Rattle.a68_op_ident.specs.Inner as inner;
ghost use Rattle.a68_op_ident.specs.Inner.{Alternates, IsRoot, Same, StandsBetween};

use crate::{FormulaPart, Operand, Sign};
use a68_base::{NoMemory, Span};
use a68_tree::{Node, NodeId, NodeKind, Parts};
use std::alloc::Global;

/// What stands over a formula whose nodes are placed, and the number behind these nodes.
#[derive(Clone, Copy)]
pub struct Placement {
    pub top: Operand,
    pub next: NodeId,
}

// The priority of a dyadic sign.
fn priority_of(token: FormulaPart) -> Option<u32>
    ensures { result ≡ formulas.priority_of token }
{
    match token {
        FormulaPart::Operand(_) => None,
        FormulaPart::Monad(_) => None,
        FormulaPart::Dyad(_, priority) => priority,
    }
}

// Does a sign of that priority stand over one before it? Of equal priorities the later one does.
fn stands_over(priority: Option<u32>, earlier: Option<u32>) -> bool
    ensures { result ≡ inner.stands_over priority earlier }
{
    match priority {
        None => false,
        Some(p) => match earlier {
            None => true,
            Some(q) => p <= q,
        },
    }
}

// Which token stands over all others up to one, where that is known of those before it.
fn root_to(tokens: &[FormulaPart], root: usize, k: usize) -> usize
    requires order { root < k }
    requires there { k < length tokens.now }
    ensures { IsRoot tokens.now k root → IsRoot tokens.now (k + 1) result }
{
    if stands_over(priority_of(tokens[k]), priority_of(tokens[root])) {
        return k;
    }
    root
}

// Which token stands over all others: the last dyadic sign of the lowest priority; where there is none, the first token.
fn root(tokens: &[FormulaPart]) -> usize
    requires { 0 < length tokens.now }
    ensures { IsRoot tokens.now (length tokens.now) result }
{
    let mut root = 0;
    for k in 1..tokens.len() {
        root = root_to(tokens, root, k);
    }
    root
}

// The tokens before a place.
fn before(tokens: &[FormulaPart], place: usize) -> &[FormulaPart]
    requires { place < length tokens.now }
    ensures are { result.now ≡ take place tokens.now }
    ensures fewer { length result.now < length tokens.now }
{
    &tokens[..place]
}

// The tokens behind a place.
fn behind(tokens: &[FormulaPart], place: usize) -> &[FormulaPart]
    requires { place < length tokens.now }
    ensures are { result.now ≡ drop (place + 1) tokens.now }
    ensures fewer { length result.now < length tokens.now }
{
    &tokens[place + 1..]
}

// Puts the node of a monadic sign.
fn put_monadic(
    alloc: Global,
    nodes: &mut Vec<Node>,
    sign: Sign,
    under: Operand,
    id: NodeId,
) -> Result<Operand, NoMemory>
    requires { id < vec_len nodes.old }
    ensures nodes { OnOk result (nodes.new.items ≡ slice_set nodes.old.items id (monadic_node sign under)) }
    ensures top { IfOk result (λ top. top ≡ standing id (monadic_node sign under)) }
{
    let span = Span {
        from: sign.from,
        to: under.span.to,
    };
    nodes[id as usize] = Node {
        kind: NodeKind::Monadic,
        span,
        name: sign.name,
        parts: Parts {
            items: vec![in alloc; under.id]?,
        },
    };
    Ok(Operand { id, span })
}

// Puts the node of a dyadic sign.
fn put_dyadic(
    alloc: Global,
    nodes: &mut Vec<Node>,
    sign: Sign,
    left: Operand,
    right: Operand,
    id: NodeId,
) -> Result<Operand, NoMemory>
    requires { id < vec_len nodes.old }
    ensures nodes { OnOk result (nodes.new.items ≡ slice_set nodes.old.items id (dyadic_node sign left right)) }
    ensures top { IfOk result (λ top. top ≡ standing id (dyadic_node sign left right)) }
{
    let span = Span {
        from: left.span.from,
        to: right.span.to,
    };
    nodes[id as usize] = Node {
        kind: NodeKind::Dyadic,
        span,
        name: sign.name,
        parts: Parts {
            items: vec![in alloc; left.id, right.id]?,
        },
    };
    Ok(Operand { id, span })
}

/// Puts the nodes of these operands and signs from `id` on. It recurs on what stands below the outermost sign, and seeks
/// that sign each time: the limit of nesting bounds a formula to about a thousand symbols.
pub fn place(
    alloc: Global,
    nodes: &mut Vec<Node>,
    tokens: &[FormulaPart],
    id: NodeId,
) -> Result<Placement, NoMemory>
    requires order { Alternates false tokens.now }
    requires ranked { EachOf IsRanked tokens.now }
    requires room { id + signs tokens.now < vec_len nodes.old }
    requires few { vec_len nodes.old < 2 ^ 32 }
    ensures placed { IfOk result (λ done. Placed nodes.new.items tokens.now id done.next done.top) }
    ensures next { IfOk result (λ done. done.next ≡ id + signs tokens.now) }
    ensures same { IfOk result (λ done. Same nodes.old.items nodes.new.items id (id + signs tokens.now)) }
{
    let root = root(tokens);
    match tokens[root] {
        FormulaPart::Operand(operand) => Ok(Placement {
            top: operand,
            next: id,
        }),
        FormulaPart::Monad(sign) => {
            let under = place(alloc, nodes, behind(tokens, root), id + 1)?;
            let top = put_monadic(alloc, nodes, sign, under.top, id)?;
            Ok(Placement {
                top,
                next: under.next,
            })
        }
        FormulaPart::Dyad(sign, _) => {
            let left = place(alloc, nodes, before(tokens, root), id + 1)?;
            let right = place(alloc, nodes, behind(tokens, root), left.next)?;
            let top = put_dyadic(alloc, nodes, sign, left.top, right.top, id)?;
            Ok(Placement {
                top,
                next: right.next,
            })
        }
    }
}
