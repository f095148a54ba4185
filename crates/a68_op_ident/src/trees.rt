//! Trees whose formulas are shaped.
ghost use Rattle.std.specs.Prelude.{◌≡◌, ◌≤◌, ◌<◌, ℕ, length, vec_len, slice_get, Some, IfOk, IfErr};
ghost use Rattle.a68_base.specs.declared.refusal.Refusal.{Refusal as Why};
ghost use Rattle.a68_op_ident.specs.Formulas as formulas;
ghost use Rattle.a68_op_ident.specs.Inner.{Going, IsLatePlace, IsLeastNumber, IsOrdered};
ghost use Rattle.a68_op_ident.specs.Lacking.{IsUnshaped};
ghost use Rattle.a68_op_ident.specs.Shapes.{Shaped, IsBegun};
ghost use Rattle.a68_ranges.specs.Tables.{AreRanges};
ghost use Rattle.a68_ranges.specs.Twice.{IsTwice, StopsBy};
ghost use Rattle.a68_tree.specs.Trees.{Built};
ghost use Rattle.a68_tree.specs.declared.node.Node.{Node as NodeValue};

use crate::lacking::{first_late, lesser};
use crate::place::place;
use crate::reading::tokens;
use a68_base::{NoMemory, Refusal, Rule, Stop};
use a68_ranges::{Ranges, priorities_are_one};
use a68_tree::{Node, NodeId, NodeKind, Tree};
use std::alloc::Global;

/// The node with which shaping goes on, and the first place of a sign without a priority that was met.
#[derive(Clone, Copy)]
pub struct ShapingStep {
    pub next: NodeId,
    pub late: Option<u32>,
}

fn is_formula(kind: NodeKind) -> bool
    ensures { result ≡ formulas.is_formula kind }
{
    matches!(kind, NodeKind::Formula)
}

// Shapes the formula at a node, if one stands there that can be read and whose signs have priorities.
fn shape_at(
    alloc: Global,
    nodes: &mut Vec<Node>,
    ranges: &Ranges,
    id: NodeId,
) -> Result<ShapingStep, NoMemory>
    requires there { id < vec_len nodes.old }
    requires ordered { IsOrdered nodes.old.items }
    requires ranges { vec_len nodes.old ≤ length ranges.now.nests.about }
    ensures going { IfOk result (λ step. (flat : Built) → AreRanges flat ranges.now → Going flat nodes.old.items id → Going flat nodes.new.items step.next) }
    ensures late { IfOk result (λ step. (flat : Built) → AreRanges flat ranges.now → Going flat nodes.old.items id → IsLeastNumber (IsLatePlace flat id step.next) step.late) }
    ensures onward { IfOk result (λ step. (id < step.next) × (step.next ≤ vec_len nodes.new) × (vec_len nodes.new ≡ vec_len nodes.old)) }
{
    let on = ShapingStep {
        next: id + 1,
        late: None,
    };
    let node = &nodes[id as usize];
    if !is_formula(node.kind) {
        return Ok(on);
    }
    let Some(tokens) = tokens(alloc, nodes, ranges, &node.parts.items, id)? else {
        return Ok(on);
    };
    match first_late(&tokens) {
        Some(place) => Ok(ShapingStep {
            next: id + 1,
            late: Some(place),
        }),
        None => {
            let placed = place(alloc, nodes, &tokens, id)?;
            Ok(ShapingStep {
                next: placed.next + 1,
                late: None,
            })
        }
    }
}

/// The tree with its formulas shaped: operator nodes in place of each formula and of all its signs but the last. A formula
/// whose parts do not read as operands and signs stays as it is; no tree of the grammar has one.
///
/// A text is refused by O3 at the first sign between two operands whose priority is declared in no surrounding range and
/// is not standard.
pub fn shape(alloc: Global, tree: Tree, ranges: &Ranges) -> Result<Tree, Stop>
    requires { AreRanges tree ranges.now }
    ensures ok { IfOk result (λ shaped. Shaped tree shaped) }
    ensures refused { IfErr result (λ why. StopsBy (IsUnshaped tree) why) }
{
    let (mut nodes, spellings, starts) = tree.apart();
    let mut id: u32 = 0;
    let mut late = None;
    while (id as usize) < nodes.len() {
        let step = shape_at(alloc, &mut nodes, ranges, id)?;
        id = step.next;
        late = lesser(late, step.late);
    }
    match late {
        None => Ok(Tree::new(nodes, spellings, starts)),
        Some(place) => Err(Stop::Refused(Refusal {
            rule: Rule::O3,
            place,
        })),
    }
}

/// A law: where no range declares a word twice, a flat tree has one shaped tree at most; and none where it is refused.
pub fn shapes_are_one()
    ensures one { (flat one other : Built) → ((id : ℕ) → IsTwice flat id → ⊥) → Shaped flat one → Shaped flat other → other ≡ one }
    ensures apart { (flat shaped : Built) (why : Why) → ((id : ℕ) → IsTwice flat id → ⊥) → IsUnshaped flat why → Shaped flat shaped → ⊥ }
{
    priorities_are_one();
}

/// A law: each node of a shaped tree begins where a node of the flat one does.
pub fn shaped_trees_begin_alike()
    ensures { (flat shaped : Built) → Shaped flat shaped → (id : ℕ) (n : NodeValue) → slice_get shaped.nodes id ≡ Some n → IsBegun flat.nodes n.span.from }
{}
