//! A formula that no tree of the grammar has stays as it is.
use crate::table::holds;
use crate::trees::tree_of;
use a68_op_ident::shape;
use a68_ranges::ranges;
use a68_tree::NodeKind;
use std::panic::Expect;

/// Two operands that meet, and a sign behind them.
const MEETING: &str = "\
Formula 0 5 1 2 3 1
Sign 4 5 0
Tag 0 1 1
Tag 2 3 1
";

#[test]
fn operands_that_meet(rt: HostRuntime) {
    let alloc = rt.alloc();
    let flat = tree_of(&rt, alloc, MEETING, "+ a");
    let ranges = ranges(alloc, &flat).expect(&rt, "ranges");
    let tree = shape(alloc, flat, &ranges).expect(&rt, "a tree");
    drop(ranges);
    holds(&rt, tree.len() == 4, "four nodes");
    let node = tree.node(0);
    holds(&rt, node.kind == NodeKind::Formula, "a formula");
    let parts = node.parts.items.as_slice();
    holds(&rt, parts == [2, 3, 1].as_slice(), "its parts");
    drop(tree);
}
