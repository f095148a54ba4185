//! How the signs of formulas stand over their operands, and signs without a priority, by hand from the priorities (Report,
//! 4.3, 5.4.2 and 10.2.3.0).
ghost use Rattle.std.specs.Prelude.{◌<◌, length};

use crate::table::holds;
use a68_base::{Refusal, Rule, Stop};
use a68_op_ident::shape;
use a68_parse::{parse, symbols_are_bounded};
use a68_ranges::ranges;
use a68_symbols::symbols;
use a68_tree::{NodeId, NodeKind, Tree};
use a68_words::words;
use std::alloc::Global;
use std::panic::Expect;
use std::process::Abort;
use std::str::SplitWhitespace;

/// A text, the byte at which a formula in it begins, and the formula with brackets about each sign and its operands; a
/// closed clause has square ones.
const SHAPES: &[(&str, u32, &str)] = &[
    ("( - 1 ** 2 )", 2, "( ( - 1 ) ** 2 )"),
    ("( 1 - - 2 )", 2, "( 1 - ( - 2 ) )"),
    ("( a - b - c )", 2, "( ( a - b ) - c )"),
    ("( a - b - c - d )", 2, "( ( ( a - b ) - c ) - d )"),
    ("( a + b * c - d )", 2, "( ( a + ( b * c ) ) - d )"),
    ("( a * b + c )", 2, "( ( a * b ) + c )"),
    ("( a + b < c * d )", 2, "( ( a + b ) < ( c * d ) )"),
    ("( a = b < c )", 2, "( a = ( b < c ) )"),
    ("( a < b = c )", 2, "( ( a < b ) = c )"),
    ("( a OR b AND c )", 2, "( a OR ( b AND c ) )"),
    ("( a AND b OR c )", 2, "( ( a AND b ) OR c )"),
    ("( a & b = c )", 2, "( a & ( b = c ) )"),
    ("( NOT a AND b )", 2, "( ( NOT a ) AND b )"),
    ("( ABS - a )", 2, "( ABS ( - a ) )"),
    ("( - ABS a + b )", 2, "( ( - ( ABS a ) ) + b )"),
    ("( - - - a )", 2, "( - ( - ( - a ) ) )"),
    ("( a ** b ** c )", 2, "( ( a ** b ) ** c )"),
    ("( 2 * - a ** b )", 2, "( 2 * ( ( - a ) ** b ) )"),
    ("( - a - - b )", 2, "( ( - a ) - ( - b ) )"),
    ("( a +:= b * c )", 2, "( a +:= ( b * c ) )"),
    ("( a +:= b +:= c )", 2, "( ( a +:= b ) +:= c )"),
    ("( UPB a - 1 LWB a )", 2, "( ( UPB a ) - ( 1 LWB a ) )"),
    ("( a SHL b + c )", 2, "( ( a SHL b ) + c )"),
    ("( a % b %* c OVER d )", 2, "( ( ( a % b ) %* c ) OVER d )"),
    ("( ( a + b ) * c )", 2, "( [ ( a + b ) ] * c )"),
    ("( a * ( b - c - d ) )", 2, "( a * [ ( ( b - c ) - d ) ] )"),
    ("( PRIO MAX = 9; a MAX b ** c )", 16, "( ( a MAX b ) ** c )"),
    ("( PRIO MAX = 1; a MAX b ** c )", 16, "( a MAX ( b ** c ) )"),
    (
        "( PRIO MAX = 9; ( PRIO MAX = 1; a MAX b * c ) )",
        32,
        "( a MAX ( b * c ) )",
    ),
    (
        "( PRIO MAX = 9; ( PRIO MIN = 1; a MAX b * c ) )",
        32,
        "( ( a MAX b ) * c )",
    ),
    ("( PRIO + = 8; a + b * c )", 14, "( ( a + b ) * c )"),
    (
        "( ( PRIO + = 8; SKIP ); a + b * c )",
        24,
        "( a + ( b * c ) )",
    ),
    (
        "( PRIO + = 8; ( PRIO * = 9; a + b * c ) )",
        28,
        "( a + ( b * c ) )",
    ),
    (
        "( OP NEG = (INT a) INT: - a; NEG a * b )",
        29,
        "( ( NEG a ) * b )",
    ),
    (
        "( PRIO NEG = 5; OP NEG = (INT a) INT: - a; NEG a NEG NEG b + c )",
        43,
        "( ( NEG a ) NEG ( ( NEG b ) + c ) )",
    ),
    (
        "( PRIO +* = 6; a +* b + c +* d )",
        15,
        "( ( ( a +* b ) + c ) +* d )",
    ),
];

/// A text that is refused by O3, and the byte of the sign.
const WITHOUT_PRIORITY: &[(&str, u32)] = &[
    ("( OP MAX = (INT a, b) INT: a; 1 MAX 2 )", 32),
    ("( a +* b )", 4),
    ("( a +* b -* c )", 4),
    ("( a + b +* c )", 8),
    ("( ( PRIO +* = 5; SKIP ); a +* b )", 27),
    ("( PRIO +* = 5; ( a -* b ) )", 19),
    ("( OP MAX = (INT a, b) INT: a; ( 1 MAX 2; 3 +* 4 ) )", 34),
    ("( ( a +* b ) -* c )", 6),
    ("( a +* ( b -* c ) )", 4),
    ("( - a +* b )", 6),
    ("( a * ( b -* c ) + ( d +* e ) )", 10),
];

fn tree_of(rt: &impl Abort, alloc: Global, text: &str) -> Tree {
    let found = symbols(alloc, text.as_bytes()).expect(rt, "symbols");
    let classes = words(alloc, &found).expect(rt, "classes");
    symbols_are_bounded();
    let tree = parse(alloc, &found, &classes, text.len() as u32);
    drop(classes);
    drop(found);
    tree.expect(rt, text)
}

/// The tree of a text with its formulas shaped.
pub fn shaped(rt: &impl Abort, alloc: Global, text: &str) -> Result<Tree, Stop> {
    let tree = tree_of(rt, alloc, text);
    let ranges = ranges(alloc, &tree).expect(rt, text);
    let shaped = shape(alloc, tree, &ranges);
    drop(ranges);
    shaped
}

/// The node of an operator that begins at that byte, with the least number.
pub fn operator_at(rt: &impl Abort, tree: &Tree, place: u32) -> NodeId
    ensures { result < length tree.now.nodes }
{
    for id in 0..tree.len() {
        let node = tree.node(id);
        if node.span.from == place && matches!(node.kind, NodeKind::Dyadic | NodeKind::Monadic) {
            return id;
        }
    }
    rt.panic("an operator at that byte")
}

fn is_next(rt: &impl Abort, words: &mut SplitWhitespace<'_>, told: &[u8], case: &str) {
    let word = words.next().expect(rt, case);
    holds(rt, word.as_bytes() == told, case);
}

// The words tell of this node, which is no more than `depth` nodes deep.
fn is_told(
    rt: &impl Abort,
    tree: &Tree,
    id: NodeId,
    words: &mut SplitWhitespace<'_>,
    depth: u32,
    case: &str,
)
    requires { id < length tree.now.nodes }
{
    if depth == 0 {
        rt.panic(case)
    }
    let node = tree.node(id);
    let sign = tree.spelling(node.name);
    match (node.kind, tree.parts(id)) {
        (NodeKind::Dyadic, [left, right]) => {
            is_next(rt, words, b"(", case);
            is_told(rt, tree, *left, words, depth - 1, case);
            is_next(rt, words, sign, case);
            is_told(rt, tree, *right, words, depth - 1, case);
            is_next(rt, words, b")", case);
        }
        (NodeKind::Monadic, [operand]) => {
            is_next(rt, words, b"(", case);
            is_next(rt, words, sign, case);
            is_told(rt, tree, *operand, words, depth - 1, case);
            is_next(rt, words, b")", case);
        }
        (NodeKind::Closed, [clause]) => {
            is_next(rt, words, b"[", case);
            is_told(rt, tree, *clause, words, depth - 1, case);
            is_next(rt, words, b"]", case);
        }
        (NodeKind::Serial, [unit]) => is_told(rt, tree, *unit, words, depth - 1, case),
        (_, []) => is_next(rt, words, sign, case),
        _ => rt.panic(case),
    }
}

fn shape_is_told(rt: &impl Abort, alloc: Global, row: &(&str, u32, &str)) {
    let tree = shaped(rt, alloc, row.0).expect(rt, row.0);
    let mut words = row.2.split_whitespace();
    is_told(
        rt,
        &tree,
        operator_at(rt, &tree, row.1),
        &mut words,
        20,
        row.0,
    );
    holds(rt, words.next().is_none(), row.0);
    drop(tree);
}

#[test]
fn formulas(rt: HostRuntime) {
    for row in SHAPES {
        shape_is_told(&rt, rt.alloc(), row);
    }
}

fn is_refused(rt: &impl Abort, alloc: Global, row: &(&str, u32)) {
    let stop = shaped(rt, alloc, row.0).err().expect(rt, row.0);
    let refusal = Refusal {
        rule: Rule::O3,
        place: row.1,
    };
    holds(rt, stop == Stop::Refused(refusal), row.0);
}

#[test]
fn signs_without_a_priority(rt: HostRuntime) {
    for row in WITHOUT_PRIORITY {
        is_refused(&rt, rt.alloc(), row);
    }
}
