//! The table of the signs.
ghost use Rattle.std.specs.Prelude.{◌≡◌, map};
ghost use Rattle.std.specs.Option.{option_map};
ghost use Rattle.a68_signs.specs.Entries.{entry_value};
ghost use Rattle.a68_signs.specs.Signs as signs;

use crate::operators;
use a68_base::is_listed;
use a68_modes::standard;

/// An operator of the standard environ: its row in the table, and the modes of its operands and of its yield.
///
/// The row is one of [`operators`], the modes are standard ones. A monadic operator has VOID on the left. In the rows of LWB
/// and UPB `right` is VOID, which there stands for every row.
#[derive(Clone, Copy, Debug, PartialEq, Eq)]
pub struct Operator {
    pub row: u32,
    pub left: u32,
    pub right: u32,
    pub result: u32,
}

/// Signs that mean the same, their priority, and the operators that they have.
#[derive(Clone, Copy)]
struct SignGroup {
    signs: &'static [&'static str],
    priority: u32,
    operators: &'static [Operator],
}

macro_rules! op {
    ($row:ident, $left:ident, $right:ident, $result:ident) => {
        Operator {
            row: operators::$row,
            left: standard::$left,
            right: standard::$right,
            result: standard::$result,
        }
    };
}

// The signs between two operands.
const DYADIC: &[SignGroup] = &[
    SignGroup {
        signs: &["+:=", "PLUSAB"],
        priority: 1,
        operators: &[
            op!(PLUSAB, REF_INT, INT, REF_INT),
            op!(PLUSAB, REF_STRING, ROW_OF_CHAR, REF_STRING),
            op!(PLUSAB, REF_STRING, CHAR, REF_STRING),
            op!(PLUSAB, REF_LONG_INT, LONG_INT, REF_LONG_INT),
        ],
    },
    SignGroup {
        signs: &["-:=", "MINUSAB"],
        priority: 1,
        operators: &[
            op!(MINUSAB, REF_INT, INT, REF_INT),
            op!(MINUSAB, REF_LONG_INT, LONG_INT, REF_LONG_INT),
        ],
    },
    SignGroup {
        signs: &["*:=", "TIMESAB"],
        priority: 1,
        operators: &[
            op!(TIMESAB, REF_INT, INT, REF_INT),
            op!(TIMESAB, REF_STRING, INT, REF_STRING),
            op!(TIMESAB, REF_LONG_INT, LONG_INT, REF_LONG_INT),
        ],
    },
    SignGroup {
        signs: &["%:=", "OVERAB"],
        priority: 1,
        operators: &[
            op!(OVERAB, REF_INT, INT, REF_INT),
            op!(OVERAB, REF_LONG_INT, LONG_INT, REF_LONG_INT),
        ],
    },
    SignGroup {
        signs: &["%*:=", "MODAB"],
        priority: 1,
        operators: &[
            op!(MODAB, REF_INT, INT, REF_INT),
            op!(MODAB, REF_LONG_INT, LONG_INT, REF_LONG_INT),
        ],
    },
    SignGroup {
        signs: &["+=:", "PLUSTO"],
        priority: 1,
        operators: &[
            op!(PLUSTO, ROW_OF_CHAR, REF_STRING, REF_STRING),
            op!(PLUSTO, CHAR, REF_STRING, REF_STRING),
        ],
    },
    SignGroup {
        signs: &["OR"],
        priority: 2,
        operators: &[op!(OR, BOOL, BOOL, BOOL), op!(OR, BITS, BITS, BITS)],
    },
    SignGroup {
        signs: &["AND", "&"],
        priority: 3,
        operators: &[op!(AND, BOOL, BOOL, BOOL), op!(AND, BITS, BITS, BITS)],
    },
    SignGroup {
        signs: &["=", "EQ"],
        priority: 4,
        operators: &[
            op!(EQ, INT, INT, BOOL),
            op!(EQ, BOOL, BOOL, BOOL),
            op!(EQ, CHAR, CHAR, BOOL),
            op!(EQ, BITS, BITS, BOOL),
            op!(EQ, ROW_OF_CHAR, ROW_OF_CHAR, BOOL),
            op!(EQ, ROW_OF_CHAR, CHAR, BOOL),
            op!(EQ, CHAR, ROW_OF_CHAR, BOOL),
            op!(EQ, LONG_INT, LONG_INT, BOOL),
        ],
    },
    SignGroup {
        signs: &["/=", "NE"],
        priority: 4,
        operators: &[
            op!(NE, INT, INT, BOOL),
            op!(NE, BOOL, BOOL, BOOL),
            op!(NE, CHAR, CHAR, BOOL),
            op!(NE, BITS, BITS, BOOL),
            op!(NE, ROW_OF_CHAR, ROW_OF_CHAR, BOOL),
            op!(NE, ROW_OF_CHAR, CHAR, BOOL),
            op!(NE, CHAR, ROW_OF_CHAR, BOOL),
            op!(NE, LONG_INT, LONG_INT, BOOL),
        ],
    },
    SignGroup {
        signs: &["<", "LT"],
        priority: 5,
        operators: &[
            op!(LT, INT, INT, BOOL),
            op!(LT, ROW_OF_CHAR, ROW_OF_CHAR, BOOL),
            op!(LT, ROW_OF_CHAR, CHAR, BOOL),
            op!(LT, CHAR, ROW_OF_CHAR, BOOL),
            op!(LT, CHAR, CHAR, BOOL),
            op!(LT, LONG_INT, LONG_INT, BOOL),
        ],
    },
    SignGroup {
        signs: &["<=", "LE"],
        priority: 5,
        operators: &[
            op!(LE, INT, INT, BOOL),
            op!(LE, ROW_OF_CHAR, ROW_OF_CHAR, BOOL),
            op!(LE, ROW_OF_CHAR, CHAR, BOOL),
            op!(LE, CHAR, ROW_OF_CHAR, BOOL),
            op!(LE, CHAR, CHAR, BOOL),
            op!(LE, BITS, BITS, BOOL),
            op!(LE, LONG_INT, LONG_INT, BOOL),
        ],
    },
    SignGroup {
        signs: &[">=", "GE"],
        priority: 5,
        operators: &[
            op!(GE, INT, INT, BOOL),
            op!(GE, ROW_OF_CHAR, ROW_OF_CHAR, BOOL),
            op!(GE, ROW_OF_CHAR, CHAR, BOOL),
            op!(GE, CHAR, ROW_OF_CHAR, BOOL),
            op!(GE, CHAR, CHAR, BOOL),
            op!(GE, BITS, BITS, BOOL),
            op!(GE, LONG_INT, LONG_INT, BOOL),
        ],
    },
    SignGroup {
        signs: &[">", "GT"],
        priority: 5,
        operators: &[
            op!(GT, INT, INT, BOOL),
            op!(GT, ROW_OF_CHAR, ROW_OF_CHAR, BOOL),
            op!(GT, ROW_OF_CHAR, CHAR, BOOL),
            op!(GT, CHAR, ROW_OF_CHAR, BOOL),
            op!(GT, CHAR, CHAR, BOOL),
            op!(GT, LONG_INT, LONG_INT, BOOL),
        ],
    },
    SignGroup {
        signs: &["+"],
        priority: 6,
        operators: &[
            op!(PLUS, INT, INT, INT),
            op!(PLUS, ROW_OF_CHAR, ROW_OF_CHAR, ROW_OF_CHAR),
            op!(PLUS, ROW_OF_CHAR, CHAR, ROW_OF_CHAR),
            op!(PLUS, CHAR, ROW_OF_CHAR, ROW_OF_CHAR),
            op!(PLUS, CHAR, CHAR, ROW_OF_CHAR),
            op!(PLUS, LONG_INT, LONG_INT, LONG_INT),
        ],
    },
    SignGroup {
        signs: &["-"],
        priority: 6,
        operators: &[
            op!(MINUS, INT, INT, INT),
            op!(MINUS, LONG_INT, LONG_INT, LONG_INT),
        ],
    },
    SignGroup {
        signs: &["*"],
        priority: 7,
        operators: &[
            op!(TIMES, INT, INT, INT),
            op!(TIMES, ROW_OF_CHAR, INT, ROW_OF_CHAR),
            op!(TIMES, CHAR, INT, ROW_OF_CHAR),
            op!(TIMES, INT, ROW_OF_CHAR, ROW_OF_CHAR),
            op!(TIMES, INT, CHAR, ROW_OF_CHAR),
            op!(TIMES, LONG_INT, LONG_INT, LONG_INT),
        ],
    },
    SignGroup {
        signs: &["OVER", "%"],
        priority: 7,
        operators: &[
            op!(OVER, INT, INT, INT),
            op!(OVER, LONG_INT, LONG_INT, LONG_INT),
        ],
    },
    SignGroup {
        signs: &["MOD", "%*"],
        priority: 7,
        operators: &[
            op!(MOD, INT, INT, INT),
            op!(MOD, LONG_INT, LONG_INT, LONG_INT),
        ],
    },
    SignGroup {
        signs: &["ELEM"],
        priority: 7,
        operators: &[op!(ELEM, INT, BITS, BOOL)],
    },
    SignGroup {
        signs: &["**"],
        priority: 8,
        operators: &[
            op!(POWER, INT, INT, INT),
            op!(POWER, LONG_INT, INT, LONG_INT),
        ],
    },
    SignGroup {
        signs: &["SHL"],
        priority: 8,
        operators: &[op!(SHL, BITS, INT, BITS)],
    },
    SignGroup {
        signs: &["SHR"],
        priority: 8,
        operators: &[op!(SHR, BITS, INT, BITS)],
    },
    SignGroup {
        signs: &["LWB"],
        priority: 8,
        operators: &[op!(LWB_OF, INT, VOID, INT)],
    },
    SignGroup {
        signs: &["UPB"],
        priority: 8,
        operators: &[op!(UPB_OF, INT, VOID, INT)],
    },
];

// The signs before one operand.
const MONADIC: &[SignGroup] = &[
    SignGroup {
        signs: &["+"],
        priority: 10,
        operators: &[
            op!(POSITIVE, VOID, INT, INT),
            op!(POSITIVE, VOID, LONG_INT, LONG_INT),
        ],
    },
    SignGroup {
        signs: &["-"],
        priority: 10,
        operators: &[
            op!(NEGATIVE, VOID, INT, INT),
            op!(NEGATIVE, VOID, LONG_INT, LONG_INT),
        ],
    },
    SignGroup {
        signs: &["NOT"],
        priority: 10,
        operators: &[op!(NOT, VOID, BOOL, BOOL), op!(NOT, VOID, BITS, BITS)],
    },
    SignGroup {
        signs: &["ABS"],
        priority: 10,
        operators: &[
            op!(ABS, VOID, INT, INT),
            op!(ABS, VOID, BOOL, INT),
            op!(ABS, VOID, CHAR, INT),
            op!(ABS, VOID, BITS, INT),
            op!(ABS, VOID, LONG_INT, LONG_INT),
        ],
    },
    SignGroup {
        signs: &["SIGN"],
        priority: 10,
        operators: &[op!(SIGN, VOID, INT, INT), op!(SIGN, VOID, LONG_INT, INT)],
    },
    SignGroup {
        signs: &["ODD"],
        priority: 10,
        operators: &[op!(ODD, VOID, INT, BOOL), op!(ODD, VOID, LONG_INT, BOOL)],
    },
    SignGroup {
        signs: &["REPR"],
        priority: 10,
        operators: &[op!(REPR, VOID, INT, CHAR)],
    },
    SignGroup {
        signs: &["BIN"],
        priority: 10,
        operators: &[op!(BIN, VOID, INT, BITS)],
    },
    SignGroup {
        signs: &["LEVEL"],
        priority: 10,
        operators: &[op!(LEVEL, VOID, INT, SEMA), op!(LEVEL, VOID, SEMA, INT)],
    },
    SignGroup {
        signs: &["UP"],
        priority: 10,
        operators: &[op!(UP, VOID, SEMA, VOID)],
    },
    SignGroup {
        signs: &["DOWN"],
        priority: 10,
        operators: &[op!(DOWN, VOID, SEMA, VOID)],
    },
    SignGroup {
        signs: &["LWB"],
        priority: 10,
        operators: &[op!(LWB, VOID, VOID, INT)],
    },
    SignGroup {
        signs: &["UPB"],
        priority: 10,
        operators: &[op!(UPB, VOID, VOID, INT)],
    },
    SignGroup {
        signs: &["LENG"],
        priority: 10,
        operators: &[op!(LENG, VOID, INT, LONG_INT)],
    },
    SignGroup {
        signs: &["SHORTEN"],
        priority: 10,
        operators: &[op!(SHORTEN, VOID, LONG_INT, INT)],
    },
];

// Finds the entries of the signs for so many operands.
fn entries_for(operands: u32) -> &'static [SignGroup]
    ensures { map entry_value result.now ≡ signs.entries_for operands }
{
    match operands {
        1 => MONADIC,
        2 => DYADIC,
        _ => &[],
    }
}

// Finds the entry of a sign.
fn entry_of(entries: &'static [SignGroup], sign: &[u8]) -> Option<SignGroup>
    ensures { option_map entry_value result ≡ signs.entry_of (map entry_value entries.now) sign.now }
{
    for entry in entries {
        if is_listed(entry.signs, sign) {
            return Some(*entry);
        }
    }
    None
}

/// Finds the operators that a sign has before one operand (`operands` is 1) or between two (2), in the order of the table
/// (Report, 10.2.3). None where the standard environ has no such sign, and for another number of operands.
#[tactic(auto, unfolding(crate::specs::Signs::candidates))]
pub fn candidates(sign: &[u8], operands: u32) -> &'static [Operator]
    ensures { result.now ≡ signs.candidates sign.now operands }
{
    match entry_of(entries_for(operands), sign) {
        Some(entry) => entry.operators,
        None => &[],
    }
}

/// Finds the priority of a sign between two operands, 1 to 8; none where the standard environ has no such sign (Report,
/// 10.2.3.0).
#[tactic(auto, unfolding(crate::specs::Signs::priority_of))]
pub fn priority_of(sign: &[u8]) -> Option<u32>
    ensures { result ≡ signs.priority_of sign.now }
{
    let entry = entry_of(entries_for(2), sign)?;
    Some(entry.priority)
}

/// Is it a sign of the standard environ, before one operand or between two (Report, 10.2.3)?
#[tactic(auto, unfolding(crate::specs::Signs::is_sign))]
pub fn is_sign(spelling: &[u8]) -> bool
    ensures { result ≡ signs.is_sign spelling.now }
{
    entry_of(entries_for(1), spelling).is_some() || entry_of(entries_for(2), spelling).is_some()
}
