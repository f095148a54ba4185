//! Operators of the standard environ, and how values are written, by hand.
use crate::table::{agrees, cut, holds};
use a68_base::Text;
use a68_ops::{OpStop, apply, apply_monadic, apply_plain, item_text, updated, whole};
use a68_signs::{candidates, priority_of};
use a68_values::{Bounds, Layout, Long, Plain, Value, ValueNode, Values};
use std::alloc::Global;
use std::panic::Expect;
use std::process::Abort;
use std::string::String;

/// A row of the table of operators, the operand on the left and the one on the right, and what comes of it, from the
/// definitions of the Report, 10.2.3. Values are: an INT in digits; T and F; BITS behind `#` in sixteens; a CHAR behind
/// `'`; a LONG INT behind `L`; a row of CHAR behind a quote; `.` where there is none; `?` an unset value; `!` a row of an unset value.
const APPLICATIONS: &str = "\
7 T T = T
7 T F = T
7 F T = T
7 F F = F
7 #5 #3 = #7
7 #8000000000000000 #1 = #8000000000000001
7 #0 #0 = #0
7 T #1 = Kind
7 1 1 = Kind
7 \"a \"b = Kind
8 T T = T
8 T F = F
8 F T = F
8 F F = F
8 #5 #3 = #1
8 #ffffffffffffffff #8000000000000000 = #8000000000000000
8 'a 'b = Kind
9 3 3 = T
9 3 4 = F
9 -3 3 = F
9 T T = T
9 T F = F
9 F F = T
9 'a 'a = T
9 'a 'b = F
9 #ff #ff = T
9 #ff #fe = F
9 \"abc \"abc = T
9 \"abc \"abd = F
9 \"abc \"ab = F
9 \"ab \"abc = F
9 \" \" = T
9 \"a 'a = T
9 'a \"a = T
9 'a \"ab = F
9 'a \" = F
9 3 T = Kind
9 'a 3 = Kind
9 3 \"a = Kind
9 ? 3 = Unset
9 3 ? = Unset
9 ? ? = Unset
9 ! \"a = Unset
9 T ! = Unset
9 . 3 = Kind
10 3 3 = F
10 3 4 = T
10 T F = T
10 F F = F
10 'a 'b = T
10 #1 #1 = F
10 #1 #2 = T
10 \"a \"a = F
10 \"a \"b = T
10 \"a 'a = F
10 'a \" = T
11 3 4 = T
11 4 3 = F
11 3 3 = F
11 -1 0 = T
11 -9223372036854775807 9223372036854775807 = T
11 'a 'b = T
11 'b 'a = F
11 'Z 'a = T
11 \"abc \"abd = T
11 \"ab \"abc = T
11 \"abc \"ab = F
11 \" \"a = T
11 \"a \" = F
11 \" \" = F
11 \"b \"abc = F
11 'a \"ab = T
11 \"ab 'b = T
11 'b \"ab = F
11 #1 #2 = Kind
11 T F = Kind
12 4 4 = T
12 5 4 = F
12 3 4 = T
12 \"ab \"ab = T
12 \"abc \"ab = F
12 \"ab \"abc = T
12 'a 'a = T
12 'b 'a = F
12 #1 #3 = T
12 #4 #3 = F
12 #0 #0 = T
12 #3 #3 = T
12 #5 #4 = F
12 F T = Kind
13 4 4 = T
13 3 4 = F
13 5 4 = T
13 \"abc \"ab = T
13 \"ab \"abc = F
13 \"ab \"ab = T
13 'b \"ab = T
13 #3 #1 = T
13 #3 #4 = F
13 #ffffffffffffffff #8000000000000000 = T
13 T T = Kind
14 5 4 = T
14 4 4 = F
14 3 4 = F
14 \"b \"abc = T
14 \"abc \"abc = F
14 \"abcd \"abc = T
14 'b 'a = T
14 'a 'a = F
14 #2 #1 = Kind
15 3 -4 = -1
15 9223372036854775806 1 = 9223372036854775807
15 9223372036854775807 1 = Overflow
15 -9223372036854775807 -1 = Overflow
15 \"ab \"cd = \"abcd
15 \" \" = \"
15 'a 'b = \"ab
15 \"ab 'c = \"abc
15 'a \"bc = \"abc
15 \" 'x = \"x
15 #1 #1 = Kind
15 T F = Kind
15 1 'a = Kind
16 3 4 = -1
16 -9223372036854775807 1 = Overflow
16 9223372036854775807 -1 = Overflow
16 0 9223372036854775807 = -9223372036854775807
16 \"a \"a = Kind
17 -3 4 = -12
17 3037000499 3037000499 = 9223372030926249001
17 3037000500 3037000500 = Overflow
17 4294967296 -2147483648 = Overflow
17 9223372036854775807 -1 = -9223372036854775807
17 0 9223372036854775807 = 0
17 \"ab 3 = \"ababab
17 3 \"ab = \"ababab
17 'x 4 = \"xxxx
17 2 'y = \"yy
17 \"ab 0 = \"
17 \"ab -5 = \"
17 \"ab 1 = \"ab
17 \" 9223372036854775807 = \"
17 9223372036854775807 \" = \"
17 'a 4194305 = Cells
17 \"ab 2097153 = Cells
17 \"ab 9223372036854775807 = Cells
17 \"a \"b = Kind
17 T 3 = Kind
18 7 2 = 3
18 -7 2 = -3
18 7 -2 = -3
18 -7 -2 = 3
18 0 5 = 0
18 6 3 = 2
18 5 0 = Divisor
18 0 0 = Divisor
18 -9223372036854775807 -1 = 9223372036854775807
18 9223372036854775807 -1 = -9223372036854775807
18 ? 0 = Unset
18 T 0 = Kind
19 7 3 = 1
19 -7 3 = 2
19 7 -3 = 1
19 -7 -3 = 2
19 6 3 = 0
19 -6 3 = 0
19 3 5 = 3
19 -3 5 = 2
19 -5 -5 = 0
19 0 7 = 0
19 5 0 = Divisor
19 -1 9223372036854775807 = 9223372036854775806
19 -9223372036854775807 -1 = 0
19 9223372036854775807 -1 = 0
19 'a 2 = Kind
20 1 #8000000000000000 = T
20 1 #7fffffffffffffff = F
20 64 #1 = T
20 64 #fffffffffffffffe = F
20 63 #2 = T
20 2 #4000000000000000 = T
20 0 #1 = Domain
20 65 #1 = Domain
20 -1 #1 = Domain
20 9223372036854775807 #1 = Domain
20 #1 1 = Kind
20 1 1 = Kind
20 ? #1 = Unset
21 2 10 = 1024
21 0 0 = 1
21 0 5 = 0
21 5 0 = 1
21 5 1 = 5
21 -2 3 = -8
21 -2 4 = 16
21 2 62 = 4611686018427387904
21 2 63 = Overflow
21 -2 63 = Overflow
21 2 64 = Overflow
21 3 39 = 4052555153018976267
21 3 40 = Overflow
21 10 18 = 1000000000000000000
21 10 19 = Overflow
21 1 9223372036854775807 = 1
21 -1 9223372036854775807 = -1
21 -1 9223372036854775806 = 1
21 0 9223372036854775807 = 0
21 2 9223372036854775807 = Overflow
21 -1 65 = -1
21 -1 66 = 1
21 2 -1 = Domain
21 1 -1 = Domain
21 0 -1 = Domain
21 2 T = Kind
22 #1 4 = #10
22 #8000000000000000 1 = #0
22 #c000000000000001 1 = #8000000000000002
22 #1 63 = #8000000000000000
22 #1 64 = #0
22 #ffffffffffffffff 64 = #0
22 #1 9223372036854775807 = #0
22 #ff 0 = #ff
22 #10 -4 = #1
22 #1 -1 = #0
22 #8000000000000000 -63 = #1
22 #ff -9223372036854775807 = #0
22 1 1 = Kind
22 #1 #1 = Kind
23 #10 4 = #1
23 #1 1 = #0
23 #8000000000000000 63 = #1
23 #8000000000000000 64 = #0
23 #ffffffffffffffff 4 = #fffffffffffffff
23 #1 -4 = #10
23 #c000000000000000 -1 = #8000000000000000
23 T 1 = Kind
26 . 5 = 5
26 . -5 = -5
26 . -9223372036854775808 = Overflow
26 . T = Kind
26 . ? = Unset
26 1 5 = Kind
27 . 5 = -5
27 . 0 = 0
27 . 9223372036854775807 = -9223372036854775807
27 . #1 = Kind
28 . T = F
28 . F = T
28 . #0 = #ffffffffffffffff
28 . #8000000000000001 = #7ffffffffffffffe
28 . 1 = Kind
28 . ? = Unset
29 . -5 = 5
29 . 5 = 5
29 . 0 = 0
29 . -9223372036854775807 = 9223372036854775807
29 . T = 1
29 . F = 0
29 . 'A = 65
29 . #ff = 255
29 . #7fffffffffffffff = 9223372036854775807
29 . #8000000000000000 = Overflow
29 . \"a = Kind
29 . ! = Unset
29 ? 5 = Unset
30 . -7 = -1
30 . 0 = 0
30 . 7 = 1
30 . T = Kind
31 . 3 = T
31 . 4 = F
31 . -3 = T
31 . -4 = F
31 . 0 = F
31 . 'a = Kind
32 . 65 = 'A
32 . 126 = '~
32 . 256 = Domain
32 . -1 = Domain
32 . 'a = Kind
33 . 0 = #0
33 . 255 = #ff
33 . 9223372036854775807 = #7fffffffffffffff
33 . -1 = Domain
33 . T = Kind
0 1 1 = Kind
1 1 1 = Kind
6 \"a \"b = Kind
24 1 \"ab = Kind
25 1 \"ab = Kind
24 ? \"ab = Unset
34 . 1 = Kind
35 . 1 = Kind
37 . \"a = Kind
38 . \"a = Kind
41 . 1 = Kind
0 . 1 = Kind
";

/// An integer and a width, and what `whole` gives behind a colon, with `_` for a blank (Report, 10.3.2.1).
const WHOLES: &str = "\
7 4 = :__+7
-7 -4 = :__-7
12345 3 = :***
0 0 = :0
5 0 = :5
-5 0 = :-5
0 3 = :_+0
0 1 = :*
0 -1 = :0
5 1 = :*
5 2 = :+5
-5 2 = :-5
5 -1 = :5
-5 -1 = :*
5 -3 = :__5
9223372036854775807 20 = :+9223372036854775807
9223372036854775807 19 = :*******************
9223372036854775807 -19 = :9223372036854775807
-9223372036854775807 -19 = :*******************
-9223372036854775807 0 = :-9223372036854775807
170141183460469231731687303715884105727 40 = :+170141183460469231731687303715884105727
-170141183460469231731687303715884105727 40 = :-170141183460469231731687303715884105727
170141183460469231731687303715884105727 -39 = :170141183460469231731687303715884105727
170141183460469231731687303715884105727 39 = :***************************************
-170141183460469231731687303715884105727 0 = :-170141183460469231731687303715884105727
-170141183460469231731687303715884105727 -39 = :***************************************
170141183460469231731687303715884105727 65537 = Domain
1 65537 = Domain
1 -65537 = Domain
1 9223372036854775807 = Domain
";

/// An item, and what is printed of it behind a colon, with `_` for a blank and `/` for a line feed. `n` is `newline`, `s` is `space`, `N`
/// is NIL, `u` is 3 in a union, `U` an unset value in one.
const ITEMS: &str = "\
3 = :__________________+3
-9223372036854775807 = :-9223372036854775807
L3 = :______________________________________+3
L170141183460469231731687303715884105727 = :+170141183460469231731687303715884105727
L-170141183460469231731687303715884105727 = :-170141183460469231731687303715884105727
T = :T
F = :F
'a = :a
\"abc = :abc
\" = :
#8000000000000005 = :TFFFFFFFFFFFFFFFFFFFFFFFFFFFFFFFFFFFFFFFFFFFFFFFFFFFFFFFFFFFFTFT
n = :/
s = :_
u = :__________________+3
? = Unset
! = Unset
U = Unset
. = Kind
N = Kind
";

// A row with bounds from 1 of these values.
fn row(rt: &impl Abort, alloc: Global, items: Vec<Value>) -> Value {
    let bounds = vec![in alloc; (1, items.len() as i64)].expect(rt, "memory");
    Value {
        node: ValueNode::Row {
            bounds: Bounds::of(bounds),
            parts: Values { items }.shared().expect(rt, "memory"),
        },
    }
}

// A row of CHAR.
fn text(rt: &impl Abort, alloc: Global, chars: &str) -> Value {
    let mut items = Vec::new(alloc);
    for char in chars.as_bytes() {
        items
            .push(Value::of(Plain::Char(*char)))
            .expect(rt, "memory");
    }
    row(rt, alloc, items)
}

// A value in a union.
fn united(rt: &impl Abort, alloc: Global, held: Plain) -> Value {
    let value = Box::new(alloc, Value::of(held)).expect(rt, "memory");
    Value {
        node: ValueNode::United { mode: 1, value },
    }
}

// A value that stands for itself.
fn named(rt: &impl Abort, alloc: Global, word: &str) -> Value {
    match word {
        "T" => Value::of(Plain::Bool(true)),
        "F" => Value::of(Plain::Bool(false)),
        "?" => Value::of(Plain::Unset),
        "N" => Value::of(Plain::Nil),
        "." => Value {
            node: ValueNode::Void,
        },
        "n" => Value {
            node: ValueNode::Layout(Layout::Newline),
        },
        "s" => Value {
            node: ValueNode::Layout(Layout::Space),
        },
        "u" => united(rt, alloc, Plain::Int(3)),
        "U" => united(rt, alloc, Plain::Unset),
        "!" => {
            let items = vec![in alloc; Value::of(Plain::Unset)].expect(rt, "memory");
            row(rt, alloc, items)
        }
        _ => Value::of(Plain::Int(word.parse().expect(rt, "an INT"))),
    }
}

// The value that a word of a table tells.
fn value(rt: &impl Abort, alloc: Global, word: &str) -> Value {
    if let Some(digits) = word.strip_prefix("L") {
        let number: i128 = digits.parse().expect(rt, "a LONG INT");
        return Value::of(Plain::Long(Long::of(number)));
    }
    if let Some(digits) = word.strip_prefix("#") {
        let bits = u64::from_str_radix(digits, 16).expect(rt, "BITS");
        return Value::of(Plain::Bits(bits));
    }
    if let Some(chars) = word.strip_prefix("\"") {
        return text(rt, alloc, chars);
    }
    if let Some(char) = word.strip_prefix("'") {
        let code = *char.as_bytes().first().expect(rt, "a CHAR");
        return Value::of(Plain::Char(code));
    }
    named(rt, alloc, word)
}

// What stopped an operator.
fn stopped(rt: &impl Abort, alloc: Global, stop: OpStop) -> String {
    match stop {
        OpStop::Fault(kind) => format!(in alloc; "{kind:?}").expect(rt, "memory"),
        OpStop::NoMemory => rt.panic("memory"),
    }
}

// Adds the items of a row of CHAR, behind a quote; the row has bounds from 1.
fn add_row(rt: &impl Abort, told: &mut String, bounds: &Bounds, parts: &[Value]) {
    let upper = parts.len() as i64;
    holds(
        rt,
        bounds.as_slice() == [(1, upper)].as_slice(),
        "bounds from 1",
    );
    told.push('"').expect(rt, "memory");
    for part in parts {
        if let Some(Plain::Char(code)) = part.plain() {
            told.push(char::from(code)).expect(rt, "memory");
        }
    }
}

fn add_long(rt: &impl Abort, told: &mut String, number: Long) {
    let number = number.number();
    write!(told, "L{number}").expect(rt, "memory");
}

// A value in the words of the table.
fn shown(rt: &impl Abort, alloc: Global, value: &Value) -> String {
    let mut told = String::new(alloc);
    match &value.node {
        ValueNode::Plain(Plain::Int(number)) => write!(&mut told, "{number}").expect(rt, "memory"),
        ValueNode::Plain(Plain::Long(number)) => add_long(rt, &mut told, *number),
        ValueNode::Plain(Plain::Bits(bits)) => write!(&mut told, "#{bits:x}").expect(rt, "memory"),
        ValueNode::Plain(Plain::Bool(true)) => told.push('T').expect(rt, "memory"),
        ValueNode::Plain(Plain::Bool(false)) => told.push('F').expect(rt, "memory"),
        ValueNode::Plain(Plain::Char(code)) => {
            told.push('\'').expect(rt, "memory");
            told.push(char::from(*code)).expect(rt, "memory");
        }
        ValueNode::Row { bounds, parts } => add_row(rt, &mut told, bounds, parts.as_slice()),
        _ => {}
    }
    told
}

/// A row of the operators combined with assignation, the old value and the other operand, and the new value (Report,
/// 10.2.3.11).
const UPDATES: &str = "\
1 3 4 = 7
1 \"ab \"cd = \"abcd
2 3 4 = -1
3 3 4 = 12
3 \"ab 2 = \"abab
4 -7 2 = -3
4 7 0 = Divisor
5 -7 3 = 2
1 L170141183460469231731687303715884105726 L1 = L170141183460469231731687303715884105727
1 L170141183460469231731687303715884105727 L1 = Overflow
2 L-170141183460469231731687303715884105727 L1 = Overflow
3 L-4 L5 = L-20
4 L-7 L2 = L-3
4 L7 L0 = Divisor
5 L-7 L3 = L2
1 L3 4 = Kind
1 3 L4 = Kind
6 \"ab 'c = \"cab
6 \"ab \"cd = \"cdab
1 ? 4 = Unset
0 3 4 = Kind
7 3 4 = Kind
";

// What comes of a row, in the words of the table.
fn outcome(rt: &impl Abort, alloc: Global, application: &str, is_update: bool) -> String {
    let (row, operands) = cut(rt, application, " ");
    let (left, right) = cut(rt, operands, " ");
    let row = row.parse().expect(rt, "a row");
    let left = value(rt, alloc, left);
    let right = value(rt, alloc, right);
    let result = if is_update {
        updated(alloc, row, &left, &right)
    } else {
        apply(alloc, row, &left, &right)
    };
    drop(left);
    drop(right);
    match result {
        Ok(value) => {
            let told = shown(rt, alloc, &value);
            drop(value);
            told
        }
        Err(stop) => stopped(rt, alloc, stop),
    }
}

/// What comes of a row and its operands is what the line says.
pub fn is_outcome(rt: &impl Abort, alloc: Global, line: &str, is_update: bool) {
    let (application, expected) = cut(rt, line, " = ");
    let told = outcome(rt, alloc, application, is_update);
    agrees(rt, &told, expected, application);
    drop(told);
}

#[test]
fn applications(rt: HostRuntime) {
    for line in APPLICATIONS.lines() {
        is_outcome(&rt, rt.alloc(), line, false);
    }
}

#[test]
fn updates(rt: HostRuntime) {
    for line in UPDATES.lines() {
        is_outcome(&rt, rt.alloc(), line, true);
    }
}

// A text behind a colon, with marks for layout.
fn in_marks(rt: &impl Abort, alloc: Global, written: Result<Text, OpStop>) -> String {
    let text = match written {
        Ok(text) => text,
        Err(stop) => return stopped(rt, alloc, stop),
    };
    let mut told = String::from_str(alloc, ":").expect(rt, "memory");
    for byte in text.as_slice() {
        let mark = match *byte {
            b' ' => '_',
            b'\n' => '/',
            other => char::from(other),
        };
        told.push(mark).expect(rt, "memory");
    }
    drop(text);
    told
}

#[test]
fn wholes(rt: HostRuntime) {
    for line in WHOLES.lines() {
        let (call, expected) = cut(&rt, line, " = ");
        let (number, width) = cut(&rt, call, " ");
        let number = number.parse().expect(&rt, "an INT");
        let width = width.parse().expect(&rt, "a width");
        let text = whole(rt.alloc(), number, width);
        let told = in_marks(&rt, rt.alloc(), text);
        agrees(&rt, &told, expected, call);
        drop(told);
    }
}

#[test]
fn items(rt: HostRuntime) {
    for line in ITEMS.lines() {
        let (word, expected) = cut(&rt, line, " = ");
        let item = value(&rt, rt.alloc(), word);
        let text = item_text(rt.alloc(), &item);
        drop(item);
        let told = in_marks(&rt, rt.alloc(), text);
        agrees(&rt, &told, expected, word);
        drop(told);
    }
}

/// Signs, their priority between two operands, and how many operators they have between two and before one operand
/// (Report, 10.2.3.0; the counts by hand).
const SIGNS: &str = "\
+:= 1 4 0
MODAB 1 2 0
+=: 1 2 0
OR 2 2 0
& 3 2 0
EQ 4 8 0
/= 4 8 0
< 5 6 0
GE 5 7 0
+ 6 6 2
- 6 2 2
* 7 6 0
% 7 2 0
%* 7 2 0
ELEM 7 1 0
** 8 2 0
SHR 8 1 0
UPB 8 1 1
NOT 0 0 2
ABS 0 0 5
LEVEL 0 0 2
DOWN 0 0 1
LENG 0 0 1
SHORTEN 0 0 1
QUID 0 0 0
";

// The signs have these priorities and operators; there are none for another number of operands.
#[test]
fn signs(rt: HostRuntime) {
    for line in SIGNS.lines() {
        let (sign, numbers) = cut(&rt, line, " ");
        let (priority, counts) = cut(&rt, numbers, " ");
        let (dyadic, monadic) = cut(&rt, counts, " ");
        let spelling = sign.as_bytes();
        let found = priority_of(spelling).unwrap_or(0);
        holds(&rt, Ok(found) == priority.parse(), sign);
        holds(
            &rt,
            Ok(candidates(spelling, 2).len()) == dyadic.parse(),
            sign,
        );
        holds(
            &rt,
            Ok(candidates(spelling, 1).len()) == monadic.parse(),
            sign,
        );
        holds(&rt, candidates(spelling, 3).is_empty(), sign);
    }
}

// Plain values: 1 + 2 is 3, a CHAR is left to `apply`, and - 5 is -5.
#[test]
fn plain_values(rt: HostRuntime) {
    let sum = apply_plain(15, Plain::Int(1), Plain::Int(2));
    holds(&rt, matches!(sum, Some(Ok(Plain::Int(3)))), "1 + 2");
    let text = apply_plain(15, Plain::Char(97), Plain::Char(98));
    holds(&rt, text.is_none(), "two CHAR");
    let negative = apply_monadic(27, Plain::Int(5));
    holds(&rt, matches!(negative, Ok(Plain::Int(-5))), "- 5");
}
