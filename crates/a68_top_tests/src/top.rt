//! The worked rows of the top call, over shelves and sinks in memory.
use crate::calls::{Words, answers, call, of_words, prints, run_f};
use crate::table::holds;

const FORMULA: &str = "BEGIN print(1 + 2 * 3) END";

const SEVEN: &str = "                  +7";

const USAGE: &str =
    "usage: a68 run FILE [--workers N] [--fuel N] [--names] [--input NAME] | check FILE | code FILE | make N [--workers N] | trace FILE [--workers N] [--fuel N] | replay FILE SCHEDULE | races FILE [--workers N] [--fuel N] | list FILE\n";

const FIVE: &str = "BEGIN INT x := 5; print(x) END";

const COUNT: &str = "BEGIN INT i := 0; WHILE i < 3 DO i := i + 1 OD; print(i) END";

const CHOICE: &str =
    "BEGIN INT x := 2; INT y; IF x > 2 THEN y := 1 ELSE y := x * x - 1 FI; print(y) END";

const TURNS: &str = "BEGIN INT x := 0; WHILE x = 0 DO x := 0 OD END";

const SPENT: &str = "a68: fuel spent\n";

/// Texts, and what their programs print.
const PRINTING: &[(&str, &str)] = &[
    (FORMULA, SEVEN),
    ("BEGIN print(2 - 3 * 4) END", "                 -10"),
    ("BEGIN print(8 - 2 - 1) END", "                  +5"),
    ("BEGIN p r\nint(007) END", SEVEN),
    ("BEGINprint(7)END", SEVEN),
    ("BEGIN print(1 2 - 0 0 5) END", SEVEN),
    ("BEGIN # f # print CO 1) CO (7)END", SEVEN),
    ("PR \"quiet PR BEGIN print(COMMENT CO COMMENT 7) END", SEVEN),
    ("BEGIN print(7) END PRAGMAT PR1 END PRAGMAT", SEVEN),
    ("( print(7) )", SEVEN),
    ("( write(7) )", SEVEN),
    ("BEGIN print(\"a\") END", "a"),
    (
        "BEGIN print((\"a\", \"bcd\", 7)) END",
        "abcd                  +7",
    ),
    ("BEGIN print(15 OVER 2); SKIP END", SEVEN),
    ("BEGIN SKIP; print(- - 7) END", SEVEN),
    ("BEGIN print(10-+3) END", SEVEN),
    ("BEGIN SKIP END", ""),
    ("(1, 2)", ""),
    ("( INT n = 7; print(n) )", SEVEN),
    (
        "( INT i = 6; ( BOOL i = TRUE; print(i) ); print(i + 1) )",
        "T                  +7",
    ),
    ("( INT x := 1, y := 2; x := y := 7; print(x) )", SEVEN),
    ("( REF INT p = HEAP INT := 3; p := p + 4; print(p) )", SEVEN),
    (
        "( INT x := 3; REF INT p := x; REF INT (p) := 7; print(x) )",
        SEVEN,
    ),
    (
        "( INT x, y; REF INT p = x; print((p IS x, p ISNT x, p IS y)) )",
        "TFF",
    ),
    (
        "( print(IF FALSE THEN 1 ELIF TRUE THEN 7 ELSE 3 FI) )",
        SEVEN,
    ),
    (
        "( BOOL b = 3 > 2; CHAR c := REPR 65; print((b, c, (2r11 AND 2r10) = 2r10)) )",
        "TAT",
    ),
    (
        "( INT s := 0; FOR i FROM 3 BY -1 TO 1 DO s := 10 * s + i OD; print(whole(s, 0)) )",
        "321",
    ),
    (
        "( INT s := 0; FOR i WHILE s < 7 DO s := s + i OD; print(whole(s, 0)) )",
        "10",
    ),
    (
        "( MODE N = INT; PRIO MINUS = 1; N n := 7; print(n) )",
        SEVEN,
    ),
    (
        "( print((7 OVER -2, -7 MOD 3)) )",
        "                  -3                  +2",
    ),
    ("( print(- 1 ** 2) )", "                  +1"),
    (
        "( INT the value = 3; print(thevalue) )",
        "                  +3",
    ),
    (
        "( BOOL b = TRUE; INT x := 5; print((b | x | 2) + 1) )",
        "                  +6",
    ),
    (
        "( print((whole(7, 4), whole(-7, -4), whole(12345, 3), whole(0, 0))) )",
        "  +7  -7***0",
    ),
    (
        "( print((ABS (16rff AND 2r1010), 64 ELEM 2r1)) )",
        "                 +10T",
    ),
    (
        "( REF INT p := NIL; print((p IS NIL, REF INT (p) IS NIL)) )",
        "FT",
    ),
    ("( CASE 2 IN print(3), print(7) ESAC )", SEVEN),
    ("( CASE 3 IN print(3), print(7) ESAC )", ""),
    ("( print(CASE 0 IN 1, 2 OUT 7 ESAC) )", SEVEN),
    ("( print((5 | 1, 2 |: 2 | 3, 7 | 4)) )", SEVEN),
    (
        "( INT x := 4; IF INT y = x + 3; y > 6 THEN print(y) ELSE print(x) FI )",
        SEVEN,
    ),
    (
        "( INT x = 4; print(IF INT x = 1; x > 1 THEN x ELIF INT z = x + 1; z > 4 THEN z ELSE 7 FI) )",
        SEVEN,
    ),
    (
        "( FOR i TO 3 DO CASE INT k = i; k IN print(\"a\"), print(whole(k, 0)) OUT print(\"z\") ESAC OD )",
        "a2z",
    ),
    (
        "( INT x; (x := 3, print(whole(4, 0))); print(whole(x, 0)) )",
        "43",
    ),
    ("( ( 1 < 2 | print(7) | print(8) ) )", SEVEN),
    (
        "BEGIN print(0-9223372036854775807)END",
        "-9223372036854775807",
    ),
    (
        "( PROC fact = (INT n) INT: (n = 0 | 1 | n * fact(n - 1)); print(fact(20)) )",
        "+2432902008176640000",
    ),
    ("( PROC p = VOID: print(\"x\"); p; p )", "xx"),
    (
        "( PRIO MAX = 9; OP MAX = (INT a, b) INT: (a > b | a | b); print(3 MAX 5 + 1) )",
        "                  +6",
    ),
    (
        "( INT x = 1; PROC f = INT: x; ( INT x = 2; print(f + x + 4) ) )",
        SEVEN,
    ),
    ("( PROC INT p := INT: 7; print(p) )", SEVEN),
    ("( PROC p := INT: 7; print(p) )", SEVEN),
    (
        "( PROC (INT) INT f; f := (INT n) INT: n + 1; print(f(6)) )",
        SEVEN,
    ),
    (
        "( PROC f = (INT a, b) INT: 10 * a + b; print(whole(f(2, 3), 0)) )",
        "23",
    ),
    (
        "( PROC f = (REF INT x) VOID: x := x + 1; INT y := 6; f(y); print(y) )",
        SEVEN,
    ),
    (
        "( PROC twice = (PROC (INT) INT f, INT n) INT: f(f(n)); print(twice((INT n) INT: n + 2, 3)) )",
        SEVEN,
    ),
    ("( OP - = (BOOL b) BOOL: NOT b; print(- FALSE) )", "T"),
    ("( [1 : 2] INT a; a[2] := 7; print(a[2]) )", SEVEN),
    (
        "( INT n := 2; MODE R = [n] INT; R a; n := 7; ( INT m = 1; R b; print(UPB b * m) ) )",
        SEVEN,
    ),
    (
        "( INT n = 2; MODE R = [(INT m = 4; (INT k = 1; n + m + k))] INT; ( INT k = 9; print(UPB HEAP R) ) )",
        SEVEN,
    ),
    ("( SEMA s = LEVEL 7; print(LEVEL s) )", SEVEN),
];

#[test]
fn texts_are_answered(rt: HostRuntime) {
    for (text, out) in PRINTING {
        answers(&rt, rt.alloc(), run_f(text), 0, (out, ""));
    }
}

/// Texts, the status with which each ends, and what is noted.
const REFUSED: &[(&str, u8, &str)] = &[
    ("", 1, "a68: refused S6 at byte 0\n"),
    (" \n\t\r", 1, "a68: refused S6 at byte 4\n"),
    ("# a # CO b CO", 1, "a68: refused S6 at byte 13\n"),
    ("\0", 1, "a68: refused S2 at byte 0\n"),
    ("( print(\"ab )", 1, "a68: refused S1 at byte 8\n"),
    ("( REAL x; SKIP )", 1, "a68: refused S3 at byte 2\n"),
    (
        "( print(9223372036854775808) )",
        1,
        "a68: refused S5 at byte 8\n",
    ),
    ("BEGIN SKIP END ~", 1, "a68: refused S2 at byte 15\n"),
    ("BEGIN print(1) END CO", 1, "a68: refused S1 at byte 19\n"),
    ("BEGIN print(#)#1)", 1, "a68: refused S6 at byte 17\n"),
    (
        "( REF STRING (NIL) +:= \"a\" )",
        3,
        "a68: fault Nil at byte 2\n",
    ),
    ("( print(1 + TRUE) )", 1, "a68: refused O1 at byte 10\n"),
    ("( INT x := TRUE; SKIP )", 1, "a68: refused C1 at byte 11\n"),
    ("( INT x, x; SKIP )", 1, "a68: refused N3 at byte 9\n"),
    ("( PAR ( SKIP ) )", 1, "a68: refused P1 at byte 2\n"),
    ("( print; SKIP )", 1, "a68: refused P2 at byte 2\n"),
    (
        "( STRUCT (INT a, b) s; c OF s; SKIP )",
        1,
        "a68: refused N4 at byte 23\n",
    ),
    (
        "( PROC f = (INT a) INT: a; print(f(1, 2)) )",
        1,
        "a68: refused C3 at byte 33\n",
    ),
    ("( NIL IS NIL; SKIP )", 1, "a68: refused C2 at byte 2\n"),
    (
        "( REF INT p; ( INT x := 1; p := x ); SKIP )",
        3,
        "a68: fault Scope at byte 27\n",
    ),
    (
        "( REF INT p := NIL; print(p) )",
        3,
        "a68: fault Nil at byte 26\n",
    ),
    (
        "( PROC fact = (INT n) INT: (n = 0 | 1 | n * fact(n - 1)); print(fact(21)) )",
        3,
        "a68: fault Overflow at byte 40\n",
    ),
    (
        "( PROC INT p; ( INT x = 1; p := INT: x ); SKIP )",
        3,
        "a68: fault Scope at byte 27\n",
    ),
    (
        "( PROC f = REF INT: LOC INT := 3; print(f) )",
        3,
        "a68: fault Scope at byte 11\n",
    ),
    (
        "( PROC INT p; print(p) )",
        3,
        "a68: fault Unset at byte 20\n",
    ),
    ("BEGIN print(1);", 1, "a68: refused S6 at byte 15\n"),
    ("BEGIN print(1 +) END", 1, "a68: refused S6 at byte 15\n"),
    ("BEGIN print(1x) END", 1, "a68: refused S5 at byte 12\n"),
    (
        "BEGIN print(9223372036854775808) END",
        1,
        "a68: refused S5 at byte 12\n",
    ),
    ("BEGIN print(1+*2) END", 1, "a68: refused O3 at byte 13\n"),
    (
        "BEGIN SKIP; print(1 +* 2) END",
        1,
        "a68: refused O3 at byte 20\n",
    ),
    (
        "BEGIN INT x, x; print(1 +* 2) END",
        1,
        "a68: refused N3 at byte 13\n",
    ),
    ("( MODE A = REF A; SKIP )", 1, "a68: refused M1 at byte 7\n"),
    (
        "( MODE A = PROC A; SKIP )",
        1,
        "a68: refused M1 at byte 7\n",
    ),
    ("( [] INT a; SKIP )", 1, "a68: refused C4 at byte 2\n"),
    ("( FLEX [] INT a; SKIP )", 1, "a68: refused C4 at byte 7\n"),
    (
        "( ( MODE A = INT; SKIP ); A a; SKIP )",
        1,
        "a68: refused N2 at byte 26\n",
    ),
    (
        "( UNION (INT, REF INT) u; SKIP )",
        1,
        "a68: refused M2 at byte 2\n",
    ),
    (
        "( UNION (INT, INT) u; SKIP )",
        1,
        "a68: refused M2 at byte 2\n",
    ),
    (
        "( [] INT b; MODE A = REF A; SKIP )",
        1,
        "a68: refused M1 at byte 17\n",
    ),
    (
        "( ( MODE A = INT; SKIP ); A a; 1 +* 2 )",
        1,
        "a68: refused O3 at byte 33\n",
    ),
    (
        "( OP Q = (INT a) INT: a; OP Q = (INT b) INT: b; SKIP )",
        1,
        "a68: refused O2 at byte 28\n",
    ),
    (
        "( OP Q = (INT a) INT: a; OP Q = (REF INT b) INT: b; SKIP )",
        1,
        "a68: refused O2 at byte 28\n",
    ),
    (
        "( OP (INT) INT Q = SKIP, R = SKIP, Q = SKIP; SKIP )",
        1,
        "a68: refused O2 at byte 35\n",
    ),
    (
        "( OP Q = INT: 1; OP Q = INT: 2; SKIP )",
        1,
        "a68: refused O2 at byte 20\n",
    ),
    (
        "( OP Q = (INT a) INT: a; OP Q = (INT a, b) INT: a; OP Q = (PROC INT a) INT: a; SKIP )",
        1,
        "a68: refused O2 at byte 54\n",
    ),
    (
        "( ( OP P = (INT a) INT: a; OP P = (INT a) INT: a; SKIP ); OP Q = (INT a) INT: a; OP Q = (INT a) INT: a; SKIP )",
        1,
        "a68: refused O2 at byte 30\n",
    ),
    (
        "( MODE A = STRUCT (INT v), B = STRUCT (INT v); OP Q = (A a) INT: 1; OP Q = (B b) INT: 2; SKIP )",
        1,
        "a68: refused O2 at byte 71\n",
    ),
    (
        "( OP Q = ([] INT a) INT: 1; OP Q = (REF FLEX [] INT b) INT: 2; SKIP )",
        1,
        "a68: refused O2 at byte 31\n",
    ),
    ("BEGIN print(1)", 1, "a68: refused S6 at byte 14\n"),
    ("BEGIN print(1) END END", 1, "a68: refused S6 at byte 19\n"),
    ("BEGIN1 print(1) END", 1, "a68: refused N2 at byte 0\n"),
    ("BEGIN print(x) END", 1, "a68: refused N1 at byte 12\n"),
    (
        "BEGIN INT x; INT x; x := 1 END",
        1,
        "a68: refused N3 at byte 17\n",
    ),
    (
        "BEGIN print(1); INT x END",
        1,
        "a68: refused S6 at byte 22\n",
    ),
    (
        "BEGIN INT x; print(x) END",
        3,
        "a68: fault Unset at byte 13\n",
    ),
    ("( REF INT (NIL) +:= 1 )", 3, "a68: fault Nil at byte 2\n"),
    (
        "( INT x; SKIP; x +:= 1 )",
        3,
        "a68: fault Unset at byte 15\n",
    ),
    (
        "( INT x := 1; x %:= 0 )",
        3,
        "a68: fault Divisor at byte 14\n",
    ),
    (
        "BEGIN print(9223372036854775807 + 1) END",
        3,
        "a68: fault Overflow at byte 12\n",
    ),
    (
        "BEGIN print(0 - 9223372036854775807 - 1) END",
        3,
        "a68: fault Overflow at byte 12\n",
    ),
    (
        "BEGIN print(1 + 9223372036854775807 * 2) END",
        3,
        "a68: fault Overflow at byte 16\n",
    ),
    (
        "BEGIN print(9223372036854775807 + 1 + 9223372036854775807 * 2) END",
        3,
        "a68: fault Overflow at byte 12\n",
    ),
];

#[test]
fn texts_are_refused_and_faults_met(rt: HostRuntime) {
    for (text, status, notes) in REFUSED {
        answers(&rt, rt.alloc(), run_f(text), *status, ("", notes));
    }
}

/// How many blanks a text has, and what is noted.
const BLANKS: &[(usize, &str)] = &[
    (1_048_576, "a68: refused S6 at byte 1048576\n"),
    (1_048_577, "a68: refused L1 at byte 1048576\n"),
];

#[test]
fn long_texts_are_refused(rt: HostRuntime) {
    for (length, notes) in BLANKS {
        let blanks = vec![in rt.alloc(); b' '; *length].expect(&rt, "memory");
        let given = Words {
            text: &blanks,
            ..run_f("")
        };
        answers(&rt, rt.alloc(), given, 1, ("", notes));
        drop(blanks);
    }
}

/// Texts, their fuel, the status, what is printed and noted, and how many events there are.
const RUNS: &[(&str, &str, u8, (&str, &str), usize)] = &[
    (FIVE, "7", 0, ("                  +5", ""), 7),
    (FIVE, "6", 5, ("", SPENT), 6),
    (COUNT, "4000000", 0, ("                  +3", ""), 31),
    (COUNT, "31", 0, ("                  +3", ""), 31),
    (TURNS, "10", 5, ("", SPENT), 10),
    (CHOICE, "16000000", 0, ("                  +3", ""), 17),
    (
        "( INT x := 2; x +:= 3; print(x) )",
        "10",
        0,
        ("                  +5", ""),
        10,
    ),
    (
        "( PROC f = (INT a) INT: a; print(f(7)) )",
        "8",
        0,
        (SEVEN, ""),
        8,
    ),
    (
        "( PROC f = (INT a) INT: a; print(f(7)) )",
        "6",
        5,
        ("", SPENT),
        6,
    ),
];

#[test]
fn programs_run_within_their_fuel(rt: HostRuntime) {
    for (text, fuel, status, texts, events) in RUNS {
        let words = ["run", "f", "--fuel", fuel];
        let given = of_words(&words, text);
        let found = answers(&rt, rt.alloc(), given, *status, *texts);
        holds(&rt, found == *events, "how many events there are");
    }
}

/// Texts that are run with their names, the status, and what is noted.
const NAMED: &[(&str, u8, &str)] = &[
    ("( INT x := 4; BOOL b; x +:= 1 )", 0, "x = 5\nb = unset\n"),
    ("BEGIN INT x := 5; SKIP END", 0, "x = 5\n"),
    (
        "( INT a := -5, BOOL b := TRUE, CHAR c := \"x\", BITS d := 2r1, INT u; HEAP INT h := 2; SKIP )",
        0,
        "a = -5\nb = T\nc = x\nd = FFFFFFFFFFFFFFFFFFFFFFFFFFFFFFFFFFFFFFFFFFFFFFFFFFFFFFFFFFFFFFFT\nu = unset\nh = 2\n",
    ),
    (
        "( INT a := 1; INT k = 3; REF INT p := a; REF INT q = a; HEAP BOOL f := FALSE; SKIP )",
        0,
        "a = 1\nf = F\n",
    ),
    (
        "( INT x := 1; ( INT y := 2; x := y ); FOR i TO 2 DO INT z := i; x +:= z OD; IF INT w := 0; w = 0 THEN SKIP FI )",
        0,
        "x = 5\n",
    ),
    ("( INT x := 1; ( INT x := 2; SKIP ) )", 0, "x = 1\n"),
    (
        "( INT a b := 0, c 1; c 1 := 9; SKIP )",
        0,
        "ab = 0\nc1 = 9\n",
    ),
    ("( MODE N = INT; N n := 7; SKIP )", 0, "n = 7\n"),
    ("( CHAR c := REPR 10; SKIP )", 0, "c = \n\n"),
    ("IF INT x := 1; TRUE THEN SKIP FI", 0, ""),
    ("( SKIP )", 0, ""),
    ("(1, 2)", 0, ""),
    (
        "( INT x := 3; INT y; INT z := y + 1; INT w := 1; SKIP )",
        3,
        "a68: fault Unset at byte 30\nx = 3\ny = unset\nz = unset\nw = unset\n",
    ),
    (
        "( INT x := 1; x %:= 0 )",
        3,
        "a68: fault Divisor at byte 14\nx = 1\n",
    ),
    ("( INT x; SKIP", 1, "a68: refused S6 at byte 13\n"),
];

#[test]
fn names_are_told(rt: HostRuntime) {
    for (text, status, notes) in NAMED {
        let given = of_words(&["run", "f", "--names"], text);
        answers(&rt, rt.alloc(), given, *status, ("", notes));
    }
}

#[test]
fn names_stand_behind_the_end_of_fuel(rt: HostRuntime) {
    let words = ["run", "f", "--fuel", "10", "--names"];
    let due = "a68: fuel spent\nx = 0\n";
    answers(&rt, rt.alloc(), of_words(&words, TURNS), 5, ("", due));
}

#[test]
fn what_is_printed_stays(rt: HostRuntime) {
    let given = of_words(&["run", "--names", "f"], FIVE);
    let due = ("                  +5", "x = 5\n");
    answers(&rt, rt.alloc(), given, 0, due);
}

/// Texts, and the listings of their codes.
const LISTED: &[(&str, &str)] = &[
    (
        FORMULA,
        "0 Push 1\n1 Push 2\n2 Push 3\n3 Apply 17\n4 Apply 15\n5 Unite 1\n6 Print 1\n7 End\n",
    ),
    (
        "( print(9223372036854775807) )",
        "0 Push 9223372036854775807\n1 Unite 1\n2 Print 1\n3 End\n",
    ),
    (
        FIVE,
        "0 Enter 1\n1 Make 1 0\n2 Push 5\n3 Store 1\n4 Bind 0\n5 Tag 0 0\n6 Deref 1\n7 Unite 1\n8 Print 1\n9 Leave 0\n10 End\n",
    ),
    (
        CHOICE,
        "0 Enter 2\n1 Make 1 0\n2 Push 2\n3 Store 1\n4 Bind 0\n5 Make 1 0\n6 Bind 1\n7 Tag 0 0\n8 Deref 1\n9 Push 2\n10 Apply 14\n11 Unless 17\n12 Tag 0 1\n13 Push 1\n14 Store 1\n15 Drop\n16 Jump 27\n17 Tag 0 1\n18 Tag 0 0\n19 Deref 1\n20 Tag 0 0\n21 Deref 1\n22 Apply 17\n23 Push 1\n24 Apply 16\n25 Store 1\n26 Drop\n27 Tag 0 1\n28 Deref 1\n29 Unite 1\n30 Print 1\n31 Leave 0\n32 End\n",
    ),
    (
        TURNS,
        "0 Enter 1\n1 Make 1 0\n2 Push 0\n3 Store 1\n4 Bind 0\n5 Push 1\n6 Push 1\n7 Skip 1\n8 Counter\n9 Step 22\n10 Turn\n11 Tag 0 0\n12 Deref 1\n13 Push 0\n14 Apply 9\n15 Unless 22\n16 Tag 0 0\n17 Push 0\n18 Store 1\n19 Drop\n20 Advance 9\n21 Jump 22\n22 Forget\n23 Leave 0\n24 End\n",
    ),
];

#[test]
fn codes_are_listed(rt: HostRuntime) {
    for (text, listing) in LISTED {
        let given = Words {
            room: 1000,
            ..of_words(&["code", "f"], text)
        };
        answers(&rt, rt.alloc(), given, 0, (listing, ""));
    }
}

/// Texts that are compiled and not run, the status, and what is noted.
const CHECKED: &[(&str, u8, &str)] = &[
    (FORMULA, 0, ""),
    (TURNS, 0, ""),
    ("BEGIN INT x; print(x) END", 0, ""),
    ("", 1, "a68: refused S6 at byte 0\n"),
    ("BEGIN print(x) END", 1, "a68: refused N1 at byte 12\n"),
];

#[test]
fn texts_are_checked(rt: HostRuntime) {
    for (text, status, notes) in CHECKED {
        let given = of_words(&["check", "f"], text);
        answers(&rt, rt.alloc(), given, *status, ("", notes));
    }
}

#[test]
fn texts_whose_code_is_asked_for_are_refused(rt: HostRuntime) {
    let given = of_words(&["code", "f"], "BEGIN print(x) END");
    answers(
        &rt,
        rt.alloc(),
        given,
        1,
        ("", "a68: refused N1 at byte 12\n"),
    );
}

#[test]
fn listings_are_broken_off(rt: HostRuntime) {
    let given = Words {
        room: 10,
        ..of_words(&["code", "f"], FORMULA)
    };
    let left = call(&rt, rt.alloc(), given);
    prints(&rt, &left, 7, "0 Push 1\n1");
    drop(left);
}

const MISUSED: &[&[&str]] = &[
    &[],
    &["run"],
    &["walk", "f"],
    &["run", "f", "--fuel", "0"],
    &["check", "f", "g"],
    &["check", "f", "--names"],
    &["code", "f", "--fuel", "7"],
    &["make", "2001"],
];

#[test]
fn words_are_refused(rt: HostRuntime) {
    for words in MISUSED {
        answers(&rt, rt.alloc(), of_words(words, FORMULA), 2, ("", USAGE));
    }
}

#[test]
fn words_name_the_file(rt: HostRuntime) {
    let given = of_words(&["run", "g"], FORMULA);
    answers(&rt, rt.alloc(), given, 0, ("                  +1", ""));
}

#[test]
fn failed_reads_are_answered(rt: HostRuntime) {
    // The text is begun by the first call and given by the next eight, four bytes each.
    for failing in 1..10u64 {
        let given = Words {
            reads_fail: &[failing],
            ..run_f(FORMULA)
        };
        answers(&rt, rt.alloc(), given, 6, ("", "a68: read fault\n"));
    }
}

/// Names of files that are not there.
const ABSENT: &[&str] = &["-", "h"];

#[test]
fn files_that_are_not_there_are_answered(rt: HostRuntime) {
    for name in ABSENT {
        let given = Words {
            words: &["run", name],
            notes_room: 3,
            ..run_f(FORMULA)
        };
        answers(&rt, rt.alloc(), given, 6, ("", "a68"));
    }
}

/// Room for what is printed, the writes that fail, and what is printed of SEVEN then.
const WRITES: &[(u32, &[u64], &str)] = &[(10, &[], "          "), (100, &[3], "        ")];

#[test]
fn failed_writes_are_answered(rt: HostRuntime) {
    for (room, writes_fail, out) in WRITES {
        let given = Words {
            room: *room,
            writes_fail,
            ..run_f(FORMULA)
        };
        let left = call(&rt, rt.alloc(), given);
        prints(&rt, &left, 7, out);
        drop(left);
    }
}

#[test]
fn failed_notes_are_answered(rt: HostRuntime) {
    let little_room = Words {
        notes_room: 5,
        ..run_f("")
    };
    answers(&rt, rt.alloc(), little_room, 7, ("", "a68: "));
}
