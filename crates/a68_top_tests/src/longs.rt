//! Programs with LONG INT: the worked rows, and others whose answers were reckoned by hand or with
//! whole numbers of any size. A LONG INT is printed in 40 places.
use crate::calls::{answers, of_words, run_f, wide};

/// Formulas, and what is printed of them.
const ARITHMETIC: &[(&str, &str)] = &[
    (
        "( print(LONG 9223372036854775807 + LONG 1) )",
        "                    +9223372036854775808",
    ),
    (
        "( print(LENG max int * LENG max int) )",
        " +85070591730234615847396907784232501249",
    ),
    (
        "( print(LONG 0) )",
        "                                      +0",
    ),
    (
        "( print(LONG 0001) )",
        "                                      +1",
    ),
    (
        "( print(- LONG 0) )",
        "                                      +0",
    ),
    (
        "( print(LONG 170141183460469231731687303715884105727) )",
        "+170141183460469231731687303715884105727",
    ),
    (
        "( print(- LONG 170141183460469231731687303715884105727) )",
        "-170141183460469231731687303715884105727",
    ),
    (
        "( print(- - LONG 170141183460469231731687303715884105727) )",
        "+170141183460469231731687303715884105727",
    ),
    (
        "( print(+ LONG 5) )",
        "                                      +5",
    ),
    (
        "( print((ABS - LONG 170141183460469231731687303715884105727, ABS LONG 7)) )",
        "+170141183460469231731687303715884105727                                      +7",
    ),
    (
        "( print((SIGN LONG 170141183460469231731687303715884105727, SIGN LONG 0, SIGN - LONG 1)) )",
        "                  +1                  +0                  -1",
    ),
    (
        "( print((ODD LONG 170141183460469231731687303715884105727, ODD - LONG 3, ODD LONG 18446744073709551616)) )",
        "TTF",
    ),
    (
        "( print((long max int = LONG 170141183460469231731687303715884105727, long int width)) )",
        "T                 +39",
    ),
    (
        "( print(long max int - LONG 1 + LONG 1) )",
        "+170141183460469231731687303715884105727",
    ),
    (
        "( print(- long max int + LONG 1 - LONG 1) )",
        "-170141183460469231731687303715884105727",
    ),
    (
        "( print(LONG 18446744073709551615 + LONG 1) )",
        "                   +18446744073709551616",
    ),
    (
        "( print(LONG 18446744073709551616 - LONG 1) )",
        "                   +18446744073709551615",
    ),
    (
        "( print(LONG 18446744073709551616 * - LONG 4611686018427387904) )",
        " -85070591730234615865843651857942052864",
    ),
    (
        "( print(LONG 13043817825332782212 * LONG 13043817825332782212) )",
        "+170141183460469231722567801800623612944",
    ),
    (
        "( print(LONG 170141183460469231731687303715884105727 * - LONG 1) )",
        "-170141183460469231731687303715884105727",
    ),
    (
        "( print((long max int OVER LONG 10, long max int OVER - LONG 10)) )",
        " +17014118346046923173168730371588410572 -17014118346046923173168730371588410572",
    ),
    (
        "( print((- LONG 7 OVER LONG 2, - LONG 7 OVER - LONG 2, LONG 7 OVER - LONG 2)) )",
        "                                      -3                                      +3                                      -3",
    ),
    (
        "( print((- LONG 7 MOD LONG 2, - LONG 7 MOD - LONG 2, LONG 7 MOD - LONG 2)) )",
        "                                      +1                                      +1                                      +1",
    ),
    (
        "( print((- long max int MOD LONG 10, long max int MOD - long max int)) )",
        "                                      +3                                      +0",
    ),
    (
        "( print(- long max int OVER - LONG 1) )",
        "+170141183460469231731687303715884105727",
    ),
    (
        "( print((LONG 2 ** 126, LONG 2 ** 100, LONG 0 ** 0)) )",
        " +85070591730234615865843651857942052864        +1267650600228229401496703205376                                      +1",
    ),
    (
        "( print((- LONG 2 ** 3, (- LONG 2) ** 126, LONG 1 ** max int)) )",
        "                                      -8 +85070591730234615865843651857942052864                                      +1",
    ),
    (
        "( print((- LONG 3) ** 79) )",
        " -49269609804781974438694403402127765867",
    ),
    (
        "( print((LENG max int, LENG - max int, LENG 0)) )",
        "                    +9223372036854775807                    -9223372036854775807                                      +0",
    ),
    (
        "( print((SHORTEN LENG max int, SHORTEN LENG - max int, SHORTEN LONG 0)) )",
        "+9223372036854775807-9223372036854775807                  +0",
    ),
    (
        "( print(LENG SHORTEN LONG 9223372036854775807) )",
        "                    +9223372036854775807",
    ),
];

/// Comparisons, and what is printed of them.
const COMPARED: &[(&str, &str)] = &[
    (
        "( print((LONG 1 = LONG 1, LONG 1 /= LONG 1, LONG 1 < LONG 1, LONG 1 <= LONG 1, LONG 1 >= LONG 1, LONG 1 > LONG 1)) )",
        "TFFTTF",
    ),
    (
        "( print((LONG 1 EQ LONG 2, LONG 1 NE LONG 2, LONG 1 LT LONG 2, LONG 1 LE LONG 2, LONG 1 GE LONG 2, LONG 1 GT LONG 2)) )",
        "FTTTFF",
    ),
    (
        "( LONG INT a = - long max int, b = long max int; print((a < b, b < a, a = - b, a <= - b, b >= a, a > b)) )",
        "TFTTTF",
    ),
    (
        "( print((LONG 18446744073709551616 > LONG 18446744073709551615, LONG 18446744073709551616 = LONG 0, - LONG 18446744073709551616 < - LONG 18446744073709551615)) )",
        "TFT",
    ),
    (
        "( LONG INT a = LONG 9223372036854775808; print((a > LENG max int, a - LONG 1 = LENG max int, a = LONG 9223372036854775808)) )",
        "TTT",
    ),
];

/// Programs that hold LONG INT in variables, rows, structures, unions and procedures.
const HELD: &[(&str, &str)] = &[
    (
        "( LONG INT x := LONG 5; x +:= LONG 2; x *:= LONG 3; print(x) )",
        "                                     +21",
    ),
    (
        "( LONG INT x := LONG 50; x -:= LONG 1; x OVERAB LONG 5; x MODAB LONG 4; print(x) )",
        "                                      +1",
    ),
    (
        "( LONG INT x := LONG 7; x PLUSAB LONG 1; x MINUSAB LONG 3; x TIMESAB - LONG 2; print(x) )",
        "                                     -10",
    ),
    (
        "( LONG INT x; LONG INT y := x := long max int; print((x, y = x)) )",
        "+170141183460469231731687303715884105727T",
    ),
    (
        "( [] LONG INT a = (LONG 1, long max int, - LONG 3); print((a[1], a[2], a[3])) )",
        "                                      +1+170141183460469231731687303715884105727                                      -3",
    ),
    (
        "( [3] LONG INT a; FOR i TO 3 DO a[i] := LONG 10 ** (10 * i) OD; print((a[3], UPB a)) )",
        "        +1000000000000000000000000000000                  +3",
    ),
    (
        "( [2, 2] LONG INT a; a[1, ] := (LONG 1, LONG 2); a[2, ] := a[1, ]; print(a[2, 2]) )",
        "                                      +2",
    ),
    (
        "( FLEX [1 : 0] LONG INT a; a := (LONG 4, LONG 5); print((a[2], UPB a)) )",
        "                                      +5                  +2",
    ),
    (
        "( MODE R = STRUCT (LONG INT num, INT den); R r := (LONG 6, 4); num OF r *:= LONG 2; print((num OF r, den OF r)) )",
        "                                     +12                  +4",
    ),
    (
        "( UNION (INT, LONG INT) u := LONG 3; print(CASE u IN (INT i): 1, (LONG INT l): 2 ESAC); u := 3; print(CASE u IN (LONG INT l): 2, (INT i): 1 ESAC) )",
        "                  +2                  +1",
    ),
    (
        "( UNION (LONG INT, BOOL) u := TRUE; u := long max int; print((u | (LONG INT l): l | LONG 0)) )",
        "+170141183460469231731687303715884105727",
    ),
    (
        "( PROC f = (LONG INT n) LONG INT: IF n <= LONG 1 THEN LONG 1 ELSE n * f(n - LONG 1) FI; print(f(LONG 33)) )",
        "  +8683317618811886495518194401280000000",
    ),
    (
        "( PROC p = (REF LONG INT x) VOID: x := x + LONG 1; LONG INT y := long max int - LONG 1; p(y); print(y) )",
        "+170141183460469231731687303715884105727",
    ),
    (
        "( OP + = (INT a, LONG INT b) LONG INT: LENG a + b; print(1 + LONG 2) )",
        "                                      +3",
    ),
    (
        "( MODE N = LONG INT; N n = LONG 8; REF N p = HEAP N := n; p +:= n; print(p) )",
        "                                     +16",
    ),
    (
        "( REF LONG INT p = LOC LONG INT; LONG INT x; p := x := LONG 2; print((p IS x, p, x)) )",
        "F                                      +2                                      +2",
    ),
    (
        "( LONG INT s := LONG 0; PAR (s := s + LONG 1, SKIP); print(s) )",
        "                                      +1",
    ),
    (
        "( LONG INT x = IF TRUE THEN LONG 1 ELSE SKIP FI; print(x) )",
        "                                      +1",
    ),
];

/// Calls of `whole` and prints.
const WORDED: &[(&str, &str)] = &[
    (
        "( print((whole(LONG 12, 0), \",\", whole(LONG 12, 5), \",\", whole(- long max int, 0))) )",
        "12,  +12,-170141183460469231731687303715884105727",
    ),
    (
        "( print((whole(long max int, 40), whole(LONG 7, - 3), whole(LONG 1000, 3))) )",
        "+170141183460469231731687303715884105727  7***",
    ),
    (
        "( UNION (INT, LONG INT) u := LONG 5; print(whole(u, 0)); u := 6; print(whole(u, 3)) )",
        "5 +6",
    ),
    (
        "( print((1, LONG 1, \"x\", - LONG 2, newline)) )",
        "                  +1                                      +1x                                      -2\n",
    ),
];

/// Programs that meet a fault, and what is noted.
const FAULTS: &[(&str, &str)] = &[
    (
        "( print(SHORTEN (LONG 9223372036854775807 + LONG 1)) )",
        "a68: fault Overflow at byte 8\n",
    ),
    (
        "( print(long max int + LONG 1) )",
        "a68: fault Overflow at byte 8\n",
    ),
    (
        "( print(- long max int - LONG 1) )",
        "a68: fault Overflow at byte 8\n",
    ),
    (
        "( print(LONG 18446744073709551616 * LONG 9223372036854775808) )",
        "a68: fault Overflow at byte 8\n",
    ),
    (
        "( print(- LONG 18446744073709551616 * LONG 9223372036854775808) )",
        "a68: fault Overflow at byte 8\n",
    ),
    (
        "( print(LONG 13043817825332782213 * LONG 13043817825332782213) )",
        "a68: fault Overflow at byte 8\n",
    ),
    (
        "( print(LONG 2 ** 127) )",
        "a68: fault Overflow at byte 8\n",
    ),
    (
        "( print(- LONG 2 ** 127) )",
        "a68: fault Overflow at byte 8\n",
    ),
    (
        "( print(long max int * long max int) )",
        "a68: fault Overflow at byte 8\n",
    ),
    (
        "( print(LONG 1 OVER LONG 0) )",
        "a68: fault Divisor at byte 8\n",
    ),
    (
        "( print(long max int MOD LONG 0) )",
        "a68: fault Divisor at byte 8\n",
    ),
    (
        "( print(SHORTEN - LONG 9223372036854775808) )",
        "a68: fault Overflow at byte 8\n",
    ),
    (
        "( print(SHORTEN long max int) )",
        "a68: fault Overflow at byte 8\n",
    ),
    ("( print(LONG 2 ** - 1) )", "a68: fault Domain at byte 8\n"),
    (
        "( LONG INT x; print(x + LONG 1) )",
        "a68: fault Unset at byte 20\n",
    ),
    (
        "( LONG INT x; print(LENG SHORTEN x) )",
        "a68: fault Unset at byte 25\n",
    ),
    ("( INT x; print(LENG x) )", "a68: fault Unset at byte 15\n"),
    (
        "( LONG INT x := long max int; x +:= LONG 1; print(x) )",
        "a68: fault Overflow at byte 30\n",
    ),
    (
        "( LONG INT x := LONG 1; x OVERAB LONG 0; print(x) )",
        "a68: fault Divisor at byte 24\n",
    ),
    (
        "( LONG INT x; x +:= LONG 1; print(x) )",
        "a68: fault Unset at byte 14\n",
    ),
    (
        "( PROC f = (LONG INT n) LONG INT: IF n <= LONG 1 THEN LONG 1 ELSE n * f(n - LONG 1) FI; print(f(LONG 34)) )",
        "a68: fault Overflow at byte 66\n",
    ),
    (
        "( LONG INT x = SKIP; print((x + LONG 1)) )",
        "a68: fault Unset at byte 28\n",
    ),
];

/// Texts that are refused, and what is noted.
const REFUSED: &[(&str, &str)] = &[
    ("( print(1 + LONG 1) )", "a68: refused O1 at byte 10\n"),
    (
        "( print(LONG 170141183460469231731687303715884105728) )",
        "a68: refused S5 at byte 13\n",
    ),
    ("( print(LONG 1 + 1) )", "a68: refused O1 at byte 15\n"),
    ("( print(LONG 1 = 1) )", "a68: refused O1 at byte 15\n"),
    (
        "( print(LONG 2 ** LONG 3) )",
        "a68: refused O1 at byte 15\n",
    ),
    ("( print(2 ** LONG 3) )", "a68: refused O1 at byte 10\n"),
    ("( print(LENG LONG 1) )", "a68: refused O1 at byte 8\n"),
    ("( print(SHORTEN 1) )", "a68: refused O1 at byte 8\n"),
    (
        "( LONG INT x := LONG 1; x +:= 1 )",
        "a68: refused O1 at byte 26\n",
    ),
    (
        "( INT x := 1; x +:= LONG 1 )",
        "a68: refused O1 at byte 16\n",
    ),
    ("( print(LONG 3 * \"a\") )", "a68: refused O1 at byte 15\n"),
    ("( print(REPR LONG 65) )", "a68: refused O1 at byte 8\n"),
    ("( print(BIN LONG 65) )", "a68: refused O1 at byte 8\n"),
    (
        "( SEMA s = LEVEL LONG 1; SKIP )",
        "a68: refused O1 at byte 11\n",
    ),
    ("( LONG INT x = 1; SKIP )", "a68: refused C1 at byte 15\n"),
    ("( INT x = LONG 1; SKIP )", "a68: refused C1 at byte 10\n"),
    (
        "( LONG INT i = LONG 1; [3] INT a; a[i] := 1 )",
        "a68: refused C1 at byte 36\n",
    ),
    (
        "( FOR i TO LONG 3 DO SKIP OD )",
        "a68: refused C1 at byte 11\n",
    ),
    (
        "( CASE LONG 1 IN SKIP, SKIP OUT SKIP ESAC )",
        "a68: refused C1 at byte 7\n",
    ),
    (
        "( print(whole(LONG 1, LONG 1)) )",
        "a68: refused C1 at byte 22\n",
    ),
    (
        "( print(9223372036854775808) )",
        "a68: refused S5 at byte 8\n",
    ),
    (
        "( print(LONG 340282366920938463463374607431768211456) )",
        "a68: refused S5 at byte 13\n",
    ),
    ("( SHORT INT x; SKIP )", "a68: refused S3 at byte 2\n"),
];

/// A program that is run with its names and listed.
const NAMED: &str = "( LONG INT x := LONG 5, y; INT c := 3; x := - long max int; SKIP )";

const NAMES: &str = "x = -170141183460469231731687303715884105727\ny = unset\nc = 3\n";

#[test]
fn formulas_print(rt: HostRuntime) {
    for (text, printed) in ARITHMETIC {
        answers(&rt, rt.alloc(), wide(text), 0, (printed, ""));
    }
}

#[test]
fn comparisons_print(rt: HostRuntime) {
    for (text, printed) in COMPARED {
        answers(&rt, rt.alloc(), wide(text), 0, (printed, ""));
    }
}

#[test]
fn programs_hold_long_numbers(rt: HostRuntime) {
    for (text, printed) in HELD {
        answers(&rt, rt.alloc(), wide(text), 0, (printed, ""));
    }
}

#[test]
fn numbers_are_worded(rt: HostRuntime) {
    for (text, printed) in WORDED {
        answers(&rt, rt.alloc(), wide(text), 0, (printed, ""));
    }
}

#[test]
fn faults_are_met(rt: HostRuntime) {
    for (text, noted) in FAULTS {
        answers(&rt, rt.alloc(), run_f(text), 3, ("", noted));
    }
}

#[test]
fn texts_are_refused(rt: HostRuntime) {
    for (text, noted) in REFUSED {
        answers(&rt, rt.alloc(), run_f(text), 1, ("", noted));
    }
}

#[test]
fn long_variables_are_named(rt: HostRuntime) {
    let given = of_words(&["run", "f", "--names"], NAMED);
    answers(&rt, rt.alloc(), given, 0, ("", NAMES));
}

#[test]
fn constants_are_listed_as_numbers(rt: HostRuntime) {
    let given = of_words(&["code", "f"], "( print(LONG 18446744073709551616) )");
    let listing = "0 Push 18446744073709551616\n1 Unite 13\n2 Print 1\n3 End\n";
    answers(&rt, rt.alloc(), given, 0, (listing, ""));
}
