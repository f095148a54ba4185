//! Programs with labels, jumps and EXIT: the worked rows, and others whose answers were reckoned by hand.
use crate::calls::{Words, answers, of_words, run_f, wide};
use crate::table::holds;

/// Texts that end well, what is printed, and how many events there are, or 0 where these were not counted by hand.
const RUNS: &[(&str, &str, usize)] = &[
    // A jump back and a jump forward.
    (
        "( INT i := 0; l: i := i + 1; IF i < 3 THEN GO TO l FI; print(i) )",
        "                  +3",
        27,
    ),
    (
        "( GO TO b; print(1) EXIT b: print(2) )",
        "                  +2",
        2,
    ),
    ("( a: print(1); b: SKIP )", "                  +1", 0),
    (
        "( print(1); GOTO e; print(2); e: SKIP )",
        "                  +1",
        0,
    ),
    (
        "( GO TO the end; print(1); the end: print(2) )",
        "                  +2",
        0,
    ),
    (
        "( INT i := 0; a: b: i := i + 1; IF i < 2 THEN GOTO a ELIF i < 4 THEN GO TO b FI; print(i) )",
        "                  +4",
        40,
    ),
    (
        "( INT a := 1071, b := 462, r; l: (b = 0 | GOTO e); r := a MOD b; a := b; b := r; GOTO l; e: print(a) )",
        "                 +21",
        0,
    ),
    (
        "( INT n := 27, k := 0; a: (n = 1 | GOTO e); k := k + 1; (ODD n | GOTO b); n := n OVER 2; GOTO a; b: n := 3 * n + 1; GOTO a; e: print(k) )",
        "                +111",
        0,
    ),
    // What a serial clause with EXIT yields.
    (
        "( print((INT x = 1; IF x = 1 THEN GO TO b FI; 10 EXIT b: 20)) )",
        "                 +20",
        5,
    ),
    ("( print((10 EXIT b: 20)) )", "                 +10", 1),
    (
        "( INT x = (GOTO b; 1 EXIT a: 2 EXIT b: 3); print(x) )",
        "                  +3",
        0,
    ),
    (
        "( INT x = (GOTO a; 1 EXIT a: 2 EXIT b: 3); print(x) )",
        "                  +2",
        0,
    ),
    (
        "( (print(1) EXIT l: print(2)); SKIP )",
        "                  +1",
        0,
    ),
    (
        "( INT a := 1, b := 2; (GOTO l; a EXIT l: b) := 5; print((a, b)) )",
        "                  +1                  +5",
        0,
    ),
    (
        "( INT i := 3; print(1 + (GOTO l; i EXIT l: 4)) )",
        "                  +5",
        0,
    ),
    (
        "( INT x := 5; print((IF FALSE THEN GOTO l FI; x EXIT l: 7) + 1) )",
        "                  +6",
        7,
    ),
    (
        "( UNION (INT, BOOL) u := (GOTO l; 1 EXIT l: TRUE); print((u | (INT i): i, (BOOL b): 5)) )",
        "                  +5",
        0,
    ),
    (
        "( print(IF FALSE THEN 1 EXIT l: 2 ELSE GOTO m; 3 EXIT m: 4 FI) )",
        "                  +4",
        0,
    ),
    (
        "( PROC p = INT: (l: INT: 3); print(p) )",
        "                  +3",
        8,
    ),
    (
        "( PROC sign = (INT n) INT: ((n < 0 | GOTO below); (n > 0 | GOTO above); 0 EXIT below: -1 EXIT above: 1); print((sign(-7), sign(0), sign(7))) )",
        "                  -1                  +0                  +1",
        0,
    ),
    // Out of loops.
    (
        "( print((1, (FOR i TO 5 DO GOTO l OD; 9 EXIT l: 7))) )",
        "                  +1                  +7",
        6,
    ),
    (
        "( FOR i TO 3 DO FOR j TO 3 DO IF i * j = 4 THEN print((i, j)); GOTO l FI OD OD; l: SKIP )",
        "                  +2                  +2",
        0,
    ),
    (
        "( FOR i TO 9 DO (i > 3 | GOTO l); print(i) OD; l: print(0) )",
        "                  +1                  +2                  +3                  +0",
        0,
    ),
    (
        "( INT i := 0; WHILE TRUE DO i := i + 1; (i = 4 | GOTO l) OD; l: print(i) )",
        "                  +4",
        0,
    ),
    (
        "( FOR i TO 4 DO (ODD i | GOTO next); print(i); next: SKIP OD )",
        "                  +2                  +4",
        0,
    ),
    (
        "( INT k := 0; DO k := k + 1; (k < 3 | GOTO m | GOTO e); m: SKIP OD; e: print(k) )",
        "                  +3",
        0,
    ),
    (
        "( [] INT a = (4, 7, 9); PROC find = (INT x) INT: (FOR i TO UPB a DO (a[i] = x | GOTO found) OD; 0 EXIT found: 1); print((find(7), find(8))) )",
        "                  +1                  +0",
        0,
    ),
    (
        "( TO (GOTO l; 3) DO print(1) OD; l: print(2) )",
        "                  +2",
        0,
    ),
    (
        "( FOR i TO 2 DO FOR j TO 2 DO (j = 2 | GOTO next); print((i, j)) OD; next: SKIP OD )",
        "                  +1                  +1                  +2                  +1",
        0,
    ),
    // Out of choices.
    (
        "( CASE 2 IN SKIP, GOTO l, SKIP ESAC; print(1); l: print(2) )",
        "                  +2",
        0,
    ),
    (
        "( IF FALSE THEN a: SKIP ELSE b: c: print(1) FI )",
        "                  +1",
        0,
    ),
    (
        "( CASE 3 IN SKIP, SKIP OUT l: print(1) ESAC )",
        "                  +1",
        0,
    ),
    (
        "( INT x = (TRUE | 3 | GOTO l); print(x); l: print(4) )",
        "                  +3                  +4",
        5,
    ),
    (
        "( UNION (INT, BOOL) u := 1; CASE u IN (INT i): (IF i = 1 THEN GOTO l FI; print(9)) ESAC; print(8); l: print(7) )",
        "                  +7",
        14,
    ),
    // Out of what is elaborated side by side: values that stand to the left are gone.
    (
        "( (GOTO l, print(1)); l: print(2) )",
        "                  +2",
        2,
    ),
    (
        "( PROC p = VOID: ((print(1), GOTO e); e: print(2)); p )",
        "                  +1                  +2",
        0,
    ),
    (
        "( INT x := 1; x := 3 + (GOTO l; 4); l: print(x) )",
        "                  +1",
        9,
    ),
    (
        "( [] INT a = (1, (GOTO l; 2), 3); print(a[1]); l: print(7) )",
        "                  +7",
        0,
    ),
    (
        "( PROC f = (INT a, b) INT: a + b; print(f(1, (GOTO l; 2))); l: print(3) )",
        "                  +3",
        0,
    ),
    (
        "( [1:3] INT a; a[(GOTO l; 1)] := 5; l: print(2) )",
        "                  +2",
        0,
    ),
    (
        "( [1:(GOTO l; 3)] INT a; print(1); l: print(2) )",
        "                  +2",
        0,
    ),
    (
        "( INT n := 0; l: n := n + 1; print(10 * n + (n < 3 | (GOTO l; 1) | n)) )",
        "                 +33",
        0,
    ),
    // Labels and ranges: the innermost definition counts, and a frame that is left is gone.
    (
        "( INT n := 0; (GOTO l; n := 9; l: n := n + 1); print(n); GOTO l; print(7); l: print(8) )",
        "                  +1                  +8",
        14,
    ),
    ("( l: (INT l = 1; print(l)) )", "                  +1", 4),
    (
        "( INT l := 4; (GOTO l; print(9); l: print(1)); print(l) )",
        "                  +1                  +4",
        0,
    ),
    (
        "( INT n := 0; (INT a = 1; (INT b = 2; (INT c = 3; n := a + b + c; GOTO out))); out: print(n) )",
        "                  +6",
        0,
    ),
    (
        "( INT i := 0; l: (INT sq = i * i; print(sq); i := i + 1; (i < 3 | GOTO l)); SKIP )",
        "                  +0                  +1                  +4",
        0,
    ),
    (
        "( [1:3] INT a := (1, 2, 3); INT l = 2; print(a[l:3][1]) )",
        "                  +2",
        15,
    ),
    // Routines: each call has a clause of its own.
    (
        "( PROC f = (INT n) INT: (INT r := 0; IF n = 0 THEN GOTO e FI; r := f(n - 1) + 1; e: r); print(f(3)) )",
        "                  +3",
        57,
    ),
    (
        "( OP DOUBLE = (INT a) INT: (GOTO l; 0 EXIT l: 2 * a); print(DOUBLE 4) )",
        "                  +8",
        0,
    ),
    (
        "( PROC f = (INT n) INT: (n = 0 | 0 | (GOTO l; 5 EXIT l: f(n - 1) + 1)); print(f(4)) )",
        "                  +4",
        0,
    ),
    // Within a parallel unit, about a parallel clause, and with a semaphore that is held.
    (
        "( INT n := 0; l: PAR ( n := n + 1, SKIP ); IF n < 2 THEN GOTO l FI; print(n) )",
        "                  +2",
        26,
    ),
    (
        "( PAR ( (INT i := 0; l: i := i + 1; IF i < 2 THEN GOTO l FI; print(i)), SKIP ) )",
        "                  +2",
        23,
    ),
    (
        "( PAR ( (FOR i DO (i = 3 | GOTO l) OD; l: print(3)), SKIP ) )",
        "                  +3",
        0,
    ),
    (
        "( PAR ( (INT n := 0; l: PAR (n := n + 1, SKIP); (n < 3 | GOTO l); print(n)), SKIP ) )",
        "                  +3",
        0,
    ),
    (
        "( SEMA s = LEVEL 1; INT n := 0; l: DOWN s; n := n + 1; UP s; IF n < 3 THEN GOTO l FI; print(n) )",
        "                  +3",
        0,
    ),
    (
        "( SEMA s = LEVEL 0; PAR ( (INT i := 0; l: UP s; i := i + 1; (i < 3 | GOTO l)), (TO 3 DO DOWN s OD; print(1)) ) )",
        "                  +1",
        0,
    ),
];

/// Texts that end otherwise: the status, what is printed, and what is noted.
const ENDS: &[(&str, u8, (&str, &str))] = &[
    (
        "( GOTO l; INT x = 1; l: print(x) )",
        3,
        ("", "a68: fault Unset at byte 30\n"),
    ),
    (
        "( INT i := 3; l: i := i - 1; print(6 OVER i); GOTO l )",
        3,
        (
            "                  +3                  +6",
            "a68: fault Divisor at byte 35\n",
        ),
    ),
    (
        "( SEMA s = LEVEL 1; (DOWN s; GOTO l; UP s); l: DOWN s; print(1) )",
        4,
        ("", "a68: all halted\n"),
    ),
    (
        "( SEMA s = LEVEL 2; l: DOWN s; print(1); GOTO l )",
        4,
        (
            "                  +1                  +1",
            "a68: all halted\n",
        ),
    ),
];

/// Texts that are refused, and what is noted.
const REFUSED: &[(&str, &str)] = &[
    // A label is declared twice.
    ("( l: SKIP; l: SKIP )", "a68: refused N3 at byte 11\n"),
    ("( INT l; l: SKIP )", "a68: refused N3 at byte 9\n"),
    ("( l: l: SKIP )", "a68: refused N3 at byte 5\n"),
    // A jump has no label, or leaves what none may leave.
    ("( GO TO l; SKIP )", "a68: refused J1 at byte 8\n"),
    (
        "( (INT l = 1; GOTO l); l: SKIP )",
        "a68: refused J1 at byte 19\n",
    ),
    ("( GOTO l; (l: SKIP) )", "a68: refused J1 at byte 7\n"),
    (
        "( IF TRUE THEN l: SKIP ELSE GOTO l FI )",
        "a68: refused J1 at byte 33\n",
    ),
    (
        "( PAR ( (GO TO l), SKIP ); l: SKIP )",
        "a68: refused J1 at byte 15\n",
    ),
    (
        "( PAR ( SKIP, (PAR (GOTO l, SKIP); l: SKIP) ) )",
        "a68: refused J1 at byte 25\n",
    ),
    (
        "( PROC p = VOID: GOTO l; l: SKIP )",
        "a68: refused J1 at byte 22\n",
    ),
    (
        "( PROC p = VOID: (PROC q = VOID: GOTO l; l: SKIP); p )",
        "a68: refused J1 at byte 38\n",
    ),
    (
        "( OP TWICE = (INT a) INT: (a > 9 | GOTO l | 2 * a); l: SKIP )",
        "a68: refused J1 at byte 40\n",
    ),
    (
        "( MODE A = [1:(GOTO l; 1)] INT; l: SKIP )",
        "a68: refused J1 at byte 20\n",
    ),
    ("( GOTO l; print(x) )", "a68: refused J1 at byte 7\n"),
    // A label is no value, and no jump is made a procedure.
    (
        "( l: PROC VOID (GO TO l); SKIP )",
        "a68: refused J2 at byte 16\n",
    ),
    ("( l: print(l) )", "a68: refused J2 at byte 11\n"),
    ("( l: l := 1 )", "a68: refused J2 at byte 5\n"),
    (
        "( PROC VOID p = GOTO l; l: SKIP )",
        "a68: refused J2 at byte 16\n",
    ),
    // A jump stands in strong positions only.
    (
        "( IF GOTO l THEN SKIP FI; l: SKIP )",
        "a68: refused C1 at byte 5\n",
    ),
    (
        "( FROM GOTO l TO 3 DO SKIP OD; l: SKIP )",
        "a68: refused C1 at byte 7\n",
    ),
    (
        "( print(1 + (GOTO l)); l: SKIP )",
        "a68: refused O1 at byte 10\n",
    ),
    (
        "( IF (GOTO l; 1 EXIT l: TRUE) THEN SKIP FI )",
        "a68: refused C2 at byte 6\n",
    ),
    // Where a label and EXIT may stand.
    ("( l: SKIP | SKIP | SKIP )", "a68: refused S6 at byte 10\n"),
    ("( IF l: TRUE THEN SKIP FI )", "a68: refused S6 at byte 6\n"),
    (
        "( TRUE EXIT l: FALSE | 1 | 2 )",
        "a68: refused S6 at byte 21\n",
    ),
    ("( SKIP EXIT SKIP )", "a68: refused S6 at byte 12\n"),
    ("( l: INT x; SKIP )", "a68: refused S6 at byte 9\n"),
    ("( PAR (l: SKIP, SKIP) )", "a68: refused S6 at byte 8\n"),
    (
        "( CASE 1 IN l: SKIP, SKIP ESAC )",
        "a68: refused S6 at byte 13\n",
    ),
    ("( TRUE | l: 1, 2 )", "a68: refused S6 at byte 13\n"),
    (
        "( GO TO l TO 3 DO SKIP OD; l: SKIP )",
        "a68: refused S6 at byte 10\n",
    ),
    ("( GO l; l: SKIP )", "a68: refused S6 at byte 5\n"),
    ("( EXIT l: SKIP )", "a68: refused S6 at byte 2\n"),
];

/// Loops without an end, with how much fuel they have.
const ENDLESS: &[(&str, &str, usize)] = &[
    ("( l: GOTO l )", "5", 5),
    ("( INT i := 0; l: i := i + 1; GOTO l )", "1000", 1000),
    (
        "( FOR i DO (ODD i | GOTO next); SKIP; next: SKIP OD )",
        "77",
        77,
    ),
];

#[test]
fn jumps_are_done(rt: HostRuntime) {
    for (text, printed, events) in RUNS {
        let found = answers(&rt, rt.alloc(), wide(text), 0, (printed, ""));
        let is_so = *events == 0 || found == *events;
        holds(&rt, is_so, "how many events there are");
    }
}

// What these texts print hangs on no schedule.
#[test]
fn jumps_are_done_by_several_workers(rt: HostRuntime) {
    for (text, printed, _) in RUNS {
        let given = Words {
            words: &["run", "f", "--workers", "4"],
            ..wide(text)
        };
        answers(&rt, rt.alloc(), given, 0, (printed, ""));
    }
}

#[test]
fn runs_end_behind_jumps(rt: HostRuntime) {
    for (text, status, texts) in ENDS {
        answers(&rt, rt.alloc(), run_f(text), *status, *texts);
    }
}

#[test]
fn texts_are_refused(rt: HostRuntime) {
    for (text, noted) in REFUSED {
        answers(&rt, rt.alloc(), run_f(text), 1, ("", noted));
    }
}

// Each jump is an event, so that the fuel ends every loop.
#[test]
fn jumps_spend_fuel(rt: HostRuntime) {
    for (text, fuel, events) in ENDLESS {
        let words = ["run", "f", "--fuel", fuel];
        let given = of_words(&words, text);
        let found = answers(&rt, rt.alloc(), given, 5, ("", "a68: fuel spent\n"));
        holds(&rt, found == *events, "the whole fuel is spent");
    }
}
