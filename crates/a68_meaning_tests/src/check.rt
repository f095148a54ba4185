//! The rules that small trees break, by hand from the text (Report, 3.2.1, 5.4.4 and 7.2).
use crate::listings::tree_of as tree_of_text;
use crate::table::holds;
use crate::trees::tree_of;
use a68_base::{Refusal, Rule, Stop};
use a68_check::annotate;
use std::alloc::Global;
use std::panic::Expect;
use std::process::Abort;

/// A text with a jump that may not be made, the rule that it breaks, and the byte.
const JUMPS: &[(&str, Rule, u32)] = &[
    // No label is the definition of the tag, which no other rule looks at.
    ("( GO TO l; SKIP )", Rule::J1, 8),
    ("( GOTO l; print(x) )", Rule::J1, 7),
    ("( INT l; GOTO l )", Rule::J1, 14),
    ("( (INT l; GOTO l); l: SKIP )", Rule::J1, 15),
    ("( ( l: SKIP ); GOTO l )", Rule::J1, 20),
    ("( GOTO print )", Rule::J1, 7),
    // It would leave a unit of a parallel clause, a routine text, or the definition of a mode.
    ("( PAR ( (GO TO l), SKIP ); l: SKIP )", Rule::J1, 15),
    ("( PAR ( SKIP, GOTO l ); l: SKIP )", Rule::J1, 19),
    ("( l: ( VOID: GOTO l ); SKIP )", Rule::J1, 18),
    ("( PROC p = VOID: GOTO l; l: SKIP )", Rule::J1, 22),
    ("( MODE M = [1:( GOTO l; 3 )] INT; l: SKIP )", Rule::J1, 21),
    ("( PROC VOID ( GOTO l ); SKIP )", Rule::J1, 19),
    // It is asked for a procedure without parameters.
    ("( l: PROC VOID (GO TO l); SKIP )", Rule::J2, 16),
    ("( PROC INT p = GOTO l; l: SKIP )", Rule::J2, 15),
    ("( PROC VOID p; p := GOTO l; l: SKIP )", Rule::J2, 20),
    (
        "( l: PROC VOID ( ( TRUE | GOTO l | SKIP ) ); SKIP )",
        Rule::J2,
        26,
    ),
    // A label is no value.
    ("( l: l )", Rule::J2, 5),
    ("( l: print(l) )", Rule::J2, 11),
    ("( l: ( l[1] ); SKIP )", Rule::J2, 7),
    ("( l: ( VOID: l ); SKIP )", Rule::J2, 13),
    // Nothing strong is asked of it.
    ("( IF GOTO l THEN SKIP FI; l: SKIP )", Rule::C1, 5),
    ("( l: ( GOTO l )[1]; SKIP )", Rule::C1, 7),
    ("( l: 1 + ( GOTO l ); SKIP )", Rule::O1, 7),
];

/// A text with EXIT, the rule that it breaks, and the byte.
const EXITS: &[(&str, Rule, u32)] = &[
    ("( INT a; ( a EXIT l: 1 ) := 2; SKIP )", Rule::C2, 11),
    (
        "( INT a; ( a EXIT l: ( 1 EXIT m: 2 ) ) := 2; SKIP )",
        Rule::C2,
        11,
    ),
    (
        "( INT a; BOOL b; ( b | ( a EXIT l: 1 ) | a ) := 2; SKIP )",
        Rule::C2,
        17,
    ),
    ("( INT ( 1 EXIT l: TRUE ); SKIP )", Rule::C1, 18),
    ("( INT ( TRUE EXIT l: 1 ); SKIP )", Rule::C1, 8),
    ("( INT ( 1; TRUE EXIT l: 1 ); SKIP )", Rule::C1, 11),
    ("( l: SKIP EXIT l: SKIP )", Rule::N3, 15),
];

/// Texts that break no rule.
const FINE: &[&str] = &[
    "( l: GOTO l )",
    "( GO TO l; l: SKIP )",
    "( l: ( VOID: ( m: GOTO m ) ); SKIP )",
    "( PAR ( SKIP, ( l: GOTO l ) ) )",
    "( PAR ( SKIP, SKIP ); l: GOTO l )",
    "( MODE M = [1:( l: IF TRUE THEN GOTO l FI; 3 )] INT; SKIP )",
    "( INT i := GOTO l; l: SKIP )",
    "( PROC (INT) VOID p = GOTO l; l: SKIP )",
    "( INT a, b; ( a EXIT l: b ) := 1; SKIP )",
    "( INT a; ( TRUE; a EXIT l: GOTO l EXIT m: SKIP ) := 1; SKIP )",
    "( INT ( 1 EXIT l: ( TRUE | 2 | GOTO l ) ); SKIP )",
];

/// The nodes of BEGIN print(x) END.
const UNDEFINED: &str = "\
Closed 0 18 0 1
Serial 6 14 1 2
Call 6 14 1 3 4
Tag 6 11 1
Tag 12 13 2
";

#[test]
fn a_tag_without_a_definition(rt: HostRuntime) {
    let tree = tree_of(&rt, rt.alloc(), UNDEFINED, "BEGIN print x");
    let refusal = Refusal {
        rule: Rule::N1,
        place: 12,
    };
    let stop = annotate(rt.alloc(), tree).err().expect(&rt, "a refusal");
    holds(&rt, stop == Stop::Refused(refusal), "N1 at x");
}

fn is_refused(rt: &impl Abort, alloc: Global, row: &(&str, Rule, u32)) {
    let refusal = Refusal {
        rule: row.1,
        place: row.2,
    };
    let stop = annotate(alloc, tree_of_text(rt, alloc, row.0)).err();
    holds(rt, stop == Some(Stop::Refused(refusal)), row.0);
}

#[test]
fn jumps_that_may_not_be_made(rt: HostRuntime) {
    for row in JUMPS {
        is_refused(&rt, rt.alloc(), row);
    }
}

#[test]
fn units_before_exit(rt: HostRuntime) {
    for row in EXITS {
        is_refused(&rt, rt.alloc(), row);
    }
}

#[test]
fn jumps_and_labels_that_break_no_rule(rt: HostRuntime) {
    for text in FINE {
        let program = annotate(rt.alloc(), tree_of_text(&rt, rt.alloc(), text));
        holds(&rt, program.is_ok(), text);
        drop(program);
    }
}
