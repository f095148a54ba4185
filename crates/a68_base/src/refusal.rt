//! Why a text is refused, and where.
ghost use Rattle.std.specs.Prelude.{◌≡◌};
ghost use Rattle.a68_base.specs.Rule.{rule_name};
ghost use Rattle.a68_base.specs.declared.refusal.Stop.TheVariants as stops;

use crate::NoMemory;

/// A stretch of a text, in bytes from its beginning: from the first byte of the stretch to the one behind its last.
#[derive(Clone, Copy, Debug, PartialEq, Eq)]
pub struct Span {
    pub from: u32,
    pub to: u32,
}

/// A rule or limit that a text can break. Its name stands in the line of the refusal.
///
/// S are the rules of symbols and of their order, N those of names, M of modes, O of operators, C of coercions and
/// counts, P of the places of some clauses, J of jumps, and L are the limits. Q are the rules of what stands beside
/// a text: a schedule, a journal, an input. The sections are those of the Revised Report; what is marked *own* is a
/// rule of this compiler.
#[derive(Clone, Copy, Debug, PartialEq, Eq)]
pub enum Rule {
    /// A string denotation, a comment or a pragmat has no end, or a string meets the end of its line (8.3, 9.2).
    S1,
    /// A byte begins no symbol (9.4).
    S2,
    /// A word of a part of the language that is left out (own).
    S3,
    /// A bold word is defined as a mode and as an operator (own).
    S4,
    /// A number or a bits denotation is misformed or out of range (8.1.1, 8.2).
    S5,
    /// The symbols are no program (2.2.1).
    S6,
    /// A tag is declared in no surrounding range (7.2).
    N1,
    /// A bold word is defined nowhere, or a mode word in no surrounding range (7.2).
    N2,
    /// A range declares a tag, a mode word or a priority twice, or a structure has two fields of one tag (7.1).
    N3,
    /// A structure has no field of this tag (5.3.1).
    N4,
    /// A declared mode is not well formed (7.4).
    M1,
    /// A union has two members that are firmly related, or fewer than two different ones (4.7).
    M2,
    /// No operator of the surrounding ranges takes these operands (5.4.2, 7.2).
    O1,
    /// A range declares two operators of one sign whose parameters are firmly related (7.1).
    O2,
    /// A sign between two operands has no priority (4.3).
    O3,
    /// No coercion leads from a unit to what its position asks for (6.1).
    C1,
    /// No part of a choice, of a serial clause with EXIT or of an identity relation can give the mode of the others
    /// (3.2.1, 3.4, 5.2.2).
    C2,
    /// A wrong count of parameters, fields or subscripts (3.3, 5.3.2, 5.4.3).
    C3,
    /// An actual declarer lacks bounds, or another one has them (4.6); or the bounds of a mode declaration hold what
    /// they may not (own).
    C4,
    /// PAR stands before a clause of one unit (3.3).
    P1,
    /// A tag of transput stands where it is not called (own).
    P2,
    /// A jump has no label (5.4.4), or would leave a routine text, a unit of a parallel clause or the bounds of a mode
    /// declaration (own).
    J1,
    /// A procedure is asked of a jump, or the tag of a label stands alone (own).
    J2,
    /// More bytes than a text may have (own).
    L1,
    /// More symbols than a text may have (own).
    L2,
    /// More brackets open at once, or deeper nesting, than a text may have (own).
    L3,
    /// More declarers than a text may have (own).
    L4,
    /// More instructions than a program may have (own).
    L7,
    /// The bytes of a schedule are no schedule (own).
    Q1,
    /// A schedule names a strand that cannot act, or goes on where the run has ended (own).
    Q2,
    /// A schedule ends and its run has not (own).
    Q3,
    /// A journal has a strand numbered above those that `races` looks at (own).
    Q4,
    /// More bytes or lines than an input may have (own).
    Q5,
}

impl Rule {
    /// The name of the rule, as it stands in the line of a refusal.
    pub fn name(self) -> &'static str
        ensures { result.now ≡ rule_name self }
    {
        match self {
            Rule::S1 => "S1",
            Rule::S2 => "S2",
            Rule::S3 => "S3",
            Rule::S4 => "S4",
            Rule::S5 => "S5",
            Rule::S6 => "S6",
            Rule::N1 => "N1",
            Rule::N2 => "N2",
            Rule::N3 => "N3",
            Rule::N4 => "N4",
            Rule::M1 => "M1",
            Rule::M2 => "M2",
            Rule::O1 => "O1",
            Rule::O2 => "O2",
            Rule::O3 => "O3",
            Rule::C1 => "C1",
            Rule::C2 => "C2",
            Rule::C3 => "C3",
            Rule::C4 => "C4",
            Rule::P1 => "P1",
            Rule::P2 => "P2",
            Rule::J1 => "J1",
            Rule::J2 => "J2",
            Rule::L1 => "L1",
            Rule::L2 => "L2",
            Rule::L3 => "L3",
            Rule::L4 => "L4",
            Rule::L7 => "L7",
            Rule::Q1 => "Q1",
            Rule::Q2 => "Q2",
            Rule::Q3 => "Q3",
            Rule::Q4 => "Q4",
            Rule::Q5 => "Q5",
        }
    }
}

/// Why a text is refused: the rule that it breaks, and the byte of the text at which it does.
#[derive(Clone, Copy, Debug, PartialEq, Eq)]
pub struct Refusal {
    pub rule: Rule,
    pub place: u32,
}

/// Why a phase of the compiler gives nothing.
#[derive(Clone, Copy, Debug, PartialEq, Eq)]
pub enum Stop {
    Refused(Refusal),
    NoMemory,
}

impl From<NoMemory> for Stop {
    ghost from_gives = { λ _ stop. stop ≡ stops.NoMemory };

    fn from(_error: NoMemory) -> Stop {
        Stop::NoMemory
    }
}
