//! Goals: what is still to be read, or to be done with what was read.

use a68_symbols::{Bracket, Token};
use a68_tree::NodeKind;

/// What a definition defines, by the form of its declaration.
#[derive(Clone, Copy)]
pub enum Defining {
    Mode,
    Priority,
    /// An operator by a routine text.
    Operator,
    /// An operator by a plan and a unit.
    Planned,
    /// A tag by identity, behind a declarer.
    Identity,
    /// A tag by identity, behind PROC.
    Procedure,
    /// A variable behind PROC.
    ProcedureVariable,
    /// A variable behind a declarer.
    Variable,
}

/// What is still to be read at the front of a text, or to be done with what was read. Goals stand on a stack, and the
/// first one of it is next. Where a goal names a form of the grammar, it stands for that form; where a form is read in
/// pieces, the rest of it is a goal.
#[derive(Clone, Copy)]
pub enum Goal {
    // ---- a symbol that stands next, or else the text is of no tree
    Take(Token),
    Opens(Bracket),
    Closes(Bracket),
    /// A sign before an operand.
    Monadic,
    /// A sign behind an operand.
    Dyadic,
    /// An operator that is defined.
    Operator,
    Denotation,
    /// The word of a mode.
    Plain,
    // ---- what is done with what was read
    /// From here on a node may begin.
    Begin,
    /// What was read since then is a part of what stands about it.
    Leave,
    /// What was read since then becomes a node of that kind, which may become a part of another one.
    Wrap(NodeKind),
    /// It becomes an identity relation.
    Relate,
    /// It becomes a denotation of LONG INT.
    WrapLong,
    /// It becomes a jump, named by its last symbol, a part of what stands about it.
    Leap,
    /// It becomes a node of that kind, a part of what stands about it.
    Close(NodeKind),
    /// It becomes a node that definitions share.
    SetAside(NodeKind),
    /// What is set aside is a part here.
    Share,
    /// What is set aside is no part from here on.
    Forget,
    /// Several definitions become a node; a single one is left as it is.
    Join,
    // ---- closed, collateral and parallel clauses, choices and loops
    Enclosed,
    Brief,
    BriefUnit,
    BriefTail,
    BriefSteps,
    BriefLabelled,
    BriefEnd,
    BriefChoice,
    BriefChosen,
    Block,
    BlockUnit,
    Parallel,
    CaseChoice,
    ElsePart,
    ElseBrief,
    OutCase,
    OutCaseBrief,
    OutConformity,
    OutConformityBrief,
    LoopFrom,
    LoopBy,
    LoopTo,
    LoopWhile,
    Choices,
    ChoicesTail,
    ChoiceSpec,
    SpecTag,
    // ---- serial clauses, units and formulas
    SerialNode,
    Serial,
    SerialTail,
    Labelled,
    Steps,
    StepsTail,
    EnquiryNode,
    Enquiry,
    EnquiryTail,
    Units,
    UnitsTail,
    Unit,
    UnitTail,
    Routine,
    RoutineResult,
    Parameters,
    ParameterTags,
    ParameterTail,
    ParameterMore,
    Tertiary,
    TertiaryTail,
    Operands,
    OperandsTail,
    Secondary,
    Base,
    PrimaryTail,
    Indexes,
    IndexesTail,
    Index,
    IndexTail,
    Trimmer,
    AtPart,
    // ---- declarers
    DeclarerNode,
    Declarer,
    ProcedurePlan,
    Yields,
    Declarers,
    DeclarersTail,
    Bounds,
    BoundsTail,
    Bound,
    BoundTail,
    Fields,
    FieldTags,
    FieldTail,
    FieldMore,
    // ---- declarations
    Declaration,
    Definitions,
    OperatorForm,
    ProcedureForm,
    Named,
    Plan,
    PlanTail,
    Definition(Defining),
    /// What commas join to a definition of that kind.
    Tail(Defining),
    /// What stands behind such a comma.
    More(Defining),
    Initial,
}
