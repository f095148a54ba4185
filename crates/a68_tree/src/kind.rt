//! The kinds of node.

/// What a node of a tree stands for. The parts of a node are in order of text.
#[derive(Clone, Copy, Debug, PartialEq, Eq)]
pub enum NodeKind {
    /// A closed clause (3.1.1): a Serial.
    Closed,
    /// A collateral clause (3.3.1): two or more units.
    Collateral,
    /// Brackets with nothing between (3.3.1).
    Vacuum,
    /// A parallel clause (3.3.1): its units.
    Parallel,
    /// A choice by a truth value (3.4.1): the Serial of its enquiry, the Serial of THEN, and that of ELSE, or a
    /// Conditional that begins at ELIF, if any.
    Conditional,
    /// A choice by a number (3.4.1): the Serial of its enquiry, two or more units, and an Out, if any.
    Case,
    /// A choice by the mode of a value (3.4.1): the Serial of its enquiry, a Spec and a unit for each choice, and an
    /// Out, if any.
    Conformity,
    /// A loop (3.5.1): a For, From, By, To and While, as far as they are there, and the Serial between DO and OD.
    Loop,
    /// A serial clause or an enquiry (3.2.1): its phrases, with a Label for each label before its phrase, and an Exit
    /// behind each unit before EXIT.
    Serial,
    /// An assignation (5.2.1): the destination and the source.
    Assignation,
    /// An identity relation (5.2.2): its two sides.
    Identity,
    /// A routine text (5.4.1): a Declarer and Parameters for each group of parameters, the Declarer or VoidWord of
    /// the result, and the unit.
    RoutineText,
    /// A skip (5.5.2).
    Skip,
    /// A nihil (5.2.4).
    Nil,
    /// A formula (5.4.2) as the grammar gives it: operands and Signs.
    Formula,
    /// A formula of one operand: it.
    Monadic,
    /// A formula of two operands: the left and the right one.
    Dyadic,
    /// A selection (5.3.1): the unit behind OF.
    Selection,
    /// A generator (5.2.3): its Declarer.
    Generator,
    /// A slice (5.3.2): the sliced unit, and an Index for each place.
    Slice,
    /// A call (5.4.3): the called unit and the actual parameters.
    Call,
    /// A cast (5.5.1): its Declarer or VoidWord, and an enclosed clause.
    Cast,
    /// A tag where it is applied (4.8.1).
    Tag,
    /// A denotation (8.0.1).
    Denotation,
    /// A denotation of LONG INT (8.1.1): LONG and a number.
    LongDenotation,
    /// A jump to a label (5.4.4).
    GoTo,
    /// The declaration of a label (3.2.1).
    Label,
    /// EXIT between steps of a serial clause (3.2.1).
    Exit,
    /// Two or more definitions that commas join (4.1.1).
    Joined,
    /// The definition of a mode word (4.2.1): a Declarer.
    ModeDefinition,
    /// The definition of an operator's priority (4.3.1): a Digit.
    Priority,
    /// The definition of an operator (4.5.1): a RoutineText; or a Plan and a unit.
    OpDefinition,
    /// The definition of a tag by identity (4.4.1): a Declarer and a unit; or a RoutineText behind PROC.
    IdentityDefinition,
    /// The definition of a variable (4.4.1): a Heap, if any, a Declarer, and the unit of its source, if any; or a
    /// RoutineText behind PROC.
    Variable,
    /// A declarer (4.6.1). What it is made of are its parts.
    Declarer,
    /// VOID in the place of a declarer (4.6.1).
    VoidWord,
    /// The bounds of one dimension in a declarer (4.6.1): a Lower and an Upper, as far as they are there.
    Bound,
    /// One place of a slice (5.3.2): a unit; or a Lower, an Upper and an At, as far as they are there.
    Index,
    /// What a choice of a conformity clause asks for (3.4.1): a Declarer, and a Parameter, if any.
    Spec,
    /// The modes of an operator's parameters and of its result (4.5.1): Declarers, the last of them perhaps a VoidWord.
    Plan,
    /// The tag of a field in a declarer (4.6.1).
    Field,
    /// The tag of a parameter (5.4.1) or of a Spec.
    Parameter,
    /// The tag behind FOR (3.5.1).
    For,
    /// The unit behind FROM (3.5.1).
    From,
    /// The unit behind BY (3.5.1).
    By,
    /// The unit behind TO (3.5.1).
    To,
    /// The Serial behind WHILE (3.5.1).
    While,
    /// The unit behind AT (5.3.2).
    At,
    /// The Serial behind OUT (3.4.1); or the inner clause that OUSE begins.
    Out,
    /// The lower unit of a bound or trimmer (4.6.1, 5.3.2).
    Lower,
    /// The upper unit of a bound or trimmer (4.6.1, 5.3.2).
    Upper,
    /// HEAP before the declarer of variables (4.4.1).
    Heap,
    /// The digit of a priority (4.3.1).
    Digit,
    /// A sign of a Formula (5.4.2).
    Sign,
}
