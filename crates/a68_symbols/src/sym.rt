//! The symbols of the grammar.

/// A pair of brackets.
#[derive(Clone, Copy, PartialEq, Eq)]
pub enum Bracket {
    /// `(` and `)`.
    Round,
    /// `[` and `]`.
    Square,
    /// BEGIN and END.
    Begin,
    /// IF and FI.
    If,
    /// CASE and ESAC.
    Case,
    /// DO and OD.
    Do,
}

/// A symbol that is no bracket.
#[derive(Clone, Copy, PartialEq, Eq)]
pub enum Token {
    Comma,
    Semicolon,
    Colon,
    Bar,
    /// `|:`.
    BarColon,
    /// `@` or AT.
    At,
    /// `:=`.
    Becomes,
    /// `:=:` or IS.
    Is,
    /// `:/=:` or ISNT.
    Isnt,
    /// `=` alone: the mark of definitions, and an operator.
    Equals,
    Plus,
    Minus,
    /// `*`.
    Times,
    /// `/=`.
    Differs,
    /// `<`.
    Less,
    /// `<=`.
    AtMost,
    /// `>`.
    Greater,
    /// `>=`.
    AtLeast,
    /// Any other operator that may stand before an operand alone.
    Monad,
    /// Any other operator that may not: one of marks that begins with `<`, `>`, `/`, `=` or `*`.
    Nomad,
    Then,
    Elif,
    Else,
    In,
    Ouse,
    Out,
    For,
    From,
    By,
    To,
    While,
    Par,
    Mode,
    Prio,
    Op,
    Proc,
    Ref,
    Flex,
    Struct,
    Union,
    Loc,
    Heap,
    Of,
    Skip,
    /// GO, before TO and the tag of a label.
    Go,
    /// GOTO, before the tag of a label.
    Goto,
    Exit,
    Nil,
    True,
    False,
    /// LONG, before INT or a number.
    Long,
    Int,
    /// BOOL, CHAR, BITS, SEMA or STRING.
    Plain,
    Void,
    /// A word that is defined as a mode.
    ModeWord,
    /// A word that no rule takes.
    Word,
    Tag,
    /// A number of one digit from 1 to 9.
    Digit,
    /// Any other number.
    Number,
    BitsNumber,
    Quoted,
}

/// A symbol: an opening or a closing bracket, or another.
#[derive(Clone, Copy, PartialEq, Eq)]
pub enum Sym {
    Opens(Bracket),
    Closes(Bracket),
    Is(Token),
}
