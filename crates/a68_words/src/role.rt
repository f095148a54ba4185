//! What each symbol does to the levels of a text, and to the classes of its words.
ghost use Rattle.std.specs.Prelude.{◌≡◌};
ghost use Rattle.a68_words.specs.Roles as roles;
ghost use Rattle.a68_words.specs.Steps as steps;

use crate::Class;

/// The symbols of a text as levels and classes tell them apart.
#[derive(Clone, Copy)]
pub enum Role {
    /// `(`.
    Round,
    /// `[`, BEGIN, IF or CASE.
    Open,
    /// DO, which opens a bracket and separates.
    Do,
    /// A closing bracket.
    Close,
    /// `,`, which separates.
    Comma,
    /// Any other symbol behind which a stretch begins.
    Separator,
    Mode,
    Prio,
    Op,
    /// `=` alone.
    Equals,
    /// A standard operator word.
    Standard,
    /// A word that is neither reserved nor a standard operator word.
    Bold,
    /// Any other symbol, reserved words among them.
    Other,
}

impl Role {
    /// Is it an opening bracket?
    pub fn opens(self) -> bool
        ensures { result ≡ roles.opens self }
    {
        matches!(self, Role::Round | Role::Open | Role::Do)
    }

    /// Is it a closing bracket?
    pub fn closes(self) -> bool
        ensures { result ≡ roles.closes self }
    {
        matches!(self, Role::Close)
    }

    /// Does a stretch begin behind it?
    pub fn separates(self) -> bool
        ensures { result ≡ roles.separates self }
    {
        matches!(self, Role::Comma | Role::Separator | Role::Do)
    }

    /// Is it a word that can be defined?
    pub fn is_definable(self) -> bool
        ensures { result ≡ roles.is_definable self }
    {
        matches!(self, Role::Standard | Role::Bold)
    }

    /// What it defines words as.
    pub fn definer(self) -> Option<Class>
        ensures { result ≡ roles.definer self }
    {
        match self {
            Role::Mode => Some(Class::ModeWord),
            Role::Prio | Role::Op => Some(Class::OperatorWord),
            _ => None,
        }
    }

    /// Is it OP?
    pub fn is_op(self) -> bool
        ensures { result ≡ steps.is_op self }
    {
        matches!(self, Role::Op)
    }

    /// Is it `(`?
    pub fn is_round(self) -> bool
        ensures { result ≡ steps.is_round self }
    {
        matches!(self, Role::Round)
    }

    /// Is it `=` alone?
    pub fn is_equals(self) -> bool
        ensures { result ≡ steps.is_equals self }
    {
        matches!(self, Role::Equals)
    }

    /// Is it `,`?
    pub fn is_comma(self) -> bool
        ensures { result ≡ steps.is_comma self }
    {
        matches!(self, Role::Comma)
    }

    /// Is it MODE?
    pub fn is_mode(self) -> bool
        ensures { result ≡ steps.is_mode self }
    {
        matches!(self, Role::Mode)
    }

    /// Does it define words as operators?
    pub fn is_operator_definer(self) -> bool
        ensures { result ≡ steps.is_operator_definer self }
    {
        matches!(self, Role::Prio | Role::Op)
    }

    /// Is it a standard operator word?
    pub fn is_standard(self) -> bool
        ensures { result ≡ steps.is_standard_role self }
    {
        matches!(self, Role::Standard)
    }

    /// Is it a word that a text must define?
    pub fn is_bold(self) -> bool
        ensures { result ≡ steps.is_bold_role self }
    {
        matches!(self, Role::Bold)
    }
}
