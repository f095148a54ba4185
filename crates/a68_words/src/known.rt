//! What is known of each symbol, and what is broken.
ghost use Rattle.std.specs.Prelude.{◌≡◌, ◌<◌, ◌≤◌, ◌^◌, length, IfOk};
ghost use Rattle.a68_words.specs.declared.class.Class.TheVariants.{ModeWord, OperatorWord};
ghost use Rattle.a68_words.specs.Known as known;
ghost use Rattle.a68_words.specs.Steps as steps;

use crate::Class;
use crate::role::Role;
use a68_base::Rule;
use a68_symbols::SymbolKind;

/// The role of a symbol, whether its word is defined as a mode or as an operator there, and the first symbols that define
/// its word so.
#[derive(Clone, Copy)]
pub struct Known {
    pub role: Role,
    pub mode: bool,
    pub operator: bool,
    pub first_mode: Option<usize>,
    pub first_operator: Option<usize>,
}

/// A rule, and the number of the symbol that breaks it.
#[derive(Clone, Copy)]
pub struct BrokenRule {
    pub rule: Rule,
    pub symbol: usize,
}

fn is_by(first: Option<usize>, i: usize) -> bool
    ensures { result ≡ steps.is_by first i }
{
    match first {
        Some(k) => k <= i,
        None => false,
    }
}

impl Known {
    /// Is symbol `i` defined otherwise than at an earlier place, or than by the standard environ?
    pub fn differs(&self, i: usize) -> bool
        ensures { result ≡ known.differs i self.now }
    {
        self.mode && (self.role.is_standard() || is_by(self.first_operator, i))
            || self.operator && is_by(self.first_mode, i)
    }

    /// Is its word defined nowhere?
    pub fn is_undefined(&self) -> bool
        ensures { result ≡ known.is_undefined self.now }
    {
        self.role.is_bold() && !(self.first_mode.is_some() || self.first_operator.is_some())
    }

    // The class of a word of a text in which nothing is broken.
    fn class_of(&self) -> Class
        ensures { result ≡ known.class_of self.now }
    {
        match self.role {
            Role::Standard => Class::OperatorWord,
            Role::Bold => {
                if self.first_mode.is_some() {
                    Class::ModeWord
                } else {
                    Class::OperatorWord
                }
            }
            _ => Class::Reserved,
        }
    }

    /// The class of a symbol of that kind, if it is a word.
    pub fn class_in(&self, kind: SymbolKind) -> Option<Class>
        ensures { result ≡ known.class_in kind self.now }
    {
        match kind {
            SymbolKind::Word => Some(self.class_of()),
            _ => None,
        }
    }
}

/// The one that comes first, and the left one where both stand at one symbol.
pub fn earlier(fault: Option<BrokenRule>, other: Option<BrokenRule>) -> Option<BrokenRule>
    ensures { result ≡ known.earlier fault other }
{
    match (fault, other) {
        (None, _) => other,
        (Some(_), None) => fault,
        (Some(a), Some(b)) => { if b.symbol < a.symbol { other } else { fault } }
    }
}
