//! Values that are not made of other values.

/// A name: the first cell of what it refers to, and its scope, which is that of the frame in which it was made
/// (Report, 2.1.3.2).
#[derive(Clone, Copy, Debug, PartialEq, Eq)]
pub struct Name {
    pub cell: u32,
    pub scope: u32,
}

/// A routine: the number of its routine text in order of text, the frame in which the text was met, and its scope
/// (Report, 2.1.3.5).
#[derive(Clone, Copy, Debug, PartialEq, Eq)]
pub struct Routine {
    pub text: u32,
    pub frame: u32,
    pub scope: u32,
}

// What a word counts beside the one below it: 2 to the power 64.
const WORD: i128 = 18_446_744_073_709_551_616;

/// A LONG INT: how often 2 to the power 64 goes into it, and what is left, at least 0. In two words, so that a value takes
/// no more than they and a kind.
#[derive(Clone, Copy, Debug, PartialEq, Eq)]
pub struct Long {
    pub high: i64,
    pub low: u64,
}

/// A value that fits one cell: a plain value, a name or a routine (Report, 2.1.3), or none yet.
#[derive(Clone, Copy, Debug, PartialEq, Eq)]
pub enum Plain {
    /// What SKIP yields and a new cell holds (own).
    Unset,
    /// An integer of the range of INT (2.1.3.1).
    Int(i64),
    /// An integer of the range of LONG INT (2.1.3.1).
    Long(Long),
    Bool(bool),
    /// A character, by its byte.
    Char(u8),
    /// 64 bits; the first place is the highest bit.
    Bits(u64),
    /// The name that refers to nothing (5.2.4).
    Nil,
    Name(Name),
    Routine(Routine),
    /// A semaphore: the cell of its count (10.2.4).
    Sema(u32),
}

/// A value of the hidden mode of `newline` and `space` (own).
#[derive(Clone, Copy)]
pub enum Layout {
    Newline,
    Space,
}

impl Long {
    ghost use Rattle.std.specs.Prelude.{◌≡◌};
    ghost use Rattle.a68_values.specs.Longs.{long_of, number_of};

    /// This number as a LONG INT.
    pub fn of(number: i128) -> Long
        ensures { result ≡ long_of number }
    {
        Long {
            high: number.div_euclid(WORD) as i64,
            low: number.rem_euclid(WORD) as u64,
        }
    }

    /// The number that it is.
    pub fn number(self) -> i128
        ensures { result ≡ number_of self }
    {
        i128::from(self.high) * WORD + i128::from(self.low)
    }
}

impl Plain {
    ghost use Rattle.std.specs.Prelude.{◌≡◌};
    ghost use Rattle.a68_values.specs.Content.{plain_scope};

    /// The scope of the value: that of a name or a routine, and 0 of every other value (Report, 2.1.1.3).
    #[inline(always)]
    pub fn scope(&self) -> u32
        ensures { result ≡ plain_scope self.now }
    {
        match self {
            Plain::Name(name) => name.scope,
            Plain::Routine(routine) => routine.scope,
            _ => 0,
        }
    }
}
