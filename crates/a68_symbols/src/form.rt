//! The forms of stretches, and what they give.
use crate::SymbolKind;
use a68_base::Rule;

/// The forms that a stretch of a text can have (Report, 8 and 9).
#[derive(Clone, Copy, PartialEq, Eq)]
pub enum StretchForm {
    /// One byte of layout.
    Layout,
    /// A comment between two `#`.
    SharpComment,
    /// A comment or pragmat between two words.
    WordComment,
    /// A `#` without another, and all behind it.
    OpenComment,
    /// A word, an opener of a comment that has no end among them.
    Word,
    Tag,
    /// Digits and small letters from a digit on, misformed or not.
    Number,
    /// A string or character denotation.
    Quoted,
    /// A string without an end, to the end of its line or of the text.
    OpenString,
    Mark,
}

/// What a stretch gives.
#[derive(Clone, Copy, PartialEq, Eq)]
pub enum Given {
    Nothing,
    Symbol(SymbolKind),
    Broken(Rule),
}
