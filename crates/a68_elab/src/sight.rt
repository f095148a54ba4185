//! From where constructs are seen.
use a68_base::Span;

/// From where a construct is seen.
#[derive(Clone, Copy, Debug, PartialEq, Eq)]
pub enum Sight {
    /// From where it is written.
    Here,
    /// It is within a bound that is written in the definition of a mode word, at these bytes, and that is elaborated where
    /// the word is applied, so many frames further in.
    Within { frames: u32, bytes: Span },
}
