//! The classes of words.
ghost use Rattle.std.specs.Prelude.{◌≡◌, slice_get, Some};
ghost use Rattle.a68_words.specs.declared.class.Class.{Class};

use std::marker::Model;

/// What a bold word is (Report, 9.4).
#[derive(Clone, Copy, PartialEq, Eq)]
pub enum Class {
    /// A word of the language itself.
    Reserved,
    /// A word that stands for a mode.
    ModeWord,
    /// A word that is an operator.
    OperatorWord,
}

/// The classes of the words of a text. Contracts see the list of the classes of all its symbols, with none for a symbol
/// that is no word.
#[derive(Drop)]
pub struct Classed {
    pub(crate) classes: Vec<Option<Class>>,
}

impl Model for Classed {
    ghost use Rattle.std.specs.Prelude.{List, Option};
    ghost use Rattle.a68_words.specs.declared.class.Class.{Class};

    ghost Value = { List (Option Class) };

    ghost view = { λ classed. classed.classes.items };
}

impl Classed {
    /// The classes of all symbols in order: none for a symbol that is no word.
    pub fn as_slice(&self) -> &[Option<Class>]
        ensures { result.now ≡ self.now }
    {
        &self.classes
    }

    /// The class of the word that is the symbol of that number, from 0.
    pub fn class(&self, i: u32) -> Class
        requires { (class : Class) × (slice_get self.now i ≡ Some (Some class)) }
        ensures { slice_get self.now i ≡ Some (Some result) }
    {
        match self.classes[i as usize] {
            Some(class) => class,
            None => Class::Reserved,
        }
    }
}
