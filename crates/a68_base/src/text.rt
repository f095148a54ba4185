//! Lists of bytes.
ghost use Rattle.std.specs.Prelude.{◌≡◌, List, ℕ, IfOk};

use crate::NoMemory;
use std::alloc::Global;
use std::marker::Model;

/// A list of bytes.
pub struct Text {
    pub items: Vec<u8>,
}

impl Drop for Text {
    fn drop(self) {
        let Text { items: _ } = self;
    }
}

impl Model for Text {
    ghost Value = { List ℕ };

    ghost view = { λ text. text.items.items };
}

impl Text {
    /// A text of these bytes.
    pub fn from_slice(alloc: Global, bytes: &[u8]) -> Result<Text, NoMemory>
        ensures { IfOk result (λ text. text ≡ bytes.now) }
    {
        let items = Vec::from_slice(alloc, bytes)?;
        Ok(Text { items })
    }

    /// The bytes of the text.
    pub fn as_slice(&self) -> &[u8]
        ensures { result.now ≡ self.now }
    {
        &self.items
    }
}
