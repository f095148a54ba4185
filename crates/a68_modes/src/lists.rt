//! The lists within a mode.
ghost use Rattle.std.specs.Prelude.{◌≡◌, List, ℕ, IfOk, map};

use crate::ModeId;
use a68_base::NoMemory;
use std::alloc::Global;
use std::marker::Model;

/// The fields of a structure, in declared order: the name of a field's tag, and its mode.
#[derive(Drop)]
pub struct Fields {
    pub items: Vec<(u32, ModeId)>,
}

impl Model for Fields {
    ghost Value = { List (ℕ × ℕ) };

    ghost view = { λ fields. fields.items.items };
}

impl Fields {
    /// The same fields once more.
    pub fn copy(&self, alloc: Global) -> Result<Fields, NoMemory>
        ensures { IfOk result (λ fields. fields ≡ self.now) }
    {
        let items = Vec::from_slice(alloc, &self.items)?;
        Ok(Fields { items })
    }

    /// The modes of the fields, in declared order.
    pub fn modes(&self, alloc: Global) -> Result<Members, NoMemory>
        ensures { IfOk result (λ modes. modes ≡ map (λ field. field.1) self.now) }
    {
        let items = self.items.iter().map(|field| field.1).collect(alloc)?;
        Ok(Members { items })
    }
}

/// A list of modes, in declared order: the members of a union, or the parameters of a procedure.
pub struct Members {
    pub items: Vec<ModeId>,
}

impl Drop for Members {
    fn drop(self) {
        let Members { items: _ } = self;
    }
}

impl Model for Members {
    ghost Value = { List ℕ };

    ghost view = { λ members. members.items.items };
}

impl Members {
    /// A list of these modes.
    pub fn from_slice(alloc: Global, modes: &[ModeId]) -> Result<Members, NoMemory>
        ensures { IfOk result (λ members. members ≡ modes.now) }
    {
        let items = Vec::from_slice(alloc, modes)?;
        Ok(Members { items })
    }

    /// The same modes once more.
    pub fn copy(&self, alloc: Global) -> Result<Members, NoMemory>
        ensures { IfOk result (λ members. members ≡ self.now) }
    {
        Members::from_slice(alloc, &self.items)
    }
}
