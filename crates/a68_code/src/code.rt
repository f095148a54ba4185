//! Code: a list of instructions, the entrances of routine texts and of units, and the modes that the instructions name.
ghost use Rattle.std.specs.Prelude.{◌≡◌, IfOk};

use crate::{Does, Places};
use a68_base::NoMemory;
use a68_modes::Modes;
use std::alloc::Global;
use std::marker::Model;

/// An instruction, and the byte of the text at which the construct begins from which it was translated.
pub struct Instr {
    pub place: u32,
    pub does: Does,
}

impl Drop for Instr {
    fn drop(self) {
        let Instr { place: _, does: _ } = self;
    }
}

/// Instructions by their numbers.
#[derive(Drop)]
pub struct Instrs {
    pub items: Vec<Instr>,
}

impl Model for Instrs {
    ghost use Rattle.std.specs.Coded.{coded_list};
    ghost use Rattle.std.specs.Prelude.{List};
    ghost use Rattle.a68_code.specs.contracts.code.Instr as instr;
    ghost use Rattle.a68_code.specs.declared.code.Instr.{Instr};

    ghost Value = { List Instr };

    ghost coded = { coded_list instr.the_row.coded };

    ghost view = { λ instrs. instrs.items.items };
}

impl Instr {
    /// An equal instruction.
    pub fn copy(&self, alloc: Global) -> Result<Instr, NoMemory>
        ensures { IfOk result (λ instr. instr ≡ self.now) }
    {
        Ok(Instr {
            place: self.place,
            does: self.does.copy(alloc)?,
        })
    }
}

impl Instrs {
    /// Equal instructions.
    pub fn copy(&self, alloc: Global) -> Result<Instrs, NoMemory>
        ensures { IfOk result (λ list. list ≡ self.now) }
    {
        let mut items = Vec::with_capacity(alloc, self.items.len())?;
        for instr in &self.items {
            items.push(instr.copy(alloc)?)?;
        }
        Ok(Instrs { items })
    }
}

/// Where a routine text begins in the list, and whether its body leaves a value.
#[derive(Clone, Copy)]
pub struct RoutineEntrance {
    pub at: u32,
    pub yields: bool,
}

/// Entrances of routine texts, in order of text.
#[derive(Drop)]
pub struct Routines {
    pub items: Vec<RoutineEntrance>,
}

impl Model for Routines {
    ghost use Rattle.std.specs.Prelude.{List};
    ghost use Rattle.a68_code.specs.declared.code.RoutineEntrance.{RoutineEntrance};

    ghost Value = { List RoutineEntrance };

    ghost view = { λ routines. routines.items.items };
}

impl Routines {
    /// Equal entrances.
    pub fn copy(&self, alloc: Global) -> Result<Routines, NoMemory>
        ensures { IfOk result (λ texts. texts ≡ self.now) }
    {
        let items = Vec::from_slice(alloc, &self.items)?;
        Ok(Routines { items })
    }
}

/// The code of a program. The program begins at the first instruction. The texts are the entrances of routine texts, and the
/// units those of the units of parallel clauses, each in order of text.
pub struct Code {
    pub list: Instrs,
    pub texts: Routines,
    pub units: Places,
    pub modes: Modes,
}

impl Drop for Code {
    fn drop(self) {
        let Code {
            list: _,
            texts: _,
            units: _,
            modes: _,
        } = self;
    }
}

impl Code {
    /// An equal code.
    pub fn copy(&self, alloc: Global) -> Result<Code, NoMemory>
        ensures { IfOk result (λ code. code ≡ self.now) }
    {
        Ok(Code {
            list: self.list.copy(alloc)?,
            texts: self.texts.copy(alloc)?,
            units: self.units.copy(alloc)?,
            modes: self.modes.copy(alloc)?,
        })
    }
}
