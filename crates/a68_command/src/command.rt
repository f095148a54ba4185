//! What the words of the command line ask for.
ghost use Rattle.std.specs.Prelude.{◌≡◌, IfOk};

use a68_base::NoMemory;
use std::alloc::Global;
use std::marker::Model;

/// The name of a file; contracts see its bytes.
#[derive(Drop)]
pub struct FileName {
    pub items: String,
}

impl Model for FileName {
    ghost use Rattle.std.specs.Prelude.{List, ℕ, string_bytes};

    ghost Value = { List ℕ };

    ghost view = { λ name. string_bytes name.items };
}

impl FileName {
    /// A name of these bytes.
    pub(crate) fn new(alloc: Global, name: &str) -> Result<FileName, NoMemory>
        ensures { IfOk result (λ file. file ≡ name.now) }
    {
        let items = String::from_str(alloc, name)?;
        Ok(FileName { items })
    }

    /// The name as a text.
    pub fn as_str(&self) -> &str
        ensures { result.now ≡ self.now }
    {
        self.items.as_str()
    }
}

/// What the words ask for.
#[derive(Drop)]
pub enum Command {
    /// To compile the text of a file and to run it, and to tell the names where they are asked for.
    Run {
        file: FileName,
        workers: u32,
        fuel: u32,
        names: bool,
    },
    /// To compile the text of a file with definitions by which it reads the lines of another one, and to run it.
    RunOn {
        file: FileName,
        input: FileName,
        workers: u32,
        fuel: u32,
    },
    /// To compile the text of a file.
    Check {
        file: FileName,
    },
    /// To compile the text of a file and to list its code.
    Code {
        file: FileName,
    },
    /// To make a text with so many units, to compile it and to run it.
    Make {
        units: u32,
        workers: u32,
    },
    /// To compile the text of a file, to run it, and to write the schedule of the run.
    Trace {
        file: FileName,
        workers: u32,
        fuel: u32,
    },
    /// To compile the text of a file, and to run it by a schedule, the text of another one.
    Replay {
        file: FileName,
        schedule: FileName,
    },
    /// To compile the text of a file, to run it, and to tell the races of the run.
    Races {
        file: FileName,
        workers: u32,
        fuel: u32,
    },
    /// To lay the text of a file out anew.
    LayOut {
        file: FileName,
    },
}
