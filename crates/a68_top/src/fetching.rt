//! The texts of commands, from the shelf.
ghost use Rattle.std.specs.Prelude.{◌≡◌, ◌≤◌, length, take, IfOk, OnOk, IfSome, IsErrOf, Some, [], ◌∷◌};
ghost use Rattle.a68_command.specs.Commands.{task_of, HasRange};
ghost use Rattle.a68_command.specs.Words.{MayAskFor, files_of};
ghost use Rattle.a68_maker.specs.Making.{make_text};
ghost use Rattle.a68_outside.specs.Cause.{Rose};
ghost use Rattle.a68_top.specs.Answer.{read_of};
ghost use Rattle.a68_top.specs.Commands.{HasOneText, IsTextFor};
ghost use Rattle.a68_top.specs.declared.fetching.Early.TheVariants as early;

use a68_base::{MOST_READ, NoMemory, Text};
use a68_command::Command;
use a68_maker::{FEWEST_UNITS, MOST_UNITS, make_text};
use a68_outside::{ReadStop, Shelf, read_at_most};
use std::alloc::Global;

/// Why nothing could be prepared.
#[derive(Clone, Copy)]
pub enum Early {
    ReadFault,
    NoMemory,
}

impl From<NoMemory> for Early {
    ghost from_gives = { λ _ e. e ≡ early.NoMemory };

    fn from(_error: NoMemory) -> Early {
        Early::NoMemory
    }
}

/// The text of a file, or as much of it as is read at most.
pub fn fetch<F: Shelf>(alloc: Global, name: &str, most: usize, shelf: &mut F) -> Result<Text, Early>
    requires { F.may_ask name.now }
    ensures text { IfOk result (λ text. IfSome (F.under shelf.old name.now) (λ all. text ≡ take most all)) }
    ensures length { IfOk result (λ text. length text ≤ most) }
    ensures names { F.under shelf.new ≡ F.under shelf.old }
    ensures calm { OnOk result (F.faults shelf.new ≡ F.faults shelf.old) }
    ensures memory { IsErrOf result Early.NoMemory → F.faults shelf.new ≡ F.faults shelf.old }
    ensures failed { IsErrOf result Early.ReadFault → Rose (F.faults shelf.old) (F.faults shelf.new) }
{
    if shelf.begin(name).is_err() {
        return Err(Early::ReadFault);
    }
    match read_at_most(alloc, shelf, most) {
        Ok(text) => Ok(text),
        Err(ReadStop::Failed) => Err(Early::ReadFault),
        Err(ReadStop::NoMemory) => Err(Early::NoMemory),
    }
}

// Leaves at most so many bytes of a text.
fn cut(text: &mut Text, most: usize)
    ensures { text.new ≡ take most text.old }
{
    text.items.truncate(most);
}

// What is read of the text that is made.
fn made_text(alloc: Global, units: u32) -> Result<Text, Early>
    requires some { FEWEST_UNITS ≤ units }
    requires few { units ≤ MOST_UNITS }
    ensures text { IfOk result (λ text. text ≡ read_of (make_text units)) }
    ensures length { IfOk result (λ text. length text ≤ MOST_READ) }
    ensures failed { IsErrOf result Early.ReadFault → ⊥ }
{
    let mut text = make_text(alloc, units)?;
    cut(&mut text, MOST_READ);
    Ok(text)
}

/// The text of a command of one text: the one that is made, or what is read of its file.
pub fn text_for<F: Shelf>(alloc: Global, command: &Command, shelf: &mut F) -> Result<Text, Early>
    requires may_ask { MayAskFor F.may_ask (Some (task_of command.now)) }
    requires range { HasRange command.now }
    requires one { HasOneText (task_of command.now) }
    ensures text { IfOk result (IsTextFor (task_of command.now) (F.under shelf.old)) }
    ensures length { IfOk result (λ text. length text ≤ MOST_READ) }
    ensures calm { OnOk result (F.faults shelf.new ≡ F.faults shelf.old) }
    ensures memory { IsErrOf result Early.NoMemory → F.faults shelf.new ≡ F.faults shelf.old }
    ensures failed { IsErrOf result Early.ReadFault → Rose (F.faults shelf.old) (F.faults shelf.new) }
    ensures unasked { files_of (Some (task_of command.now)) ≡ [] → F.faults shelf.new ≡ F.faults shelf.old }
    ensures no_fault { files_of (Some (task_of command.now)) ≡ [] → IsErrOf result Early.ReadFault → ⊥ }
{
    match command {
        Command::Make { units, .. } => made_text(alloc, *units),
        Command::Run { file, .. } => fetch(alloc, file.as_str(), MOST_READ, shelf),
        Command::Check { file } => fetch(alloc, file.as_str(), MOST_READ, shelf),
        Command::Code { file } => fetch(alloc, file.as_str(), MOST_READ, shelf),
        Command::Trace { file, .. } => fetch(alloc, file.as_str(), MOST_READ, shelf),
        Command::Races { file, .. } => fetch(alloc, file.as_str(), MOST_READ, shelf),
        Command::LayOut { file } => fetch(alloc, file.as_str(), MOST_READ, shelf),
        // These have two files.
        Command::RunOn { .. } => unreachable!(),
        Command::Replay { .. } => unreachable!(),
    }
}
