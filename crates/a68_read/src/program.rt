//! Whole texts.
ghost use Rattle.std.specs.Prelude.{◌≡◌};
ghost use Rattle.a68_nodes.specs.Views.{views};
ghost use Rattle.a68_read.specs.Readings.{ReadsProgram};

use crate::ready::ready;
use crate::take::take;
use crate::unread::Unread;
use a68_nodes::{Draft, Drafting};
use a68_symbols::Sym;
use a68_unit_productions::Goal;
use std::alloc::Global;

/// The nodes of the one derivation of all the symbols by the grammar, each behind its parts. A text that has none is
/// refused at the symbol that does not go on the form that was chosen.
pub fn read(alloc: Global, text: &[Sym]) -> Result<Vec<Draft>, Unread>
    ensures { ReadsProgram (λ drafts. views drafts.items) text.now result }
{
    let mut drafting = Drafting::new(alloc, text)?;
    let mut goals = Vec::new(alloc);
    goals.push(Goal::Enclosed)?;
    let mut rest = text;
    while let Some(goal) = ready(alloc, &mut goals, rest, &mut drafting)? {
        rest = take(goal, rest, &mut drafting)?;
    }
    if !rest.is_empty() {
        return Err(Unread::NoTree(rest.len()));
    }
    Ok(drafting.finish())
}
