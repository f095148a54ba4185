//! What is to be done before the next symbol is taken.
ghost use Rattle.std.specs.Prelude.{◌≡◌, ◌++◌, List, reverse, true, OnOk, IfOk, IfSome};
ghost use Rattle.a68_symbols.specs.declared.sym.Sym.{Sym};
ghost use Rattle.a68_read.specs.Weights.{is_taking};
ghost use Rattle.a68_read.specs.Readings.{Reading, TakesFirst};

use crate::act::act;
use crate::kinds::is_taking;
use a68_base::NoMemory;
use a68_nodes::Drafting;
use a68_productions::expand;
use a68_symbols::Sym;
use a68_unit_productions::Goal;
use std::alloc::Global;

// These goals, the first one first.
fn push(goals: &mut Vec<Goal>, more: &[Goal]) -> Result<(), NoMemory>
    ensures { OnOk result (reverse goals.new.items ≡ more.now ++ reverse goals.old.items) }
{
    let mut at = more.len();
    while at > 0 {
        at -= 1;
        goals.push(more[at])?;
    }
    Ok(())
}

/// Does all that is to be done before a symbol is taken. Gives the goal that is to take it, if any goal is left.
pub fn ready(
    alloc: Global,
    goals: &mut Vec<Goal>,
    rest: &[Sym],
    drafting: &mut Drafting,
) -> Result<Option<Goal>, NoMemory>
    ensures taking { IfOk result (λ next. IfSome next (λ goal. is_taking goal ≡ true)) }
    ensures stands { IfOk result (λ next. (whole : List Sym) → Reading whole (reverse goals.old.items) rest.now drafting.old
        → TakesFirst whole rest.now drafting.new (reverse goals.new.items) next) }
{
    while let Some(goal) = goals.pop() {
        if is_taking(goal) {
            return Ok(Some(goal));
        }
        match expand(goal, rest) {
            Some(more) => push(goals, more)?,
            None => act(alloc, goal, rest, drafting)?,
        }
    }
    Ok(None)
}
