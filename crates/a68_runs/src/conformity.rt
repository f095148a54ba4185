//! Conformity clauses.
ghost use Rattle.std.specs.Prelude.{◌≡◌, ◌<◌, length};
ghost use Rattle.a68_elab.specs.Made as made;
ghost use Rattle.a68_elab.specs.Runs as runs;
ghost use Rattle.a68_tree.specs.Trees.{AllBetween};

use crate::outcomes::leaves;
use crate::runs::{asks, out_runs};
use a68_annot::Annotated;
use a68_modes::ModeId;
use a68_parts::{before_out, out_of};
use a68_tree::NodeId;

// The mode that is asked of a node.
fn goal_at(program: &Annotated, id: NodeId) -> ModeId
    requires { id < length program.now.tree.nodes }
    ensures { result ≡ made.goal_at program.now id }
{
    program.note(id).goal
}

// Do the parts of specifications leave what is wanted, two by two?
fn specs_run(program: &Annotated, wanted: bool, specs: &[NodeId]) -> bool
    ensures { result ≡ runs.specs_run program.now wanted specs.now }
{
    let mut at = 0;
    while specs.len() - at > 1 {
        if !leaves(program, wanted, specs[at + 1]) {
            return false;
        }
        at += 2;
    }
    at == specs.len()
}

/// Does a choice by the mode of a united value run: its enquiry, and the parts that it chooses from?
pub fn conformity_runs(
    program: &Annotated,
    id: NodeId,
    goal: ModeId,
    wanted: bool,
    parts: &[NodeId],
) -> bool
    requires { AllBetween id (length program.now.tree.nodes) parts.now }
    ensures { result ≡ runs.conformity_runs program.now goal wanted parts.now }
{
    if parts.len() == 0 {
        return false;
    }
    let rest = &parts[1..];
    goal_at(program, parts[0]) < program.modes.len()
        && asks(program, parts[0])
        && specs_run(program, wanted, before_out(program, id, rest))
        && out_runs(program, goal, wanted, out_of(program, id, rest))
}
