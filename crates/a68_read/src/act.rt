//! What is done with what was read.
ghost use Rattle.std.specs.Prelude.{◌≡◌, true, OnOk};
ghost use Rattle.a68_unit_productions.specs.declared.goal.Goal.TheVariants as g;
ghost use Rattle.a68_read.specs.Acts.{is_acting};
ghost use Rattle.a68_read.specs.Readings.{IsDone};

use a68_base::NoMemory;
use a68_nodes::Drafting;
use a68_symbols::Sym;
use a68_tree::NodeKind;
use a68_unit_productions::Goal;
use std::alloc::Global;

// A node, and it is left.
fn close(
    alloc: Global,
    kind: NodeKind,
    rest: &[Sym],
    drafting: &mut Drafting,
) -> Result<(), NoMemory>
    ensures { OnOk result (IsDone (g.Close kind) rest.now rest.now drafting.old drafting.new) }
{
    drafting.wrap(alloc, kind, rest)?;
    drafting.leave();
    Ok(())
}

// A jump, and it is left.
fn leap(alloc: Global, rest: &[Sym], drafting: &mut Drafting) -> Result<(), NoMemory>
    ensures { OnOk result (IsDone g.Leap rest.now rest.now drafting.old drafting.new) }
{
    drafting.wrap_jump(alloc, rest)?;
    drafting.leave();
    Ok(())
}

// Several definitions become a node.
fn join(alloc: Global, rest: &[Sym], drafting: &mut Drafting) -> Result<(), NoMemory>
    ensures { OnOk result (IsDone g.Join rest.now rest.now drafting.old drafting.new) }
{
    if drafting.is_single() {
        drafting.leave();
        return Ok(());
    }
    drafting.wrap(alloc, NodeKind::Joined, rest)?;
    drafting.leave();
    Ok(())
}

/// Does with what was read what the goal is to do.
pub fn act(alloc: Global, goal: Goal, rest: &[Sym], drafting: &mut Drafting) -> Result<(), NoMemory>
    requires { is_acting goal ≡ true }
    ensures { OnOk result (IsDone goal rest.now rest.now drafting.old drafting.new) }
{
    match goal {
        Goal::Begin => drafting.open(rest),
        Goal::Wrap(kind) => drafting.wrap(alloc, kind, rest),
        Goal::Relate => drafting.wrap_identity(alloc, rest),
        Goal::WrapLong => drafting.wrap_long(alloc, rest),
        Goal::Leap => leap(alloc, rest, drafting),
        Goal::Close(kind) => close(alloc, kind, rest, drafting),
        Goal::SetAside(kind) => drafting.set_aside(alloc, kind, rest),
        Goal::Share => drafting.share(),
        Goal::Join => join(alloc, rest, drafting),
        Goal::Forget => {
            drafting.forget();
            Ok(())
        }
        _ => {
            drafting.leave();
            Ok(())
        }
    }
}
