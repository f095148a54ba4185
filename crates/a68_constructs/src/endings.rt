//! The ends of choices that are yet to come: where the jumps to them are patched, and frames are left.
ghost use Rattle.std.specs.Prelude.{List, ◌≡◌, ◌⊎◌, ◌∷◌, ◌++◌, []};
ghost use Rattle.std.specs.declared.option.Option.{Option};
ghost use Rattle.a68_base.specs.declared.refusal.Stop.{Stop};
ghost use Rattle.a68_code.specs.declared.code.Instr.{Instr};
ghost use Rattle.a68_elab.specs.Trees.{Tree};
ghost use Rattle.a68_emit.specs.Chains.{TreeIsWritten};
ghost use Rattle.a68_emit.specs.Writing.{ran_out};
ghost use Rattle.a68_constructs.specs.Endings.{AllEnd, Ends};

use a68_emit::{Writer, shut};

/// A choice whose end is yet to come: the numbers of its jumps to the end, the byte at which it begins, the slots of its
/// frame, and whether it yields a value.
#[derive(Drop)]
pub struct Ending {
    pub jumps: Vec<u32>,
    pub place: u32,
    pub slots: u32,
    pub yields: bool,
}

/// Keeps a choice whose end is yet to come.
pub fn keep_ending(endings: &mut Vec<Ending>, ending: Ending, out: &mut Writer)
    ensures list { out.new.list ≡ out.old.list }
    ensures kept { ((endings.new.items ≡ endings.old.items ++ ending ∷ []) × (out.new.stop ≡ out.old.stop))
        ⊎ ((endings.new.items ≡ endings.old.items) × (out.new.stop ≡ ran_out out.old.stop)) }
{
    if endings.push(ending).is_err() {
        out.run_out();
    }
}

// Ends a choice here: its jumps come here, and its frame is left.
fn end(ending: &Ending, out: &mut Writer)
    ensures { Ends ending.now out.old.stop out.old.list out.new.stop out.new.list }
{
    let end = out.len();
    out.patch_all(&ending.jumps, end);
    shut(ending.place, ending.slots, ending.yields, out);
}

/// Ends all these choices here, from the last to the first.
pub fn end_all(endings: &[Ending], out: &mut Writer)
    ensures { (t : Tree) (stop : Option Stop) (list : List Instr) → AllEnd endings.now (TreeIsWritten t stop list) out.old.stop out.old.list
        → TreeIsWritten t stop list out.new.stop out.new.list }
{
    let mut left = endings.len();
    while left > 0 {
        left -= 1;
        end(&endings[left], out);
    }
}
