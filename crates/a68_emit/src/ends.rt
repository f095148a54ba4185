//! The ends of choices: where the jumps to them are patched, and frames are left.
ghost use Rattle.std.specs.Prelude.{List, ◌≡◌, ◌⊎◌, ◌∷◌, ◌++◌, [], length};
ghost use Rattle.std.specs.declared.option.Option.{Option};
ghost use Rattle.a68_base.specs.declared.refusal.Stop.{Stop};
ghost use Rattle.a68_code.specs.declared.code.Instr.{Instr};
ghost use Rattle.a68_elab.specs.Trees.{Tree};
ghost use Rattle.a68_emit.specs.Chains.{Closes, Finishes, TreeIsWritten, shuts};
ghost use Rattle.a68_emit.specs.Writers.{Wrote};
ghost use Rattle.a68_emit.specs.Writing.{ran_out};

use crate::chains::Link;
use crate::writer::Writer;
use a68_code::Does;

/// A choice whose end is yet to come: the number of its jump to the end, the byte at which it begins, the slots of its
/// frame, and whether it yields a value.
#[derive(Clone, Copy)]
pub struct Opened {
    pub jump: u32,
    pub place: u32,
    pub slots: u32,
    pub yields: bool,
}

/// With slots Leave: 1 where a value is yielded, else 0.
pub fn shut(place: u32, slots: u32, yields: bool, out: &mut Writer)
    ensures { Wrote out.old out.new (shuts slots yields place) }
{
    if slots > 0 {
        out.emit(place, Does::Leave(u32::from(yields)));
    }
}

/// Keeps a choice whose end is yet to come.
pub fn keep_open(opens: &mut Vec<Opened>, link: &Link, jump: u32, out: &mut Writer)
    ensures list { out.new.list ≡ out.old.list }
    ensures kept { ((opens.new.items ≡ opens.old.items ++ (record { jump = jump; place = link.now.place; slots = link.now.slots; yields = link.now.yields }) ∷ []) × (out.new.stop ≡ out.old.stop))
        ⊎ ((opens.new.items ≡ opens.old.items) × (out.new.stop ≡ ran_out out.old.stop)) }
{
    let opened = Opened {
        jump,
        place: link.place,
        slots: link.slots,
        yields: link.yields,
    };
    if opens.push(opened).is_err() {
        out.run_out();
    }
}

/// Keeps a number.
pub fn keep(numbers: &mut Vec<u32>, number: u32, out: &mut Writer)
    ensures list { out.new.list ≡ out.old.list }
    ensures stop { (out.new.stop ≡ out.old.stop) ⊎ (out.new.stop ≡ ran_out out.old.stop) }
    ensures kept { out.new.stop ≡ None → numbers.new.items ≡ numbers.old.items ++ number ∷ [] }
{
    if numbers.push(number).is_err() {
        out.run_out();
    }
}

// Ends a choice here: its jump comes here, and its frame is left.
fn close(opened: &Opened, out: &mut Writer)
    ensures { Closes opened.now out.old.stop out.old.list out.new.stop out.new.list }
{
    let end = out.len();
    out.patch(opened.jump, end);
    shut(opened.place, opened.slots, opened.yields, out);
}

/// Ends all these choices here, from the last to the first.
pub fn close_all(opens: &[Opened], out: &mut Writer)
    ensures { (t : Tree) (stop : Option Stop) (list : List Instr) → Finishes opens.now (TreeIsWritten t stop list) out.old.stop out.old.list
        → TreeIsWritten t stop list out.new.stop out.new.list }
{
    let mut left = opens.len();
    while left > 0 {
        left -= 1;
        close(&opens[left], out);
    }
}
