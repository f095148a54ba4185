//! The two texts that a call owes, to its two sinks.
ghost use Rattle.std.specs.Prelude.{◌≡◌, OnOk, OnErr};
ghost use Rattle.a68_top.specs.Outcome.{sunk, Whole, Broke};

use a68_base::Text;
use a68_outside::{Failed, Sink, write_whole};

/// Writes one text to `out` and then one to `notes`, and stops at the first write that fails.
pub fn deliver<K: Sink, N: Sink>(
    on_out: &Text,
    on_notes: &Text,
    out: &mut K,
    notes: &mut N,
) -> Result<(), Failed>
    ensures out { OnOk result (Whole (sunk K.faults K.received out.old out.new) on_out.now) }
    ensures notes { OnOk result (Whole (sunk N.faults N.received notes.old notes.new) on_notes.now) }
    ensures calm_out { OnOk result (K.faults out.new ≡ K.faults out.old) }
    ensures calm_notes { OnOk result (N.faults notes.new ≡ N.faults notes.old) }
    ensures broke { OnErr result (Broke (sunk K.faults K.received out.old out.new) (sunk N.faults N.received notes.old notes.new) on_out.now on_notes.now) }
{
    write_whole(out, on_out.as_slice())?;
    write_whole(notes, on_notes.as_slice())
}
