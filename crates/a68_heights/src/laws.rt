//! Laws of the machine on valid code.
ghost use Rattle.std.specs.Prelude.{◌≡◌, ◌<◌, ◌≤◌, ◌+◌, ◌*◌, Some, false, length, All, Contains, ℕ, List};
ghost use Rattle.a68_acts.specs.declared.want.Reply.{Reply};
ghost use Rattle.a68_code.specs.Flow.{entrances};
ghost use Rattle.a68_code.specs.Valid.{IsValid};
ghost use Rattle.a68_code.specs.declared.code.Code.{Code};
ghost use Rattle.a68_code.specs.declared.owner.Owner.{Owner};
ghost use Rattle.a68_exec.specs.Memory.{SettlesNot, TakesMemory};
ghost use Rattle.a68_exec.specs.Runs.{Machine, World, acted, opening};
ghost use Rattle.a68_heights.specs.Heights.{Fits};
ghost use Rattle.a68_heights.specs.Room.{HasInnerRoom, MakesRoomFor, Suffices, is_entering};
ghost use Rattle.a68_instructions.specs.Machine.{State, beginning, next_state, replied, settle};
ghost use Rattle.a68_stack.specs.Values.{callers, height};
ghost use Rattle.a68_values.specs.declared.act.Act.{Act};
ghost use Rattle.a68_values.specs.declared.act.Entry.{Entry};
ghost use Rattle.a68_values.specs.declared.chain.Environ.{Environ};

/// States that a strand which begins at an entrance of valid code fits the code, and that each silent step, each reply and
/// all silent steps up to the next act leave one that does.
pub fn strands_keep_their_heights()
    ensures begins { (code : Code) (whose : Owner) (at : ℕ) (chain : List Environ) → Contains (entrances code whose) at → Fits code (beginning at chain) }
    ensures steps { (code : Code) → IsValid code → (st next : State) → Fits code st → next_state code st ≡ Some next → Fits code next }
    ensures told { (code : Code) (st : State) (reply : Reply) → Fits code st → Fits code (replied code st reply) }
    ensures settles { (code : Code) → IsValid code → (st : State) → Fits code st → Fits code (settle code st) }
{}

/// States that an act of a strand, or its reply, leaves all strands fitting valid code where all of them did, those that the
/// act makes too, and that all strands of a run fit it.
pub fn runs_keep_their_heights()
    ensures acts { (code : Code) → IsValid code → (now next : World) (strand : ℕ) (act : Act) → All (Fits code) now.strands
        → acted code now strand ≡ Some (act, next) → All (Fits code) next.strands }
    ensures runs { (code : Code) → IsValid code → (entries : List Entry) (end : World) → Machine code (opening code) entries end
        → All (Fits code) end.strands }
{}

/// States that the innermost activation of a strand that fits valid code has fewer items than the code has instructions, and
/// that all its open activations together have fewer than each of them may have; so it is with each strand of a run.
pub fn activations_fit()
    ensures innermost { (code : Code) → IsValid code → (st : State) → Fits code st → height st.stack.items < length code.list }
    ensures whole { (code : Code) → IsValid code → (st : State) → Fits code st
        → length st.stack.items < length code.list * (1 + callers st.stack.items) }
    ensures runs { (code : Code) → IsValid code → (entries : List Entry) (end : World) → Machine code (opening code) entries end
        → All (λ (st : State). (height st.stack.items < length code.list) × (length st.stack.items < length code.list * (1 + callers st.stack.items))) end.strands }
{}

/// States that a stack on which each open activation has room for as many items as it may have holds all items of a strand that
/// fits the code, and that this room is left by each silent step and each reply; only the reply by which a routine is entered wants
/// new room, which is counted above its caller. So where such a strand finds no memory on the way to its next act, one of its
/// instructions there works on other values than plain ones.
pub fn stacks_keep_their_room()
    ensures holds { (code : Code) (most : ℕ → ℕ) → Suffices code most → (room : ℕ) (st : State) → Fits code st → HasInnerRoom code most room st → length st.stack.items < room }
    ensures begins { (code : Code) (most : ℕ → ℕ) (room at : ℕ) (chain : List Environ) → most at ≤ room → HasInnerRoom code most room (beginning at chain) }
    ensures steps { (code : Code) (most : ℕ → ℕ) → Suffices code most → (room : ℕ) (st next : State) → HasInnerRoom code most room st → next_state code st ≡ Some next → HasInnerRoom code most room next }
    ensures settles { (code : Code) (most : ℕ → ℕ) → Suffices code most → (room : ℕ) (st : State) → HasInnerRoom code most room st → HasInnerRoom code most room (settle code st) }
    ensures told { (code : Code) (most : ℕ → ℕ) → Suffices code most → (room : ℕ) (st : State) (reply : Reply) → is_entering st.stance ≡ false → HasInnerRoom code most room st
        → HasInnerRoom code most room (replied code st reply) }
    ensures entered { (code : Code) (most : ℕ → ℕ) → Suffices code most → (room : ℕ) (st : State) (reply : Reply) → HasInnerRoom code most room st → MakesRoomFor code most room st st.stance reply
        → HasInnerRoom code most room (replied code st reply) }
    ensures plainly { (code : Code) (most : ℕ → ℕ) → Suffices code most → (room : ℕ) (st : State) → Fits code st → HasInnerRoom code most room st
        → SettlesNot code room st → TakesMemory code st }
{}
