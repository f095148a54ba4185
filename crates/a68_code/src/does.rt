//! The instruction set.
ghost use Rattle.std.specs.Prelude.{◌≡◌, IfOk};

use crate::Places;
use a68_base::NoMemory;
use a68_layout::TrimForms;
use a68_values::Value;
use std::alloc::Global;

/// What an instruction does. It works on the stack of the strand, whose top stands on the right below, and on the frame
/// in which the strand stands. An instruction without an act is silent. It goes on with the next instruction where no
/// other landing place is named.
///
/// | name | operands | stack before | stack after | act | |
/// |---|---|---|---|---|---|
/// | Push | a value | | value | | |
/// | Skip | a mode | | value | | the value of SKIP; nothing for VOID |
/// | Nil | | | name | | the name that refers to nothing |
/// | Routine | number of a routine text, distance | | routine | | of the scope of the frame so many frames outwards; of that of the standard environ where there is no distance |
/// | Tag | hops, slot | | value | Look | the slot of the frame so many frames outwards |
/// | Enter | slots | | | Enter | a frame within this one, of scope one more |
/// | Leave | 0 or 1 | value, for 1 | value, for 1 | | back to the outer frame; for 1 the value may not be newer than it |
/// | Bind | slot | value | | Bind | a slot of this frame |
/// | Make | mode, bounds | the bounds | name | Make | new cells, of the scope of this frame |
/// | Heap | mode, bounds | the bounds | name | Make | new cells, of scope 0 |
/// | Deref | mode | name | value | Fetch | |
/// | Store | mode | name, value | name | Assign | |
/// | Apply | row | operands | value; none for rows 35 and 36 | Fetch and Assign for rows 1 to 6, and Make for those of STRING; Fetch of a name's descriptor for 24, 25, 37 and 38; Make and Assign, or Fetch, for 34; Up for 35; Down for 36 | a row of the table of operators |
/// | Same | 0 or 1 | name, name | truth value | | whether the names refer to the same; the other way round for 1 |
/// | Slice | forms | row or name, the subscripts and what stands in trimmers | value or name | Fetch of a name's descriptor; Make where a part is left | a subscript or trimmer for each dimension |
/// | Display | count, mode | the elements, or rows of them | row | | |
/// | Vacuum | mode | | row | | a row without elements |
/// | Compose | count | the fields | structure | | |
/// | Select | mode, field | structure, row of them, or name of either | value or name | Fetch of a row's descriptor and Make, for the name of a row | a field, or the name of one; the mode is that of what it is selected from |
/// | Unite | mode | value | value | | a value of the mode united; one that is united already stays |
/// | RowUp | mode | value | row | | a row, of this mode, of one element or with one dimension more |
/// | RowUpName | mode | name | name | Fetch of a row's descriptor, Make | the same of a name; the mode is that of the new name |
/// | Widen | | bits | row | | a row of truth values |
/// | Drop | | value | | | |
/// | Print | count | the items | | Print | one for each item in order |
/// | Whole | | number, width | text | | the number as a text |
/// | Call | count, whether a value comes back | routine, the parameters | value, where it comes back | Turn, Enter, Bind of each parameter in order | goes to the entrance of the routine text; the fault Kind where that yields just where nothing comes back |
/// | Return | | value, where the body leaves one | the same, on the caller's stack | | goes behind the Call; the value may not be newer than the caller's frame |
/// | Jump | place | | | | goes there |
/// | Goto | place, frames, height, whether a value is counted | the values of the activation | the lowest ones, as many as the height | Turn | goes so many frames outwards, takes all other values of the activation off, and goes there; the fault Kind before its Turn where there are fewer frames or values. A way that leads on behind it is counted with one value more, or with none |
/// | Unless | place | truth value | | | goes there for false |
/// | Case | places | number | | | goes to the place of that number, counted from 1; to the last one for any other number |
/// | Member | mode, places, whole | united value | value, but for the last place | | goes to the place of the member that the value has; to the last one for a member that no part takes. The member's value is left, or the united one where `whole` has 1 for it. There is a place for each member of the mode in order and one more, the last, and in `whole` a number for each member |
/// | Counter | | FROM, BY, TO | counter | | TO may be unset: no limit |
/// | Index | | counter | counter, value | | the count of the counter |
/// | Step | place | counter | counter | | goes there where the loop has no further turn |
/// | Turn | | | | Turn | |
/// | Advance | place | counter | counter | | adds BY and goes there; goes on where the sum is no INT |
/// | Forget | | counter | | | |
/// | Fork | places | | | Fork | strands for the units of a parallel clause, which begin at these places; goes on when all of them have come to their Close |
/// | Close | | | | Close | the end of a unit of a parallel clause |
/// | End | | | | | the program has come to its end |
///
/// A place is the number of an instruction in the list, from 0.
pub enum Does {
    Push(Value),
    Skip(u32),
    Nil,
    Routine {
        text: u32,
        distance: Option<u32>,
    },
    Tag {
        hops: u32,
        slot: u32,
    },
    Enter(u32),
    Leave(u32),
    Bind(u32),
    Make {
        mode: u32,
        bounds: u32,
    },
    Heap {
        mode: u32,
        bounds: u32,
    },
    Deref(u32),
    Store(u32),
    Apply(u32),
    Same(u32),
    Slice(TrimForms),
    Display {
        count: u32,
        mode: u32,
    },
    Vacuum(u32),
    Compose(u32),
    Select {
        mode: u32,
        field: u32,
    },
    Unite(u32),
    RowUp(u32),
    RowUpName(u32),
    Widen,
    Drop,
    Print(u32),
    Whole,
    Call {
        count: u32,
        gives: bool,
    },
    Return,
    Jump(u32),
    Goto {
        to: u32,
        frames: u32,
        height: u32,
        gives: bool,
    },
    Unless(u32),
    Case(Places),
    Member {
        mode: u32,
        places: Places,
        whole: Places,
    },
    Counter,
    Index,
    Step(u32),
    Turn,
    Advance(u32),
    Forget,
    Fork(Places),
    Close,
    End,
}

impl Drop for Does {
    fn drop(self) {
        match self {
            Does::Push(_)
            | Does::Skip(_)
            | Does::Nil
            | Does::Routine {
                text: _,
                distance: _,
            }
            | Does::Tag { hops: _, slot: _ }
            | Does::Enter(_)
            | Does::Leave(_)
            | Does::Bind(_)
            | Does::Make { mode: _, bounds: _ }
            | Does::Heap { mode: _, bounds: _ }
            | Does::Deref(_)
            | Does::Store(_)
            | Does::Apply(_)
            | Does::Same(_)
            | Does::Slice(_)
            | Does::Display { count: _, mode: _ }
            | Does::Vacuum(_)
            | Does::Compose(_)
            | Does::Select { mode: _, field: _ }
            | Does::Unite(_)
            | Does::RowUp(_)
            | Does::RowUpName(_)
            | Does::Widen
            | Does::Drop
            | Does::Print(_)
            | Does::Whole
            | Does::Call { count: _, gives: _ }
            | Does::Return
            | Does::Jump(_)
            | Does::Goto {
                to: _,
                frames: _,
                height: _,
                gives: _,
            }
            | Does::Unless(_)
            | Does::Case(_)
            | Does::Member {
                mode: _,
                places: _,
                whole: _,
            }
            | Does::Counter
            | Does::Index
            | Does::Step(_)
            | Does::Turn
            | Does::Advance(_)
            | Does::Forget
            | Does::Fork(_)
            | Does::Close
            | Does::End => {}
        }
    }
}

// Equal forms.
fn copy_forms(alloc: Global, forms: &TrimForms) -> Result<TrimForms, NoMemory>
    ensures { IfOk result (λ copied. copied ≡ forms.now) }
{
    let items = Vec::from_slice(alloc, &forms.items)?;
    Ok(TrimForms { items })
}

impl Does {
    /// An equal instruction. One without a list of places or of forms, and without a value that is made of others, takes no memory.
    pub fn copy(&self, alloc: Global) -> Result<Does, NoMemory>
        ensures { IfOk result (λ does. does ≡ self.now) }
    {
        let does = match self {
            Does::Push(value) => Does::Push(value.copy(alloc)?),
            Does::Skip(mode) => Does::Skip(*mode),
            Does::Nil => Does::Nil,
            Does::Routine { text, distance } => Does::Routine {
                text: *text,
                distance: *distance,
            },
            Does::Tag { hops, slot } => Does::Tag {
                hops: *hops,
                slot: *slot,
            },
            Does::Enter(slots) => Does::Enter(*slots),
            Does::Leave(kept) => Does::Leave(*kept),
            Does::Bind(slot) => Does::Bind(*slot),
            Does::Make { mode, bounds } => Does::Make {
                mode: *mode,
                bounds: *bounds,
            },
            Does::Heap { mode, bounds } => Does::Heap {
                mode: *mode,
                bounds: *bounds,
            },
            Does::Deref(mode) => Does::Deref(*mode),
            Does::Store(mode) => Does::Store(*mode),
            Does::Apply(row) => Does::Apply(*row),
            Does::Same(negated) => Does::Same(*negated),
            Does::Slice(forms) => Does::Slice(copy_forms(alloc, forms)?),
            Does::Display { count, mode } => Does::Display {
                count: *count,
                mode: *mode,
            },
            Does::Vacuum(mode) => Does::Vacuum(*mode),
            Does::Compose(count) => Does::Compose(*count),
            Does::Select { mode, field } => Does::Select {
                mode: *mode,
                field: *field,
            },
            Does::Unite(mode) => Does::Unite(*mode),
            Does::RowUp(mode) => Does::RowUp(*mode),
            Does::RowUpName(mode) => Does::RowUpName(*mode),
            Does::Widen => Does::Widen,
            Does::Drop => Does::Drop,
            Does::Print(count) => Does::Print(*count),
            Does::Whole => Does::Whole,
            Does::Call { count, gives } => Does::Call {
                count: *count,
                gives: *gives,
            },
            Does::Return => Does::Return,
            Does::Jump(to) => Does::Jump(*to),
            Does::Goto {
                to,
                frames,
                height,
                gives,
            } => Does::Goto {
                to: *to,
                frames: *frames,
                height: *height,
                gives: *gives,
            },
            Does::Unless(to) => Does::Unless(*to),
            Does::Case(places) => Does::Case(places.copy(alloc)?),
            Does::Member {
                mode,
                places,
                whole,
            } => {
                let places = places.copy(alloc)?;
                Does::Member {
                    mode: *mode,
                    places,
                    whole: whole.copy(alloc)?,
                }
            }
            Does::Counter => Does::Counter,
            Does::Index => Does::Index,
            Does::Step(to) => Does::Step(*to),
            Does::Turn => Does::Turn,
            Does::Advance(to) => Does::Advance(*to),
            Does::Forget => Does::Forget,
            Does::Fork(entrances) => Does::Fork(entrances.copy(alloc)?),
            Does::Close => Does::Close,
            Does::End => Does::End,
        };
        Ok(does)
    }
}
