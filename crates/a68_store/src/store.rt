//! The store.
ghost use Rattle.std.specs.Prelude.{◌≡◌, ◌≢◌, ◌<◌, ◌≤◌, ◌+◌, ◌-◌, ◌^◌, ◌∷◌, [], true, pos, int_lt, nat_lt, None, Some, Err, length, map, replicate, slice_get, slice_set, vec_len, IfOk, IfSome, IsErrOf, MatchBool, MatchOption, OnErr, OnOk};
ghost use Rattle.std.specs.Option.{option_copied, option_map_or};
ghost use Rattle.a68_acts.specs.Does.{count_held, count_in, does, did, refused, with_count};
ghost use Rattle.a68_acts.specs.Operations.{one_cell};
ghost use Rattle.a68_acts.specs.Store.{chain_of, counted, most_counted, most_strands, opening_store};
ghost use Rattle.a68_store.specs.Acts.{DoesAct, has_to_wait};
ghost use Rattle.a68_store.specs.Frames.{HasSlot, frame_of, plain_bound, plain_held, row_held, slot_in};
ghost use Rattle.a68_values.specs.Content.{as_plain, plain};

use crate::chains::chain_behind;
use crate::frame::{Frame, place};
use crate::plans::{add_cells, is_closed};
use crate::room::{add_unbound, keep, make_room, push_frame};
use crate::slot::Slot;
use crate::stop::StoreStop;
use crate::weight::weight;
use a68_acts::{Reply, Want};
use a68_base::{MOST_COUNTED, MOST_PRINTED, MOST_STRANDS, NoMemory, Span, Text};
use a68_layout::Plan;
use a68_values::{
    Act, Cells, Chain, Descriptor, Entrances, Environ, FaultKind, Held, Plain, Slots, Value,
};
use std::alloc::Global;
use std::marker::Model;
use std::mem;

/// The store of a run. Cells, frames and printed bytes are numbered from 0 in the order made, the slots of a frame
/// from 0. Frame 0 is that of the standard environ and has no slots.
pub struct Store {
    cells: Vec<Held>,
    frames: Vec<Frame>,
    // The slots of all frames, those of each behind those of the frame before.
    slots: Vec<Slot>,
    // Holds nothing: room for what is kept of frame 1, since that may take no memory once the run has ended.
    kept: Vec<Option<Value>>,
    text: Vec<u8>,
    // What the store counts.
    counted: u32,
    // How many strands have been made.
    strands: u32,
}

impl Drop for Store {
    fn drop(self) {
        let Store {
            cells: _,
            frames: _,
            slots: _,
            kept: _,
            text: _,
            counted: _,
            strands: _,
        } = self;
    }
}

impl Model for Store {
    ghost use Rattle.a68_acts.specs.Store as store;
    ghost use Rattle.a68_store.specs.Codes.{store_code};

    ghost Value = { store.Store };

    ghost coded = { store_code };

    ghost use Rattle.a68_store.specs.Inside.{store_of, IsSound};

    ghost view = { store_of };

    ghost invariant = { IsSound };
}

// Binds a slot, and lets what it was bound to go.
#[inline(always)]
fn set_slot(slot: &mut Slot, bound: Slot)
    ensures { slot.new ≡ bound }
{
    if slot.is_boxed() {
        let old = mem::replace(slot, bound);
        drop(old);
        return;
    }
    // What is in no box holds no memory, and to forget it spares the look at what it is.
    mem::forget(mem::replace(slot, bound));
}

// Binds a slot to an equal plain value. Each kind is moved by itself, since a move of all that a plain value may be stalls the
// processor where one kind has just been written.
#[inline(always)]
fn bind_to(slot: &mut Slot, held: &Plain)
    ensures { slot.new ≡ Some (plain held.now) }
{
    if let Plain::Int(number) = held {
        return set_slot(slot, Slot::of_plain(Plain::Int(*number)));
    }
    if let Plain::Name(name) = held {
        return set_slot(slot, Slot::of_plain(Plain::Name(*name)));
    }
    if let Plain::Bool(holds) = held {
        return set_slot(slot, Slot::of_plain(Plain::Bool(*holds)));
    }
    set_slot(slot, Slot::of_plain(*held));
}

// Gives a place an equal plain value, kind by kind.
#[inline(always)]
fn copy_to(place: &mut Plain, held: &Plain)
    ensures { place.new ≡ held.now }
{
    if let Plain::Int(number) = held {
        *place = Plain::Int(*number);
        return;
    }
    if let Plain::Name(name) = held {
        *place = Plain::Name(*name);
        return;
    }
    if let Plain::Bool(holds) = held {
        *place = Plain::Bool(*holds);
        return;
    }
    *place = *held;
}

// Gives a cell something to hold, and lets what it held go.
#[inline(always)]
fn set_cell(cell: &mut Held, held: Held)
    ensures { cell.new ≡ held }
{
    let old = mem::replace(cell, held);
    drop(old);
}

// Gives a cell an equal plain value to hold, in its place where it holds one already.
#[inline(always)]
fn hold(cell: &mut Held, held: &Plain)
    ensures { cell.new ≡ Held.Plain held.now }
{
    match cell {
        Held::Plain(place) => copy_to(place, held),
        Held::Rows(_) => set_cell(cell, Held::Plain(*held)),
        Held::Member { .. } => set_cell(cell, Held::Plain(*held)),
    }
}

// The plain value that is held, where it stands; none where another is.
#[inline(always)]
fn plain_of(held: &Held) -> Option<&Plain>
    ensures { option_copied result ≡ plain_held (Some held.now) }
{
    match held {
        Held::Plain(held) => Some(held),
        Held::Rows(_) => None,
        Held::Member { .. } => None,
    }
}

// The row that is held; none where another value is.
#[inline(always)]
fn row_of(held: &Held) -> Option<&Descriptor>
    ensures { option_copied result ≡ row_held (Some held.now) }
{
    match held {
        Held::Plain(_) => None,
        Held::Rows(row) => Some(row),
        Held::Member { .. } => None,
    }
}

// The count that is held, if one is.
fn count_of(held: &Held) -> Option<i64>
    ensures { result ≡ count_held held.now }
{
    match held {
        Held::Plain(Plain::Int(count)) => Some(*count),
        _ => None,
    }
}

// Does a semaphore of this count let no strand pass?
fn halts(count: i64) -> bool
    ensures { result ≡ int_lt count (pos 1) }
{
    count < 1
}

// Are so many strands more than a run may have beside those that were made?
fn are_too_many(made: u32, count: usize) -> bool
    requires { made ≤ most_strands }
    ensures { result ≡ nat_lt most_strands (made + count) }
{
    count > (MOST_STRANDS - made) as usize
}

#[tactic(auto, unfolding(a68_acts::specs::Does::does))]
impl Store {
    /// The store of a run that is yet to begin: frame 0 alone.
    pub fn new(alloc: Global) -> Result<Store, NoMemory>
        ensures { IfOk result (λ store. store ≡ opening_store) }
    {
        let mut frames = Vec::new(alloc);
        frames.push(Frame {
            outer: 0,
            scope: 0,
            first: 0,
            count: 0,
        })?;
        Ok(Store {
            cells: Vec::new(alloc),
            frames,
            slots: Vec::new(alloc),
            kept: Vec::new(alloc),
            text: Vec::new(alloc),
            counted: 0,
            strands: 1,
        })
    }

    /// How many frames there are. It takes no memory.
    pub fn frames(&self) -> u32
        requires { length self.now.frames < 2 ^ 32 }
        ensures { result ≡ length self.now.frames }
    {
        self.frames.len() as u32
    }

    /// How many slots a frame has. It takes no memory.
    pub fn slots(&self, frame: u32) -> u32
        requires { frame < length self.now.frames }
        ensures { IfSome (slice_get self.now.frames frame) (λ f. result ≡ length f.slots) }
    {
        self.frames[frame as usize].count
    }

    /// The number of the next frame; none where a frame could have no number, and there alone. It takes no memory.
    #[inline(always)]
    pub fn next_frame(&self) -> Option<u32>
        ensures { MatchOption result (2 ^ 32 - 1 ≤ length self.now.frames) (λ frame. (frame ≡ length self.now.frames) × (frame < 2 ^ 32 - 1)) }
    {
        let frame = self.frames.len();
        if frame >= u32::MAX as usize {
            return None;
        }
        Some(frame as u32)
    }

    // A new frame behind all others, which may have so many slots that are not bound.
    #[inline(always)]
    fn add_frame(
        &mut self,
        alloc: Global,
        outer: u32,
        scope: u32,
        slots: u32,
    ) -> Result<(), NoMemory>
        requires there { outer < length self.old.frames }
        requires few { counted self.old + slots ≤ most_counted }
        ensures ok { OnOk result (does (Want.Enter outer scope slots) self.old
            ≡ did (Act.Enter (length self.old.frames)) (Reply.Frame (record { frame = length self.old.frames; scope = scope } ∷ chain_of self.old.frames outer)) self.new) }
        ensures err { OnErr result (self.new ≡ self.old) }
    {
        let first = self.slots.len() as u32;
        let frame = Frame {
            outer,
            scope,
            first,
            count: slots,
        };
        make_room(
            alloc,
            &mut self.frames,
            &mut self.slots,
            &mut self.kept,
            frame,
        )?;
        push_frame(&mut self.frames, frame);
        add_unbound(&mut self.slots, slots);
        self.counted += slots;
        Ok(())
    }

    /// The chain of a frame that would stand within this one; none where that is not there, and there alone.
    pub fn chain_within(
        &self,
        alloc: Global,
        new: Environ,
        outer: u32,
    ) -> Result<Option<Chain>, NoMemory>
        ensures { IfOk result (λ made. MatchOption made (length self.now.frames ≤ outer) (λ chain. chain ≡ new ∷ chain_of self.now.frames outer)) }
    {
        if outer as usize >= self.frames.len() {
            return Ok(None);
        }
        let chain = chain_behind(alloc, new, &self.frames, outer)?;
        Ok(Some(chain))
    }

    /// A new frame of this scope within another one, with so many slots that are not bound. Tells whether it was made: nothing
    /// is done where the other frame is not there or the act would meet a fault, and there alone.
    #[inline(always)]
    pub fn enter_frame(
        &mut self,
        alloc: Global,
        outer: u32,
        scope: u32,
        slots: u32,
    ) -> Result<bool, NoMemory>
        ensures done { IfOk result (λ any. MatchBool any (does (Want.Enter outer scope slots) self.old
            ≡ did (Act.Enter (length self.old.frames)) (Reply.Frame (record { frame = length self.old.frames; scope = scope } ∷ chain_of self.old.frames outer)) self.new)
            ((self.new ≡ self.old) × (refused (does (Want.Enter outer scope slots) self.old) ≢ None))) }
        ensures err { OnErr result (self.new ≡ self.old) }
    {
        if outer as usize >= self.frames.len() || slots > MOST_COUNTED - self.counted {
            return Ok(false);
        }
        self.add_frame(alloc, outer, scope, slots)?;
        Ok(true)
    }

    /// A new frame of this scope within another one, with so many slots that are not bound. Its chain comes back.
    pub fn enter(
        &mut self,
        alloc: Global,
        outer: u32,
        scope: u32,
        slots: u32,
    ) -> Result<Chain, StoreStop>
        requires there { outer < length self.old.frames }
        requires few { length self.old.frames < 2 ^ 32 - 1 }
        ensures { DoesAct result (λ chain. Act.Enter (length self.old.frames)) (λ chain. Reply.Frame chain)
            (does (Want.Enter outer scope slots) self.old) self.old self.new }
    {
        if slots > MOST_COUNTED - self.counted {
            return Err(StoreStop::Fault(FaultKind::Cells));
        }
        let frame = self.frames.len() as u32;
        let chain = chain_behind(alloc, Environ { frame, scope }, &self.frames, outer)?;
        self.add_frame(alloc, outer, scope, slots)?;
        Ok(chain)
    }

    /// Binds a slot to a value. The value is dropped where it is not bound. A plain value takes no memory.
    pub fn bind(&mut self, frame: u32, slot: u32, value: Value) -> Result<(), StoreStop>
        requires frame { frame < length self.old.frames }
        requires slot { HasSlot self.old frame slot }
        ensures act { DoesAct result (λ u. Act.Bind frame slot) (λ u. Reply.Go)
            (does (Want.Bind frame slot value) self.old) self.old self.new }
        ensures memory { IsErrOf result StoreStop.NoMemory → as_plain value ≡ None }
    {
        let Some(place) = place(&self.frames, frame, slot) else {
            drop(value);
            return Err(StoreStop::Fault(FaultKind::Kind));
        };
        let added = weight(&value).saturating_add(1);
        let replaced = self.slots[place].weight();
        if added > u64::from(MOST_COUNTED - self.counted) + replaced {
            drop(value);
            return Err(StoreStop::Fault(FaultKind::Cells));
        }
        let bound = Slot::of(*self.slots.allocator(), value)?;
        set_slot(&mut self.slots[place], bound);
        self.counted = (u64::from(self.counted) - replaced + added) as u32;
        Ok(())
    }

    /// Binds a slot to a plain value, and takes no memory. Tells whether it did: it does nothing where the slot is not there,
    /// and there alone.
    #[inline(always)]
    pub fn bind_plain(&mut self, frame: u32, slot: u32, held: Plain) -> bool
        ensures { MatchBool result (does (Want.Bind frame slot (plain held)) self.old ≡ did (Act.Bind frame slot) Reply.Go self.new) ((self.new ≡ self.old) × (slot_in self.old frame slot ≡ None)) }
    {
        self.bind_copy(frame, slot, &held)
    }

    /// Binds a slot to an equal plain value, and takes no memory. Tells whether it did: it does nothing where the slot is not
    /// there, and there alone.
    #[inline(always)]
    pub fn bind_copy(&mut self, frame: u32, slot: u32, held: &Plain) -> bool
        ensures { MatchBool result (does (Want.Bind frame slot (plain held.now)) self.old ≡ did (Act.Bind frame slot) Reply.Go self.new) ((self.new ≡ self.old) × (slot_in self.old frame slot ≡ None)) }
    {
        let Some(place) = place(&self.frames, frame, slot) else {
            return false;
        };
        let replaced = self.slots[place].weight();
        bind_to(&mut self.slots[place], held);
        self.counted = (u64::from(self.counted) - replaced + 1) as u32;
        true
    }

    /// The value that a slot is bound to. A plain value takes no memory.
    pub fn look(&self, alloc: Global, frame: u32, slot: u32) -> Result<Value, StoreStop>
        requires frame { frame < length self.now.frames }
        requires slot { HasSlot self.now frame slot }
        ensures act { DoesAct result (λ value. Act.Look frame slot) (λ value. Reply.Value value)
            (does (Want.Look frame slot) self.now) self.now self.now }
        ensures memory { IsErrOf result StoreStop.NoMemory → plain_bound (slot_in self.now frame slot) ≡ None }
    {
        let Some(slot) = self.slot(frame, slot) else {
            return Err(StoreStop::Fault(FaultKind::Kind));
        };
        match slot.value(alloc)? {
            Some(value) => Ok(value),
            None => Err(StoreStop::Fault(FaultKind::Unset)),
        }
    }

    /// The plain value that a slot is bound to; none where it is bound to none, or is not there. It takes no memory.
    #[inline(always)]
    pub fn plain_at(&self, frame: u32, slot: u32) -> Option<Plain>
        ensures { result ≡ plain_bound (slot_in self.now frame slot) }
    {
        self.slot(frame, slot)?.plain()
    }

    /// How many cells there are. It takes no memory.
    pub fn cells(&self) -> u32
        ensures { result ≡ length self.now.cells }
    {
        self.cells.len() as u32
    }

    /// New cells, as planned. The number of the first comes back.
    pub fn make(&mut self, plan: &Plan) -> Result<u32, StoreStop>
        ensures { DoesAct result (λ base. Act.Make base (length plan.now.cells)) (λ base. Reply.Base base)
            (does (Want.Make plan.now) self.old) self.old self.new }
    {
        if !is_closed(plan) {
            return Err(StoreStop::Fault(FaultKind::Kind));
        }
        let base = self.cells.len() as u32;
        let count = plan.cells.items.len();
        if count > (MOST_COUNTED - self.counted) as usize {
            return Err(StoreStop::Fault(FaultKind::Cells));
        }
        add_cells(&mut self.cells, base, plan)?;
        self.counted += count as u32;
        Ok(base)
    }

    /// One new cell that holds nothing yet. Its number comes back; none where the store would count too much, and there alone.
    #[inline(always)]
    pub fn make_one(&mut self) -> Result<Option<u32>, NoMemory>
        ensures done { IfOk result (λ made. MatchOption made ((self.new ≡ self.old) × (refused (does (Want.Make one_cell) self.old) ≢ None))
            (λ base. does (Want.Make one_cell) self.old ≡ did (Act.Make (length self.old.cells) 1) (Reply.Base (length self.old.cells)) self.new)) }
        ensures base { IfOk result (λ made. IfSome made (λ base. base ≡ length self.old.cells)) }
        ensures err { OnErr result (self.new ≡ self.old) }
    {
        if self.counted >= MOST_COUNTED {
            return Ok(None);
        }
        let base = self.cells.len() as u32;
        self.cells.push(Held::Plain(Plain::Unset))?;
        self.counted += 1;
        Ok(Some(base))
    }

    /// What a cell holds. It takes no memory, and fails only where more share the dimensions of a row than can be counted.
    pub fn fetch(&self, cell: u32) -> Result<Held, NoMemory>
        requires { cell < length self.now.cells }
        ensures held { IfOk result (λ held. does (Want.Fetch cell) self.now ≡ did (Act.Fetch cell) (Reply.Held held) self.now) }
        ensures memory { OnErr result (plain_held (slice_get self.now.cells cell) ≡ None) }
    {
        if let Some(held) = self.plain_in(cell) {
            return Ok(Held::Plain(held));
        }
        self.cells[cell as usize].copy()
    }

    /// The plain value that a cell holds; none where it holds another, or is not there. It takes no memory.
    #[inline(always)]
    pub fn plain_in(&self, cell: u32) -> Option<Plain>
        ensures { result ≡ plain_held (slice_get self.now.cells cell) }
    {
        self.held_in(cell).copied()
    }

    /// The plain value that a cell holds, where it stands; none where it holds another, or is not there. It takes no memory.
    #[inline(always)]
    pub fn held_in(&self, cell: u32) -> Option<&Plain>
        ensures { option_copied result ≡ plain_held (slice_get self.now.cells cell) }
    {
        plain_of(self.cells.get(cell as usize)?)
    }

    /// The row that a cell holds; none where it holds another value, or is not there. It takes no memory.
    #[inline(always)]
    pub fn row_in(&self, cell: u32) -> Option<&Descriptor>
        ensures { option_copied result ≡ row_held (slice_get self.now.cells cell) }
    {
        row_of(self.cells.get(cell as usize)?)
    }

    /// Gives a cell something to hold, and takes no memory.
    #[inline(always)]
    pub fn assign(&mut self, cell: u32, held: Held)
        requires { cell < length self.old.cells }
        ensures { does (Want.Assign cell held) self.old ≡ did (Act.Assign cell) Reply.Go self.new }
    {
        set_cell(&mut self.cells[cell as usize], held);
    }

    /// Gives a cell a plain value to hold, and takes no memory. Tells whether it did: it does nothing where the cell is not
    /// there, and there alone.
    #[inline(always)]
    pub fn assign_plain(&mut self, cell: u32, held: Plain) -> bool
        ensures { MatchBool result (does (Want.Assign cell (Held.Plain held)) self.old ≡ did (Act.Assign cell) Reply.Go self.new) ((self.new ≡ self.old) × (length self.old.cells ≤ cell)) }
    {
        self.assign_copy(cell, &held)
    }

    /// Gives a cell an equal plain value to hold, and takes no memory. Tells whether it did: it does nothing where the cell is
    /// not there, and there alone.
    #[inline(always)]
    pub fn assign_copy(&mut self, cell: u32, held: &Plain) -> bool
        ensures { MatchBool result (does (Want.Assign cell (Held.Plain held.now)) self.old ≡ did (Act.Assign cell) Reply.Go self.new) ((self.new ≡ self.old) × (length self.old.cells ≤ cell)) }
    {
        if cell as usize >= self.cells.len() {
            return false;
        }
        hold(&mut self.cells[cell as usize], held);
        true
    }

    /// Raises a semaphore by 1, and takes no memory. The fault Overflow comes where its count would be no INT, Kind where
    /// the cell is not there or holds no count.
    pub fn up(&mut self, cell: u32) -> Result<(), StoreStop>
        ensures act { DoesAct result (λ u. Act.Up cell) (λ u. Reply.Go) (does (Want.Up cell) self.old) self.old self.new }
        ensures short { result ≢ Err StoreStop.NoMemory }
    {
        let Some(count) = self.count(cell) else {
            return Err(StoreStop::Fault(FaultKind::Kind));
        };
        if count == i64::MAX {
            return Err(StoreStop::Fault(FaultKind::Overflow));
        }
        self.set_count(cell, count + 1);
        Ok(())
    }

    /// Lowers a semaphore by 1, and takes no memory. The strand has to wait where its count is below 1; the fault Kind
    /// comes where the cell is not there or holds no count.
    pub fn down(&mut self, cell: u32) -> Result<(), StoreStop>
        ensures act { DoesAct result (λ u. Act.Down cell) (λ u. Reply.Go) (does (Want.Down cell) self.old) self.old self.new }
        ensures short { result ≢ Err StoreStop.NoMemory }
    {
        let Some(count) = self.count(cell) else {
            return Err(StoreStop::Fault(FaultKind::Kind));
        };
        if halts(count) {
            return Err(StoreStop::Waits);
        }
        self.set_count(cell, count - 1);
        Ok(())
    }

    /// Prints bytes behind those printed before. Which they are comes back.
    pub fn print(&mut self, piece: &[u8]) -> Result<Span, StoreStop>
        ensures { DoesAct result (λ span. Act.Print span.from span.to) (λ span. Reply.Go)
            (does (Want.Print piece.now) self.old) self.old self.new }
    {
        let from = self.text.len();
        if piece.len() > MOST_PRINTED - from {
            return Err(StoreStop::Fault(FaultKind::Text));
        }
        self.text.extend_from_slice(piece)?;
        Ok(Span {
            from: from as u32,
            to: (from + piece.len()) as u32,
        })
    }

    /// New strands for the units that begin at these entrances, and takes no memory. The number of the first comes back;
    /// the fault Strands comes where the run would have too many.
    pub fn fork(&mut self, entrances: &Entrances) -> Result<u32, StoreStop>
        ensures { DoesAct result (λ first. Act.Fork first (length entrances.now)) (λ first. Reply.Base first)
            (does (Want.Fork entrances.now) self.old) self.old self.new }
    {
        let count = entrances.items.len();
        if are_too_many(self.strands, count) {
            return Err(StoreStop::Fault(FaultKind::Strands));
        }
        let first = self.strands;
        self.strands += count as u32;
        Ok(first)
    }

    /// The slot of a frame, where they are there.
    #[inline(always)]
    pub fn slot(&self, frame: u32, slot: u32) -> Option<&Slot>
        ensures { option_copied result ≡ slot_in self.now frame slot }
    {
        let place = place(&self.frames, frame, slot)?;
        Some(&self.slots[place])
    }

    // The count of a semaphore; none where its cell is not there or holds another value.
    fn count(&self, cell: u32) -> Option<i64>
        ensures { result ≡ count_in self.now cell }
    {
        let held = self.cells.get(cell as usize)?;
        count_of(held)
    }

    // Gives a semaphore this count.
    fn set_count(&mut self, cell: u32, count: i64)
        requires { cell < length self.old.cells }
        ensures { self.new ≡ with_count self.old cell count }
    {
        self.assign(cell, Held::Plain(Plain::Int(count)));
    }

    fn fault_of_enter(&self, outer: u32, scope: u32, slots: u32) -> Option<FaultKind>
        ensures { result ≡ refused (does (Want.Enter outer scope slots) self.now) }
    {
        if outer as usize >= self.frames.len() {
            return Some(FaultKind::Kind);
        }
        if slots > MOST_COUNTED - self.counted {
            return Some(FaultKind::Cells);
        }
        None
    }

    fn fault_of_bind(&self, frame: u32, slot: u32, value: &Value) -> Option<FaultKind>
        ensures { result ≡ refused (does (Want.Bind frame slot value.now) self.now) }
    {
        let Some(old) = self.slot(frame, slot) else {
            return Some(FaultKind::Kind);
        };
        let added = weight(value).saturating_add(1);
        if added.saturating_sub(old.weight()) > u64::from(MOST_COUNTED - self.counted) {
            return Some(FaultKind::Cells);
        }
        None
    }

    fn fault_of_look(&self, frame: u32, slot: u32) -> Option<FaultKind>
        ensures { result ≡ refused (does (Want.Look frame slot) self.now) }
    {
        let Some(found) = self.slot(frame, slot) else {
            return Some(FaultKind::Kind);
        };
        if found.is_bound() {
            return None;
        }
        Some(FaultKind::Unset)
    }

    fn fault_of_make(&self, plan: &Plan) -> Option<FaultKind>
        ensures { result ≡ refused (does (Want.Make plan.now) self.now) }
    {
        if !is_closed(plan) {
            return Some(FaultKind::Kind);
        }
        if plan.cells.items.len() > (MOST_COUNTED - self.counted) as usize {
            return Some(FaultKind::Cells);
        }
        None
    }

    fn fault_of_print(&self, piece: &[u8]) -> Option<FaultKind>
        ensures { result ≡ refused (does (Want.Print piece.now) self.now) }
    {
        if piece.len() > MOST_PRINTED - self.text.len() {
            return Some(FaultKind::Text);
        }
        None
    }

    fn fault_of_up(&self, cell: u32) -> Option<FaultKind>
        ensures { result ≡ refused (does (Want.Up cell) self.now) }
    {
        let Some(count) = self.count(cell) else {
            return Some(FaultKind::Kind);
        };
        if count == i64::MAX {
            return Some(FaultKind::Overflow);
        }
        None
    }

    fn fault_of_down(&self, cell: u32) -> Option<FaultKind>
        ensures { result ≡ refused (does (Want.Down cell) self.now) }
    {
        match self.count(cell) {
            None => Some(FaultKind::Kind),
            Some(_) => None,
        }
    }

    fn fault_of_fork(&self, entrances: &Entrances) -> Option<FaultKind>
        ensures { result ≡ refused (does (Want.Fork entrances.now) self.now) }
    {
        if are_too_many(self.strands, entrances.items.len()) {
            return Some(FaultKind::Strands);
        }
        None
    }

    /// The fault that an act would meet, where it would meet one. It takes no memory.
    pub fn fault_of(&self, want: &Want) -> Option<FaultKind>
        ensures { result ≡ refused (does want.now self.now) }
    {
        match want {
            Want::Enter {
                outer,
                scope,
                slots,
            } => self.fault_of_enter(*outer, *scope, *slots),
            Want::Bind { frame, slot, value } => self.fault_of_bind(*frame, *slot, value),
            Want::Look { frame, slot } => self.fault_of_look(*frame, *slot),
            Want::Make(plan) => self.fault_of_make(plan),
            Want::Fetch { cell } | Want::Assign { cell, .. } => {
                if *cell as usize >= self.cells.len() {
                    Some(FaultKind::Kind)
                } else {
                    None
                }
            }
            Want::Print(text) => self.fault_of_print(&text.items),
            Want::Up { cell } => self.fault_of_up(*cell),
            Want::Down { cell } => self.fault_of_down(*cell),
            Want::Fork(entrances) => self.fault_of_fork(entrances),
            Want::Turn | Want::Close => None,
        }
    }

    // Would a Down of this semaphore have to wait?
    fn down_waits(&self, cell: u32) -> bool
        ensures { result ≡ has_to_wait (does (Want.Down cell) self.now) }
    {
        match self.count(cell) {
            None => false,
            Some(count) => halts(count),
        }
    }

    /// Would an act have to wait? None has to but a Down. It takes no memory.
    #[inline(always)]
    pub fn waits(&self, want: &Want) -> bool
        ensures { result ≡ has_to_wait (does want.now self.now) }
    {
        match want {
            Want::Down { cell } => self.down_waits(*cell),
            _ => false,
        }
    }

    /// What a run keeps of the store: what the cells hold, what the slots of frame 1 are bound to, and the printed
    /// text. Where there is no frame 1 there are no slots. It takes no memory.
    pub fn into_kept(self) -> (Cells, Slots, Text)
        ensures cells { result.0 ≡ self.cells }
        ensures slots { result.1 ≡ option_map_or (λ frame. frame.slots) (slice_get self.frames 1) [] }
        ensures text { result.2 ≡ self.text }
    {
        let Store {
            cells,
            frames,
            mut slots,
            mut kept,
            text,
            counted: _,
            strands: _,
        } = self;
        keep(&mut kept, &frames, &mut slots);
        (
            Cells { items: cells },
            Slots { items: kept },
            Text { items: text },
        )
    }
}
