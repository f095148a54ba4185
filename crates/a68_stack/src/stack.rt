//! The stack of a strand.
ghost use Rattle.std.specs.Prelude.{◌≡◌, ◌⊎◌, ◌+◌, ◌≤◌, [], ◌∷◌, true, false, None, Some, List, drop, length, reverse, OnOk, OnErr, IfOk, IfSome, MatchOption, MatchBool};
ghost use Rattle.std.specs.Option.{is_some, option_copied, option_map};
ghost use Rattle.a68_acts.specs.declared.operation.Counter.{Counter};
ghost use Rattle.a68_values.specs.Content.{Content, plain, scope_of};
ghost use Rattle.a68_values.specs.declared.plain.Plain.{Plain};
ghost use Rattle.a68_stack.specs.declared.stack.Item.{Item};
ghost use Rattle.a68_stack.specs.Below.{may_yield, plain_below, top_caller};
ghost use Rattle.a68_stack.specs.Inside.{wants_memory};
ghost use Rattle.a68_stack.specs.Values.{callers, cut, height, is_caller, pop_values, top_counter, top_plain, top_three, top_two, top_value};

use crate::Caller;
use crate::packed::Packed;
use a68_acts::Counter;
use a68_base::NoMemory;
use a68_values::{Plain, Value, Values};
use std::alloc::Global;
use std::marker::Model;
use std::mem;

/// What stands on a stack: a value, the counter of a loop, or the caller of the activation whose items stand above it.
#[derive(Drop)]
pub enum Item {
    Value(Value),
    Counter(Counter),
    Caller(Caller),
}

/// A stack. Contracts see its items, the topmost first, and for how many of them memory is reserved.
pub struct Stack {
    items: Vec<Packed>,
    // How many callers stand on it, so that nobody has to count them.
    open_calls: usize,
    // For so many items memory is reserved.
    room: usize,
}

impl Drop for Stack {
    fn drop(self) {
        let Stack {
            items: _,
            open_calls: _,
            room: _,
        } = self;
    }
}

impl Model for Stack {
    ghost use Rattle.std.specs.Prelude.{◌≡◌, ◌≤◌, reverse};
    ghost use Rattle.std.specs.Vec.{vec_capacity};
    ghost use Rattle.a68_stack.specs.Stacked.{Stacked, stacked_code};
    ghost use Rattle.a68_stack.specs.Values.{callers};

    ghost Value = { Stacked };

    ghost coded = { stacked_code };

    ghost view = { λ stack. let x : Stacked = record { items = reverse stack.items.items; room = stack.room } in x };

    ghost invariant = { λ stack. (stack.open_calls ≡ callers (reverse stack.items.items)) × (stack.room ≤ vec_capacity stack.items) };
}

// Is it a caller?
#[inline(always)]
fn is_caller(item: &Item) -> bool
    ensures { result ≡ is_caller item.now }
{
    matches!(item, Item::Caller(_))
}

// How many items stand above the topmost caller, where the topmost item is the last; all where there is no caller.
fn height_of(items: &[Packed]) -> usize
    ensures { result ≡ height (reverse items.now) }
{
    let count = items.len();
    for above in 0..count {
        let kept = &items[count - 1 - above];
        if kept.is_caller() {
            return above;
        }
    }
    count
}

impl Stack {
    /// A stack with nothing on it.
    pub fn new(alloc: Global) -> Stack
        ensures { result ≡ record { items = []; room = 0 } }
    {
        Stack {
            items: Vec::new(alloc),
            open_calls: 0,
            room: 0,
        }
    }

    /// Takes all items off.
    pub fn clear(&mut self)
        ensures { self.new ≡ record self.old { items = [] } }
    {
        self.items.clear();
        self.open_calls = 0;
    }

    /// Reserves memory for so many items above those that stand on it.
    pub fn reserve(&mut self, more: usize) -> Result<(), NoMemory>
        ensures items { self.new.items ≡ self.old.items }
        ensures room { OnOk result (length self.new.items + more ≤ self.new.room) }
        ensures kept { self.old.room ≤ self.new.room }
        ensures err { OnErr result (self.new ≡ self.old) }
    {
        self.items.reserve(more)?;
        self.room = self.items.capacity();
        Ok(())
    }

    /// Puts an item on top.
    pub fn push(&mut self, item: Item) -> Result<(), NoMemory>
        ensures ok { OnOk result (self.new ≡ record self.old { items = item ∷ self.old.items }) }
        ensures err { OnErr result (self.new ≡ self.old) }
    {
        let calls = is_caller(&item);
        let kept = Packed::of(*self.items.allocator(), item)?;
        self.items.push(kept)?;
        if calls {
            self.open_calls += 1;
        }
        Ok(())
    }

    /// How many items stand on it.
    pub fn len(&self) -> usize
        ensures { result ≡ length self.now.items }
    {
        self.items.len()
    }

    /// How many callers stand on it.
    #[inline(always)]
    pub fn callers(&self) -> usize
        ensures { result ≡ callers self.now.items }
    {
        self.open_calls
    }

    /// Puts a value on top.
    #[inline(always)]
    pub fn push_value(&mut self, value: Value) -> Result<(), NoMemory>
        ensures ok { OnOk result (self.new ≡ record self.old { items = Item.Value value ∷ self.old.items }) }
        ensures err { OnErr result (self.new ≡ self.old) }
        ensures full { OnErr result ((wants_memory value ≡ true) ⊎ (self.old.room ≤ length self.old.items)) }
    {
        if let Some(held) = value.plain() {
            // A plain value holds no memory.
            mem::forget(value);
            return self.push_plain(held);
        }
        self.push_boxed(value)
    }

    /// Puts a caller on top.
    #[inline(always)]
    pub fn push_caller(&mut self, caller: Caller) -> Result<(), NoMemory>
        ensures ok { OnOk result (self.new ≡ record self.old { items = Item.Caller caller ∷ self.old.items }) }
        ensures err { OnErr result (self.new ≡ self.old) }
        ensures full { OnErr result (self.old.room ≤ length self.old.items) }
    {
        self.items.push(Packed::of_caller(caller))?;
        self.open_calls += 1;
        Ok(())
    }

    // Puts a value on top that is not plain, in a box where there is one.
    #[inline(never)]
    fn push_boxed(&mut self, value: Value) -> Result<(), NoMemory>
        ensures ok { OnOk result (self.new ≡ record self.old { items = Item.Value value ∷ self.old.items }) }
        ensures err { OnErr result (self.new ≡ self.old) }
        ensures full { OnErr result ((wants_memory value ≡ true) ⊎ (self.old.room ≤ length self.old.items)) }
    {
        let kept = Packed::of_value(*self.items.allocator(), value)?;
        self.items.push(kept)?;
        Ok(())
    }

    /// Puts a plain value on top.
    #[inline(always)]
    pub fn push_plain(&mut self, held: Plain) -> Result<(), NoMemory>
        ensures ok { OnOk result (self.new ≡ record self.old { items = Item.Value (plain held) ∷ self.old.items }) }
        ensures err { OnErr result (self.new ≡ self.old) }
        ensures full { OnErr result (self.old.room ≤ length self.old.items) }
    {
        if self.items.len() < self.items.capacity() {
            self.items.push_reserved(Packed::of_plain(held));
            return Ok(());
        }
        self.push_grown(Packed::of_plain(held))
    }

    /// Puts an equal plain value on top. Each kind is moved by itself, since a move of all that a plain value may be stalls the
    /// processor where one kind has just been written.
    #[inline(always)]
    pub fn push_copy(&mut self, held: &Plain) -> Result<(), NoMemory>
        ensures ok { OnOk result (self.new ≡ record self.old { items = Item.Value (plain held.now) ∷ self.old.items }) }
        ensures err { OnErr result (self.new ≡ self.old) }
        ensures full { OnErr result (self.old.room ≤ length self.old.items) }
    {
        if let Plain::Int(number) = held {
            return self.push_plain(Plain::Int(*number));
        }
        if let Plain::Name(name) = held {
            return self.push_plain(Plain::Name(*name));
        }
        if let Plain::Bool(holds) = held {
            return self.push_plain(Plain::Bool(*holds));
        }
        self.push_plain(*held)
    }

    /// Puts a counter on top.
    #[inline(always)]
    pub fn push_counter(&mut self, counter: Counter) -> Result<(), NoMemory>
        ensures ok { OnOk result (self.new ≡ record self.old { items = Item.Counter counter ∷ self.old.items }) }
        ensures err { OnErr result (self.new ≡ self.old) }
        ensures full { OnErr result (self.old.room ≤ length self.old.items) }
    {
        if self.items.len() < self.items.capacity() {
            self.items.push_reserved(Packed::of_counter(counter));
            return Ok(());
        }
        self.push_grown(Packed::of_counter(counter))
    }

    // Puts an item on top that is no caller, where there is no place for it. It stands apart, so that what puts an item in its
    // place stays small.
    #[cold]
    #[inline(never)]
    fn push_grown(&mut self, kept: Packed) -> Result<(), NoMemory>
        requires { is_caller kept ≡ false }
        ensures ok { OnOk result (self.new ≡ record self.old { items = kept ∷ self.old.items }) }
        ensures err { OnErr result (self.new ≡ self.old) }
        ensures full { OnErr result (self.old.room ≤ length self.old.items) }
    {
        self.items.push(kept)?;
        Ok(())
    }

    /// Takes the topmost item off.
    #[inline(always)]
    pub fn pop(&mut self) -> Option<Item>
        ensures { MatchOption result ((self.old.items ≡ []) × (self.new ≡ self.old)) (λ item. self.old ≡ record self.new { items = item ∷ self.new.items }) }
    {
        let Some(kept) = self.items.pop() else {
            return None;
        };
        if kept.is_caller() {
            self.open_calls -= 1;
        }
        Some(kept.into_item())
    }

    /// The plain value on top; none where another item is on top, or none is.
    #[inline(always)]
    pub fn plain(&self) -> Option<Plain>
        ensures { result ≡ top_plain self.now.items }
    {
        match self.items.last() {
            Some(kept) => kept.plain(),
            None => None,
        }
    }

    /// The plain value on top, where it stands; none where another item is on top, or none is.
    #[inline(always)]
    pub fn held(&self) -> Option<&Plain>
        ensures { option_copied result ≡ top_plain self.now.items }
    {
        match self.items.last() {
            Some(kept) => kept.held(),
            None => None,
        }
    }

    /// The two topmost items, where they stand, the lower one first; none where they are not both plain values.
    #[inline(always)]
    pub fn two_held(&self) -> Option<(&Plain, &Plain)>
        ensures { MatchOption result (top_two self.now.items ≡ None) (λ two. (rest : List Item) × (self.now.items ≡ Item.Value (plain two.1.now) ∷ Item.Value (plain two.0.now) ∷ rest)) }
    {
        let [.., below, topmost] = self.items.as_slice() else {
            return None;
        };
        let right = topmost.held()?;
        let left = below.held()?;
        Some((left, right))
    }

    /// Takes the topmost item off where it is a plain value; elsewhere the stack stays.
    #[inline(always)]
    pub fn take_plain(&mut self) -> Option<Plain>
        ensures { MatchOption result ((top_plain self.old.items ≡ None) × (self.new ≡ self.old)) (λ held. self.old ≡ record self.new { items = Item.Value (plain held) ∷ self.new.items }) }
    {
        let held = self.items.last()?.plain()?;
        // A plain value holds no memory, and to forget it spares the look at what it is.
        mem::forget(self.items.pop());
        Some(held)
    }

    /// Lets the topmost item go where it is a plain value; elsewhere the stack stays.
    #[inline(always)]
    pub fn drop_plain(&mut self) -> bool
        ensures { MatchBool result ((p : Plain) × (self.old ≡ record self.new { items = Item.Value (plain p) ∷ self.new.items })) ((top_plain self.old.items ≡ None) × (self.new ≡ self.old)) }
    {
        self.take_plain().is_some()
    }

    /// Puts a plain value in the place of the topmost item where that is a plain value; elsewhere the stack stays.
    #[inline(always)]
    pub fn set_plain(&mut self, held: Plain) -> bool
        ensures { MatchBool result ((p : Plain) × (rest : List Item) × (self.old.items ≡ Item.Value (plain p) ∷ rest) × (self.new ≡ record self.old { items = Item.Value (plain held) ∷ rest })) ((top_plain self.old.items ≡ None) × (self.new ≡ self.old)) }
    {
        let Some(kept) = self.items.last_mut() else {
            return false;
        };
        kept.set_plain(held)
    }

    /// Puts an equal plain value in the place of the topmost item where that is a plain value; elsewhere the stack stays.
    #[inline(always)]
    pub fn set_copy(&mut self, held: &Plain) -> bool
        ensures { MatchBool result ((p : Plain) × (rest : List Item) × (self.old.items ≡ Item.Value (plain p) ∷ rest) × (self.new ≡ record self.old { items = Item.Value (plain held.now) ∷ rest })) ((top_plain self.old.items ≡ None) × (self.new ≡ self.old)) }
    {
        let Some(kept) = self.items.last_mut() else {
            return false;
        };
        kept.set_copy(held)
    }

    /// Lets the topmost item go, which is a plain value.
    #[inline(always)]
    pub fn forget_plain(&mut self)
        requires { is_some (top_plain self.old.items) ≡ true }
        ensures { (p : Plain) × (self.old ≡ record self.new { items = Item.Value (plain p) ∷ self.new.items }) }
    {
        // A plain value holds no memory.
        mem::forget(self.items.pop());
    }

    /// The plain value that stands so many items below the topmost one; none where another item stands there, or none does.
    #[inline(always)]
    pub fn plain_below(&self, depth: u32) -> Option<Plain>
        ensures { result ≡ plain_below depth self.now.items }
    {
        let above = depth as usize;
        if above >= self.items.len() {
            return None;
        }
        self.items[self.items.len() - 1 - above].plain()
    }

    /// The two topmost items, the lower one first; none where they are not both plain values.
    #[inline(always)]
    pub fn two_plain(&self) -> Option<(Plain, Plain)>
        ensures { MatchOption result (top_two self.now.items ≡ None) (λ two. (rest : List Item) × (self.now.items ≡ Item.Value (plain two.1) ∷ Item.Value (plain two.0) ∷ rest)) }
    {
        let [.., below, topmost] = self.items.as_slice() else {
            return None;
        };
        let right = topmost.plain()?;
        let left = below.plain()?;
        Some((left, right))
    }

    /// The three topmost items, the lowest one first; none where they are not all plain values.
    #[inline(always)]
    pub fn three_plain(&self) -> Option<(Plain, Plain, Plain)>
        ensures { MatchOption result (top_three self.now.items ≡ None) (λ three. (rest : List Item) × (self.now.items ≡ Item.Value (plain three.2) ∷ Item.Value (plain three.1) ∷ Item.Value (plain three.0) ∷ rest)) }
    {
        let [.., lowest, below, topmost] = self.items.as_slice() else {
            return None;
        };
        let third = topmost.plain()?;
        let second = below.plain()?;
        let first = lowest.plain()?;
        Some((first, second, third))
    }

    /// Takes the two topmost items off where they are plain values, the lower one first; elsewhere the stack stays.
    #[inline(always)]
    pub fn take_two(&mut self) -> Option<(Plain, Plain)>
        ensures { MatchOption result ((top_two self.old.items ≡ None) × (self.new ≡ self.old)) (λ two. self.old ≡ record self.new { items = Item.Value (plain two.1) ∷ Item.Value (plain two.0) ∷ self.new.items }) }
    {
        let two = self.two_plain()?;
        // Neither holds any memory.
        mem::forget(self.items.pop());
        mem::forget(self.items.pop());
        Some(two)
    }

    /// Lets the two topmost items go where they are plain values; elsewhere the stack stays.
    #[inline(always)]
    pub fn drop_two(&mut self) -> bool
        ensures { MatchBool result ((l : Plain) × (r : Plain) × (self.old ≡ record self.new { items = Item.Value (plain r) ∷ Item.Value (plain l) ∷ self.new.items })) ((top_two self.old.items ≡ None) × (self.new ≡ self.old)) }
    {
        self.take_two().is_some()
    }

    /// Puts a plain value in the place of the two topmost items where they are plain values; elsewhere the stack stays.
    #[inline(always)]
    pub fn set_two(&mut self, held: Plain) -> bool
        ensures { MatchBool result ((l : Plain) × (r : Plain) × (rest : List Item) × (self.old.items ≡ Item.Value (plain r) ∷ Item.Value (plain l) ∷ rest) × (self.new ≡ record self.old { items = Item.Value (plain held) ∷ rest })) ((top_two self.old.items ≡ None) × (self.new ≡ self.old)) }
    {
        if self.two_plain().is_none() {
            return false;
        }
        let below = self.items.len() - 2;
        // Neither holds any memory, and nothing is looked at again.
        mem::forget(self.items.pop());
        mem::forget(mem::replace(&mut self.items[below], Packed::of_plain(held)));
        true
    }

    /// Lets the item below the topmost one go where both are plain values; elsewhere the stack stays.
    #[inline(always)]
    pub fn keep_top(&mut self) -> bool
        ensures { MatchBool result ((l : Plain) × (r : Plain) × (rest : List Item) × (self.old.items ≡ Item.Value (plain r) ∷ Item.Value (plain l) ∷ rest) × (self.new ≡ record self.old { items = Item.Value (plain r) ∷ rest })) ((top_two self.old.items ≡ None) × (self.new ≡ self.old)) }
    {
        if self.two_plain().is_none() {
            return false;
        }
        let lower = self.items.len() - 2;
        // The lower one holds no memory.
        mem::forget(self.items.swap_remove(lower));
        true
    }

    /// Takes the topmost item off where it is a caller; elsewhere the stack stays.
    #[inline(always)]
    pub fn take_caller(&mut self) -> Option<Caller>
        ensures { MatchOption result ((top_caller self.old.items ≡ None) × (self.new ≡ self.old)) (λ caller. self.old ≡ record self.new { items = Item.Caller caller ∷ self.new.items }) }
    {
        match self.items.last() {
            Some(kept) if kept.is_caller() => {}
            _ => return None,
        }
        let Some(kept) = self.items.pop() else {
            return None;
        };
        self.open_calls -= 1;
        kept.into_caller()
    }

    // Does a plain value stand on top of a caller, and is it not newer than the innermost of the caller's frames?
    #[inline(always)]
    fn may_yield(&self) -> bool
        ensures { result ≡ may_yield self.now.items }
    {
        let [.., below, topmost] = self.items.as_slice() else {
            return false;
        };
        let Some(held) = topmost.plain() else {
            return false;
        };
        let Some(scope) = below.caller_scope() else {
            return false;
        };
        held.scope() <= scope
    }

    /// Takes out the caller below the topmost item where that is a plain value which is not newer than the innermost of the
    /// caller's frames; elsewhere the stack stays.
    #[inline(always)]
    pub fn yield_plain(&mut self) -> Option<Caller>
        ensures taken { MatchOption result ((may_yield self.old.items ≡ false) × (self.new ≡ self.old)) (λ caller. (held : Plain) × (rest : List Item) × (self.old.items ≡ Item.Value (plain held) ∷ Item.Caller caller ∷ rest) × (self.new ≡ record self.old { items = Item.Value (plain held) ∷ rest })) }
        ensures may { IfSome result (λ caller. may_yield self.old.items ≡ true) }
    {
        if !self.may_yield() {
            return None;
        }
        let lower = self.items.len() - 2;
        let kept = self.items.swap_remove(lower);
        self.open_calls -= 1;
        kept.into_caller()
    }

    /// Takes the topmost item off where it is a counter; elsewhere the stack stays.
    #[inline(always)]
    pub fn take_counter(&mut self) -> Option<Counter>
        ensures { MatchOption result ((top_counter self.old.items ≡ None) × (self.new ≡ self.old)) (λ counter. self.old ≡ record self.new { items = Item.Counter counter ∷ self.new.items }) }
    {
        let counter = self.counter()?;
        drop(self.items.pop());
        Some(counter)
    }

    /// Lets the topmost value go; false where no value is on top.
    #[inline(always)]
    pub fn drop_value(&mut self) -> bool
        ensures { MatchBool result ((value : Content) × (self.old ≡ record self.new { items = Item.Value value ∷ self.new.items })) ((pop_values 1 self.old.items [] ≡ None) × (self.new ≡ self.old)) }
    {
        self.drop_plain() || self.drop_boxed()
    }

    // Lets the topmost value go, also one in a box; false where no value is on top.
    #[inline(never)]
    fn drop_boxed(&mut self) -> bool
        ensures { MatchBool result ((value : Content) × (self.old ≡ record self.new { items = Item.Value value ∷ self.new.items })) ((pop_values 1 self.old.items [] ≡ None) × (self.new ≡ self.old)) }
    {
        match self.items.last() {
            Some(kept) if kept.is_value() => {}
            _ => return false,
        }
        drop(self.items.pop());
        true
    }

    /// Takes the topmost value off; none where no value is on top, and then an item may be gone.
    pub fn pop_value(&mut self) -> Option<Value>
        ensures popped { MatchOption result (pop_values 1 self.old.items [] ≡ None) (λ value. pop_values 1 self.old.items [] ≡ Some (value ∷ [], self.new.items)) }
        ensures room { self.new.room ≡ self.old.room }
    {
        match self.pop() {
            Some(Item::Value(value)) => Some(value),
            _ => None,
        }
    }

    /// Takes the two topmost values off, the lower one first; none where there are no two, and then items may be gone.
    pub fn pop_two(&mut self) -> Option<(Value, Value)>
        ensures popped { MatchOption result (pop_values 2 self.old.items [] ≡ None) (λ two. pop_values 2 self.old.items [] ≡ Some (two.0 ∷ two.1 ∷ [], self.new.items)) }
        ensures room { self.new.room ≡ self.old.room }
    {
        let right = self.pop_value()?;
        let left = self.pop_value()?;
        Some((left, right))
    }

    /// Takes the three topmost values off, the lowest first; none where there are no three, and then items may be gone.
    pub fn pop_three(&mut self) -> Option<(Value, Value, Value)>
        ensures popped { MatchOption result (pop_values 3 self.old.items [] ≡ None)
            (λ three. pop_values 3 self.old.items [] ≡ Some (three.0 ∷ three.1 ∷ three.2 ∷ [], self.new.items)) }
        ensures room { self.new.room ≡ self.old.room }
    {
        let third = self.pop_value()?;
        let second = self.pop_value()?;
        let first = self.pop_value()?;
        Some((first, second, third))
    }

    /// Takes the topmost values off, so many, the topmost first; none where there are fewer, and then items may be
    /// gone.
    pub fn pop_many(&mut self, alloc: Global, count: usize) -> Result<Option<Values>, NoMemory>
        ensures popped { IfOk result (λ popped. MatchOption popped (pop_values count self.old.items [] ≡ None) (λ values. pop_values count self.old.items [] ≡ Some (reverse values, self.new.items))) }
        ensures room { self.new.room ≡ self.old.room }
    {
        let mut items = Vec::new(alloc);
        for _ in 0..count {
            match self.pop_value() {
                None => return Ok(None),
                Some(value) => items.push(value)?,
            }
        }
        Ok(Some(Values { items }))
    }

    /// How many items stand above the topmost caller; all where there is none. With calls open it looks at each of them.
    #[inline(always)]
    pub fn height(&self) -> usize
        ensures { result ≡ height self.now.items }
    {
        if self.open_calls == 0 {
            return self.items.len();
        }
        height_of(&self.items)
    }

    /// Takes the topmost item off, if there is one, and lets it go.
    fn drop_top(&mut self)
        ensures items { self.new.items ≡ drop 1 self.old.items }
        ensures room { self.new.room ≡ self.old.room }
    {
        drop(self.pop());
    }

    /// Takes items off until only so many stand above the topmost caller. Tells whether there were as many: where there are fewer the
    /// stack stays.
    #[inline(always)]
    pub fn cut(&mut self, kept: usize) -> bool
        ensures left { MatchBool result (cut kept self.old.items ≡ Some self.new.items) ((cut kept self.old.items ≡ None) × (self.new ≡ self.old)) }
        ensures room { self.new.room ≡ self.old.room }
    {
        let there = self.height();
        if there < kept {
            return false;
        }
        for _ in 0..there - kept {
            self.drop_top();
        }
        true
    }

    /// The counter on top; none where there is none.
    #[inline(always)]
    pub fn counter(&self) -> Option<Counter>
        ensures { result ≡ top_counter self.now.items }
    {
        match self.items.last() {
            Some(kept) => kept.counter(),
            None => None,
        }
    }

    /// Puts a number in the place of that of the counter on top; elsewhere the stack stays.
    #[inline(always)]
    pub fn set_number(&mut self, number: i64) -> bool
        ensures { MatchBool result ((c : Counter) × (rest : List Item) × (self.old.items ≡ Item.Counter c ∷ rest) × (self.new ≡ record self.old { items = Item.Counter (record c { at = number }) ∷ rest })) ((top_counter self.old.items ≡ None) × (self.new ≡ self.old)) }
    {
        let Some(kept) = self.items.last_mut() else {
            return false;
        };
        kept.set_number(number)
    }

    /// The scope of the value on top; none where there is none.
    pub fn top_scope(&self) -> Option<u32>
        ensures { result ≡ option_map scope_of (top_value self.now.items) }
    {
        match self.items.last() {
            Some(kept) => kept.scope(),
            None => None,
        }
    }
}
