//! Sets of numbers.
ghost use Rattle.std.specs.Prelude.{◌≡◌, ◌<◌, ◌≤◌, ◌-◌, ◌/◌, ◌^◌, ℕ, true, false, length, slice_index, MatchBool};
ghost use Rattle.a68_marks.specs.Marked.{AreFull, FirstOther, MarksAsWere, MarksLess, MarksToo, RunOfMarks, is_marked};

use std::alloc::Global;
use std::marker::Model;

/// A set of numbers, with a bit for each up to the greatest. A search leaves out 64 words at once where all their numbers are in
/// the set.
#[derive(Drop)]
pub struct Marks {
    words: Vec<u64>,
    // The set of the words that are full. One for which there was no memory is missing.
    full: Vec<u64>,
}

impl Model for Marks {
    ghost use Rattle.std.specs.Prelude.{ℕ, List};

    ghost Value = { List ℕ };

    ghost view = { λ s. s.words.items };

    ghost use Rattle.a68_marks.specs.Marked.{AreFull};

    ghost invariant = { λ s. AreFull s.words.items s.full.items };
}

// How many numbers of the set there are from this one on: those of one word at most.
#[inline(always)]
fn run_from(words: &[u64], n: usize) -> usize
    ensures run { RunOfMarks words.now n result }
    ensures few { result ≤ 64 }
{
    let Some(word) = words.get(n / 64) else {
        return 0;
    };
    if *word == u64::MAX {
        return 64 - n % 64;
    }
    (*word >> (n % 64)).trailing_ones() as usize
}

// The same, of 64 words at most where a word begins with this number.
#[inline(always)]
fn run_at(words: &[u64], full: &[u64], n: usize) -> usize
    requires { AreFull words.now full.now }
    ensures { RunOfMarks words.now n result }
{
    if n % 64 == 0 {
        let count = run_from(full, n / 64);
        if count != 0 {
            return 64 * count;
        }
    }
    run_from(words, n)
}

// The number is in the set, which has a word for it.
fn set_bit(words: &mut [u64], n: usize)
    requires { n / 64 < length words.old }
    ensures { MarksToo words.old n words.new }
{
    words[n / 64] |= 1 << (n % 64);
}

// The number is in the set no more, which has a word for it.
fn clear_bit(words: &mut [u64], n: usize)
    requires { n / 64 < length words.old }
    ensures { MarksLess words.old n words.new }
{
    words[n / 64] &= !(1 << (n % 64));
}

// The number is in the set no more.
fn take_out(words: &mut [u64], n: usize)
    ensures { MarksLess words.old n words.new }
{
    if n / 64 < words.len() {
        clear_bit(words, n);
    }
}

// Is the number in the set?
#[inline(always)]
fn holds(words: &[u64], n: usize) -> bool
    ensures { result ≡ is_marked words.now n }
{
    match words.get(n / 64) {
        Some(word) => (*word >> (n % 64)) % 2 == 1,
        None => false,
    }
}

// The set has a word for this number. Tells whether there was memory.
fn hold(words: &mut Vec<u64>, n: usize) -> bool
    ensures same { MarksAsWere words.old.items words.new.items }
    ensures room { result ≡ true → n / 64 < length words.new.items }
{
    let count = n / 64 + 1;
    if count <= words.len() {
        return true;
    }
    words.resize(count, 0).is_ok()
}

// The number is in the set from now on. Tells whether there was memory.
fn put(words: &mut Vec<u64>, n: usize) -> bool
    ensures { MatchBool result (MarksToo words.old.items n words.new.items) (MarksAsWere words.old.items words.new.items) }
{
    if !hold(words, n) {
        return false;
    }
    set_bit(words, n);
    true
}

// Are all numbers of this word in the set?
fn is_full(words: &[u64], j: usize) -> bool
    ensures { result ≡ true → slice_index words.now j ≡ 2 ^ 64 - 1 }
{
    match words.get(j) {
        Some(word) => *word == u64::MAX,
        None => false,
    }
}

impl Marks {
    /// The set without a number. It takes no memory.
    pub fn new(alloc: Global) -> Marks
        ensures { (n : ℕ) → is_marked result n ≡ false }
    {
        Marks {
            words: Vec::new(alloc),
            full: Vec::new(alloc),
        }
    }

    /// The number is in the set from now on. Tells whether there was memory: where there was none the set stays as it was.
    pub fn mark(&mut self, n: usize) -> bool
        ensures { MatchBool result (MarksToo self.old n self.new) (MarksAsWere self.old self.new) }
    {
        if !put(&mut self.words, n) {
            return false;
        }
        if is_full(&self.words, n / 64) {
            let _noted = put(&mut self.full, n / 64);
        }
        true
    }

    /// The number is in the set no more. It takes no memory.
    pub fn unmark(&mut self, n: usize)
        ensures { MarksLess self.old n self.new }
    {
        take_out(&mut self.full, n / 64);
        take_out(&mut self.words, n);
    }

    /// Is the number in the set? It takes no memory.
    #[inline(always)]
    pub fn contains(&self, n: usize) -> bool
        ensures { result ≡ is_marked self.now n }
    {
        holds(&self.words, n)
    }

    /// The first number from this one on that is not in the set, or the end of the search where there is none below it. It takes
    /// no memory.
    #[inline(always)]
    pub fn first_other(&self, from: usize, to: usize) -> usize
        requires { from ≤ to }
        ensures { FirstOther self.now from to result }
    {
        let mut n = from;
        while n < to {
            let count = run_at(&self.words, &self.full, n);
            if count == 0 {
                return n;
            }
            n += count.min(to - n);
        }
        to
    }
}
