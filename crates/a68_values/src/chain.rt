//! Chains of frames.
ghost use Rattle.std.specs.Prelude.{◌≡◌, [], ◌∷◌, drop, reverse, slice_get, IfOk, OnErr, OnOk};

use a68_base::NoMemory;
use std::alloc::Global;
use std::marker::Model;

/// A frame and its scope. A frame is where a range keeps what it declares; the Report's environ (2.1.1.1).
#[derive(Clone, Copy, PartialEq, Eq)]
pub struct Environ {
    pub frame: u32,
    pub scope: u32,
}

/// A frame and those about it, from the innermost outwards to that of the standard environ.
#[derive(Drop)]
pub struct Chain {
    // The innermost frame stands last, where one is entered and left without a move of the others.
    items: Vec<Environ>,
}

impl Model for Chain {
    ghost use Rattle.std.specs.Prelude.{List, reverse};
    ghost use Rattle.a68_values.specs.declared.chain.Environ.{Environ};

    ghost Value = { List Environ };

    ghost view = { λ chain. reverse chain.items.items };
}

impl Chain {
    /// The chain of one frame, about which there is none.
    pub fn of_one(alloc: Global, environ: Environ) -> Result<Chain, NoMemory>
        ensures { IfOk result (λ chain. chain ≡ environ ∷ []) }
    {
        Ok(Chain {
            items: vec![in alloc; environ]?,
        })
    }

    /// The chain of these frames, of which the first is the innermost.
    pub fn outwards(mut items: Vec<Environ>) -> Chain
        ensures { result ≡ items.items }
    {
        items.reverse();
        Chain { items }
    }

    /// The frames from the outermost inwards.
    #[inline(always)]
    pub fn inwards(&self) -> &[Environ]
        ensures { result.now ≡ reverse self.now }
    {
        self.items.as_slice()
    }

    /// An equal chain.
    pub fn copy(&self, alloc: Global) -> Result<Chain, NoMemory>
        ensures { IfOk result (λ copy. copy ≡ self.now) }
    {
        let mut items = Vec::new(alloc);
        items.extend_from_slice(&self.items)?;
        Ok(Chain { items })
    }

    /// The frame so many frames outwards from the innermost one; none where there is no such frame.
    #[inline(always)]
    pub fn outer(&self, hops: u32) -> Option<Environ>
        ensures { result ≡ slice_get self.now hops }
    {
        let count = self.items.len();
        if hops as usize >= count {
            return None;
        }
        Some(self.items[count - 1 - hops as usize])
    }

    /// Enters a frame within the innermost one. Where there is no memory, the chain stays as it was.
    #[inline(always)]
    pub fn enter(&mut self, environ: Environ) -> Result<(), NoMemory>
        ensures ok { OnOk result (self.new ≡ environ ∷ self.old) }
        ensures err { OnErr result (self.new ≡ self.old) }
    {
        // Mostly there is room, and then nothing is called.
        if self.items.len() < self.items.capacity() {
            self.items.push_reserved(environ);
            return Ok(());
        }
        self.items.push(environ)?;
        Ok(())
    }

    /// Leaves the innermost frame, where there is one.
    #[inline(always)]
    pub fn leave(&mut self)
        ensures { self.new ≡ drop 1 self.old }
    {
        let _ = self.items.pop();
    }
}

/// Where the units of a parallel clause begin in the code, in order.
#[derive(Drop)]
pub struct Entrances {
    pub items: Vec<u32>,
}

impl Model for Entrances {
    ghost use Rattle.std.specs.Prelude.{List, ℕ};

    ghost Value = { List ℕ };

    ghost view = { λ entrances. entrances.items.items };
}
