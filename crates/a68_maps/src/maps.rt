//! Maps that share what they have in common.
ghost use Rattle.std.specs.Prelude.{◌≡◌, ◌<◌, ◌%◌, ◌/◌, ◌^◌, ◌++◌, [], ◌∷◌, ℕ, IfOk, None, Some, length};
ghost use Rattle.a68_maps.specs.Found as specs;
ghost use Rattle.a68_maps.specs.Found.{IsMap, IsWith, Puts, branch, found, look};

use a68_base::NoMemory;
use std::alloc::Global;
use std::marker::Model;

/// A map, by the number of its fork. None is the one that has nothing.
pub type Map = Option<u32>;

/// Where the lowest bit of the keys parts a map in two, whose keys have one bit less.
#[derive(Clone, Copy)]
pub struct Fork {
    pub even: Map,
    pub odd: Map,
}

// The bits of a key.
const BITS: u32 = 32;

/// Maps from numbers to numbers. Each has a fork for every bit of each of its keys, and shares the others with the map that it
/// was made from.
#[derive(Drop)]
pub struct Maps {
    forks: Vec<Fork>,
}

impl Model for Maps {
    ghost use Rattle.std.specs.Prelude.{List};
    ghost use Rattle.a68_maps.specs.declared.maps.Fork.{Fork};

    ghost Value = { List Fork };

    ghost view = { λ maps. maps.forks.items };
}

// The fork of a map. That of a map that has nothing leads to two of them.
fn fork_of(forks: &[Fork], map: Map) -> Fork
    ensures { result ≡ specs.fork_of forks.now map }
{
    let Some(number) = map else {
        return Fork {
            even: None,
            odd: None,
        };
    };
    match forks.get(number as usize) {
        Some(fork) => *fork,
        None => Fork {
            even: None,
            odd: None,
        },
    }
}

// The part of a fork for even keys, or for odd ones.
fn branch_of(fork: Fork, even: bool) -> Map
    ensures { result ≡ branch fork even }
{
    if even { fork.even } else { fork.odd }
}

// The fork with another part for even keys, or for odd ones.
fn with_branch(fork: Fork, even: bool, map: Map) -> Fork
    ensures { result ≡ specs.with_branch fork even map }
{
    if even {
        Fork {
            even: map,
            odd: fork.odd,
        }
    } else {
        Fork {
            even: fork.even,
            odd: map,
        }
    }
}

// Adds a fork.
fn add(forks: &mut Vec<Fork>, fork: Fork) -> Result<Map, NoMemory>
    ensures { IfOk result (λ map. (forks.new.items ≡ forks.old.items ++ fork ∷ []) × (map ≡ Some (length forks.old.items))) }
{
    let number = forks.len();
    if number > u32::MAX as usize {
        return Err(NoMemory);
    }
    forks.push(fork)?;
    Ok(Some(number as u32))
}

// Makes a map of keys with so many bits from another one, which has this value for this key.
#[cycle(put)]
fn put(forks: &mut Vec<Fork>, bits: u32, map: Map, key: u32, value: u32) -> Result<Map, NoMemory>
    requires map { IsMap forks.old.items bits map }
    requires key { key < 2 ^ bits }
    ensures { IfOk result (λ new. Puts forks.old.items forks.new.items bits map key value new) }
{
    if bits == 0 {
        return Ok(Some(value));
    }
    let fork = fork_of(forks, map);
    let even = key % 2 == 0;
    let part = put(forks, bits - 1, branch_of(fork, even), key / 2, value)?;
    let made = add(forks, with_branch(fork, even, part))?;
    Ok(made)
}

impl Maps {
    /// No map yet but the one that has nothing.
    pub fn new(alloc: Global) -> Maps
        ensures { result ≡ [] }
    {
        Maps {
            forks: Vec::new(alloc),
        }
    }

    /// What a map has for a key.
    pub fn get(&self, map: Map, key: u32) -> Option<u32>
        ensures { result ≡ found self.now map key }
    {
        let mut at = map;
        let mut left = key;
        let mut bits = BITS;
        'bits: while bits > 0 {
            at = branch_of(fork_of(&self.forks, at), left % 2 == 0);
            left /= 2;
            bits -= 1;
        }
        at
    }

    /// Makes a map from another one, which stays as it was: the new one has this value for this key.
    pub fn with(&mut self, map: Map, key: u32, value: u32) -> Result<Map, NoMemory>
        requires { specs.IsMade self.old map }
        ensures { IfOk result (λ new. IsWith self.old self.new map key value new) }
    {
        let made = put(&mut self.forks, BITS, map, key, value)?;
        Ok(made)
    }
}
