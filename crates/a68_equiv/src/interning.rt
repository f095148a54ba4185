//! The node of a shape over nodes that are there.
ghost use Rattle.std.specs.Prelude.{◌≡◌, ◌≢◌, ◌<◌, ◌≤◌, ◌+◌, ◌*◌, ◌↔◌, ◌++◌, ◌∷◌, [], ℕ, List, Vec, true, IfOk, OnOk, OnErr, Err, length, vec_len, vec_capacity};
ghost use Rattle.std.specs.Global.{Global};
ghost use Rattle.std.specs.HashMap.{spare};
ghost use Rattle.a68_modes.specs.Nodes.{ShapeIsWithin, HoldsNodes};
ghost use Rattle.a68_modes.specs.declared.modes.ModeStop.TheVariants.{Full, NoMemory as no_memory};
ghost use Rattle.a68_equiv.specs.Classes.{AreKept, AreSame, FindsSame, IsAlready, IsNodeOf, IsNewNode};
ghost use Rattle.a68_equiv.specs.Dimensions.{HasDimensions, HaveDimensions};
ghost use Rattle.a68_equiv.specs.NewNodes.{AreNewKeys, IsNodeFound, IsJoined};
ghost use Rattle.a68_partition.specs.Rounds.{IsNumbered};
ghost use Rattle.a68_equiv.specs.Ways.{AreWellFormed};

use crate::classes::Classes;
use crate::keys::shape_key;
use a68_base::{MOST_MODES, NoMemory};
use a68_modes::{ModeId, ModeStop, Modes, Shape};
use a68_partition::{Table, numbered};
use std::alloc::Global;

/// The node of a shape over nodes that are there: the first that is equivalent, or a new one behind the others where
/// none is. The classes stay those of the modes, and rows keep their dimensions. Full where a new node is one too many;
/// an error leaves the modes as they were, and the same classes at the same keys.
pub fn intern(
    alloc: Global,
    modes: &mut Modes,
    classes: &mut Classes,
    shape: Shape,
) -> Result<ModeId, ModeStop>
    requires within { ShapeIsWithin (length modes.old) shape }
    requires formed { AreWellFormed modes.old }
    requires kept { AreKept modes.old classes.old }
    ensures node { IfOk result (λ id. IsNodeOf modes.old modes.new shape id) }
    ensures formed { AreWellFormed modes.new }
    ensures rows { HaveDimensions modes.old → HasDimensions shape → HaveDimensions modes.new }
    ensures kept { AreKept modes.new classes.new }
    ensures full { result ≢ Err no_memory → (result ≡ Err Full) ↔ ((length modes.old ≡ MOST_MODES) × ((a : ℕ) → a < length modes.old → IsAlready modes.old shape a → ⊥)) }
    ensures modes_stay { OnErr result (modes.new ≡ modes.old) }
    ensures classes_stay { OnErr result (AreSame classes.new classes.old) }
{
    match looked_up(alloc, modes, classes, &shape) {
        Ok(Found::Old(id)) => {
            drop(shape);
            Ok(id)
        }
        Ok(Found::New(keys)) => add(modes, classes, shape, keys),
        Err(NoMemory) => {
            drop(shape);
            Err(ModeStop::NoMemory)
        }
    }
}

/// The keys of a new node: as it stands, once more for the table of nodes, and without its FLEX.
#[derive(Drop)]
pub struct NewKeys {
    key: Vec<u32>,
    again: Vec<u32>,
    fixed: Vec<u32>,
}

/// The node of a shape that is there, or the keys of a new one.
#[derive(Drop)]
pub enum Found {
    Old(ModeId),
    New(NewKeys),
}

/// What is found of a shape.
fn looked_up(
    alloc: Global,
    modes: &Modes,
    classes: &Classes,
    shape: &Shape,
) -> Result<Found, NoMemory>
    requires within { ShapeIsWithin (length modes.now) shape.now }
    requires formed { AreWellFormed modes.now }
    requires kept { AreKept modes.now classes.now }
    ensures nodes { OnOk result (HoldsNodes modes.now) }
    ensures found { IfOk result (λ found. IsNodeFound modes.now classes.now.of shape.now found) }
{
    let key = shape_key(alloc, modes, &classes.items, shape, false)?;
    if let Some(old) = classes.nodes.get(&key) {
        return Ok(Found::Old(*old));
    }
    let again = Vec::from_slice(alloc, &key)?;
    let fixed = shape_key(alloc, modes, &classes.items, shape, true)?;
    Ok(Found::New(NewKeys { key, again, fixed }))
}

/// Adds a node of this shape and of these keys.
fn add(
    modes: &mut Modes,
    classes: &mut Classes,
    shape: Shape,
    keys: NewKeys,
) -> Result<ModeId, ModeStop>
    requires within { ShapeIsWithin (length modes.old) shape }
    requires formed { AreWellFormed modes.old }
    requires kept { AreKept modes.old classes.old }
    requires nodes { HoldsNodes modes.old }
    requires keys { AreNewKeys modes.old classes.old.of shape keys }
    ensures node { IfOk result (λ id. IsNewNode modes.old modes.new shape id) }
    ensures formed { AreWellFormed modes.new }
    ensures rows { HaveDimensions modes.old → HasDimensions shape → HaveDimensions modes.new }
    ensures kept { AreKept modes.new classes.new }
    ensures full { result ≢ Err no_memory → (result ≡ Err Full) ↔ (length modes.old ≡ MOST_MODES) }
    ensures modes_stay { OnErr result (modes.new ≡ modes.old) }
    ensures classes_stay { OnErr result (AreSame classes.new classes.old) }
{
    if make_room(&mut classes.items, &mut classes.keys, &mut classes.nodes).is_err() {
        drop(shape);
        return Err(ModeStop::NoMemory);
    }
    let id = modes.add(shape)?;
    join(
        &mut classes.items,
        &mut classes.keys,
        &mut classes.nodes,
        keys,
        id,
    );
    Ok(id)
}

/// A node of these keys joins the classes and the tables.
fn join(classes: &mut Vec<u32>, by_key: &mut Table, nodes: &mut Table, keys: NewKeys, id: ModeId)
    requires few { id < MOST_MODES }
    requires room { vec_len classes.old + 2 ≤ vec_capacity classes.old }
    requires keys_room { 2 ≤ spare by_key.old }
    requires nodes_room { 1 ≤ spare nodes.old }
    ensures { IsJoined keys id classes.old.items classes.new.items by_key.old.entries by_key.new.entries nodes.old.entries nodes.new.entries }
{
    let NewKeys { key, again, fixed } = keys;
    numbered_in_room(nodes, again, id);
    let class = numbered_in_room(by_key, key, 2 * id);
    let without_flex = numbered_in_room(by_key, fixed, 2 * id + 1);
    push_two(classes, class, without_flex);
}

/// Makes room for one node more.
fn make_room(items: &mut Vec<u32>, keys: &mut Table, nodes: &mut Table) -> Result<(), NoMemory>
    ensures items { items.new.items ≡ items.old.items }
    ensures keys { FindsSame keys.new.entries keys.old.entries }
    ensures nodes { FindsSame nodes.new.entries nodes.old.entries }
    ensures items_room { OnOk result (vec_len items.new + 2 ≤ vec_capacity items.new) }
    ensures keys_room { OnOk result (2 ≤ spare keys.new) }
    ensures nodes_room { OnOk result (1 ≤ spare nodes.new) }
{
    items.reserve(2)?;
    keys.reserve(2)?;
    nodes.reserve(1)?;
    Ok(())
}

/// The number of a key in a table that has room, a new one where it has none.
fn numbered_in_room(table: &mut Table, key: Vec<u32>, new: u32) -> u32
    requires { 0 < spare table.old }
    ensures numbered { IsNumbered table.old.entries table.new.entries key.items new result }
    ensures room { spare table.old ≤ spare table.new + 1 }
{
    match numbered(table, key, new) {
        Ok(number) => number,
        Err(_) => unreachable!(),
    }
}

/// Adds two numbers to a list that has room for them.
fn push_two(items: &mut Vec<u32>, one: u32, other: u32)
    requires { vec_len items.old + 2 ≤ vec_capacity items.old }
    ensures { items.new.items ≡ (items.old.items ++ one ∷ []) ++ other ∷ [] }
{
    push_in_room(items, one);
    push_in_room(items, other);
}

fn push_in_room(items: &mut Vec<u32>, number: u32)
    requires { vec_len items.old < vec_capacity items.old }
    ensures items { items.new.items ≡ items.old.items ++ number ∷ [] }
    ensures len { vec_len items.new ≡ vec_len items.old + 1 }
    ensures capacity { vec_capacity items.old ≤ vec_capacity items.new }
{
    match items.push(number) {
        Ok(()) => {}
        Err(_) => unreachable!(),
    }
}
