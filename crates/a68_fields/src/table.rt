//! A table of the fields of all structures among some modes.
ghost use Rattle.std.specs.Prelude.{◌≡◌, ℕ, IfOk, OnOk, None};
ghost use Rattle.a68_fields.specs.Fields as specs;
ghost use Rattle.a68_fields.specs.Fields.{AreFieldsOf, IsAdded, at_key, first_field};

use a68_base::NoMemory;
use a68_modes::{ModeId, Modes, Shape};
use indexmap::IndexMap;
use std::alloc::Global;
use std::marker::Model;

/// A field of a structure: its place among the fields, from 0, and its mode.
#[derive(Clone, Copy, Debug, PartialEq, Eq)]
pub struct Field {
    pub place: usize,
    pub mode: ModeId,
}

/// The fields of all structures among some modes, by the node of the structure and by tag; of several with one tag the first.
///
/// Contracts see the list of the fields, each with its key.
#[derive(Drop)]
pub struct FieldTable {
    fields: IndexMap<(ModeId, u32), Field>,
}

impl Model for FieldTable {
    ghost use Rattle.std.specs.Prelude.{ℕ, List};
    ghost use Rattle.a68_fields.specs.declared.table.Field.{Field};

    ghost Value = { List ((ℕ × ℕ) × Field) };

    ghost view = { λ table. table.fields.entries };
}

// Adds a field of a structure, where none of its tag is there.
fn add(
    fields: &mut IndexMap<(ModeId, u32), Field>,
    node: ModeId,
    tag: u32,
    field: Field,
) -> Result<bool, NoMemory>
    ensures { IfOk result (IsAdded fields.old.entries fields.new.entries node tag field) }
{
    if let Some(_) = fields.get(&(node, tag)) {
        return Ok(false);
    }
    fields.insert((node, tag), field)?;
    Ok(true)
}

// Adds the fields of a structure in turn.
fn add_all(
    fields: &mut IndexMap<(ModeId, u32), Field>,
    node: ModeId,
    added: &[(u32, ModeId)],
) -> Result<(), NoMemory>
    requires { (tag : ℕ) → at_key fields.old.entries node tag ≡ None }
    ensures own { OnOk result ((tag : ℕ) → at_key fields.new.entries node tag ≡ first_field 0 tag added.now) }
    ensures others { OnOk result ((other tag : ℕ) → (other ≡ node → ⊥) → at_key fields.new.entries other tag ≡ at_key fields.old.entries other tag) }
{
    for place in 0..added.len() {
        let (tag, mode) = added[place];
        add(fields, node, tag, Field { place, mode })?;
    }
    Ok(())
}

// Gives the fields of a structure; none of another shape.
fn fields_of(shape: &Shape) -> &[(u32, ModeId)]
    ensures { result.now ≡ specs.fields_of shape.now }
{
    match shape {
        Shape::Struct(fields) => &fields.items,
        _ => &[],
    }
}

// Adds the fields of all structures.
fn add_modes(fields: &mut IndexMap<(ModeId, u32), Field>, modes: &Modes) -> Result<(), NoMemory>
    requires { (node tag : ℕ) → at_key fields.old.entries node tag ≡ None }
    ensures { OnOk result (AreFieldsOf modes.now fields.new.entries) }
{
    for node in 0..modes.len() {
        add_all(fields, node, fields_of(modes.shape(node)))?;
    }
    Ok(())
}

impl FieldTable {
    /// Makes the table of the fields of all structures among these modes.
    pub fn of(alloc: Global, modes: &Modes) -> Result<FieldTable, NoMemory>
        ensures { IfOk result (AreFieldsOf modes.now) }
    {
        let mut fields = IndexMap::new(alloc);
        add_modes(&mut fields, modes)?;
        Ok(FieldTable { fields })
    }

    /// Finds the first field of that tag of the structure at a node.
    pub fn find(&self, node: ModeId, tag: u32) -> Option<Field>
        ensures { result ≡ at_key self.now node tag }
    {
        self.fields.get(&(node, tag)).copied()
    }
}
