//! Constants.
ghost use Rattle.std.specs.Prelude.{◌≡◌, ◌++◌, OnOk};
ghost use Rattle.a68_report.specs.Constants.{constant, count_of, item, items_in, plain_constant};
ghost use Rattle.a68_report.specs.Put.{number};
ghost use Rattle.a68_values.specs.Content.{contents_of};

use crate::put::{put_behind, put_integer, put_number};
use a68_base::{NoMemory, Text};
use a68_values::{Layout, Plain, Value, ValueNode};

// Puts a value that is not made of others.
fn put_plain(text: &mut Text, held: Plain) -> Result<(), NoMemory>
    ensures { OnOk result (text.new ≡ text.old ++ plain_constant held) }
{
    match held {
        Plain::Int(integer) => put_integer(text, i128::from(integer)),
        Plain::Long(integer) => put_integer(text, integer.number()),
        Plain::Bool(true) => put_behind(text, b"T"),
        Plain::Bool(false) => put_behind(text, b"F"),
        Plain::Char(code) => put_number(text, u64::from(code)),
        Plain::Bits(bits) => put_number(text, bits),
        _ => Ok(()),
    }
}

// Puts an item of a row.
fn put_item(text: &mut Text, value: &Value) -> Result<(), NoMemory>
    ensures { OnOk result (text.new ≡ text.old ++ item value.now) }
{
    match &value.node {
        ValueNode::Plain(held) => put_plain(text, *held),
        _ => Ok(()),
    }
}

// Puts the items of a row.
fn put_items(text: &mut Text, items: &[Value]) -> Result<(), NoMemory>
    ensures { OnOk result (text.new ≡ text.old ++ items_in (contents_of items.now)) }
{
    for value in items {
        put_item(text, value)?;
    }
    Ok(())
}

// Puts the length of a row and its items.
fn put_row(text: &mut Text, items: &[Value]) -> Result<(), NoMemory>
    ensures { OnOk result (text.new ≡ text.old ++ (number (count_of (contents_of items.now)) ++ items_in (contents_of items.now))) }
{
    put_number(text, items.len() as u64)?;
    put_items(text, items)
}

/// Puts a constant.
pub fn put_constant(text: &mut Text, value: &Value) -> Result<(), NoMemory>
    ensures { OnOk result (text.new ≡ text.old ++ constant value.now) }
{
    match &value.node {
        ValueNode::Row { parts, .. } => put_row(text, parts.as_slice()),
        ValueNode::Layout(Layout::Newline) => put_behind(text, b"newline"),
        ValueNode::Layout(Layout::Space) => put_behind(text, b"space"),
        _ => put_item(text, value),
    }
}
