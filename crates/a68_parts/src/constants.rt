//! The values that denotations and tags of the standard environ stand for.
ghost use Rattle.std.specs.Prelude.{◌≡◌, ◌<◌, length, map, IfOk};
ghost use Rattle.std.specs.Option.{is_some};
ghost use Rattle.a68_elab.specs.Constants as constants;
ghost use Rattle.a68_elab.specs.Made as made;

use a68_annot::{Annotated, Note};
use a68_base::{NoMemory, find};
use a68_denote::{bits_of, int_of, long_of};
use a68_ops::text_value;
use a68_tree::Node;
use a68_values::{Layout, Long, Plain, Value, ValueNode};
use std::alloc::Global;

/// The words that stand for truth values.
pub fn truths() -> &'static [(&'static str, bool)]
    ensures { map (λ row. (row.0.now, row.1)) result.now ≡ constants.truths }
{
    &[("TRUE", true), ("FALSE", false)]
}

// Reads the items behind the first quote of a string or character denotation.
fn items_in(alloc: Global, text: &[u8]) -> Result<Vec<u8>, NoMemory>
    ensures { IfOk result (λ items. items.items ≡ constants.items_in text.now) }
{
    let mut items = Vec::new(alloc);
    let mut at = 0;
    while text.len() - at > 1 {
        let byte = text[at];
        items.push(byte)?;
        at += if byte == b'"' { 2 } else { 1 };
    }
    Ok(items)
}

// Makes a CHAR of one item, and a row of CHAR of none or of more.
fn quoted(alloc: Global, items: &[u8]) -> Result<Value, NoMemory>
    ensures { IfOk result (λ value. value ≡ constants.quoted items.now) }
{
    match items {
        [only] => Ok(Value::of(Plain::Char(*only))),
        _ => text_value(alloc, items),
    }
}

// Reads a string or character denotation, where the text begins with a quote.
fn quoted_in(alloc: Global, text: &[u8]) -> Result<Option<Value>, NoMemory>
    ensures { IfOk result (λ value. value ≡ constants.quoted_in text.now) }
{
    match text.first() {
        Some(b'"') => {
            let items = items_in(alloc, &text[1..])?;
            let value = quoted(alloc, &items)?;
            Ok(Some(value))
        }
        _ => Ok(None),
    }
}

/// Does a spelling begin with a quote?
pub fn is_quoted(text: &[u8]) -> bool
    ensures { result ≡ is_some (constants.quoted_in text.now) }
{
    !text.is_empty() && text[0] == b'"'
}

/// Reads the value of a denotation by its spelling (Report, 8.1 to 8.3); none where it is the spelling of none.
pub fn value_in(alloc: Global, text: &[u8]) -> Result<Option<Value>, NoMemory>
    ensures { IfOk result (λ value. value ≡ constants.value_in text.now) }
{
    if let Some(number) = int_of(text) {
        return Ok(Some(Value::of(Plain::Int(number))));
    }
    if let Some(bits) = bits_of(text) {
        return Ok(Some(Value::of(Plain::Bits(bits))));
    }
    if let Some(holds) = find(truths(), text) {
        return Ok(Some(Value::of(Plain::Bool(holds))));
    }
    quoted_in(alloc, text)
}

/// Reads the value of a number behind LONG by its spelling (Report, 8.1); none where it is the spelling of none.
pub fn long_value_in(text: &[u8]) -> Option<Value>
    ensures { result ≡ constants.long_value_in text.now }
{
    match long_of(text) {
        Some(number) => Some(Value::of(Plain::Long(Long::of(number)))),
        None => None,
    }
}

// What LONG MAX INT counts of 2 to the power 64, and what is left of it.
const LONG_MAX_INT: Long = Long {
    high: 9_223_372_036_854_775_807,
    low: 18_446_744_073_709_551_615,
};

// The tags of the standard environ that stand for plain values.
fn standard_plain() -> &'static [(&'static str, Plain)]
    ensures { map (λ row. (row.0.now, row.1)) result.now ≡ constants.standard_plain }
{
    &[
        ("maxint", Plain::Int(9_223_372_036_854_775_807)),
        ("intwidth", Plain::Int(19)),
        ("bitswidth", Plain::Int(64)),
        ("maxabschar", Plain::Int(255)),
        ("longmaxint", Plain::Long(LONG_MAX_INT)),
        ("longintwidth", Plain::Int(39)),
    ]
}

// Those that stand for what print lays out.
fn standard_layouts() -> &'static [(&'static str, Layout)]
    ensures { map (λ row. (row.0.now, row.1)) result.now ≡ constants.standard_layouts }
{
    &[("newline", Layout::Newline), ("space", Layout::Space)]
}

// Finds the value of a tag of the standard environ that stands for one.
fn standard_in(tag: &[u8]) -> Option<Value>
    ensures { result ≡ constants.standard_in tag.now }
{
    if let Some(held) = find(standard_plain(), tag) {
        return Some(Value::of(held));
    }
    match find(standard_layouts(), tag) {
        Some(layout) => Some(Value {
            node: ValueNode::Layout(layout),
        }),
        None => None,
    }
}

/// The value of a tag that is not defined, where it stands for one of the standard environ.
pub fn standard_of(program: &Annotated, node: &Node, note: &Note) -> Option<Value>
    requires { node.now.name < length program.now.tree.spellings }
    ensures { result ≡ made.standard_of note.now.definition (made.spelling_of program.now node.now) }
{
    match note.definition {
        Some(_) => None,
        None => standard_in(program.tree.spelling(node.name)),
    }
}
