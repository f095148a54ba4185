//! The longest stretch at the front of a text.
ghost use Rattle.std.specs.Prelude.{◌≡◌, ◌<◌, length, slice_index, true, MatchOption};
ghost use Rattle.a68_symbols.specs.Bytes as bytes;
ghost use Rattle.a68_symbols.specs.Forms.{Longest, NoForm};

use crate::bytes::{is_capital, is_digit, is_layout, is_small};
use crate::comments::{first_again, is_opener, next_sharp};
use crate::form::StretchForm;
use crate::marks::mark_len;
use crate::runs::{run_end, tag_len};
use crate::strings::items_end;

// The stretch from a `#` on.
fn from_sharp(text: &[u8]) -> (StretchForm, usize)
    requires some { 0 < length text.now }
    requires begins { slice_index text.now 0 ≡ 35 }
    ensures { Longest text.now result.0 result.1 }
{
    match next_sharp(text) {
        Some(n) => (StretchForm::SharpComment, n + 1),
        None => (StretchForm::OpenComment, text.len()),
    }
}

// The stretch from a capital on.
fn from_capital(text: &[u8]) -> (StretchForm, usize)
    requires some { 0 < length text.now }
    requires begins { bytes.is_capital (slice_index text.now 0) ≡ true }
    ensures { Longest text.now result.0 result.1 }
{
    let width = run_end(text, 0);
    if !is_opener(&text[..width]) {
        return (StretchForm::Word, width);
    }
    match first_again(text, width) {
        Some(at) => (StretchForm::WordComment, at + width),
        None => (StretchForm::Word, width),
    }
}

// The stretch from a quote on.
fn from_quote(text: &[u8]) -> (StretchForm, usize)
    requires some { 0 < length text.now }
    requires begins { slice_index text.now 0 ≡ 34 }
    ensures { Longest text.now result.0 result.1 }
{
    let end = items_end(text);
    if end < text.len() && text[end] == b'"' {
        return (StretchForm::Quoted, end + 1);
    }
    (StretchForm::OpenString, end)
}

/// The longest stretch at the front of the text that has a form.
pub fn longest(text: &[u8]) -> Option<(StretchForm, usize)>
    requires { 0 < length text.now }
    ensures { MatchOption result (NoForm text.now) (λ found. Longest text.now found.0 found.1) }
{
    let first = text[0];
    if is_layout(first) {
        return Some((StretchForm::Layout, 1));
    }
    if first == b'#' {
        return Some(from_sharp(text));
    }
    if is_capital(first) {
        return Some(from_capital(text));
    }
    if is_small(first) {
        return Some((StretchForm::Tag, tag_len(text)));
    }
    if is_digit(first) {
        return Some((StretchForm::Number, tag_len(text)));
    }
    if first == b'"' {
        return Some(from_quote(text));
    }
    match mark_len(text) {
        0 => None,
        n => Some((StretchForm::Mark, n)),
    }
}
