//! How far words, tags and numbers reach.
ghost use Rattle.std.specs.Prelude.{◌<◌, ◌≤◌, length};
ghost use Rattle.a68_symbols.specs.Runs.{IsRunOfCapitals, IsLongestTag};

use crate::bytes::{ends_tag, is_in_tag, is_in_word};

/// Where the capitals and digits end that stand from a byte on.
pub fn run_end(text: &[u8], from: usize) -> usize
    requires { from ≤ length text.now }
    ensures { IsRunOfCapitals text.now from result }
{
    let mut end = from;
    while end < text.len() && is_in_word(text[end]) {
        end += 1;
    }
    end
}

/// How many bytes the tag or number has that begins the text.
pub fn tag_len(text: &[u8]) -> usize
    requires { 0 < length text.now }
    ensures { IsLongestTag text.now result }
{
    let mut end = 1;
    let mut n = 1;
    while n < text.len() && is_in_tag(text[n]) {
        n += 1;
        if ends_tag(text[n - 1]) {
            end = n;
        }
    }
    end
}
