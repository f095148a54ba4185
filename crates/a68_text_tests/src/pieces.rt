//! Texts of pieces that are repeated.
use std::alloc::Global;
use std::panic::Expect;
use std::process::Abort;
use std::string::String;

fn push_often(rt: &impl Abort, text: &mut String, piece: &str, count: u32) {
    for _ in 0..count {
        text.push_str(piece).expect(rt, "memory");
    }
}

/// The text of these pieces, each behind how often it stands there.
pub fn text_of(rt: &impl Abort, alloc: Global, pieces: &str, between: char) -> String {
    let mut text = String::new(alloc);
    let mut words = pieces.split(between);
    while let Some(count) = words.next() {
        let piece = words.next().expect(rt, "a piece");
        push_often(rt, &mut text, piece, count.parse().expect(rt, "a number"));
    }
    text
}
