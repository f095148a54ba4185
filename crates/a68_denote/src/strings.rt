//! The bytes of string and character denotations.
ghost use Rattle.std.specs.Prelude.{IfOk};
ghost use Rattle.a68_denote.specs.Strings.{Denotes, IsQuoted};

use a68_base::{NoMemory, Text};
use std::alloc::Global;

/// The bytes that a string or character denotation stands for (Report, 8.1.4 and 8.3): what stands between the outer
/// quotes, with one quote for each two.
pub fn string_of(alloc: Global, text: &[u8]) -> Result<Text, NoMemory>
    requires { IsQuoted text.now }
    ensures { IfOk result (λ bytes. Denotes text.now bytes) }
{
    let mut items = Vec::new(alloc);
    let mut is_second = false;
    for byte in &text[1..text.len() - 1] {
        if is_second {
            is_second = false;
            continue;
        }
        items.push(*byte)?;
        is_second = *byte == b'"';
    }
    Ok(Text { items })
}
