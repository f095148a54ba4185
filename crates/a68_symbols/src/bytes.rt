//! Kinds of bytes.
ghost use Rattle.std.specs.Prelude.{◌≡◌, IfOk};
ghost use Rattle.a68_symbols.specs.Bytes as kinds;

use a68_base::NoMemory;
use std::alloc::Global;

pub fn is_layout(byte: u8) -> bool
    ensures { result ≡ kinds.is_layout byte }
{
    byte == b' ' || byte == b'\t' || byte == b'\n' || byte == b'\r'
}

pub fn is_capital(byte: u8) -> bool
    ensures { result ≡ kinds.is_capital byte }
{
    byte.is_ascii_uppercase()
}

pub fn is_small(byte: u8) -> bool
    ensures { result ≡ kinds.is_small byte }
{
    byte.is_ascii_lowercase()
}

pub fn is_digit(byte: u8) -> bool
    ensures { result ≡ kinds.is_digit byte }
{
    byte.is_ascii_digit()
}

pub fn is_in_word(byte: u8) -> bool
    ensures { result ≡ kinds.in_word byte }
{
    is_capital(byte) || is_digit(byte)
}

pub fn ends_tag(byte: u8) -> bool
    ensures { result ≡ kinds.ends_tag byte }
{
    is_small(byte) || is_digit(byte)
}

pub fn is_in_tag(byte: u8) -> bool
    ensures { result ≡ kinds.in_tag byte }
{
    ends_tag(byte) || is_layout(byte)
}

/// The bytes that are no layout.
pub fn without_layout(alloc: Global, bytes: &[u8]) -> Result<Vec<u8>, NoMemory>
    ensures { IfOk result (λ found. found.items ≡ kinds.without_layout bytes.now) }
{
    Ok(
        bytes
            .iter()
            .copied()
            .filter(|b| !is_layout(*b))
            .collect(alloc)?,
    )
}
