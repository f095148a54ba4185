//! Words put behind a text.
ghost use Rattle.std.specs.Prelude.{◌≡◌, ◌++◌, decimal, OnOk};
ghost use Rattle.std.specs.Fmt.{signed_decimal};
ghost use Rattle.a68_report.specs.Put as put;

use a68_base::{NoMemory, Text};
use itoa::Buffer;

/// Puts bytes.
pub fn put(text: &mut Text, bytes: &[u8]) -> Result<(), NoMemory>
    ensures { OnOk result (text.new ≡ text.old ++ bytes.now) }
{
    text.items.extend_from_slice(bytes)?;
    Ok(())
}

/// Puts the digits of a number.
pub fn put_digits(text: &mut Text, number: u64) -> Result<(), NoMemory>
    ensures { OnOk result (text.new ≡ text.old ++ decimal number) }
{
    let mut buffer = Buffer::new();
    put(text, buffer.format(number).as_bytes())
}

/// Puts a word behind another one.
pub fn put_behind(text: &mut Text, word: &[u8]) -> Result<(), NoMemory>
    ensures { OnOk result (text.new ≡ text.old ++ put.behind word.now) }
{
    put(text, b" ")?;
    put(text, word)
}

/// Puts a number.
pub fn put_number(text: &mut Text, number: u64) -> Result<(), NoMemory>
    ensures { OnOk result (text.new ≡ text.old ++ put.number number) }
{
    let mut buffer = Buffer::new();
    put_behind(text, buffer.format(number).as_bytes())
}

/// Puts an integer.
pub fn put_integer(text: &mut Text, integer: i128) -> Result<(), NoMemory>
    ensures { OnOk result (text.new ≡ text.old ++ put.behind (signed_decimal integer)) }
{
    let mut buffer = Buffer::new();
    put_behind(text, buffer.format(integer).as_bytes())
}

// Puts the numbers of a list.
fn put_numbers(text: &mut Text, numbers: &[u32]) -> Result<(), NoMemory>
    ensures { OnOk result (text.new ≡ text.old ++ put.numbers numbers.now) }
{
    for number in numbers {
        put_number(text, u64::from(*number))?;
    }
    Ok(())
}

/// Puts the length of a list and its numbers.
pub fn put_list(text: &mut Text, numbers: &[u32]) -> Result<(), NoMemory>
    ensures { OnOk result (text.new ≡ text.old ++ put.listed numbers.now) }
{
    put_number(text, numbers.len() as u64)?;
    put_numbers(text, numbers)
}
