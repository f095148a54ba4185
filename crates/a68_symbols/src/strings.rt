//! How far strings reach.
ghost use Rattle.std.specs.Prelude.{◌≡◌, ◌<◌, ◌≤◌, length};
ghost use Rattle.a68_symbols.specs.Runs.{item_width, AreItems};

// How many bytes the item of a string has that begins the text; 0 where none does.
fn item_len(text: &[u8]) -> usize
    ensures value { result ≡ item_width text.now }
    ensures within { result ≤ length text.now }
{
    match text {
        [] => 0,
        [b'"', b'"', ..] => 2,
        [b'"' | b'\n', ..] => 0,
        _ => 1,
    }
}

/// Where the items end that stand behind the first byte.
pub fn items_end(text: &[u8]) -> usize
    requires { 0 < length text.now }
    ensures { AreItems text.now result }
{
    let mut n = 1;
    while n < text.len() {
        let width = item_len(&text[n..]);
        if width == 0 {
            return n;
        }
        n += width;
    }
    n
}
