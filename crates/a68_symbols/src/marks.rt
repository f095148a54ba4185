//! How far marks reach.
ghost use Rattle.std.specs.Prelude.{◌≡◌, [], ◌∷◌};
ghost use Rattle.a68_symbols.specs.Marks as marks;
ghost use Rattle.a68_symbols.specs.Runs.{IsLongestMark};

fn is_lone(byte: u8) -> bool
    ensures { result ≡ marks.is_lone byte }
{
    b":|()[],;@".contains(&byte)
}

fn is_nomad(byte: u8) -> bool
    ensures { result ≡ marks.is_nomad byte }
{
    b"<>/=*".contains(&byte)
}

/// Is it a mark that may stand before an operand alone?
pub fn is_monad(byte: u8) -> bool
    ensures { result ≡ marks.is_monad byte }
{
    b"+-&%^!?".contains(&byte)
}

fn begins_operator(byte: u8) -> bool
    ensures { result ≡ marks.begins_operator byte }
{
    is_monad(byte) || is_nomad(byte)
}

fn ends_operator(a: u8, b: u8) -> bool
    ensures { result ≡ marks.ends_operator a b }
{
    a == b':' && b == b'=' || a == b'=' && b == b':'
}

fn is_pair(a: u8, b: u8) -> bool
    ensures { result ≡ marks.is_pair a b }
{
    a == b'|' && b == b':' || a == b':' && b == b'='
}

// Is the byte a mark?
fn is_one(a: u8) -> bool
    ensures { result ≡ marks.is_mark (a ∷ []) }
{
    is_lone(a) || begins_operator(a)
}

// Are the two bytes a mark?
fn are_two(a: u8, b: u8) -> bool
    ensures { result ≡ marks.is_mark (a ∷ b ∷ []) }
{
    is_pair(a, b) || begins_operator(a) && is_nomad(b)
}

// Are the three bytes a mark?
fn are_three(a: u8, b: u8, c: u8) -> bool
    ensures { result ≡ marks.is_mark (a ∷ b ∷ c ∷ []) }
{
    a == b':' && b == b'=' && c == b':' || begins_operator(a) && ends_operator(b, c)
}

// Are the four bytes a mark?
fn are_four(a: u8, b: u8, c: u8, d: u8) -> bool
    ensures { result ≡ marks.is_mark (a ∷ b ∷ c ∷ d ∷ []) }
{
    a == b':' && b == b'/' && c == b'=' && d == b':'
        || begins_operator(a) && is_nomad(b) && ends_operator(c, d)
}

// Are the bytes a mark?
fn is_mark(bytes: &[u8]) -> bool
    ensures { result ≡ marks.is_mark bytes.now }
{
    match bytes {
        [a] => is_one(*a),
        [a, b] => are_two(*a, *b),
        [a, b, c] => are_three(*a, *b, *c),
        [a, b, c, d] => are_four(*a, *b, *c, *d),
        _ => false,
    }
}

/// How many bytes the longest mark has that begins the text; 0 where none does.
pub fn mark_len(text: &[u8]) -> usize
    ensures { IsLongestMark text.now result }
{
    let mut n = text.len().min(4);
    while n > 0 && !is_mark(&text[..n]) {
        n -= 1;
    }
    n
}
