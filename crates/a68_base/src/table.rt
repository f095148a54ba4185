//! Tables of spellings.
ghost use Rattle.std.specs.Prelude.{◌≡◌, map};
ghost use Rattle.a68_base.specs.Tables as tables;

/// What stands beside a spelling in a table; none where the table does not have it.
pub fn find<T: Copy>(rows: &[(&str, T)], spelling: &[u8]) -> Option<T>
    ensures { result ≡ tables.find (map (λ row. (row.0.now, row.1)) rows.now) spelling.now }
{
    for (listed, meaning) in rows {
        if spelling == listed.as_bytes() {
            return Some(*meaning);
        }
    }
    None
}

/// Is a spelling one of these words?
pub fn is_listed(words: &[&str], spelling: &[u8]) -> bool
    ensures { result ≡ tables.is_listed (map (λ word. word.now) words.now) spelling.now }
{
    for word in words {
        if spelling == word.as_bytes() {
            return true;
        }
    }
    false
}
