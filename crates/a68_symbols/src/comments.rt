//! Comments and pragmats, and where they end.
ghost use Rattle.std.specs.Prelude.{◌≡◌, length, map, MatchOption};
ghost use Rattle.a68_symbols.specs.Forms.{IsWholeWord};
ghost use Rattle.a68_symbols.specs.Runs.{NoSharp, IsNextSharp, IsFirstAgain, NeverAgain};
ghost use Rattle.a68_symbols.specs.Words as words;

use crate::runs::run_end;
use a68_base::is_listed;

/// The place of the first `#` behind the first byte.
pub fn next_sharp(text: &[u8]) -> Option<usize>
    ensures { MatchOption result (NoSharp text.now (length text.now)) (λ n. IsNextSharp text.now n) }
{
    let mut n = 1;
    while n < text.len() {
        if text[n] == b'#' {
            return Some(n);
        }
        n += 1;
    }
    None
}

/// The first place behind the word that begins the text at which it stands again as a whole word. The word has `width`
/// bytes.
pub fn first_again(text: &[u8], width: usize) -> Option<usize>
    requires { IsWholeWord text.now 0 width }
    ensures { MatchOption result (NeverAgain text.now width) (λ at. IsFirstAgain text.now width at) }
{
    let mut at = width;
    while at < text.len() {
        let end = run_end(text, at);
        if text[at..end] == text[..width] {
            return Some(at);
        }
        at = end.max(at + 1);
    }
    None
}

// The words that begin and end comments and pragmats.
fn openers() -> &'static [&'static str]
    ensures { map (λ word. word.now) result.now ≡ words.openers }
{
    &["CO", "COMMENT", "PR", "PRAGMAT"]
}

/// Does the word begin a comment or a pragmat?
pub fn is_opener(word: &[u8]) -> bool
    ensures { result ≡ words.is_opener word.now }
{
    is_listed(openers(), word)
}
