//! A text that is laid out anew is the same text.
ghost use Rattle.a68_lister.specs.Relists.{Relisting};

/// A law: a text with a tree that is laid out anew has its symbols, of the same kinds and spellings one by one, and laid out
/// once more it stays as it is; where the listing has no more bytes than a text may have.
pub fn listings_keep_the_symbols()
    ensures { Relisting }
{}
