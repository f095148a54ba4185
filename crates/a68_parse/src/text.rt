//! The symbols of a text as the grammar tells them apart.
ghost use Rattle.std.specs.Prelude.{◌≡◌, IfOk};
ghost use Rattle.a68_parse.specs.Texts as spec;

use a68_base::NoMemory;
use a68_symbols::{Sym, Symbols, Token, syms};
use a68_words::{Class, Classed};
use std::alloc::Global;

// A word that is not reserved is a mode or an operator, by its class.
fn with_class(sym: Sym, class: Option<Class>) -> Sym
    ensures { result ≡ spec.with_class sym class }
{
    match (sym, class) {
        (Sym::Is(Token::Word), Some(Class::ModeWord)) => Sym::Is(Token::ModeWord),
        (Sym::Is(Token::Word), Some(Class::OperatorWord)) => Sym::Is(Token::Monad),
        _ => sym,
    }
}

/// The symbols of a text as the grammar tells them apart, in order.
pub fn text(alloc: Global, symbols: &Symbols, classes: &Classed) -> Result<Vec<Sym>, NoMemory>
    ensures { IfOk result (λ list. list.items ≡ spec.text_of symbols.now classes.now) }
{
    let all = syms(alloc, symbols)?;
    let mut list = Vec::new(alloc);
    let mut rest = all.as_slice();
    let mut more = classes.as_slice();
    while let Some((sym, after)) = rest.split_first() {
        let Some((class, behind)) = more.split_first() else {
            return Ok(list);
        };
        list.push(with_class(*sym, *class))?;
        rest = after;
        more = behind;
    }
    Ok(list)
}
