//! The symbol at which a number of symbols from the end begins.
use crate::table::holds;
use a68_parse::place;
use a68_symbols::symbols;
use std::panic::Expect;

#[test]
fn places(rt: HostRuntime) {
    let found = symbols(rt.alloc(), b"a  IS b").expect(&rt, "symbols");
    holds(&rt, place(&found, 2, 7) == 3, "the second symbol");
    holds(&rt, place(&found, 0, 7) == 7, "the end");
    drop(found);
}
