//! Plain values taken out of values and cells, and rows in words.
use a68_values::{Descriptor, Dim, Held, Plain, Value};
use std::string::String;

/// A value that fits one cell; Unset where it is none.
pub fn plain(value: &Value) -> Plain {
    value.plain().unwrap_or(Plain::Unset)
}

/// What a cell holds, where it is a plain value.
pub fn plain_in(held: &Held) -> Option<Plain> {
    match held {
        Held::Plain(plain) => Some(*plain),
        _ => None,
    }
}

/// Makes a text grow by a row in the store: the cell of its first element, and the bounds and the stride of each dimension.
pub fn tell_row(text: &mut String, row: &Descriptor) -> Option<()> {
    let base = row.base;
    write!(text, "at {base}").ok()?;
    for dim in row.dims.as_slice() {
        let Dim {
            lower,
            upper,
            stride,
        } = *dim;
        write!(text, " {lower}:{upper}/{stride}").ok()?;
    }
    Some(())
}
