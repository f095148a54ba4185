//! Whose the ways through a code are.

/// Whose ways: those of the program, which end at End, those of the routine texts whose bodies leave a value or not,
/// which end at Return, or those of the units of parallel clauses, which end at Close.
#[derive(Clone, Copy)]
pub enum Owner {
    Program,
    Texts { yields: bool },
    Units,
}
