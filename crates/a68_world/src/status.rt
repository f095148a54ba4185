//! Where a strand is.

/// Where a strand is.
#[derive(Clone, Copy)]
pub enum StrandState {
    /// It stands in the world.
    Home,
    /// It is lent.
    Lent,
    /// It found no memory.
    Spent,
}
