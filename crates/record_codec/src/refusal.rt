//! Why bytes gave no row.

/// Why bytes gave no row.
#[derive(Clone, Copy, PartialEq, Eq)]
pub enum RowRefusal {
    /// The bytes are no row's spelling.
    Damaged,
    /// Memory ran out.
    NoMemory,
}
