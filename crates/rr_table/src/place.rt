//! Places of values in a table.

/// A place of a table: a row, and an index in that row.
#[derive(Clone, Copy, Debug, PartialEq, Eq)]
pub struct Place {
    /// The row, from 0 on.
    pub row: usize,
    /// The place in the row, from 0 on.
    pub index: usize,
}
