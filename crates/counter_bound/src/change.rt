use call_effects::Mask;

/// What a node changes in the cells.
#[derive(Clone, Copy, Debug, PartialEq, Eq)]
pub enum Change {
    /// It adds a number to one cell, from 1 to 47, and changes no other.
    Add {
        /// The cell.
        cell: u8,
        /// What is added, and never passes the ends of the numbers with sign.
        k: i32,
    },
    /// Any change of these cells.
    Other(Mask),
}
