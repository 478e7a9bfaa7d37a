/// The right side of a comparison.
#[derive(Clone, Copy, Debug, PartialEq, Eq)]
pub enum Right {
    /// The content of a cell.
    Cell(u8),
    /// A word.
    Word(u32),
}

/// What the condition codes are known to be.
#[derive(Clone, Copy, Debug, PartialEq, Eq)]
pub enum Flags {
    /// Nothing is known.
    Unknown,
    /// N, Z, V and C are those of the content of a cell minus the right side.
    Cmp {
        /// The cell on the left.
        left: u8,
        /// What is taken from it.
        right: Right,
    },
    /// N and Z are those of the content of a cell.
    Res {
        /// The cell.
        cell: u8,
    },
}
