use abs_state::{Flags, Right};
use value_ops::Op;

/// What an instruction writes into a cell.
#[derive(Clone, Copy, Debug, PartialEq, Eq)]
pub enum Source {
    /// Any word: what comes from the Y register or from memory that may change, as of MULSCC, RDY, LDD and SWAP.
    Anything,
    /// This word.
    Exactly(u32),
    /// A word that is, read with sign, from `lo` to `hi`: a byte or a halfword of memory.
    Ranged {
        /// The least.
        lo: i32,
        /// The greatest, which isn't below the least.
        hi: i32,
    },
    /// The result of an operation on two operands.
    Applied {
        /// The operation.
        op: Op,
        /// Its left operand.
        left: Right,
        /// Its right operand.
        right: Right,
    },
    /// The word of memory at the sum of two operands. Where this sum is no multiple of 4, no run goes on.
    Loaded {
        /// The left operand of the sum.
        left: Right,
        /// The right operand of the sum.
        right: Right,
    },
}

/// A cell that an instruction writes, below 48, and what into it. Cell 0 stays: of what goes there only matters
/// whether a run goes on.
#[derive(Clone, Copy, Debug, PartialEq, Eq)]
pub struct Write {
    /// The cell.
    pub cell: u8,
    /// What is written.
    pub source: Source,
}

/// What an instruction does to what is known. All sources are computed from the state before it; a cell that the flags
/// then speak of and that is the return address becomes any word.
#[derive(Clone, Copy, Debug, PartialEq, Eq)]
pub struct Step {
    /// The depth of the window after it.
    pub depth: u8,
    /// What it writes.
    pub first: Option<Write>,
    /// What it writes besides.
    pub second: Option<Write>,
    /// What the condition codes then are those of, where it changes them.
    pub flags: Option<Flags>,
}
