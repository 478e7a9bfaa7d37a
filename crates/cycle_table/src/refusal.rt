use sparc_decode::CostClass;
use thiserror::Error;

/// What is wrong with a line of a table of cycles.
#[derive(Clone, Copy, Debug, PartialEq, Eq)]
pub enum Why {
    /// The first line that has words is neither `cycles 1` nor `cycles 2`.
    Header,
    /// Its first word names no class of the table's version.
    Class,
    /// Its second word is wanting, isn't decimal, or is above 1,000,000.
    Number,
    /// Something follows the number.
    Extra,
}

/// Why a text is no table of cycles. Lines are counted from 1.
#[derive(Clone, Copy, Debug, PartialEq, Eq, Error)]
pub enum CycleRefusal {
    /// A line isn't one of a table.
    #[error("Line")]
    Line { n: u32, why: Why },
    /// A class stands on an earlier line too.
    #[error("Twice")]
    Twice { class: CostClass, n: u32 },
    /// A class costs nothing.
    #[error("Zero")]
    Zero { class: CostClass, n: u32 },
    /// No line has the class.
    #[error("Missing")]
    Missing { class: CostClass },
    /// Want of memory.
    #[error("Want")]
    Want,
}
