use thiserror::Error;

/// Why a step can't be made.
#[derive(Clone, Copy, Debug, PartialEq, Eq, Error)]
pub enum Trap {
    /// No word of code is at the program counter.
    #[error("no code at the program counter")]
    Fetch,
    /// The step of this instruction isn't modelled.
    #[error("the instruction isn't modelled")]
    Unmodelled,
    /// An address isn't a multiple of its size.
    #[error("an address isn't aligned")]
    Misaligned,
    /// A store touches read-only memory.
    #[error("a store to read-only memory")]
    ReadOnlyStore,
    /// SAVE comes to an invalid window.
    #[error("window overflow")]
    Overflow,
    /// RESTORE comes to an invalid window.
    #[error("window underflow")]
    Underflow,
}
