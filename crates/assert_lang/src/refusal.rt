ghost use Rattle.std.specs.Prelude.{◌≡◌};
ghost use Rattle.assert_lang.specs.declared.refusal.AssertRefusal.TheVariants as refusal;
ghost use Rattle.assert_lang.specs.declared.refusal.Fault.TheVariants as fault;

use bt_base::Want;
use std::alloc::AllocFailed;
use thiserror::Error;

/// What a word of a line was to be.
#[derive(Clone, Copy, Debug, PartialEq, Eq)]
pub enum Expected {
    /// The first word of a statement: `root`, `never`, `at`, `jump`, `call`, `loop` or `stub`.
    Keyword,
    /// A name, a name with an offset, or an address.
    Place,
    /// An integer register other than `%g0`.
    Register,
    /// Two integers of 32 bits with `..` between them.
    Range,
    /// The word `to`.
    To,
    /// The word `repeats`.
    Repeats,
    /// The word `time`.
    Time,
    /// A number from 1 to 2^62 - 1.
    Count,
    /// Nothing more; or, after a place of a list, nothing more or a comma.
    End,
}

/// Why a text is no list of assertions. Lines and columns are counted from 1, columns in bytes.
#[derive(Clone, Copy, Debug, PartialEq, Eq, Error)]
pub enum AssertRefusal {
    /// Line `n` is no statement: the word at `column` isn't what was expected there, or a word is wanting at
    /// `column`, which is one past the line's last byte before a comment.
    #[error("Line")]
    Line {
        n: u32,
        column: u32,
        expected: Expected,
    },
    /// The text has a statement more than there may be: it is the one of this count.
    #[error("Limit")]
    Limit {
        count: u32,
    },
    /// Want of memory.
    #[error("Want")]
    Want,
}

impl<T: Drop> From<AllocFailed<T>> for AssertRefusal {
    ghost from_gives = { λ _ e. e ≡ refusal.Want };

    fn from(_refused: AllocFailed<T>) -> AssertRefusal {
        AssertRefusal::Want
    }
}

/// Why a line gives no statement.
#[derive(Clone, Copy, Debug, PartialEq, Eq)]
pub enum Fault {
    /// The word at this column isn't what was expected there, or is wanting.
    Misfit { column: u32, expected: Expected },
    /// Want of memory.
    Want,
}

impl From<Want> for Fault {
    ghost from_gives = { λ _ e. e ≡ fault.Want };

    fn from(_refused: Want) -> Fault {
        Fault::Want
    }
}

impl<T: Drop> From<AllocFailed<T>> for Fault {
    ghost from_gives = { λ _ e. e ≡ fault.Want };

    fn from(_refused: AllocFailed<T>) -> Fault {
        Fault::Want
    }
}
