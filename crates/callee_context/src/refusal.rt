ghost use Rattle.std.specs.Prelude.{◌≡◌};
ghost use Rattle.callee_context.specs.declared.refusal.ContextRefusal.TheVariants as refusal;

use bt_base::Want;
use thiserror::Error;

/// Why the contexts of a program aren't told.
#[derive(Clone, Copy, Debug, PartialEq, Eq, Error)]
pub enum ContextRefusal {
    /// No loop matches that of an assertion: its address is that of no loop's head, and of no program point in a
    /// subprogram with a part that is entered at two. The line is the least of such assertions.
    #[error("Unmatched")]
    Unmatched { line: u32 },
    /// More contexts are needed than 4,096. The count is 4,097.
    #[error("TooMany")]
    TooMany { count: u64 },
    /// Want of memory.
    #[error("Want")]
    Want,
}

impl From<Want> for ContextRefusal {
    ghost from_gives = { λ _ e. e ≡ refusal.Want };

    fn from(_refused: Want) -> ContextRefusal {
        ContextRefusal::Want
    }
}
