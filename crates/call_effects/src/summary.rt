ghost use Rattle.std.specs.Prelude.{◌≡◌};
ghost use Rattle.call_effects.specs.Summary.{joined, is_at_most, effects_of_stub};

use crate::Mask;
use crate::mask::stub_mask;

/// What a subprogram may do to its caller.
#[derive(Clone, Copy, Debug, PartialEq, Eq)]
pub struct Summary {
    /// Whether it may return to the address behind the delay instruction of the call.
    pub returns: bool,
    /// Whether it may return to the address after that, past an UNIMP word, as functions that return a structure do
    /// (System V ABI, SPARC supplement, "Functions Returning Structures").
    pub skips: bool,
    /// Its cells that it may write.
    pub written: Mask,
}

impl Summary {
    /// What two summaries say together: each truth value is true where one is, and the cells are those of both.
    pub fn join(self, other: Summary) -> Summary
        ensures { result ≡ joined self other }
    {
        Summary {
            returns: self.returns || other.returns,
            skips: self.skips || other.skips,
            written: self.written.join(other.written),
        }
    }

    /// Whether each truth value that is true is true of the other, and each cell is one of the other's.
    pub fn at_most(self, other: Summary) -> bool
        ensures { result ≡ is_at_most self other }
    {
        (!self.returns || other.returns)
            && (!self.skips || other.skips)
            && self.written.within(other.written)
    }
}

/// What a stub may do: it returns, doesn't skip, and may write cells 1 to 15 and 32 to 47.
pub fn stub_summary() -> Summary
    ensures { result ≡ effects_of_stub }
{
    Summary {
        returns: true,
        skips: false,
        written: stub_mask(),
    }
}
