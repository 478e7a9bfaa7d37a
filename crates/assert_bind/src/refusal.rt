ghost use Rattle.std.specs.Prelude.{◌≡◌};
ghost use Rattle.assert_bind.specs.declared.refusal.BindRefusal.TheVariants as refusal;

use bt_base::Want;
use std::alloc::AllocFailed;
use thiserror::Error;

/// Why a list of assertions can't be bound to an image. Lines are those of the assertions' file, from 1.
#[derive(Clone, Copy, Debug, PartialEq, Eq, Error)]
pub enum BindRefusal {
    /// The image has no function of a name that stands in this line.
    #[error("NoName")]
    NoName { line: u32 },
    /// A place in this line has this address, at which no code stands.
    #[error("NotCode")]
    NotCode { line: u32, addr: u32 },
    /// In this line the lower end of a range is above its upper end.
    #[error("EmptyRange")]
    EmptyRange { line: u32 },
    /// This line asserts something of what the other, earlier one asserts something of already.
    #[error("Conflict")]
    Conflict { line: u32, other: u32 },
    /// Want of memory.
    #[error("Want")]
    Want,
}

impl From<Want> for BindRefusal {
    ghost from_gives = { λ _ e. e ≡ refusal.Want };

    fn from(_refused: Want) -> BindRefusal {
        BindRefusal::Want
    }
}

impl<T: Drop> From<AllocFailed<T>> for BindRefusal {
    ghost from_gives = { λ _ e. e ≡ refusal.Want };

    fn from(_refused: AllocFailed<T>) -> BindRefusal {
        BindRefusal::Want
    }
}
