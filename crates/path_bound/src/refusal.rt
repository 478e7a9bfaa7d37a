ghost use Rattle.std.specs.Prelude.{◌≡◌};
ghost use Rattle.path_bound.specs.declared.refusal.PathRefusal.TheVariants as refusal;

use bt_base::Want;
use thiserror::Error;

/// Why there is no greatest cost.
#[derive(Clone, Copy, Debug, PartialEq, Eq, Error)]
pub enum PathRefusal {
    /// The greatest cost is more than 2^63 - 1. The node is the least head of the loops whose own greatest cost is more
    /// than that while that of no loop inside is, or the entry where there is none. A loop's own greatest cost is that of
    /// the walks inside its body from its head that keep the bounds.
    #[error("TooLarge")]
    TooLarge { node: u32 },
    /// Want of memory.
    #[error("Want")]
    Want,
}

impl From<Want> for PathRefusal {
    ghost from_gives = { λ _ e. e ≡ refusal.Want };

    fn from(_refused: Want) -> PathRefusal {
        PathRefusal::Want
    }
}
