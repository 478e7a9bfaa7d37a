ghost use Rattle.std.specs.Prelude.{◌≡◌};
ghost use Rattle.loop_nest.specs.declared.refusal.NestRefusal.TheVariants as refusal;

use bt_base::Want;
use thiserror::Error;

/// Why a graph has no nest.
#[derive(Clone, Copy, Debug, PartialEq, Eq, Error)]
pub enum NestRefusal {
    /// The two least entered nodes of the first cyclic part that has two: outer levels come first, then the part with
    /// the least node.
    #[error("TwoEntries")]
    TwoEntries { x: u32, y: u32 },
    /// Want of memory.
    #[error("Want")]
    Want,
}

impl From<Want> for NestRefusal {
    ghost from_gives = { λ _ e. e ≡ refusal.Want };

    fn from(_refused: Want) -> NestRefusal {
        NestRefusal::Want
    }
}
