ghost use Rattle.std.specs.Prelude.{◌≡◌};
ghost use Rattle.flow_core.specs.declared.refusals.GrowRefusal.TheVariants.{Want};

use bt_base::Want;
use thiserror::Error;

/// Why a core didn't grow.
#[derive(Clone, Copy, Debug, PartialEq, Eq, Error)]
pub enum GrowRefusal {
    /// The counted keys would pass the limit; `count` is one more than it.
    #[error("{count} nodes")]
    Nodes { count: u64 },
    #[error("out of memory")]
    Want,
}

impl From<Want> for GrowRefusal {
    ghost from_gives = { λ _ refusal. refusal ≡ Want };

    fn from(_want: Want) -> GrowRefusal {
        GrowRefusal::Want
    }
}
