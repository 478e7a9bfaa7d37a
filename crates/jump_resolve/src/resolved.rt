ghost use Rattle.std.specs.Prelude.{◌≡◌};

use std::marker::Model;

/// A list of addresses. Contracts see the list.
#[derive(Debug, Drop)]
pub struct TargetList {
    addresses: Vec<u32>,
}

impl Model for TargetList {
    ghost use Rattle.std.specs.Prelude.{List, ℕ};

    ghost Value = { List ℕ };

    ghost view = { λ targets. targets.addresses.items };
}

impl TargetList {
    /// The list of these addresses.
    pub fn new(addresses: Vec<u32>) -> TargetList
        ensures { result ≡ addresses.items }
    {
        TargetList { addresses }
    }

    /// Its addresses.
    pub fn as_slice(&self) -> &[u32]
        ensures { result.now ≡ self.now }
    {
        self.addresses.as_slice()
    }
}

/// Where a computed jump or call may go.
#[derive(Debug, Drop)]
pub struct Resolved {
    /// The addresses of code among the candidates that it may go to, rising.
    pub list: TargetList,
    /// Whether it may go nowhere else.
    pub whole: bool,
}
