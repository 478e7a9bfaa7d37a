ghost use Rattle.std.specs.Prelude.{◌≡◌};

use std::marker::Model;

/// A list of addresses.
#[derive(Debug, Drop)]
pub struct Addresses {
    addresses: Vec<u32>,
}

impl Model for Addresses {
    ghost use Rattle.std.specs.Prelude.{List, ℕ};

    ghost Value = { List ℕ };

    ghost view = { λ addresses. addresses.addresses.items };
}

impl Addresses {
    /// The list of these addresses.
    pub fn new(addresses: Vec<u32>) -> Addresses
        ensures { result ≡ addresses.items }
    {
        Addresses { addresses }
    }

    /// Its addresses.
    pub fn as_slice(&self) -> &[u32]
        ensures { result.now ≡ self.now }
    {
        self.addresses.as_slice()
    }
}

/// What an assertion says of the addresses of an image.
#[derive(Debug, Drop)]
pub enum BoundBody {
    /// The subprogram with this entry is to be bounded.
    Root(u32),
    /// The instruction at this address isn't reached.
    Never(u32),
    /// At the instruction at `pc` the word of the register, read with sign, is from `lo` to `hi`. Registers are
    /// from 1 to 31.
    At { pc: u32, reg: u8, lo: i32, hi: i32 },
    /// The jump at `pc` goes to one of these addresses.
    Jump { pc: u32, to: Addresses },
    /// The call at `pc` calls one of these addresses.
    CallTo { pc: u32, to: Addresses },
    /// The loop's head at `pc` is passed at most so often, from 1 to 2^62 - 1, each time that the loop is entered.
    Loop { pc: u32, count: u64 },
    /// The subprogram with this entry takes at most so many cycles, from 1 to 2^62 - 1, and isn't looked into.
    Stub { entry: u32, time: u64 },
}

/// An assertion that is bound to an image.
#[derive(Debug, Drop)]
pub struct BoundAssertion {
    /// The number of its line, from 1.
    pub line: u32,
    /// What it says.
    pub body: BoundBody,
}

/// An assertion on a loop.
#[derive(Clone, Copy, Debug, PartialEq, Eq)]
pub struct LoopLine {
    /// The number of its line, from 1.
    pub line: u32,
    /// The address of the loop's head.
    pub pc: u32,
    /// How often the head is passed at most each time that the loop is entered, from 1 to 2^62 - 1.
    pub count: u64,
}
