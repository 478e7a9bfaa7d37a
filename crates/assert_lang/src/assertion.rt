ghost use Rattle.std.specs.Prelude.{◌≡◌};

use crate::{Spot, Spots};
use std::marker::Model;

/// What a statement asserts.
#[derive(Debug, Drop)]
pub enum Body {
    /// A subprogram to be bounded.
    Root(Spot),
    /// An instruction that isn't reached.
    Never(Spot),
    /// At an instruction a register's word, read with sign, is from `lo` to `hi`. Registers are from 1 to 31.
    At {
        spot: Spot,
        reg: u8,
        lo: i32,
        hi: i32,
    },
    /// A jump goes to one of these places.
    Jump {
        spot: Spot,
        to: Spots,
    },
    /// A call calls one of these places.
    CallTo {
        spot: Spot,
        to: Spots,
    },
    /// A loop's head is passed at most so often, from 1 to 2^62 - 1, each time that the loop is entered.
    Loop {
        spot: Spot,
        count: u64,
    },
    /// A subprogram takes at most so many cycles, from 1 to 2^62 - 1, and isn't looked into.
    Stub {
        spot: Spot,
        time: u64,
    },
}

/// A statement of an assertion file.
#[derive(Debug, Drop)]
pub struct Assertion {
    /// The number of its line, from 1.
    pub line: u32,
    /// What it asserts.
    pub body: Body,
}

/// The statements of an assertion file, in its order.
#[derive(Debug, Drop)]
pub struct Assertions {
    list: Vec<Assertion>,
}

impl Model for Assertions {
    ghost use Rattle.std.specs.Prelude.{List};
    ghost use Rattle.assert_lang.specs.declared.assertion.Assertion.{Assertion};

    ghost Value = { List Assertion };

    ghost view = { λ assertions. assertions.list.items };
}

impl Assertions {
    /// The list of these statements.
    pub fn new(list: Vec<Assertion>) -> Assertions
        ensures { result ≡ list.items }
    {
        Assertions { list }
    }

    /// Its statements.
    pub fn as_slice(&self) -> &[Assertion]
        ensures { result.now ≡ self.now }
    {
        self.list.as_slice()
    }

    /// Its statements, without taking memory.
    pub fn into_vec(self) -> Vec<Assertion>
        ensures { result.items ≡ self }
    {
        self.list
    }
}
