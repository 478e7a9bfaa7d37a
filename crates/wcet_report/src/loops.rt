ghost use Rattle.std.specs.Prelude.{◌≡◌};

use abs_state::{HeadBound, Place};
use std::marker::Model;

/// What bounds the passes through the head of a loop, from one entry into the loop to the next.
#[derive(Clone, Copy, Debug, PartialEq, Eq)]
pub enum By {
    /// A cell that each turn changes.
    Counter(HeadBound),
    /// An asserted number of passes.
    Asserted(u64),
    /// Nothing.
    Nothing,
}

/// A loop, and what bounds it.
#[derive(Clone, Copy, Debug, PartialEq, Eq)]
pub struct LoopOutcome {
    /// The program point at which the loop is entered.
    pub head: Place,
    /// What bounds the passes through it.
    pub by: By,
}

/// The loops of a context.
#[derive(Debug, Drop)]
pub struct Loops {
    list: Vec<LoopOutcome>,
}

impl Model for Loops {
    ghost use Rattle.std.specs.Prelude.{List};
    ghost use Rattle.wcet_report.specs.declared.loops.LoopOutcome.{LoopOutcome};

    ghost Value = { List LoopOutcome };

    ghost view = { λ loops. loops.list.items };
}

impl Loops {
    /// The list of these loops.
    pub fn new(list: Vec<LoopOutcome>) -> Loops
        ensures { result ≡ list.items }
    {
        Loops { list }
    }

    /// Its loops.
    pub fn as_slice(&self) -> &[LoopOutcome]
        ensures { result.now ≡ self.now }
    {
        self.list.as_slice()
    }

    /// Its loops, without taking memory.
    pub fn into_vec(self) -> Vec<LoopOutcome>
        ensures { result.items ≡ self }
    {
        self.list
    }
}
