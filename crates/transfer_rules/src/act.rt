use crate::Step;
use abs_state::{GapKind, Right};

/// When a direction of a branch is taken.
#[derive(Clone, Copy, Debug, PartialEq, Eq)]
pub enum Test {
    /// Whatever the condition codes are.
    Always,
    /// Where a condition of the integer unit is true, or is false.
    When {
        /// The condition, below 16 (SPARC Architecture Manual Version 7, "Branch on Integer Condition Codes").
        condition: u8,
        /// Whether it is true.
        truth: bool,
    },
}

/// A direction of a branch.
#[derive(Clone, Copy, Debug, PartialEq, Eq)]
pub struct Exit {
    /// The address of the instruction that is executed next.
    pub pc: u32,
    /// The address of the one after that.
    pub npc: u32,
    /// When it is taken.
    pub test: Test,
}

/// The addresses that a computed transfer may go to, where no assertion lists them.
#[derive(Clone, Copy, Debug, PartialEq, Eq)]
pub enum Candidates {
    /// The functions whose entries stand in words, but the address behind the delay instruction.
    Functions,
    /// The labels within the extent of the transfer's address.
    Labels,
}

/// Where a transfer goes.
#[derive(Clone, Copy, Debug, PartialEq, Eq)]
pub enum Aim {
    /// To an address.
    Fixed(u32),
    /// To the sum of two operands, in the state before the instruction.
    Computed {
        /// The left operand of the sum.
        left: Right,
        /// The right operand of the sum.
        right: Right,
        /// The addresses that it may be.
        candidates: Candidates,
    },
}

/// How control goes on behind an instruction.
#[derive(Clone, Copy, Debug, PartialEq, Eq)]
pub enum Way {
    /// To where it was to go.
    Onward,
    /// In one of two directions.
    Forks {
        /// The one, if there is one.
        first: Option<Exit>,
        /// The other, if there is one.
        second: Option<Exit>,
    },
    /// Into a subprogram, once the delay instruction is done.
    CallsTo(Aim),
    /// To an address, once the delay instruction is done.
    JumpsTo(Aim),
    /// Back to the caller, once the delay instruction is done, where this cell has the return address.
    ReturnsBy(u8),
}

/// What the instruction of a program point does.
#[derive(Clone, Copy, Debug, PartialEq, Eq)]
pub enum Act {
    /// Nothing: control doesn't come there.
    Dead,
    /// Something that the analysis doesn't follow.
    Open(GapKind),
    /// A step over the cells, and then it goes on.
    Acts {
        /// The step.
        step: Step,
        /// How it goes on.
        way: Way,
    },
}
