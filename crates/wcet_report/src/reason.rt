ghost use Rattle.std.specs.Prelude.{◌≡◌};

use abs_state::Place;
use std::marker::Model;

/// Why a context has no bound.
#[derive(Clone, Copy, Debug, PartialEq, Eq, PartialOrd, Ord)]
pub enum Reason {
    /// A computed jump at this address, whose targets aren't all known.
    Jump(u32),
    /// A computed call at this address, whose callees aren't all known.
    Call(u32),
    /// An instruction at this address, which isn't modelled.
    Instr(u32),
    /// A loop with this head, whose passes have no bound.
    Loop(Place),
    /// A part of the graph that is entered at both of these program points.
    Irreducible(Place, Place),
    /// A call whose callee has no bound.
    Callee {
        /// The address of the call.
        call: u32,
        /// The entry of the callee.
        callee: u32,
    },
    /// A call at this address within a cycle of calls.
    Recursion(u32),
    /// So many register windows are wanted below that of the entry, more than there are.
    Windows(u32),
    /// The bound passes 2^63 - 1, first at this program point.
    TooLarge(Place),
}

/// The reasons of a context, in their order.
#[derive(Debug, Drop)]
pub struct Reasons {
    list: Vec<Reason>,
}

impl Model for Reasons {
    ghost use Rattle.std.specs.Prelude.{List};
    ghost use Rattle.wcet_report.specs.declared.reason.Reason.{Reason};

    ghost Value = { List Reason };

    ghost view = { λ reasons. reasons.list.items };
}

impl Reasons {
    /// The list of these reasons.
    pub fn new(list: Vec<Reason>) -> Reasons
        ensures { result ≡ list.items }
    {
        Reasons { list }
    }

    /// Its reasons.
    pub fn as_slice(&self) -> &[Reason]
        ensures { result.now ≡ self.now }
    {
        self.list.as_slice()
    }

    /// Its reasons, without taking memory.
    pub fn into_vec(self) -> Vec<Reason>
        ensures { result.items ≡ self }
    {
        self.list
    }
}
