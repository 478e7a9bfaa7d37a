ghost use Rattle.std.specs.Prelude.{◌≡◌};

use crate::context::Context;
use crate::loops::Loops;
use crate::reason::Reasons;
use std::marker::Model;

/// What the analysis comes to for a subprogram in a context.
#[derive(Debug, Drop)]
pub struct Outcome {
    /// The entry of the subprogram.
    pub sub: u32,
    /// What is known of its arguments.
    pub context: Context,
    /// Its loops, where each is entered at one program point; none where some part is entered at two.
    pub loops: Loops,
    /// Why there is no bound.
    pub reasons: Reasons,
    /// The most cycles that a call spends.
    pub bound: Option<u64>,
}

/// Outcomes in some order.
#[derive(Debug, Drop)]
pub struct OutcomeList {
    list: Vec<Outcome>,
}

impl Model for OutcomeList {
    ghost use Rattle.std.specs.Prelude.{List};
    ghost use Rattle.wcet_report.specs.declared.outcome.Outcome.{Outcome};

    ghost Value = { List Outcome };

    ghost view = { λ outcomes. outcomes.list.items };
}

impl OutcomeList {
    /// The list of these outcomes.
    pub fn new(list: Vec<Outcome>) -> OutcomeList
        ensures { result ≡ list.items }
    {
        OutcomeList { list }
    }

    /// Its outcomes.
    pub fn as_slice(&self) -> &[Outcome]
        ensures { result.now ≡ self.now }
    {
        self.list.as_slice()
    }
}

/// The entries of roots, in their order.
#[derive(Debug, Drop)]
pub struct Roots {
    list: Vec<u32>,
}

impl Model for Roots {
    ghost use Rattle.std.specs.Prelude.{List, ℕ};

    ghost Value = { List ℕ };

    ghost view = { λ roots. roots.list.items };
}

impl Roots {
    /// The list of these entries.
    pub fn new(list: Vec<u32>) -> Roots
        ensures { result ≡ list.items }
    {
        Roots { list }
    }

    /// Its entries.
    pub fn as_slice(&self) -> &[u32]
        ensures { result.now ≡ self.now }
    {
        self.list.as_slice()
    }
}

/// What the analysis comes to: the roots, and the outcome of each context that is needed for them.
#[derive(Debug, Drop)]
pub struct Outcomes {
    /// The roots, in the order of the assertions.
    pub roots: Roots,
    /// The outcomes.
    pub list: OutcomeList,
}
