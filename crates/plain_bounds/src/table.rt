//! The table of plain contexts.
ghost use Rattle.std.specs.Prelude.{IfOk};
ghost use Rattle.context_inside.specs.Laws.{IsEntered};
ghost use Rattle.context_outcomes.specs.Arguments.{ArePlain};
ghost use Rattle.context_outcomes.specs.Setting.{Setting};
ghost use Rattle.plain_bounds.specs.Table.{ArePlainBounds, IsLookedUp, IsPlainBound};

use abs_state::Args;
use bt_base::Want;
use context_list::copy_args;
use std::alloc::Global;

/// Of each subprogram that is a root, or is called and no stub, what its plain context is entered with, and the bound of that.
#[derive(Debug, Drop)]
pub struct PlainBounds {
    /// The entry addresses of these subprograms, rising.
    pub subs: Vec<u32>,
    /// The arguments of the plain context of each, 13 in all.
    pub arguments: Vec<Args>,
    /// The most cycles that a call of each spends, whatever it is called with; none where the subprogram isn't plain.
    pub bounds: Vec<Option<u64>>,
}

impl PlainBounds {
    /// The bound of the plain context of a subprogram that is a root, or is called and no stub, in cycles: none where it isn't
    /// plain.
    pub fn bound_of(&self, sub: u32) -> Option<u64>
        requires { IsLookedUp self.now sub }
        ensures { (S : Setting) → ArePlainBounds S self.now → IsEntered S sub → IsPlainBound S sub result }
    {
        match self.subs.binary_search(&sub) {
            Ok(number) => self.bounds[number],
            Err(_) => unreachable!(),
        }
    }

    /// The arguments of the plain context of a subprogram that is a root, or is called and no stub: what holds of those of all
    /// its calls.
    pub fn arguments_of(&self, alloc: Global, sub: u32) -> Result<Args, Want>
        requires { IsLookedUp self.now sub }
        ensures { (S : Setting) → ArePlainBounds S self.now → IsEntered S sub → IfOk result (ArePlain S sub) }
    {
        match self.subs.binary_search(&sub) {
            Ok(number) => copy_args(alloc, &self.arguments[number]),
            Err(_) => unreachable!(),
        }
    }
}
