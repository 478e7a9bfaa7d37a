ghost use Rattle.std.specs.Prelude.{◌≡◌, ℕ, ◌<◌, true, List, IfOk};
ghost use Rattle.abs_state.specs.State.{is_state_over};
ghost use Rattle.transfer_rules.specs.Family.{Family, Program};
ghost use Rattle.transfer_rules.specs.Lawful.{is_over_or_none};
ghost use Rattle.transfer_rules.specs.declared.step.Step.{Step as AnyStep};
ghost use Rattle.transfer_rules.specs.declared.act.Way.{Way};
ghost use Rattle.transfer_rules.specs.declared.act.Act.TheVariants.{Acts};

use abs_state::{AbsState, Place};
use bt_base::Want;
use jump_resolve::Resolved;
use std::alloc::Global;
use transfer_rules::{Act, Aim, Step, Test};

/// What is read off a program, and functions that compute with states over thresholds.
pub trait Transfers {
    ghost thresholds: { Self → List ℕ };

    ghost family: { Self → Family };

    ghost program: { Self → Program };

    /// What the instruction of a place does.
    fn act(&self, p: Place) -> Act
        requires { p.depth < 2 }
        ensures value { result ≡ (program self.now).act p }
        ensures shallow { (step : AnyStep) (way : Way) → result ≡ Acts step way → step.depth < 2 };

    /// Whether the subprogram at an entry is a stub.
    fn is_stub(&self, entry: u32) -> bool
        ensures { result ≡ (program self.now).is_stub entry };

    /// Whether the delay instruction of a return at a place is that of one that skips a word.
    fn skips(&self, p: Place) -> bool
        ensures { result ≡ (program self.now).skips p };

    /// What is left of a state where the assertions at its place hold.
    fn narrow(&self, alloc: Global, p: Place, s: &AbsState) -> Result<Option<AbsState>, Want>
        requires depth { p.depth < 2 }
        requires over { is_state_over (thresholds self.now) s.now ≡ true }
        ensures value { IfOk result (λ left. left ≡ (family self.now).narrow p s.now) }
        ensures over { IfOk result (λ left. is_over_or_none (thresholds self.now) left ≡ true) };

    /// The state behind a step; none where no run takes it.
    fn step(&self, alloc: Global, step: Step, s: AbsState) -> Result<Option<AbsState>, Want>
        requires { is_state_over (thresholds self.now) s ≡ true }
        ensures value { IfOk result (λ after. after ≡ (family self.now).step step s) }
        ensures over { IfOk result (λ after. is_over_or_none (thresholds self.now) after ≡ true) };

    /// What is left of a state where a branch takes a direction.
    fn test(&self, alloc: Global, test: Test, s: &AbsState) -> Result<Option<AbsState>, Want>
        requires { is_state_over (thresholds self.now) s.now ≡ true }
        ensures { IfOk result (λ left. left ≡ (family self.now).test test s.now) };

    /// Where the transfer at an address goes, of the state before it.
    fn resolve(&self, alloc: Global, pc: u32, aim: Aim, s: &AbsState) -> Result<Resolved, Want>
        requires { is_state_over (thresholds self.now) s.now ≡ true }
        ensures { IfOk result (λ targets. targets ≡ (family self.now).resolve pc aim s.now) };
}
