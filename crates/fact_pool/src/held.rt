ghost use Rattle.std.specs.Prelude.{◌≡◌, IfOk, IfErr, IfSome, IfNone, OnErr};
ghost use Rattle.flow_system.specs.Laws.{IsLawful};
ghost use Rattle.flow_core.specs.Claim.{IsClaimOf, IsAnswerOf};
ghost use Rattle.flow_core.specs.Core.{IsGood, IsGrowth, IsPending, IsUnchanged};
ghost use Rattle.flow_core.specs.Event.{Merges, Takes, without_claim};
ghost use Rattle.flow_core.specs.Refusal.{IsPassing, IsTooBig};
ghost use Rattle.fact_pool.specs.Held.{IsHeld};

use bt_base::Want;
use flow_core::{Answer, Claim, Core, GrowRefusal};
use flow_system::{Name, System};
use std::alloc::Global;
use std::marker::{Model, PhantomData};

/// A core whose type keeps that it is good for the named system and has the named limit.
///
/// Contracts see the core's state. Each call that is given a system has the condition that it is the one named. The
/// calls have the clauses of the core's calls, so what they answer is exact for the core that is held.
pub struct Held<S: System, N: Name<S::Key, S::Val>> {
    core: Core<S>,
    name: PhantomData<N>,
}

impl<S: System, N: Name<S::Key, S::Val>> Model for Held<S, N> {
    ghost use Rattle.flow_core.specs.Core.{CoreState};
    ghost use Rattle.fact_pool.specs.Held.{IsHeld};

    ghost Value = { CoreState S.Key S.Val };

    ghost view = { λ h. h.core };

    ghost invariant = { λ h. IsHeld S.Key.cmp N.rules N.limit h.core };
}

impl<S: System, N: Name<S::Key, S::Val>> Drop for Held<S, N> {
    fn drop(self) {
        let Held { core: _, name: _ } = self;
    }
}

impl<S: System, N: Name<S::Key, S::Val>> Held<S, N> {
    /// A core as the lock keeps it: it is good for the named system, which is lawful, and has the named limit.
    pub(crate) fn new(core: Core<S>) -> Held<S, N>
        requires lawful { IsLawful S.Key.cmp N.rules }
        requires good { IsGood S.Key.cmp N.rules core }
        requires limit { core.limit ≡ N.limit }
        ensures { result ≡ core }
    {
        Held {
            core,
            name: PhantomData,
        }
    }

    /// Takes the least pending key out to be looked at, with copies of the facts that it reads; None exactly where
    /// nothing is pending. Want, and None, leave the core as it was.
    pub fn take(&mut self, alloc: Global, system: &S, worker: u32) -> Result<Option<Claim<S>>, Want>
        requires named { S.rules system.now ≡ N.rules }
        ensures taken { IfOk result (λ taken. IfSome taken (λ claim. Takes S.Key.cmp N.rules self.old claim self.new)) }
        ensures of { IfOk result (λ taken. IfSome taken (IsClaimOf S.Key.cmp N.rules)) }
        ensures none { IfOk result (λ taken. IfNone taken ((k : S.Key) → IsPending S.Key.cmp self.old k → ⊥)) }
        ensures same { IfOk result (λ taken. IfNone taken (self.new ≡ self.old)) }
        ensures unchanged { OnErr result (self.new ≡ self.old) }
        ensures growth { IsGrowth S.Key.cmp N.rules self.old self.new }
        ensures held { IsHeld S.Key.cmp N.rules N.limit self.new }
    {
        self.core.take(alloc, system, worker)
    }

    /// Joins an answer's pieces to the facts, and ends its claim. It answers how many facts grew.
    ///
    /// Nodes comes exactly where the counted keys would pass the limit; then the due graph has more of them than the
    /// limit. A refusal hands the answer back, and all is as before.
    pub fn merge(
        &mut self,
        alloc: Global,
        system: &S,
        answer: Answer<S>,
    ) -> Result<usize, (Answer<S>, GrowRefusal)>
        requires named { S.rules system.now ≡ N.rules }
        requires of { IsAnswerOf S.Key.cmp N.rules answer }
        ensures merged { IfOk result (Merges S.Key.cmp N.rules self.old answer self.new) }
        ensures handed_back { IfErr result (λ refused. refused.0 ≡ answer) }
        ensures unchanged { OnErr result (IsUnchanged S.Key.cmp N.rules self.old self.new) }
        ensures nodes { IfErr result (λ refused. IsPassing S.Key.cmp N.rules self.old.facts answer.pieces N.limit refused.1) }
        ensures too_big { IfErr result (λ refused. IsTooBig S.Key.cmp N.rules N.limit refused.1) }
        ensures growth { IsGrowth S.Key.cmp N.rules self.old self.new }
        ensures held { IsHeld S.Key.cmp N.rules N.limit self.new }
    {
        self.core.merge(alloc, system, answer)
    }

    /// Ends a claim without an answer: its key, where the facts have it, is pending again.
    pub fn give_back(&mut self, claim: Claim<S>)
        ensures returned { self.new ≡ without_claim S.Key.cmp self.old claim.key }
        ensures held { IsHeld S.Key.cmp N.rules N.limit self.new }
    {
        self.core.give_back(claim);
    }

    /// The core, no longer held.
    pub(crate) fn core(self) -> Core<S>
        ensures same { result ≡ self }
        ensures held { IsHeld S.Key.cmp N.rules N.limit result }
    {
        let Held { core, name: _ } = self;
        core
    }
}
