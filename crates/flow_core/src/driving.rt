ghost use Rattle.std.specs.Prelude.{◌≡◌, ◌≤◌, ◌<◌, [], IfOk, IfErr, OnOk, true, false};
ghost use Rattle.flow_system.specs.Facts.{fact_at};
ghost use Rattle.flow_system.specs.State.{IsBelow, IsDueGraph};
ghost use Rattle.flow_core.specs.Core.{IsGood, IsIdle, IsPending, counted_keys};
ghost use Rattle.flow_core.specs.Refusal.{IsTooBig};

use crate::cores::Core;
use crate::refusals::GrowRefusal;
use flow_system::System;
use std::alloc::Global;

/// Takes the least pending key, works it out and merges what it gives; false where nothing is pending.
fn step<S: System>(alloc: Global, core: &mut Core<S>, system: &S) -> Result<bool, GrowRefusal>
    requires good { IsGood S.Key.cmp (S.rules system.now) core.old }
    requires none_out { core.old.out ≡ [] }
    ensures good { IsGood S.Key.cmp (S.rules system.now) core.new }
    ensures none_out { OnOk result (core.new.out ≡ []) }
    ensures done { IfOk result (λ more. more ≡ false → (k : S.Key) → IsPending S.Key.cmp core.new k → ⊥) }
    ensures grows { IsBelow (S.rules system.now) (fact_at S.Key.cmp core.old.facts) (fact_at S.Key.cmp core.new.facts) }
    ensures limit { core.new.limit ≡ core.old.limit }
    ensures nodes { IfErr result (IsTooBig S.Key.cmp (S.rules system.now) core.old.limit) }
{
    let claim = match core.take(alloc, system, 0)? {
        None => return Ok(false),
        Some(claim) => claim,
    };
    let answer = match claim.work(alloc, system) {
        Ok(answer) => answer,
        Err(refused) => {
            core.give_back(refused.0);
            return Err(GrowRefusal::Want);
        }
    };
    match core.merge(alloc, system, answer) {
        Ok(_) => Ok(true),
        Err(refused) => {
            core.give_back(refused.0.claim());
            Err(refused.1)
        }
    }
}

/// Drives a core until it is idle: then its facts are the due graph.
///
/// It first makes the key of each claim that is still listed pending. Nodes comes exactly where the due
/// graph has more counted keys than the limit. After a refusal all facts held are due. Want stands also
/// for the end of 2^64 - 1 turns.
pub fn drive<S: System>(alloc: Global, core: &mut Core<S>, system: &S) -> Result<(), GrowRefusal>
    requires { IsGood S.Key.cmp (S.rules system.now) core.old }
    ensures good { IsGood S.Key.cmp (S.rules system.now) core.new }
    ensures idle { OnOk result (IsIdle S.Key.cmp core.new) }
    ensures due { OnOk result (IsDueGraph (S.rules system.now) (fact_at S.Key.cmp core.new.facts)) }
    ensures within { OnOk result (counted_keys (S.rules system.now) core.new.facts ≤ core.old.limit) }
    ensures grows { IsBelow (S.rules system.now) (fact_at S.Key.cmp core.old.facts) (fact_at S.Key.cmp core.new.facts) }
    ensures limit { core.new.limit ≡ core.old.limit }
    ensures nodes { IfErr result (IsTooBig S.Key.cmp (S.rules system.now) core.old.limit) }
{
    core.strike_all(system);
    for _turn in 0..u64::MAX {
        if !step(alloc, core, system)? {
            return Ok(());
        }
    }
    Err(GrowRefusal::Want)
}
