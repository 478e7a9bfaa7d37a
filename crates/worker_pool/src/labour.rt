ghost use Rattle.std.specs.Prelude.{◌≡◌, IfErr};
ghost use Rattle.flow_core.specs.Claim.{IsClaimOf};
ghost use Rattle.flow_core.specs.Refusal.{IsTooBig};

use crate::gate::Gate;
use fact_pool::Pool;
use flow_core::{Claim, GrowRefusal};
use flow_system::{Name, System};
use std::alloc::Global;
use std::sync::Wait;
use std::thread::Threads;

/// Works a claim out without the lock, passes the gate, and merges the answer. A refusal gives the claim back.
fn work_out<R: Threads + Wait + Sync, S: System, N: Name<S::Key, S::Val>, G: Gate>(
    rt: &R,
    alloc: Global,
    pool: &Pool<S, N>,
    system: &S,
    claim: Claim<S>,
    worker: u32,
    number: u64,
    gate: &G,
) -> Result<(), GrowRefusal>
    requires named { S.rules system.now ≡ N.rules }
    requires of { IsClaimOf S.Key.cmp N.rules claim }
    ensures nodes { IfErr result (IsTooBig S.Key.cmp N.rules N.limit) }
{
    let answer = match claim.work(alloc, system) {
        Ok(answer) => answer,
        Err(refused) => {
            pool.lock(rt).give_back(refused.0);
            return Err(GrowRefusal::Want);
        }
    };
    gate.pass(worker, number);
    // Bound before the match: a guard made in its head would live on while an arm locks again.
    let merged = pool.lock(rt).merge(alloc, system, answer);
    match merged {
        Ok(_) => Ok(()),
        Err(refused) => {
            pool.lock(rt).give_back(refused.0.claim());
            Err(refused.1)
        }
    }
}

/// One worker: it takes a claim, works it out and merges the answer, until nothing is pending when it takes.
///
/// Nodes says that the due graph has more counted keys than the pool's limit. Want stands also for the end of
/// 2^64 - 1 turns.
pub fn labour_pooled<R: Threads + Wait + Sync, S: System, N: Name<S::Key, S::Val>, G: Gate>(
    rt: &R,
    alloc: Global,
    pool: &Pool<S, N>,
    system: &S,
    worker: u32,
    gate: &G,
) -> Result<(), GrowRefusal>
    requires named { S.rules system.now ≡ N.rules }
    ensures nodes { IfErr result (IsTooBig S.Key.cmp N.rules N.limit) }
{
    for number in 0..u64::MAX {
        let taken = pool.lock(rt).take(alloc, system, worker);
        match taken? {
            None => return Ok(()),
            Some(claim) => work_out(rt, alloc, pool, system, claim, worker, number, gate)?,
        }
    }
    Err(GrowRefusal::Want)
}
