ghost use Rattle.std.specs.Prelude.{◌≡◌, ◌≤◌, Bool, IfOk, IfErr, IsTrue, List, Option, Some, length};
ghost use Rattle.flow_system.specs.Facts.{fact_at};
ghost use Rattle.flow_system.specs.State.{IsDueGraph};
ghost use Rattle.flow_core.specs.Core.{counted_keys};
ghost use Rattle.flow_core.specs.Refusal.{IsTooBig};
ghost use Rattle.flow_core.specs.declared.refusals.GrowRefusal.TheVariants.{Want};
ghost use Rattle.local_facts.specs.Handed.{IsHandedOnLocally};
ghost use Rattle.local_facts.specs.Restricted.{IsRestriction, IsLeastLocal, restricted};

use crate::local::Local;
use flow_core::{Closed, Core, GrowRefusal, drive};
use flow_system::{Facts, System};
use std::alloc::Global;

/// The due graph of a restricted system is the least map over the kept keys that contains the start pieces, and what
/// its keys give to kept keys with the fixed facts beside it; and that least map is the due graph.
pub fn due_is_least<S: System>(_system: &S)
    ensures least { (starts : List (S.Key × S.Val)) (keep : List S.Key) (fixed : List (S.Key × S.Val)) (s : S.Key → Option S.Val)
        → IsRestriction S.Key.cmp (S.rules _system.now) starts keep fixed
        → IsDueGraph (restricted S.Key.cmp (S.rules _system.now) starts keep fixed) s
        → IsLeastLocal S.Key.cmp (S.rules _system.now) starts keep fixed s }
    ensures due { (starts : List (S.Key × S.Val)) (keep : List S.Key) (fixed : List (S.Key × S.Val)) (s : S.Key → Option S.Val)
        → IsRestriction S.Key.cmp (S.rules _system.now) starts keep fixed
        → IsLeastLocal S.Key.cmp (S.rules _system.now) starts keep fixed s
        → IsDueGraph (restricted S.Key.cmp (S.rules _system.now) starts keep fixed) s }
{}

/// There is at most one least map over the kept keys: two have the same fact at each key, or none.
pub fn least_is_one<S: System>(_system: &S)
    ensures { (starts : List (S.Key × S.Val)) (keep : List S.Key) (fixed : List (S.Key × S.Val)) (s t : S.Key → Option S.Val)
        → IsLeastLocal S.Key.cmp (S.rules _system.now) starts keep fixed s
        → IsLeastLocal S.Key.cmp (S.rules _system.now) starts keep fixed t
        → (k : S.Key) → s k ≡ t k }
{}

/// An induction over the least map: a test of pieces that the start pieces pass, that a greater fact keeps, and that each
/// key whose fact passes hands on to the pieces of kept keys that it gives, holds of every fact of the map. A test of keys
/// alone is kept by a greater fact.
pub fn local_passes<S: System>(_system: &S)
    ensures { (starts : List (S.Key × S.Val)) (keep : List S.Key) (fixed : List (S.Key × S.Val)) (s : S.Key → Option S.Val) (test : S.Key → S.Val → Bool)
        → IsRestriction S.Key.cmp (S.rules _system.now) starts keep fixed
        → IsLeastLocal S.Key.cmp (S.rules _system.now) starts keep fixed s
        → IsHandedOnLocally S.Key.cmp (S.rules _system.now) starts keep fixed s test
        → (k : S.Key) (v : S.Val) → s k ≡ Some v → IsTrue (test k v) }
{}

/// Drives a restricted system: the least map over the kept keys that contains the start pieces, and what its keys
/// give to kept keys with the fixed facts beside it.
///
/// Nodes comes exactly where that map has more counted keys than the limit; so it never comes where the limit is at least
/// the number of kept keys.
pub fn least_facts<'a, S: System>(
    alloc: Global,
    system: &'a S,
    starts: Vec<(S::Key, S::Val)>,
    keep: Vec<S::Key>,
    fixed: Facts<S::Key, S::Val>,
    limit: u64,
) -> Result<Closed<Local<'a, S>>, GrowRefusal>
    requires { IsRestriction S.Key.cmp (S.rules system.now) starts.items keep.items fixed }
    ensures least { IfOk result (λ closed. IsLeastLocal S.Key.cmp (S.rules system.now) starts.items keep.items fixed (fact_at S.Key.cmp closed)) }
    ensures within { IfOk result (λ closed. counted_keys (S.rules system.now) closed ≤ limit) }
    ensures nodes { IfErr result (IsTooBig S.Key.cmp (restricted S.Key.cmp (S.rules system.now) starts.items keep.items fixed) limit) }
    ensures room { length keep.items ≤ limit → IfErr result (λ refusal. refusal ≡ Want) }
{
    let local = Local::new(system, starts, keep, fixed);
    let mut core = Core::new(alloc, &local, limit)?;
    drive(alloc, &mut core, &local)?;
    match core.close() {
        Ok(closed) => Ok(closed),
        Err(_) => unreachable!(),
    }
}
