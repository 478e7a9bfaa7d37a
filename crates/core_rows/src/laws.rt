//! One worked instance of each law of what is due.
ghost use Rattle.std.specs.Prelude.{◌≡◌, ◌≤◌, ◌∷◌, [], ℕ, List, Option, Some, IsTrue, nat_le};
ghost use Rattle.std.specs.Ordering.{nat_cmp};
ghost use Rattle.flow_system.specs.Due.{IsDueKey};
ghost use Rattle.flow_system.specs.State.{IsBelow, IsDueGraph};
ghost use Rattle.local_facts.specs.Restricted.{IsLeastLocal, IsRestriction, restricted};
ghost use Rattle.core_rows.specs.Relay.{relay};
ghost use Rattle.core_rows.specs.Ring.{ring};

use crate::relay::Relay;
use crate::ring::Ring;
use flow_system::{due_graph_is_one, due_keys, due_passes, finer_is_below};
use local_facts::{due_is_least, least_is_one, local_passes};
use std::test::Fail;

/// The first key of a ring is due.
fn first_is_due(system: &Ring)
    ensures { IsDueKey (ring system.now.last system.now.second) 0 }
{
    due_keys(system);
}

/// In the due graph of a ring each fact stands at a key up to the last one.
fn keys_are_within(system: &Ring)
    requires { system.now.second ≤ system.now.last }
    ensures { (s : ℕ → Option ℕ) → IsDueGraph (ring system.now.last system.now.second) s
        → (k v : ℕ) → s k ≡ Some v → IsTrue (nat_le k system.now.last) }
{
    due_passes(system);
}

/// Of two rings of the same numbers the one's due graph is below the other's.
fn graphs_are_below(one: &Ring, other: &Ring)
    requires last { one.now.last ≡ other.now.last }
    requires second { one.now.second ≡ other.now.second }
    ensures { (s t : ℕ → Option ℕ) → IsDueGraph (ring one.now.last one.now.second) s
        → IsDueGraph (ring other.now.last other.now.second) t
        → IsBelow (ring one.now.last one.now.second) s t }
{
    finer_is_below(one, other);
}

/// In the least map of a restricted relay each fact stands at a key up to the last one.
fn kept_are_within(system: &Relay)
    ensures { (v : ℕ) (keep : List ℕ) (fixed : List (ℕ × ℕ)) (s : ℕ → Option ℕ)
        → IsRestriction nat_cmp (relay system.now.last) ((0, v) ∷ []) keep fixed
        → IsLeastLocal nat_cmp (relay system.now.last) ((0, v) ∷ []) keep fixed s
        → (k w : ℕ) → s k ≡ Some w → IsTrue (nat_le k system.now.last) }
{
    local_passes(system);
}

/// A ring has at most one due graph.
fn graph_is_one(system: &Ring)
    ensures { (s t : ℕ → Option ℕ) → IsDueGraph (ring system.now.last system.now.second) s
        → IsDueGraph (ring system.now.last system.now.second) t → (k : ℕ) → s k ≡ t k }
{
    due_graph_is_one(system);
}

/// A restricted relay has at most one least map.
fn map_is_one(system: &Relay)
    ensures { (v : ℕ) (keep : List ℕ) (fixed : List (ℕ × ℕ)) (s t : ℕ → Option ℕ)
        → IsLeastLocal nat_cmp (relay system.now.last) ((0, v) ∷ []) keep fixed s
        → IsLeastLocal nat_cmp (relay system.now.last) ((0, v) ∷ []) keep fixed t → (k : ℕ) → s k ≡ t k }
{
    least_is_one(system);
}

/// The due graph of a restricted relay is its least map.
fn graph_is_map(system: &Relay)
    ensures { (v : ℕ) (keep : List ℕ) (fixed : List (ℕ × ℕ)) (s : ℕ → Option ℕ)
        → IsRestriction nat_cmp (relay system.now.last) ((0, v) ∷ []) keep fixed
        → IsDueGraph (restricted nat_cmp (relay system.now.last) ((0, v) ∷ []) keep fixed) s
        → IsLeastLocal nat_cmp (relay system.now.last) ((0, v) ∷ []) keep fixed s }
{
    due_is_least(system);
}

#[test]
fn laws_have_instances(rt: HostRuntime) -> Result<(), Fail> {
    let system = Ring { last: 4, second: 2 };
    first_is_due(&system);
    keys_are_within(&system);
    graphs_are_below(&system, &Ring { last: 4, second: 2 });
    kept_are_within(&Relay { last: 4 });
    graph_is_one(&system);
    map_is_one(&Relay { last: 4 });
    graph_is_map(&Relay { last: 4 });
    assert_eq!(rt; system.last, 4);
    Ok(())
}
