ghost use Rattle.std.specs.Prelude.{◌≡◌, Bool, Option, Some, IsTrue};
ghost use Rattle.flow_system.specs.Due.{HasPassing, IsDueKey, IsFiner, IsHandedOn};
ghost use Rattle.flow_system.specs.State.{IsBelow, IsClosed, IsDue, IsDueGraph};

use crate::system::System;

/// The key of a due piece is due.
pub fn due_keys<S: System>(_system: &S)
    ensures { (k : S.Key) (v : S.Val) → IsDue (S.rules _system.now) k v → IsDueKey (S.rules _system.now) k }
{}

/// There is at most one due graph: two have the same fact at each key, or none.
pub fn due_graph_is_one<S: System>(_system: &S)
    ensures { (s t : S.Key → Option S.Val) → IsDueGraph (S.rules _system.now) s → IsDueGraph (S.rules _system.now) t
        → (k : S.Key) → s k ≡ t k }
{}

/// An induction over what is due: a test of pieces that the start pieces pass, that a greater fact keeps, and that each
/// key whose fact passes hands on to what it gives, holds wherever a piece is due, in every closed state; so each fact of
/// the due graph passes it. A test of keys alone is kept by a greater fact.
pub fn due_passes<S: System>(_system: &S)
    ensures closed { (s : S.Key → Option S.Val) (test : S.Key → S.Val → Bool)
        → IsClosed (S.rules _system.now) s
        → IsHandedOn (S.rules _system.now) s test
        → (k : S.Key) (v : S.Val) → IsDue (S.rules _system.now) k v → HasPassing (S.rules _system.now) s test k v }
    ensures graph { (s : S.Key → Option S.Val) (test : S.Key → S.Val → Bool)
        → IsDueGraph (S.rules _system.now) s
        → IsHandedOn (S.rules _system.now) s test
        → (k : S.Key) (v : S.Val) → s k ≡ Some v → IsTrue (test k v) }
{}

/// Of two systems over the same keys and facts, of which the first starts with no more and gives no more, as where it has
/// more thresholds, the first's due graph is below the second's; and what is closed in the second is closed in the first.
pub fn finer_is_below<S: System, T: System<Key = S::Key, Val = S::Val>>(_first: &S, _second: &T)
    ensures closed { IsFiner (S.rules _first.now) (T.rules _second.now)
        → (t : S.Key → Option S.Val) → IsClosed (T.rules _second.now) t → IsClosed (S.rules _first.now) t }
    ensures below { IsFiner (S.rules _first.now) (T.rules _second.now)
        → (s t : S.Key → Option S.Val) → IsDueGraph (S.rules _first.now) s → IsDueGraph (T.rules _second.now) t
        → IsBelow (S.rules _first.now) s t }
{}
