ghost use Rattle.std.specs.Prelude.{◌≡◌, ℕ, List};
ghost use Rattle.flow_core.specs.Core.{CoreState};
ghost use Rattle.flow_system.specs.Facts.{fact_at};
ghost use Rattle.flow_system.specs.State.{IsBelow};
ghost use Rattle.part_pool.specs.Holding.{PartEvent, IsHolding};
ghost use Rattle.part_pool.specs.Part.{IsKeptPart};

use flow_system::Parted;

/// Whatever list of events over its own keys, and of joins of due pieces from other parts, leads from one state of a
/// part to another, by the relations that the clauses of `Part::take`, `Part::merge`, `Part::give_back` and
/// `Part::receive` state: a good part stays good, with its limit, and no fact shrinks.
pub fn every_holding_is_good<S: Parted>(_system: &S)
    ensures good { (number limit : ℕ) (events : List (PartEvent S.Key S.Val)) (first last : CoreState S.Key S.Val)
        → IsKeptPart S.Key.cmp (S.rules _system.now) limit first
        → IsHolding S.Key.cmp (S.rules _system.now) (λ k. S.part_of _system.now k ≡ number) events first last
        → IsKeptPart S.Key.cmp (S.rules _system.now) limit last }
    ensures grows { (number limit : ℕ) (events : List (PartEvent S.Key S.Val)) (first last : CoreState S.Key S.Val)
        → IsKeptPart S.Key.cmp (S.rules _system.now) limit first
        → IsHolding S.Key.cmp (S.rules _system.now) (λ k. S.part_of _system.now k ≡ number) events first last
        → IsBelow (S.rules _system.now) (fact_at S.Key.cmp first.facts) (fact_at S.Key.cmp last.facts) }
{}
