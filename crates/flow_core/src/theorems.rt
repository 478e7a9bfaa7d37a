ghost use Rattle.std.specs.Prelude.{◌≡◌, List};
ghost use Rattle.flow_system.specs.Facts.{fact_at, KeysRise};
ghost use Rattle.flow_system.specs.State.{IsBelow, IsDueGraph};
ghost use Rattle.flow_core.specs.Core.{CoreState, IsGood, IsIdle};
ghost use Rattle.flow_core.specs.Event.{Event, IsRun};

use flow_system::System;

/// Whatever list of events leads from one state of a core to another, by the relations that the clauses of
/// `Core::take`, `Core::merge` and `Core::give_back` state: a good state leads to a good one, no fact
/// shrinks, and where the last state is idle its facts are the due graph.
pub fn every_run_is_good<S: System>(_system: &S)
    ensures good { (events : List (Event S.Key S.Val)) (first last : CoreState S.Key S.Val)
        → IsGood S.Key.cmp (S.rules _system.now) first
        → IsRun S.Key.cmp (S.rules _system.now) events first last
        → IsGood S.Key.cmp (S.rules _system.now) last }
    ensures grows { (events : List (Event S.Key S.Val)) (first last : CoreState S.Key S.Val)
        → IsGood S.Key.cmp (S.rules _system.now) first
        → IsRun S.Key.cmp (S.rules _system.now) events first last
        → IsBelow (S.rules _system.now) (fact_at S.Key.cmp first.facts) (fact_at S.Key.cmp last.facts) }
    ensures due { (events : List (Event S.Key S.Val)) (first last : CoreState S.Key S.Val)
        → IsGood S.Key.cmp (S.rules _system.now) first
        → IsRun S.Key.cmp (S.rules _system.now) events first last
        → IsIdle S.Key.cmp last
        → IsDueGraph (S.rules _system.now) (fact_at S.Key.cmp last.facts) }
{}

/// The entries of the due graph are one list, where their keys rise.
pub fn due_facts_are_one<S: System>(_system: &S)
    ensures { (facts others : List (S.Key × S.Val)) → KeysRise S.Key.cmp facts → KeysRise S.Key.cmp others
        → IsDueGraph (S.rules _system.now) (fact_at S.Key.cmp facts)
        → IsDueGraph (S.rules _system.now) (fact_at S.Key.cmp others)
        → facts ≡ others }
{}
