//! Facts about the parts of contexts: each is the contract of a function that does nothing.
ghost use Rattle.context_bounds.specs.Costs.{ListsAreCosts};
ghost use Rattle.context_bounds.specs.Heads.{HeadsAreOutcomes};
ghost use Rattle.context_bounds.specs.Known.{FactsAreKnown};
ghost use Rattle.context_bounds.specs.Laws.{CalledAreEnough, ContextsAreReached, ContextsAreViewed, ContextsPass};
ghost use Rattle.context_bounds.specs.Laws.{ContextsStand, MarksAreAll, OwnKeysAreKept, ViewsAreShapes};

/// The keys of a subprogram's row rise, and are those of the subprogram that facts have.
pub fn own_keys_are_kept()
    ensures { OwnKeysAreKept }
{}

/// The least map over kept keys needs no more beside it than what is said of the subprograms that kept program points call.
pub fn called_are_enough()
    ensures { CalledAreEnough }
{}

/// Marks that begin at the entry of a context and follow its steps have all its program points: each is reached.
pub fn marks_are_all()
    ensures { MarksAreAll }
{}

/// An induction over the facts of a context: a test of keys that its entry passes, and that each of its program points hands on,
/// holds of all its keys.
pub fn contexts_pass()
    ensures { ContextsPass }
{}

/// The facts of a context have the program points that their steps and calls name, and those of a step are of one subprogram.
pub fn contexts_stand()
    ensures { ContextsStand }
{}

/// Each program point of a context's graph is reached from its entry.
pub fn contexts_are_reached()
    ensures { ContextsAreReached }
{}

/// What a view of the keys of a context's facts shows is their graph.
pub fn views_are_shapes()
    ensures { ViewsAreShapes }
{}

/// A view can be made of the keys of a context's facts, where one can be made of those of the whole program.
pub fn contexts_are_viewed()
    ensures { ContextsAreViewed }
{}

/// The least map over the keys of a subprogram, with what is said of the subprograms that it calls, has the facts of the
/// context.
pub fn facts_are_known()
    ensures { FactsAreKnown }
{}

/// The loops of a context with what bounds them, by the parts from which they are worked out.
pub fn heads_are_outcomes()
    ensures { HeadsAreOutcomes }
{}

/// The costs of a context as lists are those of its walks.
pub fn lists_are_costs()
    ensures { ListsAreCosts }
{}
