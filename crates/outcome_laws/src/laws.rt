//! Facts about what a program comes to: each is the contract of a function that does nothing.
ghost use Rattle.outcome_laws.specs.Laws.{BoundsAreOne, ChosenAreOne, ContextsAreOne, OutcomesAreOne};
ghost use Rattle.outcome_laws.specs.Laws.{OutcomesAreReportable, OutcomesOfContextsAreOne, ReportsAreOne};
ghost use Rattle.outcome_laws.specs.Needed.{NeededAreContexts, NeededAreEntered};
ghost use Rattle.outcome_laws.specs.Reached.{BoundedCallBounded, BoundedHaveNoGap, ReachedAreBounded, RootsAreBoundedWhere};

/// A subprogram that is called with certain arguments, or is a root, has one context.
pub fn chosen_are_one()
    ensures { ChosenAreOne }
{}

/// A call leads to one context.
pub fn contexts_are_one()
    ensures { ContextsAreOne }
{}

/// A context has one bound, or none.
pub fn bounds_are_one()
    ensures { BoundsAreOne }
{}

/// A context has one outcome: the same loops in the same order, the same reasons and the same bound.
pub fn outcomes_of_contexts_are_one()
    ensures { OutcomesOfContextsAreOne }
{}

/// A program has one list of outcomes, up to their order.
pub fn outcomes_are_one()
    ensures { OutcomesAreOne }
{}

/// The outcomes of a program can be reported: each root has one in which nothing is known of its arguments, no context stands
/// twice, in each no head of a loop does, the counters are cells, and there is a value for each argument.
pub fn outcomes_are_reportable()
    ensures { OutcomesAreReportable }
{}

/// A program has one report, whatever order its outcomes are in.
pub fn reports_are_one()
    ensures { ReportsAreOne }
{}

/// A context with a bound calls only stubs, and contexts with a bound.
pub fn bounded_call_bounded()
    ensures { BoundedCallBounded }
{}

/// All contexts that followed calls reach from one with a bound have one.
pub fn reached_are_bounded()
    ensures { ReachedAreBounded }
{}

/// A subprogram that has a context with a bound has no gap: what each of its jumps, calls and instructions does is known.
pub fn bounded_have_no_gap()
    ensures { BoundedHaveNoGap }
{}

/// A root is told with a bound exactly where no context that its followed calls reach has a reason of its own against one.
pub fn roots_are_bounded_where()
    ensures { RootsAreBoundedWhere }
{}

/// The whole program has the entry of each needed context, with at least its arguments.
pub fn needed_are_entered()
    ensures { NeededAreEntered }
{}

/// The facts of each needed context are at most the due ones of the whole program, and have what the context's own program
/// points give to keys of its subprogram.
pub fn needed_are_contexts()
    ensures { NeededAreContexts }
{}
