//! What the facts of contexts are and say: each law is the contract of a function that does nothing.
ghost use Rattle.context_facts.specs.Context.{ContextsAnswer, ContextsEnter, LeastMapsAreContexts};

/// The least local map of a context, over the program points, edges and calls that a closed state has of its subprogram, is the
/// facts of the context: it is below the closed state, though its thresholds are more, because what is given rises with facts
/// and falls with thresholds.
pub fn least_maps_are_contexts()
    ensures { LeastMapsAreContexts }
{}

/// The facts of a context lead on within them, and the closed state says of subprograms and of gaps what they give.
pub fn contexts_answer()
    ensures { ContextsAnswer }
{}

/// What a program point of a context calls is entered: in a context of the subprogram whose arguments have those of the call,
/// and in the closed state.
pub fn contexts_enter()
    ensures { ContextsEnter }
{}
