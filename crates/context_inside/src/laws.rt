//! What the facts of contexts are to those of the whole program: each law is the contract of a function that does nothing.
ghost use Rattle.context_inside.specs.Laws.{ContextsAreBelow, JoinsAreBelow, PlainAreBelow, RootsAreBelow};

/// The facts of a context whose entry the whole program has with at least its arguments are at most those of the whole
/// program, and the whole program has the entry of what the context calls with at least what the call hands on.
pub fn contexts_are_below()
    ensures { ContextsAreBelow }
{}

/// The whole program has the entry of a root, with whatever arguments.
pub fn roots_are_below()
    ensures { RootsAreBelow }
{}

/// The whole program has the entry of a subprogram that is called, unless it is a stub, with the join of the arguments of all
/// its calls.
pub fn joins_are_below()
    ensures { JoinsAreBelow }
{}

/// So it has the entry of a root, and of what is called but stubs, with what holds of the arguments of every call.
pub fn plain_are_below()
    ensures { PlainAreBelow }
{}
