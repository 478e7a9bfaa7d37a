//! Laws of keys, needs and call cycles: each is the contract of a function that does nothing.
ghost use Rattle.graph_view.specs.Laws.{CycleCallsLeadBack, KeysAreOwned, KeysStandInLists, NeedsAreOne, NeedsEndAtCycles};

/// What is of keys that rise is by rising subprograms.
pub fn keys_are_owned()
    ensures { KeysAreOwned }
{}

/// Each key stands in the list of its kind, and these have nothing else.
pub fn keys_stand_in_lists()
    ensures { KeysStandInLists }
{}

/// A call inside a call cycle leads to a subprogram that leads back to the caller.
pub fn cycle_calls_lead_back()
    ensures { CycleCallsLeadBack }
{}

/// A subprogram has no need exactly where it reaches one that has a call inside its call cycle.
pub fn needs_end_at_cycles()
    ensures { NeedsEndAtCycles }
{}

/// A subprogram has at most one need.
pub fn needs_are_one()
    ensures { NeedsAreOne }
{}
