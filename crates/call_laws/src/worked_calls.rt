//! A small graph of calls that meets the definitions: each fact is the contract of a function that does nothing.
ghost use Rattle.call_laws.specs.Worked.{WorkedChainsEnd, WorkedResults, WorkedPlain, WorkedNeeded, WorkedReasons};

/// Its followed calls end.
pub fn worked_chains_end()
    ensures { WorkedChainsEnd }
{}

/// What reaches no call cycle comes to one result, and what reaches one to none.
pub fn worked_results()
    ensures { WorkedResults }
{}

/// What reaches no call cycle is plain where all are fit, and what reaches one isn't.
pub fn worked_plain()
    ensures { WorkedPlain }
{}

/// What is needed from one subprogram on.
pub fn worked_needed()
    ensures { WorkedNeeded }
{}

/// The reasons of what calls into the cycle, and none of what doesn't.
pub fn worked_reasons()
    ensures { WorkedReasons }
{}
