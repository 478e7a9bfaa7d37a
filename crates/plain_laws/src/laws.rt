//! Facts about plain subprograms: each is the contract of a function that does nothing.
ghost use Rattle.plain_laws.specs.Laws.{OpenCallsAreAgainst, PlainBoundsAreOne, ReasonsAreAgainst};

/// A subprogram has at most one bound of its plain context.
pub fn plain_bounds_are_one()
    ensures { PlainBoundsAreOne }
{}

/// A subprogram that calls one that isn't plain isn't plain.
pub fn open_calls_are_against()
    ensures { OpenCallsAreAgainst }
{}

/// A subprogram whose plain context has a reason against a bound, though all that it calls is plain, isn't plain.
pub fn reasons_are_against()
    ensures { ReasonsAreAgainst }
{}
