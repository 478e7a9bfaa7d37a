//! What states that cover machines cover behind a step, behind a call and behind a return: each law is the contract of a
//! function that does nothing.
ghost use Rattle.step_covers.specs.Covered.{AimsAreResolved, EnteredStatesCover, MetAssertionsAreKept, NarrowedStatesCover, PlacesAreWritten, ReturnedStatesCover, SteppedStatesCover, TestedStatesCover};

/// A state that covers a machine, stepped by the act of its place, covers the next machine, and there is one.
pub fn stepped_states_cover()
    ensures { SteppedStatesCover }
{}

/// A state that covers a machine covers it where a branch takes a direction that the condition codes take.
pub fn tested_states_cover()
    ensures { TestedStatesCover }
{}

/// A state that covers a machine covers it once it is narrowed by what is asserted, where that holds.
pub fn narrowed_states_cover()
    ensures { NarrowedStatesCover }
{}

/// A machine that meets the assertions has in its registers what is asserted at its place, and isn't where none may be.
pub fn met_assertions_are_kept()
    ensures { MetAssertionsAreKept }
{}

/// A step writes no place of the registers but those of the registers that its instruction writes, in the window behind it.
pub fn places_are_written()
    ensures { PlacesAreWritten }
{}

/// The state of a subprogram's entry with the arguments of a call covers the first machine of its frame.
pub fn entered_states_cover()
    ensures { EnteredStatesCover }
{}

/// The state of a call, in which the cells that the callee may write are any word, covers a machine that has come back.
pub fn returned_states_cover()
    ensures { ReturnedStatesCover }
{}

/// Where a transfer goes nowhere else, its targets have the address to which it goes.
pub fn aims_are_resolved()
    ensures { AimsAreResolved }
{}
