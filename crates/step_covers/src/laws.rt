//! What the functions of the analysis leave of a state that is right: each law is the contract of a function that does
//! nothing.
ghost use Rattle.step_covers.specs.Does.{StepsDoActs};
ghost use Rattle.step_covers.specs.Says.{NarrowedStatesSay, SteppedStatesSay, TestedStatesSay};

/// A state that is right, stepped, is right about whatever follows by the step, and there is one.
pub fn stepped_states_say()
    ensures { SteppedStatesSay }
{}

/// A state that is right is right where a branch takes a direction that the condition codes take.
pub fn tested_states_say()
    ensures { TestedStatesSay }
{}

/// A state that is right is right once it is narrowed by what is asserted, where that holds.
pub fn narrowed_states_say()
    ensures { NarrowedStatesSay }
{}

/// Each step of the machine does what the act of its place says, for every instruction: the cells and the condition codes
/// behind it follow by the act's step, and it goes on by the act's way.
pub fn steps_do_acts()
    ensures { StepsDoActs }
{}
