//! What each step keeps, writes and costs, and what its numbers mean: each law is the contract of a function that does
//! nothing.
ghost use Rattle.sparc_runs.specs.Cost.{AllAreOwedMost, StepsCost, StepsLoad};
ghost use Rattle.sparc_runs.specs.Going.{StepsGo, ReturnsLeadBack};
ghost use Rattle.sparc_runs.specs.Numbers.{ShiftsDivide, SumsAreMeant, DifferencesAreMeant, LogicIsDifference};
ghost use Rattle.sparc_runs.specs.Sound.{OperandsAreWords, StepsKeepMachines};
ghost use Rattle.sparc_runs.specs.Window.{WindowsStayInUse, LevelsMove, LevelsAreBelowSeven, DepthsAreWindows};
ghost use Rattle.sparc_runs.specs.Written.{StepsWriteOnly};

/// A step writes no other registers than those that its instruction writes, in the window after it. With
/// `sparc_machine::reads_are_all` this is all that a step has to do with registers.
pub fn steps_write_only()
    ensures { StepsWriteOnly }
{}

/// A step keeps the numbers of a machine within their types, over an image of bytes.
pub fn steps_keep_machines()
    ensures { StepsKeepMachines }
{}

/// What a machine has in a register, and what a second operand comes to in it, are words.
pub fn operands_are_words()
    ensures { OperandsAreWords }
{}

/// A step costs, in cycles, what it is owed behind a load, the class of its instruction, and one that it annuls.
pub fn steps_cost()
    ensures { StepsCost }
{}

/// What a step leaves as loaded is what its instruction loads.
pub fn steps_load()
    ensures { StepsLoad }
{}

/// Behind a load of all registers an instruction is owed the most.
pub fn all_are_owed_most()
    ensures { AllAreOwedMost }
{}

/// Where each step goes on to: a call and a jump to their targets behind their delay instructions, a branch by its
/// condition and annul bit, and any other to the next instruction.
pub fn steps_go()
    ensures { StepsGo }
{}

/// A return starts from r15 or r31, and leads eight bytes behind what that register has, or twelve where it skips a word.
pub fn returns_lead_back()
    ensures { ReturnsLeadBack }
{}

/// No step enters the window that is marked as invalid.
pub fn windows_stay_in_use()
    ensures { WindowsStayInUse }
{}

/// SAVE goes down by one level above the invalid window, RESTORE up by one, and no other instruction changes the window.
pub fn levels_move()
    ensures { LevelsMove }
{}

/// The level of a window in use above the invalid one is from 0 to 6.
pub fn levels_are_below_seven()
    ensures { LevelsAreBelowSeven }
{}

/// What a depth below the window of a frame's start is, by the numbers of the windows.
pub fn depths_are_windows()
    ensures { DepthsAreWindows }
{}

/// A shift to the right with sign divides, rounded down.
pub fn shifts_divide()
    ensures { ShiftsDivide }
{}

/// What the condition codes of a sum mean in numbers.
pub fn sums_are_meant()
    ensures { SumsAreMeant }
{}

/// What the condition codes of a difference mean in numbers.
pub fn differences_are_meant()
    ensures { DifferencesAreMeant }
{}

/// The condition codes of a logical operation are those of its result less 0.
pub fn logic_is_difference()
    ensures { LogicIsDifference }
{}
