//! Facts about the machine: each is the contract of a function that does nothing.
ghost use Rattle.sparc_machine.specs.Kept.{EachStepKeeps};
ghost use Rattle.sparc_machine.specs.Reads.{DependsOnReadsAlone};
ghost use Rattle.sparc_machine.specs.Register.{RegistersAreApart, GlobalsAreShared, NeighboursOverlap, WindowsComeBack};
ghost use Rattle.sparc_machine.specs.Straight.{StraightCodeIsOne};

/// Two registers of one window never stand at one place.
pub fn registers_are_apart()
    ensures { RegistersAreApart }
{}

/// The globals of all windows are one.
pub fn globals_are_shared()
    ensures { GlobalsAreShared }
{}

/// The out registers of a window are the in registers of the window that SAVE makes the current one.
pub fn neighbours_overlap()
    ensures { NeighboursOverlap }
{}

/// RESTORE behind SAVE comes back to the window, and SAVE behind RESTORE too.
pub fn windows_come_back()
    ensures { WindowsComeBack }
{}

/// Each step keeps the number of registers, the window pointer below 8, the window mask, and the alignment of
/// the program counters.
pub fn each_step_keeps()
    ensures { EachStepKeeps }
{}

/// Where the code from an entry on is straight, it is so with one number of words.
pub fn straight_code_is_one()
    ensures { StraightCodeIsOne }
{}

/// What an instruction does depends on no registers but those that `sparc_decode::reads` names.
pub fn reads_are_all()
    ensures { DependsOnReadsAlone }
{}
