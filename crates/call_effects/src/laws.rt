//! Facts about cells and their sets: each is the contract of a function that does nothing.
ghost use Rattle.call_effects.specs.Cell.{CellsTellRegistersApart};
ghost use Rattle.call_effects.specs.Summary.{SummariesAreOrdered, SummariesAreJoined};
ghost use Rattle.call_effects.specs.Mask.{TestDecidesMasks, MasksAreSets, MasksStayMasks, CallsWriteWhatStands, LargerMasksWriteMore};

/// Registers of one window have cells of their own.
pub fn cells_tell_registers_apart()
    ensures { CellsTellRegistersApart }
{}

/// The test of numbers decides which are sets of cells.
pub fn test_decides_masks()
    ensures { TestDecidesMasks }
{}

/// Masks are sets of cells: they are joined, ordered and told apart as sets.
pub fn masks_are_sets()
    ensures { MasksAreSets }
{}

/// What is made of masks is one.
pub fn masks_stay_masks()
    ensures { MasksStayMasks }
{}

/// A caller's cell may be written exactly where it stands for a cell that the callee may write.
pub fn calls_write_what_stands()
    ensures { CallsWriteWhatStands }
{}

/// A callee that may write more may write more of its caller.
pub fn larger_masks_write_more()
    ensures { LargerMasksWriteMore }
{}

/// Each summary is at most itself, the order goes on from one to the next, and two summaries that are at most each other
/// are the same.
pub fn summaries_are_ordered()
    ensures { SummariesAreOrdered }
{}

/// What two summaries say together is the least that is at least both.
pub fn summaries_are_joined()
    ensures { SummariesAreJoined }
{}
