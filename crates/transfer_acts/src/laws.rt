//! Laws of what the instructions of program points do, each as the contract of a function that does nothing.
ghost use Rattle.transfer_acts.specs.Agreement.{ActsAgreeWithFrames};
ghost use Rattle.transfer_acts.specs.Program.{ProgramsAreLawful};

/// The steps of places at depths below 2 lead to such depths.
pub fn programs_are_lawful()
    ensures { ProgramsAreLawful }
{}

/// What a place does agrees with how the frames of a run read the words: its step is a call, a return, or stays in its
/// frame, as its way says.
pub fn acts_agree_with_frames()
    ensures { ActsAgreeWithFrames }
{}
