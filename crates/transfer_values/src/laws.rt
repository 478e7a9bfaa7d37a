//! Laws of the functions that compute with states: each is the contract of a function that does nothing.
ghost use Rattle.transfer_values.specs.Cover.{SourcesCover, TargetsCover};
ghost use Rattle.transfer_values.specs.Law.{StatesStayOver, StatesFall, TargetsFall, FamiliesAreLawful};

/// What is made of a state that may stand where there are thresholds may stand there.
pub fn states_stay_over()
    ensures { StatesStayOver }
{}

/// Of a lesser state, and over more thresholds, what is made of it is at most what it was.
pub fn states_fall()
    ensures { StatesFall }
{}

/// A lesser state goes to fewer targets, and is known sooner to go nowhere else; no transfer has more targets than the
/// widest one.
pub fn targets_fall()
    ensures { TargetsFall }
{}

/// The functions over thresholds, of an image and assertions, are lawful, and over more thresholds they give no more.
pub fn families_are_lawful()
    ensures { FamiliesAreLawful }
{}

/// What is written has the word that is written.
pub fn sources_cover()
    ensures { SourcesCover }
{}

/// Where a computed transfer goes nowhere else, its targets have the address to which it goes.
pub fn targets_cover()
    ensures { TargetsCover }
{}
