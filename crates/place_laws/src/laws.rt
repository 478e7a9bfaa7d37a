//! Where program points lead: each law is the contract of a function that does nothing.
ghost use Rattle.place_laws.specs.Aligned.{PlacesStayAligned};
ghost use Rattle.place_laws.specs.Untaken.{UntakenPassDelays};

/// Where the address of a program point and the one that control goes to behind it are multiples of 4, so are those of each
/// program point that it gives.
pub fn places_stay_aligned()
    ensures { PlacesStayAligned }
{}

/// A branch with the annul bit that isn't taken leads past its delay instruction, and never to it.
pub fn untaken_pass_delays()
    ensures { UntakenPassDelays }
{}
