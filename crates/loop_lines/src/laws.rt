//! What is reached in the graphs of whole programs: each law is the contract of a function that does nothing.
ghost use Rattle.loop_lines.specs.Laws.{EntriesAreThere, PointsAreReached};

/// Of each subprogram of which a due graph has a program point, it has the entry.
pub fn entries_are_there()
    ensures { EntriesAreThere }
{}

/// Each program point that a due graph has of a subprogram is reached from its entry by the subprogram's own steps.
pub fn points_are_reached()
    ensures { PointsAreReached }
{}
