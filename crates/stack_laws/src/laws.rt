//! How runs are followed: each law is the contract of a function that does nothing.
ghost use Rattle.stack_laws.specs.Followed.{RunsAreFollowed};

/// Up to its first open instruction each place of a run is followed. A state stands at each machine without a stub's frame
/// and covers it; each frame below waits at the delay instruction of its call and keeps the cells that the one that it
/// called may not write; each step within a frame is an edge, each push a call, and each pop lands behind its call in the
/// window of its push and goes on along an edge.
pub fn runs_are_followed()
    ensures { RunsAreFollowed }
{}
