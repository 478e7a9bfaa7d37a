//! Facts about targets: each is the contract of a function that does nothing.
ghost use Rattle.jump_resolve.specs.Law.{TargetsAreExact, TargetsRise, TargetsAreFew};

/// The list has exactly the candidates that the value may be and that are code, rising, and it is whole exactly where
/// it is asserted or has each multiple of 4 that the value may be.
pub fn targets_are_exact()
    ensures { TargetsAreExact }
{}

/// A value that may be more goes to more targets, and is whole no sooner.
pub fn targets_rise()
    ensures { TargetsRise }
{}

/// There are no more targets than candidates.
pub fn targets_are_few()
    ensures { TargetsAreFew }
{}
