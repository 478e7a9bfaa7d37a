//! Facts about bindings: each is the contract of a function that does nothing.
ghost use Rattle.assert_bind.specs.Bound.{BindingsAreMeant, RefusalsAreFirst};
ghost use Rattle.assert_bind.specs.Sight.{AnswersAreAll};
ghost use Rattle.assert_bind.specs.Stubs.{StubsAreThose};
ghost use Rattle.assert_bind.specs.Worked.{CanBeMetAndBroken};

/// Assertions are bound to an image exactly where each says of the addresses of its places what is written, all of
/// them addresses of code, and no two speak of the same. So a list has one binding at most.
pub fn bindings_are_meant()
    ensures { BindingsAreMeant }
{}

/// Assertions are refused exactly for the first of them that is refused: all before it are bound, and the first of
/// its places that has no address of code is named, or all have one and its range is empty, or an earlier one speaks
/// of the same.
pub fn refusals_are_first()
    ensures { RefusalsAreFirst }
{}

/// The stubs that a binding lists are the entries that have a time in it, each once.
pub fn stubs_are_those()
    ensures { StubsAreThose }
{}

/// A run meets what is asserted of an instruction exactly where it keeps to what a binding answers of it.
pub fn answers_are_all()
    ensures { AnswersAreAll }
{}

/// Assertions that a run meets, and of which each can be broken.
pub fn can_be_met_and_broken()
    ensures { CanBeMetAndBroken }
{}
