//! Facts about refinement: each is the contract of a function that does nothing.
ghost use Rattle.value_refine.specs.Laws.{MirrorExchanges, RefinementIsCovered, RefinementIsMonotone, RefinementIsOne, SignIsOrder, WithinIsCovered, WithinIsMonotone, WithinIsOne, ConstantsAreKept, RefineIsOne, RefineIsMonotone, WithinIsMonotoneAsOne};

use word_ops::{comparison_is_equality, comparison_is_signed_order, comparison_is_unsigned_order};

/// A condition is over the flags of a difference what the mirrored one is over those of the difference the other
/// way round.
pub fn mirror_exchanges()
    ensures { MirrorExchanges }
{
    comparison_is_equality();
    comparison_is_signed_order();
    comparison_is_unsigned_order();
}

/// A word of the left side with which a word of the right side makes the condition so is a word of what is left.
pub fn refinement_is_covered()
    ensures { RefinementIsCovered }
{}

/// Of less, and over more thresholds, what is left of a left side that isn't the return address is at most what it was.
pub fn refinement_is_monotone()
    ensures { RefinementIsMonotone }
{}

/// Where the right side is exactly the word 0, neg leaves what l does, and pos what ge does.
pub fn sign_is_order()
    ensures { SignIsOrder }
{
    comparison_is_signed_order();
}

/// What is left is one value or none, and never both.
pub fn refinement_is_one()
    ensures { RefinementIsOne }
{}

/// The condition that always is true, or is false, leaves all of a left side that isn't the return address, or nothing.
pub fn constants_are_kept()
    ensures { ConstantsAreKept }
{}

/// A word of a value that is within two numbers is a word of what is left.
pub fn within_is_covered()
    ensures { WithinIsCovered }
{}

/// Of less, and over more thresholds, what is within two numbers is at most what it was.
pub fn within_is_monotone()
    ensures { WithinIsMonotone }
{}

/// What is within two numbers is one value or none, and never both.
pub fn within_is_one()
    ensures { WithinIsOne }
{}

/// `refine` and `within` as functions of the thresholds and the sides give what is left, and nothing else is left.
pub fn refine_is_one()
    ensures { RefineIsOne }
{}

/// What `refine` as a function gives is over the thresholds, and the return address only where the left side is. Where that
/// isn't the return address, what is given is at most the left side, and of less, and over more thresholds, at most what it
/// was.
pub fn refine_is_monotone()
    ensures { RefineIsMonotone }
{}

/// The same of `within`, which never gives the return address.
pub fn within_function_is_monotone()
    ensures { WithinIsMonotoneAsOne }
{}
