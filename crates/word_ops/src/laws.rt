//! What a comparison says of its sources: each law is the contract of a function that does nothing.
ghost use Rattle.word_ops.specs.Condition.{ComparisonIsSignedOrder, ComparisonIsUnsignedOrder, ComparisonIsEquality};

/// After a comparison the conditions l and le are the orders of the sources with sign.
pub fn comparison_is_signed_order()
    ensures { ComparisonIsSignedOrder }
{}

/// After a comparison the conditions cs and leu are the orders of the sources without sign.
pub fn comparison_is_unsigned_order()
    ensures { ComparisonIsUnsignedOrder }
{}

/// After a comparison the condition e is equality of the sources.
pub fn comparison_is_equality()
    ensures { ComparisonIsEquality }
{}
