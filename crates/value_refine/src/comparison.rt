ghost use Rattle.std.specs.Prelude.{◌%◌, ◌<◌};
ghost use Rattle.value_refine.specs.Comparison.{IsTest, IsAsked};

use word_ops::{comparison_is_equality, comparison_is_signed_order, comparison_is_unsigned_order};

/// A relation between two words.
#[derive(Clone, Copy, Debug)]
pub(crate) enum Relation {
    Never,
    Equal,
    LessOrEqual,
    Less,
    LessOrEqualUnsigned,
    LessUnsigned,
}

/// A relation between two words, and whether it is to hold.
#[derive(Clone, Copy, Debug)]
pub(crate) struct Comparison {
    pub relation: Relation,
    pub holds: bool,
}

/// The relation that one of the first six conditions tests once two words were compared; the seventh, N, is
/// that the first is less where the second is 0.
fn relation_of(condition: u8) -> Relation
    requires { condition < 7 }
    ensures { IsTest condition result }
{
    comparison_is_equality();
    comparison_is_signed_order();
    comparison_is_unsigned_order();
    match condition {
        0 => Relation::Never,
        1 => Relation::Equal,
        2 => Relation::LessOrEqual,
        3 => Relation::Less,
        4 => Relation::LessOrEqualUnsigned,
        5 => Relation::LessUnsigned,
        _ => Relation::Less,
    }
}

/// What is asked of two words where a condition is to be true, or false.
pub(crate) fn comparison_of(condition: u8, truth: bool) -> Comparison
    requires condition { condition < 16 }
    requires tested { condition % 8 < 7 }
    ensures { IsAsked condition truth result }
{
    Comparison {
        relation: relation_of(condition % 8),
        holds: truth == (condition < 8),
    }
}
