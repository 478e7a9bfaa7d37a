//! Facts about values: each is the contract of a function that does nothing.
ghost use Rattle.value_lattice.specs.Height.{HeightsRise, ChainsAreShort, HeightsOfListsRise};
ghost use Rattle.value_lattice.specs.Least.{LeastValuesExist, FunctionsAreLeast, FunctionsMakeNoReturnAddress, JoinIsLeast, FunctionsFallWithThresholds};
ghost use Rattle.value_lattice.specs.Test.{TestsDecide, TheOrderIsOne};
ghost use Rattle.value_lattice.specs.Laws.{OrderIsOne, OrdersOfJoinsAgree, MoreThresholdsRefine};
ghost use Rattle.value_lattice.specs.Order.{PlacesAreSigned, RanksKeepOrder};

/// The place of a word is that of the number with sign that it is read as.
pub fn places_are_signed()
    ensures { PlacesAreSigned }
{}

/// Places are ordered as the numbers with sign are.
pub fn ranks_keep_order()
    ensures { RanksKeepOrder }
{}

/// The order of values is one: each is at most itself, it goes on from one to the next, and two values that are
/// at most each other are the same.
pub fn order_is_one()
    ensures { OrderIsOne }
{}

/// The same values joined in any order come to the same value.
pub fn orders_of_joins_agree()
    ensures { OrdersOfJoinsAgree }
{}

/// What is computed of less over more thresholds is at most what is computed over fewer.
pub fn more_thresholds_refine()
    ensures { MoreThresholdsRefine }
{}

/// A value below another has less height, and none has more than 128 and the number of thresholds.
pub fn heights_rise()
    ensures { HeightsRise }
{}

/// Values that rise one after the other are no more than 128 and the number of thresholds.
pub fn chains_are_short()
    ensures { ChainsAreShort }
{}

/// There is a least value with all words that a test passes, and none exactly where it passes no word.
pub fn least_values_exist()
    ensures { LeastValuesExist }
{}

/// The tests of values, and of one value against another, decide what they are named after.
pub fn tests_decide()
    ensures { TestsDecide }
{}

/// The order as a test: values are at most themselves and any word, it goes on from one to the next, values that
/// are at most each other are the same, and what is at most the word 0 is the word 0.
pub fn order_as_a_test_is_one()
    ensures { TheOrderIsOne }
{}

/// `cover`, `span` and `join` as functions of the thresholds and their arguments are the least values.
pub fn functions_are_least()
    ensures { FunctionsAreLeast }
{}

/// None of them gives the return address but the join of it with itself.
pub fn functions_make_no_return_address()
    ensures { FunctionsMakeNoReturnAddress }
{}

/// The join of two values is at least both, and at most what is at least both.
pub fn join_is_least()
    ensures { JoinIsLeast }
{}

/// Of less, and over more thresholds, the functions give what is at most what they gave.
pub fn functions_fall_with_thresholds()
    ensures { FunctionsFallWithThresholds }
{}

/// Where each value of a list is at most that of another list, the heights together rise, or the lists are the same.
pub fn heights_of_lists_rise()
    ensures { HeightsOfListsRise }
{}
