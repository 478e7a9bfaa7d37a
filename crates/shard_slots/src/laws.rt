//! Facts about tables of parts: each is the contract of a function that does nothing.
ghost use Rattle.shard_slots.specs.Law.{StepsKeepTheRule, PartsHaveOneHolder};
ghost use Rattle.shard_slots.specs.Table.{Table, IsKept};

use crate::hold::Hold;
use crate::rule::OneHolder;
use atomic_table::TableRule;

/// The opening meets the rule of a table of parts, and each kind of step keeps it.
pub fn steps_keep_the_rule<T>()
    ensures { StepsKeepTheRule T }
{}

/// Under the rule a part that is out has exactly one holder, two seats never hold the same part, a seat with all the
/// weight finds each part that it doesn't hold, and at the closing each part is in its slot.
pub fn parts_have_one_holder<T>()
    ensures { PartsHaveOneHolder T }
{}

/// The rule that parts in slots have is the rule of a table of parts: no weaker one.
pub fn parts_keep_the_rule<T>()
    ensures { (t : Table T) → ⟦<OneHolder as TableRule<Option<T>, Hold, ()>>⟧.holds tt t → IsKept t }
{}
