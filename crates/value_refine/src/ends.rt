ghost use Rattle.std.specs.Prelude.{◌≤◌};
ghost use Rattle.value_lattice.specs.Ends.{AreEnds};
ghost use Rattle.value_lattice.specs.Set.{IsSet};
ghost use Rattle.value_lattice.specs.Value.{IsValue};
ghost use Rattle.value_refine.specs.Comparison.{AreEndsBy, AreWordEnds, by_place, by_word};

use crate::interval::Interval;
use value_lattice::{Value, word_at_place};

/// The places of the least and the greatest word of a value; those of all words for the return address.
pub(crate) fn place_ends(v: &Value) -> Interval
    requires { IsValue v.now }
    ensures ends { AreEnds v.now result.low result.high }
    ensures by { AreEndsBy by_place v.now result }
{
    let (low, high) = v.ends();
    Interval { low, high }
}

/// The first and the last of rising words.
fn first_and_last(words: &[u32]) -> Interval
    requires { IsSet words.now }
    ensures { AreEndsBy by_word (Value.Words words.now) result }
{
    Interval {
        low: words[0],
        high: words[words.len() - 1],
    }
}

/// The least and the greatest word with places in an interval, as words are read without sign: where there are
/// negative words and others, the least and the greatest of all.
fn word_ends_of(places: Interval) -> Interval
    requires { places.low ≤ places.high }
    ensures { AreWordEnds places result }
{
    let low = word_at_place(places.low);
    let high = word_at_place(places.high);
    if high < low {
        return Interval::all();
    }
    Interval { low, high }
}

/// The least and the greatest word of a value, as words are read without sign.
pub(crate) fn word_ends(v: &Value) -> Interval
    requires { IsValue v.now }
    ensures { AreEndsBy by_word v.now result }
{
    match v {
        Value::Words(words) => first_and_last(words.members()),
        Value::Range { .. } => word_ends_of(place_ends(v)),
        Value::Ret => Interval::all(),
    }
}
