ghost use Rattle.value_lattice.specs.Test.{is_at_most};
ghost use Rattle.std.specs.Prelude.{◌≡◌, ◌+◌, ◌≤◌, ◌↔◌, IsTrue, All, Contains};
ghost use Rattle.value_lattice.specs.Order.{rank_of};
ghost use Rattle.value_lattice.specs.Set.{IsSet};
ghost use Rattle.value_lattice.specs.Value.{AtMost, HasEach, IsBetween, IsValue};

use crate::order::{place, rank};
use crate::{Value, Words};

/// Whether each of these words is one of a set.
fn are_among(words: &[u32], set: &Words) -> bool
    ensures { IsTrue result ↔ All (Contains set.now) words.now }
{
    for word in words {
        if !set.has(*word) {
            return false;
        }
    }
    true
}

/// Whether each of these words is between two places.
fn are_between(words: &[u32], low: u32, high: u32) -> bool
    ensures { IsTrue result ↔ All (IsBetween low high) words.now }
{
    words.iter().all(|w| low <= place(*w) && place(*w) <= high)
}

/// Whether a range reaches from the one place to the other, or further.
fn encloses(lo: i32, hi: i32, low: u32, high: u32) -> bool
    ensures { IsTrue result ↔ (rank_of lo ≤ low) × (high ≤ rank_of hi) }
{
    rank(lo) <= low && high <= rank(hi)
}

/// Whether a value has all words between two places, which are so far apart that no set has them.
fn has_between(value: &Value, low: u32, high: u32) -> bool
    requires value { IsValue value.now }
    requires far { low + 128 ≤ high }
    ensures { IsTrue result ↔ HasEach (IsBetween low high) value.now }
{
    match value {
        Value::Words(_) => false,
        Value::Range { lo, hi } => encloses(*lo, *hi, low, high),
        Value::Ret => false,
    }
}

/// Whether a value has each word of a set.
fn has_set(value: &Value, set: &Words) -> bool
    requires { IsSet set.now }
    ensures { IsTrue result ↔ AtMost (Value.Words set.now) value.now }
{
    match value {
        Value::Words(words) => are_among(set.members(), words),
        Value::Range { lo, hi } => are_between(set.members(), rank(*lo), rank(*hi)),
        Value::Ret => false,
    }
}

/// Whether a value has the return address, whatever it is.
fn has_return_address(value: &Value) -> bool
    requires { IsValue value.now }
    ensures { IsTrue result ↔ AtMost Value.Ret value.now }
{
    match value {
        Value::Ret => true,
        Value::Words(_) => false,
        Value::Range { .. } => has_between(value, 0, u32::MAX),
    }
}

impl Value {
    /// Whether each word that this value has is one that the other has, whatever the return address is. So
    /// `Ret` is at most itself and any word.
    pub fn at_most(&self, other: &Value) -> bool
        requires left { IsValue self.now }
        requires right { IsValue other.now }
        ensures order { IsTrue result ↔ AtMost self.now other.now }
        ensures value { result ≡ is_at_most self.now other.now }
    {
        match self {
            Value::Words(words) => has_set(other, words),
            Value::Range { lo, hi } => has_between(other, rank(*lo), rank(*hi)),
            Value::Ret => has_return_address(other),
        }
    }
}
