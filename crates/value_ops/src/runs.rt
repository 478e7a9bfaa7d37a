ghost use Rattle.std.specs.Prelude.{ℕ, ◌^◌, ◌<◌, ◌≤◌, Contains, IsTrue, MatchOption};
ghost use Rattle.value_lattice.specs.Ends.{AreEnds};
ghost use Rattle.value_lattice.specs.Set.{IsSet};
ghost use Rattle.value_lattice.specs.Value.{IsBetween};
ghost use Rattle.value_ops.specs.Row.{IsFilled};
ghost use Rattle.value_ops.specs.Run.{IsRunOf, IsPointwiseRun};

use crate::Op;
use crate::rows::Span;
use value_lattice::{Value, Words};

/// Whether a set has all words between its ends: it has as many words as there are.
fn is_run(words: &Words, ends: Span) -> bool
    requires ends { AreEnds (Value.Words words.now) ends.low ends.high }
    requires filled { IsFilled ends }
    ensures set { IsSet words.now }
    ensures all { IsTrue result → (w : ℕ) → w < 2 ^ 32 → IsBetween ends.low ends.high w → Contains words.now w }
{
    ((ends.high - ends.low) as usize) < words.members().len()
}

/// The sums of all words of two spans, where they fit.
fn sums_of_runs(a: Span, b: Span) -> Option<Span>
    requires left { IsFilled a }
    requires right { IsFilled b }
    ensures { MatchOption result (Unit {0}) (IsRunOf Op.Add a b) }
{
    let low = u64::from(a.low) + u64::from(b.low);
    let high = u64::from(a.high) + u64::from(b.high);
    if low < 0x8000_0000 || 0x1_8000_0000 <= high {
        return None;
    }
    Some(Span {
        low: (low - 0x8000_0000) as u32,
        high: (high - 0x8000_0000) as u32,
    })
}

/// The differences of all words of two spans, where they fit.
fn differences_of_runs(a: Span, b: Span) -> Option<Span>
    requires left { IsFilled a }
    requires right { IsFilled b }
    ensures { MatchOption result (Unit {0}) (IsRunOf Op.Sub a b) }
{
    let low = u64::from(a.low) + 0x8000_0000;
    let high = u64::from(a.high) + 0x8000_0000;
    let least = u64::from(b.low);
    let greatest = u64::from(b.high);
    if low < greatest || least + 0x1_0000_0000 <= high {
        return None;
    }
    Some(Span {
        low: (low - greatest) as u32,
        high: (high - least) as u32,
    })
}

/// The ends of the results for the words of two sets, where both sets and the results are known to have all
/// words between their ends.
pub(crate) fn results_of_runs(op: Op, xs: &Words, ys: &Words, a: Span, b: Span) -> Option<Span>
    requires left { AreEnds (Value.Words xs.now) a.low a.high }
    requires right { AreEnds (Value.Words ys.now) b.low b.high }
    requires left_filled { IsFilled a }
    requires right_filled { IsFilled b }
    ensures { MatchOption result (Unit {0}) (IsPointwiseRun op xs.now ys.now) }
{
    if !is_run(xs, a) || !is_run(ys, b) {
        return None;
    }
    match op {
        Op::Add => sums_of_runs(a, b),
        Op::Sub => differences_of_runs(a, b),
        _ => None,
    }
}
