//! What bounds the passes of a head: the less of what counts and what is asserted.
ghost use Rattle.std.specs.Prelude.{◌≡◌};
ghost use Rattle.context_outcomes.specs.Heads.{by_less, by_of, passes_by};

use abs_state::HeadBound;
use wcet_report::By;

/// The less of a counter's passes and an asserted count; the counter where both are the same.
fn by_less(counter: HeadBound, count: u64) -> By
    ensures { result ≡ by_less counter count }
{
    if counter.passes <= count {
        By::Counter(counter)
    } else {
        By::Asserted(count)
    }
}

/// What bounds the passes of a head, by what counts and what is asserted.
pub fn by_of(counter: Option<HeadBound>, count: Option<u64>) -> By
    ensures { result ≡ by_of counter count }
{
    match (counter, count) {
        (None, None) => By::Nothing,
        (None, Some(count)) => By::Asserted(count),
        (Some(counter), None) => By::Counter(counter),
        (Some(counter), Some(count)) => by_less(counter, count),
    }
}

/// How often a head is passed at most, where that is known.
pub fn passes_by(by: By) -> Option<u64>
    ensures { result ≡ passes_by by }
{
    match by {
        By::Counter(counter) => Some(counter.passes),
        By::Asserted(count) => Some(count),
        By::Nothing => None,
    }
}
