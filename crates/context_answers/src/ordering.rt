//! Reasons in their order.
ghost use Rattle.context_answers.specs.Adding.{IsPutInOrder};

use wcet_report::Reason;

/// Puts reasons in order, each once.
pub fn put_in_order(reasons: &mut Vec<Reason>)
    ensures { IsPutInOrder reasons.old.items reasons.new.items }
{
    reasons.sort_unstable();
    reasons.dedup();
}
