ghost use Rattle.std.specs.Prelude.{◌≡◌, ◌<◌, ℕ, length, slice_index};
ghost use Rattle.path_bound.specs.Capped.{cap};
ghost use Rattle.path_bound.specs.Choosing.{label_at, is_end as ends, asked as asks, greater as greater_of, best_of};
ghost use Rattle.path_bound.specs.Steps.{AreWithin};

use crate::adding::sum;
use crate::stepping::Step;

/// What a walk from a node costs at most, or the limit where that is more, and the node to which its first step leads, if
/// it has one.
#[derive(Clone, Copy, Debug)]
pub(crate) struct Label {
    pub cost: u64,
    pub next: Option<u32>,
}

/// Whether a walk ends at a node.
fn is_end(head: Option<u32>, node: u32) -> bool
    ensures { result ≡ ends head node }
{
    match head {
        None => false,
        Some(end) => end == node,
    }
}

/// What a step asks of the label of the node from which it leads, by the label of the node to which it leads.
fn asked(head: Option<u32>, laps: &[u64], labels: &[Option<Label>], step: Step) -> Option<Label>
    requires laps { step.to < length laps.now }
    requires labels { step.to < length labels.now }
    ensures { result ≡ asks cap head (slice_index laps.now) (label_at labels.now) step }
{
    if is_end(head, step.to) {
        return Some(Label {
            cost: step.cost,
            next: None,
        });
    }
    match labels[step.to as usize] {
        None => None,
        Some(label) => {
            let before = sum(step.cost, laps[step.to as usize]);
            Some(Label {
                cost: sum(before, label.cost),
                next: Some(step.to),
            })
        }
    }
}

/// The label of the greater cost, or the first of two that cost the same.
fn greater(one: Option<Label>, two: Option<Label>) -> Option<Label>
    ensures { result ≡ greater_of one two }
{
    match one {
        None => two,
        Some(old) => match two {
            None => one,
            Some(new) => { if old.cost < new.cost { two } else { one } }
        },
    }
}

/// The greatest of a label and of those that the steps from its node ask.
pub(crate) fn best(
    head: Option<u32>,
    laps: &[u64],
    labels: &[Option<Label>],
    start: Option<Label>,
    steps: &[Step],
) -> Option<Label>
    requires laps { AreWithin (length laps.now) steps.now }
    requires labels { length labels.now ≡ length laps.now }
    ensures { result ≡ best_of cap head (slice_index laps.now) (label_at labels.now) start steps.now }
{
    let mut best = start;
    for step in steps {
        best = greater(best, asked(head, laps, labels, *step));
    }
    best
}
