ghost use Rattle.std.specs.Prelude.{◌≡◌, ◌<◌, ℕ, Some, length, IfOk};
ghost use Rattle.path_bound.specs.Choosing.{label_at, next_of as leads_to};
ghost use Rattle.path_bound.specs.Ranked.{rank_in};
ghost use Rattle.path_bound.specs.Turning.{IsFollowed};

use crate::choosing::Label;
use bt_base::Want;
use std::alloc::Global;

/// The node to which the label of a node leads, if it leads on.
fn next_of(labels: &[Option<Label>], node: u32) -> Option<u32>
    requires { node < length labels.now }
    ensures { result ≡ leads_to (label_at labels.now node) }
{
    match labels[node as usize] {
        None => None,
        Some(label) => label.next,
    }
}

/// The walk to which the labels lead from a node.
pub(crate) fn follow(
    alloc: Global,
    order: &[u32],
    labels: &[Option<Label>],
    from: u32,
) -> Result<Vec<u32>, Want>
    requires within { (n m : ℕ) → leads_to (label_at labels.now n) ≡ Some m → m < length labels.now }
    requires falls { (n m : ℕ) → leads_to (label_at labels.now n) ≡ Some m → rank_in order.now m < rank_in order.now n }
    requires from { from < length labels.now }
    requires placed { rank_in order.now from < length order.now }
    ensures { IfOk result (λ walk. IsFollowed labels.now from walk.items) }
{
    let mut walk = Vec::new(alloc);
    walk.push(from)?;
    let mut node = from;
    for _step in 0..order.len() {
        match next_of(labels, node) {
            None => return Ok(walk),
            Some(next) => {
                walk.push(next)?;
                node = next;
            }
        }
    }
    Ok(walk)
}
