ghost use Rattle.std.specs.Prelude.{◌≡◌, ◌++◌, ℕ, IfOk, codes};
ghost use Rattle.std.specs.List.{flat_map};
ghost use Rattle.std.specs.BTreeMap.{get};
ghost use Rattle.std.specs.Ordering.{nat_cmp};
ghost use Rattle.wcet_report.specs.Line.{line_of, function_words};
ghost use Rattle.wcet_report.specs.Outcome.{bound_words};
ghost use Rattle.wcet_report.specs.Report.{open_bound, flattened, bounded_line};

use crate::contexts::is_open;
use crate::lines::{put_bound, put_function};
use crate::outcome::Outcome;
use bt_base::Want;
use bt_image::Image;
use std::alloc::Global;
use std::collections::BTreeMap;

/// The bounds of the subprograms that have an outcome with nothing known of their arguments.
pub(crate) fn open_bounds(
    alloc: Global,
    list: &[Outcome],
) -> Result<BTreeMap<u32, Option<u64>>, Want>
    ensures { IfOk result (λ bounds. (root : ℕ) → get nat_cmp bounds root ≡ open_bound root list.now) }
{
    let mut bounds = BTreeMap::new(alloc);
    for outcome in list {
        if is_open(&outcome.context) && !bounds.contains_key(&outcome.sub) {
            bounds.insert(outcome.sub, outcome.bound)?;
        }
    }
    Ok(bounds)
}

/// Appends the line of a root.
#[tactic(auto, unfolding(crate::specs::Line::line_of))]
fn put_root(text: &mut Vec<u8>, image: &Image, root: u32, bound: Option<u64>) -> Result<(), Want>
    ensures { IfOk result (λ _. text.new.items
        ≡ text.old.items ++ line_of (codes "root") (function_words image.now root ++ bound_words bound)) }
{
    text.extend_from_slice(b"root")?;
    put_function(text, image, root)?;
    put_bound(text, bound)?;
    text.push(b'\n')?;
    Ok(())
}

/// The bound of a root.
fn bound_of(bounds: &BTreeMap<u32, Option<u64>>, root: u32) -> Option<u64>
    ensures { result ≡ flattened (get nat_cmp bounds.now root) }
{
    match bounds.get(&root) {
        Some(bound) => *bound,
        None => None,
    }
}

/// Appends the lines of roots.
pub(crate) fn put_roots(
    text: &mut Vec<u8>,
    image: &Image,
    roots: &[u32],
    bounds: &BTreeMap<u32, Option<u64>>,
) -> Result<(), Want>
    ensures { IfOk result (λ _. text.new.items
        ≡ text.old.items ++ flat_map (λ root. bounded_line image.now root (flattened (get nat_cmp bounds.now root))) roots.now) }
{
    for root in roots {
        put_root(text, image, *root, bound_of(bounds, *root))?;
    }
    Ok(())
}
