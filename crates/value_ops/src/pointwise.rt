ghost use Rattle.std.specs.Prelude.{◌≡◌, ◌++◌, false, IfOk, OnOk, map};
ghost use Rattle.std.specs.List.{flat_map};
ghost use Rattle.value_lattice.specs.Value.{IsLeast};
ghost use Rattle.value_ops.specs.Operation.{IsPointwise, result_of};

use crate::Op;
use crate::computing::compute;
use bt_base::Want;
use std::alloc::Global;
use value_lattice::{Thresholds, Value, Words, cover};

/// Puts the results of a word with each of others behind what is there.
fn extend(results: &mut Vec<u32>, op: Op, x: u32, ys: &[u32]) -> Result<(), Want>
    ensures { OnOk result (results.new.items ≡ results.old.items ++ map (result_of op false x) ys.now) }
{
    for y in ys {
        results.push(compute(op, x, *y))?;
    }
    Ok(())
}

/// The result of each pair of words.
fn results_of(alloc: Global, op: Op, xs: &[u32], ys: &[u32]) -> Result<Vec<u32>, Want>
    ensures { IfOk result (λ v. v.items ≡ flat_map (λ x. map (result_of op false x) ys.now) xs.now) }
{
    let mut results = Vec::new(alloc);
    for x in xs {
        extend(&mut results, op, *x, ys)?;
    }
    Ok(results)
}

/// The least value that has the result of each pair of words of two sets.
pub(crate) fn pointwise(
    alloc: Global,
    op: Op,
    xs: &Words,
    ys: &Words,
    t: &Thresholds,
) -> Result<Value, Want>
    ensures { IfOk result (IsLeast t.now (IsPointwise op xs.now ys.now)) }
{
    let results = results_of(alloc, op, xs.members(), ys.members())?;
    cover(alloc, results.as_slice(), t)
}
