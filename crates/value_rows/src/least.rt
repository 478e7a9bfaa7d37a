//! An instance of the law of least values: a test that passes two words has one, which is what covers them.
ghost use Rattle.std.specs.Prelude.{◌≡◌, ◌∷◌, [], IfOk, Some, eqb};
ghost use Rattle.std.specs.Set.{is_member};
ghost use Rattle.value_lattice.specs.Least.{least_of};

use std::alloc::Global;
use std::test::Fail;
use value_lattice::{Thresholds, Value, cover, least_values_exist};

/// The least value with all words that the test of the words 3 and 7 passes: what covers them.
fn least_of_two(alloc: Global, t: &Thresholds) -> Result<Value, Fail>
    ensures { IfOk result (λ v. least_of t.now (is_member eqb (3 ∷ 7 ∷ [])) ≡ Some v) }
{
    t.are_thresholds();
    least_values_exist();
    Ok(cover(alloc, &[3, 7], t)?)
}

#[test]
fn least_values(rt: HostRuntime) -> Result<(), Fail> {
    let alloc = rt.alloc();
    let t = Thresholds::make(alloc, &[])?;
    let v = least_of_two(alloc, &t)?;
    assert!(rt; v.may_have(3) && v.may_have(7) && !v.may_have(4) && !v.may_have(8));
    Ok(())
}
