//! An instance of the law of chains: values that rise one after the other are no more than 128 and the number of thresholds.
ghost use Rattle.std.specs.Prelude.{◌≤◌, ◌∷◌, [], IsTrue, List, length};
ghost use Rattle.value_lattice.specs.Height.{IsBelow, IsChain};
ghost use Rattle.value_lattice.specs.Value.{IsOver, IsValue};
ghost use Rattle.value_lattice.specs.declared.value.Value.{Value};

use std::test::Fail;
use value_lattice::{Thresholds, Value, chains_are_short, cover, span};

/// Whether the one value is at most the other, and not the other way round.
fn is_below(a: &Value, b: &Value) -> bool
    requires left { IsValue a.now }
    requires right { IsValue b.now }
    ensures { IsTrue result → IsBelow a.now b.now }
{
    a.at_most(b) && !b.at_most(a)
}

/// Whether three values rise one after the other.
fn are_a_chain(a: &Value, b: &Value, c: &Value, t: &Thresholds) -> bool
    requires first { IsOver t.now a.now }
    requires second { IsOver t.now b.now }
    requires third { IsOver t.now c.now }
    ensures { IsTrue result → IsChain t.now (a.now ∷ b.now ∷ c.now ∷ []) }
{
    let _ = t;
    is_below(a, b) && is_below(b, c)
}

/// Whether the thresholds are eleven, so that no more than 139 values rise one after the other.
fn at_most_139_rise(t: &Thresholds) -> bool
    ensures { IsTrue result → (values : List Value) → IsChain t.now values → length values ≤ 139 }
{
    chains_are_short();
    t.len() == 11
}

#[test]
fn chains_of_values(rt: HostRuntime) -> Result<(), Fail> {
    let alloc = rt.alloc();
    let t = Thresholds::make(alloc, &[])?;
    let zero = cover(alloc, &[0], &t)?;
    let two = cover(alloc, &[0, 5], &t)?;
    let byte = span(alloc, 0, 255, &t)?;
    let any = span(alloc, i32::MIN, i32::MAX, &t)?;
    assert!(rt; are_a_chain(&zero, &two, &byte, &t) && are_a_chain(&two, &byte, &any, &t));
    assert!(rt; !are_a_chain(&zero, &byte, &two, &t) && !are_a_chain(&zero, &zero, &two, &t));
    assert!(rt; at_most_139_rise(&t) && !at_most_139_rise(&t.widened(alloc, &[1000])?));
    Ok(())
}
