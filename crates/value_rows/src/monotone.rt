//! Instances of the laws of operations and refinement: of less, and over more thresholds, there is less.
ghost use Rattle.std.specs.Prelude.{IfOk, IfSome};
ghost use Rattle.value_lattice.specs.Value.{IsOver, IsValue};

use std::alloc::Global;
use std::test::Fail;
use value_lattice::{Thresholds, Value, cover, number_at_place, span};
use value_ops::{Op, apply};
use value_refine::{mirror, refine, within};
use word_ops::{difference_flags, holds};

/// The ends of a value, as numbers with sign.
fn ends(v: &Value) -> (i32, i32) {
    let (low, high) = v.ends();
    (number_at_place(low), number_at_place(high))
}

/// All from the one number to the other.
fn between(alloc: Global, side: (i32, i32), t: &Thresholds) -> Result<Value, Fail>
    ensures { IfOk result (IsOver t.now) }
{
    let (lo, hi) = side;
    Ok(span(alloc, lo, lo.max(hi), t)?)
}

/// An operation, the ends of its sides, the ends of smaller sides and one more threshold, and the ends of both results.
const RESULTS: [(Op, [(i32, i32); 2], [(i32, i32); 2], i32, [(i32, i32); 2]); 3] = [
    (
        Op::Add,
        [(0, 255), (0, 255)],
        [(0, 200), (0, 200)],
        600,
        [(0, 32767), (0, 600)],
    ),
    (
        Op::Sub,
        [(0, 255), (0, 255)],
        [(0, 200), (0, 200)],
        -300,
        [(-32768, 255), (-300, 255)],
    ),
    (
        Op::Mul,
        [(0, 255), (3, 3)],
        [(0, 200), (3, 3)],
        800,
        [(0, 32767), (0, 800)],
    ),
];

/// The result of an operation on two sides.
fn result_of(alloc: Global, op: Op, sides: [(i32, i32); 2], t: &Thresholds) -> Result<Value, Fail>
    ensures { IfOk result (IsOver t.now) }
{
    let [left, right] = sides;
    let a = between(alloc, left, t)?;
    let b = between(alloc, right, t)?;
    Ok(apply(alloc, op, &a, &b, t)?)
}

/// Whether an operation on smaller sides, over one more threshold, gives less than on wider ones, and both have these ends.
fn results_fall(
    alloc: Global,
    op: Op,
    wide: [(i32, i32); 2],
    narrow: [(i32, i32); 2],
    threshold: i32,
    want: [(i32, i32); 2],
) -> Result<bool, Fail> {
    let t = Thresholds::make(alloc, &[])?;
    let more = t.widened(alloc, &[threshold])?;
    let wider = result_of(alloc, op, wide, &t)?;
    let narrower = result_of(alloc, op, narrow, &more)?;
    Ok(narrower.at_most(&wider) && [ends(&wider), ends(&narrower)] == want)
}

#[test]
fn results_of_smaller_sides(rt: HostRuntime) -> Result<(), Fail> {
    for (op, wide, narrow, threshold, want) in &RESULTS {
        let fall = results_fall(rt.alloc(), *op, *wide, *narrow, *threshold, *want)?;
        assert!(rt; fall, "{op:?} of {wide:?} and of {narrow:?}");
    }
    Ok(())
}

/// What is left of a value of numbers: by a condition and whether it holds against one word, or between two numbers.
#[derive(Clone, Copy, Debug)]
enum Limit {
    Condition(u8, bool, u32),
    Between(i32, i32),
}

/// A limit, the ends of a value, the ends of a smaller one and one more threshold, and the ends of what is left of both.
const RESTS: [(Limit, (i32, i32), (i32, i32), i32, [Option<(i32, i32)>; 2]); 6] = [
    (
        Limit::Condition(3, true, 7),
        (0, 255),
        (0, 200),
        200,
        [Some((0, 6)), Some((0, 6))],
    ),
    (
        Limit::Condition(3, true, 180),
        (0, 255),
        (0, 200),
        200,
        [Some((0, 255)), Some((0, 200))],
    ),
    (
        Limit::Condition(11, true, 250),
        (0, 255),
        (0, 200),
        200,
        [Some((250, 255)), None],
    ),
    (
        Limit::Condition(8, true, 1),
        (0, 255),
        (0, 200),
        200,
        [Some((0, 255)), Some((0, 200))],
    ),
    (
        Limit::Condition(0, true, 1),
        (0, 255),
        (0, 200),
        200,
        [None, None],
    ),
    (
        Limit::Between(10, 12),
        (0, 255),
        (0, 200),
        200,
        [Some((10, 12)), Some((10, 12))],
    ),
];

/// What a limit leaves of a value.
fn rest_of(
    alloc: Global,
    limit: Limit,
    value: &Value,
    t: &Thresholds,
) -> Result<Option<Value>, Fail>
    requires { IsOver t.now value.now }
    ensures { IfOk result (λ rest. IfSome rest (IsOver t.now)) }
{
    match limit {
        Limit::Condition(cond, truth, word) => {
            let right = cover(alloc, &[word], t)?;
            Ok(refine(alloc, cond % 16, truth, value, &right, t)?)
        }
        Limit::Between(lo, hi) => Ok(within(alloc, value, lo, hi, t)?),
    }
}

/// Whether what is left, if anything, is at most a value.
fn is_inside(rest: &Option<Value>, value: &Value) -> bool
    requires rest { IfSome rest.now IsValue }
    requires value { IsValue value.now }
{
    match rest {
        Some(v) => v.at_most(value),
        None => true,
    }
}

/// Whether of the one rest there is no more than of the other.
fn is_less(rest: &Option<Value>, other: &Option<Value>) -> bool
    requires rest { IfSome rest.now IsValue }
    requires other { IfSome other.now IsValue }
{
    match other {
        Some(v) => is_inside(rest, v),
        None => rest.is_none(),
    }
}

/// The ends of what is left, if anything.
fn ends_of_rest(rest: &Option<Value>) -> Option<(i32, i32)> {
    match rest {
        Some(v) => Some(ends(v)),
        None => None,
    }
}

/// Whether a limit leaves no more than the value of each value, and of the smaller, over one more threshold, less; and what
/// it leaves has these ends.
fn rests_fall(
    alloc: Global,
    limit: Limit,
    wide: (i32, i32),
    narrow: (i32, i32),
    threshold: i32,
    want: [Option<(i32, i32)>; 2],
) -> Result<bool, Fail> {
    let t = Thresholds::make(alloc, &[])?;
    let more = t.widened(alloc, &[threshold])?;
    let wider = between(alloc, wide, &t)?;
    let narrower = between(alloc, narrow, &more)?;
    let of_wider = rest_of(alloc, limit, &wider, &t)?;
    let of_narrower = rest_of(alloc, limit, &narrower, &more)?;
    let less = is_inside(&of_wider, &wider)
        && is_inside(&of_narrower, &narrower)
        && is_less(&of_narrower, &of_wider);
    Ok(less && [ends_of_rest(&of_wider), ends_of_rest(&of_narrower)] == want)
}

#[test]
fn what_is_left_of_smaller_values(rt: HostRuntime) -> Result<(), Fail> {
    for (limit, wide, narrow, threshold, want) in &RESTS {
        let fall = rests_fall(rt.alloc(), *limit, *wide, *narrow, *threshold, *want)?;
        assert!(rt; fall, "{limit:?} of {wide:?} and of {narrow:?}");
    }
    Ok(())
}

/// Words at the edges of both readings.
const EDGES: [u32; 5] = [0, 1, 0x7fff_ffff, 0x8000_0000, 0xffff_ffff];

/// Whether a condition of two words is what its mirrored one is of the two exchanged, where it has a mirrored one; and
/// whether, against zero, the sign of the difference is the order with sign.
fn exchanges(cond: u8, x: u32, y: u32) -> bool {
    let code = cond % 16;
    let there = holds(code, &difference_flags(x, y, false));
    let back = holds(mirror(code) % 16, &difference_flags(y, x, false));
    let sign = holds(6, &difference_flags(x, 0, false)) == holds(3, &difference_flags(x, 0, false));
    sign && (code % 8 >= 6 || there == back)
}

/// Whether each condition exchanges with each pair of the words.
fn all_exchange(cond: u8) -> bool {
    EDGES
        .iter()
        .all(|x| EDGES.iter().all(|y| exchanges(cond, *x, *y)))
}

#[test]
fn mirrored_conditions(rt: HostRuntime) {
    for cond in 0..16u8 {
        assert!(rt; all_exchange(cond), "{cond}");
    }
}
