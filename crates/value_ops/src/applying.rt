ghost use Rattle.std.specs.Prelude.{◌≡◌, ◌∷◌, [], IfOk};
ghost use Rattle.value_lattice.specs.Ends.{AreEnds};
ghost use Rattle.value_lattice.specs.Value.{IsValue, IsOver, IsLeast};
ghost use Rattle.value_ops.specs.Operation.{IsApplied, IsStep, IsTwice, IsSpanned, IsComputed, IsPointwise, apply, carried_of, copies_left, copies_right};
ghost use Rattle.value_ops.specs.Row.{IsFilled};

use crate::Op;
use crate::pointwise::pointwise;
use crate::rows::{Span, row};
use crate::runs::results_of_runs;
use bt_base::Want;
use std::alloc::Global;
use value_lattice::{Thresholds, Value, Words, cover, span_of_places};

/// The ends of a value, by their places.
fn span_of(v: &Value) -> Span
    requires { IsValue v.now }
    ensures ends { AreEnds v.now result.low result.high }
    ensures filled { IsFilled result }
{
    let (low, high) = v.ends();
    Span { low, high }
}

/// The least value that has all between the ends that the sources' ends give.
fn spanned(alloc: Global, op: Op, a: &Value, b: &Value, t: &Thresholds) -> Result<Value, Want>
    requires left { IsValue a.now }
    requires right { IsValue b.now }
    ensures { IfOk result (IsSpanned t.now op a.now b.now) }
{
    let ends = row(op, b.one_word(), span_of(a), span_of(b));
    span_of_places(alloc, ends.low, ends.high, t)
}

/// The least value that has the result of each pair of words of two sets. Where the sets are runs, as the values
/// of counters are, and so are the results, nothing is listed but a result that is a set.
fn of_sets(
    alloc: Global,
    op: Op,
    xs: &Words,
    ys: &Words,
    a: Span,
    b: Span,
    t: &Thresholds,
) -> Result<Value, Want>
    requires left { AreEnds (Value.Words xs.now) a.low a.high }
    requires right { AreEnds (Value.Words ys.now) b.low b.high }
    requires left_filled { IsFilled a }
    requires right_filled { IsFilled b }
    ensures { IfOk result (IsLeast t.now (IsPointwise op xs.now ys.now)) }
{
    match results_of_runs(op, xs, ys, a, b) {
        Some(ends) => span_of_places(alloc, ends.low, ends.high, t),
        None => pointwise(alloc, op, xs, ys, t),
    }
}

/// The result of an operation whose sides aren't copied.
fn computed(alloc: Global, op: Op, a: &Value, b: &Value, t: &Thresholds) -> Result<Value, Want>
    requires left { IsValue a.now }
    requires right { IsValue b.now }
    ensures { IfOk result (IsComputed t.now op a.now b.now) }
{
    match a {
        Value::Words(xs) => match b {
            Value::Words(ys) => of_sets(alloc, op, xs, ys, span_of(a), span_of(b), t),
            Value::Range { .. } => spanned(alloc, op, a, b, t),
            Value::Ret => spanned(alloc, op, a, b, t),
        },
        Value::Range { .. } => spanned(alloc, op, a, b, t),
        Value::Ret => spanned(alloc, op, a, b, t),
    }
}

/// Whether an operation copies its left side where the right side is 0.
fn copies_left(op: Op) -> bool
    ensures { result ≡ copies_left op }
{
    match op {
        Op::Add => true,
        Op::Or => true,
        Op::Sub => true,
        _ => false,
    }
}

/// Whether an operation copies its right side where the left side is 0.
fn copies_right(op: Op) -> bool
    ensures { result ≡ copies_right op }
{
    match op {
        Op::Add => true,
        Op::Or => true,
        _ => false,
    }
}

/// An operation that reads no carry.
fn step(alloc: Global, op: Op, a: &Value, b: &Value, t: &Thresholds) -> Result<Value, Want>
    requires left { IsOver t.now a.now }
    requires right { IsOver t.now b.now }
    ensures step { IfOk result (IsStep t.now op a.now b.now) }
    ensures over { IfOk result (IsOver t.now) }
{
    if copies_left(op) && b.is_zero() {
        return a.copy(alloc);
    }
    if copies_right(op) && a.is_zero() {
        return b.copy(alloc);
    }
    computed(alloc, op, a, b, t)
}

/// The set of 0 and 1, which the carry is one of.
fn carry(alloc: Global, t: &Thresholds) -> Result<Value, Want>
    ensures { IfOk result (λ v. v ≡ Value.Words (0 ∷ 1 ∷ [])) }
{
    cover(alloc, &[0, 1], t)
}

/// An operation, and then the same with 0 or 1 on its right side.
fn twice(alloc: Global, op: Op, a: &Value, b: &Value, t: &Thresholds) -> Result<Value, Want>
    requires left { IsOver t.now a.now }
    requires right { IsOver t.now b.now }
    ensures twice { IfOk result (IsTwice t.now op a.now b.now) }
    ensures over { IfOk result (IsOver t.now) }
{
    let between = step(alloc, op, a, b, t)?;
    let carry = carry(alloc, t)?;
    step(alloc, op, &between, &carry, t)
}

/// The operation that is taken twice for one with a carry.
fn carried_of(op: Op) -> Option<Op>
    ensures { result ≡ carried_of op }
{
    match op {
        Op::Addx => Some(Op::Add),
        Op::Subx => Some(Op::Sub),
        _ => None,
    }
}

/// The result of an operation on what its sources may be.
///
/// A sum or an or with 0 is the other side, and a difference less 0 its left side. Two sets of words give the
/// least value that has the result of each pair. Any other values give the least that has all between ends
/// which the ends of the sources give. The operations with a carry are two steps, the second with 0 or 1.
pub fn apply(alloc: Global, op: Op, a: &Value, b: &Value, t: &Thresholds) -> Result<Value, Want>
    requires left { IsOver t.now a.now }
    requires right { IsOver t.now b.now }
    ensures applied { IfOk result (IsApplied t.now op a.now b.now) }
    ensures value { IfOk result (λ v. v ≡ apply t.now op a.now b.now) }
    ensures over { IfOk result (IsOver t.now) }
{
    t.are_thresholds();
    match carried_of(op) {
        Some(base) => twice(alloc, base, a, b, t),
        None => step(alloc, op, a, b, t),
    }
}
