//! Facts compared, joined and copied.
ghost use Rattle.std.specs.Prelude.{◌≡◌, true, length, All, IfOk};
ghost use Rattle.value_lattice.specs.Height.{are_at_most};
ghost use Rattle.value_lattice.specs.Value.{IsOver, IsValue};
ghost use Rattle.abs_state.specs.State.{joined_cells};
ghost use Rattle.transfer_rules.specs.Fact.{is_at_most, is_fact_over, joined};

use abs_state::{AbsState, Args};
use bt_base::Want;
use std::alloc::Global;
use transfer_rules::Fact;
use value_lattice::{Thresholds, Value};

/// The values of a list copied.
fn copy_values(alloc: Global, list: &[Value]) -> Result<Vec<Value>, Want>
    ensures { IfOk result (λ copied. copied.items ≡ list.now) }
{
    let mut copied = Vec::with_capacity(alloc, list.len())?;
    for v in list {
        copied.push(v.copy(alloc)?)?;
    }
    Ok(copied)
}

/// The values of two lists joined, place by place.
fn join_values(alloc: Global, a: &[Value], b: &[Value], t: &Thresholds) -> Result<Vec<Value>, Want>
    requires same { length a.now ≡ length b.now }
    requires left { All (IsOver t.now) a.now }
    requires right { All (IsOver t.now) b.now }
    ensures { IfOk result (λ values. values.items ≡ joined_cells t.now a.now b.now) }
{
    let mut values = Vec::with_capacity(alloc, a.len())?;
    for (i, value) in a.iter().enumerate() {
        let joined = value.join(alloc, &b[i], t)?;
        values.push(joined)?;
    }
    Ok(values)
}

/// Whether each value of the one list is at most the other's at its place.
fn values_at_most(a: &[Value], b: &[Value]) -> bool
    requires same { length a.now ≡ length b.now }
    requires left { All IsValue a.now }
    requires right { All IsValue b.now }
    ensures { result ≡ are_at_most a.now b.now }
{
    for (i, value) in a.iter().enumerate() {
        if !value.at_most(&b[i]) {
            return false;
        }
    }
    true
}

/// A fact equal to this one.
pub fn copy(alloc: Global, a: &Fact) -> Result<Fact, Want>
    ensures { IfOk result (λ copied. copied ≡ a.now) }
{
    match a {
        Fact::State(s) => Ok(Fact::State(s.copy(alloc)?)),
        Fact::Args(args) => Ok(Fact::Args(Args {
            list: copy_values(alloc, args.list.as_slice())?,
        })),
        Fact::Sum(effects) => Ok(Fact::Sum(*effects)),
        Fact::Mark => Ok(Fact::Mark),
    }
}

/// Two states joined.
fn join_states(alloc: Global, a: &AbsState, b: &AbsState, t: &Thresholds) -> Result<Fact, Want>
    requires left { is_fact_over t.now (Fact.State a.now) ≡ true }
    requires right { is_fact_over t.now (Fact.State b.now) ≡ true }
    ensures { IfOk result (λ fact. fact ≡ joined t.now (Fact.State a.now) (Fact.State b.now)) }
{
    Ok(Fact::State(a.join(alloc, b, t)?))
}

/// The arguments of two calls joined.
fn join_arguments(alloc: Global, a: &[Value], b: &[Value], t: &Thresholds) -> Result<Fact, Want>
    requires left { is_fact_over t.now (Fact.Args a.now) ≡ true }
    requires right { is_fact_over t.now (Fact.Args b.now) ≡ true }
    ensures { IfOk result (λ fact. fact ≡ joined t.now (Fact.Args a.now) (Fact.Args b.now)) }
{
    let list = join_values(alloc, a, b, t)?;
    Ok(Fact::Args(Args { list }))
}

/// The least fact that is at least two of one kind.
pub fn join(alloc: Global, a: &Fact, b: &Fact, t: &Thresholds) -> Result<Fact, Want>
    requires left { is_fact_over t.now a.now ≡ true }
    requires right { is_fact_over t.now b.now ≡ true }
    ensures { IfOk result (λ fact. fact ≡ joined t.now a.now b.now) }
{
    match (a, b) {
        (Fact::State(s), Fact::State(u)) => join_states(alloc, s, u, t),
        (Fact::Args(xs), Fact::Args(ys)) => {
            join_arguments(alloc, xs.list.as_slice(), ys.list.as_slice(), t)
        }
        (Fact::Sum(one), Fact::Sum(other)) => Ok(Fact::Sum(one.join(*other))),
        _ => copy(alloc, a),
    }
}

/// Whether a list of arguments is at most another.
fn arguments_at_most(a: &[Value], b: &[Value], t: &Thresholds) -> bool
    requires left { is_fact_over t.now (Fact.Args a.now) ≡ true }
    requires right { is_fact_over t.now (Fact.Args b.now) ≡ true }
    ensures { result ≡ are_at_most a.now b.now }
{
    let _ = t;
    values_at_most(a, b)
}

/// Whether a fact is at most another.
pub fn at_most(a: &Fact, b: &Fact, t: &Thresholds) -> bool
    requires left { is_fact_over t.now a.now ≡ true }
    requires right { is_fact_over t.now b.now ≡ true }
    ensures { result ≡ is_at_most a.now b.now }
{
    match (a, b) {
        (Fact::State(s), Fact::State(u)) => s.at_most(u),
        (Fact::Args(xs), Fact::Args(ys)) => {
            arguments_at_most(xs.list.as_slice(), ys.list.as_slice(), t)
        }
        (Fact::Sum(one), Fact::Sum(other)) => one.at_most(*other),
        (Fact::Mark, Fact::Mark) => true,
        _ => false,
    }
}
