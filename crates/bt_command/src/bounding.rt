//! Whether each root of an analysis has a bound.
ghost use Rattle.std.specs.Prelude.{◌≡◌};
ghost use Rattle.bt_command.specs.Generated.{first_bound as first_bound_so};
ghost use Rattle.bt_command.specs.Program.{all_bounded as all_bounded_so, have_bounds as have_bounds_so};
ghost use Rattle.wcet_report.specs.Context.{are_any as are_any_so, is_open as is_open_so};
ghost use Rattle.wcet_report.specs.Report.{root_bound as root_bound_so};
ghost use Rattle.wcet_report.specs.Value.{is_any as is_any_so};

use value_lattice::Value;
use wcet_report::{Context, Outcome, Outcomes};

/// Whether a value is the range of all words.
fn is_any(value: &Value) -> bool
    ensures { result ≡ is_any_so value.now }
{
    match value {
        Value::Range { lo, hi } => *lo == i32::MIN && *hi == i32::MAX,
        _ => false,
    }
}

/// Whether nothing is known of any argument.
fn are_any(values: &[Value]) -> bool
    ensures { result ≡ are_any_so values.now }
{
    for value in values {
        if !is_any(value) {
            return false;
        }
    }
    true
}

/// Whether a context is one in which nothing is known of the arguments.
fn is_open(context: &Context) -> bool
    ensures { result ≡ is_open_so context.now }
{
    match context {
        Context::Plain => true,
        Context::With(args) => are_any(&args.list),
    }
}

/// The bound of a root: that of the first outcome of its subprogram with nothing known of the arguments.
fn root_bound(list: &[Outcome], root: u32) -> Option<u64>
    ensures { result ≡ root_bound_so list.now root }
{
    for outcome in list {
        if outcome.sub == root && is_open(&outcome.context) {
            return outcome.bound;
        }
    }
    None
}

/// Whether each of these roots has a bound by the outcomes of a list.
fn have_bounds(list: &[Outcome], roots: &[u32]) -> bool
    ensures { result ≡ have_bounds_so list.now roots.now }
{
    for root in roots {
        if root_bound(list, *root).is_none() {
            return false;
        }
    }
    true
}

/// Whether each root has a bound.
pub fn all_bounded(outcomes: &Outcomes) -> bool
    ensures { result ≡ all_bounded_so outcomes.now }
{
    have_bounds(outcomes.list.as_slice(), outcomes.roots.as_slice())
}

/// The bound of the first root, where it has one.
pub fn first_bound(outcomes: &Outcomes) -> Option<u64>
    ensures { result ≡ first_bound_so outcomes.now }
{
    match outcomes.roots.as_slice().first() {
        Some(root) => root_bound(outcomes.list.as_slice(), *root),
        None => None,
    }
}
