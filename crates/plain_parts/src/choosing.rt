//! The arguments of a plain context.
ghost use Rattle.std.specs.Prelude.{◌≡◌, Contains, IfOk, Some};
ghost use Rattle.std.specs.List.Sorted.{IsStrictlyIncreasing};
ghost use Rattle.context_outcomes.specs.Arguments.{any_arguments};
ghost use Rattle.plain_parts.specs.Joined.{AreArguments, HasArguments};
ghost use Rattle.transfer_rules.specs.declared.fact.Fact.TheVariants as fact_of;

use abs_state::Args;
use bt_base::{Want, has};
use std::alloc::Global;
use transfer_give::copy;
use transfer_rules::Fact;
use value_lattice::Value;

/// Anything for each argument.
pub fn any_arguments(alloc: Global) -> Result<Args, Want>
    ensures { IfOk result (λ args. args ≡ any_arguments) }
{
    let mut list = Vec::with_capacity(alloc, 13)?;
    for _ in 0..13_usize {
        list.push(Value::top())?;
    }
    Ok(Args { list })
}

/// The arguments of a call, copied.
fn arguments_in(alloc: Global, fact: &Fact) -> Result<Args, Want>
    requires { AreArguments fact.now }
    ensures { IfOk result (λ args. fact_of.Args args ≡ fact.now) }
{
    match copy(alloc, fact)? {
        Fact::Args(args) => Ok(args),
        Fact::State(_) => unreachable!(),
        Fact::Sum(_) => unreachable!(),
        Fact::Mark => unreachable!(),
    }
}

/// What holds of the arguments of all calls of a subprogram: anything for a root, and else the join of what its calls hand on.
pub fn chosen(alloc: Global, roots: &[u32], sub: u32, joined: &Option<Fact>) -> Result<Args, Want>
    requires rising { IsStrictlyIncreasing roots.now }
    requires given { (Contains roots.now sub → ⊥) → HasArguments joined.now }
    ensures root { IfOk result (λ args. Contains roots.now sub → args ≡ any_arguments) }
    ensures called { IfOk result (λ args. (Contains roots.now sub → ⊥) → joined.now ≡ Some (fact_of.Args args)) }
{
    if has(roots, sub) {
        return any_arguments(alloc);
    }
    match joined {
        Some(fact) => arguments_in(alloc, fact),
        None => unreachable!(),
    }
}
