//! A needed context from within.
ghost use Rattle.std.specs.Prelude.{◌≡◌, IfOk};
ghost use Rattle.std.specs.Map.{keys_of};
ghost use Rattle.context_order.specs.Opened.{IsOpenedIn};
ghost use Rattle.callee_context.specs.Program.{IsKnown, setting_in};
ghost use Rattle.context_bounds.specs.Own.{own_keys};
ghost use Rattle.context_inside.specs.Laws.{IsEntered};
ghost use Rattle.context_outcomes.specs.Arguments.{AreArgumentsOf};
ghost use Rattle.context_outcomes.specs.Outcomes.{IsNeeded};

use crate::program::Program;
use abs_state::{Args, Key};
use bt_base::Want;
use context_inside::{Within, within_of};
use context_list::copy_args;
use std::alloc::Global;
use wcet_report::Context;

/// The arguments of a needed context.
fn arguments_of(
    alloc: Global,
    program: &Program<'_>,
    sub: u32,
    context: &Context,
) -> Result<Args, Want>
    requires known { IsKnown program.now }
    requires needed { IsNeeded (setting_in program.now) sub context.now }
    ensures { IfOk result (AreArgumentsOf (setting_in program.now) sub context.now) }
{
    match context {
        Context::Plain => program.plain.arguments_of(alloc, sub),
        Context::With(args) => copy_args(alloc, args),
    }
}

/// The program points, steps and calls of a subprogram that is a root, or is called and no stub.
fn keys_of(alloc: Global, program: &Program<'_>, sub: u32) -> Result<Vec<Key>, Want>
    requires known { IsKnown program.now }
    requires entered { IsEntered (setting_in program.now) sub }
    ensures { IfOk result (λ keys. keys.items ≡ own_keys (keys_of program.now.facts.now) sub) }
{
    match program.plain.subs.binary_search(&sub) {
        Ok(row) => {
            let keys = Vec::from_slice(alloc, &program.rows[row])?;
            Ok(keys)
        }
        Err(_) => unreachable!(),
    }
}

/// A needed context from within. The work is that of the least map over the keys of its subprogram.
pub fn opened(
    alloc: Global,
    program: &Program<'_>,
    sub: u32,
    context: &Context,
) -> Result<Within, Want>
    requires known { IsKnown program.now }
    requires needed { IsNeeded (setting_in program.now) sub context.now }
    ensures { IfOk result (IsOpenedIn (setting_in program.now) sub context.now) }
{
    let args = arguments_of(alloc, program, sub, context)?;
    let keep = keys_of(alloc, program, sub)?;
    within_of(alloc, program.system, program.facts, keep, sub, &args)
}
