//! To which contexts the calls of a context lead.
ghost use Rattle.std.specs.Prelude.{◌≡◌, ◌++◌, ◌∷◌, [], Contains, IfErr, IfOk, OnOk, Some, length, slice_get};
ghost use Rattle.abs_state.specs.Key.{compare};
ghost use Rattle.abs_state.specs.declared.key.Key.TheVariants as key;
ghost use Rattle.assert_bind.specs.Binding.{roots};
ghost use Rattle.callee_context.specs.Leading.{IsCaller, IsGivenTo};
ghost use Rattle.context_order.specs.Opened.{AreLinks, IsLink, IsLinked, IsOpenedIn};
ghost use Rattle.callee_context.specs.Program.{IsKnown, setting_in};
ghost use Rattle.callee_context.specs.Worklist.{AreFound, GrowsTo, IsBegun, IsOverfull};
ghost use Rattle.context_inside.specs.Laws.{IsEntered};
ghost use Rattle.context_outcomes.specs.Arguments.{any_arguments};
ghost use Rattle.context_outcomes.specs.Calls.{IsEntering};
ghost use Rattle.context_outcomes.specs.Outcomes.{IsChosen, IsNeeded};
ghost use Rattle.flow_system.specs.Facts.{fact_at};
ghost use Rattle.plain_parts.specs.Joined.{AreArguments};
ghost use Rattle.transfer_rules.specs.declared.fact.Fact.TheVariants as fact_of;

use crate::ContextRefusal;
use crate::program::Program;
use abs_state::{Args, Key, Place};
use bt_base::Want;
use context_inside::Within;
use context_list::{Found, copy_args};
use flow_system::Facts;
use plain_parts::entered;
use std::alloc::Global;
use transfer_rules::Fact;
use wcet_report::Context;

/// The most contexts that are told.
const MOST_CONTEXTS: usize = 4096;

/// The context of a subprogram that is called with these arguments, or is a root: plain where the subprogram is, else with
/// them.
fn context_of(alloc: Global, program: &Program<'_>, sub: u32, args: &Args) -> Result<Context, Want>
    requires known { IsKnown program.now }
    requires entered { IsEntered (setting_in program.now) sub }
    ensures { IfOk result (IsChosen (setting_in program.now) sub args.now) }
{
    match program.plain.bound_of(sub) {
        Some(_) => Ok(Context::Plain),
        None => Ok(Context::With(copy_args(alloc, args)?)),
    }
}

/// The number of a needed context, which comes to the end of the list where it isn't there and the list isn't full.
fn number_of(
    alloc: Global,
    program: &Program<'_>,
    found: &mut Found,
    sub: u32,
    context: Context,
) -> Result<usize, ContextRefusal>
    requires found { AreFound (setting_in program.now) found.old }
    requires needed { IsNeeded (setting_in program.now) sub context }
    ensures at { IfOk result (λ number. slice_get found.new number ≡ Some (sub, context)) }
    ensures grows { OnOk result (GrowsTo (setting_in program.now) found.old found.new) }
    ensures refused { IfErr result (IsOverfull (setting_in program.now)) }
{
    if found.len() < MOST_CONTEXTS {
        let number = found.put(alloc, sub, context)?;
        return Ok(number);
    }
    match found.number_of(alloc, sub, &context)? {
        Some(number) => Ok(number),
        None => Err(ContextRefusal::TooMany { count: 4097 }),
    }
}

/// The arguments that a call hands on.
fn arguments_in(fact: &Fact) -> &Args
    requires { AreArguments fact.now }
    ensures { fact_of.Args result.now ≡ fact.now }
{
    match fact {
        Fact::Args(args) => args,
        Fact::State(_) => unreachable!(),
        Fact::Sum(_) => unreachable!(),
        Fact::Mark => unreachable!(),
    }
}

/// The arguments that a call at a program point hands on.
fn given_at(facts: &Facts<Key, Fact>, place: Place, target: u32) -> &Args
    requires { IsGivenTo (fact_at compare facts.now) place target }
    ensures { fact_at compare facts.now (key.Call place target) ≡ Some (fact_of.Args result.now) }
{
    let call = Key::Call {
        from: place,
        callee: target,
    };
    match facts.get(call) {
        Some(fact) => arguments_in(fact),
        None => unreachable!(),
    }
}

/// The number of the context to which a call leads that is followed.
fn number_at(
    alloc: Global,
    program: &Program<'_>,
    found: &mut Found,
    sub: u32,
    within: &Within,
    place: Place,
    target: u32,
) -> Result<usize, ContextRefusal>
    requires known { IsKnown program.now }
    requires found { AreFound (setting_in program.now) found.old }
    requires caller { IsCaller (setting_in program.now) sub within.now }
    requires enters { IsEntering (setting_in program.now) sub (fact_at compare within.now.facts) place target }
    ensures linked { IfOk result (IsLinked (setting_in program.now) found.new sub (fact_at compare within.now.facts) place) }
    ensures grows { OnOk result (GrowsTo (setting_in program.now) found.old found.new) }
    ensures refused { IfErr result (IsOverfull (setting_in program.now)) }
{
    let given = given_at(&within.facts, place, target);
    let context = context_of(alloc, program, target, given)?;
    number_of(alloc, program, found, target, context)
}

/// The number of the context to which the call of a program point leads, if one is followed.
fn link_at(
    alloc: Global,
    program: &Program<'_>,
    found: &mut Found,
    sub: u32,
    within: &Within,
    place: Place,
) -> Result<Option<usize>, ContextRefusal>
    requires known { IsKnown program.now }
    requires found { AreFound (setting_in program.now) found.old }
    requires caller { IsCaller (setting_in program.now) sub within.now }
    ensures link { IfOk result (IsLink (setting_in program.now) found.new sub (fact_at compare within.now.facts) place) }
    ensures grows { OnOk result (GrowsTo (setting_in program.now) found.old found.new) }
    ensures refused { IfErr result (IsOverfull (setting_in program.now)) }
{
    let binding = program.system.binding();
    match entered(binding, program.view, &within.facts, sub, place) {
        None => Ok(None),
        Some(target) => {
            let number = number_at(alloc, program, found, sub, within, place, target)?;
            Ok(Some(number))
        }
    }
}

/// Appends where a call leads.
fn push_link(links: &mut Vec<Option<usize>>, link: Option<usize>) -> Result<(), Want>
    ensures { OnOk result (links.new.items ≡ links.old.items ++ link ∷ []) }
{
    links.push(link)?;
    Ok(())
}

/// For each program point of a needed context, in their order, the number of the context to which its call leads, if one is
/// followed. Contexts that aren't in the list come to its end.
pub fn links_of(
    alloc: Global,
    program: &Program<'_>,
    found: &mut Found,
    sub: u32,
    within: &Within,
) -> Result<Vec<Option<usize>>, ContextRefusal>
    requires known { IsKnown program.now }
    requires found { AreFound (setting_in program.now) found.old }
    requires caller { IsCaller (setting_in program.now) sub within.now }
    ensures links { IfOk result (λ links. AreLinks (setting_in program.now) found.new sub (fact_at compare within.now.facts) within.now.nodes.items (length within.now.nodes.items) links.items) }
    ensures grows { OnOk result (GrowsTo (setting_in program.now) found.old found.new) }
    ensures refused { IfErr result (IsOverfull (setting_in program.now)) }
{
    let nodes = within.nodes.as_slice();
    let mut links = Vec::new(alloc);
    for place in nodes {
        let link = link_at(alloc, program, found, sub, within, *place)?;
        push_link(&mut links, link)?;
    }
    Ok(links)
}

/// Puts the context of a root into the list, if it isn't there.
pub fn put_root(
    alloc: Global,
    program: &Program<'_>,
    found: &mut Found,
    any: &Args,
    root: u32,
) -> Result<(), ContextRefusal>
    requires known { IsKnown program.now }
    requires found { AreFound (setting_in program.now) found.old }
    requires root { Contains (roots program.now.system.now.binding) root }
    requires any { any.now ≡ any_arguments }
    ensures begun { OnOk result (IsBegun (setting_in program.now) found.new root) }
    ensures grows { OnOk result (GrowsTo (setting_in program.now) found.old found.new) }
    ensures refused { IfErr result (IsOverfull (setting_in program.now)) }
{
    let context = context_of(alloc, program, root, any)?;
    let _number = number_of(alloc, program, found, root, context)?;
    Ok(())
}
