//! All contexts that are needed.
ghost use Rattle.std.specs.Prelude.{◌≡◌, ◌<◌, ◌++◌, ◌∷◌, [], ℕ, Contains, IfErr, IfOk, OnOk, Some, length, slice_get};
ghost use Rattle.assert_bind.specs.Binding.{roots};
ghost use Rattle.context_order.specs.Opened.{AreOpened, IsOpened};
ghost use Rattle.callee_context.specs.Program.{IsKnown, setting_in};
ghost use Rattle.callee_context.specs.Worklist.{AreAll, AreFound, GrowsTo, IsBegun, IsOverfull};
ghost use Rattle.context_list.specs.Numbered.{One};

use crate::ContextRefusal;
use crate::leading::{links_of, put_root};
use crate::opening::opened;
use crate::program::Program;
use bt_base::Want;
use context_list::Found;
use context_order::Opened;
use plain_parts::any_arguments;
use std::alloc::Global;

/// The context with a number in the list from within. The contexts to which its calls lead come to the end of the list, where
/// they aren't there.
fn open_one(
    alloc: Global,
    program: &Program<'_>,
    found: &mut Found,
    number: usize,
) -> Result<Opened, ContextRefusal>
    requires known { IsKnown program.now }
    requires found { AreFound (setting_in program.now) found.old }
    requires within { number < length found.old }
    ensures opened { IfOk result (λ opened. (one : One) → slice_get found.old number ≡ Some one → IsOpened (setting_in program.now) found.new one opened) }
    ensures grows { OnOk result (GrowsTo (setting_in program.now) found.old found.new) }
    ensures refused { IfErr result (IsOverfull (setting_in program.now)) }
{
    let one = found.get(number);
    let sub = one.0;
    let within = opened(alloc, program, sub, &one.1)?;
    let links = links_of(alloc, program, found, sub, &within)?;
    Ok(Opened { within, links })
}

/// Appends a context from within.
fn push_opened(all: &mut Vec<Opened>, one: Opened) -> Result<(), Want>
    ensures { OnOk result (all.new.items ≡ all.old.items ++ one ∷ []) }
{
    all.push(one)?;
    Ok(())
}

/// Each context of the list from within, in their order, until none is left: those to which their calls lead come to the end
/// of the list.
fn open_all(
    alloc: Global,
    program: &Program<'_>,
    found: &mut Found,
) -> Result<Vec<Opened>, ContextRefusal>
    requires known { IsKnown program.now }
    requires found { AreFound (setting_in program.now) found.old }
    ensures opened { IfOk result (λ all. AreOpened (setting_in program.now) found.new all.items) }
    ensures count { IfOk result (λ all. length all.items ≡ length found.new) }
    ensures grows { OnOk result (GrowsTo (setting_in program.now) found.old found.new) }
    ensures refused { IfErr result (IsOverfull (setting_in program.now)) }
{
    let mut all = Vec::new(alloc);
    while all.len() < found.len() {
        let number = all.len();
        let one = open_one(alloc, program, found, number)?;
        push_opened(&mut all, one)?;
    }
    Ok(all)
}

/// The contexts of the roots.
fn begun(alloc: Global, program: &Program<'_>) -> Result<Found, ContextRefusal>
    requires known { IsKnown program.now }
    ensures found { IfOk result (AreFound (setting_in program.now)) }
    ensures begun { IfOk result (λ found. (root : ℕ) → Contains (roots program.now.system.now.binding) root → IsBegun (setting_in program.now) found root) }
    ensures refused { IfErr result (IsOverfull (setting_in program.now)) }
{
    let any = any_arguments(alloc)?;
    let roots = program.system.binding().roots();
    let mut found = Found::none(alloc);
    for root in roots {
        put_root(alloc, program, &mut found, &any, *root)?;
    }
    Ok(found)
}

/// All contexts that are needed, each from within. TooMany comes exactly where more than 4,096 are needed.
pub fn needed(alloc: Global, program: &Program<'_>) -> Result<(Found, Vec<Opened>), ContextRefusal>
    requires known { IsKnown program.now }
    ensures all { IfOk result (λ both. AreAll (setting_in program.now) both.0 both.1.items) }
    ensures refused { IfErr result (IsOverfull (setting_in program.now)) }
{
    let mut found = begun(alloc, program)?;
    let opened = open_all(alloc, program, &mut found)?;
    Ok((found, opened))
}
