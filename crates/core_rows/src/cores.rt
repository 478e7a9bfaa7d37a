//! Orders of work on a ring of keys, a long chain, and the limit on nodes.
ghost use Rattle.std.specs.Prelude.{◌≡◌, IfOk, OnOk};
ghost use Rattle.std.specs.Ordering.{nat_cmp};
ghost use Rattle.flow_core.specs.Claim.{IsClaimOf};
ghost use Rattle.flow_core.specs.Core.{IsGood};
ghost use Rattle.core_rows.specs.Ring.{ring};

use crate::ring::Ring;
use bt_base::Want;
use flow_core::{Claim, Core, GrowRefusal, drive};
use std::alloc::Global;
use std::test::Fail;

/// Takes a claim from a core that has one.
fn take_one(alloc: Global, core: &mut Core<Ring>, system: &Ring) -> Result<Claim<Ring>, Want>
    requires { IsGood nat_cmp (ring system.now.last system.now.second) core.old }
    ensures good { IsGood nat_cmp (ring system.now.last system.now.second) core.new }
    ensures of { IfOk result (IsClaimOf nat_cmp (ring system.now.last system.now.second)) }
{
    match core.take(alloc, system, 0)? {
        None => Err(Want),
        Some(claim) => Ok(claim),
    }
}

/// Works a claim out and merges its answer.
fn merge_one(
    alloc: Global,
    core: &mut Core<Ring>,
    system: &Ring,
    claim: Claim<Ring>,
) -> Result<usize, Want>
    requires good { IsGood nat_cmp (ring system.now.last system.now.second) core.old }
    requires of { IsClaimOf nat_cmp (ring system.now.last system.now.second) claim }
    ensures good { IsGood nat_cmp (ring system.now.last system.now.second) core.new }
{
    let answer = match claim.work(alloc, system) {
        Ok(answer) => answer,
        Err(_) => return Err(Want),
    };
    match core.merge(alloc, system, answer) {
        Ok(grown) => Ok(grown),
        Err(_) => Err(Want),
    }
}

/// A new core of the ring.
fn new_core(alloc: Global, system: &Ring) -> Result<Core<Ring>, GrowRefusal>
    ensures { IfOk result (IsGood nat_cmp (ring system.now.last system.now.second)) }
{
    Core::new(alloc, system, 1000)
}

/// One of six orders of work up to where the core is driven.
fn work_in(order: u8, alloc: Global, core: &mut Core<Ring>, system: &Ring) -> Result<(), Want>
    requires { IsGood nat_cmp (ring system.now.last system.now.second) core.old }
    ensures { OnOk result (IsGood nat_cmp (ring system.now.last system.now.second) core.new) }
{
    if order == 0 {
        return Ok(());
    }
    let first = take_one(alloc, core, system)?;
    let second = take_one(alloc, core, system)?;
    match order {
        1 => {
            merge_one(alloc, core, system, first)?;
            merge_one(alloc, core, system, second)?;
        }
        2 => {
            merge_one(alloc, core, system, second)?;
            merge_one(alloc, core, system, first)?;
        }
        3 => {
            core.give_back(first);
            merge_one(alloc, core, system, second)?;
        }
        4 => {
            core.give_back(second);
            core.give_back(first);
        }
        _ => {
            merge_one(alloc, core, system, first)?;
            let third = take_one(alloc, core, system)?;
            core.give_back(second);
            merge_one(alloc, core, system, third)?;
        }
    }
    Ok(())
}

#[test]
fn six_orders_find_the_same_facts(rt: HostRuntime) -> Result<(), Fail> {
    let system = Ring { last: 4, second: 2 };
    for order in 0..6u8 {
        let mut core = new_core(rt.alloc(), &system)?;
        work_in(order, rt.alloc(), &mut core, &system)?;
        drive(rt.alloc(), &mut core, &system)?;
        assert!(rt; core.idle());
        for k in 0..5u32 {
            assert_eq!(rt;
                core.facts().get(k).copied(),
                Some(3),
                "key {k} in order {order}"
            );
        }
        assert_eq!(rt; core.facts().len(), 5);
    }
    Ok(())
}

#[test]
fn a_long_chain_is_driven(rt: HostRuntime) -> Result<(), Fail> {
    let system = Ring {
        last: 131_071,
        second: 7,
    };
    let mut core = Core::new(rt.alloc(), &system, 131_072)?;
    drive(rt.alloc(), &mut core, &system)?;
    assert_eq!(rt; core.facts().len(), 131_072);
    assert_eq!(rt; core.facts().get(131_071).copied(), Some(3));
    Ok(())
}

#[test]
fn nodes_come_where_the_limit_is_passed(rt: HostRuntime) -> Result<(), Fail> {
    let system = Ring { last: 4, second: 2 };
    assert_eq!(rt;
        Core::new(rt.alloc(), &system, 1).err(),
        Some(GrowRefusal::Nodes { count: 2 })
    );
    let mut core = Core::new(rt.alloc(), &system, 4)?;
    assert_eq!(rt;
        drive(rt.alloc(), &mut core, &system),
        Err(GrowRefusal::Nodes { count: 5 })
    );
    Ok(())
}
