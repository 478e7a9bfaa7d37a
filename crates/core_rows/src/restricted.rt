//! A system of five keys, restricted to some of them with a fixed fact beside.
ghost use Rattle.std.specs.Prelude.{◌≡◌, ◌∷◌, [], IfOk};
ghost use Rattle.std.specs.Ordering.{nat_cmp};
ghost use Rattle.flow_system.specs.Facts.{fact_at};
ghost use Rattle.local_facts.specs.Restricted.{IsRestriction, IsLeastLocal};
ghost use Rattle.core_rows.specs.Relay.{relay};

use crate::relay::{Relay, can_restrict};
use bt_base::Want;
use flow_core::{Closed, Core, GrowRefusal, drive};
use flow_system::{Facts, System};
use local_facts::{Local, least_facts};
use std::alloc::Global;
use std::test::Fail;

/// A list of one piece.
fn one_piece(alloc: Global, piece: (u32, u8)) -> Result<Vec<(u32, u8)>, Want>
    ensures { IfOk result (λ pieces. pieces.items ≡ piece ∷ []) }
{
    let mut pieces = Vec::new(alloc);
    pieces.push(piece)?;
    Ok(pieces)
}

/// One fact.
fn one_fact(alloc: Global, fact: (u32, u8)) -> Result<Facts<u32, u8>, Want>
    ensures { IfOk result (λ facts. facts ≡ fact ∷ []) }
{
    let mut facts = Facts::empty(alloc);
    facts.put(fact.0, fact.1)?;
    Ok(facts)
}

/// The least facts of the restricted ring.
fn cut<'a>(
    alloc: Global,
    system: &'a Relay,
    keep: &[u32],
    start: (u32, u8),
    fixed: (u32, u8),
    limit: u64,
) -> Result<Closed<Local<'a, Relay>>, GrowRefusal>
    requires ring { system.now.last ≡ 4 }
    requires sound { IsRestriction nat_cmp (relay 4) (start ∷ []) keep.now (fixed ∷ []) }
    ensures { IfOk result (λ closed. IsLeastLocal nat_cmp (relay 4) (start ∷ []) keep.now (fixed ∷ []) (fact_at nat_cmp closed)) }
{
    let starts = one_piece(alloc, start)?;
    let beside = one_fact(alloc, fixed)?;
    let kept = match Vec::from_slice(alloc, keep) {
        Ok(kept) => kept,
        Err(_) => return Err(GrowRefusal::Want),
    };
    least_facts(alloc, system, starts, kept, beside, limit)
}

#[test]
fn restricted_rings_have_least_facts(rt: HostRuntime) -> Result<(), Fail> {
    let system = Relay { last: 4 };
    let cases: [(&[u32], (u32, u8), (u32, u8), [u8; 5]); 7] = [
        (&[0, 1, 2], (0, 1), (4, 3), [1, 3, 3, 9, 9]),
        (&[0, 1, 2], (0, 1), (3, 2), [1, 1, 1, 9, 9]),
        (&[0, 2], (0, 1), (4, 3), [1, 9, 9, 9, 9]),
        (&[3, 4], (3, 1), (0, 2), [9, 9, 9, 1, 1]),
        (&[0, 1, 4], (4, 2), (2, 3), [2, 2, 9, 9, 2]),
        (&[2], (2, 0), (4, 0), [9, 9, 0, 9, 9]),
        (&[0, 1, 2, 3, 4], (0, 1), (7, 3), [1, 1, 1, 1, 1]),
    ];
    for (keep, start, fixed, want) in cases {
        assert!(rt; can_restrict(keep, start, fixed));
        let closed = cut(rt.alloc(), &system, keep, start, fixed, 5)?;
        for k in 0..5u32 {
            let fact = closed.facts().get(k).copied().unwrap_or(9);
            assert_eq!(rt; fact, want[k as usize], "key {k}");
        }
    }
    Ok(())
}

#[test]
fn nodes_come_where_the_limit_is_passed(rt: HostRuntime) -> Result<(), Fail> {
    let system = Relay { last: 4 };
    let keep: &[u32] = &[0, 1, 2];
    assert!(rt; can_restrict(keep, (0, 1), (4, 3)));
    for (limit, want) in [(2, Some(GrowRefusal::Nodes { count: 3 })), (3, None)] {
        let answer = cut(rt.alloc(), &system, keep, (0, 1), (4, 3), limit);
        assert_eq!(rt; answer.err(), want, "limit {limit}");
    }
    Ok(())
}

/// Drives a core of the restricted ring.
fn driven<'a>(
    alloc: Global,
    local: &Local<'a, Relay>,
) -> Result<Core<Local<'a, Relay>>, GrowRefusal> {
    let mut core = Core::new(alloc, local, 1000)?;
    drive(alloc, &mut core, local)?;
    Ok(core)
}

#[test]
fn a_core_of_a_restricted_ring_is_driven(rt: HostRuntime) -> Result<(), Fail> {
    let system = Relay { last: 4 };
    let keep = vec![in rt.alloc(); 0u32, 1, 2]?;
    assert!(rt; can_restrict(&keep, (0, 1), (4, 3)));
    let starts = one_piece(rt.alloc(), (0, 1))?;
    let fixed = one_fact(rt.alloc(), (4, 3))?;
    let local = Local::new(&system, starts, keep, fixed);
    assert_eq!(rt; local.starts(rt.alloc())?.len(), 1);
    assert_eq!(rt; local.reads(rt.alloc(), 1)?.as_slice(), [1, 4].as_slice());
    let core = driven(rt.alloc(), &local)?;
    assert_eq!(rt; core.facts().len(), 3);
    assert_eq!(rt; core.facts().get(2).copied(), Some(3));
    Ok(())
}
