//! Nests of small graphs.

use crate::graphs::graph_of;
use crate::{AskRefusal, ask_nest};
use loop_nest::{Loop, NestRefusal};
use std::process::Abort;
use std::test::Fail;

/// A loop is as it must be.
fn is_loop(rt: &impl Abort, one: &Loop, head: u32, parent: Option<u32>, body: &[u32]) {
    assert_eq!(rt; one.head, head);
    assert_eq!(rt; one.parent, parent);
    assert_eq!(rt; one.body.as_slice(), body);
}

/// A loop in a loop.
#[test]
fn two_levels(rt: HostRuntime) -> Result<(), Fail> {
    let edges = [(0, 1), (1, 2), (2, 3), (3, 2), (3, 1), (3, 4)];
    let graph = graph_of(&rt, rt.alloc(), 5, &edges)?;
    let nest = ask_nest(rt.alloc(), &graph)?;
    let loops = nest.loops();
    assert_eq!(rt; loops.len(), 2);
    is_loop(&rt, &loops[0], 1, None, &[1, 2, 3]);
    is_loop(&rt, &loops[1], 2, Some(1), &[2, 3]);
    Ok(())
}

/// The entry is a head, and the loop of one node inside another.
#[test]
fn entry_a_head(rt: HostRuntime) -> Result<(), Fail> {
    let graph = graph_of(&rt, rt.alloc(), 3, &[(0, 1), (1, 1), (1, 2), (2, 0)])?;
    let nest = ask_nest(rt.alloc(), &graph)?;
    let loops = nest.loops();
    assert_eq!(rt; loops.len(), 2);
    is_loop(&rt, &loops[0], 0, None, &[0, 1, 2]);
    is_loop(&rt, &loops[1], 1, Some(0), &[1]);
    Ok(())
}

/// The first part with two entered nodes is named: outer levels first, then the part with the least node.
#[test]
fn two_entries(rt: HostRuntime) -> Result<(), Fail> {
    let alloc = rt.alloc();
    let two = graph_of(&rt, alloc, 4, &[(0, 1), (0, 2), (1, 2), (2, 1), (2, 3)])?;
    let refused = AskRefusal::Nest(NestRefusal::TwoEntries { x: 1, y: 2 });
    assert!(rt; matches!(ask_nest(alloc, &two), Err(why) if why == refused));
    let edges = [
        (0, 1),
        (1, 2),
        (1, 3),
        (2, 3),
        (3, 2),
        (3, 1),
        (0, 4),
        (0, 5),
        (4, 5),
        (5, 4),
    ];
    let outer = graph_of(&rt, alloc, 6, &edges)?;
    let later = AskRefusal::Nest(NestRefusal::TwoEntries { x: 4, y: 5 });
    assert!(rt; matches!(ask_nest(alloc, &outer), Err(why) if why == later));
    Ok(())
}
