//! Greatest costs of the walks through small graphs.

use crate::graphs::{costs_of, graph_of};
use crate::{AskRefusal, ask_longest};
use path_bound::{PathRefusal, Turn};
use std::process::Abort;
use std::test::Fail;

/// A turn is as it must be.
fn is_turn(rt: &impl Abort, turn: &Turn, head: u32, cost: u64, walk: &[u32]) {
    assert_eq!(rt; turn.head, head);
    assert_eq!(rt; turn.cost, cost);
    assert_eq!(rt; turn.walk.as_slice(), walk);
}

/// Two passes of the outer head, and each time three of the inner: fourteen, and five at the start.
#[test]
fn two_levels(rt: HostRuntime) -> Result<(), Fail> {
    let alloc = rt.alloc();
    let graph = graph_of(&rt, alloc, 3, &[(0, 1), (1, 2), (2, 1), (2, 0)])?;
    let costs = costs_of(alloc, 5, &[1, 1, 1], &[])?;
    let long = ask_longest(alloc, &graph, &[2, 3], &costs)?;
    assert_eq!(rt; long.cost, 19);
    assert_eq!(rt; long.walk.as_slice(), [0, 1, 2].as_slice());
    assert_eq!(rt; long.turns.len(), 2);
    is_turn(&rt, &long.turns[0], 0, 7, &[0, 1, 2]);
    is_turn(&rt, &long.turns[1], 1, 2, &[1, 2]);
    Ok(())
}

/// A loop whose head is passed once, and whose turn costs more than can be told.
#[test]
fn bound_of_one(rt: HostRuntime) -> Result<(), Fail> {
    let alloc = rt.alloc();
    let graph = graph_of(&rt, alloc, 3, &[(0, 1), (1, 0), (0, 2)])?;
    let costs = costs_of(alloc, 0, &[1, 7, 1], &[(1, 0, 1 << 63)])?;
    let long = ask_longest(alloc, &graph, &[1], &costs)?;
    assert_eq!(rt; long.cost, 8);
    assert_eq!(rt; long.walk.as_slice(), [0, 1].as_slice());
    assert_eq!(rt; long.turns.len(), 1);
    is_turn(&rt, &long.turns[0], 0, 1 << 63, &[0, 1]);
    Ok(())
}

/// A bound of 2^62 - 1, up to the greatest cost that can be told and past it.
#[test]
fn great_bound(rt: HostRuntime) -> Result<(), Fail> {
    let alloc = rt.alloc();
    let graph = graph_of(&rt, alloc, 3, &[(0, 1), (1, 2), (2, 1)])?;
    let bounds = [(1 << 62) - 1];
    let costs = costs_of(alloc, 0, &[1, 1, 1], &[])?;
    assert_eq!(rt;
        ask_longest(alloc, &graph, &bounds, &costs)?.cost,
        (1 << 63) - 1
    );
    let late = costs_of(alloc, 1, &[1, 1, 1], &[])?;
    let at_entry = AskRefusal::Path(PathRefusal::TooLarge { node: 0 });
    assert!(rt; matches!(ask_longest(alloc, &graph, &bounds, &late), Err(why) if why == at_entry));
    let dear = costs_of(alloc, 0, &[0, 2, 1], &[])?;
    let at_head = AskRefusal::Path(PathRefusal::TooLarge { node: 1 });
    assert!(rt; matches!(ask_longest(alloc, &graph, &bounds, &dear), Err(why) if why == at_head));
    Ok(())
}
