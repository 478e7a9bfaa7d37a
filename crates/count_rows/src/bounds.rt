//! Bounds of the heads of small loops.

use crate::building::Does::{Adds, Else, Nothing};
use crate::building::{Row, graph_of, is_bound, is_row};
use crate::{AskRefusal, ask_bound};
use abs_state::AbsState;
use call_effects::Mask;
use counter_bound::Change;
use std::test::Fail;

/// A loop of a head, a branch and its delay slot, and the node behind it.
const SLOT: [(u32, u32); 4] = [(0, 1), (1, 2), (2, 0), (1, 3)];

/// A loop of a head and two ways back, by node 1 and by node 2, and the node behind it.
const WAYS: [(u32, u32); 5] = [(0, 1), (0, 2), (1, 0), (2, 0), (0, 3)];

/// A loop of a head and a node, in which another loop of two nodes stands between them.
const INSIDE: [(u32, u32); 5] = [(0, 1), (1, 2), (2, 1), (2, 3), (3, 0)];

/// Rows with one way round: an addition in the delay slot, at the head, and at both; behind the loop; falling; by 4; up and
/// down; at both limits of the numbers; a tie, and a greater cell with fewer passes; another change.
const ONE_WAY: [Row; 14] = [
    Row {
        does: [Nothing, Nothing, Adds(8, 1), Nothing],
        eight: (0, 9),
        nine: (0, 0),
        bound: Some((8, 1, 0, 9, 10)),
    },
    Row {
        does: [Adds(8, 1), Nothing, Nothing, Nothing],
        eight: (0, 9),
        nine: (0, 0),
        bound: Some((8, 1, 0, 9, 10)),
    },
    Row {
        does: [Adds(8, 1), Nothing, Adds(8, 2), Nothing],
        eight: (0, 9),
        nine: (0, 0),
        bound: Some((8, 3, 0, 9, 4)),
    },
    Row {
        does: [Nothing, Nothing, Nothing, Adds(8, 1)],
        eight: (0, 9),
        nine: (0, 0),
        bound: None,
    },
    Row {
        does: [Nothing, Nothing, Adds(8, 1), Else],
        eight: (0, 9),
        nine: (0, 0),
        bound: Some((8, 1, 0, 9, 10)),
    },
    Row {
        does: [Nothing, Nothing, Adds(8, -1), Nothing],
        eight: (-3, 9),
        nine: (0, 0),
        bound: Some((8, -1, -3, 9, 13)),
    },
    Row {
        does: [Nothing, Nothing, Adds(8, 4), Nothing],
        eight: (0, 10),
        nine: (0, 0),
        bound: Some((8, 4, 0, 10, 3)),
    },
    Row {
        does: [Adds(8, 5), Nothing, Adds(8, -2), Nothing],
        eight: (0, 9),
        nine: (0, 0),
        bound: Some((8, 3, 0, 9, 4)),
    },
    Row {
        does: [Adds(8, 2), Nothing, Adds(8, -2), Nothing],
        eight: (0, 9),
        nine: (0, 0),
        bound: None,
    },
    Row {
        does: [Nothing, Nothing, Adds(8, 1), Nothing],
        eight: (i32::MIN, i32::MAX),
        nine: (0, 0),
        bound: Some((8, 1, i32::MIN, i32::MAX, 4294967296)),
    },
    Row {
        does: [Nothing, Nothing, Adds(8, i32::MIN), Nothing],
        eight: (i32::MIN, i32::MAX),
        nine: (0, 0),
        bound: Some((8, -2147483648, i32::MIN, i32::MAX, 2)),
    },
    Row {
        does: [Adds(9, 1), Nothing, Adds(8, -1), Nothing],
        eight: (0, 9),
        nine: (1, 10),
        bound: Some((8, -1, 0, 9, 10)),
    },
    Row {
        does: [Adds(9, 2), Nothing, Adds(8, 1), Nothing],
        eight: (0, 9),
        nine: (0, 9),
        bound: Some((9, 2, 0, 9, 5)),
    },
    Row {
        does: [Else, Nothing, Adds(8, 1), Nothing],
        eight: (0, 9),
        nine: (0, 9),
        bound: None,
    },
];

/// Rows with two ways round: an addition on one of them, on both, by two numbers, up and down; at the head too.
const TWO_WAYS: [Row; 6] = [
    Row {
        does: [Nothing, Adds(8, 1), Nothing, Nothing],
        eight: (0, 9),
        nine: (0, 0),
        bound: None,
    },
    Row {
        does: [Nothing, Adds(8, 1), Adds(8, 1), Nothing],
        eight: (0, 9),
        nine: (0, 0),
        bound: Some((8, 1, 0, 9, 10)),
    },
    Row {
        does: [Nothing, Adds(8, 3), Adds(8, 2), Nothing],
        eight: (0, 9),
        nine: (0, 0),
        bound: Some((8, 2, 0, 9, 5)),
    },
    Row {
        does: [Nothing, Adds(8, 1), Adds(8, -1), Nothing],
        eight: (0, 9),
        nine: (0, 0),
        bound: None,
    },
    Row {
        does: [Adds(8, 1), Adds(8, -1), Nothing, Nothing],
        eight: (0, 9),
        nine: (0, 0),
        bound: None,
    },
    Row {
        does: [Adds(8, -2), Adds(8, 1), Nothing, Nothing],
        eight: (0, 9),
        nine: (0, 0),
        bound: Some((8, -1, 0, 9, 10)),
    },
];

/// Rows of the outer loop: an addition outside of the inner one, and some inside.
const OUTER: [Row; 4] = [
    Row {
        does: [Nothing, Nothing, Nothing, Adds(8, 1)],
        eight: (0, 9),
        nine: (0, 0),
        bound: Some((8, 1, 0, 9, 10)),
    },
    Row {
        does: [Nothing, Nothing, Adds(8, 1), Adds(8, 1)],
        eight: (0, 9),
        nine: (0, 0),
        bound: None,
    },
    Row {
        does: [Nothing, Nothing, Adds(8, 0), Adds(8, 1)],
        eight: (0, 9),
        nine: (0, 0),
        bound: None,
    },
    Row {
        does: [Nothing, Adds(8, 1), Nothing, Nothing],
        eight: (0, 9),
        nine: (0, 0),
        bound: None,
    },
];

/// Rows of the inner loop.
const INNER: [Row; 2] = [
    Row {
        does: [Nothing, Nothing, Adds(8, 1), Nothing],
        eight: (0, 9),
        nine: (0, 0),
        bound: Some((8, 1, 0, 9, 10)),
    },
    Row {
        does: [Else, Nothing, Adds(8, 1), Else],
        eight: (0, 9),
        nine: (0, 0),
        bound: Some((8, 1, 0, 9, 10)),
    },
];

/// One way round, and what is known of cells 8 and 9 at the head.
#[test]
fn one_way(rt: HostRuntime) -> Result<(), Fail> {
    let graph = graph_of(rt.alloc(), 4, &SLOT)?;
    for row in &ONE_WAY {
        let is = is_row(rt.alloc(), &graph, 0, row)?;
        assert!(rt; is);
    }
    Ok(())
}

/// Two ways round.
#[test]
fn two_ways(rt: HostRuntime) -> Result<(), Fail> {
    let graph = graph_of(rt.alloc(), 4, &WAYS)?;
    for row in &TWO_WAYS {
        let is = is_row(rt.alloc(), &graph, 0, row)?;
        assert!(rt; is);
    }
    Ok(())
}

/// A loop with another one inside.
#[test]
fn outer(rt: HostRuntime) -> Result<(), Fail> {
    let graph = graph_of(rt.alloc(), 4, &INSIDE)?;
    for row in &OUTER {
        let is = is_row(rt.alloc(), &graph, 0, row)?;
        assert!(rt; is);
    }
    Ok(())
}

/// A loop inside another one.
#[test]
fn inner(rt: HostRuntime) -> Result<(), Fail> {
    let graph = graph_of(rt.alloc(), 4, &INSIDE)?;
    for row in &INNER {
        let is = is_row(rt.alloc(), &graph, 1, row)?;
        assert!(rt; is);
    }
    Ok(())
}

/// Nothing is known of the return address; and there is no loop of the number 1.
#[test]
fn at_the_entry(rt: HostRuntime) -> Result<(), Fail> {
    let graph = graph_of(rt.alloc(), 4, &SLOT)?;
    let head = AbsState::entry(rt.alloc())?;
    let none = Change::Other(Mask::none());
    let changes = [none, none, Change::Add { cell: 15, k: 1 }, none];
    let found = ask_bound(rt.alloc(), &graph, 0, &changes, &head)?;
    assert!(rt; is_bound(found, Some((15, 1, i32::MIN, i32::MAX, 4_294_967_296))));
    let asked = ask_bound(rt.alloc(), &graph, 1, &changes, &head);
    assert!(rt; matches!(asked, Err(AskRefusal::Condition)));
    Ok(())
}
