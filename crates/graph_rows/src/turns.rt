//! Steps of the turns of small loops.

use crate::graphs::graph_of;
use crate::{AskRefusal, ask_step};
use std::test::Fail;
use turn_sums::TurnStep;

/// A loop of 0, 1 and 2, of which 2 can be left out, with what each node adds and takes.
#[test]
fn three_nodes(rt: HostRuntime) -> Result<(), Fail> {
    let alloc = rt.alloc();
    let graph = graph_of(&rt, alloc, 3, &[(0, 1), (1, 2), (1, 0), (2, 0)])?;
    for (ups, downs, step) in [
        ([1, 0, 0], [0, 0, 0], Some(TurnStep::Rises(1))),
        ([0, 3, 1], [0, 0, 0], Some(TurnStep::Rises(3))),
        ([0, 3, 0], [0, 0, 1], Some(TurnStep::Rises(2))),
        ([0, 1, 0], [0, 0, 1], None),
        ([0, 0, 1], [0, 0, 0], None),
        ([0, 0, 0], [0, 4, 0], Some(TurnStep::Falls(4))),
        ([0, 0, 3], [0, 4, 0], Some(TurnStep::Falls(1))),
        ([0, 0, 5], [0, 4, 0], None),
        ([0, 0, 0], [0, 0, 0], None),
        (
            [4294967295, 4294967295, 0],
            [0, 0, 0],
            Some(TurnStep::Rises(8589934590)),
        ),
    ] {
        let found = ask_step(alloc, &graph, &ups, &downs)?;
        assert_eq!(rt; found, step, "{ups:?} and {downs:?}");
    }
    Ok(())
}

/// No turn, and walks that come back past the head.
#[test]
fn without_a_step(rt: HostRuntime) -> Result<(), Fail> {
    let alloc = rt.alloc();
    let straight = graph_of(&rt, alloc, 2, &[(0, 1)])?;
    assert_eq!(rt; ask_step(alloc, &straight, &[1, 1], &[0, 0])?, None);
    let inner = graph_of(&rt, alloc, 3, &[(0, 1), (1, 2), (2, 1), (2, 0)])?;
    let asked = ask_step(alloc, &inner, &[1, 0, 0], &[0, 0, 0]);
    assert!(rt; matches!(asked, Err(AskRefusal::Condition)));
    Ok(())
}
