//! Cells of registers, sets of cells, and what a call may write.
use call_effects::*;

/// The set of cells from one to below another.
fn from_to(first: u8, end: u8) -> Mask {
    let mut mask = Mask::none();
    for c in first..end {
        if c >= 1 && c < 48 {
            mask = mask.with(c);
        }
    }
    mask
}

#[test]
fn cells_of_registers(rt: HostRuntime) {
    for (depth, r, cell) in [
        (0, 0, 0),
        (0, 8, 8),
        (0, 31, 31),
        (1, 0, 0),
        (1, 7, 7),
        (1, 8, 32),
        (1, 16, 40),
        (1, 23, 47),
        (1, 24, 8),
        (1, 31, 15),
    ] {
        if depth < 2 && r < 32 {
            assert_eq!(rt; cell_of(depth, r), cell, "at {r}/{depth}");
        }
    }
}

#[test]
fn cells_of_calls(rt: HostRuntime) {
    for (first, end, depth, wanted, until) in [
        (1, 48, 0, 1, 48),
        (1, 8, 1, 1, 8),
        (8, 24, 1, 32, 48),
        (24, 32, 1, 8, 16),
        (32, 48, 1, 0, 0),
        (32, 48, 0, 32, 48),
        (31, 32, 1, 15, 16),
        (15, 16, 1, 39, 40),
    ] {
        if depth < 2 {
            let after = after_call(from_to(first, end), depth);
            assert_eq!(rt; after, from_to(wanted, until), "at {first}/{depth}");
        }
    }
}

#[test]
fn sets_of_cells(rt: HostRuntime) {
    let few = Mask::none().with(1).with(47);
    assert!(rt; few.has(1) && few.has(47));
    assert!(rt; !few.has(0) && !few.has(2) && !few.has(48) && !few.has(255));
    assert!(rt; few.within(from_to(1, 48)));
    assert!(rt; !from_to(1, 48).within(few));
    assert_eq!(rt; few.join(from_to(2, 47)), from_to(1, 48));
    assert_eq!(rt; Mask::none().join(few), few);
}

#[test]
fn effects_of_subprograms(rt: HostRuntime) {
    let stub = stub_summary();
    assert!(rt; stub.returns && !stub.skips);
    assert_eq!(rt; stub.written, from_to(1, 16).join(from_to(32, 48)));
    let none = Summary {
        returns: false,
        skips: false,
        written: Mask::none(),
    };
    let other = Summary {
        returns: false,
        skips: true,
        written: Mask::none().with(20),
    };
    assert!(rt; none.at_most(stub) && none.at_most(other));
    assert!(rt; !other.at_most(stub) && !stub.at_most(other));
    let both = stub.join(other);
    assert!(rt; both.returns && both.skips && both.written.has(20) && both.written.has(15));
    assert!(rt; stub.at_most(both) && other.at_most(both));
}
