//! How control goes on: a transfer of control, a state, and the pieces that come of them, worked by hand.

use crate::systems::Known::{Any, Cells, Compared, Computed, Nothing, Range, Word};
use crate::systems::{Row, is_row};
use abs_state::Next;
use std::test::Fail;

/// A NOP.
const NOP: u32 = 0x01000000;

/// Where control goes on behind the instruction at 1000.
const ONWARD: Next = Next::At(0x1004);

/// Branches: taken, annulled, both ways, both ways to one program point, and what the condition leaves of cells.
const BRANCHES: [Row; 10] = [
    Row {
        name: "ba 0x1010",
        words: [0x10800004, NOP],
        at: (0x1000, ONWARD, 0),
        known: [Nothing, Nothing, Nothing],
        callee: None,
        assertions: "",
        eight: false,
        want: "sum 1000; node 1004>1010/0 15=ret; edge 1004>1010/0",
    },
    Row {
        name: "ba,a 0x1010",
        words: [0x30800004, NOP],
        at: (0x1000, ONWARD, 0),
        known: [Nothing, Nothing, Nothing],
        callee: None,
        assertions: "",
        eight: false,
        want: "sum 1000; node 1010/0 15=ret; edge 1010/0",
    },
    Row {
        name: "bn,a 0x1010",
        words: [0x20800004, NOP],
        at: (0x1000, ONWARD, 0),
        known: [Nothing, Nothing, Nothing],
        callee: None,
        assertions: "",
        eight: false,
        want: "sum 1000; node 1008/0 15=ret; edge 1008/0",
    },
    Row {
        name: "be 0x1010",
        words: [0x02800004, NOP],
        at: (0x1000, ONWARD, 0),
        known: [Range(8, 4, 5), Compared(8, 4), Nothing],
        callee: None,
        assertions: "",
        eight: false,
        want: "sum 1000; node 1004>1010/0 8=4 15=ret cmp 8 4; edge 1004>1010/0; node 1004/0 8=5 15=ret cmp 8 4; edge 1004/0",
    },
    Row {
        name: "be,a 0x1010",
        words: [0x22800004, NOP],
        at: (0x1000, ONWARD, 0),
        known: [Range(8, 4, 5), Compared(8, 4), Nothing],
        callee: None,
        assertions: "",
        eight: false,
        want: "sum 1000; node 1004>1010/0 8=4 15=ret cmp 8 4; edge 1004>1010/0; node 1008/0 8=5 15=ret cmp 8 4; edge 1008/0",
    },
    Row {
        name: "be 0x1008",
        words: [0x02800002, NOP],
        at: (0x1000, ONWARD, 0),
        known: [Range(8, 4, 5), Compared(8, 4), Nothing],
        callee: None,
        assertions: "",
        eight: false,
        want: "sum 1000; node 1004/0 8=4 15=ret cmp 8 4; edge 1004/0; node 1004/0 8=5 15=ret cmp 8 4; edge 1004/0",
    },
    Row {
        name: "bgu 0x1010",
        words: [0x18800004, NOP],
        at: (0x1000, ONWARD, 0),
        known: [Compared(8, 4), Nothing, Nothing],
        callee: None,
        assertions: "",
        eight: false,
        want: "sum 1000; node 1004>1010/0 15=ret cmp 8 4; edge 1004>1010/0; node 1004/0 8=0~4#5 15=ret cmp 8 4; edge 1004/0",
    },
    Row {
        name: "bneg 0x1010",
        words: [0x0c800004, NOP],
        at: (0x1000, ONWARD, 0),
        known: [Word(8, 20), Range(9, 0, 255), Cells(8, 9)],
        callee: None,
        assertions: "",
        eight: false,
        want: "sum 1000; node 1004>1010/0 8=14 9=0..255 15=ret cmp 8 cell 9; edge 1004>1010/0; \
            node 1004/0 8=14 9=0..255 15=ret cmp 8 cell 9; edge 1004/0",
    },
    Row {
        name: "be 0x1010",
        words: [0x02800004, NOP],
        at: (0x1000, ONWARD, 0),
        known: [Range(8, -1, 1), Computed(8), Nothing],
        callee: None,
        assertions: "",
        eight: false,
        want: "sum 1000; node 1004>1010/0 8=0 15=ret res 8; edge 1004>1010/0; node 1004/0 8=1|ffffffff 15=ret res 8; edge 1004/0",
    },
    Row {
        name: "fbe",
        words: [0x13800004, NOP],
        at: (0x1000, ONWARD, 0),
        known: [Range(8, 4, 5), Compared(8, 4), Nothing],
        callee: None,
        assertions: "",
        eight: false,
        want: "sum 1000; node 1004>1010/0 8=4|5 15=ret cmp 8 4; edge 1004>1010/0; node 1004/0 8=4|5 15=ret cmp 8 4; edge 1004/0",
    },
];

#[test]
fn branches(rt: HostRuntime) -> Result<(), Fail> {
    for row in &BRANCHES {
        assert!(rt; is_row(rt.alloc(), row)?, "{}", row.name);
    }
    Ok(())
}

/// Calls, jumps and returns, with their delay instruction.
const TRANSFERS: [Row; 10] = [
    Row {
        name: "call 0x1040; nop",
        words: [0x40000010, NOP],
        at: (0x1000, ONWARD, 0),
        known: [Nothing, Nothing, Nothing],
        callee: None,
        assertions: "",
        eight: false,
        want: "sum 1000 15; node 1004>into 1040/0 15=1000; edge 1004>into 1040/0",
    },
    Row {
        name: "call 0x1040; mov %g1, %o7",
        words: [0x40000010, 0x9e100001],
        at: (0x1000, ONWARD, 0),
        known: [Nothing, Nothing, Nothing],
        callee: None,
        assertions: "",
        eight: false,
        want: "sum 1000 15; node 1004>1040/0 15=1000; edge 1004>1040/0",
    },
    Row {
        name: "jmpl %o0, %o7; nop",
        words: [0x9fc20000, NOP],
        at: (0x1000, ONWARD, 0),
        known: [Range(8, 4160, 4164), Nothing, Nothing],
        callee: None,
        assertions: "",
        eight: false,
        want: "sum 1000 15; gap 1000 1000 call; node 1004>into 1040/0 8=1040~1044#5 15=1000; edge 1004>into 1040/0",
    },
    Row {
        name: "jmpl %o0, %o7; nop",
        words: [0x9fc20000, NOP],
        at: (0x1000, ONWARD, 0),
        known: [Nothing, Nothing, Nothing],
        callee: None,
        assertions: "call 0x1000 to 0x1040",
        eight: false,
        want: "sum 1000 15; node 1004>into 1040/0 15=1000; edge 1004>into 1040/0",
    },
    Row {
        name: "jmpl %o0, %g0; nop",
        words: [0x81c20000, NOP],
        at: (0x1000, ONWARD, 0),
        known: [Nothing, Nothing, Nothing],
        callee: None,
        assertions: "",
        eight: false,
        want: "sum 1000; gap 1000 1000 jump; node 1004/0 15=ret; edge 1004/0; node 1004>100c/0 15=ret; edge 1004>100c/0",
    },
    Row {
        name: "jmpl %o0, %g0; nop",
        words: [0x81c20000, NOP],
        at: (0x1000, ONWARD, 0),
        known: [Nothing, Nothing, Nothing],
        callee: None,
        assertions: "jump 0x1000 to 0x1040, 0x1010",
        eight: false,
        want: "sum 1000; node 1004>1010/0 15=ret; edge 1004>1010/0; node 1004>1040/0 15=ret; edge 1004>1040/0",
    },
    Row {
        name: "retl; nop",
        words: [0x81c3e008, NOP],
        at: (0x1000, ONWARD, 0),
        known: [Nothing, Nothing, Nothing],
        callee: None,
        assertions: "",
        eight: false,
        want: "sum 1000; node 1004>back/0 15=ret; edge 1004>back/0",
    },
    Row {
        name: "retl; nop",
        words: [0x81c3e008, NOP],
        at: (0x1000, ONWARD, 0),
        known: [Any(15), Nothing, Nothing],
        callee: None,
        assertions: "",
        eight: false,
        want: "sum 1000; gap 1000 1000 jump; node 1004>back/0; edge 1004>back/0",
    },
    Row {
        name: "ret; nop",
        words: [0x81c7e008, NOP],
        at: (0x1000, ONWARD, 1),
        known: [Nothing, Nothing, Nothing],
        callee: None,
        assertions: "",
        eight: false,
        want: "sum 1000; node 1004>back/1 15=ret; edge 1004>back/1",
    },
    Row {
        name: "jmpl %o7+12, %g0; nop",
        words: [0x81c3e00c, NOP],
        at: (0x1000, ONWARD, 0),
        known: [Nothing, Nothing, Nothing],
        callee: None,
        assertions: "",
        eight: false,
        want: "sum 1000; node 1004>back/0 15=ret; edge 1004>back/0",
    },
];

#[test]
fn transfers(rt: HostRuntime) -> Result<(), Fail> {
    for row in &TRANSFERS {
        assert!(rt; is_row(rt.alloc(), row)?, "{}", row.name);
    }
    Ok(())
}

/// What comes before the instruction: code, assertions, and stubs.
const PLACES: [Row; 7] = [
    Row {
        name: "nop",
        words: [0x01000000, NOP],
        at: (0x2000, Next::At(0x2004), 0),
        known: [Nothing, Nothing, Nothing],
        callee: None,
        assertions: "",
        eight: false,
        want: "",
    },
    Row {
        name: "nop",
        words: [0x01000000, NOP],
        at: (0x1000, ONWARD, 0),
        known: [Nothing, Nothing, Nothing],
        callee: None,
        assertions: "never 0x1000",
        eight: false,
        want: "",
    },
    Row {
        name: "nop",
        words: [0x01000000, NOP],
        at: (0x1000, ONWARD, 0),
        known: [Nothing, Nothing, Nothing],
        callee: None,
        assertions: "stub 0x1000 time 3",
        eight: false,
        want: "gap 1000 1000 jump",
    },
    Row {
        name: "nop",
        words: [0x01000000, NOP],
        at: (0x1000, ONWARD, 0),
        known: [Range(8, 0, 255), Nothing, Nothing],
        callee: None,
        assertions: "at 0x1000 %o0 4..9",
        eight: false,
        want: "sum 1000; node 1004/0 8=4~9#6 15=ret; edge 1004/0",
    },
    Row {
        name: "nop",
        words: [0x01000000, NOP],
        at: (0x1000, ONWARD, 0),
        known: [Word(8, 20), Nothing, Nothing],
        callee: None,
        assertions: "at 0x1000 %o0 4..9",
        eight: false,
        want: "",
    },
    Row {
        name: "nop",
        words: [0x01000000, NOP],
        at: (0x1000, ONWARD, 1),
        known: [Word(8, 20), Range(32, 0, 255), Nothing],
        callee: None,
        assertions: "at 0x1000 %o0 4..4",
        eight: false,
        want: "sum 1000; node 1004/1 8=14 15=ret 32=4; edge 1004/1",
    },
    Row {
        name: "nop",
        words: [0x01000000, NOP],
        at: (0x1000, ONWARD, 0),
        known: [Range(8, 0, 255), Computed(8), Nothing],
        callee: None,
        assertions: "at 0x1000 %o0 4..4",
        eight: false,
        want: "sum 1000; node 1004/0 8=4 15=ret res 8; edge 1004/0",
    },
];

#[test]
fn places(rt: HostRuntime) -> Result<(), Fail> {
    for row in &PLACES {
        assert!(rt; is_row(rt.alloc(), row)?, "{}", row.name);
    }
    Ok(())
}
