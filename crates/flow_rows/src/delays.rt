//! What delay instructions give: one, a state, and the pieces that come of them, worked by hand.

use crate::systems::Known::{Compared, Nothing, Word};
use crate::systems::{May, Row, is_row};
use abs_state::Next;
use std::test::Fail;

/// A NOP.
const NOP: u32 = 0x01000000;

/// Delay instructions, at 1004: of returns, and of calls with what is known of the callee at 1040.
const DELAYS: [Row; 13] = [
    Row {
        name: "retl; nop",
        words: [0x81c3e008, NOP],
        at: (0x1004, Next::Back, 0),
        known: [Nothing, Nothing, Nothing],
        callee: None,
        assertions: "",
        eight: false,
        want: "sum 1000; sum 1000 returns",
    },
    Row {
        name: "jmpl %o7+12, %g0; nop",
        words: [0x81c3e00c, NOP],
        at: (0x1004, Next::Back, 0),
        known: [Nothing, Nothing, Nothing],
        callee: None,
        assertions: "",
        eight: false,
        want: "sum 1000; sum 1000 skips",
    },
    Row {
        name: "ret; restore %g0, %g0, %g0",
        words: [0x81c7e008, 0x81e80000],
        at: (0x1004, Next::Back, 1),
        known: [Nothing, Nothing, Nothing],
        callee: None,
        assertions: "",
        eight: false,
        want: "sum 1000; sum 1000 returns",
    },
    Row {
        name: "ret; nop",
        words: [0x81c7e008, NOP],
        at: (0x1004, Next::Back, 1),
        known: [Nothing, Nothing, Nothing],
        callee: None,
        assertions: "",
        eight: false,
        want: "sum 1000; gap 1000 1004 instr",
    },
    Row {
        name: "call 0x1040; nop",
        words: [0x40000010, NOP],
        at: (0x1004, Next::Into(0x1040), 0),
        known: [Word(8, 5), Word(16, 7), Compared(8, 5)],
        callee: None,
        assertions: "",
        eight: false,
        want: "sum 1000; call 1040 8=5; node 1040: 1040/0 8=5 15=ret",
    },
    Row {
        name: "call 0x1040; nop",
        words: [0x40000010, NOP],
        at: (0x1004, Next::Into(0x1040), 0),
        known: [Word(8, 5), Word(16, 7), Compared(8, 5)],
        callee: Some(May {
            returns: true,
            skips: false,
            cells: [8, 16, 0],
        }),
        assertions: "",
        eight: false,
        want: "sum 1000; call 1040 8=5; sum 1000 8 16; node 1008/0 15=ret; edge 1008/0; node 1040: 1040/0 8=5 15=ret",
    },
    Row {
        name: "call 0x1040; nop",
        words: [0x40000010, NOP],
        at: (0x1004, Next::Into(0x1040), 0),
        known: [Word(8, 5), Word(16, 7), Compared(8, 5)],
        callee: Some(May {
            returns: false,
            skips: true,
            cells: [8, 0, 0],
        }),
        assertions: "",
        eight: false,
        want: "sum 1000; call 1040 8=5; sum 1000 8; node 100c/0 15=ret 16=7; edge 100c/0; node 1040: 1040/0 8=5 15=ret",
    },
    Row {
        name: "call 0x1040; nop",
        words: [0x40000010, NOP],
        at: (0x1004, Next::Into(0x1040), 0),
        known: [Word(8, 5), Word(16, 7), Compared(8, 5)],
        callee: Some(May {
            returns: true,
            skips: true,
            cells: [8, 0, 0],
        }),
        assertions: "",
        eight: false,
        want: "sum 1000; call 1040 8=5; sum 1000 8; node 1008/0 15=ret 16=7; edge 1008/0; node 100c/0 15=ret 16=7; edge 100c/0; \
            node 1040: 1040/0 8=5 15=ret",
    },
    Row {
        name: "call 0x1040; mov %o7, %o0",
        words: [0x40000010, 0x9010000f],
        at: (0x1004, Next::Into(0x1040), 0),
        known: [Word(8, 5), Word(16, 7), Compared(8, 5)],
        callee: Some(May {
            returns: true,
            skips: false,
            cells: [0, 0, 0],
        }),
        assertions: "",
        eight: false,
        want: "sum 1000 8; call 1040; sum 1000; node 1008/0 8=ret 15=ret 16=7; edge 1008/0; node 1040: 1040/0 15=ret",
    },
    Row {
        name: "call 0x1040; nop",
        words: [0x40000010, NOP],
        at: (0x1004, Next::Into(0x1040), 1),
        known: [Word(8, 5), Word(32, 6), Word(1, 9)],
        callee: Some(May {
            returns: true,
            skips: false,
            cells: [8, 24, 40],
        }),
        assertions: "",
        eight: false,
        want: "sum 1000; call 1040 8=6 1=9; sum 1000 8 32; node 1008/1 1=9 15=ret; edge 1008/1; node 1040: 1040/0 1=9 8=6 15=ret",
    },
    Row {
        name: "call 0x1040; nop",
        words: [0x40000010, NOP],
        at: (0x1004, Next::Into(0x1040), 0),
        known: [Word(8, 5), Word(16, 7), Compared(8, 5)],
        callee: Some(May {
            returns: true,
            skips: false,
            cells: [8, 15, 0],
        }),
        assertions: "stub 0x1040 time 5",
        eight: false,
        want: "sum 1000; call 1040 8=5; sum 1000 8 15; node 1008/0 16=7; edge 1008/0",
    },
    Row {
        name: "call 0x1040; ba 0x1010",
        words: [0x40000010, 0x10800004],
        at: (0x1004, Next::Into(0x1040), 0),
        known: [Word(8, 5), Word(16, 7), Compared(8, 5)],
        callee: None,
        assertions: "",
        eight: false,
        want: "gap 1000 1004 instr",
    },
    Row {
        name: "ba 0x1010; nop",
        words: [0x10800004, NOP],
        at: (0x1004, Next::At(0x1010), 0),
        known: [Word(8, 5), Word(16, 7), Compared(8, 5)],
        callee: None,
        assertions: "",
        eight: false,
        want: "sum 1000; node 1010/0 8=5 15=ret 16=7 cmp 8 5; edge 1010/0",
    },
];

#[test]
fn delay_instructions(rt: HostRuntime) -> Result<(), Fail> {
    for row in &DELAYS {
        assert!(rt; is_row(rt.alloc(), row)?, "{}", row.name);
    }
    Ok(())
}
