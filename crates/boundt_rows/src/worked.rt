//! Worked programs, and the report of each.
use crate::calls::{Costs, Files, NEVER, says, table_of};
use crate::executables::{Program, executable_of};
use std::alloc::Global;
use std::test::Fail;

/// A worked program: what its executable is made of, what its instructions cost, its assertions, the message, and the
/// report without its first and its last line.
struct Row {
    program: Program,
    costs: Costs,
    assertions: &'static str,
    message: &'static str,
    lines: &'static str,
}

#[rattlefmt::skip]
const ROWS: [Row; 19] = [
    // A leaf that only returns.
    Row {
        program: Program {
            code: "81c3e008 01000000",
            functions: &[("f", 0x0200_0000)],
            data: "",
            writable: false,
        },
        costs: Costs::Ones,
        assertions: "root f\n",
        message: "boundt: 0 Bounded",
        lines: "root 02000000 f bounded 2\n\
        context 02000000 f plain bounded 2\n",
    },
    // A loop over words from the last to the first.
    Row {
        program: Program {
            code: "92102028 94102000 c2020009 92a26004 12bffffe 94028001 81c3e008 9010000a",
            functions: &[("f", 0x0200_0000)],
            data: "",
            writable: false,
        },
        costs: Costs::Ones,
        assertions: "root f\n",
        message: "boundt: 0 Bounded",
        lines: "root 02000000 f bounded 44\n\
        context 02000000 f plain bounded 44\n\
        loop 02000008/0 at most 10 by %o1 step -4 from 4 to 40\n",
    },
    // A test at the top of a loop, and the addition in the delay slot.
    Row {
        program: Program {
            code: "92102000 80a26009 04bfffff 92026001 81c3e008 01000000",
            functions: &[("f", 0x0200_0000)],
            data: "",
            writable: false,
        },
        costs: Costs::Ones,
        assertions: "root f\n",
        message: "boundt: 0 Bounded",
        lines: "root 02000000 f bounded 36\n\
        context 02000000 f plain bounded 36\n\
        loop 02000004/0 at most 11 by %o1 step 1 from 0 to 10\n",
    },
    // A counter that goes through more words than a set has.
    Row {
        program: Program {
            code: "92102000 92026001 80a263e8 12bffffe 01000000 81c3e008 01000000",
            functions: &[("f", 0x0200_0000)],
            data: "",
            writable: false,
        },
        costs: Costs::Ones,
        assertions: "root f\n",
        message: "boundt: 0 Bounded",
        lines: "root 02000000 f bounded 4003\n\
        context 02000000 f plain bounded 4003\n\
        loop 02000004/0 at most 1000 by %o1 step 1 from 0 to 999\n",
    },
    // A branch that passes over its delay instruction where it is untaken.
    Row {
        program: Program {
            code: "80a22005 22800004 92026001 81c3e008 01000000 81c3e008 01000000",
            functions: &[("f", 0x0200_0000)],
            data: "",
            writable: false,
        },
        costs: Costs::DearPassing,
        assertions: "root f\n",
        message: "boundt: 0 Bounded",
        lines: "root 02000000 f bounded 7\n\
        context 02000000 f plain bounded 7\n",
    },
    // A jump through a table of addresses.
    Row {
        program: Program {
            code: "80a22005 18800011 832a2002 05008040 8410a000 c2008001 81c06000 01000000 81c3e008 90102001 \
            81c3e008 90102002 81c3e008 90102003 81c3e008 90102004 81c3e008 90102005 81c3e008 90102000",
            functions: &[("f", 0x0200_0000)],
            data: "02000020 02000028 02000030 02000038 02000020 02000040",
            writable: false,
        },
        costs: Costs::Ones,
        assertions: "root f\n",
        message: "boundt: 0 Bounded",
        lines: "root 02000000 f bounded 10\n\
        context 02000000 f plain bounded 10\n",
    },
    // The same table where it may be written.
    Row {
        program: Program {
            code: "80a22005 18800011 832a2002 05008040 8410a000 c2008001 81c06000 01000000 81c3e008 90102001 \
            81c3e008 90102002 81c3e008 90102003 81c3e008 90102004 81c3e008 90102005 81c3e008 90102000",
            functions: &[("f", 0x0200_0000)],
            data: "02000020 02000028 02000030 02000038 02000020 02000040",
            writable: true,
        },
        costs: Costs::Ones,
        assertions: "root f\n",
        message: "boundt: 1 Unbounded",
        lines: "root 02000000 f unbounded\n\
        context 02000000 f args any unbounded\n\
        reason jump 02000018\n",
    },
    // A jump to an address that is no code.
    Row {
        program: Program {
            code: "82102100 81c06000 01000000",
            functions: &[("f", 0x0200_0000)],
            data: "",
            writable: false,
        },
        costs: Costs::Ones,
        assertions: "root f\n",
        message: "boundt: 1 Unbounded",
        lines: "root 02000000 f unbounded\n\
        context 02000000 f args any unbounded\n\
        reason jump 02000004\n",
    },
    // A loop whose bound is an argument, called with two constants and with a word that is loaded.
    Row {
        program: Program {
            code: "90a22001 12bfffff 01000000 81c3e008 01000000 9de3bfa0 7ffffffa 90102003 81c7e008 81e80000 \
            9de3bfa0 7ffffff5 90102028 81c7e008 81e80000 9de3bfa0 7ffffff0 d0062000 81c7e008 81e80000",
            functions: &[("g", 0x0200_0000), ("a", 0x0200_0014), ("b", 0x0200_0028), ("c", 0x0200_003c)],
            data: "",
            writable: false,
        },
        costs: Costs::Ones,
        assertions: "root a\nroot b\nroot c\n",
        message: "boundt: 1 Unbounded",
        lines: "root 02000014 a bounded 16\n\
        root 02000028 b bounded 127\n\
        root 0200003c c unbounded\n\
        context 02000000 g args %o0={3} bounded 11\n\
        loop 02000000/0 at most 3 by %o0 step -1 from 1 to 3\n\
        context 02000000 g args %o0={40} bounded 122\n\
        loop 02000000/0 at most 40 by %o0 step -1 from 1 to 40\n\
        context 02000000 g args any unbounded\n\
        loop 02000000/0 unbounded\n\
        reason loop 02000000/0\n\
        context 02000014 a args any bounded 16\n\
        context 02000028 b args any bounded 127\n\
        context 0200003c c args any unbounded\n\
        reason callee 02000040 02000000 g\n",
    },
    // A leaf that writes the local register in which its caller counts.
    Row {
        program: Program {
            code: "81c3e008 a0102000 9de3bfa0 a0102005 7ffffffc 01000000 a0a42001 12bffffd 01000000 81c7e008 \
            81e80000",
            functions: &[("h", 0x0200_0000), ("f", 0x0200_0008)],
            data: "",
            writable: false,
        },
        costs: Costs::Ones,
        assertions: "root f\n",
        message: "boundt: 1 Unbounded",
        lines: "root 02000008 f unbounded\n\
        context 02000000 h plain bounded 2\n\
        context 02000008 f args any unbounded\n\
        loop 02000010/1 unbounded\n\
        reason loop 02000010/1\n",
    },
    // A call whose delay instruction leaves the frame.
    Row {
        program: Program {
            code: "9de3bfa0 40000003 81e80000 01000000 81c3e008 01000000",
            functions: &[("f", 0x0200_0000), ("g", 0x0200_0010)],
            data: "",
            writable: false,
        },
        costs: Costs::Ones,
        assertions: "root f\n",
        message: "boundt: 0 Bounded",
        lines: "root 02000000 f bounded 5\n\
        context 02000000 f plain bounded 5\n",
    },
    // Two subprograms that call each other.
    Row {
        program: Program {
            code: "9de3bfa0 40000004 01000000 81c7e008 81e80000 9de3bfa0 7ffffffa 01000000 81c7e008 81e80000",
            functions: &[("a", 0x0200_0000), ("b", 0x0200_0014)],
            data: "",
            writable: false,
        },
        costs: Costs::Ones,
        assertions: "root a\n",
        message: "boundt: 1 Unbounded",
        lines: "root 02000000 a unbounded\n\
        context 02000000 a args any unbounded\n\
        reason recursion 02000004\n\
        reason recursion 02000018\n",
    },
    // Six frames, each of which takes a window.
    Row {
        program: Program {
            code: "9de3bfa0 40000004 01000000 81c7e008 81e80000 9de3bfa0 40000004 01000000 81c7e008 81e80000 \
            9de3bfa0 40000004 01000000 81c7e008 81e80000 9de3bfa0 40000004 01000000 81c7e008 81e80000 \
            9de3bfa0 40000004 01000000 81c7e008 81e80000 9de3bfa0 81c7e008 81e80000",
            functions: &[
                ("a", 0x0200_0000), ("b", 0x0200_0014), ("c", 0x0200_0028), ("d", 0x0200_003c),
                ("e", 0x0200_0050), ("f", 0x0200_0064),
            ],
            data: "",
            writable: false,
        },
        costs: Costs::Ones,
        assertions: "root a\n",
        message: "boundt: 0 Bounded",
        lines: "root 02000000 a bounded 28\n\
        context 02000000 a plain bounded 28\n\
        context 02000014 b plain bounded 23\n\
        context 02000028 c plain bounded 18\n\
        context 0200003c d plain bounded 13\n\
        context 02000050 e plain bounded 8\n\
        context 02000064 f plain bounded 3\n",
    },
    // Seven of them.
    Row {
        program: Program {
            code: "9de3bfa0 40000004 01000000 81c7e008 81e80000 9de3bfa0 40000004 01000000 81c7e008 81e80000 \
            9de3bfa0 40000004 01000000 81c7e008 81e80000 9de3bfa0 40000004 01000000 81c7e008 81e80000 \
            9de3bfa0 40000004 01000000 81c7e008 81e80000 9de3bfa0 40000004 01000000 81c7e008 81e80000 \
            9de3bfa0 81c7e008 81e80000",
            functions: &[
                ("a", 0x0200_0000), ("b", 0x0200_0014), ("c", 0x0200_0028), ("d", 0x0200_003c),
                ("e", 0x0200_0050), ("f", 0x0200_0064), ("g", 0x0200_0078),
            ],
            data: "",
            writable: false,
        },
        costs: Costs::Ones,
        assertions: "root a\n",
        message: "boundt: 1 Unbounded",
        lines: "root 02000000 a unbounded\n\
        context 02000000 a args any unbounded\n\
        reason windows 7\n\
        context 02000014 b plain bounded 28\n\
        context 02000028 c plain bounded 23\n\
        context 0200003c d plain bounded 18\n\
        context 02000050 e plain bounded 13\n\
        context 02000064 f plain bounded 8\n\
        context 02000078 g plain bounded 3\n",
    },
    // A cycle that is entered at two program points.
    Row {
        program: Program {
            code: "80a22000 02800003 01000000 01000000 80a22001 12bffffe 01000000 81c3e008 01000000",
            functions: &[("f", 0x0200_0000)],
            data: "",
            writable: false,
        },
        costs: Costs::Ones,
        assertions: "root f\n",
        message: "boundt: 1 Unbounded",
        lines: "root 02000000 f unbounded\n\
        context 02000000 f args any unbounded\n\
        reason irreducible 0200000c/0 02000010/0\n",
    },
    // A loop round a call of a subprogram whose time is asserted.
    Row {
        program: Program {
            code: "00000000 9de3bfa0 a010200c 7ffffffd 01000000 a0a42001 12bffffd 01000000 81c7e008 81e80000",
            functions: &[(".umul", 0x0200_0000), ("f", 0x0200_0004)],
            data: "",
            writable: false,
        },
        costs: Costs::Ones,
        assertions: "root f\nstub .umul time 90\n",
        message: "boundt: 0 Bounded",
        lines: "root 02000004 f bounded 1144\n\
        context 02000004 f plain bounded 1144\n\
        loop 0200000c/1 at most 12 by %l0.1 step -1 from 1 to 12\n",
    },
    // The greatest bound that is told.
    Row {
        program: Program {
            code: "00000000 9de3bfa0 7ffffffe 01000000 80900008 12bffffd 01000000 81c7e008 81e80000",
            functions: &[("s", 0x0200_0000), ("f", 0x0200_0004)],
            data: "",
            writable: false,
        },
        costs: Costs::Ones,
        assertions: "root f\nstub s time 2305843009213693946\nloop f+0x4 repeats 4\n",
        message: "boundt: 0 Bounded",
        lines: "root 02000004 f bounded 9223372036854775807\n\
        context 02000004 f plain bounded 9223372036854775807\n\
        loop 02000008/1 at most 4 by assertion\n",
    },
    // One cycle more in a loop of four passes.
    Row {
        program: Program {
            code: "00000000 9de3bfa0 7ffffffe 01000000 80900008 12bffffd 01000000 81c7e008 81e80000",
            functions: &[("s", 0x0200_0000), ("f", 0x0200_0004)],
            data: "",
            writable: false,
        },
        costs: Costs::Ones,
        assertions: "root f\nstub s time 2305843009213693947\nloop f+0x4 repeats 4\n",
        message: "boundt: 1 Unbounded",
        lines: "root 02000004 f unbounded\n\
        context 02000004 f args any unbounded\n\
        loop 02000008/1 at most 4 by assertion\n\
        reason toolarge 02000008/1\n",
    },
    // A module as a compiler makes it.
    Row {
        program: Program {
            code: "92102028 94102000 c2020009 92a26004 12bffffe 94028001 81c3e008 9010000a 80a22005 18800011 \
            832a2002 05008040 8410a000 c2008001 81c06000 01000000 81c3e008 90102001 81c3e008 90102002 \
            81c3e008 90102003 81c3e008 90102004 81c3e008 90102005 81c3e008 90102000 90a22001 12bfffff \
            01000000 81c3e008 01000000 00000000 9de3bfa0 a010200c 7ffffffd 01000000 a0a42001 12bffffd \
            01000000 81c7e008 81e80000 9de3bfa0 7fffffd4 01000000 7fffffda 01000000 7fffffec 90102003 \
            7fffffea 90102028 7fffffee 01000000 81c7e008 81e80000",
            functions: &[
                ("isum", 0x0200_0000), ("sel", 0x0200_0020), ("delay", 0x0200_0070), (".umul", 0x0200_0084),
                ("scale", 0x0200_0088), ("main", 0x0200_00ac),
            ],
            data: "02000040 02000048 02000050 02000058 02000040 02000060",
            writable: false,
        },
        costs: Costs::DearLoads,
        assertions: "# module\nroot main\nstub .umul time 90\nat sel %o0 0..9\nloop isum+0x8 repeats 12\n",
        message: "boundt: 0 Bounded",
        lines: "root 020000ac main bounded 1473\n\
        context 02000000 isum plain bounded 55\n\
        loop 02000008/0 at most 10 by %o1 step -4 from 4 to 40\n\
        context 02000020 sel plain bounded 13\n\
        context 02000070 delay plain bounded 123\n\
        loop 02000070/0 at most 40 by %o0 step -1 from 1 to 40\n\
        context 02000088 scale plain bounded 1145\n\
        loop 02000090/1 at most 12 by %l0.1 step -1 from 1 to 12\n\
        context 020000ac main plain bounded 1473\n",
    },
];

/// Whether the command `bound` tells a worked program as it must.
fn is_told(alloc: Global, row: &Row) -> Result<bool, Fail> {
    let lines = row.lines;
    let text = format!(in alloc; "boundt report 1\n{lines}end\n")?;
    let files = Files {
        image: executable_of(alloc, &row.program)?,
        table: table_of(alloc, row.costs)?,
        assertions: Vec::from_slice(alloc, row.assertions.as_bytes())?,
    };
    says(
        alloc,
        "bound i c a",
        files,
        (NEVER, NEVER),
        row.message,
        text.as_str(),
    )
}

#[test]
fn worked_programs(rt: HostRuntime) -> Result<(), Fail> {
    for row in &ROWS {
        let lines = row.lines;
        assert!(rt; is_told(rt.alloc(), row)?, "of {lines}");
    }
    Ok(())
}
