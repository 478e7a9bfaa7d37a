//! Reports in full, each from outcomes in an order that isn't the report's.
use crate::images::image_of;
use crate::outcomes::{
    any, asserted, at, bounded, counted, endless, first, known, plain, unbounded, words,
};
use abs_state::{Next, Place};
use std::process::Abort;
use std::test::Fail;
use value_lattice::Value;
use wcet_report::{Context, Outcome, OutcomeList, Outcomes, Reason, Roots, text};

/// The report of outcomes is as it stands, but for its first and its last line.
fn check(
    rt: &(impl Abort + AllocGlobal),
    functions: &[(u32, &'static [u8])],
    roots: &[u32],
    list: Vec<Outcome>,
    want: &str,
) -> Result<(), Fail> {
    let image = image_of(rt, functions)?;
    let roots = Vec::from_slice(rt.alloc(), roots)?;
    let outcomes = Outcomes {
        roots: Roots::new(roots),
        list: OutcomeList::new(list),
    };
    let report = text(rt.alloc(), &outcomes, &image)?;
    let want = format!(in rt.alloc(); "boundt report 1\n{want}end\n")?;
    assert_eq!(rt; report.as_slice(), want.as_bytes(), "{want}");
    Ok(())
}

/// The bound of a function whose context is plain and which has no loop, and its report.
const LOOPLESS: [(u64, &str); 4] = [
    // A leaf that only returns.
    (
        2,
        "root 02000000 f bounded 2\n\
        context 02000000 f plain bounded 2\n",
    ),
    // A branch that passes over its delay instruction where it is untaken.
    (
        7,
        "root 02000000 f bounded 7\n\
        context 02000000 f plain bounded 7\n",
    ),
    // A jump through a table of addresses.
    (
        10,
        "root 02000000 f bounded 10\n\
        context 02000000 f plain bounded 10\n",
    ),
    // Straight code of as many words as there may be.
    (
        131071,
        "root 02000000 f bounded 131071\n\
        context 02000000 f plain bounded 131071\n",
    ),
];

/// Functions without a loop.
#[test]
fn loopless(rt: HostRuntime) -> Result<(), Fail> {
    for (bound, want) in &LOOPLESS {
        let mut list = Vec::new(rt.alloc());
        list.push(plain(rt.alloc(), 0x02000000, *bound)?)?;
        check(&rt, &[(0x02000000, b"f")], &[0x02000000], list, want)?;
    }
    Ok(())
}

/// A loop of a function whose context is plain: its head, its step, where its counter begins and ends and how often it is
/// passed, the bound of the function, and the report.
const COUNTERS: [(u32, i64, (i32, i32), u64, u64, &str); 3] = [
    // Over words from the last to the first.
    (
        0x02000008,
        -4,
        (4, 40),
        10,
        44,
        "root 02000000 f bounded 44\n\
        context 02000000 f plain bounded 44\n\
        loop 02000008/0 at most 10 by %o1 step -4 from 4 to 40\n",
    ),
    // With the test at its top, and the addition in the delay slot.
    (
        0x02000004,
        1,
        (0, 10),
        11,
        36,
        "root 02000000 f bounded 36\n\
        context 02000000 f plain bounded 36\n\
        loop 02000004/0 at most 11 by %o1 step 1 from 0 to 10\n",
    ),
    // Through more words than a set has.
    (
        0x02000004,
        1,
        (0, 999),
        1000,
        4003,
        "root 02000000 f bounded 4003\n\
        context 02000000 f plain bounded 4003\n\
        loop 02000004/0 at most 1000 by %o1 step 1 from 0 to 999\n",
    ),
];

/// Loops whose counters fall and rise.
#[test]
fn counters(rt: HostRuntime) -> Result<(), Fail> {
    let f = 0x02000000;
    for (head, step, (lo, hi), passes, bound, want) in &COUNTERS {
        let loops = [counted(at(f, *head, 0), 9, *step, *lo, *hi, *passes)];
        let mut list = Vec::new(rt.alloc());
        list.push(bounded(rt.alloc(), f, Context::Plain, &loops, *bound)?)?;
        check(&rt, &[(0x02000000, b"f")], &[f], list, want)?;
    }
    Ok(())
}

/// A counter behind a SAVE, round calls of a stub.
#[test]
fn stub(rt: HostRuntime) -> Result<(), Fail> {
    let f = 0x02000004;
    let loops = [counted(at(f, 0x0200000c, 1), 40, -1, 1, 12, 12)];
    let mut list = Vec::new(rt.alloc());
    list.push(bounded(rt.alloc(), f, Context::Plain, &loops, 1144)?)?;
    let want = "root 02000004 f bounded 1144\n\
        context 02000004 f plain bounded 1144\n\
        loop 0200000c/1 at most 12 by %l0.1 step -1 from 1 to 12\n";
    let functions: [(u32, &'static [u8]); 2] = [(0x02000000, b".umul"), (0x02000004, b"f")];
    check(&rt, &functions, &[f], list, want)
}

/// An asserted loop whose bound is the greatest that there is, and one whose bound is more.
#[test]
fn large(rt: HostRuntime) -> Result<(), Fail> {
    let f = 0x02000004;
    let head = at(f, 0x02000008, 1);
    let loops = [asserted(head, 4)];
    let most = 9223372036854775807;
    let mut list = Vec::new(rt.alloc());
    list.push(bounded(rt.alloc(), f, Context::Plain, &loops, most)?)?;
    let want = "root 02000004 f bounded 9223372036854775807\n\
        context 02000004 f plain bounded 9223372036854775807\n\
        loop 02000008/1 at most 4 by assertion\n";
    let functions: [(u32, &'static [u8]); 2] = [(0x02000000, b"s"), (0x02000004, b"f")];
    check(&rt, &functions, &[f], list, want)?;

    let reasons = [Reason::TooLarge(head)];
    let mut list = Vec::new(rt.alloc());
    list.push(unbounded(rt.alloc(), f, &loops, &reasons)?)?;
    let want = "root 02000004 f unbounded\n\
        context 02000004 f args any unbounded\n\
        loop 02000008/1 at most 4 by assertion\n\
        reason toolarge 02000008/1\n";
    check(&rt, &functions, &[f], list, want)
}

/// Why the function at 02000000 has no bound, and its report: a jump through a table that may be written, and a jump to
/// an address that is no code.
const OPEN: [(Reason, &str); 2] = [
    (
        Reason::Jump(0x02000018),
        "root 02000000 f unbounded\n\
        context 02000000 f args any unbounded\n\
        reason jump 02000018\n",
    ),
    (
        Reason::Jump(0x02000004),
        "root 02000000 f unbounded\n\
        context 02000000 f args any unbounded\n\
        reason jump 02000004\n",
    ),
];

/// Open jumps; a part with two entries; calls in a cycle.
#[test]
fn open(rt: HostRuntime) -> Result<(), Fail> {
    let f = 0x02000000;
    for (reason, want) in &OPEN {
        let mut list = Vec::new(rt.alloc());
        list.push(unbounded(rt.alloc(), f, &[], &[*reason])?)?;
        check(&rt, &[(0x02000000, b"f")], &[f], list, want)?;
    }

    let reasons = [Reason::Irreducible(at(f, 0x0200000c, 0), at(f, 0x02000010, 0))];
    let mut list = Vec::new(rt.alloc());
    list.push(unbounded(rt.alloc(), f, &[], &reasons)?)?;
    let want = "root 02000000 f unbounded\n\
        context 02000000 f args any unbounded\n\
        reason irreducible 0200000c/0 02000010/0\n";
    check(&rt, &[(0x02000000, b"f")], &[f], list, want)?;

    let reasons = [Reason::Recursion(0x02000004), Reason::Recursion(0x02000018)];
    let mut list = Vec::new(rt.alloc());
    list.push(unbounded(rt.alloc(), f, &[], &reasons)?)?;
    let want = "root 02000000 a unbounded\n\
        context 02000000 a args any unbounded\n\
        reason recursion 02000004\n\
        reason recursion 02000018\n";
    let functions: [(u32, &'static [u8]); 2] = [(0x02000000, b"a"), (0x02000014, b"b")];
    check(&rt, &functions, &[f], list, want)
}

/// A leaf that overwrites its caller's counter.
#[test]
fn leaf(rt: HostRuntime) -> Result<(), Fail> {
    let f = 0x02000008;
    let head = at(f, 0x02000010, 1);
    let mut list = Vec::new(rt.alloc());
    list.push(unbounded(rt.alloc(), f, &[endless(head)], &[Reason::Loop(head)])?)?;
    list.push(plain(rt.alloc(), 0x02000000, 2)?)?;
    let want = "root 02000008 f unbounded\n\
        context 02000000 h plain bounded 2\n\
        context 02000008 f args any unbounded\n\
        loop 02000010/1 unbounded\n\
        reason loop 02000010/1\n";
    let functions: [(u32, &'static [u8]); 2] = [(0x02000000, b"h"), (0x02000008, b"f")];
    check(&rt, &functions, &[f], list, want)
}

/// A call whose delay instruction leaves the frame: what is called is a part of the caller, and has no context of its own.
#[test]
fn sibling(rt: HostRuntime) -> Result<(), Fail> {
    let mut list = Vec::new(rt.alloc());
    list.push(plain(rt.alloc(), 0x02000000, 5)?)?;
    let want = "root 02000000 f bounded 5\n\
        context 02000000 f plain bounded 5\n";
    let functions: [(u32, &'static [u8]); 2] = [(0x02000000, b"f"), (0x02000010, b"g")];
    check(&rt, &functions, &[0x02000000], list, want)
}

/// A chain of six functions, each of which needs a window more than the next: as many as there are.
#[test]
fn six_windows(rt: HostRuntime) -> Result<(), Fail> {
    let mut list = Vec::new(rt.alloc());
    for k in 0..6u32 {
        let sub = 0x02000064 - 0x14 * k;
        list.push(plain(rt.alloc(), sub, 3 + 5 * u64::from(k))?)?;
    }
    let want = "root 02000000 f1 bounded 28\n\
        context 02000000 f1 plain bounded 28\n\
        context 02000014 f2 plain bounded 23\n\
        context 02000028 f3 plain bounded 18\n\
        context 0200003c f4 plain bounded 13\n\
        context 02000050 f5 plain bounded 8\n\
        context 02000064 f6 plain bounded 3\n";
    let functions: [(u32, &'static [u8]); 6] = [
        (0x02000000, b"f1"),
        (0x02000014, b"f2"),
        (0x02000028, b"f3"),
        (0x0200003c, b"f4"),
        (0x02000050, b"f5"),
        (0x02000064, b"f6"),
    ];
    check(&rt, &functions, &[0x02000000], list, want)
}

/// A chain of seven functions, each of which needs a window more than the next.
#[test]
fn windows(rt: HostRuntime) -> Result<(), Fail> {
    let mut list = Vec::new(rt.alloc());
    for k in 0..6u32 {
        let sub = 0x02000078 - 0x14 * k;
        list.push(plain(rt.alloc(), sub, 3 + 5 * u64::from(k))?)?;
    }
    list.push(unbounded(rt.alloc(), 0x02000000, &[], &[Reason::Windows(7)])?)?;
    let want = "root 02000014 f2 bounded 28\n\
        root 02000000 f1 unbounded\n\
        context 02000000 f1 args any unbounded\n\
        reason windows 7\n\
        context 02000014 f2 plain bounded 28\n\
        context 02000028 f3 plain bounded 23\n\
        context 0200003c f4 plain bounded 18\n\
        context 02000050 f5 plain bounded 13\n\
        context 02000064 f6 plain bounded 8\n\
        context 02000078 f7 plain bounded 3\n";
    let functions: [(u32, &'static [u8]); 7] = [
        (0x02000000, b"f1"),
        (0x02000014, b"f2"),
        (0x02000028, b"f3"),
        (0x0200003c, b"f4"),
        (0x02000050, b"f5"),
        (0x02000064, b"f6"),
        (0x02000078, b"f7"),
    ];
    check(&rt, &functions, &[0x02000014, 0x02000000], list, want)
}

/// A function that is called with one constant, with another, and with a loaded word.
#[test]
fn contexts(rt: HostRuntime) -> Result<(), Fail> {
    let g = 0x02000000;
    let head = at(g, g, 0);
    let mut list = Vec::new(rt.alloc());
    let calls = [Reason::Callee {
        call: 0x02000040,
        callee: g,
    }];
    list.push(unbounded(rt.alloc(), 0x0200003c, &[], &calls)?)?;
    list.push(unbounded(rt.alloc(), g, &[endless(head)], &[Reason::Loop(head)])?)?;
    let open = any(rt.alloc())?;
    list.push(bounded(rt.alloc(), 0x02000028, open, &[], 127)?)?;
    let forty = [counted(head, 8, -1, 1, 40, 40)];
    let context = first(rt.alloc(), 40)?;
    list.push(bounded(rt.alloc(), g, context, &forty, 122)?)?;
    let open = any(rt.alloc())?;
    list.push(bounded(rt.alloc(), 0x02000014, open, &[], 16)?)?;
    let three = [counted(head, 8, -1, 1, 3, 3)];
    let context = first(rt.alloc(), 3)?;
    list.push(bounded(rt.alloc(), g, context, &three, 11)?)?;
    let want = "root 02000014 a bounded 16\n\
        root 02000028 b bounded 127\n\
        root 0200003c c unbounded\n\
        context 02000000 g args %o0={3} bounded 11\n\
        loop 02000000/0 at most 3 by %o0 step -1 from 1 to 3\n\
        context 02000000 g args %o0={40} bounded 122\n\
        loop 02000000/0 at most 40 by %o0 step -1 from 1 to 40\n\
        context 02000000 g args any unbounded\n\
        loop 02000000/0 unbounded\n\
        reason loop 02000000/0\n\
        context 02000014 a args any bounded 16\n\
        context 02000028 b args any bounded 127\n\
        context 0200003c c args any unbounded\n\
        reason callee 02000040 02000000 g\n";
    let functions: [(u32, &'static [u8]); 4] = [
        (0x02000000, b"g"),
        (0x02000014, b"a"),
        (0x02000028, b"b"),
        (0x0200003c, b"c"),
    ];
    let roots = [0x02000014, 0x02000028, 0x0200003c];
    check(&rt, &functions, &roots, list, want)
}

/// A module as a compiler makes it.
#[test]
fn module(rt: HostRuntime) -> Result<(), Fail> {
    let mut list = Vec::new(rt.alloc());
    list.push(plain(rt.alloc(), 0x020000ac, 1473)?)?;
    let sum = [counted(at(0x02000000, 0x02000008, 0), 9, -4, 4, 40, 10)];
    list.push(bounded(rt.alloc(), 0x02000000, Context::Plain, &sum, 55)?)?;
    list.push(plain(rt.alloc(), 0x02000020, 13)?)?;
    let delay = [counted(at(0x02000070, 0x02000070, 0), 8, -1, 1, 40, 40)];
    list.push(bounded(rt.alloc(), 0x02000070, Context::Plain, &delay, 123)?)?;
    let scale = [counted(at(0x02000088, 0x02000090, 1), 40, -1, 1, 12, 12)];
    list.push(bounded(rt.alloc(), 0x02000088, Context::Plain, &scale, 1145)?)?;
    let want = "root 020000ac main bounded 1473\n\
        context 02000000 isum plain bounded 55\n\
        loop 02000008/0 at most 10 by %o1 step -4 from 4 to 40\n\
        context 02000020 sel plain bounded 13\n\
        context 02000070 delay plain bounded 123\n\
        loop 02000070/0 at most 40 by %o0 step -1 from 1 to 40\n\
        context 02000088 scale plain bounded 1145\n\
        loop 02000090/1 at most 12 by %l0.1 step -1 from 1 to 12\n\
        context 020000ac main plain bounded 1473\n";
    let functions: [(u32, &'static [u8]); 6] = [
        (0x02000000, b"isum"),
        (0x02000020, b"sel"),
        (0x02000070, b"delay"),
        (0x02000084, b".umul"),
        (0x02000088, b"scale"),
        (0x020000ac, b"main"),
    ];
    check(&rt, &functions, &[0x020000ac], list, want)
}

/// A program point behind which control goes elsewhere.
fn turn(next: Next, depth: u8) -> Place {
    Place {
        sub: 0x02000000,
        pc: 0x02000010,
        next,
        depth,
    }
}

/// A name with bytes that aren't shown, program points of each kind, loops that aren't given by their heads, and each
/// reason.
#[test]
fn forms(rt: HostRuntime) -> Result<(), Fail> {
    let f = 0x02000000;
    let jump = turn(Next::At(0x02000000), 0);
    let call = turn(Next::Into(0x02000020), 1);
    let leave = turn(Next::Back, 0);
    let loops = [
        asserted(leave, 7),
        counted(call, 47, 8, -5, i32::MAX, 268435458),
        endless(at(f, 0x0200000c, 0)),
        counted(jump, 1, -1, i32::MIN, -1, 2147483648),
    ];
    let reasons = [
        Reason::Jump(0xfffffffc),
        Reason::Call(0x02000004),
        Reason::Instr(0),
        Reason::Loop(jump),
        Reason::Irreducible(call, leave),
        Reason::Callee {
            call: 0x02000008,
            callee: 0x02000020,
        },
        Reason::Recursion(0x0200000c),
        Reason::Windows(u32::MAX),
        Reason::TooLarge(leave),
    ];
    let mut list = Vec::new(rt.alloc());
    list.push(unbounded(rt.alloc(), f, &loops, &reasons)?)?;
    let want = "root 02000000 a\\20\\5c~!\\7f\\0a\\ff unbounded\n\
        context 02000000 a\\20\\5c~!\\7f\\0a\\ff args any unbounded\n\
        loop 0200000c/0 unbounded\n\
        loop 02000010>02000000/0 at most 2147483648 by %g1 step -1 from -2147483648 to -1\n\
        loop 02000010>into:02000020/1 at most 268435458 by %l7.1 step 8 from -5 to 2147483647\n\
        loop 02000010>back/0 at most 7 by assertion\n\
        reason jump fffffffc\n\
        reason call 02000004\n\
        reason instr 00000000\n\
        reason loop 02000010>02000000/0\n\
        reason irreducible 02000010>into:02000020/1 02000010>back/0\n\
        reason callee 02000008 02000020 -\n\
        reason recursion 0200000c\n\
        reason windows 4294967295\n\
        reason toolarge 02000010>back/0\n";
    check(&rt, &[(0x02000000, b"a \\~!\x7f\n\xff")], &[f], list, want)
}

/// A function without a symbol whose arguments are known by values of each kind.
#[test]
fn values(rt: HostRuntime) -> Result<(), Fail> {
    let f = 0x02000020;
    let some = words(rt.alloc(), &[0xffffffff, 5, 0x80000000, 0])?;
    let range = Value::Range {
        lo: -1,
        hi: i32::MAX,
    };
    let seven = words(rt.alloc(), &[7])?;
    let context = known(rt.alloc(), some, range, Value::Ret, seven)?;
    let mut list = Vec::new(rt.alloc());
    list.push(bounded(rt.alloc(), f, context, &[], 0)?)?;
    let want = "root 02000020 - unbounded\n\
        context 02000020 - args %o0={-2147483648,-1,0,5} %o5=-1..2147483647 %g1=ret %g7={7} bounded 0\n";
    check(&rt, &[(0x02000000, b"f")], &[f], list, want)
}
