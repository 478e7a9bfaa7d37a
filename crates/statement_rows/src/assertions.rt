//! Assertion files as statements, and what is misfitting in them.
use assert_lang::*;
use std::alloc::{AllocError, Global};
use std::test::Fail;

/// The statements of a text of less than a million bytes.
fn parsed(alloc: Global, text: &str) -> Option<Result<Assertions, AssertRefusal>> {
    if text.len() < 1_000_000 {
        Some(parse(alloc, text.as_bytes()))
    } else {
        None
    }
}

/// What is misfitting in a text.
fn refusal(alloc: Global, text: &str) -> Option<AssertRefusal> {
    parsed(alloc, text)?.err()
}

/// Texts without a bad line.
const GOOD: [&str; 3] = ["", "\n \t\r\n # root\n", "root f#\nroot f"];

/// Texts with a bad line: its number, the column and what was expected there.
#[rattlefmt::skip]
const BAD: [(&str, u32, u32, Expected); 63] = [
    ("boot f", 1, 1, Expected::Keyword),
    ("root f\n\n\tROOT f", 3, 2, Expected::Keyword),
    (", root f", 1, 1, Expected::Keyword),
    ("root,f", 1, 5, Expected::Place),
    ("root", 1, 5, Expected::Place),
    ("root   # x", 1, 8, Expected::Place),
    ("root\t\t\r\n", 1, 7, Expected::Place),
    ("root\r", 1, 1, Expected::Keyword),
    ("root f\r\r\n", 1, 6, Expected::Place),
    ("root 1f", 1, 6, Expected::Place),
    ("root f+4", 1, 6, Expected::Place),
    ("root f+0x4+0x4", 1, 6, Expected::Place),
    ("root f+0x", 1, 6, Expected::Place),
    ("root 0x123456789", 1, 6, Expected::Place),
    ("root 0X12", 1, 6, Expected::Place),
    ("root 0x1g", 1, 6, Expected::Place),
    ("root 0x10+0x4", 1, 6, Expected::Place),
    ("root \u{e9}", 1, 6, Expected::Place),
    ("root f g", 1, 8, Expected::End),
    ("root f,g", 1, 7, Expected::End),
    ("never f g # h", 1, 9, Expected::End),
    ("at f", 1, 5, Expected::Register),
    ("at f,%o0 0..1", 1, 5, Expected::Register),
    ("at f %g0 0..1", 1, 6, Expected::Register),
    ("at f %g8 0..1", 1, 6, Expected::Register),
    ("at f %r9 0..1", 1, 6, Expected::Register),
    ("at f %o00 0..1", 1, 6, Expected::Register),
    ("at f %sp", 1, 9, Expected::Range),
    ("at f %o0 0.1", 1, 10, Expected::Range),
    ("at f %o0 0", 1, 10, Expected::Range),
    ("at f %o0 0...1", 1, 10, Expected::Range),
    ("at f %o0 ..1", 1, 10, Expected::Range),
    ("at f %o0 +0..1", 1, 10, Expected::Range),
    ("at f %o0 --1..1", 1, 10, Expected::Range),
    ("at f %o0 -..1", 1, 10, Expected::Range),
    ("at f %o0 0 ..1", 1, 10, Expected::Range),
    ("at f %o0 0..2147483648", 1, 10, Expected::Range),
    ("at f %o0 -2147483649..0", 1, 10, Expected::Range),
    ("at f %o0 0..1 x", 1, 15, Expected::End),
    ("jump f", 1, 7, Expected::To),
    ("jump f g", 1, 8, Expected::To),
    ("jump f to", 1, 10, Expected::Place),
    ("jump f to , g", 1, 11, Expected::Place),
    ("jump f to g h", 1, 13, Expected::End),
    ("jump f to g,", 1, 13, Expected::Place),
    ("jump f to g, # h", 1, 14, Expected::Place),
    ("call f to g,,h", 1, 13, Expected::Place),
    ("call f to g,h i", 1, 15, Expected::End),
    ("loop f", 1, 7, Expected::Repeats),
    ("loop f time 1", 1, 8, Expected::Repeats),
    ("loop f repeats", 1, 15, Expected::Count),
    ("loop f repeats 0", 1, 16, Expected::Count),
    ("loop f repeats -1", 1, 16, Expected::Count),
    ("loop f repeats +1", 1, 16, Expected::Count),
    ("loop f repeats 0x1", 1, 16, Expected::Count),
    ("loop f repeats 4611686018427387904", 1, 16, Expected::Count),
    ("loop f repeats 340282366920938463463374607431768211457", 1, 16, Expected::Count),
    ("loop f repeats 1,", 1, 17, Expected::End),
    ("stub f", 1, 7, Expected::Time),
    ("stub f repeats 1", 1, 8, Expected::Time),
    ("stub\tf\ttime\t0000\t#", 1, 13, Expected::Count),
    ("stub f time 1 1\nroot", 1, 15, Expected::End),
    ("root f\nroot", 2, 5, Expected::Place),
];

/// Whether nothing is misfitting in a text.
fn is_good(alloc: Global, text: &str) -> bool {
    match parsed(alloc, text) {
        Some(list) => list.is_ok(),
        None => false,
    }
}

/// Whether the first that is misfitting in a text is at this line and column, where this was expected.
fn is_bad(alloc: Global, text: &str, n: u32, column: u32, expected: Expected) -> bool {
    refusal(alloc, text)
        == Some(AssertRefusal::Line {
            n,
            column,
            expected,
        })
}

#[test]
fn refuses_the_first_bad_line(rt: HostRuntime) {
    for text in &GOOD {
        assert!(rt; is_good(rt.alloc(), text), "at {text:?}");
    }
    for (text, n, column, expected) in &BAD {
        assert!(rt;
            is_bad(rt.alloc(), text, *n, *column, *expected),
            "at {text:?}"
        );
    }
}

/// A text of so many lines `root f`, and a last line.
fn roots(alloc: Global, count: usize, last: &str) -> Result<String, AllocError> {
    let mut text = String::new(alloc);
    for _ in 0..count {
        text.push_str("root f\n")?;
    }
    text.push_str(last)?;
    Ok(text)
}

/// Numbers of lines, a last line behind them, and what is refused.
const COUNTS: [(usize, &str, Option<AssertRefusal>); 6] = [
    (4095, "# and\n\nnever f", None),
    (4096, "", None),
    (4096, "\r\n# root f", None),
    (4096, "never f", Some(AssertRefusal::Limit { count: 4097 })),
    (4096, "never", Some(LAST)),
    (4097, "never", Some(AssertRefusal::Limit { count: 4097 })),
];

/// The refusal of the last line.
const LAST: AssertRefusal = AssertRefusal::Line {
    n: 4097,
    column: 6,
    expected: Expected::Place,
};

#[test]
fn takes_so_many_statements_and_no_more(rt: HostRuntime) -> Result<(), Fail> {
    let alloc = rt.alloc();
    for (count, last, want) in &COUNTS {
        let text = roots(alloc, *count, last)?;
        assert!(rt; refusal(alloc, &text) == *want, "at {count} and {last:?}");
    }
    Ok(())
}

/// Whether a place is a name with an offset, or without.
fn is_named(spot: &Spot, name: &str, offset: Option<u32>) -> bool {
    match spot {
        Spot::Name(got) => got.as_slice() == name.as_bytes() && offset.is_none(),
        Spot::Offset(got, by) => got.as_slice() == name.as_bytes() && offset == Some(*by),
        Spot::Addr(_) => false,
    }
}

/// Whether a place is an address.
fn is_address(spot: &Spot, address: u32) -> bool {
    match spot {
        Spot::Addr(got) => *got == address,
        _ => false,
    }
}

/// Texts of one statement, its register and the ends of its range.
const RANGES: [(&str, u8, i32, i32); 9] = [
    ("at f %g1 0..1", 1, 0, 1),
    (
        "at f %g7 -0..00000000000000000000000000000000000000000000001",
        7,
        0,
        1,
    ),
    (
        "at f %o0 -2147483648..2147483647",
        8,
        -2147483648,
        2147483647,
    ),
    ("at f %o6 5..-7", 14, 5, -7),
    ("at f %sp 5..-7", 14, 5, -7),
    ("at f %l0 1..1", 16, 1, 1),
    ("at f %i6 1..1", 30, 1, 1),
    ("at f %fp 1..1", 30, 1, 1),
    (" at\tf %i7\t1..1 # x\r\n", 31, 1, 1),
];

/// Whether a statement has a name `f`, a register and the ends of its range.
fn is_at(body: &Body, register: u8, low: i32, high: i32) -> bool {
    match body {
        Body::At { spot, reg, lo, hi } => is_named(spot, "f", None)
            && *reg == register
            && *lo == low
            && *hi == high,
        _ => false,
    }
}

/// Whether a text is one statement with a name `f`, a register and the ends of its range.
fn is_only_at(alloc: Global, text: &str, register: u8, low: i32, high: i32) -> bool {
    match parsed(alloc, text) {
        Some(Ok(list)) => match list.as_slice() {
            [only] => is_at(&only.body, register, low, high),
            _ => false,
        },
        _ => false,
    }
}

#[test]
fn reads_registers_and_ranges(rt: HostRuntime) {
    for (text, register, low, high) in &RANGES {
        assert!(rt;
            is_only_at(rt.alloc(), text, *register, *low, *high),
            "at {text:?}"
        );
    }
}

/// The body of the statement at a place, if it is on this line.
fn body_at(list: &[Assertion], at: usize, line: u32) -> Option<&Body> {
    let assertion = list.get(at)?;
    if assertion.line == line {
        Some(&assertion.body)
    } else {
        None
    }
}

/// Whether places are those of the call.
fn are_four(spots: &[Spot]) -> bool {
    match spots {
        [one, two, three, four] => is_named(one, "g", None)
            && is_address(two, 0)
            && is_named(three, "h", Some(16))
            && is_named(four, "g", None),
        _ => false,
    }
}

/// Whether places are the one of the jump.
fn is_one(spots: &[Spot]) -> bool {
    match spots {
        [one] => is_named(one, "f", None),
        _ => false,
    }
}

/// Every form of a statement.
const FORMS: &str = "root main\n\
    never _a.b$9+0xfF\n\
    \n\
    jump 0x02000004 to f\n\
    call f to g , 0x0,h+0x00000010,g\r\n\
    loop .L1 repeats 4611686018427387903\n\
    stub $s time 01";

/// Whether these are the statements of every form.
fn are_forms(list: &[Assertion]) -> bool {
    list.len() == 6 && are_places(list) && are_transfers(list) && are_numbers(list)
}

/// Whether the statements of one place are those of every form.
fn are_places(list: &[Assertion]) -> bool {
    let root = match body_at(list, 0, 1) {
        Some(Body::Root(spot)) => is_named(spot, "main", None),
        _ => false,
    };
    let never = match body_at(list, 1, 2) {
        Some(Body::Never(spot)) => is_named(spot, "_a.b$9", Some(255)),
        _ => false,
    };
    root && never
}

/// Whether the statements of transfers are those of every form.
fn are_transfers(list: &[Assertion]) -> bool {
    let jump = match body_at(list, 2, 4) {
        Some(Body::Jump { spot, to }) => is_address(spot, 0x0200_0004) && is_one(to.as_slice()),
        _ => false,
    };
    let call = match body_at(list, 3, 5) {
        Some(Body::CallTo { spot, to }) => is_named(spot, "f", None) && are_four(to.as_slice()),
        _ => false,
    };
    jump && call
}

/// Whether the statements with numbers are those of every form.
fn are_numbers(list: &[Assertion]) -> bool {
    let bounded = match body_at(list, 4, 6) {
        Some(Body::Loop { spot, count }) => is_named(spot, ".L1", None) && *count == (1 << 62) - 1,
        _ => false,
    };
    let stub = match body_at(list, 5, 7) {
        Some(Body::Stub { spot, time }) => is_named(spot, "$s", None) && *time == 1,
        _ => false,
    };
    bounded && stub
}

/// Whether the text of every form is read as these statements.
fn reads_forms(alloc: Global) -> bool {
    match parsed(alloc, FORMS) {
        Some(Ok(list)) => are_forms(list.as_slice()),
        _ => false,
    }
}

#[test]
fn reads_each_form(rt: HostRuntime) {
    assert!(rt; reads_forms(rt.alloc()));
}
