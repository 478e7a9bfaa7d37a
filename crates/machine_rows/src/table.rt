//! Tables of cycles: texts that are refused, and what tables of both versions charge.
use cycle_table::{CycleRefusal, Cycles, Why};
use sparc_decode::{CostClass, decode};
use std::alloc::{AllocError, Global};
use std::test::Fail;

/// The lines of the classes of version 1, whose costs are 10, 20 and so on, without an LF at the end.
const LINES: &str = "alu 10\n\
    shift 20\n\
    sethi 30\n\
    tagged 40\n\
    mulscc 50\n\
    save 60\n\
    restore 70\n\
    branch 80\n\
    floatbranch 90\n\
    call 100\n\
    jump 110\n\
    load 120\n\
    loaddouble 130\n\
    store 140\n\
    storedouble 150\n\
    atomic 160\n\
    ready 170\n\
    writey 180\n\
    flush 190\n\
    floatop 200\n\
    floatcmp 210\n\
    floatload 220\n\
    floatloaddouble 230\n\
    floatstore 240\n\
    floatstoredouble 250\n\
    trap 260\n\
    annulled 270";

/// A whole table of version 1.
fn first(alloc: Global) -> Result<String, AllocError> {
    format!(in alloc; "cycles 1\n{LINES}")
}

/// A table of version 2 with these lines behind those of version 1.
fn second(alloc: Global, more: &str) -> Result<String, AllocError> {
    format!(in alloc; "cycles 2\n{LINES}\n{more}")
}

/// What a text of less than 10,000 bytes is read as.
fn read(text: &[u8]) -> Option<Result<Cycles, CycleRefusal>> {
    if text.len() < 10_000 {
        Some(Cycles::read(text))
    } else {
        None
    }
}

/// What is refused of a text.
fn refusal(text: &[u8]) -> Option<CycleRefusal> {
    read(text)?.err()
}

/// Texts, and what is refused of them.
#[rattlefmt::skip]
const REFUSED: [(&str, CycleRefusal); 46] = [
    ("", CycleRefusal::Line { n: 1, why: Why::Header }),
    ("\n \t\n # cycles 1\n", CycleRefusal::Line { n: 1, why: Why::Header }),
    ("cycles", CycleRefusal::Line { n: 1, why: Why::Header }),
    ("cycles 2\n", CycleRefusal::Missing { class: CostClass::Alu }),
    ("cycles 3\n", CycleRefusal::Line { n: 1, why: Why::Header }),
    ("cycles 12\n", CycleRefusal::Line { n: 1, why: Why::Header }),
    ("cycles 02\n", CycleRefusal::Line { n: 1, why: Why::Header }),
    ("cycles 2 2\n", CycleRefusal::Line { n: 1, why: Why::Header }),
    ("cycles 1\nloaduse 1\n", CycleRefusal::Line { n: 2, why: Why::Class }),
    ("cycles 1\nmultiply\n", CycleRefusal::Line { n: 2, why: Why::Class }),
    ("cycles 1\ndivide 0\n", CycleRefusal::Line { n: 2, why: Why::Class }),
    ("cycles 2\nmultiply\n", CycleRefusal::Line { n: 2, why: Why::Number }),
    ("cycles 2\ndivide 1 1\n", CycleRefusal::Line { n: 2, why: Why::Extra }),
    ("cycles 2\nloaduse 0\n", CycleRefusal::Zero { class: CostClass::Loaduse, n: 2 }),
    ("cycles 2\nmultiply 1\nmultiply 1\n", CycleRefusal::Twice { class: CostClass::Multiply, n: 3 }),
    ("cycles 01\n", CycleRefusal::Line { n: 1, why: Why::Header }),
    ("\n\ncycles 1 x\n", CycleRefusal::Line { n: 3, why: Why::Header }),
    ("alu 1\ncycles 1\n", CycleRefusal::Line { n: 1, why: Why::Header }),
    ("cycles 1\r", CycleRefusal::Line { n: 1, why: Why::Header }),
    ("cycles 1\r\r\n", CycleRefusal::Line { n: 1, why: Why::Header }),
    ("cycles 1", CycleRefusal::Missing { class: CostClass::Alu }),
    ("cycles 1\r\n", CycleRefusal::Missing { class: CostClass::Alu }),
    ("cycles 1\ncycles 1\n", CycleRefusal::Line { n: 2, why: Why::Class }),
    ("cycles 1\nALU 1\n", CycleRefusal::Line { n: 2, why: Why::Class }),
    ("cycles 1\n\nfoo\nalu\n", CycleRefusal::Line { n: 3, why: Why::Class }),
    ("cycles 1\nfoo +1 x\n", CycleRefusal::Line { n: 2, why: Why::Class }),
    ("cycles 1\nunmodelled 1\n", CycleRefusal::Line { n: 2, why: Why::Class }),
    ("cycles 1\nal#u 1\n", CycleRefusal::Line { n: 2, why: Why::Class }),
    ("cycles 1\nalu\n", CycleRefusal::Line { n: 2, why: Why::Number }),
    ("cycles 1\nalu # 1\n", CycleRefusal::Line { n: 2, why: Why::Number }),
    ("cycles 1\nalu +1\n", CycleRefusal::Line { n: 2, why: Why::Number }),
    ("cycles 1\nalu 1a\n", CycleRefusal::Line { n: 2, why: Why::Number }),
    ("cycles 1\nalu 1\r", CycleRefusal::Line { n: 2, why: Why::Number }),
    ("cycles 1\nalu 1000001\n", CycleRefusal::Line { n: 2, why: Why::Number }),
    ("cycles 1\nalu 1000001 x\n", CycleRefusal::Line { n: 2, why: Why::Number }),
    ("cycles 1\nalu 340282366920938463463374607431768211457\n", CycleRefusal::Line { n: 2, why: Why::Number }),
    ("cycles 1\nalu 0 x\n", CycleRefusal::Line { n: 2, why: Why::Extra }),
    ("cycles 1\nalu 1 1\n", CycleRefusal::Line { n: 2, why: Why::Extra }),
    ("cycles 1\nalu 1000000#1\n", CycleRefusal::Missing { class: CostClass::Shift }),
    ("cycles 1\nalu 00000000000000000000000000000000000000000000000001\n", CycleRefusal::Missing { class: CostClass::Shift }),
    (" \tcycles\t 1 \r\n\r\n\t alu  7\t#\u{e9}\n", CycleRefusal::Missing { class: CostClass::Shift }),
    ("cycles 1\nalu 000\n", CycleRefusal::Zero { class: CostClass::Alu, n: 2 }),
    ("cycles 1\nalu 1\n#\nalu 1\n", CycleRefusal::Twice { class: CostClass::Alu, n: 4 }),
    ("cycles 1\nalu 1\nalu 0\n", CycleRefusal::Zero { class: CostClass::Alu, n: 3 }),
    ("cycles 1\nalu 1\nalu 1\nshift 0", CycleRefusal::Twice { class: CostClass::Alu, n: 3 }),
    ("cycles 1\nshift 1\nalu 1\ntrap 1", CycleRefusal::Missing { class: CostClass::Sethi }),
];

#[test]
fn refuses_the_first_bad_line(rt: HostRuntime) {
    for (text, want) in &REFUSED {
        assert!(rt; refusal(text.as_bytes()) == Some(*want), "at {text:?}");
    }
    let other = CycleRefusal::Line {
        n: 3,
        why: Why::Class,
    };
    assert!(rt; refusal(b"#\xff\ncycles 1\n\xff 1\n") == Some(other));
}

/// Lines behind those of version 1 in a table of version 2, and the first class that it lacks.
const LACKING: [(&str, CostClass); 4] = [
    ("", CostClass::Loaduse),
    ("divide 1\nmultiply 1\n", CostClass::Loaduse),
    ("loaduse 1\ndivide 1\n", CostClass::Multiply),
    ("loaduse 1\nmultiply 1\n", CostClass::Divide),
];

/// Whether a table lacks a class.
fn lacks(text: &[u8], class: CostClass) -> bool {
    refusal(text) == Some(CycleRefusal::Missing { class })
}

/// Tables that lack a class.
#[test]
fn names_the_first_missing_class(rt: HostRuntime) -> Result<(), Fail> {
    let alloc = rt.alloc();
    let mut whole = Vec::from_slice(alloc, first(alloc)?.as_bytes())?;
    whole.truncate(whole.len().saturating_sub(12));
    assert!(rt; lacks(&whole, CostClass::Annulled));
    for (more, class) in &LACKING {
        let text = second(alloc, more)?;
        assert!(rt; lacks(text.as_bytes(), *class), "with {more:?}");
    }
    Ok(())
}

/// What words cost by a table of version 1, and so by one of version 2.
const COSTS: [(u32, u32); 28] = [
    (0x8200_8003, 10),
    (0x8328_8003, 20),
    (0x1100_0001, 30),
    (0x8300_8003, 40),
    (0x8320_8003, 50),
    (0x83e0_8003, 60),
    (0x83e8_8003, 70),
    (0x12bf_fffe, 80),
    (0x33bf_ffff, 90),
    (0x4000_0002, 100),
    (0x83c0_8003, 110),
    (0xc200_8003, 120),
    (0xc418_8003, 130),
    (0xc220_8003, 140),
    (0xc838_8003, 150),
    (0xc268_8003, 160),
    (0x8340_0000, 170),
    (0x8180_8003, 180),
    (0x81d8_8003, 190),
    (0x83a0_0843, 200),
    (0x81a8_8a23, 210),
    (0xc300_8003, 220),
    (0xc318_8003, 230),
    (0xc320_8003, 240),
    (0xc338_8003, 250),
    (0x91d0_8003, 260),
    (0x0000_0000, 0),
    (0xc280_8003, 0),
];

/// What words cost by a table of version 2 alone.
const NEW_COSTS: [(u32, u32); 4] = [
    (0x8250_8003, 290),
    (0x82d8_8003, 290),
    (0x8270_8003, 300),
    (0x82f8_8003, 300),
];

/// A table of version 1, if it is not refused.
fn old_table(alloc: Global) -> Result<Option<Cycles>, AllocError> {
    let text = first(alloc)?;
    Ok(cycles_of(text.as_bytes()))
}

/// A table of version 2 with these lines behind those of version 1, if it is not refused.
fn new_table(alloc: Global, more: &str) -> Result<Option<Cycles>, AllocError> {
    let text = second(alloc, more)?;
    Ok(cycles_of(text.as_bytes()))
}

/// The cycles of a text that is not refused.
fn cycles_of(text: &[u8]) -> Option<Cycles> {
    read(text)?.ok()
}

/// Whether a word costs so much by a table, and so much more where it is annulled.
fn costs(table: &Cycles, word: u32, cost: u32) -> bool {
    let i = decode(word);
    table.cost(&i, false) == cost && table.cost(&i, true) == cost.wrapping_add(270)
}

#[test]
fn charges_by_class(rt: HostRuntime) -> Result<(), Fail> {
    let old = old_table(rt.alloc())?.ok_or("refused")?;
    let new = new_table(rt.alloc(), "divide 300\nmultiply 290\nloaduse 280")?.ok_or("refused")?;
    assert!(rt; !old.eight() && new.eight());
    for (word, cost) in &COSTS {
        let same = costs(&old, *word, *cost) && costs(&new, *word, *cost);
        assert!(rt; same, "at {word:08x}");
    }
    for (word, cost) in &NEW_COSTS {
        let other = costs(&old, *word, 0) && costs(&new, *word, *cost);
        assert!(rt; other, "at {word:08x}");
    }
    Ok(())
}

/// Words, registers that were loaded right before, and what the use of one costs more: a sum of r2 and r3 into r1, a
/// store of r1 at the sum, a return, a SETHI.
const USES: [(u32, u32, u32); 9] = [
    (0x8200_8003, 0x0000_0004, 7),
    (0x8200_8003, 0x0000_0008, 7),
    (0x8200_8003, 0x0000_000c, 7),
    (0x8200_8003, 0x0000_0002, 0),
    (0x8200_8003, 0xffff_fff3, 0),
    (0x8200_8003, 0x0000_0000, 0),
    (0xc220_8003, 0x0000_0002, 7),
    (0x81c3_e008, 0xffff_ffff, 7),
    (0x0100_0000, 0xffff_ffff, 0),
];

/// What words cost more behind a load of some registers.
#[test]
fn charges_uses_behind_loads(rt: HostRuntime) -> Result<(), Fail> {
    let old = old_table(rt.alloc())?.ok_or("refused")?;
    let new = new_table(rt.alloc(), "loaduse 7\nmultiply 1\ndivide 1\n")?.ok_or("refused")?;
    for (word, loaded, cost) in &USES {
        let i = decode(*word);
        let well = new.pair(*loaded, &i) == *cost && old.pair(*loaded, &i) == 0;
        assert!(rt; well, "at {word:08x} behind {loaded:08x}");
    }
    Ok(())
}
