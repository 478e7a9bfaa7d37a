//! The state behind a step: tables of steps, what they leave in a cell, and what the condition codes are then known to be.
use crate::building::{ANY, Seen, behind, flags, image_of, nothing, one, seen_in, writes};
use abs_state::{Flags, Right};
use bt_image::Image;
use std::process::Abort;
use std::test::Fail;
use transfer_rules::{Source, Step, Write};
use transfer_values::stepped;
use value_lattice::Thresholds;
use value_ops::Op;

/// An operation on two cells.
fn applied(op: Op, left: u8, right: u8) -> Source {
    Source::Applied {
        op,
        left: Right::Cell(left),
        right: Right::Cell(right),
    }
}

/// The word of memory at what a cell holds.
fn loaded(cell: u8) -> Source {
    Source::Loaded {
        left: Right::Cell(cell),
        right: Right::Word(0),
    }
}

/// A cell or-ed with a number.
fn or(cell: u8, word: u32) -> Source {
    Source::Applied {
        op: Op::Or,
        left: Right::Cell(cell),
        right: Right::Word(word),
    }
}

/// The condition codes of a comparison with a word.
fn compared(left: u8, word: u32) -> Flags {
    Flags::Cmp {
        left,
        right: Right::Word(word),
    }
}

/// Compares a cell and the flags behind a step that follows two others; nothing where no run goes on.
fn compare(
    rt: &(impl Abort + AllocGlobal),
    t: &Thresholds,
    image: &Image,
    before: [Step; 2],
    step: Step,
    cell: u8,
    after: Option<(Seen, Flags)>,
) -> Result<(), Fail> {
    let state = behind(rt, t, image, &before)?;
    let found = stepped(rt.alloc(), t, image, step, state)?.map(|s| (seen_in(&s, cell), s.flags()));
    assert_eq!(rt; found, after, "at {step:?}");
    Ok(())
}

#[test]
fn values_that_are_written(rt: HostRuntime) -> Result<(), Fail> {
    let t = Thresholds::make(rt.alloc(), &[])?;
    let image = image_of(&rt)?;
    let byte = writes(9, Source::Ranged { lo: 0, hi: 255 });
    for (first, second, step, value) in [
        (
            nothing(),
            nothing(),
            writes(8, Source::Exactly(0x1000)),
            one(0x1000),
        ),
        (nothing(), nothing(), writes(8, Source::Anything), ANY),
        (nothing(), byte, writes(8, or(9, 0)), Seen::Range(0, 255)),
        (
            nothing(),
            writes(9, Source::Ranged { lo: 2, hi: 5 }),
            writes(8, or(9, 0)),
            Seen::Set(2, 5, 4),
        ),
        (
            writes(8, Source::Exactly(7)),
            byte,
            writes(8, applied(Op::Add, 9, 8)),
            Seen::Range(1, 32767),
        ),
        (
            writes(8, Source::Exactly(3)),
            nothing(),
            writes(8, applied(Op::Sub, 8, 8)),
            one(0),
        ),
        (
            writes(8, Source::Exactly(3)),
            nothing(),
            writes(0, Source::Exactly(3)),
            one(3),
        ),
    ] {
        compare(
            &rt,
            &t,
            &image,
            [first, second],
            step,
            8,
            Some((value, Flags::Unknown)),
        )?;
    }
    Ok(())
}

#[test]
fn words_that_are_loaded(rt: HostRuntime) -> Result<(), Fail> {
    let t = Thresholds::make(rt.alloc(), &[])?;
    let image = image_of(&rt)?;
    for (lo, hi, cell, value) in [
        (0x02000000, 0x02000000, 9, Some(one(0x81c3e008))),
        (0x02000000, 0x02000003, 9, Some(one(0x81c3e008))),
        (
            0x02000000,
            0x02000004,
            9,
            Some(Seen::Set(0x01000000, 0x81c3e008, 2)),
        ),
        (0x02000001, 0x02000003, 9, None),
        (0x02000001, 0x02000003, 0, None),
        (0x02000004, 0x02000008, 9, Some(ANY)),
        (0, 0x7fffffff, 9, Some(ANY)),
    ] {
        let address = writes(8, Source::Ranged { lo, hi });
        let after = value.map(|v| (v, Flags::Unknown));
        compare(
            &rt,
            &t,
            &image,
            [nothing(), address],
            writes(cell, loaded(8)),
            9,
            after,
        )?;
    }
    Ok(())
}

#[test]
fn flags_behind_steps(rt: HostRuntime) -> Result<(), Fail> {
    let t = Thresholds::make(rt.alloc(), &[])?;
    let image = image_of(&rt)?;
    for (before, step, cell, value, known) in [
        (nothing(), flags(compared(15, 8)), 15, ANY, compared(15, 8)),
        (
            flags(compared(0, 0)),
            writes(0, Source::Exactly(3)),
            0,
            one(0),
            compared(0, 0),
        ),
        (
            flags(compared(8, 5)),
            writes(8, Source::Exactly(3)),
            8,
            one(3),
            Flags::Unknown,
        ),
        (
            flags(compared(8, 5)),
            writes(9, Source::Exactly(3)),
            9,
            one(3),
            compared(8, 5),
        ),
        (
            flags(compared(8, 5)),
            flags(Flags::Unknown),
            15,
            Seen::Ret,
            Flags::Unknown,
        ),
        (
            nothing(),
            flags(compared(48, 5)),
            15,
            Seen::Ret,
            Flags::Unknown,
        ),
        (
            nothing(),
            flags(Flags::Res { cell: 15 }),
            15,
            ANY,
            Flags::Res { cell: 15 },
        ),
    ] {
        compare(
            &rt,
            &t,
            &image,
            [nothing(), before],
            step,
            cell,
            Some((value, known)),
        )?;
    }
    Ok(())
}

#[test]
fn values_are_those_before_the_step(rt: HostRuntime) -> Result<(), Fail> {
    let t = Thresholds::make(rt.alloc(), &[])?;
    let image = image_of(&rt)?;
    let exchange = Step {
        depth: 0,
        first: Some(Write {
            cell: 8,
            source: or(9, 0),
        }),
        second: Some(Write {
            cell: 9,
            source: or(8, 0),
        }),
        flags: Some(compared(8, 1)),
    };
    let before = [writes(8, Source::Exactly(1)), writes(9, Source::Exactly(2))];
    for (cell, value) in [(8, one(2)), (9, one(1))] {
        compare(
            &rt,
            &t,
            &image,
            before,
            exchange,
            cell,
            Some((value, compared(8, 1))),
        )?;
    }
    Ok(())
}
