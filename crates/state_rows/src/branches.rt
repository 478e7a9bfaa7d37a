//! What the directions of a branch leave of a state: a table of conditions.
use crate::building::{ANY, Seen, behind, flags, image_of, one, seen_in, writes};
use abs_state::{Flags, Right};
use std::test::Fail;
use transfer_rules::{Source, Test};
use transfer_values::tested;
use value_lattice::Thresholds;

/// The condition codes of a comparison with a word.
fn compared(word: u32) -> Flags {
    Flags::Cmp {
        left: 8,
        right: Right::Word(word),
    }
}

/// The condition codes of a comparison of two cells.
fn of_cells(right: u8) -> Flags {
    Flags::Cmp {
        left: 8,
        right: Right::Cell(right),
    }
}

#[test]
fn cells_that_are_refined(rt: HostRuntime) -> Result<(), Fail> {
    let t = Thresholds::make(rt.alloc(), &[])?;
    let image = image_of(&rt)?;
    let negative = Seen::Set(0xffffff80, 0xffffffff, 128);
    for (lo, hi, known, condition, truth, left, right) in [
        (0, 255, compared(5), 1, true, Some(one(5)), ANY),
        (
            0,
            255,
            compared(5),
            1,
            false,
            Some(Seen::Range(0, 255)),
            ANY,
        ),
        (5, 5, compared(5), 1, false, None, ANY),
        (0, 255, compared(5), 3, true, Some(Seen::Set(0, 4, 5)), ANY),
        (
            0,
            255,
            compared(5),
            11,
            true,
            Some(Seen::Range(1, 255)),
            ANY,
        ),
        (0, 255, compared(5), 7, true, Some(Seen::Range(0, 255)), ANY),
        (
            20,
            20,
            of_cells(9),
            3,
            true,
            Some(one(20)),
            Seen::Range(1, 255),
        ),
        (
            20,
            20,
            of_cells(9),
            3,
            false,
            Some(one(20)),
            Seen::Set(0, 20, 21),
        ),
        (
            20,
            20,
            of_cells(9),
            6,
            false,
            Some(one(20)),
            Seen::Range(0, 255),
        ),
        (20, 20, of_cells(9), 1, true, Some(one(20)), one(20)),
        (0, 255, of_cells(8), 1, true, Some(Seen::Range(0, 255)), ANY),
        (
            -128,
            127,
            Flags::Res { cell: 8 },
            6,
            true,
            Some(negative),
            ANY,
        ),
        (
            -128,
            127,
            Flags::Res { cell: 8 },
            1,
            true,
            Some(one(0)),
            ANY,
        ),
        (
            -128,
            127,
            Flags::Res { cell: 8 },
            3,
            true,
            Some(Seen::Range(-128, 127)),
            ANY,
        ),
        (5, 5, Flags::Unknown, 1, true, Some(one(5)), ANY),
    ] {
        let before = [
            writes(8, Source::Ranged { lo, hi }),
            writes(9, Source::Ranged { lo: 0, hi: 255 }),
            flags(known),
        ];
        let state = behind(&rt, &t, &image, &before)?;
        let other = if right == ANY {
            Seen::Range(0, 255)
        } else {
            right
        };
        match tested(rt.alloc(), &t, Test::When { condition, truth }, &state)? {
            None => assert_eq!(rt; left, None, "at {condition}"),
            Some(s) => {
                assert_eq!(rt; Some(seen_in(&s, 8)), left, "at {condition}");
                assert_eq!(rt; seen_in(&s, 9), other, "at {condition}");
                assert_eq!(rt; s.flags(), known);
            }
        }
    }
    let state = behind(&rt, &t, &image, &[flags(compared(5))])?;
    match tested(rt.alloc(), &t, Test::Always, &state)? {
        None => assert!(rt; false),
        Some(s) => assert_eq!(rt; seen_in(&s, 8), ANY),
    }
    Ok(())
}
