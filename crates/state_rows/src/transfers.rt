//! What assertions leave of a state, and where transfers go.
use crate::building::{ANY, Seen, behind, flags, image_of, one, seen_in, writes};
use abs_state::{Flags, Next, Place, Right};
use assert_bind::{Binding, bind};
use assert_lang::parse;
use bt_image::Image;
use std::process::Abort;
use std::test::Fail;
use transfer_rules::{Aim, Candidates, Source};
use transfer_values::{narrowed, resolved};
use value_lattice::Thresholds;

/// Assertions bound to the image.
fn bound(rt: &(impl Abort + AllocGlobal), image: &Image, text: &[u8]) -> Result<Binding, Fail> {
    assert!(rt; text.len() < 1_000);
    match parse(rt.alloc(), text) {
        Ok(list) => match bind(rt.alloc(), list.as_slice(), image) {
            Ok(binding) => Ok(binding),
            Err(_) => panic!(rt; "not bound"),
        },
        Err(_) => panic!(rt; "not parsed"),
    }
}

#[test]
fn ranges_that_are_asserted(rt: HostRuntime) -> Result<(), Fail> {
    let t = Thresholds::make(rt.alloc(), &[])?;
    let image = image_of(&rt)?;
    let text = b"at 0x02000000 %o0 1..5\nat 0x02000000 %o7 0..255\nat 0x02000000 %g1 -1..1\n";
    let binding = bound(&rt, &image, text)?;
    let some = [
        writes(32, Source::Ranged { lo: 4, hi: 9 }),
        writes(8, Source::Exactly(7)),
        flags(Flags::Res { cell: 32 }),
    ];
    for (pc, depth, cell, left) in [
        (0x02000000, 0, 8, None),
        (0x02000000, 1, 32, Some(Seen::Set(4, 5, 2))),
        (0x02000000, 1, 8, Some(one(7))),
        (0x02000000, 1, 15, Some(Seen::Ret)),
        (0x02000000, 1, 39, Some(Seen::Range(0, 255))),
        (0x02000000, 1, 1, Some(Seen::Set(0, 0xffffffff, 3))),
        (0x02000004, 0, 1, Some(ANY)),
    ] {
        let state = behind(&rt, &t, &image, &some)?;
        let place = Place {
            sub: 0x02000000,
            pc,
            next: Next::At(0x02000004),
            depth,
        };
        if depth < 2 {
            let found = narrowed(rt.alloc(), &t, &binding, place, &state)?.map(|s| (
                seen_in(&s, cell),
                s.flags(),
            ));
            assert_eq!(rt;
                found,
                left.map(|v| (v, Flags::Res { cell: 32 })),
                "at {cell}"
            );
        }
    }
    Ok(())
}

#[test]
fn targets_of_transfers(rt: HostRuntime) -> Result<(), Fail> {
    let t = Thresholds::make(rt.alloc(), &[])?;
    let image = image_of(&rt)?;
    let binding = bound(&rt, &image, b"jump 0x02000000 to 0x02000004, 0x02000000\n")?;
    let any = Aim::Computed {
        left: Right::Cell(9),
        right: Right::Word(0),
        candidates: Candidates::Labels,
    };
    let known = Aim::Computed {
        left: Right::Cell(8),
        right: Right::Word(4),
        candidates: Candidates::Functions,
    };
    let first: [u32; 2] = [0x02000000, 0x02000004];
    for (pc, aim, count, whole) in [
        (0x02000000, any, 2, true),
        (0x02000000, known, 1, true),
        (0x02000004, any, 0, false),
        (0x02000004, known, 0, false),
        (0x02000004, Aim::Fixed(0x02000000), 1, true),
        (0x02000000, Aim::Fixed(0x03000000), 1, true),
    ] {
        let state = behind(&rt, &t, &image, &[writes(8, Source::Exactly(0x01fffffc))])?;
        let found = resolved(rt.alloc(), &t, &image, &binding, pc, aim, &state)?;
        assert_eq!(rt; found.list.as_slice().len(), count, "at {aim:?}");
        assert_eq!(rt; found.whole, whole, "at {aim:?}");
        if count == 2 {
            assert_eq!(rt; found.list.as_slice(), first.as_slice());
        }
    }
    Ok(())
}
