//! States joined and compared: of pairs of steps behind an entry, what their join has and knows, and the order of both.
//! knows of the condition codes, and which of the two is at most the other.
ghost use Rattle.std.specs.Prelude.{◌≡◌, true, IfOk};
ghost use Rattle.abs_state.specs.State.{is_state_over, joined};

use crate::building::{ANY, Seen, behind, flags, image_of, nothing, one, seen_in, writes};
use abs_state::{AbsState, Flags, Right};
use bt_base::Want;
use std::alloc::Global;
use std::test::Fail;
use transfer_rules::Source;
use value_lattice::Thresholds;

/// The condition codes of a comparison with a word.
fn compared(left: u8, word: u32) -> Flags {
    Flags::Cmp {
        left,
        right: Right::Word(word),
    }
}

/// The join of two states over thresholds.
fn join_of(alloc: Global, a: &AbsState, b: &AbsState, t: &Thresholds) -> Result<AbsState, Want>
    requires left { is_state_over t.now a.now ≡ true }
    requires right { is_state_over t.now b.now ≡ true }
    ensures { IfOk result (λ s. s ≡ joined t.now a.now b.now) }
{
    a.join(alloc, b, t)
}

#[test]
fn joins(rt: HostRuntime) -> Result<(), Fail> {
    let t = Thresholds::make(rt.alloc(), &[])?;
    let image = image_of(&rt)?;
    let three = writes(8, Source::Exactly(3));
    let five = writes(8, Source::Exactly(5));
    let link = writes(15, Source::Exactly(7));
    let known = compared(8, 5);
    for (first, second, cell, seen, codes, order) in [
        (
            three,
            five,
            8,
            Seen::Set(3, 5, 2),
            Flags::Unknown,
            (false, false),
        ),
        (three, five, 9, ANY, Flags::Unknown, (false, false)),
        (three, nothing(), 8, ANY, Flags::Unknown, (true, false)),
        (link, nothing(), 15, ANY, Flags::Unknown, (false, false)),
        (
            nothing(),
            nothing(),
            15,
            Seen::Ret,
            Flags::Unknown,
            (true, true),
        ),
        (flags(known), flags(known), 0, one(0), known, (true, true)),
        (
            flags(known),
            flags(compared(8, 6)),
            0,
            one(0),
            Flags::Unknown,
            (false, false),
        ),
        (
            flags(known),
            nothing(),
            0,
            one(0),
            Flags::Unknown,
            (true, false),
        ),
    ] {
        let a = behind(&rt, &t, &image, &[first])?;
        let b = behind(&rt, &t, &image, &[second])?;
        let both = join_of(rt.alloc(), &a, &b, &t)?;
        assert_eq!(rt;
            seen_in(&both, cell),
            seen,
            "{first:?} and {second:?} at {cell}"
        );
        assert_eq!(rt; both.flags(), codes, "{first:?} and {second:?}");
        assert_eq!(rt;
            (a.at_most(&b), b.at_most(&a)),
            order,
            "{first:?} and {second:?}"
        );
        assert!(rt; a.at_most(&both) && b.at_most(&both));
    }
    Ok(())
}
