//! The worked calls, and each condition against its definition on small values.
ghost use Rattle.std.specs.Prelude.{IfOk};
ghost use Rattle.value_lattice.specs.Value.{IsOver};

use std::alloc::Global;
use std::test::Fail;
use value_lattice::{Thresholds, Value, cover, span, word_at_place};
use value_refine::{mirror, refine, within};
use word_ops::{difference_flags, holds};

/// A value: some words, all from the one number to the other, or the return address.
#[derive(Clone, Copy, Debug)]
enum Sample {
    Set([u32; 3]),
    Span(i32, i32),
    Ret,
}

/// What a test compares of what is left of a value.
#[derive(Clone, Copy, Debug, PartialEq)]
enum Seen {
    Nothing,
    /// The least, the greatest and the number of the words of a set.
    Set(u32, u32, usize),
    Range(i32, i32),
    Ret,
}

const TOP: Sample = Sample::Span(i32::MIN, i32::MAX);

const ALL: Seen = Seen::Range(i32::MIN, i32::MAX);

const ZERO: Sample = Sample::Set([0, 0, 0]);

const FIVE: Sample = Sample::Set([5, 5, 5]);

const THREE: Sample = Sample::Set([3, 9, 4294967295]);

const SAMPLES: [Sample; 11] = [
    ZERO,
    FIVE,
    Sample::Set([4294967295, 4294967295, 4294967295]),
    Sample::Set([4294967295, 3, 3]),
    Sample::Set([0, 2147483647, 2147483648]),
    Sample::Set([2147483648, 4294967295, 1]),
    Sample::Span(-128, -1),
    Sample::Span(-128, 0),
    Sample::Span(-1, 127),
    Sample::Span(0, 255),
    Sample::Span(-128, 255),
];

/// The value of a sample.
fn value_of(alloc: Global, sample: Sample, t: &Thresholds) -> Result<Value, Fail>
    ensures { IfOk result (IsOver t.now) }
{
    match sample {
        Sample::Set(words) => Ok(cover(alloc, &words, t)?),
        Sample::Span(lo, hi) => Ok(span(alloc, lo, lo.max(hi), t)?),
        Sample::Ret => Ok(Value::Ret),
    }
}

/// The words of a value that is no large range.
fn words_of(alloc: Global, v: &Value) -> Result<Vec<u32>, Fail> {
    match v {
        Value::Words(words) => Ok(Vec::from_slice(alloc, words.members())?),
        Value::Range { .. } => places_of(alloc, v.ends()),
        Value::Ret => Ok(Vec::new(alloc)),
    }
}

/// The words from the one place to the other.
fn places_of(alloc: Global, ends: (u32, u32)) -> Result<Vec<u32>, Fail> {
    let mut words = Vec::new(alloc);
    for place in ends.0..=ends.1 {
        words.push(word_at_place(place))?;
    }
    Ok(words)
}

/// Whether the condition is the truth over the flags of a word less some other, or isn't refined by.
fn is_kept(cond: u8, truth: bool, x: u32, others: &[u32]) -> bool {
    let alone = cond % 8 == 7 || (cond % 8 == 6 && others != [0].as_slice());
    alone || others.iter().any(|y| holds(cond % 16, &difference_flags(x, *y, false)) == truth)
}

/// The value of the words of the left side that are kept, by the definition.
fn expected(
    alloc: Global,
    cond: u8,
    truth: bool,
    xs: &[u32],
    ys: &[u32],
    t: &Thresholds,
) -> Result<Option<Value>, Fail> {
    let mut kept = Vec::new(alloc);
    for x in xs {
        if is_kept(cond, truth, *x, ys) {
            kept.push(*x)?;
        }
    }
    if kept.is_empty() {
        return Ok(None);
    }
    Ok(Some(cover(alloc, kept.as_slice(), t)?))
}

/// Whether two values are the same.
fn is_same(a: &Value, b: &Value) -> bool {
    match (a, b) {
        (Value::Words(xs), Value::Words(ys)) => xs.members() == ys.members(),
        (
            Value::Range { lo, hi },
            Value::Range {
                lo: first,
                hi: last,
            },
        ) => { lo == first && hi == last }
        (Value::Ret, Value::Ret) => true,
        _ => false,
    }
}

/// Whether two values are the same, or neither is there.
fn are_same(a: &Option<Value>, b: &Option<Value>) -> bool {
    match (a, b) {
        (None, None) => true,
        (Some(a), Some(b)) => is_same(a, b),
        _ => false,
    }
}

/// Whether a refinement is that of the definition.
fn refines(
    alloc: Global,
    cond: u8,
    truth: bool,
    left: Sample,
    right: Sample,
) -> Result<bool, Fail> {
    let t = Thresholds::make(alloc, &[])?;
    let a = value_of(alloc, left, &t)?;
    let b = value_of(alloc, right, &t)?;
    let xs = words_of(alloc, &a)?;
    let ys = words_of(alloc, &b)?;
    let want = expected(alloc, cond, truth, xs.as_slice(), ys.as_slice(), &t)?;
    let got = refine(alloc, cond % 16, truth, &a, &b, &t)?;
    Ok(are_same(&got, &want))
}

/// Whether the refinements of two samples are those of the definition, for each condition.
fn refines_all(alloc: Global, left: Sample, right: Sample) -> Result<bool, Fail> {
    for cond in 0..16u8 {
        if !refines(alloc, cond, true, left, right)? || !refines(alloc, cond, false, left, right)? {
            return Ok(false);
        }
    }
    Ok(true)
}

/// Whether each condition agrees on one of these and any sample.
fn agree(alloc: Global, lefts: &[Sample]) -> Result<bool, Fail> {
    for left in lefts {
        for right in &SAMPLES {
            if !refines_all(alloc, *left, *right)? {
                return Ok(false);
            }
        }
    }
    Ok(true)
}

#[test]
fn conditions_of_words(rt: HostRuntime) -> Result<(), Fail> {
    let same = agree(rt.alloc(), &SAMPLES[..6])?;
    assert!(rt; same);
    Ok(())
}

#[test]
fn conditions_of_negative_ranges(rt: HostRuntime) -> Result<(), Fail> {
    let same = agree(rt.alloc(), &SAMPLES[6..8])?;
    assert!(rt; same);
    Ok(())
}

#[test]
fn conditions_of_small_ranges(rt: HostRuntime) -> Result<(), Fail> {
    let same = agree(rt.alloc(), &SAMPLES[8..10])?;
    assert!(rt; same);
    Ok(())
}

#[test]
fn conditions_of_the_widest_range(rt: HostRuntime) -> Result<(), Fail> {
    let same = agree(rt.alloc(), &SAMPLES[10..])?;
    assert!(rt; same);
    Ok(())
}

/// What a test compares of a value.
fn view_of(v: &Value) -> Seen {
    match v {
        Value::Words(words) => match words.members() {
            [] => Seen::Nothing,
            [only] => Seen::Set(*only, *only, 1),
            [first, .., last] => Seen::Set(*first, *last, words.members().len()),
        },
        Value::Range { lo, hi } => Seen::Range(*lo, *hi),
        Value::Ret => Seen::Ret,
    }
}

/// What a test compares of what is left.
fn view_of_rest(rest: &Option<Value>) -> Seen {
    match rest {
        None => Seen::Nothing,
        Some(v) => view_of(v),
    }
}

/// What a condition leaves of a sample.
fn refined(
    alloc: Global,
    cond: u8,
    truth: bool,
    left: Sample,
    right: Sample,
) -> Result<Seen, Fail> {
    let t = Thresholds::make(alloc, &[])?;
    let a = value_of(alloc, left, &t)?;
    let b = value_of(alloc, right, &t)?;
    Ok(view_of_rest(&refine(alloc, cond % 16, truth, &a, &b, &t)?))
}

/// What two numbers leave of a sample.
fn limited(alloc: Global, sample: Sample, lo: i32, hi: i32) -> Result<Seen, Fail> {
    let t = Thresholds::make(alloc, &[])?;
    let a = value_of(alloc, sample, &t)?;
    Ok(view_of_rest(&within(alloc, &a, lo, hi, &t)?))
}

/// A condition and whether it holds, two samples, and what is left of the first: `gu` false and true, `ne`; then what
/// equals some address, differs from one, is below one without sign, and what the sign of a difference with an address
/// and overflow leave.
const REFINED: [(u8, bool, Sample, Sample, Seen); 11] = [
    (12, false, TOP, FIVE, Seen::Set(0, 5, 6)),
    (12, true, TOP, FIVE, ALL),
    (9, true, ZERO, ZERO, Seen::Nothing),
    (1, true, FIVE, Sample::Ret, Seen::Set(5, 5, 1)),
    (9, true, FIVE, Sample::Ret, Seen::Set(5, 5, 1)),
    (5, true, TOP, Sample::Ret, ALL),
    (6, true, FIVE, Sample::Ret, Seen::Set(5, 5, 1)),
    (7, true, FIVE, ZERO, Seen::Set(5, 5, 1)),
    (9, true, TOP, ZERO, ALL),
    (5, true, TOP, FIVE, Seen::Set(0, 4, 5)),
    (3, true, TOP, ZERO, Seen::Range(i32::MIN, -1)),
];

#[test]
fn worked_refinements(rt: HostRuntime) -> Result<(), Fail> {
    for (cond, truth, left, right, want) in &REFINED {
        let got = refined(rt.alloc(), *cond, *truth, *left, *right)?;
        assert!(rt; got == *want, "{cond} {truth} of {left:?} and {right:?}");
    }
    Ok(())
}

/// A sample, two numbers, and what they leave of it.
const LIMITED: [(Sample, i32, i32, Seen); 8] = [
    (TOP, 0, 3, Seen::Set(0, 3, 4)),
    (THREE, -1, 5, Seen::Set(3, 4294967295, 2)),
    (THREE, 4, 8, Seen::Nothing),
    (Sample::Span(-128, 255), 254, 300, Seen::Set(254, 255, 2)),
    (Sample::Span(-128, 255), 256, 300, Seen::Nothing),
    (Sample::Span(-128, 255), 3, 2, Seen::Nothing),
    (Sample::Span(-128, 255), -100, 200, Seen::Range(-128, 255)),
    (Sample::Ret, 7, 7, Seen::Set(7, 7, 1)),
];

#[test]
fn worked_limits(rt: HostRuntime) -> Result<(), Fail> {
    for (sample, lo, hi, want) in &LIMITED {
        let got = limited(rt.alloc(), *sample, *lo, *hi)?;
        assert!(rt; got == *want, "{sample:?} from {lo} to {hi}");
    }
    Ok(())
}

/// The mirror of each condition: of e, le, l, leu, cs, neg, vs, always, and of their negations.
const MIRRORS: [u8; 16] = [0, 1, 11, 10, 13, 12, 8, 8, 8, 9, 3, 2, 5, 4, 8, 8];

/// The first condition that has another mirror.
fn first_unmirrored() -> Option<u8> {
    for cond in 0..16u8 {
        if mirror(cond) != MIRRORS[cond as usize] {
            return Some(cond);
        }
    }
    None
}

#[test]
fn mirrored(rt: HostRuntime) {
    assert_eq!(rt; first_unmirrored(), None);
}
