//! Instances of the laws of values: places, the order, more thresholds, and heights of lists.
ghost use Rattle.std.specs.Prelude.{◌≡◌, ◌∷◌, [], ◌<◌, ◌⊎◌, true};
ghost use Rattle.value_lattice.specs.Height.{are_at_most, heights};
ghost use Rattle.value_lattice.specs.Value.{AtMost, IsOver, IsValue};

use std::alloc::Global;
use std::test::Fail;
use value_lattice::{
    Thresholds, Value, cover, heights_of_lists_rise, number_at_place, place, rank, span,
    tests_decide, word_at_place,
};

/// The ends of a value, as numbers with sign.
fn ends(v: &Value) -> (i32, i32) {
    let (low, high) = v.ends();
    (number_at_place(low), number_at_place(high))
}

/// The ends of what spans two numbers over the thresholds that always are, and over those and the two.
fn spans(alloc: Global, lo: i32, hi: i32) -> Result<[(i32, i32); 2], Fail> {
    let top = lo.max(hi);
    let t = Thresholds::make(alloc, &[])?;
    let more = t.widened(alloc, &[lo, top])?;
    let wide = span(alloc, lo, top, &t)?;
    let narrow = span(alloc, lo, top, &more)?;
    Ok([ends(&wide), ends(&narrow)])
}

/// Two numbers, and the ends of what spans them over the thresholds that always are, and over those and the two.
const SPANS: [(i32, i32, (i32, i32), (i32, i32)); 4] = [
    (-200, 200, (-32768, 255), (-200, 200)),
    (0, 1000, (0, 32767), (0, 1000)),
    (-129, 126, (-32768, 127), (-129, 126)),
    (3, 5, (3, 5), (3, 5)),
];

#[test]
fn more_thresholds_give_less(rt: HostRuntime) -> Result<(), Fail> {
    for (lo, hi, wide, narrow) in &SPANS {
        let got = spans(rt.alloc(), *lo, *hi)?;
        assert!(rt; got == [*wide, *narrow], "{lo} to {hi}");
    }
    Ok(())
}

/// Whether zero alone is zero, and is one word.
fn zero_is_alone(zero: &Value, two: &Value, any: &Value) -> bool {
    zero.is_zero()
        && !two.is_zero()
        && !any.is_zero()
        && !Value::Ret.is_zero()
        && zero.one_word() == Some(0)
        && two.one_word().is_none()
}

/// Whether zero is at most two words, and these at most any.
fn are_ordered(zero: &Value, two: &Value, any: &Value) -> bool
    requires zero { IsValue zero.now }
    requires two { IsValue two.now }
    requires any { IsValue any.now }
{
    zero.at_most(two)
        && two.at_most(any)
        && zero.at_most(any)
        && !two.at_most(zero)
        && !any.at_most(two)
}

/// Whether values have the words that they may have, and ends.
fn have_words(two: &Value, any: &Value) -> bool {
    two.may_have(5)
        && !two.may_have(6)
        && any.may_have(6)
        && Value::Ret.may_have(6)
        && two.ends() == (0x8000_0000, 0x8000_0005)
        && word_at_place(0x8000_0005) == 5
}

#[test]
fn the_order_and_zero(rt: HostRuntime) -> Result<(), Fail> {
    let alloc = rt.alloc();
    let t = Thresholds::make(alloc, &[])?;
    let zero = cover(alloc, &[0], &t)?;
    let two = cover(alloc, &[0, 5], &t)?;
    let any = span(alloc, i32::MIN, i32::MAX, &t)?;
    assert!(rt; zero_is_alone(&zero, &two, &any) && are_ordered(&zero, &two, &any));
    assert!(rt; have_words(&two, &any));
    Ok(())
}

/// Numbers as they rise, and the place of each.
const PLACES: [(i32, u32); 5] = [
    (i32::MIN, 0),
    (-1, 0x7fff_ffff),
    (0, 0x8000_0000),
    (5, 0x8000_0005),
    (i32::MAX, 0xffff_ffff),
];

/// Whether a number and its word have this place, and come back from it.
fn has_place(number: i32, at: u32) -> bool {
    let word = number.cast_unsigned();
    rank(number) == at
        && place(word) == at
        && word_at_place(at) == word
        && number_at_place(at) == number
}

#[test]
fn places_of_numbers(rt: HostRuntime) {
    for (number, at) in &PLACES {
        assert!(rt; has_place(*number, *at), "{number}");
    }
}

/// Of two values of which the one is at most the other, two of each: their heights together rise, or the two of the
/// other are at most the two of the one.
fn pairs_rise(a: &Value, b: &Value, t: &Thresholds)
    requires left { IsOver t.now a.now }
    requires right { IsOver t.now b.now }
    requires up { AtMost a.now b.now }
    ensures { (heights t.now (a.now ∷ a.now ∷ []) < heights t.now (b.now ∷ b.now ∷ []))
        ⊎ (are_at_most (b.now ∷ b.now ∷ []) (a.now ∷ a.now ∷ []) ≡ true) }
{
    tests_decide();
    heights_of_lists_rise();
    let _ = a;
    let _ = b;
    let _ = t;
}

/// Whether the one value is at most the other and not the other way round, so that two of the other are higher.
fn rises(a: &Value, b: &Value, t: &Thresholds) -> bool
    requires left { IsOver t.now a.now }
    requires right { IsOver t.now b.now }
{
    if !a.at_most(b) {
        return false;
    }
    pairs_rise(a, b, t);
    !b.at_most(a)
}

#[test]
fn heights_of_lists(rt: HostRuntime) -> Result<(), Fail> {
    let alloc = rt.alloc();
    let t = Thresholds::make(alloc, &[])?;
    let zero = cover(alloc, &[0], &t)?;
    let two = cover(alloc, &[0, 5], &t)?;
    let byte = span(alloc, 0, 255, &t)?;
    let any = span(alloc, i32::MIN, i32::MAX, &t)?;
    assert!(rt; rises(&zero, &two, &t) && rises(&two, &byte, &t) && rises(&byte, &any, &t));
    Ok(())
}
