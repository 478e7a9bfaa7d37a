//! Sets, ranges, the return address, and their joins.
ghost use Rattle.std.specs.Prelude.{IfOk, IfSome};
ghost use Rattle.value_lattice.specs.Value.{IsOver, IsValue};

use std::alloc::Global;
use std::test::Fail;
use value_lattice::{Thresholds, Value, cover, span};

/// What a test compares of a value.
#[derive(Clone, Copy, Debug, PartialEq)]
enum Seen {
    /// The least, the greatest and the number of the words of a set.
    Set(u32, u32, usize),
    Range(i32, i32),
    Ret,
}

/// What a test compares of a value.
fn view_of(v: &Value) -> Seen {
    match v {
        Value::Words(words) => match words.members() {
            [] => Seen::Ret,
            [only] => Seen::Set(*only, *only, 1),
            [first, .., last] => Seen::Set(*first, *last, words.members().len()),
        },
        Value::Range { lo, hi } => Seen::Range(*lo, *hi),
        Value::Ret => Seen::Ret,
    }
}

/// So many words, from one on.
fn words_from(alloc: Global, first: u32, count: u32) -> Result<Vec<u32>, Fail> {
    let mut words = Vec::new(alloc);
    for i in 0..count {
        words.push(first.wrapping_add(i))?;
    }
    Ok(words)
}

/// Whether the thresholds that always are are eleven, and those with two others thirteen.
fn thresholds_are_counted(alloc: Global) -> Result<bool, Fail> {
    let t = Thresholds::make(alloc, &[])?;
    let more = t.widened(alloc, &[200, -200, 1])?;
    Ok(t.len() == 11 && more.len() == 13)
}

/// Whether words are covered by their set, and it is copied.
fn sets_are_made(alloc: Global, t: &Thresholds) -> Result<bool, Fail> {
    let some = cover(alloc, &[3, 4294967295, 3], t)?;
    let copied = some.copy(alloc)?;
    let want = Seen::Set(3, 4294967295, 2);
    Ok(view_of(&some) == want && view_of(&copied) == want)
}

/// Whether what spans two numbers is seen so.
fn spans_to(alloc: Global, t: &Thresholds, lo: i32, hi: i32, want: Seen) -> Result<bool, Fail> {
    let v = span(alloc, lo, hi.max(lo), t)?;
    Ok(view_of(&v) == want)
}

/// Whether one word and any word are seen so.
fn words_are_made() -> Result<bool, Fail> {
    let seven = Value::word(7)?;
    Ok(view_of(&seven) == Seen::Set(7, 7, 1) && view_of(&Value::top()) == ANY)
}

/// Any word.
const ANY: Seen = Seen::Range(i32::MIN, i32::MAX);

#[test]
fn worked_calls(rt: HostRuntime) -> Result<(), Fail> {
    let alloc = rt.alloc();
    let t = Thresholds::make(alloc, &[])?;
    assert!(rt; thresholds_are_counted(alloc)? && sets_are_made(alloc, &t)?);
    assert!(rt; spans_to(alloc, &t, -200, 200, Seen::Range(-32768, 255))?);
    assert!(rt; spans_to(alloc, &t, -1, 0, Seen::Set(0, 4294967295, 2))?);
    assert!(rt; words_are_made()?);
    Ok(())
}

/// The first and the number of some words, the same of others, and their join.
const JOINS: [((u32, u32), (u32, u32), Seen); 11] = [
    ((3, 1), (3, 1), Seen::Set(3, 3, 1)),
    ((3, 2), (4, 2), Seen::Set(3, 5, 3)),
    ((4294967295, 1), (0, 1), Seen::Set(0, 4294967295, 2)),
    ((0, 128), (5, 3), Seen::Set(0, 127, 128)),
    ((0, 128), (128, 1), Seen::Range(0, 255)),
    ((128, 1), (0, 128), Seen::Range(0, 255)),
    ((4294967293, 3), (256, 126), Seen::Range(-7, 1000)),
    ((0, 200), (9, 1), Seen::Range(0, 255)),
    ((9, 1), (0, 200), Seen::Range(0, 255)),
    ((0, 200), (4294967295, 1), Seen::Range(-1, 255)),
    ((0, 200), (900, 200), Seen::Range(0, 32767)),
];

/// The value of so many words, from one on, if there are any.
fn value_from(alloc: Global, t: &Thresholds, words: (u32, u32)) -> Result<Option<Value>, Fail>
    ensures { IfOk result (λ value. IfSome value (IsOver t.now)) }
{
    let list = words_from(alloc, words.0, words.1)?;
    if list.is_empty() {
        return Ok(None);
    }
    Ok(Some(cover(alloc, list.as_slice(), t)?))
}

/// Whether two values have this join, and are at most it.
fn joins_to(a: &Value, b: &Value, v: &Value, want: Seen) -> bool
    requires a { IsValue a.now }
    requires b { IsValue b.now }
    requires v { IsValue v.now }
{
    view_of(v) == want && a.at_most(v) && b.at_most(v)
}

#[test]
fn joins(rt: HostRuntime) -> Result<(), Fail> {
    let alloc = rt.alloc();
    let t = Thresholds::make(alloc, &[1000, -7])?;
    for (firsts, seconds, want) in &JOINS {
        let a = value_from(alloc, &t, *firsts)?.ok_or("no words")?;
        let b = value_from(alloc, &t, *seconds)?.ok_or("no words")?;
        let v = a.join(alloc, &b, &t)?;
        assert!(rt; joins_to(&a, &b, &v, *want), "{firsts:?} and {seconds:?}");
    }
    Ok(())
}

/// The first and the number of some words, three times, and the join of all.
const THREES: [((u32, u32), (u32, u32), (u32, u32), Seen); 3] = [
    ((0, 1), (5, 2), (9, 1), Seen::Set(0, 9, 4)),
    ((0, 100), (100, 100), (900, 1), Seen::Range(0, 1000)),
    ((0, 200), (4294967295, 1), (7, 1), Seen::Range(-1, 255)),
];

/// Whether three values join to this in any order, also where one is joined twice.
fn orders_agree(
    alloc: Global,
    a: &Value,
    b: &Value,
    c: &Value,
    t: &Thresholds,
    want: Seen,
) -> Result<bool, Fail>
    requires a { IsOver t.now a.now }
    requires b { IsOver t.now b.now }
    requires c { IsOver t.now c.now }
{
    let forward = a.join(alloc, b, t)?.join(alloc, c, t)?;
    let back = c.join(alloc, b, t)?.join(alloc, a, t)?;
    let twice = b.join(alloc, a, t)?.join(alloc, c, t)?.join(alloc, a, t)?;
    Ok(view_of(&forward) == want && view_of(&back) == want && view_of(&twice) == want)
}

#[test]
fn orders_of_joins(rt: HostRuntime) -> Result<(), Fail> {
    let alloc = rt.alloc();
    let t = Thresholds::make(alloc, &[1000, -7])?;
    for (firsts, seconds, thirds, want) in &THREES {
        let a = value_from(alloc, &t, *firsts)?.ok_or("no words")?;
        let b = value_from(alloc, &t, *seconds)?.ok_or("no words")?;
        let c = value_from(alloc, &t, *thirds)?.ok_or("no words")?;
        assert!(rt;
            orders_agree(alloc, &a, &b, &c, &t, *want)?,
            "{firsts:?} and {seconds:?}"
        );
    }
    Ok(())
}

/// Whether the return address joins with itself to itself, and with others to any word.
fn return_joins(alloc: Global, t: &Thresholds, word: &Value, any: &Value) -> Result<bool, Fail>
    requires word { IsOver t.now word.now }
    requires any { IsOver t.now any.now }
{
    let ret = Value::Ret;
    let alone = ret.join(alloc, &ret, t)?;
    let before = ret.join(alloc, word, t)?;
    let behind = word.join(alloc, &ret, t)?;
    let top = any.join(alloc, &ret, t)?;
    Ok(
        view_of(&alone) == Seen::Ret
            && view_of(&before) == ANY
            && view_of(&behind) == ANY
            && view_of(&top) == ANY,
    )
}

/// Whether the return address is at most itself and any word, and not comparable with one word.
fn return_is_ordered(word: &Value, any: &Value) -> bool
    requires word { IsValue word.now }
    requires any { IsValue any.now }
{
    let ret = Value::Ret;
    ret.at_most(any)
        && !any.at_most(&ret)
        && !ret.at_most(word)
        && !word.at_most(&ret)
        && ret.at_most(&ret)
}

/// Whether the return address has itself alone, and the others words whatever it is.
fn return_has_itself(word: &Value, any: &Value) -> bool {
    let ret = Value::Ret;
    ret.has(8, 8) && !ret.has(8, 9) && word.has(8, 9) && any.has(8, 9)
}

#[test]
fn the_return_address(rt: HostRuntime) -> Result<(), Fail> {
    let alloc = rt.alloc();
    let t = Thresholds::make(alloc, &[])?;
    let any = span(alloc, i32::MIN, i32::MAX, &t)?;
    let word = cover(alloc, &[8], &t)?;
    assert!(rt; return_joins(alloc, &t, &word, &any)?);
    assert!(rt; return_is_ordered(&word, &any) && return_has_itself(&word, &any));
    Ok(())
}
