//! The operations against those of the language's own signed numbers.
use word_ops::{
    complement, difference, difference_flags, holds, logic_flags, product, shift_left, shift_right,
    shift_right_signed, sum, sum_flags,
};

/// Words at the edges of both readings.
const EDGES: [u32; 8] = [
    0,
    1,
    2,
    0x7fff_fffe,
    0x7fff_ffff,
    0x8000_0000,
    0x8000_0001,
    0xffff_ffff,
];

/// Whether the sum and its overflows are those of the language's numbers.
fn adds(x: u32, y: u32) -> bool {
    let flags = sum_flags(x, y, false);
    sum(x, y, false) == x.wrapping_add(y)
        && flags.c == x.checked_add(y).is_none()
        && flags.v == x.cast_signed().checked_add(y.cast_signed()).is_none()
}

/// Whether the difference and its overflow are.
fn subtracts(x: u32, y: u32) -> bool {
    let flags = difference_flags(x, y, false);
    difference(x, y, false) == x.wrapping_sub(y)
        && flags.v == x.cast_signed().checked_sub(y.cast_signed()).is_none()
}

/// Whether the product and the complement are.
fn multiplies(x: u32, y: u32) -> bool {
    product(x, y) == x.wrapping_mul(y) && complement(x) == !x
}

/// Whether the conditions after a comparison are the orders with sign and without.
fn compares(x: u32, y: u32) -> bool {
    let flags = difference_flags(x, y, false);
    let (a, b) = (x.cast_signed(), y.cast_signed());
    holds(1, &flags) == (x == y)
        && holds(2, &flags) == (a <= b)
        && holds(3, &flags) == (a < b)
        && holds(4, &flags) == (x <= y)
        && holds(5, &flags) == (x < y)
        && holds(9, &flags) == (x != y)
        && holds(10, &flags) == (a > b)
        && holds(11, &flags) == (a >= b)
        && holds(12, &flags) == (x > y)
        && holds(13, &flags) == (x >= y)
}

/// Whether all operations on two words agree.
fn agrees(x: u32, y: u32) -> bool {
    adds(x, y) && subtracts(x, y) && multiplies(x, y) && compares(x, y)
}

#[test]
fn agrees_with_signed_numbers(rt: HostRuntime) {
    for x in &EDGES {
        for y in &EDGES {
            assert!(rt; agrees(*x, *y), "{x:x} and {y:x}");
        }
    }
}

/// Whether carries, borrows and logic operations set their flags.
fn sets_flags() -> bool {
    let up = sum_flags(0xffff_ffff, 0, true);
    let down = difference_flags(0x8000_0000, 0, true);
    let logic = logic_flags(0x8000_0000);
    (up.n, up.z, up.v, up.c) == (false, true, false, true)
        && (down.n, down.z, down.v, down.c) == (false, false, true, false)
        && (logic.n, logic.z, logic.v, logic.c) == (true, false, false, false)
}

/// A word, a count, and the word shifted left, right, and right with its sign.
const SHIFTS: [(u32, u32, u32, u32, u32); 5] = [
    (0x8000_0001, 1, 2, 0x4000_0000, 0xc000_0000),
    (0x8000_0001, 33, 2, 0x4000_0000, 0xc000_0000),
    (0x7000_0000, 31, 0, 0, 0),
    (0xf000_0000, 31, 0, 1, 0xffff_ffff),
    (0x1234_5678, 0, 0x1234_5678, 0x1234_5678, 0x1234_5678),
];

#[test]
fn carries_borrows_and_shifts(rt: HostRuntime) {
    assert!(rt; sets_flags());
    for (x, count, left, right, signed) in &SHIFTS {
        let got = (
            shift_left(*x, *count),
            shift_right(*x, *count),
            shift_right_signed(*x, *count),
        );
        assert!(rt; got == (*left, *right, *signed), "{x:x} by {count}");
    }
}
