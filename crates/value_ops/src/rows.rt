ghost use Rattle.std.specs.Prelude.{◌≡◌, ◌*◌, ◌^◌, ◌<◌, ◌≤◌, Option, true};
ghost use Rattle.value_ops.specs.Row.{IsFilled, sums, differences, conjunctions, left_conjunctions, product_key, least_product, greatest_product, products, scales, scaled, left_shifts, right_shifts, signed_shifts, row_of};

use crate::Op;

/// The place of 0 in the order of words that are read with sign.
const ZERO: u32 = 0x8000_0000;

/// The key of the least product of two numbers that fits 32 bits with sign.
const LEAST_KEY: u128 = 0x3fff_ffff_8000_0000;

/// The words from the one place to the other, in the order of words that are read with sign.
#[derive(Clone, Copy, Debug, PartialEq, Eq)]
pub struct Span {
    /// The place of the least.
    pub low: u32,
    /// The place of the greatest.
    pub high: u32,
}

/// All words.
const ALL: Span = Span {
    low: 0,
    high: u32::MAX,
};

/// From the sum of the least to that of the greatest, where both fit.
fn sums(a: Span, b: Span) -> Span
    requires left { IsFilled a }
    requires right { IsFilled b }
    ensures value { result ≡ sums a b }
    ensures filled { IsFilled result }
{
    let low = u64::from(a.low) + u64::from(b.low);
    let high = u64::from(a.high) + u64::from(b.high);
    if 0x8000_0000 <= low && high < 0x1_8000_0000 {
        Span {
            low: (low - 0x8000_0000) as u32,
            high: (high - 0x8000_0000) as u32,
        }
    } else {
        ALL
    }
}

/// From the least less the greatest to the greatest less the least, where both fit.
fn differences(a: Span, b: Span) -> Span
    requires left { IsFilled a }
    requires right { IsFilled b }
    ensures value { result ≡ differences a b }
    ensures filled { IsFilled result }
{
    let low = u64::from(a.low) + 0x8000_0000;
    let high = u64::from(a.high) + 0x8000_0000;
    let least = u64::from(b.low);
    let greatest = u64::from(b.high);
    if greatest <= low && high < least + 0x1_0000_0000 {
        Span {
            low: (low - greatest) as u32,
            high: (high - least) as u32,
        }
    } else {
        ALL
    }
}

/// From 0 to the least of the greatest, of the sides that aren't negative.
fn conjunctions(a: Span, b: Span) -> Span
    requires left { IsFilled a }
    requires right { IsFilled b }
    ensures value { result ≡ conjunctions a b }
    ensures filled { IsFilled result }
{
    let high = match (ZERO <= a.low, ZERO <= b.low) {
        (true, true) => a.high.min(b.high),
        (true, false) => a.high,
        (false, true) => b.high,
        (false, false) => return ALL,
    };
    Span { low: ZERO, high }
}

/// From 0 to the greatest of the left side, where that isn't negative.
fn left_conjunctions(a: Span) -> Span
    requires { IsFilled a }
    ensures value { result ≡ left_conjunctions a }
    ensures filled { IsFilled result }
{
    if ZERO <= a.low {
        Span {
            low: ZERO,
            high: a.high,
        }
    } else {
        ALL
    }
}

/// The product of the numbers at two places, plus 2^62.
fn product_key(k: u32, m: u32) -> u128
    ensures { result ≡ product_key k m }
{
    let places = u128::from(k) + u128::from(m);
    u128::from(k) * u128::from(m) + 0x8000_0000_0000_0000 - 0x8000_0000 * places
}

/// From the least to the greatest product of the ends, where all fit.
fn products(a: Span, b: Span) -> Span
    requires left { IsFilled a }
    requires right { IsFilled b }
    ensures value { result ≡ products a b }
    ensures filled { IsFilled result }
{
    let first = product_key(a.low, b.low);
    let second = product_key(a.low, b.high);
    let third = product_key(a.high, b.low);
    let fourth = product_key(a.high, b.high);
    let low = first.min(second).min(third.min(fourth));
    let high = first.max(second).max(third.max(fourth));
    if LEAST_KEY <= low && high < LEAST_KEY + 0x1_0000_0000 {
        Span {
            low: (low - LEAST_KEY) as u32,
            high: (high - LEAST_KEY) as u32,
        }
    } else {
        ALL
    }
}

/// A number times a power of 2.
fn times_power(x: u32, n: u32) -> u64
    requires { n < 32 }
    ensures { result ≡ x * 2 ^ n }
{
    u64::from(x) * (1 << n)
}

/// Whether the number at a place, times a power of 2, fits.
fn scales(n: u32, place: u32) -> bool
    requires { n < 32 }
    ensures { result ≡ scales n place }
{
    if ZERO <= place {
        times_power(place - ZERO, n) < 0x8000_0000
    } else {
        times_power(ZERO - place, n) <= 0x8000_0000
    }
}

/// The place of the number at a place, times a power of 2.
fn scaled(n: u32, place: u32) -> u32
    requires count { n < 32 }
    requires fits { scales n place ≡ true }
    ensures { result ≡ scaled n place }
{
    if ZERO <= place {
        ZERO + times_power(place - ZERO, n) as u32
    } else {
        ZERO - times_power(ZERO - place, n) as u32
    }
}

/// Both ends times a power of 2, where both fit.
fn left_shifts(n: u32, a: Span) -> Span
    requires count { n < 32 }
    requires filled { IsFilled a }
    ensures value { result ≡ left_shifts n a }
    ensures filled { IsFilled result }
{
    if scales(n, a.low) && scales(n, a.high) {
        Span {
            low: scaled(n, a.low),
            high: scaled(n, a.high),
        }
    } else {
        ALL
    }
}

/// A power of 2 of a word.
fn power(n: u32) -> u32
    requires { n < 32 }
    ensures value { result ≡ 2 ^ n }
    ensures some { 0 < result }
    ensures half { result ≤ 2 ^ 31 }
{
    1 << n
}

/// Both ends shifted, where they aren't negative; else from 0 to the greatest that n zeros in front leave.
fn right_shifts(n: u32, a: Span) -> Span
    requires count { n < 32 }
    requires filled { IsFilled a }
    ensures value { result ≡ right_shifts n a }
    ensures filled { IsFilled result }
{
    if ZERO <= a.low {
        return Span {
            low: ZERO + ((a.low - ZERO) >> n),
            high: ZERO + ((a.high - ZERO) >> n),
        };
    }
    if n == 0 {
        return ALL;
    }
    Span {
        low: ZERO,
        high: ZERO + (power(32 - n) - 1),
    }
}

/// Both ends shifted, with their signs.
fn signed_shifts(n: u32, a: Span) -> Span
    requires count { n < 32 }
    requires filled { IsFilled a }
    ensures value { result ≡ signed_shifts n a }
    ensures filled { IsFilled result }
{
    let half = ZERO >> n;
    Span {
        low: (a.low >> n) + (ZERO - half),
        high: (a.high >> n) + (ZERO - half),
    }
}

/// From the least to the greatest result of an operation, from the ends of its sources; `one` is the word of
/// the right side, where that is one word.
pub(crate) fn row(op: Op, one: Option<u32>, a: Span, b: Span) -> Span
    requires left { IsFilled a }
    requires right { IsFilled b }
    ensures value { result ≡ row_of op one a b }
    ensures filled { IsFilled result }
{
    match op {
        Op::Add => sums(a, b),
        Op::Sub => differences(a, b),
        Op::And => conjunctions(a, b),
        Op::Andn => left_conjunctions(a),
        Op::Sll => match one {
            Some(count) => left_shifts(count % 32, a),
            None => ALL,
        },
        Op::Srl => match one {
            Some(count) => right_shifts(count % 32, a),
            None => ALL,
        },
        Op::Sra => match one {
            Some(count) => signed_shifts(count % 32, a),
            None => ALL,
        },
        Op::Or => ALL,
        Op::Xor => ALL,
        Op::Orn => ALL,
        Op::Xnor => ALL,
        Op::Addx => ALL,
        Op::Subx => ALL,
        Op::Mul => products(a, b),
    }
}
