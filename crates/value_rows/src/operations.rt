//! Each operation against its definition on small values.
use std::alloc::Global;
use std::test::Fail;
use value_lattice::{Thresholds, Value, cover, number_at_place, span};
use value_ops::{Op, apply};

/// An operation, the ends of its sources, and the ends of its result.
const CASES: [(Op, [i32; 6]); 37] = [
    (
        Op::Add,
        [2147483647, 2147483647, 1, 1, -2147483648, -2147483648],
    ),
    (Op::Add, [0, 255, 1, 1, 1, 32767]),
    (Op::Add, [0, 0, -1, 255, -1, 255]),
    (Op::Add, [0, 2147483647, 1, 1, -2147483648, 2147483647]),
    (Op::Sub, [3, 3, 5, 5, -2, -2]),
    (Op::Sub, [0, 255, 0, 0, 0, 255]),
    (Op::Sub, [0, 0, 0, 255, -32768, 0]),
    (Op::And, [12, 12, 10, 10, 8, 8]),
    (Op::And, [-32768, 255, 7, 7, 0, 7]),
    (Op::Or, [12, 12, 10, 10, 14, 14]),
    (Op::Or, [0, 0, 0, 255, 0, 255]),
    (Op::Xor, [12, 12, 10, 10, 6, 6]),
    (Op::Andn, [12, 12, 10, 10, 4, 4]),
    (Op::Andn, [0, 255, -1, 0, 0, 255]),
    (Op::Orn, [12, 12, -2, -2, 13, 13]),
    (Op::Xnor, [12, 12, 10, 10, -7, -7]),
    (Op::Sll, [3, 3, 33, 33, 6, 6]),
    (Op::Sll, [-128, 255, 2, 2, -32768, 32767]),
    (Op::Srl, [-128, 255, 24, 24, 0, 255]),
    (Op::Srl, [-128, 255, 0, 0, -2147483648, 2147483647]),
    (Op::Sra, [-32768, 32767, 8, 8, -128, 127]),
    (Op::Sra, [-8, -8, 1, 1, -4, -4]),
    (Op::Addx, [4, 4, 5, 5, 9, 10]),
    (Op::Subx, [0, 255, 0, 0, -1, 255]),
    (Op::Add, [0, 127, 0, 127, 0, 255]),
    (Op::Add, [-60, 60, 3, 9, -57, 69]),
    (Op::Sub, [0, 127, 0, 127, -128, 127]),
    (
        Op::Add,
        [2147483600, 2147483647, 0, 1, -2147483648, 2147483647],
    ),
    (
        Op::Sub,
        [-2147483648, -2147483640, 0, 1, -2147483648, 2147483647],
    ),
    (Op::Mul, [3, 3, -5, -5, -15, -15]),
    (Op::Mul, [65536, 65536, 65536, 65536, 0, 0]),
    (Op::Mul, [0, 255, 0, 0, 0, 0]),
    (Op::Mul, [-128, 255, 1, 1, -128, 255]),
    (Op::Mul, [-128, 255, -1, -1, -32768, 255]),
    (Op::Mul, [-128, 255, -128, 255, -32768, 65535]),
    (Op::Mul, [0, 2147483647, 2, 2, -2147483648, 2147483647]),
    (Op::Mul, [-2147483648, 0, -1, -1, -2147483648, 2147483647]),
];

/// The ends of the result of an operation.
fn result_ends(alloc: Global, op: Op, ends: [i32; 6]) -> Result<(i32, i32), Fail> {
    let [a_lo, a_hi, b_lo, b_hi, ..] = ends;
    if a_lo > a_hi || b_lo > b_hi {
        return Ok((0, 0));
    }
    let t = Thresholds::make(alloc, &[])?;
    let a = span(alloc, a_lo, a_hi, &t)?;
    let b = span(alloc, b_lo, b_hi, &t)?;
    let (low, high) = apply(alloc, op, &a, &b, &t)?.ends();
    Ok((number_at_place(low), number_at_place(high)))
}

#[test]
fn results(rt: HostRuntime) -> Result<(), Fail> {
    for (op, ends) in &CASES {
        let got = result_ends(rt.alloc(), *op, *ends)?;
        assert!(rt; got == (ends[4], ends[5]), "{op:?} of {ends:?}");
    }
    Ok(())
}

/// Whether the return address is kept by a sum with zero, and is a range behind other operations.
fn return_is_kept_by_sums(alloc: Global) -> Result<bool, Fail> {
    let t = Thresholds::make(alloc, &[])?;
    let zero = span(alloc, 0, 0, &t)?;
    let kept = apply(alloc, Op::Add, &Value::Ret, &zero, &t)?;
    let lost = apply(alloc, Op::Xor, &Value::Ret, &zero, &t)?;
    Ok(matches!(kept, Value::Ret) && matches!(lost, Value::Range { .. }))
}

#[test]
fn the_return_address(rt: HostRuntime) -> Result<(), Fail> {
    assert!(rt; return_is_kept_by_sums(rt.alloc())?);
    Ok(())
}

const OPS: [Op; 14] = [
    Op::Add,
    Op::Sub,
    Op::And,
    Op::Or,
    Op::Xor,
    Op::Andn,
    Op::Orn,
    Op::Xnor,
    Op::Sll,
    Op::Srl,
    Op::Sra,
    Op::Addx,
    Op::Subx,
    Op::Mul,
];

/// Small sets: runs and others, of either sign, and counts of shifts.
const SETS: [[u32; 3]; 6] = [
    [0, 0, 0],
    [1, 2, 3],
    [5, 31, 33],
    [2147483647, 2147483648, 2147483649],
    [0, 1, 4294967295],
    [305419896, 2147483648, 65535],
];

/// The result of an operation on two words by the language's own operations.
fn plain(op: Op, x: u32, y: u32, carry: u32) -> u32 {
    let count = y % 32;
    match op {
        Op::Add => x.wrapping_add(y),
        Op::Sub => x.wrapping_sub(y),
        Op::And => x & y,
        Op::Or => x | y,
        Op::Xor => x ^ y,
        Op::Andn => x & !y,
        Op::Orn => x | !y,
        Op::Xnor => !(x ^ y),
        Op::Sll => x << count,
        Op::Srl => x >> count,
        Op::Sra => (x.cast_signed() >> count).cast_unsigned(),
        Op::Addx => x.wrapping_add(y).wrapping_add(carry),
        Op::Subx => x.wrapping_sub(y).wrapping_sub(carry),
        Op::Mul => x.wrapping_mul(y),
    }
}

/// The results of an operation on each pair of words, with either carry.
fn plain_results(alloc: Global, op: Op, xs: [u32; 3], ys: [u32; 3]) -> Result<Vec<u32>, Fail> {
    let mut results = Vec::new(alloc);
    for x in &xs {
        for y in &ys {
            results.push(plain(op, *x, *y, 0))?;
            results.push(plain(op, *x, *y, 1))?;
        }
    }
    Ok(results)
}

/// Whether a value is the set of these words.
fn is_set_of(v: &Value, words: &[u32]) -> bool {
    match v {
        Value::Words(set) => {
            set.members().iter().all(|w| words.contains(w)) && words.iter().all(|w| set.has(*w))
        }
        _ => false,
    }
}

/// Whether an operation on two sets is the set of the results.
fn agrees(alloc: Global, op: Op, xs: [u32; 3], ys: [u32; 3]) -> Result<bool, Fail> {
    let t = Thresholds::make(alloc, &[])?;
    let a = cover(alloc, &xs, &t)?;
    let b = cover(alloc, &ys, &t)?;
    let v = apply(alloc, op, &a, &b, &t)?;
    let results = plain_results(alloc, op, xs, ys)?;
    Ok(is_set_of(&v, results.as_slice()))
}

/// Whether an operation agrees on each pair of the sets.
fn agrees_on_all(alloc: Global, op: Op) -> Result<bool, Fail> {
    for xs in &SETS {
        for ys in &SETS {
            if !agrees(alloc, op, *xs, *ys)? {
                return Ok(false);
            }
        }
    }
    Ok(true)
}

#[test]
fn sets_of_results(rt: HostRuntime) -> Result<(), Fail> {
    for op in &OPS {
        assert!(rt; agrees_on_all(rt.alloc(), *op)?, "{op:?}");
    }
    Ok(())
}
