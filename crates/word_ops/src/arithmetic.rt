ghost use Rattle.std.specs.Prelude.{◌≡◌, ◌≤◌};
ghost use Rattle.word_ops.specs.Flags.{sum_flags_of, difference_flags_of, logic_flags_of};
ghost use Rattle.word_ops.specs.Word.{key, bit_of, sum_of, difference_of, product_of, sum_overflows, difference_overflows};

/// The integer condition codes.
#[derive(Clone, Copy, Debug, PartialEq, Eq)]
pub struct Flags {
    /// N: the result was negative.
    pub n: bool,
    /// Z: the result was zero.
    pub z: bool,
    /// V: the result passed 32 bits with sign.
    pub v: bool,
    /// C: there was a carry or a borrow.
    pub c: bool,
}

/// The key of a word: its value read with sign, plus 2^31.
fn key(x: u32) -> u32
    ensures { result ≡ key x }
{
    x.wrapping_add(0x8000_0000)
}

/// The sum of two words and a carry, modulo 2^32.
pub fn sum(x: u32, y: u32, carry: bool) -> u32
    ensures { result ≡ sum_of x y carry }
{
    let sum = x.wrapping_add(y);
    if carry { sum.wrapping_add(1) } else { sum }
}

/// The first word less the second and a borrow, modulo 2^32.
pub fn difference(x: u32, y: u32, borrow: bool) -> u32
    ensures { result ≡ difference_of x y borrow }
{
    let difference = x.wrapping_sub(y);
    if borrow {
        difference.wrapping_sub(1)
    } else {
        difference
    }
}

/// The low 32 bits of the product of two words: the same with sign and without.
pub fn product(x: u32, y: u32) -> u32
    ensures { result ≡ product_of x y }
{
    x.wrapping_mul(y)
}

/// A carry or a borrow as a number.
fn bit(b: bool) -> u64
    ensures value { result ≡ bit_of b }
    ensures small { result ≤ 1 }
{
    if b { 1 } else { 0 }
}

/// Whether the sum with sign of two words and a carry passes 32 bits.
pub fn overflows_up(x: u32, y: u32, carry: bool) -> bool
    ensures { result ≡ sum_overflows x y carry }
{
    let sum = u64::from(key(x)) + u64::from(key(y)) + bit(carry);
    !(0x8000_0000 <= sum && sum < 0x1_8000_0000)
}

/// Whether the difference with sign of two words and a borrow passes 32 bits.
pub fn overflows_down(x: u32, y: u32, borrow: bool) -> bool
    ensures { result ≡ difference_overflows x y borrow }
{
    let first = u64::from(key(x));
    let second = u64::from(key(y)) + bit(borrow);
    !(second <= first + 0x8000_0000 && first < second + 0x8000_0000)
}

/// The condition codes of a sum.
pub fn sum_flags(x: u32, y: u32, carry: bool) -> Flags
    ensures { result ≡ sum_flags_of x y carry }
{
    let word = sum(x, y, carry);
    Flags {
        n: word >= 0x8000_0000,
        z: word == 0,
        v: overflows_up(x, y, carry),
        c: u64::from(x) + u64::from(y) + bit(carry) >= 0x1_0000_0000,
    }
}

/// The condition codes of a difference; a comparison sets those of its sources with no borrow.
pub fn difference_flags(x: u32, y: u32, borrow: bool) -> Flags
    ensures { result ≡ difference_flags_of x y borrow }
{
    let word = difference(x, y, borrow);
    Flags {
        n: word >= 0x8000_0000,
        z: word == 0,
        v: overflows_down(x, y, borrow),
        c: u64::from(x) < u64::from(y) + bit(borrow),
    }
}

/// The condition codes of a logical operation with this result.
pub fn logic_flags(word: u32) -> Flags
    ensures { result ≡ logic_flags_of word }
{
    Flags {
        n: word >= 0x8000_0000,
        z: word == 0,
        v: false,
        c: false,
    }
}
