ghost use Rattle.std.specs.Prelude.{◌≡◌, ◌<◌, IsTrue, IfSome};
ghost use Rattle.std.specs.Char.{is_ascii_hexdigit, digit_value};
ghost use Rattle.std.specs.List.{list_all};
ghost use Rattle.assert_lang.specs.Bounds.{IsCount};
ghost use Rattle.assert_lang.specs.Number.{count_of, int_of, negative_of, range_from, range_of, hex_of, is_hex, hex_value};

use line_text::{cut_at, number_up_to};

/// The greatest count.
const MOST_COUNT: u64 = (1 << 62) - 1;

/// The greatest integer of 32 bits with sign, and the greatest number that may follow its `-`.
const MOST_POSITIVE: u64 = 2_147_483_647;

const MOST_NEGATIVE: u64 = 2_147_483_648;

/// The count that a word is: decimal digits, from 1 to 2^62 - 1.
pub fn count_of(word: &[u8]) -> Option<u64>
    ensures value { result ≡ count_of word.now }
    ensures within { IfSome result IsCount }
{
    match number_up_to(word, MOST_COUNT) {
        None => None,
        Some(count) => if count == 0 { None } else { Some(count) },
    }
}

/// The integer that decimal digits are behind a `-`.
fn negative_of(digits: &[u8]) -> Option<i32>
    ensures { result ≡ negative_of digits.now }
{
    match number_up_to(digits, MOST_NEGATIVE) {
        None => None,
        Some(number) => Some((-(number as i64)) as i32),
    }
}

/// The integer of 32 bits with sign that a word is: decimal digits, behind a `-` or not.
fn int_of(word: &[u8]) -> Option<i32>
    ensures { result ≡ int_of word.now }
{
    match word {
        [] => None,
        [sign, digits @ ..] => if *sign == b'-' {
            negative_of(digits)
        } else {
            match number_up_to(word, MOST_POSITIVE) {
                None => None,
                Some(number) => Some(number as i32),
            }
        },
    }
}

/// The integers of a range whose first `.` stands between these: another one follows it.
fn range_from(lo: &[u8], rest: &[u8]) -> Option<(i32, i32)>
    ensures { result ≡ range_from lo.now rest.now }
{
    match rest {
        [] => None,
        [dot, hi @ ..] => if *dot == b'.' {
            int_of(lo).zip(int_of(hi))
        } else {
            None
        },
    }
}

/// The two integers that a word is with `..` between them.
pub fn range_of(word: &[u8]) -> Option<(i32, i32)>
    ensures { result ≡ range_of word.now }
{
    match cut_at(word, b'.') {
        None => None,
        Some(cut) => range_from(cut.text, cut.rest),
    }
}

/// Whether all bytes are hexadecimal digits.
fn are_hex_digits(digits: &[u8]) -> bool
    ensures { result ≡ list_all is_ascii_hexdigit digits.now }
{
    digits.iter().all(|b| b.is_ascii_hexdigit())
}

/// Whether a word is one to eight hexadecimal digits.
fn is_hex(digits: &[u8]) -> bool
    ensures { result ≡ is_hex digits.now }
{
    1 <= digits.len() && digits.len() <= 8 && are_hex_digits(digits)
}

/// The value of a hexadecimal digit.
fn digit_value(digit: u8) -> u32
    requires { IsTrue (is_ascii_hexdigit digit) }
    ensures value { result ≡ digit_value digit }
    ensures within { result < 16 }
{
    if digit <= b'9' {
        u32::from(digit - b'0')
    } else if digit <= b'F' {
        u32::from(digit - b'A') + 10
    } else {
        u32::from(digit - b'a') + 10
    }
}

/// The value of at most eight hexadecimal digits.
fn hex_value(digits: &[u8]) -> u32
    requires { IsTrue (is_hex digits.now) }
    ensures { result ≡ hex_value digits.now }
{
    let mut value = 0;
    for digit in digits {
        value = value * 16 + digit_value(*digit);
    }
    value
}

/// The number that a word is in hexadecimal: `0x` and one to eight digits of either case.
pub fn hex_of(word: &[u8]) -> Option<u32>
    ensures { result ≡ hex_of word.now }
{
    match word {
        [zero, x, digits @ ..] => if *zero == b'0' && *x == b'x' && is_hex(digits) {
            Some(hex_value(digits))
        } else {
            None
        },
        _ => None,
    }
}
