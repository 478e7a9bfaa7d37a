ghost use Rattle.std.specs.Prelude.{◌≡◌, ◌+◌, ◌≤◌, min, true, IfSome};
ghost use Rattle.std.specs.Char.{is_ascii_digit};
ghost use Rattle.std.specs.List.{list_all};
ghost use Rattle.line_text.specs.Numeral.{is_decimal, value_of, number_up_to};

/// Whether all bytes are decimal digits.
fn are_digits(word: &[u8]) -> bool
    ensures { result ≡ list_all is_ascii_digit word.now }
{
    word.iter().all(|b| b.is_ascii_digit())
}

/// Whether a word is decimal digits, at least one.
fn is_decimal(word: &[u8]) -> bool
    ensures { result ≡ is_decimal word.now }
{
    !word.is_empty() && are_digits(word)
}

/// The value of decimal digits, or `most` + 1 where it is greater.
fn capped_value(word: &[u8], most: u64) -> u128
    requires { is_decimal word.now ≡ true }
    ensures { result ≡ min (value_of word.now) (most + 1) }
{
    let most = u128::from(most);
    let mut value = 0;
    for digit in word {
        value = (value * 10 + u128::from(*digit - b'0')).min(most + 1);
    }
    value
}

/// The number that a word is in decimal, if it is one and at most `most`. Leading zeros don't count, and a sign
/// is no digit.
pub fn number_up_to(word: &[u8], most: u64) -> Option<u64>
    ensures value { result ≡ number_up_to most word.now }
    ensures within { IfSome result (λ number. number ≤ most) }
{
    if !is_decimal(word) {
        return None;
    }
    let value = capped_value(word, most);
    if value > u128::from(most) {
        None
    } else {
        Some(value as u64)
    }
}
