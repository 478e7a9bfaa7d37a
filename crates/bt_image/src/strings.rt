//! The strings that hold the symbols' names, each up to a zero byte (System V ABI, "Object Files", "String Table").
ghost use Rattle.std.specs.Prelude.{◌≡◌, ◌==◌, ◌≤◌, ℕ, length, nat_lt};
ghost use Rattle.std.specs.List.{position_or_len};
ghost use Rattle.bt_image.specs.Symbol.{name_at, is_ended};

/// How many bytes come before the first zero byte, or how many there are.
fn until_zero(bytes: &[u8]) -> usize
    ensures value { result ≡ position_or_len (λ b. b == 0) bytes.now }
    ensures within { result ≤ length bytes.now }
{
    for i in 0..bytes.len() {
        if bytes[i] == 0 {
            return i;
        }
    }
    bytes.len()
}

/// The name at a place of the strings: what stands before the next zero byte.
pub fn name_at(strings: &[u8], at: usize) -> &[u8]
    requires { at ≤ length strings.now }
    ensures { result.now ≡ name_at strings.now at }
{
    let rest = &strings[at..];
    &rest[..until_zero(rest)]
}

/// How many bytes the strings have up to the last zero byte and with it: the names that begin there end.
pub fn ended_len(strings: &[u8]) -> usize
    ensures ended { (at : ℕ) → is_ended strings.now at ≡ nat_lt at result }
    ensures within { result ≤ length strings.now }
{
    let mut ended = 0;
    for i in 0..strings.len() {
        if strings[i] == 0 {
            ended = i + 1;
        }
    }
    ended
}
