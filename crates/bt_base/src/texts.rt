ghost use Rattle.std.specs.Prelude.{◌≡◌, ◌++◌, ◌/◌, ◌%◌, ◌^◌, ◌<◌, decimal, is_ok, string_bytes, IfOk, if◌then◌else◌};
ghost use Rattle.std.specs.Fmt.{signed_decimal};
ghost use Rattle.bt_base.specs.Text.{hex8_of, hex_digit};

use crate::Want;
use itoa::Buffer;
use std::alloc::Global;

/// The lower-case hexadecimal digit of a number below 16.
fn hex_digit(d: u8) -> u8
    requires { d < 16 }
    ensures { result ≡ hex_digit d }
{
    if d < 10 { b'0' + d } else { b'a' - 10 + d }
}

/// The number as eight lower-case hexadecimal digits.
pub fn hex8(v: u32) -> [u8; 8]
    ensures { result ≡ hex8_of v }
{
    let digit = |shift: u32| -> u8
        requires { shift < 32 }
        ensures { result ≡ hex_digit (v / 2 ^ shift % 16) }
    { hex_digit(((v >> shift) & 15) as u8) };
    [
        digit(28),
        digit(24),
        digit(20),
        digit(16),
        digit(12),
        digit(8),
        digit(4),
        digit(0),
    ]
}

/// The number as a text of eight lower-case hexadecimal digits, as addresses and words are shown.
pub fn hex8_text(alloc: Global, v: u32) -> Result<String, Want>
    ensures { IfOk result (λ text. string_bytes text ≡ hex8_of v) }
{
    let digits = Vec::from_slice(alloc, &hex8(v))?;
    match String::from_utf8(digits) {
        Ok(text) => Ok(text),
        Err(_) => unreachable!(),
    }
}

/// Appends the number in decimal. Where memory is wanting nothing changes.
pub fn put_decimal(out: &mut Vec<u8>, v: u64) -> Result<(), Want>
    ensures { out.new.items ≡ (if is_ok result then out.old.items ++ decimal v else out.old.items) }
{
    let mut buffer = Buffer::new();
    let text = buffer.format(v);
    out.extend_from_slice(text.as_bytes())?;
    Ok(())
}

/// Appends the number in decimal, with a minus sign where it is negative. Where memory is wanting nothing
/// changes.
pub fn put_signed(out: &mut Vec<u8>, v: i64) -> Result<(), Want>
    ensures { out.new.items ≡ (if is_ok result then out.old.items ++ signed_decimal v else out.old.items) }
{
    let mut buffer = Buffer::new();
    let text = buffer.format(v);
    out.extend_from_slice(text.as_bytes())?;
    Ok(())
}
