ghost use Rattle.std.specs.Prelude.{◌≡◌, ◌++◌, ◌∷◌, [], decimal, IfOk};
ghost use Rattle.bt_base.specs.Text.{hex8_of};
ghost use Rattle.wcet_report.specs.Line.{spaced, shown_byte, shown, shown_name, function_words};
ghost use Rattle.wcet_report.specs.Outcome.{bound_words};
ghost use Rattle.bt_image.specs.Symbol.{name_of};

use bt_base::{Want, hex8, put_decimal};
use bt_image::Image;

/// Appends a space and a word.
pub fn put_word(text: &mut Vec<u8>, word: &[u8]) -> Result<(), Want>
    ensures { IfOk result (λ _. text.new.items ≡ text.old.items ++ spaced (word.now ∷ [])) }
{
    text.push(b' ')?;
    text.extend_from_slice(word)?;
    Ok(())
}

/// Appends a space and an address in eight hexadecimal digits.
pub fn put_address(text: &mut Vec<u8>, address: u32) -> Result<(), Want>
    ensures { IfOk result (λ _. text.new.items ≡ text.old.items ++ spaced (hex8_of address ∷ [])) }
{
    put_word(text, &hex8(address))
}

/// Appends a space and a number in decimal.
pub(crate) fn put_number(text: &mut Vec<u8>, number: u64) -> Result<(), Want>
    ensures { IfOk result (λ _. text.new.items ≡ text.old.items ++ spaced (decimal number ∷ [])) }
{
    text.push(b' ')?;
    put_decimal(text, number)
}

/// Appends a byte of a name.
fn put_byte(text: &mut Vec<u8>, byte: u8) -> Result<(), Want>
    ensures { IfOk result (λ _. text.new.items ≡ text.old.items ++ shown_byte byte) }
{
    if (33..=126).contains(&byte) && byte != b'\\' {
        text.push(byte)?;
    } else {
        text.push(b'\\')?;
        text.extend_from_slice(&hex8(u32::from(byte))[6..])?;
    }
    Ok(())
}

/// Appends a name: visible ASCII but the backslash as it is, any other byte as a backslash and two digits.
fn put_name(text: &mut Vec<u8>, name: &[u8]) -> Result<(), Want>
    ensures { IfOk result (λ _. text.new.items ≡ text.old.items ++ shown name.now) }
{
    for byte in name {
        put_byte(text, *byte)?;
    }
    Ok(())
}

/// Appends the name of the function at an address, or a hyphen where there is none.
fn put_name_of(text: &mut Vec<u8>, image: &Image, entry: u32) -> Result<(), Want>
    ensures { IfOk result (λ _. text.new.items ≡ text.old.items ++ shown_name (name_of image.now entry)) }
{
    match image.name_of(entry) {
        Some(name) => put_name(text, name),
        None => {
            text.push(b'-')?;
            Ok(())
        }
    }
}

/// Appends the words of the function at an address, each behind a space.
#[tactic(auto, unfolding(crate::specs::Line::function_words))]
pub fn put_function(text: &mut Vec<u8>, image: &Image, entry: u32) -> Result<(), Want>
    ensures { IfOk result (λ _. text.new.items ≡ text.old.items ++ spaced (function_words image.now entry)) }
{
    put_address(text, entry)?;
    text.push(b' ')?;
    put_name_of(text, image, entry)
}

/// Appends the words of a bound.
pub(crate) fn put_bound(text: &mut Vec<u8>, bound: Option<u64>) -> Result<(), Want>
    ensures { IfOk result (λ _. text.new.items ≡ text.old.items ++ spaced (bound_words bound)) }
{
    match bound {
        Some(bound) => {
            put_word(text, b"bounded")?;
            put_number(text, bound)
        }
        None => put_word(text, b"unbounded"),
    }
}
