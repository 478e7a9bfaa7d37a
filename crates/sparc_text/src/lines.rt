ghost use Rattle.std.specs.Prelude.{◌≡◌, ◌++◌, ◌+◌, IfOk, OnOk, MatchOption, string_bytes, true};
ghost use Rattle.std.specs.Str.{IsUtf8};
ghost use Rattle.bt_image.specs.Image.{is_code, IsNextCode, HasNoCodeFrom};
ghost use Rattle.sparc_text.specs.Listing.{line_of, line_at, IsListing};

use crate::operands::{put, put_hex8};
use crate::texts::put_instruction;
use bt_base::Want;
use bt_image::Image;
use sparc_decode::decode;
use std::alloc::Global;

/// Appends the line of a word at an address, without its end.
#[tactic(auto, unfolding(crate::specs::Listing::line_of))]
fn put_line(out: &mut Vec<u8>, at: u32, word: u32) -> Result<(), Want>
    ensures appended { OnOk result (out.new.items ≡ out.old.items ++ line_of at word) }
    ensures text { OnOk result (IsUtf8 (line_of at word)) }
{
    put_hex8(out, at)?;
    put(out, " ")?;
    put_hex8(out, word)?;
    put(out, " ")?;
    put_instruction(out, at, word, decode(word))
}

/// The line of a word at an address, without its end: the address and the word, each in eight hexadecimal digits,
/// and the text of the instruction that the word stands for. Targets of branches and calls are addresses modulo
/// 2^32.
pub fn line(alloc: Global, at: u32, word: u32) -> Result<String, Want>
    ensures { IfOk result (λ text. string_bytes text ≡ line_of at word) }
{
    let mut text = Vec::new(alloc);
    put_line(&mut text, at, word)?;
    match String::from_utf8(text) {
        Ok(line) => Ok(line),
        Err(_) => unreachable!(),
    }
}

/// Appends the whole line at an address of an image.
#[tactic(auto, unfolding(crate::specs::Listing::line_at))]
fn put_line_at(out: &mut Vec<u8>, image: &Image, at: u32) -> Result<(), Want>
    ensures { OnOk result (out.new.items ≡ out.old.items ++ line_at image.now at) }
{
    match image.word_at(at) {
        Some(word) => {
            put_line(out, at, word)?;
            put(out, "\n")
        }
        // Each code address has a word: `code_has_words`.
        None => Ok(()),
    }
}

/// The least code address above one, if there is one.
fn code_above(image: &Image, at: u32) -> Option<u32>
    requires { is_code image.now at ≡ true }
    ensures { MatchOption result (HasNoCodeFrom image.now (at + 1)) (IsNextCode image.now (at + 1)) }
{
    image.next_code(at + 1)
}

/// The lines of every word of the code of an image by rising address, each ended by LF. An image without code has
/// none.
pub fn listing(alloc: Global, image: &Image) -> Result<Vec<u8>, Want>
    ensures { IfOk result (λ text. IsListing image.now text.items) }
{
    let mut text = Vec::new(alloc);
    let mut next = image.next_code(0);
    while let Some(at) = next {
        put_line_at(&mut text, image, at)?;
        next = code_above(image, at);
    }
    Ok(text)
}
