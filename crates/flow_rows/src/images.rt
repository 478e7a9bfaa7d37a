//! Executables of some words.
use bt_image::Image;
use std::alloc::Global;
use std::test::Fail;

/// The file's header, the headers of its four sections (none, 128 bytes of code at 1000, the symbol table, and its
/// strings), and the symbols and names of `f` at 1000 and `g` at 1040.
const BEFORE: [u32; 53] = [
    0x7f454c46, 0x01020100, 0, 0, 0x00020002, 1, 0x1000, 0, 0x34, 0, 0x00340000, 0x28, 0x00040003,
    0, 0, 0, 0, 0, 0, 0, 0, 0, 0, 0, 1, 6, 0x1000, 0x110, 0x80, 0, 0, 4, 0, 0, 2, 0, 0, 0xd4, 0x30,
    3, 1, 4, 16, 0, 3, 0, 0, 0x104, 5, 0, 0, 1, 0,
];

/// The symbols, their names, and seven bytes that nothing speaks of.
const SYMBOLS: [u32; 15] = [
    0, 0, 0, 0, 1, 0x1000, 0x40, 0x12000001, 3, 0x1040, 0x20, 0x12000001, 0x00660067, 0, 0,
];

/// The words behind `g`: the entry of `g`, and two labels of `f`.
const BEHIND: [u32; 8] = [0x1040, 0x1008, 0x100c, 0, 0, 0, 0, 0];

/// An executable with these words at 1000, and NOPs up to 1060; None where it is refused.
pub(crate) fn image_of(alloc: Global, words: &[u32]) -> Result<Option<Image>, Fail> {
    let mut bytes = Vec::new(alloc);
    for word in BEFORE.iter().chain(SYMBOLS.iter()) {
        bytes.extend_from_slice(&word.to_be_bytes())?;
    }
    for place in 0..24usize {
        let word = match words.get(place) {
            Some(word) => *word,
            None => 0x01000000,
        };
        bytes.extend_from_slice(&word.to_be_bytes())?;
    }
    for word in &BEHIND {
        bytes.extend_from_slice(&word.to_be_bytes())?;
    }
    match Image::read(alloc, &bytes) {
        Ok(image) => Ok(Some(image)),
        Err(_) => Ok(None),
    }
}

/// Whether an executable has its words and those behind `g`.
fn has_words(image: &Image) -> bool {
    image.word_at(0x1000) == Some(0x81c3e008)
        && image.word_at(0x1004) == Some(0x01000000)
        && image.word_at(0x1060) == Some(0x1040)
}

#[test]
fn reads(rt: HostRuntime) -> Result<(), Fail> {
    let image = image_of(rt.alloc(), &[0x81c3e008])?.ok_or("no image")?;
    assert!(rt; has_words(&image));
    Ok(())
}
