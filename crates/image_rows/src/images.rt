//! Images in words, with their answers.
use bt_image::{Counted, Image, ImageRefusal};
use std::alloc::{AllocError, Global};
use std::test::Fail;

/// An executable of 256 bytes: one function `f` of two instructions at 02000000, in the section 1. Its symbol
/// table is section 2, and section 3 has the strings.
const WORDS: [u32; 64] = [
    0x7f454c46, 0x01020100, 0, 0, 0x00020002, 1, 0x02000000, 0, 0x60, 0, 0x00340000, 0x28,
    0x00040003, 0x81c3e008, 0x01000000, 0, 0, 0, 0, 1, 0x02000000, 8, 0x12000001, 0x00660000, 0, 0,
    0, 0, 0, 0, 0, 0, 0, 0, 0, 1, 6, 0x02000000, 0x34, 8, 0, 0, 4, 0, 0, 2, 0, 0, 0x3c, 0x20, 3, 1,
    4, 0x10, 0, 3, 0, 0, 0x5c, 3, 0, 0, 1, 0,
];

/// The bytes of the words, the highest of each first.
fn bytes_of(alloc: Global, words: &[u32]) -> Result<Vec<u8>, AllocError> {
    let mut bytes = Vec::new(alloc);
    for word in words {
        bytes.extend_from_slice(&word.to_be_bytes())?;
    }
    Ok(bytes)
}

/// The bytes of the executable, with the words at some places of it set.
fn changed(alloc: Global, changes: &[(u32, u32)]) -> Result<Vec<u8>, AllocError> {
    let mut words = Vec::from_slice(alloc, &WORDS)?;
    for (at, word) in changes {
        let place = *at as usize / 4;
        if place < words.len() {
            words[place] = *word;
        }
    }
    bytes_of(alloc, &words)
}

/// The refusal of the bytes, if they are refused.
fn refusal(alloc: Global, bytes: &[u8]) -> Option<ImageRefusal> {
    match Image::read(alloc, bytes) {
        Ok(_) => None,
        Err(refusal) => Some(refusal),
    }
}

/// Words that are set in the executable, and what is refused then.
const REFUSALS: [(&[(u32, u32)], Option<ImageRefusal>); 24] = [
    (&[], None),
    (&[(0, 0x7f454c47)], Some(ImageRefusal::Magic)),
    (&[(4, 0x02020100)], Some(ImageRefusal::Class { got: 2 })),
    (&[(4, 0x01010100)], Some(ImageRefusal::Order { got: 1 })),
    (&[(16, 0x00010002)], Some(ImageRefusal::Kind { got: 1 })),
    (&[(16, 0x00020008)], Some(ImageRefusal::Machine { got: 8 })),
    (&[(44, 0x29)], Some(ImageRefusal::HeaderSize { got: 41 })),
    (
        &[(48, 0x04010003)],
        Some(ImageRefusal::Limit {
            what: Counted::Sections,
            count: 1025,
        }),
    ),
    (
        &[(32, 0x61)],
        Some(ImageRefusal::Short {
            need: 257,
            have: 256,
        }),
    ),
    (&[(48, 3)], None),
    (&[(156, 0x200)], Some(ImageRefusal::SectionOutside { n: 1 })),
    (
        &[(148, 0xfffffffc)],
        Some(ImageRefusal::SectionOutside { n: 1 }),
    ),
    (&[(148, 0x02000002)], Some(ImageRefusal::Alignment { n: 1 })),
    (&[(144, 0x806)], Some(ImageRefusal::Compressed { n: 1 })),
    (&[(224, 0x800)], Some(ImageRefusal::Compressed { n: 3 })),
    (
        &[(224, 2), (228, 0x02000004)],
        Some(ImageRefusal::SectionOverlap { a: 1, b: 3 }),
    ),
    (&[(224, 2), (228, 0x02000008)], None),
    (&[(200, 2)], Some(ImageRefusal::SymbolTable { n: 2 })),
    (&[(200, 9)], Some(ImageRefusal::SymbolTable { n: 2 })),
    (&[(212, 0x14)], Some(ImageRefusal::SymbolTable { n: 2 })),
    (&[(196, 0x21)], Some(ImageRefusal::SymbolTable { n: 2 })),
    (&[(76, 3)], Some(ImageRefusal::SymbolTable { n: 2 })),
    (&[(236, 2)], Some(ImageRefusal::SymbolTable { n: 2 })),
    (&[(80, 0xfffffff8), (148, 0xfffffff8)], None),
];

/// Whether the executable with some words set is refused so, or not at all.
fn is_refused(
    alloc: Global,
    changes: &[(u32, u32)],
    want: Option<ImageRefusal>,
) -> Result<bool, AllocError> {
    let bytes = changed(alloc, changes)?;
    Ok(refusal(alloc, &bytes) == want)
}

#[test]
fn refuses(rt: HostRuntime) -> Result<(), Fail> {
    for (changes, want) in &REFUSALS {
        assert!(rt; is_refused(rt.alloc(), changes, *want)?, "{changes:?}");
    }
    Ok(())
}

/// Whether the first bytes of the executable are too few.
fn is_short(alloc: Global, bytes: &[u8]) -> bool {
    let need = if bytes.len() < 52 { 52 } else { 256 };
    let have = bytes.len() as u64;
    refusal(alloc, bytes) == Some(ImageRefusal::Short { need, have })
}

/// The executable cut to fewer bytes.
#[test]
fn refuses_short_files(rt: HostRuntime) -> Result<(), Fail> {
    let bytes = changed(rt.alloc(), &[])?;
    for k in 0..bytes.len() {
        assert!(rt; is_short(rt.alloc(), &bytes[..k]));
    }
    assert!(rt; bytes.len() == 256);
    Ok(())
}

/// The executable with 262,145 symbols, of which none is a function.
fn many_symbols(alloc: Global) -> Result<Vec<u8>, AllocError> {
    let mut bytes = changed(alloc, &[(192, 0x100), (196, 0x00400010)])?;
    for _ in 0..262_145 {
        bytes.extend_from_slice(&[0; 16])?;
    }
    Ok(bytes)
}

/// The executable with 16,385 functions.
fn many_functions(alloc: Global) -> Result<Vec<u8>, AllocError> {
    let mut bytes = changed(
        alloc,
        &[(152, 0x100), (156, 65_540), (192, 65_796), (196, 262_160)],
    )?;
    for _ in 0..16_385 {
        bytes.extend_from_slice(&[0; 4])?;
    }
    for k in 0..16_385u32 {
        let symbol = bytes_of(alloc, &[1, 0x02000000 + 4 * k, 4, 0x12000001])?;
        bytes.extend_from_slice(&symbol)?;
    }
    Ok(bytes)
}

/// Whether bytes have so many of these, which is one too many.
fn has_too_many(alloc: Global, bytes: &[u8], what: Counted, count: u64) -> bool {
    refusal(alloc, bytes) == Some(ImageRefusal::Limit { what, count })
}

#[test]
fn refuses_many(rt: HostRuntime) -> Result<(), Fail> {
    let symbols = many_symbols(rt.alloc())?;
    assert!(rt; has_too_many(rt.alloc(), &symbols, Counted::Symbols, 262_145));
    let functions = many_functions(rt.alloc())?;
    assert!(rt; has_too_many(rt.alloc(), &functions, Counted::Functions, 16_385));
    Ok(())
}

/// The image of the executable with some words set, if it is not refused.
fn read(alloc: Global, changes: &[(u32, u32)]) -> Result<Option<Image>, AllocError> {
    let bytes = changed(alloc, changes)?;
    Ok(Image::read(alloc, &bytes).ok())
}

/// Addresses, and the words there.
const WORDS_AT: [(u32, Option<u32>); 6] = [
    (0x01fffffc, None),
    (0x02000000, Some(0x81c3e008)),
    (0x02000002, None),
    (0x02000004, Some(0x01000000)),
    (0x02000008, None),
    (0xfffffffc, None),
];

/// Whether the words and bytes of the executable are where they have to be.
fn has_contents(image: &Image) -> bool {
    for (at, want) in &WORDS_AT {
        if image.word_at(*at) != *want || image.code(*at) != want.is_some() {
            return false;
        }
    }
    image.bytes_at(0x02000003, 3).map(|b| b.len()) == Some(3)
        && image.bytes_at(0x02000006, 3).is_none()
        && image.readonly(0x02000007)
        && !image.readonly(0x02000008)
}

/// Whether the function of the executable has its name, and no other is found.
fn has_names(image: &Image) -> bool {
    image.functions() == [0x02000000].as_slice()
        && image.name_of(0x02000000) == Some(b"f".as_slice())
        && image.name_of(0x02000004).is_none()
        && image.entry_of(b"f") == Some(0x02000000)
        && image.entry_of(b"g").is_none()
}

/// Whether the next words of code are found.
fn has_next(image: &Image) -> bool {
    image.next_code(0) == Some(0x02000000)
        && image.next_code(0x02000001) == Some(0x02000004)
        && image.next_code(0x02000005).is_none()
}

/// Whether an address of code is in a function with these ends.
fn is_within(image: &Image, at: u32, low: u32, high: u64) -> bool {
    image.code(at) && image.extent(at) == (low, high)
}

/// What stands where in the executable.
#[test]
fn looks_up(rt: HostRuntime) -> Result<(), Fail> {
    let image = read(rt.alloc(), &[])?.ok_or("refused")?;
    assert!(rt; has_contents(&image) && has_names(&image) && has_next(&image));
    assert!(rt; is_within(&image, 0x02000004, 0x02000000, 0x02000008));
    let high = read(rt.alloc(), &[(80, 0xfffffff8), (148, 0xfffffff8)])?.ok_or("refused")?;
    assert!(rt; high.functions() == [0xfffffff8].as_slice());
    assert!(rt; is_within(&high, 0xfffffffc, 0xfffffff8, 1 << 32));
    Ok(())
}

/// An executable with two functions, `f` at 02000000 and `g` at 02000008, whose code words hold 02000004. Of its
/// data, two read-only sections hold 02000000 in the same bytes; the first also has 02000008 two bytes past a
/// multiple of 4. Two sections of two bytes have 0200000c between them. A writable one holds 02000008 and 0200000c.
fn labelled(alloc: Global, read_only: u32) -> Result<Vec<u8>, AllocError> {
    let words = [
        0x7f454c46, 0x01020100, 0, 0, 0x00020002, 1, 0x02000000, 0, 0x94, 0, 0x00340000, 0x28,
        0x00090007, 0x02000004, 0x01000000, 0x81c3e008, 0x01000000, 0x02000000, 0x00000200,
        0x00080000, 0x0200000c, 0x02000008, 0x0200000c, 0, 0, 0, 0, 1, 0x02000000, 8, 0x12000001,
        3, 0x02000008, 8, 0x12000001, 0x00660067, 0,
    ];
    let sections = [
        [0, 0, 0, 0, 0, 0, 0],
        [1, 6, 0x02000000, 0x34, 16, 0, 0],
        [1, 2, read_only, 0x44, 12, 0, 0],
        [1, 2, 0x50000000, 0x50, 2, 0, 0],
        [1, 2, 0x50000002, 0x52, 2, 0, 0],
        [1, 3, 0x60000000, 0x54, 8, 0, 0],
        [2, 0, 0, 0x5c, 48, 7, 16],
        [3, 0, 0, 0x8c, 5, 0, 0],
        [1, 2, 0x70000000, 0x44, 4, 0, 0],
    ];
    let mut bytes = bytes_of(alloc, &words)?;
    for s in sections {
        let header = [0, s[0], s[1], s[2], s[3], s[4], s[5], 0, 0, s[6]];
        bytes.extend_from_slice(&bytes_of(alloc, &header)?)?;
    }
    Ok(bytes)
}

/// The image of that executable, if it is not refused.
fn labelled_image(alloc: Global, read_only: u32) -> Result<Option<Image>, AllocError> {
    let bytes = labelled(alloc, read_only)?;
    Ok(Image::read(alloc, &bytes).ok())
}

/// Ends, and the labels between them.
const LABELS: [(u32, u64, &[u32]); 9] = [
    (0, 1 << 32, &[0x02000000, 0x02000004]),
    (0x02000000, 0x02000005, &[0x02000000, 0x02000004]),
    (0x02000000, 0x02000004, &[0x02000000]),
    (0x02000001, 0x02000005, &[0x02000004]),
    (0x02000004, 1 << 32, &[0x02000004]),
    (0x02000005, 1 << 32, &[]),
    (0, 0x02000000, &[]),
    (0x02000004, 0x02000004, &[]),
    (0x02000008, 0x02000000, &[]),
];

/// Whether the labels of code at the end of memory are found, and no function is taken.
fn has_high_labels(image: &Image) -> bool {
    image.labels(0, 1 << 32) == [0xfffffffc].as_slice()
        && image.labels(0xfffffffc, 0xfffffffd) == [0xfffffffc].as_slice()
        && image.labels(0, 0xfffffffc).is_empty()
        && image.taken_functions().is_empty()
}

/// The labels between some ends.
#[test]
fn finds_labels(rt: HostRuntime) -> Result<(), Fail> {
    let image = labelled_image(rt.alloc(), 0x40000000)?.ok_or("refused")?;
    for (lo, hi, want) in &LABELS {
        assert!(rt; image.labels(*lo, *hi) == *want, "from {lo:08x}");
    }
    assert!(rt; image.taken_functions() == [0x02000000, 0x02000008].as_slice());
    Ok(())
}

/// The labels where read-only words stand two bytes later, and where the code is at the end of memory.
#[test]
fn finds_moved_labels(rt: HostRuntime) -> Result<(), Fail> {
    let moved = labelled_image(rt.alloc(), 0x40000002)?.ok_or("refused")?;
    let labels = moved.labels(0x02000001, 1 << 32);
    assert!(rt; labels == [0x02000004, 0x02000008].as_slice());
    let changes = [(52, 0xfffffffc), (80, 0xfffffff8), (148, 0xfffffff8)];
    let high = read(rt.alloc(), &changes)?.ok_or("refused")?;
    assert!(rt; has_high_labels(&high));
    Ok(())
}
