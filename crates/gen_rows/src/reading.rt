//! Executables that are made, read back.
ghost use Rattle.std.specs.Prelude.{◌≤◌};

use bt_image::Image;
use gen_image::make;
use std::process::Abort;
use std::test::Fail;

/// The image of `n` functions, which has to be accepted.
fn image_of(rt: &(impl Abort + AllocGlobal), n: u32) -> Result<Image, Fail>
    requires some { 1 ≤ n }
    requires few { n ≤ 4000 }
{
    let bytes = make(rt.alloc(), n)?;
    match Image::read(rt.alloc(), &bytes) {
        Ok(image) => Ok(image),
        Err(_) => panic!(rt; "refused"),
    }
}

/// These words have to stand from an address on.
fn has_words(rt: &impl Abort, image: &Image, start: u32, words: &[u32]) {
    let mut at = start;
    for word in words {
        assert_eq!(rt; image.word_at(at), Some(*word));
        at = at.wrapping_add(4);
    }
}

/// Each word of each function.
fn has_functions(rt: &impl Abort, image: &Image, n: u32) {
    let words = [0x90a22001, 0x12bfffff, 0x01000000, 0x81c3e008, 0x01000000];
    let mut entry: u32 = 0x02000000;
    for _ in 0..n {
        has_words(rt, image, entry, &words);
        entry = entry.wrapping_add(20);
    }
}

/// From an address on, the call of each function and the word in its delay slot.
fn has_calls(rt: &impl Abort, image: &Image, start: u32, n: u32) {
    let mut at = start;
    let mut callee: u32 = 0x02000000;
    let mut count: u32 = 11;
    for _ in 0..n {
        let call = (callee.wrapping_sub(at) / 4) | 0x40000000;
        has_words(rt, image, at, &[call, (1 + count % 100) | 0x90102000]);
        at = at.wrapping_add(8);
        callee = callee.wrapping_add(20);
        count = count.wrapping_add(37);
    }
}

/// Each word of main, behind which no code stands.
fn has_main(rt: &impl Abort, image: &Image, n: u32) {
    let entry = 20u32.wrapping_mul(n).wrapping_add(0x02000000);
    has_words(rt, image, entry, &[0x9de3bfa0]);
    has_calls(rt, image, entry.wrapping_add(4), n);
    let end = entry.wrapping_add(8u32.wrapping_mul(n)).wrapping_add(4);
    has_words(rt, image, end, &[0x81c7e008, 0x81e80000]);
    assert_eq!(rt; image.word_at(end.wrapping_add(8)), None);
}

/// The functions and main, one behind the other, and the code.
#[test]
fn reads_back(rt: HostRuntime) -> Result<(), Fail> {
    for n in [1, 2, 100, 4000] {
        let image = image_of(&rt, n)?;
        let functions = image.functions();
        assert_eq!(rt; functions.len(), n as usize + 1);
        let mut entry: u32 = 0x02000000;
        for function in functions {
            assert_eq!(rt; *function, entry);
            entry = entry.wrapping_add(20);
        }
        assert_eq!(rt; image.entry_of(b"main"), functions.last().copied());
        has_functions(&rt, &image, n);
        has_main(&rt, &image, n);
    }
    Ok(())
}

/// Names of one, two and three digits, with their addresses.
#[test]
fn names_functions(rt: HostRuntime) -> Result<(), Fail> {
    let image = image_of(&rt, 101)?;
    let cases: [(&[u8], u32); 6] = [
        (b"f0", 0x02000000),
        (b"f9", 0x020000b4),
        (b"f10", 0x020000c8),
        (b"f99", 0x020007bc),
        (b"f100", 0x020007d0),
        (b"main", 0x020007e4),
    ];
    for (name, entry) in cases {
        assert_eq!(rt; image.entry_of(name), Some(entry));
        let found = image.name_of(entry).expect(&rt, "a name");
        assert_eq!(rt; found, name);
    }
    assert_eq!(rt; image.entry_of(b"f101"), None);
    assert!(rt; image.code(0x020007e4));
    assert_eq!(rt; image.extent(0x020007e4), (0x020007e4, 0x02000b18));
    Ok(())
}
