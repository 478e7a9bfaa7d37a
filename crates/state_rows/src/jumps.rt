//! Where jumps to values may go, in an image of two instructions.
ghost use Rattle.value_lattice.specs.Value.{IsValue};

use bt_image::Image;
use jump_resolve::targets;
use std::alloc::{AllocError, Global};
use std::process::Abort;
use std::test::Fail;
use value_lattice::{Thresholds, Value, cover};

/// An executable of 256 bytes: two instructions at 02000000, in the section 1.
const WORDS: [u32; 64] = [
    0x7f454c46, 0x01020100, 0, 0, 0x00020002, 1, 0x02000000, 0, 0x60, 0, 0x00340000, 0x28,
    0x00040003, 0x81c3e008, 0x01000000, 0, 0, 0, 0, 1, 0x02000000, 8, 0x12000001, 0x00660000, 0, 0,
    0, 0, 0, 0, 0, 0, 0, 0, 0, 1, 6, 0x02000000, 0x34, 8, 0, 0, 4, 0, 0, 2, 0, 0, 0x3c, 0x20, 3, 1,
    4, 0x10, 0, 3, 0, 0, 0x5c, 3, 0, 0, 1, 0,
];

/// The bytes of the words, the highest of each first.
fn bytes_of(alloc: Global, words: &[u32]) -> Result<Vec<u8>, AllocError> {
    let mut bytes = Vec::new(alloc);
    for word in words {
        bytes.extend_from_slice(&word.to_be_bytes())?;
    }
    Ok(bytes)
}

/// The image of the executable.
fn image_of(rt: &impl Abort, alloc: Global, bytes: &[u8]) -> Image {
    match Image::read(alloc, bytes) {
        Ok(image) => image,
        Err(_) => panic!(rt; "refused"),
    }
}

/// Compares where a jump to a value goes.
fn compare(
    rt: &impl Abort,
    alloc: Global,
    v: &Value,
    candidates: &[u32],
    asserted: bool,
    list: &[u32],
    whole: bool,
) -> Result<(), Fail>
    requires { IsValue v.now }
{
    let bytes = bytes_of(alloc, &WORDS)?;
    let image = image_of(rt, alloc, &bytes);
    let resolved = targets(alloc, v, candidates, asserted, &image)?;
    assert_eq!(rt; resolved.list.as_slice(), list);
    assert_eq!(rt; resolved.whole, whole, "at {list:?}");
    Ok(())
}

#[test]
fn jumps_to_words(rt: HostRuntime) -> Result<(), Fail> {
    let alloc = rt.alloc();
    let t = Thresholds::make(alloc, &[])?;
    let cases: [(&[u32], &[u32], bool, &[u32], bool); 7] = [
        (
            &[0x02000000],
            &[0x02000004, 0x02000000],
            false,
            &[0x02000000],
            true,
        ),
        (
            &[0x02000004, 0x02000000],
            &[0x02000004, 0x02000000, 0x02000004],
            false,
            &[0x02000000, 0x02000004],
            true,
        ),
        (
            &[0x02000000, 0x03000000],
            &[0x02000000],
            false,
            &[0x02000000],
            false,
        ),
        (
            &[0x02000000, 0x03000000],
            &[0x02000000],
            true,
            &[0x02000000],
            true,
        ),
        (
            &[0x02000000, 0x02000002],
            &[0x02000000],
            false,
            &[0x02000000],
            true,
        ),
        (&[0x02000008], &[0x02000008], false, &[], false),
        (&[0x02000001], &[], false, &[], true),
    ];
    for (words, candidates, asserted, list, whole) in cases {
        assert!(rt; words.len() > 0);
        let v = cover(alloc, words, &t)?;
        compare(&rt, alloc, &v, candidates, asserted, list, whole)?;
    }
    Ok(())
}

#[test]
fn jumps_to_any_word(rt: HostRuntime) -> Result<(), Fail> {
    let alloc = rt.alloc();
    let t = Thresholds::make(alloc, &[])?;
    t.are_thresholds();
    let any = Value::top();
    let both: [u32; 2] = [0x02000000, 0x02000004];
    compare(
        &rt,
        alloc,
        &any,
        &[0x02000004, 0x02000000, 0x02000008],
        false,
        &both,
        false,
    )?;
    compare(
        &rt,
        alloc,
        &any,
        &[0x02000004, 0x02000000, 0x02000008],
        true,
        &both,
        true,
    )?;
    compare(
        &rt,
        alloc,
        &Value::Ret,
        &[0x02000004, 0x02000000],
        false,
        &both,
        false,
    )?;
    Ok(())
}
