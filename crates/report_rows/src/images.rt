//! Executables with functions of some names.
use bt_image::Image;
use std::alloc::{AllocError, Global};
use std::process::Abort;
use std::test::Fail;

/// The file's header, up to where the headers of its four sections follow: none, the code, the symbol table, and its
/// strings.
const HEADER: [u32; 13] = [
    0x7f454c46, 0x01020100, 0, 0, 0x00020002, 1, 0x02000000, 0, 0x34, 0, 0x00340000, 0x28,
    0x00040003,
];

/// The headers of no section, and of 512 bytes of code at 02000000.
const FIRST_SECTIONS: [u32; 20] = [
    0, 0, 0, 0, 0, 0, 0, 0, 0, 0, 0, 1, 6, 0x02000000, 0xd4, 0x200, 0, 0, 4, 0,
];

/// Appends words, the highest byte of each first.
fn put_words(bytes: &mut Vec<u8>, words: &[u32]) -> Result<(), AllocError> {
    for word in words {
        bytes.extend_from_slice(&word.to_be_bytes())?;
    }
    Ok(())
}

/// A length in 32 bits.
fn size_of(length: usize) -> u32 {
    u32::try_from(length).unwrap_or(0)
}

/// The symbols of functions, behind the one that is always first.
fn symbols(alloc: Global, functions: &[(u32, &[u8])]) -> Result<Vec<u8>, AllocError> {
    let mut bytes = Vec::new(alloc);
    put_words(&mut bytes, &[0, 0, 0, 0])?;
    let mut at = 1u32;
    for (entry, name) in functions {
        put_words(&mut bytes, &[at, *entry, 4, 0x12000001])?;
        at = at.wrapping_add(size_of(name.len())).wrapping_add(1);
    }
    Ok(bytes)
}

/// Their names, each behind a zero byte.
fn strings(alloc: Global, functions: &[(u32, &[u8])]) -> Result<Vec<u8>, AllocError> {
    let mut bytes = Vec::new(alloc);
    for (_, name) in functions {
        bytes.push(0)?;
        bytes.extend_from_slice(name)?;
    }
    bytes.push(0)?;
    Ok(bytes)
}

/// An executable with 512 bytes of code at 02000000 and these functions.
fn bytes_of(alloc: Global, functions: &[(u32, &[u8])]) -> Result<Vec<u8>, AllocError> {
    let symbols = symbols(alloc, functions)?;
    let strings = strings(alloc, functions)?;
    let table = size_of(symbols.len());
    let mut bytes = Vec::new(alloc);
    put_words(&mut bytes, &HEADER)?;
    put_words(&mut bytes, &FIRST_SECTIONS)?;
    put_words(&mut bytes, &[0, 2, 0, 0, 0x2d4, table, 3, 1, 4, 16])?;
    let behind = table.wrapping_add(0x2d4);
    put_words(
        &mut bytes,
        &[0, 3, 0, 0, behind, size_of(strings.len()), 0, 0, 1, 0],
    )?;
    for _ in 0..128 {
        put_words(&mut bytes, &[0x01000000])?;
    }
    bytes.extend_from_slice(&symbols)?;
    bytes.extend_from_slice(&strings)?;
    Ok(bytes)
}

/// That executable, which has to be read.
pub(crate) fn image_of(
    rt: &(impl Abort + AllocGlobal),
    functions: &[(u32, &[u8])],
) -> Result<Image, Fail> {
    let bytes = bytes_of(rt.alloc(), functions)?;
    match Image::read(rt.alloc(), &bytes) {
        Ok(image) => Ok(image),
        Err(_) => panic!(rt; "refused"),
    }
}
