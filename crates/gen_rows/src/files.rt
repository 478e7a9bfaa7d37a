//! Executables that are made, word for word.
use gen_image::make;
use std::alloc::{AllocError, Global};
use std::test::Fail;

/// The executable of one function.
const ONE: [u32; 78] = [
    0x7f454c46, 0x01020100, 0, 0, 0x00020002, 1, 0x02000000, 0, 0x00000098, 0, 0x00340000,
    0x00000028, 0x00040003, 0x90a22001, 0x12bfffff, 0x01000000, 0x81c3e008, 0x01000000, 0x9de3bfa0,
    0x7ffffffa, 0x9010200c, 0x81c7e008, 0x81e80000, 0, 0, 0, 0, 1, 0x02000000, 0x00000014,
    0x12000001, 4, 0x02000014, 0x00000014, 0x12000001, 0x00663000, 0x6d61696e, 0, 0, 0, 0, 0, 0, 0,
    0, 0, 0, 0, 0, 1, 6, 0x02000000, 0x00000034, 0x00000028, 0, 0, 4, 0, 0, 2, 0, 0, 0x0000005c,
    0x00000030, 3, 1, 4, 0x00000010, 0, 3, 0, 0, 0x0000008c, 9, 0, 0, 1, 0,
];

/// That of two.
const TWO: [u32; 89] = [
    0x7f454c46, 0x01020100, 0, 0, 0x00020002, 1, 0x02000000, 0, 0x000000c4, 0, 0x00340000,
    0x00000028, 0x00040003, 0x90a22001, 0x12bfffff, 0x01000000, 0x81c3e008, 0x01000000, 0x90a22001,
    0x12bfffff, 0x01000000, 0x81c3e008, 0x01000000, 0x9de3bfa0, 0x7ffffff5, 0x9010200c, 0x7ffffff8,
    0x90102031, 0x81c7e008, 0x81e80000, 0, 0, 0, 0, 1, 0x02000000, 0x00000014, 0x12000001, 4,
    0x02000014, 0x00000014, 0x12000001, 7, 0x02000028, 0x0000001c, 0x12000001, 0x00663000,
    0x6631006d, 0x61696e00, 0, 0, 0, 0, 0, 0, 0, 0, 0, 0, 0, 1, 6, 0x02000000, 0x00000034,
    0x00000044, 0, 0, 4, 0, 0, 2, 0, 0, 0x00000078, 0x00000040, 3, 1, 4, 0x00000010, 0, 3, 0, 0,
    0x000000b8, 0x0000000c, 0, 0, 1, 0,
];

/// That of three.
const THREE: [u32; 101] = [
    0x7f454c46, 0x01020100, 0, 0, 0x00020002, 1, 0x02000000, 0, 0x000000f4, 0, 0x00340000,
    0x00000028, 0x00040003, 0x90a22001, 0x12bfffff, 0x01000000, 0x81c3e008, 0x01000000, 0x90a22001,
    0x12bfffff, 0x01000000, 0x81c3e008, 0x01000000, 0x90a22001, 0x12bfffff, 0x01000000, 0x81c3e008,
    0x01000000, 0x9de3bfa0, 0x7ffffff0, 0x9010200c, 0x7ffffff3, 0x90102031, 0x7ffffff6, 0x90102056,
    0x81c7e008, 0x81e80000, 0, 0, 0, 0, 1, 0x02000000, 0x00000014, 0x12000001, 4, 0x02000014,
    0x00000014, 0x12000001, 7, 0x02000028, 0x00000014, 0x12000001, 0x0000000a, 0x0200003c,
    0x00000024, 0x12000001, 0x00663000, 0x66310066, 0x32006d61, 0x696e0000, 0, 0, 0, 0, 0, 0, 0, 0,
    0, 0, 0, 1, 6, 0x02000000, 0x00000034, 0x00000060, 0, 0, 4, 0, 0, 2, 0, 0, 0x00000094,
    0x00000050, 3, 1, 4, 0x00000010, 0, 3, 0, 0, 0x000000e4, 0x0000000f, 0, 0, 1, 0,
];

/// The bytes of the words, the highest of each first.
fn bytes_of(alloc: Global, words: &[u32]) -> Result<Vec<u8>, AllocError> {
    let mut bytes = Vec::new(alloc);
    for word in words {
        bytes.extend_from_slice(&word.to_be_bytes())?;
    }
    Ok(bytes)
}

/// Executables of few functions.
#[test]
fn makes_files(rt: HostRuntime) -> Result<(), Fail> {
    assert_eq!(rt; make(rt.alloc(), 1)?, bytes_of(rt.alloc(), &ONE)?);
    assert_eq!(rt; make(rt.alloc(), 2)?, bytes_of(rt.alloc(), &TWO)?);
    assert_eq!(rt; make(rt.alloc(), 3)?, bytes_of(rt.alloc(), &THREE)?);
    Ok(())
}
