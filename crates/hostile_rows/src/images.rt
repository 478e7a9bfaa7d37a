//! Executables for rows: two that stand here word by word, and made ones with many functions, symbols and sections.
use std::alloc::Global;
use std::test::Fail;

/// The words of the executable of a leaf that only returns.
#[rattlefmt::skip]
pub const LEAF: [u32; 64] = [
    // Its header.
    0x7f45_4c46, 0x0102_0100, 0, 0, 0x0002_0002, 1, 0x0200_0000, 0, 0x60, 0, 0x0034_0000, 0x28, 0x0004_0003,
    // Its code.
    0x81c3_e008, 0x0100_0000,
    // Its symbols, and their names.
    0, 0, 0, 0, 1, 0x0200_0000, 8, 0x1200_0001, 0x0066_0000,
    // The headers of its sections.
    0, 0, 0, 0, 0, 0, 0, 0, 0, 0,
    0, 1, 6, 0x0200_0000, 0x34, 8, 0, 0, 4, 0,
    0, 2, 0, 0, 0x3c, 0x20, 3, 1, 4, 0x10,
    0, 3, 0, 0, 0x5c, 3, 0, 0, 1, 0,
];

/// The words of the executable of a module as a compiler makes it: five subprograms, one more of which only the time is
/// asserted, and a table of addresses.
#[rattlefmt::skip]
pub const MODULE: [u32; 162] = [
    0x7f45_4c46, 0x0102_0100, 0, 0, 0x0002_0002, 1, 0x0200_0000, 0, 0x0000_01c0, 0, 0x0034_0000, 0x0000_0028,
    0x0005_0004, 0x9210_2028, 0x9410_2000, 0xc202_0009, 0x92a2_6004, 0x12bf_fffe, 0x9402_8001, 0x81c3_e008,
    0x9010_000a, 0x80a2_2005, 0x1880_0011, 0x832a_2002, 0x0500_8040, 0x8410_a000, 0xc200_8001, 0x81c0_6000,
    0x0100_0000, 0x81c3_e008, 0x9010_2001, 0x81c3_e008, 0x9010_2002, 0x81c3_e008, 0x9010_2003, 0x81c3_e008,
    0x9010_2004, 0x81c3_e008, 0x9010_2005, 0x81c3_e008, 0x9010_2000, 0x90a2_2001, 0x12bf_ffff, 0x0100_0000,
    0x81c3_e008, 0x0100_0000, 0, 0x9de3_bfa0, 0xa010_200c, 0x7fff_fffd, 0x0100_0000, 0xa0a4_2001, 0x12bf_fffd,
    0x0100_0000, 0x81c7_e008, 0x81e8_0000, 0x9de3_bfa0, 0x7fff_ffd4, 0x0100_0000, 0x7fff_ffda, 0x0100_0000,
    0x7fff_ffec, 0x9010_2003, 0x7fff_ffea, 0x9010_2028, 0x7fff_ffee, 0x0100_0000, 0x81c7_e008, 0x81e8_0000,
    0x0200_0040, 0x0200_0048, 0x0200_0050, 0x0200_0058, 0x0200_0040, 0x0200_0060, 0, 0, 0, 0, 1, 0x0200_0000, 4,
    0x1200_0001, 6, 0x0200_0020, 4, 0x1200_0001, 0x0000_000a, 0x0200_0070, 4, 0x1200_0001, 0x0000_0010, 0x0200_0084,
    4, 0x1200_0001, 0x0000_0016, 0x0200_0088, 4, 0x1200_0001, 0x0000_001c, 0x0200_00ac, 4, 0x1200_0001, 0x0069_7375,
    0x6d00_7365, 0x6c00_6465, 0x6c61_7900, 0x2e75_6d75, 0x6c00_7363, 0x616c_6500, 0x6d61_696e, 0, 0, 0, 0, 0, 0, 0,
    0, 0, 0, 0, 0, 1, 6, 0x0200_0000, 0x0000_0034, 0x0000_00e0, 0, 0, 4, 0, 0, 1, 2, 0x0201_0000, 0x0000_0114,
    0x0000_0018, 0, 0, 4, 0, 0, 2, 0, 0, 0x0000_012c, 0x0000_0070, 4, 1, 4, 0x0000_0010, 0, 3, 0, 0, 0x0000_019c,
    0x0000_0021, 0, 0, 1, 0,
];

/// What a made executable has.
#[derive(Drop)]
pub struct Made {
    /// Its code, at 02000000.
    pub code: Vec<u32>,
    /// How many functions it has, all of the name `f`.
    pub functions: u32,
    /// How many words lie between the entries of two functions that follow each other.
    pub stride: u32,
    /// How many symbols it has besides, which are no functions.
    pub symbols: u32,
    /// How many sections it has besides the first four, which aren't loaded.
    pub sections: u32,
}

/// Appends words, the highest byte of each first.
fn put_words(file: &mut Vec<u8>, words: &[u32]) -> Result<(), Fail> {
    for word in words {
        file.extend_from_slice(&word.to_be_bytes())?;
    }
    Ok(())
}

/// The bytes of words, the highest of each first.
pub fn bytes_of(alloc: Global, words: &[u32]) -> Result<Vec<u8>, Fail> {
    let mut bytes = Vec::new(alloc);
    put_words(&mut bytes, words)?;
    Ok(bytes)
}

/// How many bytes there are: where the next one stands. No file here has more than such a number tells.
fn end_of(file: &[u8]) -> u32 {
    let end = file.len();
    if end > 0xffff_ffff {
        return 0xffff_ffff;
    }
    end as u32
}

/// The symbols of functions, between one that is none and further ones that are none.
fn symbols_of(alloc: Global, made: &Made) -> Result<Vec<u8>, Fail> {
    let mut table = vec![in alloc; 0u8; 16]?;
    let mut entry = 0x0200_0000u32;
    for _ in 0..made.functions {
        put_words(&mut table, &[1, entry, 4, 0x1200_0001])?;
        entry = entry.wrapping_add(made.stride.wrapping_mul(4));
    }
    for _ in 0..made.symbols {
        put_words(&mut table, &[0; 4])?;
    }
    Ok(table)
}

/// The headers of the sections: none, the code, the symbols and their names, and further ones that are none.
fn sections_of(alloc: Global, made: &Made, code: u32, table: u32) -> Result<Vec<u8>, Fail> {
    let mut headers = vec![in alloc; 0u8; 40]?;
    let table_at = code.saturating_add(52);
    let names_at = table_at.saturating_add(table);
    put_words(&mut headers, &[0, 1, 6, 0x0200_0000, 52, code, 0, 0, 4, 0])?;
    put_words(&mut headers, &[0, 2, 0, 0, table_at, table, 3, 1, 4, 16])?;
    put_words(&mut headers, &[0, 3, 0, 0, names_at, 3, 0, 0, 1, 0])?;
    for _ in 0..made.sections {
        put_words(&mut headers, &[0; 10])?;
    }
    Ok(headers)
}

/// The executable that has all this.
pub fn executable(alloc: Global, made: &Made) -> Result<Vec<u8>, Fail> {
    let code = bytes_of(alloc, &made.code)?;
    let table = symbols_of(alloc, made)?;
    let headers = sections_of(alloc, made, end_of(&code), end_of(&table))?;
    let start = end_of(&code)
        .saturating_add(end_of(&table))
        .saturating_add(56);
    let count = made.sections.wrapping_add(4).wrapping_mul(0x1_0000);
    let mut file = Vec::new(alloc);
    put_words(
        &mut file,
        &[
            0x7f45_4c46,
            0x0102_0100,
            0,
            0,
            0x0002_0002,
            1,
            0x0200_0000,
            0,
            start,
            0,
            0x0034_0000,
            0x28,
            count.wrapping_add(3),
        ],
    )?;
    file.extend_from_slice(&code)?;
    file.extend_from_slice(&table)?;
    put_words(&mut file, &[0x0066_0000])?;
    file.extend_from_slice(&headers)?;
    Ok(file)
}
