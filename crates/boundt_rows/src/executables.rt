//! Executables that are made for rows, of code at 02000000 and data at 02010000.
use std::alloc::Global;
use std::test::Fail;

/// What an executable is made of.
#[derive(Clone, Copy)]
pub struct Program {
    /// Its code, as words of hexadecimal digits.
    pub code: &'static str,
    /// The names and the entries of its functions.
    pub functions: &'static [(&'static str, u32)],
    /// Its data, as words of hexadecimal digits.
    pub data: &'static str,
    /// Whether the data may be written.
    pub writable: bool,
}

/// The bytes of words of hexadecimal digits.
pub fn bytes_of(alloc: Global, words: &str) -> Result<Vec<u8>, Fail> {
    let mut digits = String::new(alloc);
    for word in words.split_whitespace() {
        digits.push_str(word)?;
    }
    Ok(hex::decode(alloc, digits.as_str())?)
}

/// Appends words, the highest byte of each first.
pub fn put_words(file: &mut Vec<u8>, words: &[u32]) -> Result<(), Fail> {
    for word in words {
        file.extend_from_slice(&word.to_be_bytes())?;
    }
    Ok(())
}

/// How many bytes there are: where the next one stands. No file here has more than such a number tells.
pub fn end_of(file: &[u8]) -> u32 {
    let end = file.len();
    if end > 0xffff_ffff {
        return 0xffff_ffff;
    }
    end as u32
}

/// The symbols of functions, behind one that is none, and the bytes of their names.
fn symbols(alloc: Global, functions: &[(&'static str, u32)]) -> Result<(Vec<u8>, Vec<u8>), Fail> {
    let mut table = vec![in alloc; 0u8; 16]?;
    let mut names = vec![in alloc; 0u8]?;
    for (name, entry) in functions {
        put_words(&mut table, &[end_of(&names), *entry, 4, 0x1200_0001])?;
        names.extend_from_slice(name.as_bytes())?;
        names.push(0)?;
    }
    Ok((table, names))
}

/// An executable of this code, these functions and these data, which may be written or not.
pub fn executable(
    alloc: Global,
    code: &[u8],
    functions: &[(&'static str, u32)],
    data: &[u8],
    writable: bool,
) -> Result<Vec<u8>, Fail> {
    let (table, names) = symbols(alloc, functions)?;
    let mut file = vec![in alloc; 0u8; 52]?;
    file.extend_from_slice(code)?;
    let data_at = end_of(&file);
    file.extend_from_slice(data)?;
    let table_at = end_of(&file);
    file.extend_from_slice(&table)?;
    let names_at = end_of(&file);
    file.extend_from_slice(&names)?;
    let sections_at = end_of(&file);
    let flags = if writable { 3 } else { 2 };
    put_words(&mut file, &[0; 10])?;
    put_words(
        &mut file,
        &[0, 1, 6, 0x0200_0000, 52, end_of(code), 0, 0, 4, 0],
    )?;
    put_words(
        &mut file,
        &[0, 1, flags, 0x0201_0000, data_at, end_of(data), 0, 0, 4, 0],
    )?;
    put_words(
        &mut file,
        &[0, 2, 0, 0, table_at, end_of(&table), 4, 1, 4, 16],
    )?;
    put_words(
        &mut file,
        &[0, 3, 0, 0, names_at, end_of(&names), 0, 0, 1, 0],
    )?;
    let mut header = Vec::new(alloc);
    put_words(
        &mut header,
        &[
            0x7f45_4c46,
            0x0102_0100,
            0,
            0,
            0x0002_0002,
            1,
            0x0200_0000,
            0,
            sections_at,
            0,
            0x0034_0000,
            0x28,
            0x0005_0004,
        ],
    )?;
    header.extend_from_slice(file.get(52..).ok_or("no file")?)?;
    Ok(header)
}

/// The executable of a program.
pub fn executable_of(alloc: Global, program: &Program) -> Result<Vec<u8>, Fail> {
    let code = bytes_of(alloc, program.code)?;
    let data = bytes_of(alloc, program.data)?;
    executable(alloc, &code, program.functions, &data, program.writable)
}
