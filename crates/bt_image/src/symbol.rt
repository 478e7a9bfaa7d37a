//! The entries of the symbol table (System V ABI, "Object Files", "Symbol Table").
ghost use Rattle.std.specs.Prelude.{◌≡◌, ◌+◌, ◌≤◌, length};
ghost use Rattle.bt_image.specs.Symbol.{symbol_from, is_typed, may_be_function};

use crate::abi::{GLOBAL_NOTYPE, ST_INFO, ST_NAME, ST_SHNDX, ST_VALUE, STT_FUNC};
use crate::fields::{byte_field, half_field, word_field};

/// An entry of the symbol table, as far as it is looked at.
#[derive(Clone, Copy, Debug, PartialEq, Eq)]
pub struct Symbol {
    /// The place of its name in the strings.
    pub name: u32,
    /// Its value: an address, where it is a function.
    pub value: u32,
    /// Its type in the low four bits, its binding in the high four.
    pub info: u8,
    /// The number of the section that it is of. It is of none where that is 0 (SHN_UNDEF) or reserved, as fff1
    /// (SHN_ABS) and fff2 (SHN_COMMON) are.
    pub section: u16,
}

impl Symbol {
    /// The symbol that begins at a place of the file.
    pub fn read(file: &[u8], at: usize) -> Symbol
        requires { at + 16 ≤ length file.now }
        ensures { result ≡ symbol_from file.now at }
    {
        Symbol {
            name: word_field(file, at + ST_NAME),
            value: word_field(file, at + ST_VALUE),
            info: byte_field(file, at + ST_INFO),
            section: half_field(file, at + ST_SHNDX),
        }
    }

    /// Whether it is of type FUNC.
    pub fn is_typed(&self) -> bool
        ensures { result ≡ is_typed self.now }
    {
        self.info % 16 == STT_FUNC
    }

    /// Whether it is of type FUNC, or of no type and global.
    pub fn may_be_function(&self) -> bool
        ensures { result ≡ may_be_function self.now }
    {
        self.is_typed() || self.info == GLOBAL_NOTYPE
    }
}
