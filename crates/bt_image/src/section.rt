//! The headers of sections (System V ABI, "Object Files", "Sections").
ghost use Rattle.std.specs.Prelude.{◌≡◌, ◌+◌, ◌<◌, ◌≤◌, length};
ghost use Rattle.bt_image.specs.Section.{section_from, has_flag, is_compressed, is_loaded, is_code_section, is_read_only_section, test_of};

use crate::abi::{
    SH_ADDR, SH_ENTSIZE, SH_FLAGS, SH_LINK, SH_OFFSET, SH_SIZE, SH_TYPE, SHF_ALLOC_BIT,
    SHF_COMPRESSED_BIT, SHF_EXECINSTR_BIT, SHF_WRITE_BIT, SHT_NOBITS,
};
use crate::fields::word_field;

/// The header of a section, as far as it is looked at.
#[derive(Clone, Copy, Debug, PartialEq, Eq)]
pub struct Section {
    /// Its type: 2 is a symbol table, 3 strings, 8 memory without bytes in the file.
    pub kind: u32,
    /// Its flags, a bit each: bit 0 for writable, 1 for allocated, 2 for executable, 11 for compressed.
    pub flags: u32,
    /// The address of its first byte in memory.
    pub address: u32,
    /// The place of its first byte in the file.
    pub offset: u32,
    /// How many bytes it has.
    pub size: u32,
    /// The number of a section that it refers to.
    pub link: u32,
    /// The size of an entry of it, where it is a table.
    pub entry_size: u32,
}

impl Section {
    /// A section without bytes.
    pub const EMPTY: Section = Section {
        kind: 0,
        flags: 0,
        address: 0,
        offset: 0,
        size: 0,
        link: 0,
        entry_size: 0,
    };

    /// The section whose header begins at a place of the file.
    pub fn read(file: &[u8], at: usize) -> Section
        requires { at + 40 ≤ length file.now }
        ensures { result ≡ section_from file.now at }
    {
        Section {
            kind: word_field(file, at + SH_TYPE),
            flags: word_field(file, at + SH_FLAGS),
            address: word_field(file, at + SH_ADDR),
            offset: word_field(file, at + SH_OFFSET),
            size: word_field(file, at + SH_SIZE),
            link: word_field(file, at + SH_LINK),
            entry_size: word_field(file, at + SH_ENTSIZE),
        }
    }

    /// Whether the flag of a bit is set.
    fn has_flag(&self, bit: u32) -> bool
        requires { bit < 32 }
        ensures { result ≡ has_flag self.now bit }
    {
        (self.flags >> bit) & 1 == 1
    }

    pub fn is_compressed(&self) -> bool
        ensures { result ≡ is_compressed self.now }
    {
        self.has_flag(SHF_COMPRESSED_BIT)
    }

    /// Whether it is in memory from the file: allocated, not of type NOBITS, and not empty.
    pub fn is_loaded(&self) -> bool
        ensures { result ≡ is_loaded self.now }
    {
        self.has_flag(SHF_ALLOC_BIT) && self.kind != SHT_NOBITS && self.size > 0
    }

    /// Whether it is loaded and has instructions.
    pub fn is_code(&self) -> bool
        ensures { result ≡ is_code_section self.now }
    {
        self.is_loaded() && self.has_flag(SHF_EXECINSTR_BIT)
    }

    /// Whether it is loaded, and is code or can't be written.
    pub fn is_read_only(&self) -> bool
        ensures { result ≡ is_read_only_section self.now }
    {
        self.is_loaded() && (self.has_flag(SHF_EXECINSTR_BIT) || !self.has_flag(SHF_WRITE_BIT))
    }

    /// The address past its last byte, which may be 2^32 and more.
    pub fn end(&self) -> u64
        ensures { result ≡ self.now.address + self.now.size }
    {
        u64::from(self.address) + u64::from(self.size)
    }
}

/// What a look-up asks of the section in which something stands.
#[derive(Clone, Copy, Debug, PartialEq, Eq)]
pub enum Access {
    /// It is loaded, writable or not.
    Loaded,
    /// It is read-only.
    ReadOnly,
    /// It is code.
    Code,
}

impl Access {
    /// Whether the section is of that kind.
    pub fn admits(self, s: &Section) -> bool
        ensures { result ≡ test_of self s.now }
    {
        match self {
            Access::Loaded => s.is_loaded(),
            Access::ReadOnly => s.is_read_only(),
            Access::Code => s.is_code(),
        }
    }
}
