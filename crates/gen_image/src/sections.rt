//! The headers of the sections.
ghost use Rattle.std.specs.Prelude.{◌≡◌, ◌++◌, OnOk};
ghost use Rattle.gen_image.specs.File.{sections};
ghost use Rattle.gen_image.specs.Layout.{layout_of};
ghost use Rattle.gen_image.specs.Section.{section_bytes, null_section, text_section, symbol_section, string_section};

use crate::abi::{
    CODE, CODE_ADDRESS, EHDR_SIZE, SHT_PROGBITS, SHT_STRTAB, SHT_SYMTAB, STRTAB, SYM_SIZE,
};
use crate::layout::Layout;
use crate::words::put_words;
use bt_base::Want;

/// The header of a section without a name (System V ABI, "Sections"): its type and flags, its address in memory, its
/// place and size in the file in bytes, the section that it is linked to, what else is known of it, what its address is a
/// multiple of, and the size of its entries.
#[derive(Clone, Copy)]
pub struct SectionHeader {
    pub kind: u32,
    pub flags: u32,
    pub address: u32,
    pub offset: u32,
    pub size: u32,
    pub link: u32,
    pub info: u32,
    pub alignment: u32,
    pub entry_size: u32,
}

/// The header of the null section.
fn null_section() -> SectionHeader
    ensures { result ≡ null_section }
{
    SectionHeader {
        kind: 0,
        flags: 0,
        address: 0,
        offset: 0,
        size: 0,
        link: 0,
        info: 0,
        alignment: 0,
        entry_size: 0,
    }
}

/// The header of the code.
fn text_section(offset: u32, size: u32) -> SectionHeader
    ensures { result ≡ text_section offset size }
{
    SectionHeader {
        kind: SHT_PROGBITS,
        flags: CODE,
        address: CODE_ADDRESS,
        offset,
        size,
        link: 0,
        info: 0,
        alignment: 4,
        entry_size: 0,
    }
}

/// The header of the symbol table, of which all symbols but the null symbol are global.
fn symbol_section(offset: u32, size: u32) -> SectionHeader
    ensures { result ≡ symbol_section offset size }
{
    SectionHeader {
        kind: SHT_SYMTAB,
        flags: 0,
        address: 0,
        offset,
        size,
        link: u32::from(STRTAB),
        info: 1,
        alignment: 4,
        entry_size: SYM_SIZE,
    }
}

/// The header of the strings.
fn string_section(offset: u32, size: u32) -> SectionHeader
    ensures { result ≡ string_section offset size }
{
    SectionHeader {
        kind: SHT_STRTAB,
        flags: 0,
        address: 0,
        offset,
        size,
        link: 0,
        info: 0,
        alignment: 1,
        entry_size: 0,
    }
}

/// Appends the header of a section.
#[tactic(auto, unfolding(crate::specs::Section::section_bytes))]
fn put_section(out: &mut Vec<u8>, header: SectionHeader) -> Result<(), Want>
    ensures { OnOk result (out.new.items ≡ out.old.items ++ section_bytes header) }
{
    let words = [
        0,
        header.kind,
        header.flags,
        header.address,
        header.offset,
        header.size,
        header.link,
        header.info,
        header.alignment,
        header.entry_size,
    ];
    put_words(out, &words)
}

/// Appends the headers of the four sections.
#[tactic(auto, unfolding(crate::specs::File::sections))]
pub fn put_sections(out: &mut Vec<u8>, at: Layout) -> Result<(), Want>
    ensures { OnOk result (out.new.items ≡ out.old.items ++ sections at) }
{
    put_section(out, null_section())?;
    put_section(out, text_section(u32::from(EHDR_SIZE), at.text_size))?;
    put_section(out, symbol_section(at.symbols_at, at.symbols_size))?;
    put_section(out, string_section(at.strings_at, at.strings_size))
}
