//! The header of the file and the headers of its sections (System V ABI, "Object Files", "ELF Header").
ghost use Rattle.std.specs.Prelude.{◌≡◌, ◌≤◌, ◌<◌, length, OnOk, IfSome};
ghost use Rattle.bt_image.specs.File.{section_count};
ghost use Rattle.bt_image.specs.Refusal.{header_refusal, headers_refusal, HasHeaders, IsCheck};
ghost use Rattle.bt_image.specs.Section.{section_at, symbol_table};

use crate::abi::{
    E_MACHINE, E_SHENTSIZE, E_SHNUM, E_SHOFF, E_TYPE, EHDR_SIZE, EI_CLASS, EI_DATA, EI_MAG0,
    ELFCLASS32, ELFDATA2MSB, ELFMAG, EM_SPARC, ET_EXEC, SHDR_SIZE, SHT_SYMTAB,
};
use crate::fields::{byte_field, half_field, word_field};
use crate::refusal::{Counted, ImageRefusal};
use crate::section::Section;

/// How many sections there may be.
const MOST_SECTIONS: u16 = 1024;

/// Checks the file's header: an executable for SPARC in 32 bits, the highest byte first.
#[tactic(auto, unfolding(crate::specs::Refusal::header_refusal))]
pub fn check_header(file: &[u8]) -> Result<(), ImageRefusal>
    ensures check { IsCheck (header_refusal file.now) result }
    ensures long { OnOk result (52 ≤ length file.now) }
{
    let have = file.len() as u64;
    if have < EHDR_SIZE {
        return Err(ImageRefusal::Short {
            need: EHDR_SIZE,
            have,
        });
    }
    if word_field(file, EI_MAG0) != ELFMAG {
        return Err(ImageRefusal::Magic);
    }
    let class = byte_field(file, EI_CLASS);
    if class != ELFCLASS32 {
        return Err(ImageRefusal::Class { got: class });
    }
    let order = byte_field(file, EI_DATA);
    if order != ELFDATA2MSB {
        return Err(ImageRefusal::Order { got: order });
    }
    let kind = half_field(file, E_TYPE);
    if kind != ET_EXEC {
        return Err(ImageRefusal::Kind { got: kind });
    }
    let machine = half_field(file, E_MACHINE);
    if machine != EM_SPARC {
        return Err(ImageRefusal::Machine { got: machine });
    }
    Ok(())
}

/// How many sections the file has.
pub fn section_count(file: &[u8]) -> u16
    requires { 52 ≤ length file.now }
    ensures { result ≡ section_count file.now }
{
    half_field(file, E_SHNUM)
}

/// Checks the headers of the sections: where there are sections, their headers are of 40 bytes each, not too
/// many, and within the file.
#[tactic(auto, unfolding(crate::specs::Refusal::headers_refusal))]
pub fn check_headers(file: &[u8]) -> Result<(), ImageRefusal>
    requires { 52 ≤ length file.now }
    ensures check { IsCheck (headers_refusal file.now) result }
    ensures headers { OnOk result (HasHeaders file.now) }
{
    let count = section_count(file);
    if count == 0 {
        return Ok(());
    }
    let size = half_field(file, E_SHENTSIZE);
    if size != SHDR_SIZE {
        return Err(ImageRefusal::HeaderSize { got: size });
    }
    if count > MOST_SECTIONS {
        return Err(ImageRefusal::Limit {
            what: Counted::Sections,
            count: u64::from(count),
        });
    }
    let need = u64::from(word_field(file, E_SHOFF)) + u64::from(SHDR_SIZE) * u64::from(count);
    let have = file.len() as u64;
    if have < need {
        return Err(ImageRefusal::Short { need, have });
    }
    Ok(())
}

/// Section `n` of the file.
#[tactic(auto, unfolding(crate::specs::Section::section_at))]
pub fn section(file: &[u8], n: u16) -> Section
    requires headers { HasHeaders file.now }
    requires within { n < section_count file.now }
    ensures { result ≡ section_at file.now n }
{
    Section::read(
        file,
        word_field(file, E_SHOFF) as usize + SHDR_SIZE as usize * n as usize,
    )
}

/// The number of the symbol table: the first section of type SYMTAB.
pub fn symbol_table(file: &[u8]) -> Option<u16>
    requires { HasHeaders file.now }
    ensures value { result ≡ symbol_table file.now }
    ensures within { IfSome result (λ table. table < section_count file.now) }
{
    for n in 0..section_count(file) {
        if section(file, n).kind == SHT_SYMTAB {
            return Some(n);
        }
    }
    None
}
